//! The replay of a trace: from the words and the bytes to the output, the message and the status.
//!
//! `replay_main` is all that the program does. Its contract is the headline: for every trace, where memory isn't refused
//! and no read or write fails, output, message and status are those of the run that the definitions give, and the heap
//! that is handed over stands for its last state.
//!
//! An `Engine` is a heap with the newest line that it performed; contracts see it as `EngineView`. Its invariant: no object
//! of the heap is newer than that line. `Engine::step` is the one way to a command.
//!
//! `Engine::new`, `Engine::step` and `replay_main` take memory, and answer by an error or a status where they get none.
#![tactic(auto)]

mod collecting;
mod engine;
mod lines;
mod printing;
mod put;
mod report;
mod top;
mod words;

pub use engine::Engine;
pub use heap_store::{Heap, HeapError};
pub use report::{Outcome, Status};
pub use top::replay_main;
pub use words::{Words, WordsError, read_words};
