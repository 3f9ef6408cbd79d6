//! The heap: the objects of 64 threads, and the registers, locks, notes and registrations that refer to them.
//!
//! Objects lie in the segments of their creator's territory, as in Chez Scheme (Dybvig, Eby and Bruggeman,
//! "Don't Stop the BIBOP", 1994). Each call that performs a command of a trace does to the heap what the
//! command does to a state.
//!
//! Contracts see a `Heap` as its parts (`HeapView`), and say what it stands for: a heap `Stands` for a
//! state where its starts are the state's objects by birth and all that refers to a birth there refers here
//! to the one place with that birth. Its invariant: a heap that has not failed stands for some state, its
//! cards are sound, and it is plain (`IsPlain`), since the calls that make, lock, note or register more are
//! not built yet.
//!
//! `new`, `cons`, `make_box`, `vector` and `bytes` take memory. No other call does.
#![tactic(auto)]

mod creating;
mod error;
mod fields;
mod heap;
mod locks;
mod notes;
mod parts;
mod registers;
mod registry;
mod shape;

pub use error::{Checked, HeapError};
pub use heap::Heap;
pub use locks::Locks;
pub use notes::{Noted, Notes};
pub use parts::Parts;
pub use registry::Registry;

#[cfg(test)]
mod tests;
