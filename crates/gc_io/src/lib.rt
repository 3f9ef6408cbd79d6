//! What a run reads from, writes to, and passes between its rounds.
//!
//! A [`Source`] gives bytes, a [`Sink`] takes them, and a [`Gate`] is passed by each sweeper.
//! Contracts see of a source the bytes that it has left, and of a sink the bytes that were
//! written and how many of them are flushed, each only where it tells them, and of both a
//! count of faults. Bytes move in order, each once, and [`Failed`] comes only where the count
//! rose, with nothing moved. So a caller that is generic over them can't make up a fault.
//! [`MemSource`] and [`MemSink`] fail at the calls that they are told, and tell all that they
//! hold; [`StdSource`] and [`StdSink`] adapt std's readers and writers, and tell what those
//! tell. Invariant: a memory sink has written no more than its room.
//! Only [`MemSink::with_room`] takes memory. All of this is this project's own.
#![tactic(auto)]

mod calls;
mod memory;
mod standard;
mod traits;

pub use memory::{MemSink, MemSource};
pub use standard::{StdSink, StdSource};
pub use traits::{Failed, Gate, OpenGate, Sink, Source};
