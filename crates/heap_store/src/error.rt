//! Why a call of a heap was refused, and what a note and a register come to.

use trace_types::Fault;

/// Why a call of a heap was refused.
#[derive(Clone, Copy, Debug, PartialEq, Eq)]
pub enum HeapError {
    /// An earlier call ran out of memory, or the parts of the heap are taken out: it holds nothing.
    Failed,
    /// This call ran out of memory, and the heap has failed.
    NoMemory,
    /// The command has this fault, and the heap is as it was before.
    Fault(Fault),
}

/// What a note and a register come to.
#[derive(Clone, Copy, Debug, PartialEq, Eq)]
pub enum Checked {
    /// The note is set to the object in the register.
    Kept,
    /// The note's object went, or it was moved.
    Gone,
    /// The note is set, and the register holds anything else.
    Other,
}
