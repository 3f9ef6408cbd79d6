//! Words: what a field, a register or a queue holds, and the 64 bits that stand for it.
//!
//! An `Address` names the place of an object by its thread, its segment and its even offset in words.
//! Contracts see it as one number, the address number, and never its parts as fields. A `Value` is a
//! fixnum, one of four immediates or an object's address; `encode` and `decode` take it to its word and
//! back, and each undoes the other. `Registration` is what a guardian was told, and `owner_of` says which
//! sweeper works on a thread's objects.
//!
//! Invariant: each `Address` is in range and its offset is even. The widths of the three parts stand in
//! `address.rt` alone; crates above use `address_of`, `thread_of`, `segment_of` and `offset_of`, whose laws
//! are in proofs/Layout.antt. No call of this crate takes memory.
#![tactic(auto)]

mod address;
mod registration;
mod value;
mod word;

pub use address::{Address, OFFSETS, SEGMENTS, THREADS, owner_of};
pub use registration::Registration;
pub use value::Value;
pub use word::{decode, encode};
