//! One sweeper of a collection: it forwards the kept objects of its own threads and sweeps what it forwarded.
//!
//! Each object belongs to the sweeper of its thread, which alone copies it. A sweeper holds its territories and registers
//! by value, so that sweepers run in threads without sharing anything but the directory. A field that refers to an object
//! of its own gets the object's new place at once; for another sweeper's object a message goes out, and the place comes
//! with a message of a later round. The object that was forwarded last is swept first, so a list is followed to its end.
//!
//! For contracts a `Sweeper` is its share, registers, places and mail; `hand_of` makes the hand of the model of it, whose
//! laws say that each of its steps is an event of the core. Invariant: its parts are of one sweeper of one collection.
//! What copies or sends takes memory. That owners copy their own objects and ask each other is as in Chez Scheme's
//! parallel collector; the rounds and the protocol are this project's own.
#![tactic(auto)]

mod answering;
mod calls;
mod fields;
mod keeping;
mod lists;
mod olds;
mod round;
mod starting;
mod sweeper;
mod sweeping;

pub use calls::SweeperParts;
pub use sweeper::Sweeper;
