//! Live words: what sweepers tell one another in the midst of a round, beside their messages.
//!
//! `ForwardTable` has a word for each object that may be forwarded. The owner stores the new place there,
//! and another sweeper that meets the object may load it and need not ask. A `SweepSeat` is a sweeper's
//! right to step on the words. `hint_ring` makes a ring by which one sweeper tells another what it will
//! ask for, so that the other may take it up sooner; a hint never replaces a message.
//!
//! For contracts a seat is its table and a view: ranges, number, floor, rights to claim, own forwards and
//! forwards seen. Invariant of the table, at each step of any thread (`KeepsRule` of specs/Forwarding): numbers
//! of seats differ and lie below word 0; each range has one writer; a word is 0 until its owner stores it,
//! and then that place for good; each seen pair is what its word holds. `ForwardTable::new`, `hint_ring` and
//! `claim_all` alone take memory.
//!
//! That a rule holds between any two atomic steps, whatever the schedule, is given by `atomic_table`; that
//! a ring gives what it took, in order, by `rtrb`. Here it is proved that each step keeps the rule.
#![tactic(auto)]

mod hints;
#[cfg(test)]
mod meeting;
mod plays;
mod ring;
mod seat;
mod table;
#[cfg(test)]
mod tests;
mod turns;
mod view;

pub use hints::{HintReceiver, HintSender};
pub use ring::hint_ring;
pub use seat::SweepSeat;
pub use table::ForwardTable;
pub use turns::claim_all;
