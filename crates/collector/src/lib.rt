//! A whole collection of a heap.
//!
//! The parts of the heap are taken out: its territories set the collected generations aside, and are dealt out to
//! sweepers with the registers. The sweepers run in rounds, in threads, until nothing is left to do. Then what was not
//! forwarded is given back, and the parts are put in again. So a heap has failed while it is collected, and one that
//! ran out of memory then stays failed.
//!
//! For contracts a collection is the step of the definitions, on sets of objects named by their births: `collect` leaves
//! a heap that stands for the collected state, with sound cards, whatever the number of sweepers and the order of their
//! threads. So far it knows objects with strong fields or none, which are all that can be made. Between the calls of a
//! collection its parts have no invariant of their own; each call tells what it made of them. All calls here but
//! `number` take memory. Generations, targets and segments are as in Chez Scheme; the rounds are this project's own.
#![tactic(auto)]

mod arguments;
mod collection;
mod dealing;
mod gathering;
mod report;
mod sweeping;
#[cfg(test)]
mod tests;

pub use collection::collect;
pub use report::{Counts, Report};
