//! The directory of a collection: what lies in a from-segment, and which word it has.
//!
//! Once each territory has begun a collection, a `Directory` tells of any address whether it is collected, of
//! which generation, and to which generation what is kept goes. Each possible start of a from-segment has a
//! word, a number of its own; the words of a sweeper's threads are one range, as those of a table of
//! forwarding words are. So a sweeper finds the new place of an object by one look into a plain table.
//!
//! For contracts a `Directory` is its targets, its ranges and a table of from-segments for each thread.
//! Invariant: the words of a from-segment lie in the range of its owner, and no two have a word in common.
//! `new` alone takes memory. No call searches: a look-up is an index by thread and one by segment number, and
//! `find` tells by one look-up all that a collection wants to know of a reference. `find_near` needs none where
//! the reference before it led into the same from-segment. Most words refer to nothing collected: `reach` goes
//! from the first collected address to the last, and `Reach::object` passes over other words by a comparison.
#![tactic(auto)]

mod directory;
mod near;
mod numbering;
mod reach;
#[cfg(test)]
mod rows;
mod table;

pub use directory::{Directory, Found};
pub use near::Near;
pub use reach::Reach;
pub use table::FromSegment;
