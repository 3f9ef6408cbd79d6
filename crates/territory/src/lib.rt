//! Territories: the segments of one creator thread, for objects of every kind and size.
//!
//! A segment holds objects of one space and one generation (Dybvig, Eby and Bruggeman, "Don't Stop the
//! BIBOP", 1994); it has 512 words, and an object of more than 128 words has one of its own. For contracts a
//! `Territory` is its starts by address, its segments by number, the open one of each space and generation,
//! the lists of free numbers and of segments, and the list of those with a marked card.
//!
//! Invariant: every number stands in the list of its segment's generation, once; an open segment is of its
//! area; the dirty ones are listed, and no others; four counters are what a count would give; each segment in
//! use has a start; between collections no start is held. `new`, `allocate`, `copy`, `copy_pair` and `follow`
//! alone take memory; no call looks through all segments.
#![tactic(auto)]

#[cfg(test)]
mod copy_rows;
mod counts;
#[cfg(test)]
mod follow_rows;
mod following;
#[cfg(test)]
mod old_rows;
mod pool;
#[cfg(test)]
mod rows;
mod territory;

pub use counts::SegmentCounts;
pub use following::{CopyLog, Followed};
pub use segment::Space;
pub use territory::{Targets, Territory};
