//! Chains: lists of numbers that are linked in place, so that a number moves from one list to another at
//! once, wherever it stands.
//!
//! The memory layers keep what they number in such lists: the segments in use, the free ones and those of
//! a collection, and a guardian's registrations by level. For contracts `Chains` is a list of lists of
//! indices. Chain 0 holds the loose indices; each index moves between it and the other chains.
//!
//! Invariant (`EachOnce`, a clause of each call that changes something, and of `links`): each index below
//! the number of links stands in exactly one list, once, and no other number stands in any. Inside, a
//! chain is a circle of two-way links with a node of its own. `new` and `grow` alone take memory; no other
//! call walks a list or copies one.
#![tactic(auto)]

mod chains;
mod links;

pub use chains::Chains;
