//! What a seat knows of the words. It stands in contracts alone, and no value of it is made.

use std::collections::LinkedList;

/// A pair is a word and the address number that it holds.
pub struct View {
    /// The sizes of all ranges.
    pub ranges: LinkedList<usize>,
    /// The number that the seat claimed.
    pub number: Option<u64>,
    /// Word 0 is at least this.
    pub floor: u64,
    /// How many numbers may be claimed by the seat and those that are split off it.
    pub rights: u64,
    /// What the seat stored, the first first.
    pub own: LinkedList<(usize, u64)>,
    /// What it loaded, or took over from a seat that knew it.
    pub seen: LinkedList<(usize, u64)>,
}
