//! How much of a territory is in use.

/// Four numbers of a territory, kept as counters.
#[derive(Clone, Copy, Debug, PartialEq, Eq)]
pub struct SegmentCounts {
    /// The words of the segments in use, those set aside by a collection too.
    pub segment_words: u64,
    /// How many areas have an open segment.
    pub open_areas: u64,
    /// How many closed segments of 512 words a collection kept an object in at its place.
    pub held_segments: u64,
    /// How many queue cells there are.
    pub cells: u64,
}
