//! What is shown of a territory one after the other, and what is counted.

ghost use Rattle.std.specs.Prelude.{◌≡◌, ◌<◌, Contains, IfSome, IsSome, is_some, slice_get};
ghost use Rattle.std.specs.List.{sum_by, count_by};
ghost use Rattle.std.specs.FinMap as map;
ghost use Rattle.territory.specs.Territories.{words_in, counts_as_held, is_cell, segment_at, starts_in, starts_of_generation, AreDirtyOnes, AreItsStarts, IsNext};

use super::{Territory, place};
use crate::counts::SegmentCounts;
use gc_words::Address;

impl Territory {
    /// How much is in use, by counters.
    pub fn counts(&self) -> SegmentCounts
        ensures words { result.segment_words ≡ sum_by words_in self.now.segments }
        ensures open_areas { result.open_areas ≡ count_by is_some self.now.areas }
        ensures held { result.held_segments ≡ count_by counts_as_held self.now.segments }
        ensures cells { result.cells ≡ count_by (λ x. is_cell x.kind) (map.values self.now.starts) }
    {
        self.pool.counts()
    }

    /// The first of the segments that have a card other than 255. None where there is none.
    pub fn first_dirty(&self) -> Option<u64>
        ensures first { result ≡ slice_get self.now.dirty 0 }
        ensures all { AreDirtyOnes self.now }
    {
        let n = self.pool.first_dirty()?;
        Some(n as u64)
    }

    /// The one after it. None where it is the last.
    pub fn next_dirty(&self, segment: u64) -> Option<u64>
        requires { Contains self.now.dirty segment }
        ensures next { IsNext self.now.dirty segment result }
        ensures all { AreDirtyOnes self.now }
    {
        let n = self.pool.next_dirty(segment as usize)?;
        Some(n as u64)
    }

    /// The first start of a generation; in a collection those in from-segments come last. None where the
    /// generation has no start.
    pub fn first_start(&self, generation: u8) -> Option<Address>
        requires { generation < 9 }
        ensures first { result ≡ slice_get (starts_of_generation self.now generation) 0 }
        ensures all { AreItsStarts self.now generation (starts_of_generation self.now generation) }
    {
        let n = self.pool.first_of(generation)?;
        self.first_in(n)
    }

    /// The start of the same generation after another. None where it is the last.
    pub fn next_start(&self, at: Address) -> Option<Address>
        requires { IsSome (map.get self.now.starts at) }
        ensures { IfSome (map.get self.now.starts at)
            (λ x. IsNext (starts_of_generation self.now x.generation) at result) }
    {
        let (n, k) = place(at);
        if let Some(next) = self.pool.segment(n).next_start(k + 1) {
            return Some(self.address(n, next));
        }
        let later = self.pool.next_of(n)?;
        self.first_in(later)
    }

    /// The first start of a segment in use.
    fn first_in(&self, n: usize) -> Option<Address>
        requires { IsSome (segment_at self.now n) }
        ensures some { IsSome result }
        ensures first { result ≡ slice_get (starts_in self.now n) 0 }
    {
        let k = self.pool.segment(n).next_start(0)?;
        Some(self.address(n, k))
    }
}
