//! The segments of a territory by number, and what is kept of them.

ghost use Rattle.std.specs.Prelude.{◌≡◌, ◌<◌, ◌/◌, ◌↔◌, [], length, replicate, None, IfOk, IsTrue};
ghost use Rattle.segment.specs.Segments.{IsStart};
ghost use Rattle.territory.specs.Pools.{IsSettled, numbered};

mod collection;
mod copying;
mod finishing;
mod following;
mod lists;
mod numbers;
mod objects;
mod olds;
mod room;

use crate::counts::SegmentCounts;
pub use following::{Between, object_in};
pub use room::GREATEST_SHARED;
use seg_chain::Chains;
use segment::Segment;
use std::alloc::{AllocError, Global};
use std::marker::Model;

/// Eight spaces, each with the generations 0 to 8.
const AREAS: usize = 72;

/// The free numbers, and the segments and the from-segments of the generations 0 to 8.
const LISTS: usize = 19;

/// Segments by number.
#[derive(Drop)]
pub struct Pool {
    segments: Vec<Segment>,
    /// The number of the open segment of each area.
    areas: Vec<Option<usize>>,
    /// List 0 has the free numbers, 1 + g the segments of generation g, 10 + g its from-segments.
    lists: Chains,
    /// Chain 1 has the segments with a card that is not clean, chain 0 all others.
    dirty: Chains,
    counts: SegmentCounts,
}

impl Model for Pool {
    ghost use Rattle.territory.specs.Pools.{PoolView};

    ghost Value = { PoolView };

    ghost view = { λ a. record {
      segments = a.segments.items;
      areas = a.areas.items;
      lists = a.lists;
      dirty = a.dirty;
      counts = a.counts;
    } };
}

fn closed_areas(alloc: Global, count: usize) -> Result<Vec<Option<usize>>, AllocError>
    ensures { IfOk result (λ v. v.items ≡ replicate count None) }
{
    vec![in alloc; None; count]
}

impl Pool {
    /// A pool without segments.
    pub fn new(alloc: Global) -> Result<Pool, AllocError>
        ensures settled { IfOk result IsSettled }
        ensures segments { IfOk result (λ p. p.segments ≡ []) }
        ensures areas { IfOk result (λ p. p.areas ≡ replicate AREAS None) }
        ensures lists { IfOk result (λ p. p.lists ≡ replicate LISTS []) }
        ensures dirty { IfOk result (λ p. p.dirty ≡ replicate 2 []) }
    {
        let segments = Vec::new(alloc);
        let areas = closed_areas(alloc, AREAS)?;
        let lists = Chains::new(alloc, LISTS)?;
        let dirty = Chains::new(alloc, 2)?;
        let counts = SegmentCounts {
            segment_words: 0,
            open_areas: 0,
            held_segments: 0,
            cells: 0,
        };
        Ok(Pool {
            segments,
            areas,
            lists,
            dirty,
            counts,
        })
    }

    /// The segment of a number.
    #[inline(always)]
    pub fn segment(&self, n: usize) -> &Segment
        requires { n < length self.now.segments }
        ensures { result.now ≡ numbered self.now.segments n }
    {
        &self.segments[n]
    }

    /// Whether something starts at the offset, in words, of the segment of a number.
    pub fn is_start(&self, n: usize, offset: usize) -> bool
        ensures { IsTrue result ↔ IsStart (numbered self.now.segments n) (offset / 2) }
    {
        n < self.segments.len() && self.segments[n].is_start(offset)
    }

    /// The counters.
    pub fn counts(&self) -> SegmentCounts
        ensures { result ≡ self.now.counts }
    {
        self.counts
    }
}
