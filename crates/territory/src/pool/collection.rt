//! Segments that a collection sets aside.

ghost use Rattle.std.specs.Prelude.{◌≡◌, ℕ, ◌+◌, ◌<◌, ◌≤◌, cond, is_some, length, slice_index_or, slice_set, None};
ghost use Rattle.seg_chain.specs.Lists.{chain_of, link_count, spliced, EachOnce};
ghost use Rattle.territory.specs.Pools.{IsSettled};
ghost use Rattle.territory.specs.Changes.{AreSetAside, AreInUse, AreClosed, AreBegun};

use super::Pool;
use seg_chain::Chains;
use segment::Segment;

/// Sets the segments of a list aside.
fn set_list_aside(segments: &mut Vec<Segment>, lists: &Chains, list: usize)
    requires list_in { list < length lists.now }
    requires each_once { EachOnce lists.now }
    requires known { link_count lists.now ≤ length segments.old.items }
    requires in_use { AreInUse segments.old.items (chain_of lists.now list) }
    ensures { AreSetAside segments.old.items segments.new.items (chain_of lists.now list) }
{
    let mut at = lists.first(list);
    for _count in 0..segments.len() {
        match at {
            None => return,
            Some(n) => {
                segments[n].set_aside();
                at = lists.next(n);
            }
        }
    }
}

/// Closes the areas of a generation, and answers how many of them were open.
fn close_areas(areas: &mut Vec<Option<usize>>, generation: usize) -> u64
    requires areas_in { length areas.old.items ≡ 72 }
    requires generation_in { generation < 9 }
    ensures { AreClosed areas.old.items areas.new.items generation 8 result }
{
    let mut closed = 0;
    for space in 0..8 {
        closed += close_area(areas, space * 9 + generation);
    }
    closed
}

/// Closes an area, and answers 1 where it was open, else 0.
fn close_area(areas: &mut Vec<Option<usize>>, area: usize) -> u64
    requires { area < length areas.old.items }
    ensures areas { areas.new.items ≡ slice_set areas.old.items area None }
    ensures was_open { result ≡ cond (is_some (slice_index_or areas.old.items area None)) 1 0 }
{
    let was_open = u64::from(areas[area].is_some());
    areas[area] = None;
    was_open
}

impl Pool {
    /// Sets the segments of a generation aside, and closes its areas. A generation without segments has no
    /// open area: its areas are not looked at.
    fn set_generation_aside(&mut self, generation: u8)
        requires settled { IsSettled self.old }
        requires generation_in { generation < 9 }
        ensures settled { IsSettled self.new }
        ensures segments { AreSetAside self.old.segments self.new.segments (chain_of self.old.lists (1 + generation)) }
        ensures lists { self.new.lists ≡ spliced self.old.lists (1 + generation) (10 + generation) }
        ensures areas { (closed : ℕ) × AreClosed self.old.areas self.new.areas generation 8 closed }
        ensures dirty { self.new.dirty ≡ self.old.dirty }
    {
        let list = 1 + usize::from(generation);
        if self.lists.first(list).is_none() {
            return;
        }
        let closed = close_areas(&mut self.areas, usize::from(generation));
        set_list_aside(&mut self.segments, &self.lists, list);
        self.lists.splice(list, list + 9);
        self.counts.open_areas -= closed;
    }

    /// Sets the segments of the generations up to `cg` aside, and closes their areas: one generation after the other.
    fn set_generations_aside(&mut self, cg: u8)
        requires settled { IsSettled self.old }
        requires cg_in { cg < 9 }
        ensures settled { IsSettled self.new }
        ensures begun { AreBegun self.old self.new (cg + 1) }
    {
        for generation in 0..cg + 1 {
            self.set_generation_aside(generation);
        }
    }

    /// Sets the segments of the generations up to `cg` aside, and closes their areas.
    // Most threads have no segment at all, and each collection begins in all 64 of them.
    #[inline(always)]
    pub fn begin(&mut self, cg: u8)
        requires settled { IsSettled self.old }
        requires cg_in { cg < 9 }
        ensures settled { IsSettled self.new }
        ensures begun { AreBegun self.old self.new (cg + 1) }
    {
        if self.segments.is_empty() {
            return;
        }
        self.set_generations_aside(cg);
    }
}
