//! Older objects under marked cards, from one dirty segment to the next.

ghost use Rattle.std.specs.Prelude.{◌≡◌, ℕ, ◌<◌, ◌≤◌, length, drop, slice_get, slice_set, Contains, IfSome, IfNone};
ghost use Rattle.cards.specs.declared.table.TheConstants.{CLEAN};
ghost use Rattle.seg_chain.specs.Lists.{chain_of};
ghost use Rattle.segment.specs.Segments.{NoneWithin, NoneFrom};
ghost use Rattle.territory.specs.Pools.{IsSettled, numbered, shows_dirty};
ghost use Rattle.territory.specs.Olds.{IsOldAt, IsFirstOld, AreAged, aged, byte_above, if_dirty};

use super::Pool;
use cards::CLEAN;

/// The byte that a card of generation `generation` gets where it had one of at most `cg`.
fn byte_above(cg: u8, generation: u8) -> u8
    requires { cg < 255 }
    ensures { result ≡ byte_above cg generation }
{
    if generation > cg + 1 { cg + 1 } else { CLEAN }
}

impl Pool {
    /// The first start of a segment, at or after `from`, that has a word under a card of at most `cg`,
    /// where the segment is of a generation above `cg`.
    pub fn old_in(&self, n: usize, from: usize, cg: u8) -> Option<usize>
        requires within { n < length self.now.segments }
        requires cg_in { cg < CLEAN }
        ensures some { IfSome result (λ k. (from ≤ k) × IsOldAt self.now.segments cg n k) }
        ensures least { IfSome result (NoneWithin (IsOldAt self.now.segments cg n) from) }
        ensures none { IfNone result (NoneFrom (IsOldAt self.now.segments cg n) from) }
    {
        let segment = &self.segments[n];
        if segment.generation() <= cg {
            return None;
        }
        segment.next_old(from, cg)
    }

    /// Segment and start of the first one of that kind, from the dirty segment `first` on.
    pub fn first_old(&self, first: Option<usize>, cg: u8) -> Option<(usize, usize)>
        requires settled { IsSettled self.now }
        requires dirty { IfSome first (Contains (chain_of self.now.dirty 1)) }
        requires cg_in { cg < CLEAN }
        ensures { (i : ℕ) → first ≡ slice_get (chain_of self.now.dirty 1) i
            → IsFirstOld self.now.segments cg (drop i (chain_of self.now.dirty 1)) result }
    {
        let mut at = first;
        for _count in 0..self.dirty.links() {
            let n = at?;
            if let Some(k) = self.old_in(n, 0, cg) {
                return Some((n, k));
            }
            at = self.dirty.next(n);
        }
        None
    }

    /// Raises the cards of a dirty segment that are at most `cg`, where it is of a generation above `cg`.
    /// Where all its cards are clean then, it is no dirty segment any more.
    fn raise_in(&mut self, n: usize, cg: u8)
        requires settled { IsSettled self.old }
        requires dirty { Contains (chain_of self.old.dirty 1) n }
        requires cg_in { cg < CLEAN }
        ensures settled { IsSettled self.new }
        ensures segments { self.new.segments
            ≡ slice_set self.old.segments n (aged cg (numbered self.old.segments n)) }
        ensures dirty { chain_of self.new.dirty 1
            ≡ if_dirty (shows_dirty (aged cg (numbered self.old.segments n))) n (chain_of self.old.dirty 1) }
        ensures areas { self.new.areas ≡ self.old.areas }
        ensures lists { self.new.lists ≡ self.old.lists }
    {
        let generation = self.segments[n].generation();
        if generation <= cg {
            return;
        }
        self.segments[n].raise_cards(cg, byte_above(cg, generation));
        if !self.segments[n].is_dirty() {
            self.dirty.unlink(1, n);
        }
    }

    /// Raises the cards of at most `cg` in the dirty segments of generations above `cg`.
    pub fn raise_cards(&mut self, cg: u8)
        requires settled { IsSettled self.old }
        requires cg_in { cg < CLEAN }
        ensures settled { IsSettled self.new }
        ensures aged { AreAged self.old self.new cg }
    {
        let mut at = self.dirty.first(1);
        for _count in 0..self.dirty.links() {
            match at {
                None => return,
                Some(n) => {
                    at = self.dirty.next(n);
                    self.raise_in(n, cg);
                }
            }
        }
    }
}
