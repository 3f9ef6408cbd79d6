//! The lists of a pool.

ghost use Rattle.std.specs.Prelude.{◌≡◌, ◌<◌, ◌≤◌, false, Contains, slice_get};
ghost use Rattle.seg_chain.specs.Lists.{chain_of};
ghost use Rattle.segment.specs.declared.segment.Role.TheVariants.{From};
ghost use Rattle.segment.specs.Segments.{is_free};
ghost use Rattle.territory.specs.Territories.{IsNext, from_list, from_on, numbers_of};
ghost use Rattle.territory.specs.Pools.{IsSettled, numbered};

use super::Pool;
use segment::Role;

impl Pool {
    /// The first dirty segment.
    pub fn first_dirty(&self) -> Option<usize>
        requires { IsSettled self.now }
        ensures { result ≡ slice_get (chain_of self.now.dirty 1) 0 }
    {
        self.dirty.first(1)
    }

    /// The dirty segment after another.
    pub fn next_dirty(&self, n: usize) -> Option<usize>
        requires settled { IsSettled self.now }
        requires dirty { Contains (chain_of self.now.dirty 1) n }
        ensures { IsNext (chain_of self.now.dirty 1) n result }
    {
        self.dirty.next(n)
    }

    /// The first segment of a generation: of those in use, and else of the from-segments.
    pub fn first_of(&self, generation: u8) -> Option<usize>
        requires settled { IsSettled self.now }
        requires generation_in { generation < 9 }
        ensures { result ≡ slice_get (numbers_of self.now.lists generation) 0 }
    {
        let first = self.lists.first(1 + usize::from(generation));
        if first.is_some() {
            return first;
        }
        self.lists.first(10 + usize::from(generation))
    }

    /// The segment of the same generation after another.
    pub fn next_of(&self, n: usize) -> Option<usize>
        requires settled { IsSettled self.now }
        requires used { is_free (numbered self.now.segments n).role ≡ false }
        ensures { IsNext (numbers_of self.now.lists (numbered self.now.segments n).generation) n result }
    {
        let next = self.lists.next(n);
        if next.is_some() {
            return next;
        }
        let segment = &self.segments[n];
        match segment.role() {
            Role::From => None,
            Role::Free | Role::Current => self.lists.first(10 + usize::from(segment.generation())),
        }
    }

    /// The first of all from-segments.
    // Most threads have no segment at all, and each collection asks all 64 of them.
    #[inline(always)]
    pub fn first_aside(&self) -> Option<usize>
        requires { IsSettled self.now }
        ensures { result ≡ slice_get (from_list self.now.lists) 0 }
    {
        if self.segments.is_empty() {
            return None;
        }
        self.first_from(0)
    }

    /// The first from-segment, of a generation at or after this one.
    pub fn first_from(&self, generation: u8) -> Option<usize>
        requires settled { IsSettled self.now }
        requires generation_in { generation ≤ 9 }
        ensures { result ≡ slice_get (from_on self.now.lists generation) 0 }
    {
        for later in generation..9 {
            let first = self.lists.first(10 + usize::from(later));
            if first.is_some() {
                return first;
            }
        }
        None
    }

    /// The from-segment after another.
    pub fn next_from(&self, n: usize) -> Option<usize>
        requires settled { IsSettled self.now }
        requires aside { (numbered self.now.segments n).role ≡ From }
        ensures { IsNext (from_list self.now.lists) n result }
    {
        let next = self.lists.next(n);
        if next.is_some() {
            return next;
        }
        let generation = self.segments[n].generation();
        self.first_from(generation + 1)
    }
}
