//! Objects in the segments of a pool.

ghost use Rattle.std.specs.Prelude.{◌≡◌, ◌<◌, cond, length, false, slice_set};
ghost use Rattle.segment.specs.Layout.{size_of, skip_of, kind_of, length_of, HasLength};
ghost use Rattle.segment.specs.Segments.{HasRoom, IsStart, is_free, object_at, grown, put_in};
ghost use Rattle.seg_chain.specs.Lists.{chain_of};
ghost use Rattle.territory.specs.Territories.{needs_mark};
ghost use Rattle.territory.specs.Pools.{IsSettled, numbered, is_cell_space, is_from_role, noted, dirty_after};

use super::Pool;
use cards::CLEAN;
use segment::{Role, Space};

/// How many cells an object of a space is: a queue cell is one.
#[inline(always)]
pub(super) fn cells_of(space: Space) -> u64
    ensures { result ≡ cond (is_cell_space space) 1 0 }
{
    match space {
        Space::Cell => 1,
        _ => 0,
    }
}

/// Whether a word of a start of this generation that refers to another needs a mark on its card: where the
/// other is younger, so that it could be collected before; and in a from-segment always, since the start
/// may get an older generation. 255 stands for no reference.
#[inline(always)]
fn needs_mark(role: Role, generation: u8, refers: u8) -> bool
    ensures { result ≡ needs_mark (is_from_role role) generation refers }
{
    match role {
        Role::From => refers < CLEAN,
        Role::Free | Role::Current => refers < generation,
    }
}

impl Pool {
    /// Makes an object at the top of segment `n`, and gives its offset.
    pub fn grow(&mut self, n: usize, first: u64, size: usize, birth: u32) -> usize
        requires settled { IsSettled self.old }
        requires within { n < length self.old.segments }
        requires used { is_free (numbered self.old.segments n).role ≡ false }
        requires room { HasRoom (numbered self.old.segments n) size }
        requires size_is { size ≡ size_of (numbered self.old.segments n).space first }
        requires born { 0 < birth }
        requires bare { skip_of (numbered self.old.segments n).space ≡ 0 → first ≡ 0 }
        requires has_length { let space = (numbered self.old.segments n).space in
            HasLength (kind_of space first) (length_of space first) }
        ensures settled { IsSettled self.new }
        ensures offset { result ≡ (numbered self.old.segments n).top }
        ensures segments { self.new.segments
            ≡ slice_set self.old.segments n (grown (numbered self.old.segments n) first size birth) }
        ensures areas { self.new.areas ≡ self.old.areas }
        ensures lists { self.new.lists ≡ self.old.lists }
        ensures dirty { self.new.dirty ≡ self.old.dirty }
    {
        let cells = cells_of(self.segments[n].space());
        let offset = self.segments[n].grow(first, size, birth);
        self.counts.cells += cells;
        offset
    }

    /// Puts a word into start `k` of segment `n` that refers to a generation; 255 stands for no reference. Where
    /// a mark is needed the card of the word gets it, and the segment is dirty from then on.
    #[inline(always)]
    pub fn put(&mut self, n: usize, k: usize, index: usize, word: u64, refers: u8)
        requires settled { IsSettled self.old }
        requires start { IsStart (numbered self.old.segments n) k }
        requires index_in { index < length (object_at (numbered self.old.segments n) k).words }
        ensures settled { IsSettled self.new }
        ensures segments { let word_put = put_in (numbered self.old.segments n) k index word in
            self.new.segments ≡ slice_set self.old.segments n (noted word_put k index refers) }
        ensures dirty { let word_put = put_in (numbered self.old.segments n) k index word in
            chain_of self.new.dirty 1 ≡ dirty_after word_put (chain_of self.old.dirty 1) n refers }
        ensures areas { self.new.areas ≡ self.old.areas }
        ensures lists { self.new.lists ≡ self.old.lists }
    {
        let segment = &mut self.segments[n];
        segment.put(k, index, word);
        if !needs_mark(segment.role(), segment.generation(), refers) {
            return;
        }
        let was_clean = segment.mark(k, index, refers);
        if was_clean {
            self.dirty.push_last(1, n);
        }
    }
}
