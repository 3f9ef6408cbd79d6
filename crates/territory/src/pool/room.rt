//! Room for an object: in the open segment of its area, or in a segment that is opened for it.

ghost use Rattle.std.specs.Prelude.{◌≡◌, ◌+◌, ◌*◌, ◌<◌, ◌≤◌, cond, is_some, length, slice_index_or, slice_set, Some, None, IfOk, IfSome, OnErr};
ghost use Rattle.gc_words.specs.declared.address.TheConstants.{OFFSETS};
ghost use Rattle.segment.specs.declared.space.Space.TheVariants as space;
ghost use Rattle.territory.specs.Pools.{IsSettled};
ghost use Rattle.territory.specs.Changes.{IsSame, IsOpened, IsOpenRoom, IsRoom};

use super::Pool;
use gc_words::OFFSETS;
use segment::Space;
use std::alloc::AllocError;

/// An object of more words has a segment of its own.
pub const GREATEST_SHARED: usize = 128;

/// The words of a segment that objects share.
pub(super) const SHARED_WORDS: usize = 512;

/// How many objects can start in it.
pub(super) const SHARED_STARTS: usize = 256;

/// The generations 0 to 8.
const GENERATIONS: usize = 9;

/// Makes a segment the open one of an area, and answers how many areas are open that were not.
fn open_area(areas: &mut Vec<Option<usize>>, area: usize, segment: usize) -> u64
    requires { area < length areas.old.items }
    ensures areas { areas.new.items ≡ slice_set areas.old.items area (Some segment) }
    ensures more { result + cond (is_some (slice_index_or areas.old.items area None)) 1 0 ≡ 1 }
{
    let more = u64::from(areas[area].is_none());
    areas[area] = Some(segment);
    more
}

impl Pool {
    /// Opens a segment, at the next number: one of the list of its generation, in which nothing starts.
    /// Takes memory where no free segment of this size is there; refused, no segment in use has changed.
    fn open(
        &mut self,
        space: Space,
        generation: u8,
        words: usize,
        births: usize,
    ) -> Result<usize, AllocError>
        requires settled { IsSettled self.old }
        requires generation_in { generation < 9 }
        requires births_in { 2 * births ≤ words }
        requires single { 1 < births → words ≡ 512 }
        requires some { 0 < births }
        requires words_in { words ≤ OFFSETS }
        ensures settled { IsSettled self.new }
        ensures ok { IfOk result (λ n. IsOpened self.old self.new space generation words births n) }
        ensures areas { self.new.areas ≡ self.old.areas }
        ensures err { OnErr result (IsSame self.old self.new) }
    {
        let n = self.take_number()?;
        self.segments[n].open(space, generation, words, births)?;
        self.lists.push_last(1 + usize::from(generation), n);
        self.counts.segment_words += words as u64;
        Ok(n)
    }

    /// The open segment of an area, where it has one with room for so many words.
    #[inline(always)]
    fn open_room(&self, area: usize, size: usize) -> Option<usize>
        requires settled { IsSettled self.now }
        requires area_in { area < 72 }
        ensures { IfSome result (λ n. IsOpenRoom self.now area size n) }
    {
        let n = self.areas[area]?;
        if self.segments[n].has_room(size) {
            Some(n)
        } else {
            None
        }
    }

    /// A segment with room for an object of so many words: the open one of the space and generation, or one
    /// that is opened for it. An object of more than 128 words gets a segment of its own. Takes memory where
    /// it opens a segment; refused, no segment in use has changed.
    #[inline(always)]
    pub fn room_for(
        &mut self,
        space: Space,
        generation: u8,
        size: usize,
    ) -> Result<usize, AllocError>
        requires settled { IsSettled self.old }
        requires generation_in { generation < 9 }
        requires some { 2 ≤ size }
        requires size_in { size ≤ OFFSETS }
        ensures settled { IsSettled self.new }
        ensures ok { IfOk result (λ n. IsRoom self.old self.new space generation size n) }
        ensures err { OnErr result (IsSame self.old self.new) }
    {
        if size > GREATEST_SHARED {
            let n = self.open(space, generation, size, 1)?;
            return Ok(n);
        }
        let area = space.index() * GENERATIONS + usize::from(generation);
        if let Some(n) = self.open_room(area, size) {
            return Ok(n);
        }
        let n = self.open(space, generation, SHARED_WORDS, SHARED_WORDS / 2)?;
        let more = open_area(&mut self.areas, area, n);
        self.counts.open_areas += more;
        Ok(n)
    }

    /// The same for a pair.
    #[inline(always)]
    pub fn room_for_pair(&mut self, generation: u8) -> Result<usize, AllocError>
        requires settled { IsSettled self.old }
        requires generation_in { generation < 9 }
        ensures settled { IsSettled self.new }
        ensures ok { IfOk result (λ n. IsRoom self.old self.new space.Pair generation 2 n) }
        ensures err { OnErr result (IsSame self.old self.new) }
    {
        let area = Space::Pair.index() * GENERATIONS + usize::from(generation);
        if let Some(n) = self.open_room(area, 2) {
            return Ok(n);
        }
        self.open_for_pair(generation)
    }

    /// The same where the open segment may be full: out of the way of the many pairs that find room there.
    #[inline(never)]
    fn open_for_pair(&mut self, generation: u8) -> Result<usize, AllocError>
        requires settled { IsSettled self.old }
        requires generation_in { generation < 9 }
        ensures settled { IsSettled self.new }
        ensures ok { IfOk result (λ n. IsRoom self.old self.new space.Pair generation 2 n) }
        ensures err { OnErr result (IsSame self.old self.new) }
    {
        self.room_for(Space::Pair, generation, 2)
    }
}
