//! Copies of starts in the segments of a pool.

ghost use Rattle.std.specs.Prelude.{◌≡◌, ◌≢◌, ℕ, ◌<◌, false, true, length, vec_len, IfOk, OnOk, OnErr};
ghost use Rattle.segment.specs.declared.space.Space.TheVariants as space;
ghost use Rattle.segment.specs.Segments.{IsSound, IsStart, HasRoom, is_free, size_at};
ghost use Rattle.territory.specs.Pools.{IsSettled, numbered};
ghost use Rattle.territory.specs.Changes.{IsSame};
ghost use Rattle.territory.specs.Copies.{with_copied, with_opened, IsLargeCopy};

use super::Pool;
use super::objects::cells_of;
use segment::Segment;
use std::alloc::AllocError;

impl Pool {
    /// Copies start `k` of segment `from`, of so many words, to the top of segment `n`, which is of the same
    /// space, and gives the copy's offset.
    #[inline(always)]
    pub fn copy(&mut self, from: usize, k: usize, n: usize, size: usize) -> usize
        requires settled { IsSettled self.old }
        requires start { IsStart (numbered self.old.segments from) k }
        requires size_is { size ≡ size_at (numbered self.old.segments from) k }
        requires within { n < length self.old.segments }
        requires used { is_free (numbered self.old.segments n).role ≡ false }
        requires space { (numbered self.old.segments from).space ≡ (numbered self.old.segments n).space }
        requires room { HasRoom (numbered self.old.segments n) size }
        ensures settled { IsSettled self.new }
        ensures offset { result ≡ (numbered self.old.segments n).top }
        ensures segments { self.new.segments ≡ with_copied self.old.segments from k n }
        ensures areas { self.new.areas ≡ self.old.areas }
        ensures lists { self.new.lists ≡ self.old.lists }
        ensures dirty { self.new.dirty ≡ self.old.dirty }
    {
        let cells = cells_of(self.segments[n].space());
        let offset = copy_start(&mut self.segments, from, k, n, size);
        self.counts.cells += cells;
        offset
    }

    /// The same for a pair: two words, and no cell.
    #[inline(always)]
    pub fn copy_pair(&mut self, from: usize, k: usize, n: usize) -> usize
        requires settled { IsSettled self.old }
        requires start { IsStart (numbered self.old.segments from) k }
        requires within { n < length self.old.segments }
        requires used { is_free (numbered self.old.segments n).role ≡ false }
        requires from_space { (numbered self.old.segments from).space ≡ space.Pair }
        requires space { (numbered self.old.segments n).space ≡ space.Pair }
        requires room { HasRoom (numbered self.old.segments n) 2 }
        ensures settled { IsSettled self.new }
        ensures offset { result ≡ (numbered self.old.segments n).top }
        ensures segments { self.new.segments ≡ with_copied self.old.segments from k n }
        ensures areas { self.new.areas ≡ self.old.areas }
        ensures lists { self.new.lists ≡ self.old.lists }
        ensures dirty { self.new.dirty ≡ self.old.dirty }
    {
        copy_two(&mut self.segments, from, k, n)
    }

    /// Copies start `k` of segment `from`, which has more than 128 words, into a segment of its own, which is
    /// opened with the copy at the next number. Takes memory; refused, no segment in use has changed.
    #[inline(never)]
    pub fn copy_large(&mut self, from: usize, k: usize, generation: u8) -> Result<usize, AllocError>
        requires settled { IsSettled self.old }
        requires start { IsStart (numbered self.old.segments from) k }
        requires large { 128 < size_at (numbered self.old.segments from) k }
        requires generation_in { generation < 9 }
        ensures settled { IsSettled self.new }
        ensures ok { IfOk result (λ n. IsLargeCopy self.old self.new from k generation n) }
        ensures err { OnErr result (IsSame self.old self.new) }
    {
        let n = self.take_number()?;
        open_apart(&mut self.segments, from, k, n, generation)?;
        self.lists.push_last(1 + usize::from(generation), n);
        self.counts.segment_words += self.segments[n].words() as u64;
        Ok(n)
    }
}

/// Opens a free segment with a copy of a start of another one.
fn open_apart(
    segments: &mut [Segment],
    from: usize,
    k: usize,
    n: usize,
    generation: u8,
) -> Result<(), AllocError>
    requires start { IsStart (numbered segments.old from) k }
    requires within { n < length segments.old }
    requires free { is_free (numbered segments.old n).role ≡ true }
    ensures ok { OnOk result (segments.new ≡ with_opened segments.old from k n generation) }
    ensures err { OnErr result (segments.new ≡ segments.old) }
{
    if from < n {
        let (front, back) = segments.split_at_mut(n);
        back[0].open_copy(&front[from], k, generation)
    } else {
        let (front, back) = segments.split_at_mut(from);
        front[n].open_copy(&back[0], k, generation)
    }
}

/// Copies a start of one segment to the top of a segment of the same space, and gives the copy's offset.
#[inline(always)]
fn copy_start(segments: &mut Vec<Segment>, from: usize, k: usize, n: usize, size: usize) -> usize
    requires sound { (m : ℕ) → IsSound (numbered segments.old.items m) }
    requires start { IsStart (numbered segments.old.items from) k }
    requires size_is { size ≡ size_at (numbered segments.old.items from) k }
    requires within { n < vec_len segments.old }
    requires space { (numbered segments.old.items from).space ≡ (numbered segments.old.items n).space }
    requires room { HasRoom (numbered segments.old.items n) size }
    ensures offset { result ≡ (numbered segments.old.items n).top }
    ensures after { segments.new.items ≡ with_copied segments.old.items from k n }
{
    if size == 2 {
        return copy_two(segments, from, k, n);
    }
    if from == n {
        return segments[n].copy_here(k, size);
    }
    copy_apart(segments, from, k, n, size)
}

/// The same for a start of two words, as pairs are: no call and no loop for its words.
#[inline(always)]
fn copy_two(segments: &mut Vec<Segment>, from: usize, k: usize, n: usize) -> usize
    requires sound { (m : ℕ) → IsSound (numbered segments.old.items m) }
    requires start { IsStart (numbered segments.old.items from) k }
    requires size_is { 2 ≡ size_at (numbered segments.old.items from) k }
    requires within { n < vec_len segments.old }
    requires space { (numbered segments.old.items from).space ≡ (numbered segments.old.items n).space }
    requires room { HasRoom (numbered segments.old.items n) 2 }
    ensures offset { result ≡ (numbered segments.old.items n).top }
    ensures after { segments.new.items ≡ with_copied segments.old.items from k n }
{
    let (first, second) = segments[from].two_words(k);
    let birth = segments[from].birth(k);
    segments[n].grow_two(first, second, birth)
}

/// The same from one segment to another.
fn copy_apart(segments: &mut [Segment], from: usize, k: usize, n: usize, size: usize) -> usize
    requires apart { from ≢ n }
    requires start { IsStart (numbered segments.old from) k }
    requires size_is { size ≡ size_at (numbered segments.old from) k }
    requires within { n < length segments.old }
    requires space { (numbered segments.old from).space ≡ (numbered segments.old n).space }
    requires room { HasRoom (numbered segments.old n) size }
    ensures offset { result ≡ (numbered segments.old n).top }
    ensures after { segments.new ≡ with_copied segments.old from k n }
{
    if from < n {
        let (front, back) = segments.split_at_mut(n);
        back[0].copy_from(&front[from], k, size)
    } else {
        let (front, back) = segments.split_at_mut(from);
        front[n].copy_from(&back[0], k, size)
    }
}
