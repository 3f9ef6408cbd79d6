//! Copies of starts: the words and the birth of one at the top of a segment of the same space.

ghost use Rattle.std.specs.Prelude.{◌≡◌, ◌+◌, ◌*◌, ◌≤◌, ◌∷◌, [], vec_len, slice_index, take, drop};
ghost use Rattle.segment.specs.Layout.{size_of};
ghost use Rattle.segment.specs.Segments.{IsStart, HasRoom, size_at};
ghost use Rattle.segment.specs.Copies.{with_words, with_run, with_copy};

use super::Segment;
use crate::layout::size;

impl Segment {
    /// How many words a start takes, its header among them.
    #[inline(always)]
    pub fn size(&self, k: usize) -> usize
        requires { IsStart self.now k }
        ensures { result ≡ size_at self.now k }
    {
        size(self.space, self.words[2 * k])
    }

    /// The first two words of a start, which may be all.
    #[inline(always)]
    pub fn two_words(&self, k: usize) -> (u64, u64)
        requires { IsStart self.now k }
        ensures first { result.0 ≡ slice_index self.now.words (2 * k) }
        ensures second { result.1 ≡ slice_index self.now.words (2 * k + 1) }
    {
        (self.words[2 * k], self.words[2 * k + 1])
    }

    /// Makes an object of these two words at the top, and gives its offset. Takes no memory.
    #[inline(always)]
    pub fn grow_two(&mut self, first: u64, second: u64, birth: u32) -> usize
        requires room { HasRoom self.old 2 }
        requires size_is { size_of self.old.space first ≡ 2 }
        ensures offset { result ≡ self.old.top }
        ensures after { self.new ≡ with_run self.old (first ∷ second ∷ []) birth }
    {
        let at = self.top;
        self.words[at] = first;
        self.words[at + 1] = second;
        self.births[at / 2] = birth;
        self.starts += usize::from(birth > 0);
        self.top = at + 2;
        at
    }

    /// Copies a start of another segment of the same space to the top, and gives the copy's offset. Takes no
    /// memory.
    pub fn copy_from(&mut self, source: &Segment, k: usize, size: usize) -> usize
        requires space { source.now.space ≡ self.old.space }
        requires start { IsStart source.now k }
        requires size_is { size ≡ size_at source.now k }
        requires room { HasRoom self.old size }
        ensures offset { result ≡ self.old.top }
        ensures after { self.new ≡ with_copy self.old source.now k }
    {
        let at = self.top;
        copy_words(&mut self.words, at, &source.words, 2 * k, size);
        let birth = source.births[k];
        self.births[at / 2] = birth;
        self.starts += usize::from(birth > 0);
        self.top = at + size;
        at
    }

    /// Copies a start of this segment to the top, and gives the copy's offset. Takes no memory.
    pub fn copy_here(&mut self, k: usize, size: usize) -> usize
        requires start { IsStart self.old k }
        requires size_is { size ≡ size_at self.old k }
        requires room { HasRoom self.old size }
        ensures offset { result ≡ self.old.top }
        ensures after { self.new ≡ with_copy self.old self.old k }
    {
        let at = self.top;
        copy_within(&mut self.words, at, 2 * k, size);
        let birth = self.births[k];
        self.births[at / 2] = birth;
        self.starts += usize::from(birth > 0);
        self.top = at + size;
        at
    }
}

/// Puts `size` words of another list, from `from` on, in the place of those from `at` on.
fn copy_words(words: &mut Vec<u64>, at: usize, source: &Vec<u64>, from: usize, size: usize)
    requires from_in { from + size ≤ vec_len source.now }
    requires at_in { at + size ≤ vec_len words.old }
    ensures { words.new.items ≡ with_words words.old.items at (take size (drop from source.now.items)) }
{
    words[at..at + size].copy_from_slice(&source[from..from + size]);
}

/// The same with words of the list itself.
fn copy_within(words: &mut Vec<u64>, at: usize, from: usize, size: usize)
    requires from_in { from + size ≤ vec_len words.old }
    requires at_in { at + size ≤ vec_len words.old }
    ensures { words.new.items ≡ with_words words.old.items at (take size (drop from words.old.items)) }
{
    words.copy_within(from..from + size, at);
}
