//! A segment: its making, its reading, and new objects and words in it.

ghost use Rattle.std.specs.Prelude.{◌≡◌, ◌+◌, ◌/◌, ◌*◌, ◌<◌, ◌↔◌, false, length, slice_index, IsTrue};
ghost use Rattle.segment.specs.Layout.{size_of};
ghost use Rattle.segment.specs.declared.space.Space.TheVariants.{Pair};
ghost use Rattle.segment.specs.Segments.{IsStart, HasRoom, count_of_births, is_some_marked, object_at, place_in, grown, put_in, marked_at};

mod aging;
mod collecting;
mod copying;
mod opening;
mod scan;

use crate::layout::{kind_of, length_of};
use crate::space::Space;
use cards::CardTable;
use std::marker::Model;
use trace_types::Kind;

/// What a segment is for.
#[derive(Clone, Copy, Debug, PartialEq, Eq)]
pub enum Role {
    /// Nothing: its number may be taken.
    Free,
    /// Its objects are those of its generation.
    Current,
    /// A collection copies its objects out, or holds them at their place.
    From,
}

/// A segment of one space and one generation.
#[derive(Drop)]
pub struct Segment {
    space: Space,
    generation: u8,
    role: Role,
    /// A collection kept an object at its place here.
    was_held: bool,
    /// Some card is not clean.
    is_dirty: bool,
    /// Where the next object would start.
    top: usize,
    words: Vec<u64>,
    /// For each two words the birth of what starts there, or 0.
    births: Vec<u32>,
    /// How many of them are not 0.
    starts: usize,
    cards: CardTable,
    /// For each two words whether the collection that goes on holds what starts there.
    marks: Vec<bool>,
    /// Some start is held.
    holds: bool,
}

impl Model for Segment {
    ghost use Rattle.std.specs.Prelude.{◌≡◌};
    ghost use Rattle.segment.specs.Segments.{Segment, IsSound, count_of_births, is_some_marked};

    ghost Value = { Segment };

    ghost view = { λ a. record {
      space = a.space;
      generation = a.generation;
      role = a.role;
      was_held = a.was_held;
      is_dirty = a.is_dirty;
      top = a.top;
      words = a.words.items;
      births = a.births.items;
      cards = a.cards;
      marks = a.marks.items;
    } };

    ghost invariant = { λ a. IsSound (record {
      space = a.space;
      generation = a.generation;
      role = a.role;
      was_held = a.was_held;
      is_dirty = a.is_dirty;
      top = a.top;
      words = a.words.items;
      births = a.births.items;
      cards = a.cards;
      marks = a.marks.items;
    }) × (a.starts ≡ count_of_births a.births.items) × (a.holds ≡ is_some_marked a.marks.items) };
}

impl Segment {
    /// The space of its objects.
    #[inline(always)]
    pub fn space(&self) -> Space
        ensures { result ≡ self.now.space }
    {
        self.space
    }

    /// The generation of its objects.
    #[inline(always)]
    pub fn generation(&self) -> u8
        ensures { result ≡ self.now.generation }
    {
        self.generation
    }

    /// What it is for.
    #[inline(always)]
    pub fn role(&self) -> Role
        ensures { result ≡ self.now.role }
    {
        self.role
    }

    /// Whether a collection kept an object at its place here.
    pub fn was_held(&self) -> bool
        ensures { result ≡ self.now.was_held }
    {
        self.was_held
    }

    /// Whether some card was marked.
    pub fn is_dirty(&self) -> bool
        ensures { result ≡ self.now.is_dirty }
    {
        self.is_dirty
    }

    /// How many objects and cells start in it, or started there when it was given back.
    pub fn starts(&self) -> usize
        ensures { result ≡ count_of_births self.now.births }
    {
        self.starts
    }

    /// Whether the collection that goes on holds some start at its place here.
    pub fn holds(&self) -> bool
        ensures { result ≡ is_some_marked self.now.marks }
    {
        self.holds
    }

    /// How many words it has.
    pub fn words(&self) -> usize
        ensures { result ≡ length self.now.words }
    {
        self.words.len()
    }

    /// Whether an object of so many words fits at the top.
    #[inline(always)]
    pub fn has_room(&self, size: usize) -> bool
        ensures { IsTrue result ↔ HasRoom self.now size }
    {
        size <= self.words.len() - self.top && self.top < 2 * self.births.len()
    }

    /// The same for an object of two words.
    #[inline(always)]
    pub fn has_room_for_two(&self) -> bool
        ensures { IsTrue result ↔ HasRoom self.now 2 }
    {
        2 * self.births.len() > self.top
    }

    /// Where the next object would start.
    #[inline(always)]
    pub fn top(&self) -> usize
        ensures { result ≡ self.now.top }
    {
        self.top
    }

    /// How many objects and cells can start in it.
    #[inline(always)]
    pub fn possible_starts(&self) -> usize
        ensures { result ≡ length self.now.births }
    {
        self.births.len()
    }

    /// All its words, and for each two of them the birth of what starts there, or 0.
    #[inline(always)]
    pub fn words_and_births(&self) -> (&[u64], &[u32])
        ensures words { result.0.now ≡ self.now.words }
        ensures births { result.1.now ≡ self.now.births }
    {
        (self.words.as_slice(), self.births.as_slice())
    }

    /// Whether an object or cell starts at the offset, in words.
    pub fn is_start(&self, offset: usize) -> bool
        ensures { IsTrue result ↔ IsStart self.now (offset / 2) }
    {
        self.role != Role::Free && offset / 2 < self.births.len() && self.births[offset / 2] > 0
    }

    /// The kind of what starts at offset 2 k.
    #[inline(always)]
    pub fn kind(&self, k: usize) -> Kind
        requires { IsStart self.now k }
        ensures { result ≡ (object_at self.now k).kind }
    {
        kind_of(self.space, self.words[2 * k])
    }

    /// Its length, in fields or in bytes; of a guardian 0, of a cell 2.
    #[inline(always)]
    pub fn length(&self, k: usize) -> u64
        requires { IsStart self.now k }
        ensures { result ≡ (object_at self.now k).length }
    {
        length_of(self.space, self.words[2 * k])
    }

    /// Its birth: the line that made it.
    #[inline(always)]
    pub fn birth(&self, k: usize) -> u32
        requires { IsStart self.now k }
        ensures { result ≡ (object_at self.now k).birth }
    {
        self.births[k]
    }

    /// A word of it, counted after the header.
    #[inline(always)]
    pub fn word(&self, k: usize, index: usize) -> u64
        requires start { IsStart self.now k }
        requires index_in { index < length (object_at self.now k).words }
        ensures { result ≡ slice_index (object_at self.now k).words index }
    {
        let skip = self.space.skip();
        self.words[2 * k + skip + index]
    }

    /// All its words, after the header; for byte objects the bytes, eight a word.
    #[inline(always)]
    pub fn fields(&self, k: usize) -> &[u64]
        requires { IsStart self.now k }
        ensures { result.now ≡ (object_at self.now k).words }
    {
        let count = self.count(k);
        let skip = self.space.skip();
        let from = 2 * k + skip;
        &self.words[from..from + count]
    }

    /// Puts another word there.
    #[inline(always)]
    pub fn put(&mut self, k: usize, index: usize, word: u64)
        requires start { IsStart self.old k }
        requires index_in { index < length (object_at self.old k).words }
        ensures { self.new ≡ put_in self.old k index word }
    {
        let skip = self.space.skip();
        let at = 2 * k + skip + index;
        self.words[at] = word;
    }

    /// The same in a pair, which has no header.
    #[inline(always)]
    pub fn put_in_pair(&mut self, k: usize, index: usize, word: u64)
        requires pair { self.old.space ≡ Pair }
        requires start { IsStart self.old k }
        requires index_in { index < length (object_at self.old k).words }
        ensures { self.new ≡ put_in self.old k index word }
    {
        self.words[2 * k + index] = word;
    }

    /// Notes on the card of a word that it refers to this generation, and says whether the segment was not
    /// dirty before.
    pub fn mark(&mut self, k: usize, index: usize, generation: u8) -> bool
        requires start { IsStart self.old k }
        requires index_in { index < length (object_at self.old k).words }
        requires generation_in { generation < 255 }
        ensures before { IsTrue result ↔ (self.old.is_dirty ≡ false) }
        ensures after { self.new ≡ marked_at self.old (place_in self.old k index) generation }
    {
        let skip = self.space.skip();
        self.cards.mark(2 * k + skip + index, generation);
        let was_clean = !self.is_dirty;
        self.is_dirty = true;
        was_clean
    }

    /// Makes an object at the top, and gives its offset: `first` is its first word, and all words after it
    /// are 0. Takes no memory.
    pub fn grow(&mut self, first: u64, size: usize, birth: u32) -> usize
        requires room { HasRoom self.old size }
        requires size_is { size ≡ size_of self.old.space first }
        ensures offset { result ≡ self.old.top }
        ensures after { self.new ≡ grown self.old first size birth }
    {
        let at = self.top;
        self.words[at] = first;
        self.births[at / 2] = birth;
        self.starts += usize::from(birth > 0);
        self.top = at + size;
        at
    }
}
