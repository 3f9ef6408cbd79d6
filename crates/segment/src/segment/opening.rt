//! A segment's memory: taken where it is opened, and given back.

ghost use Rattle.std.specs.Prelude.{◌≡◌, ℕ, ◌*◌, ◌<◌, ◌≤◌, true, false, length, vec_len, slice_index, replicate, None, IfOk, OnOk, OnErr};
ghost use Rattle.gc_words.specs.declared.address.TheConstants.{OFFSETS};
ghost use Rattle.segment.specs.Segments.{is_free, vacant, opened, renewed, emptied, given_back, spot, IsStart};
ghost use Rattle.segment.specs.Copies.{opened_copy};

use super::{Role, Segment};
use crate::space::Space;
use cards::{CardTable, WORDS_PER_CARD};
use std::alloc::{AllocError, Global};

impl Segment {
    /// A free segment without memory. Err where memory is refused.
    pub fn vacant(alloc: Global) -> Result<Segment, AllocError>
        ensures { IfOk result (λ s. s ≡ vacant) }
    {
        Ok(Segment {
            space: Space::Pair,
            generation: 0,
            role: Role::Free,
            was_held: false,
            is_dirty: false,
            top: 0,
            words: Vec::new(alloc),
            births: Vec::new(alloc),
            starts: 0,
            cards: CardTable::new(alloc, 0)?,
            marks: Vec::new(alloc),
            holds: false,
        })
    }

    /// Makes a free segment one of this space and generation, with so many words and possible starts, and
    /// no object yet. Where the segment has memory of just this size from its last use, that is used again.
    /// Err where memory is refused, which changes nothing.
    pub fn open(
        &mut self,
        space: Space,
        generation: u8,
        words: usize,
        births: usize,
    ) -> Result<(), AllocError>
        requires free { is_free self.old.role ≡ true }
        requires births_in { 2 * births ≤ words }
        requires single { 1 < births → words ≡ 512 }
        requires some { 0 < births }
        requires words_in { words ≤ OFFSETS }
        ensures ok { OnOk result (self.new ≡ opened space generation words births) }
        ensures starts { OnOk result ((k : ℕ) → spot self.new k ≡ None) }
        ensures err { OnErr result (self.new ≡ self.old) }
    {
        self.prepare(words, births)?;
        self.space = space;
        self.generation = generation;
        self.role = Role::Current;
        self.was_held = false;
        self.is_dirty = false;
        Ok(())
    }

    /// Makes a free segment one of this generation that has a copy of start `k` of another segment and nothing
    /// else, with memory of just its size. The words are copied into new memory, which is not cleared before.
    /// Err where memory is refused, which changes nothing.
    pub fn open_copy(
        &mut self,
        source: &Segment,
        k: usize,
        generation: u8,
    ) -> Result<(), AllocError>
        requires free { is_free self.old.role ≡ true }
        requires start { IsStart source.now k }
        ensures ok { OnOk result (self.new ≡ opened_copy source.now k generation) }
        ensures err { OnErr result (self.new ≡ self.old) }
    {
        let alloc = *self.words.allocator();
        let size = source.size(k);
        let words = Vec::from_slice(alloc, &source.words[2 * k..2 * k + size])?;
        let birth = source.births[k];
        let births = Vec::from_slice(alloc, &[birth])?;
        let cards = CardTable::new(alloc, size)?;
        let marks = no_marks(alloc, 1)?;
        *self = Segment {
            space: source.space,
            generation,
            role: Role::Current,
            was_held: false,
            is_dirty: false,
            top: size,
            words,
            births,
            starts: usize::from(birth > 0),
            cards,
            marks,
            holds: false,
        };
        Ok(())
    }

    /// Gives a free segment memory of this size in which nothing starts.
    fn prepare(&mut self, words: usize, births: usize) -> Result<(), AllocError>
        requires free { is_free self.old.role ≡ true }
        requires births_in { 2 * births ≤ words }
        requires single { 1 < births → words ≡ 512 }
        requires some { 0 < births }
        requires words_in { words ≤ OFFSETS }
        ensures ok { OnOk result (self.new ≡ renewed self.old words births) }
        ensures err { OnErr result (self.new ≡ self.old) }
    {
        if self.words.len() == words && self.births.len() == births {
            self.clear();
            Ok(())
        } else {
            self.renew(words, births)
        }
    }

    /// Uses a free segment's memory again.
    fn clear(&mut self)
        requires free { is_free self.old.role ≡ true }
        requires some { 0 < length self.old.births }
        ensures { self.new ≡ renewed self.old (length self.old.words) (length self.old.births) }
    {
        clear_words(&mut self.words, self.top);
        self.births.fill(0);
        self.starts = 0;
        self.marks.fill(false);
        self.holds = false;
        clear_cards(&mut self.cards, self.words.len().div_ceil(WORDS_PER_CARD));
        self.top = 0;
    }

    /// Takes new memory for a free segment.
    fn renew(&mut self, words: usize, births: usize) -> Result<(), AllocError>
        requires free { is_free self.old.role ≡ true }
        requires births_in { 2 * births ≤ words }
        requires single { 1 < births → words ≡ 512 }
        requires words_in { words ≤ OFFSETS }
        ensures ok { OnOk result (self.new ≡ renewed self.old words births) }
        ensures err { OnErr result (self.new ≡ self.old) }
    {
        let alloc = *self.words.allocator();
        let new_words = zero_words(alloc, words)?;
        let new_births = zero_births(alloc, births)?;
        let new_marks = no_marks(alloc, births)?;
        let new_cards = CardTable::new(alloc, words)?;
        self.words = new_words;
        self.births = new_births;
        self.starts = 0;
        self.marks = new_marks;
        self.holds = false;
        self.cards = new_cards;
        self.top = 0;
        Ok(())
    }

    /// Makes the segment free. The memory of a large object goes at once, any other stays for the next use.
    pub fn give_back(&mut self)
        ensures after { self.new ≡ given_back self.old }
        ensures starts { (k : ℕ) → spot self.new k ≡ None }
    {
        self.role = Role::Free;
        self.was_held = false;
        self.is_dirty = false;
        if self.births.len() == 1 {
            self.empty();
        }
    }

    /// Lets the memory for objects go.
    fn empty(&mut self)
        ensures { self.new ≡ emptied self.old }
    {
        let alloc = *self.words.allocator();
        self.words = Vec::new(alloc);
        self.births = Vec::new(alloc);
        self.starts = 0;
        self.marks = Vec::new(alloc);
        self.holds = false;
        self.top = 0;
    }
}

fn zero_words(alloc: Global, count: usize) -> Result<Vec<u64>, AllocError>
    ensures { IfOk result (λ v. v.items ≡ replicate count 0) }
{
    vec![in alloc; 0; count]
}

fn zero_births(alloc: Global, count: usize) -> Result<Vec<u32>, AllocError>
    ensures { IfOk result (λ v. v.items ≡ replicate count 0) }
{
    vec![in alloc; 0; count]
}

fn no_marks(alloc: Global, count: usize) -> Result<Vec<bool>, AllocError>
    ensures { IfOk result (λ v. v.items ≡ replicate count false) }
{
    vec![in alloc; false; count]
}

/// Makes all words 0, of which those from the top on are 0 already.
fn clear_words(words: &mut Vec<u64>, top: usize)
    requires top_in { top ≤ vec_len words.old }
    requires zero_above { (i : ℕ) → top ≤ i → slice_index words.old.items i ≡ 0 }
    ensures { words.new.items ≡ replicate (vec_len words.old) 0 }
{
    clear_front(words.as_mut_slice(), top);
}

/// The same in a slice.
fn clear_front(words: &mut [u64], top: usize)
    requires top_in { top ≤ length words.old }
    requires zero_above { (i : ℕ) → top ≤ i → slice_index words.old i ≡ 0 }
    ensures { words.new ≡ replicate (length words.old) 0 }
{
    words[..top].fill(0);
}

/// Makes all cards clean, of which there are so many.
fn clear_cards(cards: &mut CardTable, count: usize)
    requires { length cards.old ≡ count }
    ensures { cards.new ≡ replicate count 255 }
{
    for card in 0..count {
        cards.clear(card);
    }
}

#[cfg(test)]
mod tests {
    use super::*;
    use std::test::Fail;

    #[test]
    fn memory_is_taken_and_given_back(rt: HostRuntime) -> Result<(), Fail> {
        let mut segment = Segment::vacant(rt.alloc())?;
        assert_eq!(rt; (segment.role(), segment.words()), (Role::Free, 0));
        segment.open(Space::Pair, 0, 512, 256)?;
        assert!(rt; segment.has_room(512) && !segment.has_room(513));
        segment.give_back();
        segment.open(Space::Raw, 3, 1002, 1)?;
        assert_eq!(rt; (segment.words(), segment.next_start(0)), (1002, None));
        segment.give_back();
        assert_eq!(rt; (segment.role(), segment.words()), (Role::Free, 0));
        Ok(())
    }
}
