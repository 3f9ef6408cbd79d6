//! Older objects under marked cards, for a collection of the younger ones.

ghost use Rattle.std.specs.Prelude.{◌≡◌, ℕ, ◌<◌, ◌≤◌, length, slice_get, Contains, IfSome, IfNone, IsSome, option_map, Option};
ghost use Rattle.std.specs.FinMap as map;
ghost use Rattle.territory.specs.Territories.{segment_at, words_of, card_byte, IsNext, AreDirtyOnes, AreCardsSound, HaveAddresses};
ghost use Rattle.territory.specs.Olds.{olds_of, AreOldByWords, AreOldOnes, when_raised, TellsAbove};

use super::{Territory, place};
use gc_words::Address;

impl Territory {
    /// The first start of a generation above `cg` that has a word under a card whose byte is at most `cg`,
    /// its header and every other word counted. None where there is none. It goes through the dirty
    /// segments alone, and in those of generations above `cg` through the dirty cards and the births near
    /// them. The scheme is Chez Scheme's ("Don't Stop the BIBOP", 1994).
    pub fn first_old(&self, cg: u8) -> Option<Address>
        requires { cg ≤ 8 }
        ensures first { result ≡ slice_get (olds_of self.now cg) 0 }
        ensures listed { IfSome result (Contains (olds_of self.now cg)) }
        ensures all { AreOldOnes self.now cg (olds_of self.now cg) }
        ensures words { AreOldByWords self.now cg }
        ensures addresses { HaveAddresses self.now }
    {
        let (n, k) = self.pool.first_old(self.pool.first_dirty(), cg)?;
        Some(self.address(n, k))
    }

    /// The one after it. None where it is the last.
    pub fn next_old(&self, at: Address, cg: u8) -> Option<Address>
        requires cg_in { cg ≤ 8 }
        requires old { Contains (olds_of self.now cg) at }
        ensures next { IsNext (olds_of self.now cg) at result }
        ensures listed { IfSome result (Contains (olds_of self.now cg)) }
    {
        let (n, k) = place(at);
        if let Some(next) = self.pool.old_in(n, k + 1, cg) {
            return Some(self.address(n, next));
        }
        let (later, first) = self.pool.first_old(self.pool.next_dirty(n), cg)?;
        Some(self.address(later, first))
    }

    /// The least word of a start at or after `from`, counted after its header, that stands under a card
    /// whose byte is at most `cg`. None where there is none. It looks at the cards alone, from one such card
    /// to the next, so that a sweep of a large object costs no more than its dirty cards.
    pub fn next_dirty_word(&self, at: Address, from: u32, cg: u8) -> Option<u32>
        requires start { IsSome (map.get self.now.starts at) }
        requires cg_in { cg ≤ 8 }
        ensures some { IfSome result (λ i. (from ≤ i) × (i < length (words_of (map.get self.now.starts at)))) }
        ensures dirty { IfSome result (λ i. card_byte self.now at i ≤ cg) }
        ensures least { IfSome result (λ i. (j : ℕ) → from ≤ j → j < i → cg < card_byte self.now at j) }
        ensures none { IfNone result ((j : ℕ) → from ≤ j
            → j < length (words_of (map.get self.now.starts at)) → cg < card_byte self.now at j) }
    {
        let (n, k) = place(at);
        let index = self.pool.segment(n).next_dirty_word(k, from as usize, cg)?;
        Some(index as u32)
    }

    /// Raises the marks of at most `cg` on the cards of generations above `cg`, before the old objects under
    /// them are swept: a byte of at most `cg` becomes `cg + 1` in a segment of a generation above that, and
    /// clean in one of generation `cg + 1`. What such a card says of objects that are not collected stays
    /// told; what it says of collected ones is to be marked anew, as their new places are put. A segment
    /// whose cards are all clean then is no dirty one any more. It goes through the dirty segments alone.
    pub fn raise_cards(&mut self, cg: u8)
        requires { cg ≤ 8 }
        ensures starts { self.new.starts ≡ self.old.starts }
        ensures segments { (n : ℕ)
            → segment_at self.new n ≡ option_map (when_raised cg) (segment_at self.old n) }
        ensures areas { self.new.areas ≡ self.old.areas }
        ensures lists { self.new.lists ≡ self.old.lists }
        ensures dirty { AreDirtyOnes self.new }
        ensures thread { self.new.thread ≡ self.old.thread }
        ensures targets { self.new.targets ≡ self.old.targets }
        ensures sound { (generation_at : ℕ → Option ℕ) → TellsAbove cg generation_at
            → AreCardsSound generation_at self.old → AreCardsSound generation_at self.new }
    {
        self.pool.raise_cards(cg);
    }
}
