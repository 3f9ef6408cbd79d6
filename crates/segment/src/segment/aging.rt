//! The cards of objects that are older than those a collection collects.

ghost use Rattle.std.specs.Prelude.{◌≡◌, ℕ, ◌<◌, ◌≤◌, false, length, IfSome, IfNone};
ghost use Rattle.cards.specs.declared.table.TheConstants.{CLEAN};
ghost use Rattle.segment.specs.Segments.{IsStart, is_free, object_at};
ghost use Rattle.segment.specs.Aging.{word_byte, raised};

use super::Segment;
use crate::layout::{kind_of, length_of, words_after};
use cards::{CLEAN, WORDS_PER_CARD};

impl Segment {
    /// The least word of start k at or after `from`, counted after its header, that stands under a card
    /// whose byte is at most `limit`, a generation. It looks at cards alone, from one to the next.
    pub fn next_dirty_word(&self, k: usize, from: usize, limit: u8) -> Option<usize>
        requires start { IsStart self.now k }
        requires limit_in { limit < CLEAN }
        ensures some { IfSome result (λ i. (from ≤ i) × (i < length (object_at self.now k).words)) }
        ensures dirty { IfSome result (λ i. word_byte self.now k i ≤ limit) }
        ensures least { IfSome result (λ i. (j : ℕ) → from ≤ j → j < i → limit < word_byte self.now k j) }
        ensures none { IfNone result
            ((j : ℕ) → from ≤ j → j < length (object_at self.now k).words → limit < word_byte self.now k j) }
    {
        let count = self.count(k);
        if from >= count {
            return None;
        }
        let skip = self.space.skip();
        let start = 2 * k + skip;
        let at = start + from;
        let card = self.cards.next_dirty(at / WORDS_PER_CARD, limit)?;
        let word = at.max(card * WORDS_PER_CARD);
        if word < start + count {
            Some(word - start)
        } else {
            None
        }
    }

    /// How many words start k has, its header not counted.
    #[tactic(auto, unfolding(crate::specs::Layout::count_of))]
    #[inline(always)]
    pub(super) fn count(&self, k: usize) -> usize
        requires { IsStart self.now k }
        ensures { result ≡ length (object_at self.now k).words }
    {
        let first = self.words[2 * k];
        words_after(kind_of(self.space, first), length_of(self.space, first)) as usize
    }

    /// Sets each card byte of at most `limit`, a generation, to `to`, from one such card to the next. The
    /// segment is dirty afterwards where some card is not clean.
    pub fn raise_cards(&mut self, limit: u8, to: u8)
        requires used { is_free self.old.role ≡ false }
        requires limit_in { limit < CLEAN }
        ensures { self.new ≡ raised limit to self.old }
    {
        self.cards.raise(limit, to);
        self.is_dirty = self.cards.has_mark();
    }
}
