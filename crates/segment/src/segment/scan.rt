//! The search for starts in a segment: each in turn, or those that a card speaks of.

ghost use Rattle.std.specs.Prelude.{◌≡◌, ◌≢◌, ℕ, ◌+◌, ◌*◌, ◌<◌, ◌≤◌, length, slice_index, false, IfSome, IfNone};
ghost use Rattle.cards.specs.declared.table.TheConstants.{CLEAN};
ghost use Rattle.segment.specs.Segments.{IsStart, HasDirtyWord, EndsPast, NoneWithin, NoneFrom, is_free};

use super::{Role, Segment};
use crate::layout::size;
use cards::{CLEAN, WORDS_PER_CARD};

/// How many possible starts a card stands for.
const STARTS_PER_CARD: usize = WORDS_PER_CARD / 2;

impl Segment {
    /// The least k at or after `from` such that something starts at offset 2 k.
    pub fn next_start(&self, from: usize) -> Option<usize>
        ensures some { IfSome result (λ k. (from ≤ k) × IsStart self.now k) }
        ensures least { IfSome result (NoneWithin (IsStart self.now) from) }
        ensures none { IfNone result (NoneFrom (IsStart self.now) from) }
    {
        if self.role == Role::Free {
            return None;
        }
        first_born(&self.births, from)
    }

    /// The least k at or after `from` such that something starts at offset 2 k and has a word, its header
    /// counted, under a card whose byte is at most `limit`, a generation. It looks at dirty cards and at
    /// the births near them alone.
    pub fn next_old(&self, from: usize, limit: u8) -> Option<usize>
        requires { limit < CLEAN }
        ensures some { IfSome result (λ k. (from ≤ k) × HasDirtyWord self.now limit k) }
        ensures least { IfSome result (NoneWithin (HasDirtyWord self.now limit) from) }
        ensures none { IfNone result (NoneFrom (HasDirtyWord self.now limit) from) }
    {
        if self.role == Role::Free {
            return None;
        }
        if from >= self.births.len() {
            return None;
        }
        let mut card = from / STARTS_PER_CARD;
        while let Some(dirty) = self.cards.next_dirty(card, limit) {
            match self.first_past(from, dirty) {
                None => return None,
                Some(k) => {
                    if k / STARTS_PER_CARD <= dirty {
                        return Some(k);
                    }
                    card = k / STARTS_PER_CARD;
                }
            }
        }
        None
    }

    /// The least start at or after `from` that ends past the first word of the card.
    fn first_past(&self, from: usize, card: usize) -> Option<usize>
        requires used { is_free self.now.role ≡ false }
        requires from_in { from < length self.now.births }
        requires card_in { card < length self.now.cards }
        ensures some { IfSome result (λ k. (from ≤ k) × EndsPast self.now card k) }
        ensures least { IfSome result (NoneWithin (EndsPast self.now card) from) }
        ensures none { IfNone result (NoneFrom (EndsPast self.now card) from) }
    {
        match self.covering(from, card) {
            Some(k) => Some(k),
            None => first_born(&self.births, from.max(card * STARTS_PER_CARD)),
        }
    }

    /// The start at or after `from` whose object covers the first word of the card and begins before it.
    fn covering(&self, from: usize, card: usize) -> Option<usize>
        requires used { is_free self.now.role ≡ false }
        requires from_in { from < length self.now.births }
        requires card_in { card < length self.now.cards }
        ensures some { IfSome result (λ k. (from ≤ k) × EndsPast self.now card k) }
        ensures least { IfSome result (NoneWithin (EndsPast self.now card) from) }
        ensures none { IfNone result (NoneWithin (EndsPast self.now card) from (card * 32)) }
    {
        let at = self.births.len().min(card * STARTS_PER_CARD);
        let k = last_born(&self.births, from, at)?;
        let end = 2 * k + size(self.space, self.words[2 * k]);
        if end > card * WORDS_PER_CARD {
            Some(k)
        } else {
            None
        }
    }
}

/// The least place at or after `from` with a birth.
fn first_born(births: &[u32], from: usize) -> Option<usize>
    ensures some { IfSome result (λ k. (from ≤ k) × (slice_index births.now k ≢ 0)) }
    ensures least { IfSome result (λ k. (j : ℕ) → from ≤ j → j < k → slice_index births.now j ≡ 0) }
    ensures none { IfNone result ((j : ℕ) → from ≤ j → slice_index births.now j ≡ 0) }
{
    for k in from..births.len() {
        if births[k] > 0 {
            return Some(k);
        }
    }
    None
}

/// The greatest place from `from` up to `to` with a birth.
fn last_born(births: &[u32], from: usize, to: usize) -> Option<usize>
    requires { to ≤ length births.now }
    ensures some { IfSome result (λ k. (from ≤ k) × (k < to) × (slice_index births.now k ≢ 0)) }
    ensures greatest { IfSome result (λ k. (j : ℕ) → k < j → j < to → slice_index births.now j ≡ 0) }
    ensures none { IfNone result ((j : ℕ) → from ≤ j → j < to → slice_index births.now j ≡ 0) }
{
    let mut k = to;
    while k > from {
        k -= 1;
        if births[k] > 0 {
            return Some(k);
        }
    }
    None
}
