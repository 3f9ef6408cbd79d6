//! The bytes of the cards of a segment.

ghost use Rattle.std.specs.Prelude.{◌≡◌, ℕ, ◌<◌, ◌≤◌, length, min, replicate, slice_index, slice_set, IfOk, IfSome, IfNone};
ghost use Rattle.cards.specs.Cards.{card_of, card_count, IsDirty, NoneDirty, has_mark, raised_bytes};

use crate::scan::{has_mark_in, next_dirty_in, raise_in};
use std::alloc::{AllocError, Global};
use std::marker::Model;

/// How many words a card stands for.
pub const WORDS_PER_CARD: usize = 64;

/// The byte of a card that no word was marked on: it is above every generation.
pub const CLEAN: u8 = 255;

/// One byte a card: the least generation that was marked on it, or `CLEAN`.
#[derive(Drop)]
pub struct CardTable {
    bytes: Vec<u8>,
}

impl Model for CardTable {
    ghost use Rattle.std.specs.Prelude.{List, ℕ};

    ghost Value = { List ℕ };

    ghost view = { λ a. a.bytes.items };
}

impl CardTable {
    /// Clean cards for so many words; the last card may stand for fewer than 64. Takes memory.
    pub fn new(alloc: Global, words: usize) -> Result<CardTable, AllocError>
        ensures { IfOk result (λ t. t ≡ replicate (card_count words) CLEAN) }
    {
        let count = words.div_ceil(WORDS_PER_CARD);
        Ok(CardTable {
            bytes: vec![in alloc; CLEAN; count]?,
        })
    }

    /// Notes on the card of a word that the word may refer to this generation: the byte becomes the
    /// lesser of the two.
    pub fn mark(&mut self, word: usize, generation: u8)
        requires { card_of word < length self.old }
        ensures { self.new ≡ slice_set self.old (card_of word) (min (slice_index self.old (card_of word)) generation) }
    {
        let card = word / WORDS_PER_CARD;
        if generation < self.bytes[card] {
            self.bytes[card] = generation;
        }
    }

    /// Makes a card clean.
    pub fn clear(&mut self, card: usize)
        requires { card < length self.old }
        ensures { self.new ≡ slice_set self.old card CLEAN }
    {
        self.bytes[card] = CLEAN;
    }

    /// The byte of a card: the youngest generation that was marked on it, or 255.
    pub fn youngest(&self, card: usize) -> u8
        requires { card < length self.now }
        ensures { result ≡ slice_index self.now card }
    {
        self.bytes[card]
    }

    /// The least card at or after `from` whose byte is at most `limit`, a generation. None where there
    /// is none, as where `from` is past the last card.
    pub fn next_dirty(&self, from: usize, limit: u8) -> Option<usize>
        requires { limit < CLEAN }
        ensures dirty { IfSome result (λ card. (from ≤ card) × IsDirty self.now limit card) }
        ensures least { IfSome result (λ card. NoneDirty self.now limit from card) }
        ensures none { IfNone result (NoneDirty self.now limit from (length self.now)) }
    {
        next_dirty_in(self.bytes.as_slice(), from, limit)
    }

    /// Sets each byte of at most `limit`, a generation, to `to`. Clean cards are passed as `next_dirty`
    /// passes them.
    pub fn raise(&mut self, limit: u8, to: u8)
        requires { limit < CLEAN }
        ensures { self.new ≡ raised_bytes limit to self.old }
    {
        raise_in(self.bytes.as_mut_slice(), limit, to);
    }

    /// Whether some card is not clean. Clean cards are passed as `next_dirty` passes them.
    pub fn has_mark(&self) -> bool
        ensures { result ≡ has_mark self.now }
    {
        has_mark_in(self.bytes.as_slice())
    }
}

#[cfg(test)]
mod tests {
    use super::*;
    use std::test::Fail;

    #[test]
    fn the_youngest_mark_of_a_card_is_kept(rt: HostRuntime) -> Result<(), Fail> {
        let mut cards = CardTable::new(rt.alloc(), 512)?;
        cards.mark(130, 1);
        cards.mark(128, 3);
        for card in 0..8 {
            assert_eq!(rt; cards.youngest(card), if card == 2 { 1 } else { 255 });
        }
        assert_eq!(rt;
            (cards.next_dirty(0, 0), cards.next_dirty(0, 1)),
            (None, Some(2))
        );
        cards.clear(2);
        assert_eq!(rt; (cards.youngest(2), cards.next_dirty(0, 254)), (255, None));
        Ok(())
    }

    #[test]
    fn dirty_cards_among_many_clean_ones(rt: HostRuntime) -> Result<(), Fail> {
        let mut cards = CardTable::new(rt.alloc(), 6401)?;
        cards.mark(3 * 64, 2);
        cards.mark(19 * 64, 4);
        cards.mark(6400, 0);
        for (from, limit, found) in [
            (0, 2, Some(3)),
            (3, 2, Some(3)),
            (4, 2, Some(100)),
            (4, 4, Some(19)),
            (20, 254, Some(100)),
            (101, 254, None),
            (1000, 254, None),
        ] {
            assert_eq!(rt;
                cards.next_dirty(from, limit),
                found,
                "from {from} to {limit}"
            );
        }
        Ok(())
    }
}
