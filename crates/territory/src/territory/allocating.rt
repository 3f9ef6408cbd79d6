//! New objects.

ghost use Rattle.std.specs.Prelude.{◌≡◌, ℕ, ◌<◌, ◌≤◌, IfOk, OnErr, Option, None};
ghost use Rattle.std.specs.FinMap as map;
ghost use Rattle.gc_words.specs.Layout.{thread_of, segment_of, IsAddress};
ghost use Rattle.segment.specs.Layout.{space_of, HasLength};
ghost use Rattle.territory.specs.Territories.{fresh_start, size_for, IsPlaced, IsAsBefore, IsToldMore, AreCardsSound};

use super::Territory;
use gc_words::Address;
use segment::{Space, first_word, size};
use std::alloc::AllocError;
use trace_types::Kind;

impl Territory {
    /// Makes an object or queue cell of zero words and gives its address. It goes into the open segment of
    /// its space and generation; where it does not fit there, or has more than 128 words, a segment is
    /// opened for it, with a free number if there is one. Takes memory where it opens a segment; refused,
    /// the starts and segments are as before. Segments, areas and their sizes are this project's own, after
    /// Chez Scheme ("Don't Stop the BIBOP", 1994).
    pub fn allocate(
        &mut self,
        kind: Kind,
        length: u32,
        generation: u8,
        birth: u32,
    ) -> Result<Address, AllocError>
        requires length_in { HasLength kind length }
        requires generation_in { generation ≤ 8 }
        requires born { 0 < birth }
        ensures address { IfOk result (λ a. IsAddress a × (thread_of a ≡ self.old.thread)) }
        ensures free { IfOk result (λ a. map.get self.old.starts a ≡ None) }
        ensures starts { IfOk result (λ a.
            self.new.starts ≡ map.insert self.old.starts a (fresh_start kind length generation birth)) }
        ensures segments { IfOk result (λ a.
            IsPlaced self.old self.new (space_of kind) generation (size_for kind length) (segment_of a)) }
        ensures sound { IfOk result (λ a. (before after : ℕ → Option ℕ)
            → IsToldMore before after self.old a
            → AreCardsSound before self.old → AreCardsSound after self.new) }
        ensures refused { OnErr result (IsAsBefore self.old self.new) }
        ensures thread { self.new.thread ≡ self.old.thread }
        ensures dirty { self.new.dirty ≡ self.old.dirty }
        ensures targets { self.new.targets ≡ self.old.targets }
    {
        let space = Space::of(kind);
        let first = first_word(kind, length);
        let words = size(space, first);
        let n = self.pool.room_for(space, generation, words)?;
        let offset = self.pool.grow(n, first, words, birth);
        Ok(Address::at(self.thread, n as u64, offset as u32))
    }
}
