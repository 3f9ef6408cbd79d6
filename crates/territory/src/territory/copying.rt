//! Copies of objects, for a collection that moves them.

ghost use Rattle.std.specs.Prelude.{◌≡◌, ℕ, ◌≤◌, IfOk, IfSome, IsSome, OnErr, Option, None};
ghost use Rattle.std.specs.FinMap as map;
ghost use Rattle.gc_words.specs.Layout.{thread_of, segment_of, IsAddress};
ghost use Rattle.territory.specs.Territories.{IsAsBefore, AreCardsSound};
ghost use Rattle.territory.specs.Copies.{copy_in, IsPlacedLike, RefersToNoneBelow};
ghost use Rattle.territory.specs.Following.{IsCopyOf, IsPairAt};

use super::{Territory, place};
use crate::pool::GREATEST_SHARED;
use gc_words::Address;
use std::alloc::AllocError;

impl Territory {
    /// Makes a copy of an object or cell in this generation, of the same kind, length, birth and words, and
    /// gives its address. It goes where `allocate` would put a new one of its kind and length. No card is
    /// marked: where a word refers to something younger than the copy, it has to be put again. Takes memory
    /// where it opens a segment; refused, the starts and segments are as before.
    #[inline(always)]
    pub fn copy(&mut self, at: Address, generation: u8) -> Result<Address, AllocError>
        requires start { IsSome (map.get self.old.starts at) }
        requires generation_in { generation ≤ 8 }
        ensures address { IfOk result (λ a. IsAddress a × (thread_of a ≡ self.old.thread)) }
        ensures free { IfOk result (λ a. map.get self.old.starts a ≡ None) }
        ensures starts { IfOk result (λ a. IfSome (map.get self.old.starts at) (λ x.
            self.new.starts ≡ map.insert self.old.starts a (copy_in generation x))) }
        ensures segments { IfOk result (λ a. IfSome (map.get self.old.starts at) (λ x.
            IsPlacedLike self.old self.new at x generation (segment_of a))) }
        ensures sound { IfOk result (λ a. IfSome (map.get self.old.starts at) (λ x.
            (generation_at : ℕ → Option ℕ) → RefersToNoneBelow generation_at x generation
            → AreCardsSound generation_at self.old → AreCardsSound generation_at self.new)) }
        ensures refused { OnErr result (IsAsBefore self.old self.new) }
        ensures thread { self.new.thread ≡ self.old.thread }
        ensures dirty { self.new.dirty ≡ self.old.dirty }
        ensures targets { self.new.targets ≡ self.old.targets }
    {
        let (segment, start) = place(at);
        let source = self.pool.segment(segment);
        let space = source.space();
        let size = source.size(start);
        if size > GREATEST_SHARED {
            let own = self.pool.copy_large(segment, start, generation)?;
            return Ok(Address::at(self.thread, own as u64, 0));
        }
        let n = self.pool.room_for(space, generation, size)?;
        let offset = self.pool.copy(segment, start, n, size);
        Ok(Address::at(self.thread, n as u64, offset as u32))
    }

    /// The same for a pair: its space and its size are known, so that little is looked at where the open segment has
    /// room.
    #[inline(always)]
    pub fn copy_pair(&mut self, at: Address, generation: u8) -> Result<Address, AllocError>
        requires pair { IsPairAt self.old at }
        requires generation_in { generation ≤ 8 }
        ensures copied { IfOk result (λ a. IfSome (map.get self.old.starts at)
            (IsCopyOf self.old self.new at generation a)) }
        ensures refused { OnErr result (IsAsBefore self.old self.new) }
        ensures thread { self.new.thread ≡ self.old.thread }
        ensures dirty { self.new.dirty ≡ self.old.dirty }
        ensures targets { self.new.targets ≡ self.old.targets }
    {
        let (segment, start) = place(at);
        let n = self.pool.room_for_pair(generation)?;
        let offset = self.pool.copy_pair(segment, start, n);
        Ok(Address::at(self.thread, n as u64, offset as u32))
    }
}
