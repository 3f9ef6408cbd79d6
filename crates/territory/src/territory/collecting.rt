//! What a collection does with a territory.

ghost use Rattle.std.specs.Prelude.{◌≡◌, ℕ, ◌%◌, ◌≤◌, nat_le, if◌then◌else◌, slice_get, slice_index_or, option_map, Option, None, IfSome};
ghost use Rattle.territory.specs.Territories.{segment_at, from_list, when_begun, HaveAddresses, AreShaped, LieInSegments, AreListsBegun, AreCardsSound, AreFromOnes, IsFrom, IsNext};

use super::{Targets, Territory};

impl Territory {
    /// Sets the segments of the generations up to `cg` aside as from-segments and closes their areas, so
    /// that what is allocated from now on lies elsewhere. Every start and word, and every card, stays. It
    /// tells where each start lies: in a segment in use, of the start's generation, at an address of the
    /// thread.
    pub fn begin(&mut self, targets: Targets)
        requires least { targets.cg ≤ targets.min }
        requires greatest { targets.min ≤ targets.max }
        requires generations { targets.max ≤ 8 }
        ensures starts { self.new.starts ≡ self.old.starts }
        ensures segments { (n : ℕ)
            → segment_at self.new n ≡ option_map (when_begun targets.cg) (segment_at self.old n) }
        ensures areas { (k : ℕ) → slice_index_or self.new.areas k None
            ≡ (if nat_le (k % 9) targets.cg then None else slice_index_or self.old.areas k None) }
        ensures lists { AreListsBegun self.old.lists self.new.lists targets.cg }
        ensures dirty { self.new.dirty ≡ self.old.dirty }
        ensures thread { self.new.thread ≡ self.old.thread }
        ensures targets { self.new.targets ≡ targets }
        ensures sound { (generation_at : ℕ → Option ℕ)
            → AreCardsSound generation_at self.old → AreCardsSound generation_at self.new }
        ensures addresses { HaveAddresses self.new }
        ensures shaped { AreShaped self.new }
        ensures lie { LieInSegments self.new }
    {
        self.pool.begin(targets.cg);
        self.targets = targets;
    }

    /// The first from-segment. None where there is none.
    pub fn first_from(&self) -> Option<u64>
        ensures first { result ≡ slice_get (from_list self.now.lists) 0 }
        ensures all { AreFromOnes self.now }
    {
        let n = self.pool.first_aside()?;
        Some(n as u64)
    }

    /// The from-segment after another. None where it is the last.
    pub fn next_from(&self, segment: u64) -> Option<u64>
        requires { IsFrom (segment_at self.now segment) }
        ensures next { IsNext (from_list self.now.lists) segment result }
        ensures all { AreFromOnes self.now }
    {
        let n = self.pool.next_from(segment as usize)?;
        Some(n as u64)
    }

    /// How many words a from-segment has.
    pub fn from_words(&self, segment: u64) -> u32
        requires { IsFrom (segment_at self.now segment) }
        ensures { IfSome (segment_at self.now segment) (λ s. result ≡ s.words) }
    {
        self.pool.segment(segment as usize).words() as u32
    }

    /// The generation that a from-segment had.
    pub fn from_generation(&self, segment: u64) -> u8
        requires { IsFrom (segment_at self.now segment) }
        ensures { IfSome (segment_at self.now segment) (λ s. result ≡ s.generation) }
    {
        self.pool.segment(segment as usize).generation()
    }
}
