//! What ends a collection.

ghost use Rattle.std.specs.Prelude.{◌≡◌, ◌<◌, ℕ, Option, All, is_some};
ghost use Rattle.std.specs.List.{filter};
ghost use Rattle.std.specs.FinMap as map;
ghost use Rattle.gc_words.specs.declared.address.TheConstants.{THREADS};
ghost use Rattle.territory.specs.Territories.{segment_at, AreCardsSound, HaveAddresses};
ghost use Rattle.territory.specs.Finishing.{IsFromStart, start_after, when_finished, AreListsFinished, AreCardsSoundFor};

use super::Territory;
use gc_words::Address;

impl Territory {
    /// Ends the collection that began last. A from-segment in which some of `held` start is in use again:
    /// these starts stay as they are, in the generation that the collection's targets give, and nothing
    /// else starts there; it stays closed. Every other from-segment is given back, and what started there
    /// is gone. All other starts and segments stay, and so do words, births and the cards of what stays.
    /// Takes no memory, and costs per segment and per held start.
    pub fn finish(&mut self, held: &[Address])
        requires { All (IsFromStart self.old) held.now }
        ensures starts { (a : ℕ) → map.get self.new.starts a ≡ start_after self.old held.now a }
        ensures segments { (n : ℕ)
            → segment_at self.new n ≡ when_finished self.old.targets held.now n (segment_at self.old n) }
        ensures areas { self.new.areas ≡ self.old.areas }
        ensures lists { AreListsFinished self.old self.new held.now }
        ensures dirty { self.new.dirty ≡ filter (λ n. is_some (segment_at self.new n)) self.old.dirty }
        ensures thread { self.new.thread ≡ self.old.thread }
        ensures targets { self.new.targets ≡ self.old.targets }
        ensures sound { (generation_at : ℕ → Option ℕ)
            → AreCardsSoundFor generation_at self.old held.now → AreCardsSound generation_at self.new }
        ensures thread_in { self.new.thread < THREADS }
        ensures addresses { HaveAddresses self.new }
    {
        self.pool.hold(held);
        self.pool.finish(self.targets);
    }
}
