//! What the rounds of all sweepers and the end of a collection ask of one sweeper.

ghost use Rattle.std.specs.Prelude.{◌≡◌, ◌/◌, ◌%◌, ◌<◌, [], Contains, MatchOption, length};
ghost use Rattle.sweep_model.specs.Hands.{IsAbsent};
ghost use Rattle.sweep_places.specs.Places.{IsOwnStart};
ghost use Rattle.sweep_share.specs.Registers.{AreRegistersOf};
ghost use Rattle.sweep_share.specs.Shares.{AreFinished, IsShare, territory_at};

use crate::Sweeper;
use directory::Directory;
use gc_mail::{Inbox, Outbox};
use gc_words::{Address, Value};
use std::alloc::Global;
use std::mem::replace;
use territory::Territory;

/// What a sweeper leaves when its collection ends.
#[derive(Drop)]
pub struct SweeperParts {
    /// In the order in which the sweeper took them.
    pub territories: Vec<Territory>,
    /// Each with what it holds after the collection.
    pub registers: Vec<(u32, Value)>,
}

impl Sweeper {
    /// Its number, from 0.
    pub fn number(&self) -> u32
        ensures { result ≡ self.now.share.number }
    {
        self.share.number()
    }

    /// Whether an earlier round answered AllocError.
    pub fn ran_out(&self) -> bool
        ensures { result ≡ self.now.ran_out }
    {
        self.ran_out
    }

    /// How many objects and cells of its own were forwarded.
    pub fn forwarded(&self) -> u64
        ensures { result ≡ length self.now.places.own }
    {
        self.places.len()
    }

    /// Takes its messages, to be exchanged; the outbox is empty then. Takes no memory.
    pub fn take_outbox(&mut self, alloc: Global) -> Outbox
        ensures taken { result ≡ self.old.outbox }
        ensures after { self.new ≡ record self.old { outbox = [] } }
    {
        replace(&mut self.outbox, Outbox::new(alloc))
    }

    /// Gives it the messages that others sent to it. Its inbox is empty, as after each round.
    pub fn put_inbox(&mut self, inbox: Inbox)
        requires { self.old.inbox ≡ [] }
        ensures { self.new ≡ record self.old { inbox = inbox } }
    {
        self.inbox = inbox;
    }

    /// The territory of a thread of its own.
    pub fn territory(&self, thread: u8) -> &Territory
        requires within { thread < 64 }
        requires own { thread % self.now.share.sweepers ≡ self.now.share.number }
        ensures value { result.now ≡ territory_at self.now.share (thread / self.now.share.sweepers) }
        ensures thread { result.now.thread ≡ thread }
    {
        self.share.of_thread(thread)
    }

    /// Where a collected start of its own was forwarded to. None exactly where it was not forwarded.
    pub fn place_of(&self, at: Address, directory: &Directory) -> Option<Address>
        requires same { self.now.places.directory ≡ directory.now }
        requires own { IsOwnStart directory.now self.now.places.number at }
        ensures { MatchOption result (IsAbsent self.now.places.own at) (λ place. Contains self.now.places.own (at, place)) }
    {
        self.places.place_of(at, directory.word_of(at))
    }

    /// Ends the collection in its territories: the from-segments are given back with all that was not forwarded, and the
    /// territories and registers are given, in the order in which `new` took them.
    pub fn finish(self) -> SweeperParts
        ensures territories { AreFinished self.share.territories result.territories.items }
        ensures share { IsShare self.share }
        ensures registers { result.registers.items ≡ self.registers.items }
        ensures numbers { AreRegistersOf self.registers.number self.registers.sweepers result.registers.items }
    {
        let mut share = self.share;
        share.leave_spare(self.places.into_memory());
        SweeperParts {
            territories: share.finish(),
            registers: self.registers.into_items(),
        }
    }
}
