//! The objects of a sweeper's own are kept, and places are written.

ghost use Rattle.std.specs.Prelude.{◌≡◌, ◌<◌, ◌≤◌, IfOk, length};
ghost use Rattle.territory.specs.Territories.{words_of};
ghost use Rattle.directory.specs.Directories.{word_in};
ghost use Rattle.sweep_model.specs.Hands.{IsAbsent};
ghost use Rattle.sweep_share.specs.Following.{IsPairIn};
ghost use Rattle.sweep_share.specs.Shares.{start_in};
ghost use Rattle.sweeper.specs.Sweepers.{CanKeep, Copies, GoesTo, HasField, HasWord, IsAtIn, IsKept, Puts, Writes, in_hand};

use crate::Sweeper;
use directory::Directory;
use gc_mail::Slot;
use gc_words::{Address, Value, encode};
use std::alloc::AllocError;

impl Sweeper {
    /// The place of an object of its own, which is copied where it has none yet. `word` is the object's word in the
    /// directory, and `generation` the one to which it goes: who asks has looked both up.
    #[inline(always)]
    pub(crate) fn keep(
        &mut self,
        target: Address,
        word: usize,
        generation: u8,
    ) -> Result<Address, AllocError>
        requires may { CanKeep self.old target }
        requires word_is { word ≡ word_in self.old.places.directory target }
        requires goes { GoesTo self.old target generation }
        requires generation_in { generation ≤ 8 }
        ensures { IfOk result (λ place. IsKept self.old self.new target place) }
    {
        match self.places.place_of(target, word) {
            Some(place) => Ok(place),
            None => self.copy(target, word, generation),
        }
    }

    /// Copies an object of its own, which has no place yet.
    #[inline(always)]
    fn copy(&mut self, target: Address, word: usize, generation: u8) -> Result<Address, AllocError>
        requires may { CanKeep self.old target }
        requires word_is { word ≡ word_in self.old.places.directory target }
        requires goes { GoesTo self.old target generation }
        requires generation_in { generation ≤ 8 }
        requires absent { IsAbsent self.old.places.own target }
        ensures { IfOk result (λ place. Copies self.old self.new target place) }
    {
        let place = self.share.copy(target, generation)?;
        self.places.note(target, word, place)?;
        Ok(place)
    }

    /// The same for a pair that the caller sweeps now.
    #[inline(always)]
    pub(crate) fn copy_taken(
        &mut self,
        target: Address,
        word: usize,
        generation: u8,
    ) -> Result<Address, AllocError>
        requires may { CanKeep self.old target }
        requires word_is { word ≡ word_in self.old.places.directory target }
        requires goes { GoesTo self.old target generation }
        requires generation_in { generation ≤ 8 }
        requires absent { IsAbsent self.old.places.own target }
        requires pair { IsPairIn self.old.share target }
        ensures { IfOk result (λ place. Copies self.old (in_hand self.new target place) target place) }
    {
        let place = self.share.copy_pair(target, generation)?;
        self.places.note_taken(target, word, place)?;
        Ok(place)
    }

    /// Puts a place into a field of what stands at `at`; `refers` is the generation of what is there, or a lower one.
    #[inline(always)]
    pub(crate) fn put(&mut self, at: Address, index: u32, place: Address, refers: u8)
        requires { index < length (words_of (start_in self.old.share at)) }
        ensures { Puts self.old self.new at index place refers }
    {
        self.share
            .put(at, index, encode(Value::Object(place)), refers);
    }

    /// Where an object is: an older one stays, and one of its own was forwarded.
    fn find(&self, object: Address, index: u32, directory: &Directory) -> Address
        requires same { self.now.places.directory ≡ directory.now }
        requires field { HasField self.now object index }
        ensures at { IsAtIn self.now object result }
        ensures index_in { index < length (words_of (start_in self.now.share result)) }
    {
        let Some(found) = directory.find(object) else {
            return object;
        };
        match self.places.place_of(object, found.word) {
            Some(place) => place,
            None => unreachable!(),
        }
    }

    /// Writes the place that a slot asked for. A slot that this sweeper holds is a register or a field.
    pub(crate) fn write(&mut self, back: &Slot, place: Address, refers: u8, directory: &Directory)
        requires same { self.old.places.directory ≡ directory.now }
        requires word { HasWord self.old back.now }
        ensures { Writes self.old self.new back.now place refers }
    {
        match *back {
            Slot::Register(register) => self.registers.set(register, place),
            Slot::Field { object, index } => {
                let at = self.find(object, index, directory);
                self.put(at, index, place, refers);
            }
            Slot::Entry { .. } | Slot::Wait { .. } | Slot::Nothing => unreachable!(),
        }
    }
}
