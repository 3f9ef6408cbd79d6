//! Forwarded objects are swept.

ghost use Rattle.std.specs.Prelude.{◌≡◌, ◌+◌, ◌<◌, ◌≤◌, [], None, Some, true, false, IfNone, IfOk, IfSome, OnOk, length};
ghost use Rattle.directory.specs.Directories.{found_at};
ghost use Rattle.directory.specs.Nears.{IsNear};
ghost use Rattle.territory.specs.Finishing.{target_of};
ghost use Rattle.territory.specs.Territories.{words_of};
ghost use Rattle.sweep_share.specs.Shares.{start_in};
ghost use Rattle.sweeper.specs.Sweepers.{AreStrong, AskNothing, asked_in, in_hand, left_of};
ghost use Rattle.sweeper.specs.Ready.{Ready, Runs};

use crate::Sweeper;
use crate::fields::{Asked, first_asked, strong_fields};
use crate::lists::NextPair;
use directory::{Directory, Near};
use gc_words::Address;
use std::alloc::AllocError;

impl Sweeper {
    /// The first strong field of an object, from one on, that refers to a collected object. It is read at the object's
    /// old place, which stays as it was.
    #[inline(always)]
    fn next_asked(
        &self,
        object: Address,
        from: u32,
        end: u32,
        near: &mut Near,
        directory: &Directory,
    ) -> Option<Asked>
        requires same { self.now.places.directory ≡ directory.now }
        requires near { IsNear directory.now near.old }
        requires end { end ≤ length (words_of (start_in self.now.share object)) }
        requires strong { AreStrong (start_in self.now.share object) from end }
        ensures within { IfSome result (λ a. (from ≤ a.index) × (a.index < end)) }
        ensures target { IfSome result (λ a.
            asked_in self.now.places.directory (start_in self.now.share object) a.index ≡ Some a.target) }
        ensures found { IfSome result (λ a. found_at directory.now a.target ≡ Some a.found) }
        ensures refers { IfSome result (λ a. a.refers ≡ target_of directory.now.targets a.found.generation) }
        ensures generation_in { IfSome result (λ a. a.refers ≤ 8) }
        ensures first { IfSome result (λ a. AskNothing self.now object from a.index) }
        ensures none { IfNone result (AskNothing self.now object from end) }
        ensures near { IsNear directory.now near.new }
    {
        if from < end {
            first_asked(self.share.fields(object), from, end, near, directory)
        } else {
            None
        }
    }

    /// Handles the fields of a forwarded object, whose copy stands at `copy`.
    fn sweep_object(
        &mut self,
        object: Address,
        copy: Address,
        near: &mut Near,
        directory: &Directory,
    ) -> Result<(), AllocError>
        requires same { self.old.places.directory ≡ directory.now }
        requires near { IsNear directory.now near.old }
        requires ready { Ready (in_hand self.old object copy) }
        ensures runs { OnOk result (Runs (in_hand self.old object copy) self.new) }
        ensures inbox { OnOk result (self.new.inbox ≡ self.old.inbox) }
        ensures less { OnOk result (left_of self.new < left_of (in_hand self.old object copy)) }
        ensures near { IsNear directory.now near.new }
    {
        let (first, end) = strong_fields(self.share.kind(object), self.share.length(object));
        let mut from = first;
        while let Some(asked) = self.next_asked(object, from, end, near, directory) {
            let index = asked.index;
            self.sweep_field(object, copy, asked)?;
            from = index + 1;
        }
        Ok(())
    }

    /// Handles the fields of the object that was forwarded last of those that are not swept, and answers whether there
    /// was one. So an object's fields are handled while its words are still near, and a list is followed to its end.
    fn sweep_next(&mut self, near: &mut Near, directory: &Directory) -> Result<bool, AllocError>
        requires same { self.old.places.directory ≡ directory.now }
        requires near { IsNear directory.now near.old }
        requires ready { Ready self.old }
        ensures runs { OnOk result (Runs self.old self.new) }
        ensures inbox { OnOk result (self.new.inbox ≡ self.old.inbox) }
        ensures more { IfOk result (λ b. b ≡ true → left_of self.new < left_of self.old) }
        ensures done { IfOk result (λ b. b ≡ false → self.new.places.unswept ≡ []) }
        ensures near { IsNear directory.now near.new }
    {
        let Some(unswept) = self.places.take_unswept() else {
            return Ok(false);
        };
        let (object, copy) = unswept;
        if let Some((car, cdr)) = self.share.pair(object) {
            let Some(_) = directory.find_near(near, object) else {
                unreachable!()
            };
            let first = NextPair {
                object,
                copy,
                car,
                cdr,
            };
            self.sweep_list(first, near, directory)?;
            return Ok(true);
        }
        self.sweep_object(object, copy, near, directory)?;
        Ok(true)
    }

    /// Sweeps until no object of its own is unswept.
    pub(crate) fn sweep_all(&mut self, directory: &Directory) -> Result<(), AllocError>
        requires same { self.old.places.directory ≡ directory.now }
        requires ready { Ready self.old }
        ensures runs { OnOk result (Runs self.old self.new) }
        ensures swept { OnOk result (self.new.places.unswept ≡ []) }
        ensures inbox { OnOk result (self.new.inbox ≡ self.old.inbox) }
    {
        let mut near = Near::none();
        while self.sweep_next(&mut near, directory)? {}
        Ok(())
    }
}
