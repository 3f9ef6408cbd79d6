//! Messages are handled: an object is asked for, or a place is told.

ghost use Rattle.std.specs.Prelude.{◌≡◌, ◌+◌, ◌<◌, [], IfOk, OnOk, length, true, false};
ghost use Rattle.gc_mail.specs.Recipients.{HasRecipient, holder_of};
ghost use Rattle.gc_mail.specs.declared.message.Message.TheVariants as message;
ghost use Rattle.territory.specs.Finishing.{target_of};
ghost use Rattle.sweeper.specs.Sweepers.{CanKeep, HasWord, Writes};
ghost use Rattle.sweeper.specs.Ready.{Answered, Handles, MayHandle, Ready, Runs};

use crate::Sweeper;
use directory::Directory;
use gc_mail::{Message, Slot, holder};
use gc_words::Address;
use std::alloc::AllocError;

/// How many messages are handled before what they kept is swept. So few objects wait for that, and their words are
/// still near.
const HANDFUL: u32 = 256;

impl Sweeper {
    /// Keeps an object of its own that was asked for. Its place is written where the slot is of this sweeper, and else
    /// told to the sweeper that holds it.
    fn answer(
        &mut self,
        target: Address,
        back: &Slot,
        directory: &Directory,
    ) -> Result<(), AllocError>
        requires same { self.old.places.directory ≡ directory.now }
        requires may { CanKeep self.old target }
        requires told { HasRecipient (message.Moved back.now target) }
        requires word { holder_of self.old.share.sweepers back.now ≡ self.old.share.number → HasWord self.old back.now }
        ensures { OnOk result (Answered self.old self.new target back.now) }
    {
        let Some(found) = directory.find(target) else {
            unreachable!()
        };
        let refers = directory.target(found.generation);
        let place = self.keep(target, found.word, refers)?;
        if holder(back, directory.sweepers()) == self.share.number() {
            self.write(back, place, refers, directory);
            return Ok(());
        }
        self.outbox.send(Message::Moved {
            back: *back,
            new: place,
        })?;
        Ok(())
    }

    /// Writes a place that another sweeper told. Of the object there only this is known here, that it went to no lower
    /// generation than any object goes to.
    fn learn(&mut self, back: &Slot, place: Address, directory: &Directory)
        requires same { self.old.places.directory ≡ directory.now }
        requires word { HasWord self.old back.now }
        ensures { Writes self.old self.new back.now place (target_of self.old.places.directory.targets 0) }
    {
        self.write(back, place, directory.target(0), directory);
    }

    /// Handles a message that came.
    fn handle(&mut self, message: &Message, directory: &Directory) -> Result<(), AllocError>
        requires same { self.old.places.directory ≡ directory.now }
        requires may { MayHandle self.old message.now }
        ensures handled { OnOk result (Handles self.old message.now self.new) }
        ensures inbox { OnOk result (self.new.inbox ≡ self.old.inbox) }
    {
        match message {
            Message::Forward { target, back } => self.answer(*target, back, directory),
            Message::Moved { back, new } => {
                self.learn(back, *new, directory);
                Ok(())
            }
            Message::Watch { .. } => unreachable!(),
        }
    }

    /// Handles the first message, and answers whether there was one.
    fn handle_next(&mut self, directory: &Directory) -> Result<bool, AllocError>
        requires same { self.old.places.directory ≡ directory.now }
        requires ready { Ready self.old }
        ensures runs { OnOk result (Runs self.old self.new) }
        ensures more { IfOk result (λ b. b ≡ true → length self.old.inbox ≡ length self.new.inbox + 1) }
        ensures done { IfOk result (λ b. b ≡ false → self.new.inbox ≡ []) }
    {
        match self.inbox.next() {
            None => Ok(false),
            Some(message) => {
                self.handle(&message, directory)?;
                Ok(true)
            }
        }
    }

    /// Handles the next messages, at most `HANDFUL` of them, and answers whether there were so many.
    pub(crate) fn handle_some(&mut self, directory: &Directory) -> Result<bool, AllocError>
        requires same { self.old.places.directory ≡ directory.now }
        requires ready { Ready self.old }
        ensures runs { OnOk result (Runs self.old self.new) }
        ensures more { IfOk result (λ b. b ≡ true → length self.new.inbox < length self.old.inbox) }
        ensures done { IfOk result (λ b. b ≡ false → self.new.inbox ≡ []) }
    {
        for _ in 0..HANDFUL {
            if !self.handle_next(directory)? {
                return Ok(false);
            }
        }
        Ok(true)
    }
}
