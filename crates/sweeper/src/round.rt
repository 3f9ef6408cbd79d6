//! A round of a sweeper.

ghost use Rattle.std.specs.Prelude.{◌≡◌, ◌+◌, ◌-◌, ◌^◌, ◌<◌, true, false, [], IfOk, OnErr, OnOk, length, min};
ghost use Rattle.sweeper.specs.Ready.{Ready, Runs, RunsRound};

use crate::Sweeper;
use directory::Directory;
use gc_io::Gate;
use std::alloc::AllocError;

impl Sweeper {
    /// A round: passes the gate with its number, handles all messages that came, and sweeps until nothing of its own is
    /// unswept. What it asks of others, and what it answers, is in its outbox then. AllocError where memory is refused;
    /// the sweeper is then not to be used any more.
    pub fn round<G: Gate>(&mut self, directory: &Directory, gate: &G) -> Result<(), AllocError>
        requires same { self.old.places.directory ≡ directory.now }
        requires ready { Ready self.old }
        ensures runs { OnOk result (RunsRound self.old self.new) }
        ensures inbox { OnOk result (self.new.inbox ≡ []) }
        ensures swept { OnOk result (self.new.places.unswept ≡ []) }
        ensures round { OnOk result (self.new.round ≡ min (self.old.round + 1) (2 ^ 64 - 1)) }
        ensures ran_out { OnOk result (self.new.ran_out ≡ self.old.ran_out) }
        ensures refused { OnErr result (self.new.ran_out ≡ true) }
    {
        gate.pass(self.share.number(), self.round);
        let worked = self.work(directory);
        self.round = self.round.saturating_add(1);
        if worked.is_err() {
            self.ran_out = true;
        }
        worked
    }

    /// Handles the next messages, and sweeps what is unswept. Answers whether further messages may be there.
    fn work_on(&mut self, directory: &Directory) -> Result<bool, AllocError>
        requires same { self.old.places.directory ≡ directory.now }
        requires ready { Ready self.old }
        ensures runs { OnOk result (Runs self.old self.new) }
        ensures more { IfOk result (λ b. b ≡ true → length self.new.inbox < length self.old.inbox) }
        ensures done { IfOk result (λ b. b ≡ false → self.new.inbox ≡ []) }
        ensures swept { OnOk result (self.new.places.unswept ≡ []) }
    {
        let more = self.handle_some(directory)?;
        self.sweep_all(directory)?;
        Ok(more)
    }

    /// Handles all messages, and sweeps what is unswept.
    fn work(&mut self, directory: &Directory) -> Result<(), AllocError>
        requires same { self.old.places.directory ≡ directory.now }
        requires ready { Ready self.old }
        ensures runs { OnOk result (Runs self.old self.new) }
        ensures inbox { OnOk result (self.new.inbox ≡ []) }
        ensures swept { OnOk result (self.new.places.unswept ≡ []) }
    {
        while self.work_on(directory)? {}
        Ok(())
    }
}
