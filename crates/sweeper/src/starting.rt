//! A sweeper begins: it asks for what its registers and its older objects refer to.
//!
//! What a sweeper asks for is its roots: what registers refer to, and strong fields of objects that are not collected. Of
//! these fields only those under marked cards are asked for, since sound cards tell of every reference to a younger
//! object. Each root is asked for once, by a message in the sweeper's own inbox where the object is its own, else in its
//! outbox; so the first round has nothing to do but to handle messages and to sweep.

ghost use Rattle.std.specs.Prelude.{◌≡◌, ℕ, ◌<◌, Some, IfOk, IsSome, OnOk, [], false, length};
ghost use Rattle.std.specs.FinMap as map;
ghost use Rattle.territory.specs.Olds.{olds_of};
ghost use Rattle.territory.specs.Territories.{words_of};
ghost use Rattle.directory.specs.Directories.{sweeper_count};
ghost use Rattle.directory.specs.Nears.{IsNear};
ghost use Rattle.sweep_model.specs.World.{IsWorld, World};
ghost use Rattle.sweep_share.specs.Registers.{AreRegistersOf};
ghost use Rattle.sweep_share.specs.Shares.{AreShareOf, IsShare, territory_at};
ghost use Rattle.sweeper.specs.Starting.{AreAsked, AreTold, IsBeginning, IsBegun};
ghost use Rattle.sweeper.specs.Starting.{AsksFor, AsksOfObject, AsksOfOlds, AsksOfOldsOfAll, AsksOfRegisters};

use crate::Sweeper;
use crate::fields::strong_fields;
use crate::olds::next_old_asked;
use directory::{Directory, Near};
use gc_mail::{Inbox, Message, Outbox, Slot};
use gc_words::{Address, Value};
use std::alloc::{AllocError, Global};
use sweep_places::Places;
use sweep_share::{Registers, Share};
use territory::Territory;

/// The first mail: what a sweeper asks of itself, and what of others.
#[derive(Drop)]
pub(crate) struct Mail {
    inbox: Inbox,
    outbox: Outbox,
}

impl Mail {
    /// Asks the owner of an object for it, where it is collected.
    fn ask(
        &mut self,
        target: Address,
        back: Slot,
        share: &Share,
        directory: &Directory,
    ) -> Result<(), AllocError>
        ensures { OnOk result (AreAsked share.now self.old self.new (AsksFor directory.now back target)) }
    {
        if !directory.collected(target) {
            return Ok(());
        }
        let message = Message::Forward { target, back };
        if share.is_own(target) {
            self.inbox.add(message)?;
        } else {
            self.outbox.send(message)?;
        }
        Ok(())
    }

    /// Asks for what each register holds.
    fn ask_registers(
        &mut self,
        registers: &Registers,
        share: &Share,
        directory: &Directory,
    ) -> Result<(), AllocError>
        requires { AreRegistersOf registers.now.number registers.now.sweepers registers.now.items }
        ensures { OnOk result (AreAsked share.now self.old self.new
            (AsksOfRegisters directory.now registers.now (length registers.now.items))) }
    {
        for i in 0..registers.len() {
            let (register, value) = registers.get(i);
            if let Value::Object(target) = value {
                self.ask(target, Slot::Register(register), share, directory)?;
            }
        }
        Ok(())
    }

    /// Asks for what the strong fields of an older object refer to. Those under cards that tell of collected generations
    /// are asked for, and no other refers to a collected object.
    fn ask_object(
        &mut self,
        object: Address,
        territory: &Territory,
        share: &Share,
        near: &mut Near,
        directory: &Directory,
    ) -> Result<(), AllocError>
        requires start { IsSome (map.get territory.now.starts object) }
        requires near { IsNear directory.now near.old }
        ensures asked { OnOk result (AreAsked share.now self.old self.new
            (AsksOfObject directory.now territory.now object
            (length (words_of (map.get territory.now.starts object))))) }
        ensures near { IsNear directory.now near.new }
    {
        let (first, end) = strong_fields(territory.kind(object), territory.length(object));
        let mut from = first;
        while let Some(asked) = next_old_asked(territory, object, from, end, near, directory) {
            let index = asked.index;
            self.ask(
                asked.target,
                Slot::Field { object, index },
                share,
                directory,
            )?;
            from = index + 1;
        }
        Ok(())
    }

    /// Asks for what the older objects of a territory refer to.
    fn ask_territory(
        &mut self,
        territory: &Territory,
        share: &Share,
        directory: &Directory,
    ) -> Result<(), AllocError>
        ensures asked { OnOk result (AreAsked share.now self.old self.new
            (AsksOfOlds directory.now territory.now
            (length (olds_of territory.now directory.now.targets.cg)))) }
        ensures told { AreTold territory.now directory.now.targets.cg }
    {
        let cg = directory.cg();
        let mut near = Near::none();
        let mut at = territory.first_old(cg);
        while let Some(object) = at {
            self.ask_object(object, territory, share, &mut near, directory)?;
            at = territory.next_old(object, cg);
        }
        Ok(())
    }

    /// Asks for what the older objects of all its territories refer to.
    fn ask_territories(&mut self, share: &Share, directory: &Directory) -> Result<(), AllocError>
        requires { IsShare share.now }
        ensures asked { OnOk result (AreAsked share.now self.old self.new
            (AsksOfOldsOfAll directory.now share.now (length share.now.territories))) }
        ensures told { OnOk result ((i : ℕ) → i < length share.now.territories
            → AreTold (territory_at share.now i) directory.now.targets.cg) }
    {
        for i in 0..share.len() {
            self.ask_territory(share.territory(i), share, directory)?;
        }
        Ok(())
    }
}

impl Sweeper {
    /// The sweeper of this number of a collection, with its territories, which have begun the collection, and those of
    /// its registers that hold objects, in ascending order of their numbers. It has asked for each collected object to
    /// which a register or an older object of its own refers: of itself, where the object is its own, else of the
    /// owner. The marks on its cards are raised, so that those of collected generations come with the new places.
    /// Takes memory for its share, its places and its mail; AllocError where it is refused, and what the sweeper was
    /// to have is dropped then.
    pub fn new(
        alloc: Global,
        number: u32,
        territories: Vec<Territory>,
        registers: Vec<(u32, Value)>,
        directory: &Directory,
    ) -> Result<Sweeper, AllocError>
        requires territories { AreShareOf number (sweeper_count directory.now) territories.items }
        requires registers { AreRegistersOf number (sweeper_count directory.now) registers.items }
        ensures begun { IfOk result (λ v. (world : World) → IsWorld world
            → IsBeginning world number directory.now territories.items registers.items → IsBegun world v) }
        ensures directory { IfOk result (λ v. v.places.directory ≡ directory.now) }
        ensures number { IfOk result (λ v. v.share.number ≡ number) }
        ensures own { IfOk result (λ v. v.places.own ≡ []) }
        ensures swept { IfOk result (λ v. v.places.unswept ≡ []) }
        ensures round { IfOk result (λ v. v.round ≡ 0) }
        ensures ran_out { IfOk result (λ v. v.ran_out ≡ false) }
    {
        let sweepers = directory.sweepers();
        let mut share = Share::new(alloc, number, sweepers, territories)?;
        let registers = Registers::new(number, sweepers, registers);
        let places = Places::new(directory, number, share.take_spare())?;
        let inbox = Inbox::new(alloc);
        let outbox = Outbox::new(alloc);
        let mut mail = Mail { inbox, outbox };
        mail.ask_registers(&registers, &share, directory)?;
        mail.ask_territories(&share, directory)?;
        share.raise_cards(directory.cg());
        Ok(Sweeper {
            share,
            registers,
            places,
            inbox: mail.inbox,
            outbox: mail.outbox,
            round: 0,
            ran_out: false,
        })
    }
}
