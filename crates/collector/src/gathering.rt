//! The territories and registers of all sweepers are put together again.

ghost use Rattle.std.specs.Prelude.{◌≡◌, ◌≢◌, ℕ, ◌<◌, ◌≤◌, length, IfOk};
ghost use Rattle.sweep_share.specs.Registers.{AreRegistersOf, item_at};
ghost use Rattle.sweeper.specs.Sweepers.{SweeperView};
ghost use Rattle.sweep_rounds.specs.Turns.{sweeper_at};
ghost use Rattle.collector.specs.Dealt.{AreGathered, AreWhole};
ghost use Rattle.collector.specs.Swept.{AreEnded, ArePut};

use crate::dealing::OwnTerritories;
use gc_words::Value;
use std::alloc::{AllocError, Global};
use sweeper::Sweeper;
use territory::Territory;

/// How many threads there are.
const THREADS: usize = gc_words::THREADS as usize;

/// Puts what a sweeper's registers hold where it belongs.
fn put_registers(registers: &mut [Value], own: &[(u32, Value)])
    requires apart { (i j : ℕ) → i < j → j < length own.now → (item_at own.now i).0 ≢ (item_at own.now j).0 }
    requires within { (i : ℕ) → i < length own.now → (item_at own.now i).0 < length registers.old }
    ensures { ArePut registers.old registers.new own.now }
{
    for (register, value) in own {
        registers[*register as usize] = *value;
    }
}

/// Ends the collection of each sweeper: the territories of each, in the order of the sweepers. The registers that the
/// sweepers have hold what theirs hold, and the others are as they were. Takes memory.
pub(crate) fn end_all(
    alloc: Global,
    sweepers: Vec<Sweeper>,
    registers: &mut Vec<Value>,
) -> Result<Vec<OwnTerritories>, AllocError>
    requires numbers { (k : ℕ) (e : SweeperView) → k < length sweepers.items
        → ((sweeper_at sweepers.items e k).registers.number ≡ k)
        × ((sweeper_at sweepers.items e k).registers.sweepers ≡ length sweepers.items) }
    requires within { (k i : ℕ) (e : SweeperView) → k < length sweepers.items
        → i < length (sweeper_at sweepers.items e k).registers.items
        → AreRegistersOf (sweeper_at sweepers.items e k).registers.number
        (sweeper_at sweepers.items e k).registers.sweepers (sweeper_at sweepers.items e k).registers.items
        → (item_at (sweeper_at sweepers.items e k).registers.items i).0 < length registers.old.items }
    ensures { IfOk result (λ v. AreEnded sweepers.items v.items registers.old.items registers.new.items) }
{
    let mut owns = Vec::new(alloc);
    for sweeper in sweepers {
        let parts = sweeper.finish();
        put_registers(registers, &parts.registers);
        owns.push(OwnTerritories::new(parts.territories))?;
    }
    Ok(owns)
}

/// The territories of all threads, where one sweeper has them.
fn gather_from_one(owns: Vec<OwnTerritories>) -> Vec<Territory>
    requires one { length owns.items ≡ 1 }
    requires whole { AreWhole 1 owns.items }
    ensures { AreGathered 1 owns.items result.items }
{
    let mut owns = owns;
    let Some(own) = owns.pop() else {
        unreachable!()
    };
    own.into_territories()
}

/// The territories of all threads, from those of the sweepers. Takes memory.
pub(crate) fn gather_territories(
    alloc: Global,
    owns: Vec<OwnTerritories>,
) -> Result<Vec<Territory>, AllocError>
    requires some { 1 ≤ length owns.items }
    requires whole { AreWhole (length owns.items) owns.items }
    ensures { IfOk result (λ v. AreGathered (length owns.items) owns.items v.items) }
{
    // One sweeper has all of them in order, and they need not be moved.
    if owns.len() == 1 {
        return Ok(gather_from_one(owns));
    }
    let mut owns = owns;
    let mut territories = Vec::with_capacity(alloc, THREADS)?;
    let mut thread = THREADS;
    while thread > 0 {
        thread -= 1;
        let sweeper = thread % owns.len();
        let Some(territory) = owns[sweeper].pop() else {
            unreachable!()
        };
        territories.push(territory)?;
    }
    territories.reverse();
    Ok(territories)
}
