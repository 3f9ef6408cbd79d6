//! Territories and registers are collected by sweepers.

ghost use Rattle.std.specs.Prelude.{◌≡◌, ℕ, ◌+◌, ◌<◌, ◌≤◌, length, slice_index, IfOk};
ghost use Rattle.directory.specs.Directories.{sweeper_count};
ghost use Rattle.heap_store.specs.Used.{HoldNoneFrom};
ghost use Rattle.sweep_share.specs.Shares.{AreShareOf};
ghost use Rattle.sweeper.specs.Sweepers.{SweeperView};
ghost use Rattle.sweep_rounds.specs.Turns.{sweeper_at};
ghost use Rattle.collector.specs.Begun.{AreCollectable, AreMade, HaveBegun};
ghost use Rattle.collector.specs.Dealt.{own_at};
ghost use Rattle.collector.specs.Swept.{IsSwept};

use crate::dealing::{OwnTerritories, deal_registers, deal_territories};
use crate::gathering::{end_all, gather_territories};
use crate::report::{Counts, Report};
use directory::Directory;
use gc_io::Gate;
use gc_words::Value;
use std::alloc::{AllocError, Global};
use std::sync::ledger::Ledger;
use std::thread::Threads;
use steps::Steps;
use sweep_rounds::run_to_idle;
use sweeper::Sweeper;
use territory::{Targets, Territory};

/// What is left of a collection.
#[derive(Drop)]
pub(crate) struct Swept {
    pub territories: Vec<Territory>,
    pub registers: Vec<Value>,
    pub report: Report,
}

/// Sets the collected generations of each territory aside.
fn begin_all(territories: &mut Vec<Territory>, targets: Targets)
    requires least { targets.cg ≤ targets.min }
    requires greatest { targets.min ≤ targets.max }
    requires generations { targets.max ≤ 8 }
    ensures { HaveBegun territories.old.items territories.new.items targets }
{
    for i in 0..territories.len() {
        territories[i].begin(targets);
    }
}

/// A sweeper for each share of the territories, with its registers. Those that hold objects lie below `used`. Takes
/// memory.
fn make_sweepers(
    alloc: Global,
    owns: Vec<OwnTerritories>,
    registers: &[Value],
    used: usize,
    directory: &Directory,
) -> Result<Vec<Sweeper>, AllocError>
    requires count { length owns.items ≡ sweeper_count directory.now }
    requires shares { (k : ℕ) → k < length owns.items
        → AreShareOf k (sweeper_count directory.now) (own_at owns.items k) }
    requires registers { length registers.now ≡ 4096 }
    requires within { used ≤ length registers.now }
    requires none { HoldNoneFrom registers.now used }
    ensures { IfOk result (λ v. AreMade directory.now owns.items registers.now v.items) }
{
    let count = directory.sweepers();
    let mut dealt = deal_registers(alloc, &registers[..used], count)?;
    let mut number = 0;
    let mut sweepers = Vec::new(alloc);
    for own in owns {
        let own_registers = dealt[number as usize].take(alloc);
        let territories = own.into_territories();
        sweepers.push(Sweeper::new(alloc, number, territories, own_registers, directory)?)?;
        number += 1;
    }
    Ok(sweepers)
}

/// How many objects and cells each sweeper copied. Takes memory.
fn copied(alloc: Global, sweepers: &[Sweeper]) -> Result<Vec<u64>, AllocError>
    ensures count { IfOk result (λ v. length v.items ≡ length sweepers.now) }
    ensures each { IfOk result (λ v. (k : ℕ) (e : SweeperView) → k < length sweepers.now
        → slice_index v.items k ≡ length (sweeper_at sweepers.now e k).places.own) }
{
    let mut counts = Vec::new(alloc);
    for sweeper in sweepers {
        counts.push(sweeper.forwarded())?;
    }
    Ok(counts)
}

/// Collects territories and registers: the generations up to `cg` of the targets, by so many sweepers. The
/// registers that hold objects lie below `used`. Takes memory.
pub(crate) fn sweep<R: Threads + Sync, G: Gate, M: Ledger>(
    rt: &R,
    territories: Vec<Territory>,
    registers: Vec<Value>,
    used: usize,
    targets: Targets,
    sweepers: u32,
    gate: &G,
    mail: &mut Steps<M>,
) -> Result<Swept, AllocError>
    requires collectable { AreCollectable territories.items registers.items targets }
    requires within { used ≤ length registers.items }
    requires none { HoldNoneFrom registers.items used }
    requires sweepers { (1 ≤ sweepers) × (sweepers ≤ 64) }
    ensures swept { IfOk result (λ r. IsSwept territories.items registers.items targets sweepers
        r.territories.items r.registers.items r.report.forwarded) }
    ensures mail { IfOk result (λ r. mail.new ≡ mail.old + r.report.rounds + r.report.messages) }
    ensures few { IfOk result (λ r. r.report.rounds ≤ r.report.messages + 1) }
{
    let alloc = *registers.allocator();
    let mut territories = territories;
    let mut registers = registers;
    begin_all(&mut territories, targets);
    let directory = Directory::new(alloc, &territories, targets, sweepers)?;
    let owns = deal_territories(alloc, territories, sweepers)?;
    let mut all = make_sweepers(alloc, owns, &registers, used, &directory)?;
    let done = run_to_idle(rt, &mut all, &directory, gate, mail)?;
    let forwarded = Counts::new(copied(alloc, &all)?);
    let owns = end_all(alloc, all, &mut registers)?;
    let territories = gather_territories(alloc, owns)?;
    Ok(Swept {
        territories,
        registers,
        report: Report {
            forwarded,
            rounds: done.rounds,
            messages: done.messages,
        },
    })
}
