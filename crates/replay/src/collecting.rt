//! Collections, as the engine performs them.
ghost use Rattle.std.specs.Prelude.{◌≡◌, ◌↔◌, ◌<◌, ◌≤◌, true, Err, OnOk};
ghost use Rattle.trace_types.specs.Steps.{step};
ghost use Rattle.heap_store.specs.Changes.{HaveSoundCards};
ghost use Rattle.heap_store.specs.Calls.{IsLeft, PerformsOnAnyLine};
ghost use Rattle.collector.specs.Collected.{KeepsFixed};

use collector::collect;
use gc_io::Gate;
use heap_store::{Heap, HeapError};
use std::marker::Brand;
use std::sync::ledger::{Blank, Ledger};
use std::thread::Threads;
use steps::Steps;
use trace_types::{CollectArgs, Command};

/// Collects the heap with counters of these ledgers, which nobody reads.
fn collect_on<R: Threads + Sync, G: Gate, M: Ledger, L: Ledger>(
    rt: &R,
    heap: &mut Heap,
    args: CollectArgs,
    sweepers: u32,
    gate: &G,
    mail: Blank,
    steps: Blank,
) -> Result<(), HeapError>
    requires sweepers { (1 ≤ sweepers) × (sweepers ≤ 64) }
    requires mail_name { mail.name ≡ M.name }
    requires mail_parts { mail.parts ≡ M.parts }
    requires mail_some { 0 < mail.parts }
    requires steps_name { steps.name ≡ L.name }
    requires steps_parts { steps.parts ≡ L.parts }
    requires steps_some { 0 < steps.parts }
    ensures step { PerformsOnAnyLine heap.old (λ s line. step s line (Command.Collect args)) result heap.new }
    ensures failed { (result ≡ Err HeapError.Failed) ↔ (heap.old.failed ≡ true) }
    ensures left { IsLeft result heap.old heap.new }
    ensures cards { OnOk result (HaveSoundCards heap.new.territories) }
    ensures fixed { OnOk result (KeepsFixed heap.old heap.new) }
    ensures last { heap.new.last ≡ heap.old.last }
{
    let mut mail = Steps::<M>::new(mail);
    let mut steps = Steps::<L>::new(steps);
    collect(rt, heap, args, sweepers, gate, &mut mail, &mut steps)?;
    Ok(())
}

/// Collects the heap by so many sweepers.
pub(crate) fn collect_heap<R: Threads + Sync, G: Gate>(
    rt: &R,
    heap: &mut Heap,
    args: CollectArgs,
    sweepers: u32,
    gate: &G,
) -> Result<(), HeapError>
    requires sweepers { (1 ≤ sweepers) × (sweepers ≤ 64) }
    ensures step { PerformsOnAnyLine heap.old (λ s line. step s line (Command.Collect args)) result heap.new }
    ensures failed { (result ≡ Err HeapError.Failed) ↔ (heap.old.failed ≡ true) }
    ensures left { IsLeft result heap.old heap.new }
    ensures cards { OnOk result (HaveSoundCards heap.new.territories) }
    ensures fixed { OnOk result (KeepsFixed heap.old heap.new) }
    ensures last { heap.new.last ≡ heap.old.last }
{
    collect_on::<_, _, Brand, Brand>(rt, heap, args, sweepers, gate, Blank::new(1), Blank::new(1))
}
