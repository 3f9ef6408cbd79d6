//! The collection of a heap.

ghost use Rattle.std.specs.Prelude.{◌≡◌, ◌↔◌, ℕ, ◌+◌, ◌*◌, ◌<◌, ◌≤◌, true, Err, IfNone, IfOk, IfSome, OnOk, IsTrue, length, slice_index};
ghost use Rattle.trace_types.specs.States.{State};
ghost use Rattle.trace_types.specs.Steps.{step};
ghost use Rattle.trace_types.specs.Collections.{are_allowed, collect};
ghost use Rattle.heap_store.specs.Changes.{HaveSoundCards};
ghost use Rattle.heap_store.specs.Parts.{seen_parts};
ghost use Rattle.heap_store.specs.Stands.{Stands};
ghost use Rattle.heap_store.specs.Calls.{IsLeft, IsValid, PerformsOnAnyLine};
ghost use Rattle.heap_store.specs.Used.{HoldNoneFrom};
ghost use Rattle.collect_model.specs.Worlds.{arguments_of};
ghost use Rattle.collect_model.specs.Counts.{copied_by};
ghost use Rattle.collector.specs.Collected.{AreCounted, KeepsFixed, arguments_in, counted_in, registrations_up_to, without_report};

use crate::arguments::targets_of;
use crate::report::Report;
use crate::sweeping::sweep;
use gc_io::Gate;
use heap_store::{Heap, HeapError, Parts};
use std::alloc::AllocError;
use std::sync::ledger::Ledger;
use std::thread::Threads;
use steps::Steps;
use territory::Targets;
use trace_types::{CollectArgs, Command, Fault};

/// Collects the parts of a heap. They are valid before and after, and the registers that hold objects lie below `used`.
/// Takes memory.
fn collect_parts<R: Threads + Sync, G: Gate, M: Ledger>(
    rt: &R,
    parts: Parts,
    used: usize,
    targets: Targets,
    sweepers: u32,
    gate: &G,
    mail: &mut Steps<M>,
) -> Result<(Parts, Report), AllocError>
    requires valid { IsValid (seen_parts parts) }
    requires within { used ≤ length parts.registers.items }
    requires none { HoldNoneFrom parts.registers.items used }
    requires sweepers { (1 ≤ sweepers) × (sweepers ≤ 64) }
    requires allowed { IsTrue (are_allowed parts.version parts.generations (arguments_of targets)) }
    ensures stands { IfOk result (λ r. (s : State) → Stands (seen_parts parts) s
        → Stands (seen_parts r.0) (collect s (arguments_of targets))) }
    ensures valid { IfOk result (λ r. IsValid (seen_parts r.0)) }
    ensures within { IfOk result (λ r. used ≤ length r.0.registers.items) }
    ensures none { IfOk result (λ r. HoldNoneFrom r.0.registers.items used) }
    ensures last { IfOk result (λ r. r.0.last ≡ parts.last) }
    ensures count { IfOk result (λ r. length r.1.forwarded ≡ sweepers) }
    ensures copied { IfOk result (λ r. (s : State) (k : ℕ) → Stands (seen_parts parts) s → k < sweepers
        → slice_index r.1.forwarded k ≡ copied_by s targets.cg sweepers k) }
    ensures mail { IfOk result (λ r. mail.new ≡ mail.old + r.1.rounds + r.1.messages) }
    ensures few { IfOk result (λ r. r.1.rounds ≤ r.1.messages + 1) }
{
    let Parts {
        territories,
        registers,
        locks,
        notes,
        registry,
        collects,
        thread,
        generations,
        version,
        last,
    } = parts;
    let swept = sweep(
        rt,
        territories,
        registers,
        used,
        targets,
        sweepers,
        gate,
        mail,
    )?;
    let parts = Parts {
        territories: swept.territories,
        registers: swept.registers,
        locks,
        notes,
        registry,
        collects,
        thread,
        generations,
        version,
        last,
    };
    Ok((parts, swept.report))
}

/// How many collections without arguments there were, with this one. None where that is no number of 64 bits.
fn counted(args: CollectArgs, before: u64) -> Option<u64>
    ensures some { IfSome result (λ n. n ≡ counted_in args before) }
    ensures none { IfNone result (args ≡ CollectArgs.Plain) }
{
    match args {
        CollectArgs::Plain => before.checked_add(1),
        CollectArgs::Explicit { .. } => Some(before),
    }
}

/// Collects a heap: the generations up to that of the arguments, by so many sweepers, each in a thread of its own. What
/// is kept goes to the generations that the arguments ask for, and all else that was collected goes. A plain
/// collection counts itself first, and collects by its number.
///
/// `Failed` comes where the heap had failed, and `Fault(BadGeneration)` where version and oldest generation do not allow
/// the arguments; the heap is then as before. Where memory runs out the heap has failed; as 2^64 plain collections,
/// rounds or messages would be, that is `NoMemory`. A gate is passed by each sweeper in each round. `mail`
/// takes a step for each round and each message, and `steps` one for each registration that is read.
///
/// Generations and targets are as in Chez Scheme; which arguments are allowed, the sweepers and the rounds are this
/// project's own.
pub fn collect<R: Threads + Sync, G: Gate, M: Ledger, L: Ledger>(
    rt: &R,
    heap: &mut Heap,
    args: CollectArgs,
    sweepers: u32,
    gate: &G,
    mail: &mut Steps<M>,
    steps: &mut Steps<L>,
) -> Result<Report, HeapError>
    requires sweepers { (1 ≤ sweepers) × (sweepers ≤ 64) }
    ensures step { PerformsOnAnyLine heap.old (λ s line. step s line (Command.Collect args)) (without_report result) heap.new }
    ensures failed { (without_report result ≡ Err HeapError.Failed) ↔ (heap.old.failed ≡ true) }
    ensures left { IsLeft (without_report result) heap.old heap.new }
    ensures cards { OnOk result (HaveSoundCards heap.new.territories) }
    ensures fixed { OnOk result (KeepsFixed heap.old heap.new) }
    ensures last { heap.new.last ≡ heap.old.last }
    ensures counted { IfOk result (λ r. AreCounted heap.old args sweepers r.forwarded) }
    ensures mail { IfOk result (λ r. mail.new ≡ mail.old + r.rounds + r.messages) }
    ensures few { IfOk result (λ r. r.rounds ≤ r.messages + 1) }
    ensures steps { steps.new ≤ steps.old + 2 * registrations_up_to
        (arguments_in heap.old.oldest (counted_in args heap.old.collects) args).cg heap.old.registry }
{
    if heap.failed() {
        return Err(HeapError::Failed);
    }
    let used = heap.used_registers();
    let mut parts = heap.take_parts();
    let Some(number) = counted(args, parts.collects) else {
        return Err(HeapError::NoMemory);
    };
    let Some(targets) = targets_of(args, number, parts.version, parts.generations) else {
        heap.put_parts(parts);
        heap.narrow_registers(used);
        return Err(HeapError::Fault(Fault::BadGeneration));
    };
    parts.collects = number;
    let Ok((parts, report)) = collect_parts(rt, parts, used, targets, sweepers, gate, mail) else {
        return Err(HeapError::NoMemory);
    };
    heap.put_parts(parts);
    // A register that held no object is as it was, so the bound is still one.
    heap.narrow_registers(used);
    Ok(report)
}
