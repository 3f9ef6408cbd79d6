//! collectcount: makes a heap, collects it eight times by 1, 2 or 4 sweepers, and counts what is copied. First each of
//! eight threads has a list of 60,000 pairs of its own, where sweepers need nothing of each other. Then 500 pairs of
//! these threads in turn are one ring, where a sweeper can only go on once another has copied the pair before.
//!
//! It is there to measure collections by several sweepers: the first three carry all pairs to the oldest generation,
//! and the others collect that one. Given any word it also prints, on a line before each count, how many nanoseconds
//! of the clock a copy took. `bench/run --bench sweepers` calls it so. Each sweeper has a thread of its own.
#![tactic(auto)]

ghost use Rattle.std.specs.Prelude.{◌≡◌, ◌<◌, ◌≤◌, IfOk, length};

use collector::{Report, collect};
use gc_io::OpenGate;
use heap_store::{Heap, HeapError};
use std::alloc::{AllocError, Global};
use std::marker::Brand;
use std::rt::Clock;
use std::sync::ledger::{Blank, Ledger};
use std::thread::Threads;
use std::time::{Duration, Instant};
use std::{env, io};
use steps::Steps;
use trace_types::{CollectArgs, Operand, Register};

/// The threads that make pairs in turn.
const THREADS: u32 = 8;

const OLDEST: u8 = 3;

/// The generation up to which each collection collects.
const COLLECTED: [u8; 8] = [0, 1, 2, 3, 3, 3, 3, 3];

/// Makes so many pairs: each goes onto the list of its thread, or onto the only list, which is then closed to a ring.
fn make_pairs(heap: &mut Heap, pairs: u32, lists: u32) -> Result<(), HeapError>
    requires empty { heap.old.last ≡ 0 }
    requires pairs { pairs ≤ 1000000 }
    requires lists { (1 ≤ lists) × (lists ≤ 8) }
{
    let Some(oldest) = Register::new(THREADS) else {
        unreachable!()
    };
    for line in 1..pairs + 1 {
        let Some(list) = Register::new(line % lists) else {
            unreachable!()
        };
        heap.select_thread((line % THREADS) as u8)?;
        heap.cons(line, list, Operand::Fixnum(1), Operand::Reg(list))?;
        if line == 1 {
            heap.mov(oldest, Operand::Reg(list))?;
        } else if line == pairs && lists == 1 {
            heap.set(oldest, 1, Operand::Reg(list))?;
        }
    }
    Ok(())
}

/// Collects, with counters of these ledgers, which nobody reads.
fn collect_with<R: Threads + Sync, M: Ledger, L: Ledger>(
    rt: &R,
    heap: &mut Heap,
    args: CollectArgs,
    sweepers: u32,
    mail: Blank,
    steps: Blank,
) -> Result<Report, HeapError>
    requires sweepers { (1 ≤ sweepers) × (sweepers ≤ 64) }
    requires mail_name { mail.name ≡ M.name }
    requires mail_parts { mail.parts ≡ M.parts }
    requires mail_some { 0 < mail.parts }
    requires steps_name { steps.name ≡ L.name }
    requires steps_parts { steps.parts ≡ L.parts }
    requires steps_some { 0 < steps.parts }
    ensures { IfOk result (λ r. length r.forwarded ≡ sweepers) }
{
    let mut mail = Steps::<M>::new(mail);
    let mut steps = Steps::<L>::new(steps);
    collect(rt, heap, args, sweepers, &OpenGate, &mut mail, &mut steps)
}

/// Collects up to a generation, and answers how many objects were copied.
fn collected<R: Threads + Sync>(
    rt: &R,
    heap: &mut Heap,
    cg: u8,
    sweepers: u32,
) -> Result<u64, HeapError>
    requires cg { cg ≤ 7 }
    requires sweepers { (1 ≤ sweepers) × (sweepers ≤ 64) }
{
    let min = OLDEST.min(cg + 1);
    let args = CollectArgs::Explicit { cg, min, max: min };
    let (mail, steps) = (Blank::new(1), Blank::new(1));
    let report = collect_with::<_, Brand, Brand>(rt, heap, args, sweepers, mail, steps)?;
    let mut copied: u64 = 0;
    for sweeper in 0..sweepers {
        copied = copied.saturating_add(report.forwarded.number(sweeper));
    }
    Ok(copied)
}

/// Makes a heap and collects it. How many objects were copied, and the time that the collections took.
fn measured<R: Threads + Clock + Sync>(
    rt: &R,
    alloc: Global,
    pairs: u32,
    lists: u32,
    sweepers: u32,
) -> io::Result<(u64, Duration)>
    requires pairs { pairs ≤ 1000000 }
    requires lists { (1 ≤ lists) × (lists ≤ 8) }
    requires sweepers { (1 ≤ sweepers) × (sweepers ≤ 64) }
{
    let mut heap = Heap::new(alloc, OLDEST)?;
    // only want of memory refuses any of these calls
    make_pairs(&mut heap, pairs, lists).or(Err(AllocError))?;
    let mut copied: u64 = 0;
    let start = Instant::now(rt)?;
    for cg in COLLECTED {
        let count = collected(rt, &mut heap, cg, sweepers).or(Err(AllocError))?;
        copied = copied.saturating_add(count);
    }
    Ok((copied, start.elapsed(rt)?))
}

fn tell<R: Print + Threads + Clock + Sync>(
    rt: &R,
    alloc: Global,
    pairs: u32,
    lists: u32,
    tells_times: bool,
) -> io::Result<()>
    requires pairs { pairs ≤ 1000000 }
    requires lists { (1 ≤ lists) × (lists ≤ 8) }
{
    for sweepers in [1, 2, 4] {
        let (copied, time) = measured(rt, alloc, pairs, lists, sweepers)?;
        if tells_times {
            println!(rt; "{}", time.as_nanos() / u128::from(copied.max(1)))?;
        }
        println!(rt; "{pairs} pairs: {copied} copied by {sweepers}")?;
    }
    Ok(())
}

fn main(rt: HostRuntime) -> io::Result<()> {
    let tells_times = env::args(&rt)?.len() > 1;
    tell(&rt, rt.alloc(), 480_000, THREADS, tells_times)?;
    tell(&rt, rt.alloc(), 500, 1, tells_times)
}
