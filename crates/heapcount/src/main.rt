//! heapcount: makes 1,000,000 pairs, and as many vectors of three, in one territory; copies a pair, a vector of three and
//! one of 100 as often; and then makes as many pairs by `cons` in a heap, whose fields it sets and gets. It also fills
//! 1,000 segments of a territory, sets them aside and gives them back, again and again, and prints the greatest number
//! of a segment: the first turn's segments serve them all.
//!
//! It is there to measure these calls alone. Given any word it also prints how many nanoseconds of the processor each
//! of them took, on a line each: a pair, a vector, the copies, `cons`, `set` and `get`, and a segment that is opened,
//! filled by four vectors, set aside and given back. `bench/run --bench heap` calls it so.
#![tactic(auto)]

ghost use Rattle.std.specs.Prelude.{◌≡◌};
ghost use Rattle.segment.specs.Layout.{HasLength};

use heap_store::{Heap, HeapError};
use std::alloc::{AllocError, Global};
use std::time::{CpuClock, Duration};
use std::{env, io};
use territory::{Targets, Territory};
use trace_types::{Kind, Operand, Register};

const COUNT: u32 = 1_000_000;

/// How many copies a territory takes, so that they lie in the cache, as what a collection copies last does.
const COPIES: u32 = 1000;

/// The segments of a turn.
const SEGMENTS: u32 = 1_000;

/// The turns that are timed.
const TURNS: u32 = 100;

/// What a call took, in nanoseconds, from the time of all of them.
fn each(all: Duration) -> u128 {
    all.as_nanos() / u128::from(COUNT)
}

fn make_all(territory: &mut Territory, kind: Kind, length: u32) -> Result<(), AllocError>
    requires { HasLength kind length }
{
    for line in 0..COUNT {
        territory.allocate(kind, length, 0, line + 1)?;
    }
    Ok(())
}

fn time_objects<C: CpuClock>(alloc: Global, clock: &C, kind: Kind, length: u32) -> io::Result<u128>
    requires { HasLength kind length }
{
    let mut territory = Territory::new(alloc, 0)?;
    let start = clock.thread_cpu_time()?;
    make_all(&mut territory, kind, length)?;
    let end = clock.thread_cpu_time()?;
    Ok(each(end.saturating_sub(start)))
}

/// Makes an object and copies it into another generation.
fn copy_all(alloc: Global, kind: Kind, length: u32) -> Result<(), AllocError>
    requires { HasLength kind length }
{
    let mut territory = Territory::new(alloc, 0)?;
    let at = territory.allocate(kind, length, 0, 1)?;
    for _ in 0..COPIES {
        territory.copy(at, 1)?;
    }
    Ok(())
}

/// What a copy takes, with its part in the segments that are opened.
fn time_copies<C: CpuClock>(alloc: Global, clock: &C, kind: Kind, length: u32) -> io::Result<u128>
    requires { HasLength kind length }
{
    let start = clock.thread_cpu_time()?;
    for _ in 0..COUNT / COPIES {
        copy_all(alloc, kind, length)?;
    }
    let end = clock.thread_cpu_time()?;
    Ok(each(end.saturating_sub(start)))
}

/// Each new pair refers to the one before and to itself of two lines before.
fn cons_all(heap: &mut Heap, d: Register, e: Register) -> Result<(), HeapError>
    requires { heap.old.last ≡ 0 }
{
    for line in 0..COUNT {
        heap.cons(line + 1, d, Operand::Reg(e), Operand::Reg(d))?;
    }
    Ok(())
}

fn set_all(heap: &mut Heap, d: Register, e: Register) -> Result<(), HeapError> {
    for _ in 0..COUNT {
        heap.set(d, 1, Operand::Reg(e))?;
    }
    Ok(())
}

fn get_all(heap: &mut Heap, d: Register, e: Register) -> Result<(), HeapError> {
    for _ in 0..COUNT {
        heap.get(e, d, 0)?;
    }
    Ok(())
}

/// What `cons`, `set` and `get` take.
fn time_heap<C: CpuClock>(alloc: Global, clock: &C) -> io::Result<[u128; 3]> {
    let (Some(d), Some(e)) = (Register::new(0), Register::new(1)) else {
        return Ok([0; 3]);
    };
    let mut heap = Heap::new(alloc, 3)?;
    let start = clock.thread_cpu_time()?;
    let made = cons_all(&mut heap, d, e);
    let consed = clock.thread_cpu_time()?;
    let stored = set_all(&mut heap, d, e);
    let set = clock.thread_cpu_time()?;
    let read = get_all(&mut heap, d, e);
    let got = clock.thread_cpu_time()?;
    if made.is_err() || stored.is_err() || read.is_err() {
        return Ok([0; 3]);
    }
    Ok([
        each(consed.saturating_sub(start)),
        each(set.saturating_sub(consed)),
        each(got.saturating_sub(set)),
    ])
}

/// Opens segments and fills each with four vectors, sets them aside and gives them back. Answers the greatest number
/// among them and this one.
fn turn(territory: &mut Territory, greatest: u64) -> Result<u64, AllocError> {
    let mut last = greatest;
    for line in 0..4 * SEGMENTS {
        let at = territory.allocate(Kind::Vector, 126, 0, line + 1)?;
        last = last.max(at.segment());
    }
    territory.begin(Targets {
        cg: 0,
        min: 0,
        max: 1,
    });
    territory.finish(&[]);
    Ok(last)
}

/// What a segment takes in a turn after the first, and the greatest number of a segment.
fn time_segments<C: CpuClock>(alloc: Global, clock: &C) -> io::Result<(u128, u64)> {
    let mut territory = Territory::new(alloc, 0)?;
    let mut greatest = turn(&mut territory, 0)?;
    let start = clock.thread_cpu_time()?;
    for _ in 0..TURNS {
        greatest = turn(&mut territory, greatest)?;
    }
    let end = clock.thread_cpu_time()?;
    let all = end.saturating_sub(start).as_nanos();
    Ok((all / u128::from(TURNS * SEGMENTS), greatest))
}

/// What a pair, a vector of three, a copy of each, one of a vector of 100, `cons`, `set` and `get` take.
fn times<C: CpuClock>(alloc: Global, clock: &C) -> io::Result<[u128; 8]> {
    let pair = time_objects(alloc, clock, Kind::Pair, 2)?;
    let vector = time_objects(alloc, clock, Kind::Vector, 3)?;
    let pair_copy = time_copies(alloc, clock, Kind::Pair, 2)?;
    let vector_copy = time_copies(alloc, clock, Kind::Vector, 3)?;
    let long_copy = time_copies(alloc, clock, Kind::Vector, 100)?;
    let [cons, set, get] = time_heap(alloc, clock)?;
    Ok([
        pair,
        vector,
        pair_copy,
        vector_copy,
        long_copy,
        cons,
        set,
        get,
    ])
}

fn main(rt: HostRuntime) -> io::Result<()> {
    let tells_times = env::args(&rt)?.len() > 1;
    for time in times(rt.alloc(), &rt)? {
        if tells_times {
            println!(rt; "{time}")?;
        }
    }
    let (segment, greatest) = time_segments(rt.alloc(), &rt)?;
    if tells_times {
        println!(rt; "{segment}")?;
    }
    println!(rt; "{COUNT} of each")?;
    println!(rt; "segments 0 to {greatest}, again and again")
}
