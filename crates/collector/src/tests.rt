//! What no clause says: that a heap is collected where there is memory, and how the work is shared then.

ghost use Rattle.std.specs.Prelude.{◌≡◌, ◌<◌, ◌≤◌, IfOk, length};

use crate::{Report, collect};
use gc_io::OpenGate;
use heap_store::{Heap, HeapError};
use std::alloc::Global;
use std::marker::Brand;
use std::sync::ledger::{Blank, Ledger};
use std::test::Fail;
use std::thread::Threads;
use steps::Steps;
use trace_types::{CollectArgs, Fault, Operand, Register};

/// The youngest generation alone, into the next one.
const YOUNG: CollectArgs = CollectArgs::Explicit {
    cg: 0,
    min: 1,
    max: 1,
};

/// Collects, with counters of these ledgers.
fn collect_with<R: Threads + Sync, M: Ledger, L: Ledger>(
    rt: &R,
    heap: &mut Heap,
    args: CollectArgs,
    sweepers: u32,
    mail: Blank,
    steps: Blank,
) -> Result<Report, HeapError>
    requires sweepers { (1 ≤ sweepers) × (sweepers ≤ 64) }
    requires mail_name { mail.name ≡ M.name }
    requires mail_parts { mail.parts ≡ M.parts }
    requires mail_some { 0 < mail.parts }
    requires steps_name { steps.name ≡ L.name }
    requires steps_parts { steps.parts ≡ L.parts }
    requires steps_some { 0 < steps.parts }
    ensures { IfOk result (λ r. length r.forwarded ≡ sweepers) }
{
    let mut mail = Steps::<M>::new(mail);
    let mut steps = Steps::<L>::new(steps);
    collect(rt, heap, args, sweepers, &OpenGate, &mut mail, &mut steps)
}

/// What a collection by so many sweepers answers: how many objects each of them copied.
fn copied<R: Threads + Sync>(
    rt: &R,
    alloc: Global,
    heap: &mut Heap,
    args: CollectArgs,
    sweepers: u32,
) -> Result<Result<Vec<u64>, HeapError>, Fail>
    requires { (1 ≤ sweepers) × (sweepers ≤ 64) }
{
    let mail = Blank::new(1);
    let steps = Blank::new(1);
    let report = match collect_with::<_, Brand, Brand>(rt, heap, args, sweepers, mail, steps) {
        Ok(report) => report,
        Err(error) => return Ok(Err(error)),
    };
    let mut counts = Vec::new(alloc);
    for sweeper in 0..sweepers {
        counts.push(report.forwarded.number(sweeper))?;
    }
    Ok(Ok(counts))
}

/// Makes a list of so many pairs, of the first so many threads in turn. Register 0 holds the newest pair, register 1
/// the oldest.
fn make_list(heap: &mut Heap, count: u32, threads: u8) -> Result<(), HeapError>
    requires empty { heap.old.last ≡ 0 }
    requires few { count ≤ 1000000 }
    requires threads { (1 ≤ threads) × (threads ≤ 64) }
{
    let (Some(newest), Some(oldest)) = (Register::new(0), Register::new(1)) else {
        return Ok(());
    };
    for line in 1..count + 1 {
        heap.select_thread(((line - 1) % u32::from(threads)) as u8)?;
        heap.cons(line, newest, Operand::Fixnum(1), Operand::Reg(newest))?;
        if line == 1 {
            heap.mov(oldest, Operand::Reg(newest))?;
        }
    }
    Ok(())
}

/// Lets the oldest pair of the list refer to the newest.
fn close_ring(heap: &mut Heap) -> Result<(), HeapError> {
    let (Some(newest), Some(oldest)) = (Register::new(0), Register::new(1)) else {
        return Ok(());
    };
    heap.set(oldest, 1, Operand::Reg(newest))
}

/// How many of so many pairs, of eight threads in turn, each of the sweepers owns.
fn shares(alloc: Global, pairs: u32, sweepers: u32) -> Result<Vec<u64>, Fail>
    requires { 1 ≤ sweepers }
{
    let mut counts = Vec::new(alloc);
    for sweeper in 0..sweepers {
        counts.push((0..pairs).filter(|i| i % 8 % sweepers == sweeper).count() as u64)?;
    }
    Ok(counts)
}

#[test]
fn half_a_million_pairs_are_copied(rt: HostRuntime) -> Result<(), Fail> {
    let mut heap = Heap::new(rt.alloc(), 3)?;
    assert_eq!(rt; make_list(&mut heap, 500_000, 1), Ok(()));
    let counts = copied(&rt, rt.alloc(), &mut heap, YOUNG, 1)?;
    assert_eq!(rt; counts, Ok(vec![in rt.alloc(); 500_000; 1]?));
    Ok(())
}

#[test]
fn each_sweeper_copies_its_share_of_a_ring(rt: HostRuntime) -> Result<(), Fail> {
    for sweepers in [1, 2, 3, 7, 64] {
        let mut heap = Heap::new(rt.alloc(), 3)?;
        assert_eq!(rt; make_list(&mut heap, 200, 8), Ok(()));
        assert_eq!(rt; close_ring(&mut heap), Ok(()));
        for args in [YOUNG, CollectArgs::Plain] {
            let counts = copied(&rt, rt.alloc(), &mut heap, args, sweepers)?;
            if args == YOUNG {
                assert_eq!(rt;
                    counts,
                    Ok(shares(rt.alloc(), 200, sweepers)?),
                    "{sweepers}"
                );
            }
        }
    }
    Ok(())
}

#[test]
fn refuses_arguments_that_are_not_allowed(rt: HostRuntime) -> Result<(), Fail> {
    let mut heap = Heap::new(rt.alloc(), 3)?;
    for (cg, min, max) in [
        (0, 2, 2),
        (0, 0, 2),
        (1, 0, 1),
        (2, 3, 2),
        (3, 2, 3),
        (3, 3, 4),
        (3, 8, 8),
        (4, 4, 4),
        (7, 8, 8),
    ] {
        let args = CollectArgs::Explicit { cg, min, max };
        let answer = copied(&rt, rt.alloc(), &mut heap, args, 2)?;
        assert_eq!(rt;
            answer,
            Err(HeapError::Fault(Fault::BadGeneration)),
            "{cg} {min} {max}"
        );
    }
    heap.fail();
    let answer = copied(&rt, rt.alloc(), &mut heap, YOUNG, 2)?;
    assert_eq!(rt; answer, Err(HeapError::Failed));
    Ok(())
}

#[test]
fn the_largest_vector_is_copied(rt: HostRuntime) -> Result<(), Fail> {
    let mut heap = Heap::new(rt.alloc(), 3)?;
    let register = Register::new(0).ok_or("no register")?;
    assert_eq!(rt; heap.version_two(1), Ok(()));
    assert_eq!(rt; heap.vector(2, register, 4_000_000, Operand::Nil), Ok(()));
    for args in [YOUNG, CollectArgs::Plain] {
        let counts = copied(&rt, rt.alloc(), &mut heap, args, 1)?;
        let moved = if args == YOUNG { 1 } else { 0 };
        assert_eq!(rt; counts, Ok(vec![in rt.alloc(); moved; 1]?));
    }
    Ok(())
}

#[test]
fn the_bound_on_registers_stays(rt: HostRuntime) -> Result<(), Fail> {
    let mut heap = Heap::new(rt.alloc(), 3)?;
    assert_eq!(rt; make_list(&mut heap, 3, 1), Ok(()));
    let counts = copied(&rt, rt.alloc(), &mut heap, YOUNG, 1)?;
    assert_eq!(rt; counts, Ok(vec![in rt.alloc(); 3; 1]?));
    assert_eq!(rt; heap.used_registers(), 2);
    let args = CollectArgs::Explicit {
        cg: 7,
        min: 8,
        max: 8,
    };
    let answer = copied(&rt, rt.alloc(), &mut heap, args, 1)?;
    assert_eq!(rt; answer, Err(HeapError::Fault(Fault::BadGeneration)));
    assert_eq!(rt; heap.used_registers(), 2);
    Ok(())
}
