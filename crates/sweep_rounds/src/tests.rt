//! What no clause says: that the sweepers of a round run side by side, and that a run comes to its end where
//! there is memory.

ghost use Rattle.std.specs.Prelude.{◌≡◌, ℕ, ◌<◌, ◌≤◌, IfOk, length, slice_index_or};
ghost use Rattle.std.specs.FinMap.{empty};
ghost use Rattle.territory.specs.Territories.{no_territory};
ghost use Rattle.directory.specs.Directories.{AreOfThreads, HaveBegun, sweeper_count};
ghost use Rattle.sweep_share.specs.Shares.{AreShareOf};
ghost use Rattle.sweeper.specs.Sweepers.{SweeperView};
ghost use Rattle.sweep_rounds.specs.Turns.{Whole, sweeper_at};

use crate::{Rounds, run_to_idle};
use directory::Directory;
use gc_io::{Gate, OpenGate};
use std::alloc::{AllocError, Global};
use std::marker::Brand;
use std::sync::atomic::{AtomicBool, Ordering};
use std::sync::ledger::{Blank, Ledger};
use std::test::Fail;
use std::thread::Threads;
use steps::Steps;
use sweeper::Sweeper;
use territory::{Targets, Territory};

const TARGETS: Targets = Targets {
    cg: 0,
    min: 0,
    max: 0,
};

/// The territories of all threads, with nothing in them.
fn all_territories(alloc: Global) -> Result<Vec<Territory>, AllocError>
    ensures threads { IfOk result (λ v. AreOfThreads v.items) }
    ensures begun { IfOk result (λ v. HaveBegun v.items TARGETS) }
{
    let mut territories = Vec::new(alloc);
    for thread in 0..64u8 {
        territories.push(Territory::new(alloc, thread)?)?;
    }
    Ok(territories)
}

/// Those of one sweeper.
fn own_territories(alloc: Global, number: u32, sweepers: u32) -> Result<Vec<Territory>, AllocError>
    requires number { number < sweepers }
    requires sweepers { sweepers ≤ 64 }
    ensures share { IfOk result (λ v. AreShareOf number sweepers v.items) }
    ensures nothing { IfOk result (λ v. (i : ℕ) → i < length v.items
        → (slice_index_or v.items i (no_territory 0)).starts ≡ empty) }
{
    let mut territories = Vec::new(alloc);
    let mut thread = number;
    while thread < 64 {
        territories.push(Territory::new(alloc, thread as u8)?)?;
        thread += sweepers;
    }
    Ok(territories)
}

/// The sweepers of a collection of nothing.
fn all_sweepers(alloc: Global, directory: &Directory) -> Result<Vec<Sweeper>, AllocError>
    ensures count { IfOk result (λ v. length v.items ≡ sweeper_count directory.now) }
    ensures most { IfOk result (λ v. length v.items ≤ 64) }
    ensures whole { IfOk result (λ v. (d : SweeperView)
        → Whole (length v.items) directory.now (sweeper_at v.items d)) }
{
    let count = directory.sweepers();
    let mut sweepers = Vec::new(alloc);
    for number in 0..count {
        let territories = own_territories(alloc, number, count)?;
        let registers = Vec::new(alloc);
        sweepers.push(Sweeper::new(alloc, number, territories, registers, directory)?)?;
    }
    Ok(sweepers)
}

/// A run of so many sweepers.
fn run<R: Threads + Sync, G: Gate, M: Ledger>(
    rt: &R,
    alloc: Global,
    sweepers: u32,
    gate: &G,
    blank: Blank,
) -> Result<Rounds, AllocError>
    requires sweepers { (1 ≤ sweepers) × (sweepers ≤ 64) }
    requires name { blank.name ≡ M.name }
    requires parts { blank.parts ≡ M.parts }
    requires some { 0 < blank.parts }
{
    let territories = all_territories(alloc)?;
    let directory = Directory::new(alloc, &territories, TARGETS, sweepers)?;
    let mut all = all_sweepers(alloc, &directory)?;
    let mut mail = Steps::<M>::new(blank);
    run_to_idle(rt, &mut all, &directory, gate, &mut mail)
}

/// In round 0 each of two sweepers says that it is here, and waits a while for the other.
#[derive(Drop)]
struct Meeting {
    here: [AtomicBool; 2],
    met: [AtomicBool; 2],
}

impl Gate for Meeting {
    fn pass(&self, sweeper: u32, round: u64) {
        if round > 0 || sweeper > 1 {
            return;
        }
        let number = sweeper as usize;
        self.here[number].store(true, Ordering::SeqCst);
        for _ in 0..100_000_000u32 {
            if self.here[1 - number].load(Ordering::SeqCst) {
                self.met[number].store(true, Ordering::SeqCst);
                return;
            }
        }
    }
}

#[test]
fn sweepers_of_a_round_meet(rt: HostRuntime) -> Result<(), Fail> {
    let meeting = Meeting {
        here: [AtomicBool::new(false), AtomicBool::new(false)],
        met: [AtomicBool::new(false), AtomicBool::new(false)],
    };
    let done = run::<_, _, Brand>(&rt, rt.alloc(), 2, &meeting, Blank::new(1))?;
    assert_eq!(rt; (done.rounds, done.messages), (1, 0));
    assert!(rt; meeting.met[0].load(Ordering::SeqCst));
    assert!(rt; meeting.met[1].load(Ordering::SeqCst));
    Ok(())
}

#[test]
fn one_round_where_nothing_is_asked_for(rt: HostRuntime) -> Result<(), Fail> {
    for sweepers in [1, 2, 3, 7, 64] {
        let done = run::<_, _, Brand>(&rt, rt.alloc(), sweepers, &OpenGate, Blank::new(1))?;
        assert_eq!(rt; (done.rounds, done.messages), (1, 0), "{sweepers}");
    }
    Ok(())
}
