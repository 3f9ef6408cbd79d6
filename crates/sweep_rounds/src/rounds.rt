//! A round of all sweepers.

ghost use Rattle.std.specs.Prelude.{◌≡◌, ℕ, ◌<◌, false, OnOk, length};
ghost use Rattle.sweeper.specs.Sweepers.{SweeperView};
ghost use Rattle.sweeper.specs.Ready.{Ready};
ghost use Rattle.sweep_rounds.specs.Turns.{Rounded, Rounds, sweeper_at};

use directory::Directory;
use gc_io::Gate;
use std::alloc::AllocError;
use std::thread;
use std::thread::Threads;
use sweeper::Sweeper;

/// One sweeper's round. Whether it ran out of memory is kept by the sweeper.
fn round<G: Gate>(sweeper: &mut Sweeper, directory: &Directory, gate: &G)
    requires same { sweeper.old.places.directory ≡ directory.now }
    requires ready { Ready sweeper.old }
    ensures { sweeper.new.ran_out ≡ false → Rounded sweeper.old sweeper.new }
{
    let _ = sweeper.round(directory, gate);
}

/// A round of each sweeper, in threads.
fn round_each<R: Threads + Sync, G: Gate>(
    rt: &R,
    sweepers: &mut [Sweeper],
    directory: &Directory,
    gate: &G,
)
    requires same { (k : ℕ) (d : SweeperView) → k < length sweepers.old
        → (sweeper_at sweepers.old d k).places.directory ≡ directory.now }
    requires ready { (k : ℕ) (d : SweeperView) → k < length sweepers.old
        → Ready (sweeper_at sweepers.old d k) }
    ensures { (k : ℕ) (d : SweeperView) → k < length sweepers.old
        → (sweeper_at sweepers.new d k).ran_out ≡ false
        → Rounded (sweeper_at sweepers.old d k) (sweeper_at sweepers.new d k) }
{
    let count = sweepers.len().max(1);
    thread::for_each_mut(
        rt,
        sweepers,
        count,
        &|_, sweeper: &mut Sweeper|
            requires same { sweeper.now.places.directory ≡ directory.now }
            requires ready { Ready sweeper.now }
            ensures { sweeper.exit.now.ran_out ≡ false → Rounded sweeper.entry.now sweeper.exit.now }
        {
            round(sweeper, directory, gate);
        },
    );
}

/// Whether a sweeper's round ran out of memory.
fn some_ran_out(sweepers: &[Sweeper]) -> bool
    ensures { result ≡ false → (k : ℕ) (d : SweeperView) → k < length sweepers.now
        → (sweeper_at sweepers.now d k).ran_out ≡ false }
{
    sweepers.iter().any(|sweeper| sweeper.ran_out())
}

/// A round of all sweepers. AllocError where one of them ran out of memory.
pub fn round_all<R: Threads + Sync, G: Gate>(
    rt: &R,
    sweepers: &mut [Sweeper],
    directory: &Directory,
    gate: &G,
) -> Result<(), AllocError>
    requires same { (k : ℕ) (d : SweeperView) → k < length sweepers.old
        → (sweeper_at sweepers.old d k).places.directory ≡ directory.now }
    requires ready { (k : ℕ) (d : SweeperView) → k < length sweepers.old
        → Ready (sweeper_at sweepers.old d k) }
    ensures rounds { OnOk result ((d : SweeperView)
        → Rounds (length sweepers.old) (sweeper_at sweepers.old d) (sweeper_at sweepers.new d)) }
    ensures enough { OnOk result ((k : ℕ) (d : SweeperView) → k < length sweepers.old
        → (sweeper_at sweepers.new d k).ran_out ≡ false) }
{
    round_each(rt, sweepers, directory, gate);
    if some_ran_out(sweepers) {
        return Err(AllocError);
    }
    Ok(())
}
