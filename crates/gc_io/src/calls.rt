// Numbered calls, of which some fail.
ghost use Rattle.std.specs.Prelude.{◌≡◌, ◌+◌, ◌↔◌, IsTrue, Contains};
ghost use Rattle.gc_io.specs.Outside.{count_up};

use crate::Failed;

// Whether the numbers hold the one after the count. None is greater than `u64::MAX`.
fn is_next(numbers: &[u64], count: u64) -> bool
    ensures { IsTrue result ↔ Contains numbers.now (count + 1) }
{
    match count.checked_add(1) {
        Some(next) => numbers.contains(&next),
        None => false,
    }
}

/// The calls of a source or a sink in memory: the numbers of those that fail, counted from 1, and
/// how many there were and how many failed, each counted up to the last number.
#[derive(Drop)]
pub struct Calls {
    fails: Vec<u64>,
    count: u64,
    faults: u64,
}

impl Calls {
    pub fn new(fails: Vec<u64>) -> Calls
        ensures { result ≡ record { fails = fails; count = 0; faults = 0 } }
    {
        Calls {
            fails,
            count: 0,
            faults: 0,
        }
    }

    // Counts a call, and answers whether it is one that fails.
    pub fn begin(&mut self) -> bool
        ensures fails { IsTrue result ↔ Contains self.old.fails.items (self.old.count + 1) }
        ensures count { self.new ≡ record self.old { count = count_up self.old.count } }
    {
        let fails = is_next(&self.fails, self.count);
        self.count = self.count.saturating_add(1);
        fails
    }

    // Counts a fault.
    pub fn fail(&mut self) -> Failed
        ensures { self.new ≡ record self.old { faults = count_up self.old.faults } }
    {
        self.faults = self.faults.saturating_add(1);
        Failed
    }
}
