//! What a collection reports.

ghost use Rattle.std.specs.Prelude.{◌≡◌, ◌<◌, length, slice_index};

use std::marker::Model;

/// A number for each sweeper, in their order.
#[derive(Drop)]
pub struct Counts {
    counts: Vec<u64>,
}

impl Model for Counts {
    ghost use Rattle.std.specs.Prelude.{ℕ, List};

    ghost Value = { List ℕ };

    ghost view = { λ c. c.counts.items };
}

impl Counts {
    /// These numbers.
    pub(crate) fn new(counts: Vec<u64>) -> Counts
        ensures { result ≡ counts.items }
    {
        Counts { counts }
    }

    /// The number of a sweeper.
    pub fn number(&self, sweeper: u32) -> u64
        requires { sweeper < length self.now }
        ensures { result ≡ slice_index self.now sweeper }
    {
        self.counts[sweeper as usize]
    }
}

/// How much a collection took.
#[derive(Drop)]
pub struct Report {
    /// How many objects and queue cells each sweeper copied.
    pub forwarded: Counts,
    /// How many rounds of all sweepers there were.
    pub rounds: u64,
    /// How many messages they exchanged.
    pub messages: u64,
}
