//! Registers.

ghost use Rattle.std.specs.Prelude.{◌≡◌, ◌≤◌, ◌<◌, MatchOption};

use std::marker::Model;

/// One of the 4,096 registers of a trace, by its number from 0 to 4095. This project's own.
#[derive(Clone, Copy, Debug, PartialEq, Eq)]
pub struct Register {
    number: u32,
}

impl Model for Register {
    ghost use Rattle.std.specs.Prelude.{ℕ, ◌<◌};

    ghost Value = { ℕ };

    ghost view = { λ r. r.number };

    ghost invariant = { λ r. r.number < 4096 };

    ghost inverse = { λ n. record { number = n } };
}

impl Register {
    /// The register of this number, or `None` where the number is above 4095.
    pub fn new(n: u32) -> Option<Register>
        ensures { MatchOption result (4096 ≤ n) (λ r. (r ≡ n) × (n < 4096)) }
    {
        if n < 4096 {
            Some(Register { number: n })
        } else {
            None
        }
    }

    /// The register's number, from 0 to 4095.
    pub fn number(&self) -> u32
        ensures is_it { result ≡ self.now }
        ensures in_range { result < 4096 }
    {
        self.number
    }
}
