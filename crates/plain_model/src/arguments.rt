//! The arguments of a collection.

ghost use Rattle.std.specs.Prelude.{◌≡◌, ◌+◌, ◌%◌, ◌^◌, ◌==◌, ◌&&◌, nat_lt, nat_le};
ghost use Rattle.trace_types.specs.Collections as collections;

use std::marker::Model;

/// The static generation, which is never collected. (The Chez Scheme User's Guide, "Storage Management".)
const STATIC_GENERATION: u8 = 8;

/// The oldest generation that is collected, and the youngest and the oldest that a survivor goes to.
#[derive(Clone, Copy)]
pub struct Arguments {
    pub cg: u8,
    pub least: u8,
    pub greatest: u8,
}

impl Model for Arguments {
    ghost use Rattle.trace_types.specs.Collections as collections;

    ghost Value = { collections.Arguments };

    ghost view = { λ a. record { cg = a.cg; least = a.least; greatest = a.greatest } };

    ghost inverse = { λ a. record { cg = a.cg; least = a.least; greatest = a.greatest } };
}

// Whether the power of 4 divides the number.
fn is_multiple(n: u32, exponent: u8) -> bool
    ensures { result ≡ (n % 4 ^ exponent == 0) }
{
    match 4u32.checked_pow(u32::from(exponent)) {
        Some(power) => n % power == 0,
        None => n == 0,
    }
}

// The greatest exponent, at most the limit, of a power of 4 that divides the number.
fn greatest_power(n: u32, limit: u8) -> u8
    ensures { result ≡ collections.greatest_power n limit }
{
    let mut exponent = limit;
    while exponent > 0 {
        if is_multiple(n, exponent) {
            return exponent;
        }
        exponent -= 1;
    }
    0
}

/// The arguments of the n-th collection that is given none. Survivors go to the next generation, and those of the
/// oldest stay. This project's own.
pub fn plain_arguments(oldest: u8, n: u32) -> Arguments
    ensures { result ≡ collections.plain_arguments oldest n }
{
    let cg = greatest_power(n, oldest);
    let next = cg.saturating_add(1).min(oldest);
    Arguments {
        cg,
        least: next,
        greatest: next,
    }
}

impl Arguments {
    // Whether the arguments are for a generation below the oldest, and no survivor goes further than the next one.
    fn are_for_younger(self, oldest: u8) -> bool
        ensures { result ≡ (nat_lt self.cg oldest && nat_le self.cg self.least
            && nat_le self.least self.greatest && nat_le self.greatest (self.cg + 1)) }
    {
        self.cg < oldest
            && self.cg <= self.least
            && self.least <= self.greatest
            && self.greatest <= self.cg.saturating_add(1)
    }

    /// Whether the version and the oldest generation allow the arguments. This project's own.
    pub fn are_allowed(self, version: u8, oldest: u8) -> bool
        ensures { result ≡ collections.are_allowed version oldest self }
    {
        if self.are_for_younger(oldest) {
            return true;
        }
        if self.cg != oldest {
            return false;
        }
        if self.least == oldest && self.greatest == oldest {
            return true;
        }
        version == 2 && self.least == STATIC_GENERATION && self.greatest == STATIC_GENERATION
    }

    /// The generation after a collection of what was in this one.
    pub fn target(self, generation: u8) -> u8
        ensures { result ≡ collections.target self generation }
    {
        if generation <= self.cg {
            generation
                .saturating_add(1)
                .max(self.least)
                .min(self.greatest)
        } else {
            generation
        }
    }
}
