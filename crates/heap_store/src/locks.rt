//! Locks: how often each object is locked.

ghost use Rattle.std.specs.Prelude.{◌≡◌, []};

use gc_words::Address;
use std::alloc::Global;
use std::collections::BTreeMap;
use std::marker::Model;

/// The places of locked objects, each with the number of times that it is locked, 1 or more.
#[derive(Drop)]
pub struct Locks {
    counts: BTreeMap<Address, u64>,
}

impl Model for Locks {
    ghost use Rattle.std.specs.Prelude.{ℕ, List};

    ghost Value = { List (ℕ × ℕ) };

    ghost view = { λ n. n.counts.entries };
}

impl Locks {
    /// No locks. Takes no memory.
    pub(crate) fn new(alloc: Global) -> Locks
        ensures { result ≡ [] }
    {
        Locks {
            counts: BTreeMap::new(alloc),
        }
    }
}
