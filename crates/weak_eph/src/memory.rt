//! Weak fields in memory.

ghost use Rattle.std.specs.Prelude.{◌<◌};
ghost use Rattle.weak_eph.specs.declared.fields.WeakSlot.{WeakSlot};
ghost use Rattle.weak_eph.specs.declared.fields.WeakState.TheVariants.{Fixed, Broken};

use crate::fields::{WeakFields, WeakSlot, WeakState};
use gc_words::Address;

/// Weak fields that are their meaning: the slots and the map of kept keys themselves. For tests.
#[derive(Drop)]
pub struct MemFields {
    /// The slots.
    pub slots: Vec<WeakSlot>,
    /// The kept keys, each with its new address. The first pair of a key counts.
    pub kept: Vec<(Address, Address)>,
}

impl WeakFields for MemFields {
    ghost slots = { λ m. m.slots.items };

    ghost kept = { λ m. m.kept.items };

    fn pending(&self) -> usize {
        self.slots.len()
    }

    fn key(&self, n: usize) -> Address {
        self.slots[n].key
    }

    fn kept_at(&self, key: Address) -> Option<Address> {
        for pair in &self.kept {
            if pair.0 == key {
                return Some(pair.1);
            }
        }
        None
    }

    fn fix(&mut self, n: usize, new: Address) {
        self.slots[n].state = WeakState::Fixed(new);
    }

    fn break_slot(&mut self, n: usize) {
        self.slots[n].state = WeakState::Broken;
    }
}
