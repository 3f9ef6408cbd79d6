//! What sweepers do.

use crate::slot::Slot;

/// One event. The sweepers are numbers, the objects their names, and the places numbers.
#[derive(Clone, Copy, Debug)]
pub enum Event {
    /// The sweeper forwards the object to the place.
    Forward {
        sweeper: u64,
        object: u64,
        place: u64,
    },
    /// The sweeper sweeps an object of its list.
    Sweep {
        sweeper: u64,
        object: u64,
    },
    /// The sweeper answers a slot that it heard with the place of its target.
    Answer {
        sweeper: u64,
        slot: Slot,
        place: u64,
    },
    /// The sweeper fixes a slot that it was told.
    Fix {
        sweeper: u64,
        slot: Slot,
        place: u64,
    },
    /// The slot is delivered to the owner of its target, or back to its holder.
    Deliver {
        slot: Slot,
    },
    /// The sweeper learns the place of a slot's target from the target's forwarding word.
    Learn {
        sweeper: u64,
        slot: Slot,
        place: u64,
    },
}
