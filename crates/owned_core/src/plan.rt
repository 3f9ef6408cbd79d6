//! What the machine is given.

use crate::slot::Slot;

/// A slot that is due where the member is older or swept, or there is none, and each of the watched
/// slots has an older target or is fixed.
#[derive(Drop)]
pub struct Due {
    /// The slot.
    pub slot: Slot,
    /// The object whose sweep makes it.
    pub member: Option<u64>,
    /// The Watch slots of its watched premises.
    pub watched: Vec<Slot>,
}

/// What a phase is given, where an object's name is the place that it had, and its sweeper is the
/// remainder of its name by the number of sweepers.
#[derive(Drop)]
pub struct Plan {
    /// The objects that are not collected.
    pub older: Vec<u64>,
    /// The number of sweepers, at least 1.
    pub sweepers: u64,
    /// The objects that are locked or immobile.
    pub staying: Vec<u64>,
    /// The least place that was no object's.
    pub first_new: u64,
    /// Each slot that may be due.
    pub dues: Vec<Due>,
}
