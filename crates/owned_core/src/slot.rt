//! Slots: what a sweeper asks the owner of an object for, and how far each request is.

/// What a slot is for.
#[derive(Clone, Copy, Debug)]
pub enum Want {
    /// The object is to be forwarded, and its place told.
    Keep,
    /// Its place is to be told if something else keeps it.
    Watch,
}

/// How far a slot is.
#[derive(Clone, Copy, Debug)]
pub enum Stage {
    /// The holder has it, and the owner of the target has not heard of it.
    Asked,
    /// The owner has it.
    Heard,
    /// The owner has found the new place, and the holder does not know it yet.
    Answered(u64),
    /// The holder knows the place.
    Told(u64),
    /// The place is written.
    Fixed(u64),
}

/// A word of the heap, a register, a part of a registration or a rule that refers to an object.
#[derive(Clone, Copy, Debug)]
pub struct Slot {
    /// The number of that word.
    pub name: u64,
    /// The sweeper that has it.
    pub holder: u64,
    /// The object.
    pub target: u64,
    /// What it is for.
    pub want: Want,
    /// Whether there is a word for the place; a lock has none, nor has a rule whose conclusion
    /// stands in no word. Such a slot is never answered.
    pub has_place: bool,
}

/// A slot and how far it is.
#[derive(Clone, Copy, Debug)]
pub struct Standing {
    /// The slot.
    pub slot: Slot,
    /// Its stage.
    pub stage: Stage,
}
