//! What one sweeper tells another, and where a new place is wanted.

use gc_words::Address;

/// What one sweeper tells another. This project's own.
#[derive(Clone, Copy, Debug, PartialEq, Eq)]
pub enum Message {
    /// To the owner of `target`: keep it, and tell its new place to `back`.
    Forward { target: Address, back: Slot },
    /// To the owner of `key`: do not keep it for this, and tell its new place to `back` once it is kept.
    Watch { key: Address, back: Slot },
    /// To the holder of `back`: what it asked for is kept, and is at `new` after the collection.
    Moved { back: Slot, new: Address },
}

/// Where a new place is wanted. This project's own.
#[derive(Clone, Copy, Debug, PartialEq, Eq)]
pub enum Slot {
    /// The register of this number, 0 to 4095.
    Register(u32),
    /// The field of this index in the object that was at this address before the collection.
    // The index stands first, beside the variant's mark, so that a message takes 32 bytes and not 40.
    Field { index: u32, object: Address },
    /// A part of the registration of this line: 0 its guardian, 1 its object, 2 its representative.
    Entry { line: u32, part: u8 },
    /// The key of an ephemeron that is looked at as though `object` were kept, for ordered guardians.
    Wait { object: Address },
    /// Nowhere: a new place is asked for and nobody is to be told.
    Nothing,
}
