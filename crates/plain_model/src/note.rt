//! Notes.

/// A note of a trace: empty, set to the place of the object of this birth, or gone. This project's own.
#[derive(Clone, Copy, Debug, PartialEq, Eq)]
pub enum Note {
    Empty,
    SetTo(u32),
    Gone,
}
