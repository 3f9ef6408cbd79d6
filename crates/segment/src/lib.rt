//! One segment: words of objects of one space and one generation, with what a collection asks of them.
//!
//! A segment is the unit in which a heap takes memory, sets it aside for a collection and gets it back
//! (Dybvig, Eby and Bruggeman, "Don't Stop the BIBOP", 1994). For contracts it is the record `Segment`, and
//! `spot p k` is what starts at offset 2 k, if anything does: kind, length, generation, birth and words.
//!
//! Invariant: the objects lie apart and below the top; above it all words and births are 0, so a new object
//! needs its first word and its birth alone; and a segment that is not dirty has clean cards alone. A
//! segment that was given back has no objects whatever its memory holds: giving back is a few flags, and
//! only the memory of a large object goes at once. `vacant`, `open` and `open_copy` alone take memory.
#![tactic(auto)]

mod layout;
mod segment;
mod space;

pub use layout::{first_word, size, words_after};
pub use segment::{Role, Segment};
pub use space::Space;
