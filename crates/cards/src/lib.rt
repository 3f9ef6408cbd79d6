//! Cards: for each 64 words of a segment, one byte that says how young an object those words may refer to.
//!
//! A collection of the young generations must find the old objects that refer to young ones, without
//! looking at each old object. So a write marks the card of the word that it writes with the generation
//! of what it writes, and a collection visits the cards whose byte is at most the oldest generation that
//! it collects. The scheme is Chez Scheme's (Dybvig, Eby and Bruggeman, "Don't Stop the BIBOP", 1994).
//!
//! For contracts a `CardTable` is a list of bytes, card by card; 255 is clean. It has no invariant beyond
//! that. `new` alone takes memory. `next_dirty` passes clean cards eight at a time, and so do `raise` and
//! `has_mark`, which go by it; the other calls read or write one byte.
#![tactic(auto)]

mod scan;
mod table;

pub use table::{CLEAN, CardTable, WORDS_PER_CARD};
