//! The territories and the registers that one sweeper serves, by address and by number.
//!
//! Sweeper k of n serves the threads k, k + n, k + 2 n and so on below 64, and nobody else touches their segments. A
//! `Share` holds these territories by value and finds the one of an address in a table of the threads, so that a
//! sweeper reads, copies and writes objects by address alone, and divides nothing at an access. For contracts it is the
//! territories in order with k and n; `start_in` is what starts at an address of its own.
//!
//! `len` and `territory` show the territories in order, and `raise_cards` raises the marks on all their cards. `follow`
//! copies pairs of one from-segment that lead to each other, in one go.
//!
//! Invariant: the territory at index i is that of thread k + i n, and there is one for each such thread; the table has
//! this index for each of them, and 255 for the threads of other sweepers. `new`, `copy`, `copy_pair` and `follow` take
//! memory. That a collection divides the threads by remainder is this project's own.
//!
//! `Registers` are registers of the sweeper, those that hold objects as a collection deals them out, each with what it
//! holds: their numbers leave k when divided by n, and ascend, so that one is found by halving. `register_in` is what a
//! register holds that is among them. No call takes memory.
#![tactic(auto)]

mod registers;
mod share;
#[cfg(test)]
mod tests;

pub use registers::Registers;
pub use share::Share;
