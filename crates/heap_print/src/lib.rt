//! What is printed of a heap: the graph of a value, the census, and the generation of an object.
//!
//! Each text is a function of the state that the heap stands for, so it says nothing of places in memory. Inside,
//! an object is named by the word that refers to it, and `Numbers` is the list of these words by number.
//!
//! `Census` is seen as nine pairs, of a number of objects and a number of words: those of generations 0 to 7 and
//! of the static one. Its invariant: there are nine.
//!
//! All calls that append text take memory, `print_value` for its numbers too; `census` takes none.
#![tactic(auto)]

mod contents;
mod counting;
mod counts;
mod generation;
mod numbers;
mod objects;
mod print;
mod text;

pub use counting::census;
pub use counts::{Census, census_text};
pub use generation::generation_text;
pub use print::print_value;

#[cfg(test)]
mod tests;
