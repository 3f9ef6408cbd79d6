//! Where a sweeper's own objects are after the collection.
//!
//! A sweeper forwards each kept object of its own once. `Places` has a plain table with the word of the object's new place
//! for each word of the sweeper's range in the directory, so that the place of an object is found without a search, and
//! without a look into the directory where its word is known already. Beside it are the objects that are not swept yet.
//! From-space is never written, so an object's old words can be read as long as the collection goes on.
//!
//! For contracts it is the number of the sweeper, the directory, the list of pairs of an object and its new place in the
//! order of forwarding, and the pairs that are not swept yet. Invariant: the table has the place of each pair of the list
//! at the word of its object, and no other place. `new`, `note` and `follow` take memory. A table of places beside the
//! from-space is this project's own; Chez Scheme leaves forwarding marks in the old objects.
#![tactic(auto)]

mod places;
#[cfg(test)]
mod tests;

pub use places::Places;
