//! Weak pairs and ephemerons: who waits for which key, and what becomes of a field whose key is settled.
//!
//! While a collection goes on, an owner keeps a list of `Watches`: who is to be told once a key is kept.
//! For contracts it is a list of pairs of a key and a back, in the order of adding. At the end, `settle`
//! gives each weak field that is still pending its key's new address or the broken weak pointer. It is
//! written once, over the trait `WeakFields`, whose meaning is a list of slots and a finite map of kept keys.
//!
//! Invariant of `Watches`: the index has, of each key that somebody waits for, the first and the last place
//! in the table of entries, and each entry names the next one of its key; so `add` and `take` need a constant
//! expected time. `add` alone takes memory. (Weak pairs are settled after guardians: Dybvig, Bruggeman and
//! Eby, "Guardians in a Generation-Based Garbage Collector", 1993; ephemeron pairs as in The Chez Scheme
//! User's Guide; the list of watches is this project's own.)
#![tactic(auto)]

mod fields;
mod memory;
mod settling;
mod watches;

pub use fields::{WeakFields, WeakSlot, WeakState};
pub use memory::MemFields;
pub use settling::settle;
pub use watches::Watches;
