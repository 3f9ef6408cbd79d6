//! The definitions of a trace as a program: plain lists, and each public call equals its definition.
//!
//! A definition can be wrong, and everything be proved against it. So the definitions also run: this crate is
//! the plain, slow program whose contracts are the definitions of `trace_types`, word for word. What it prints
//! is compared with worked cases and with other programs. No program for users stands on it.
//!
//! `run` goes over the bytes of a trace, `State::step` performs one command, and `State::collect` is a collection.
//!
//! In contracts a `State`, an `Object`, a `Registration` and a `Rule` are those of the definitions; a `Value`
//! and a `Note` mean one by `meaning` and `note_meaning`. Invariant of `State`: 4,096 registers, 256 notes, and
//! the objects stand in ascending order of births. Each call that gives a `Result` takes memory, and no other
//! does; where one is refused, a state that it was to change may be any state.
#![tactic(auto)]

mod arguments;
mod births;
mod census;
mod collection;
mod entries;
mod fields;
mod finder;
mod graph;
mod guarding;
mod kinds;
mod lines;
mod locks;
mod lookups;
mod making;
mod note;
mod object;
mod print;
mod registration;
mod rounds;
mod rule;
mod runner;
mod sets;
mod state;
mod state_rules;
mod step;
mod stop;
mod tables;
mod text;
mod value;

pub use arguments::{Arguments, plain_arguments};
pub use births::Births;
pub use census::push_census;
pub use finder::{path, push_size};
pub use kinds::{
    has_bytes, is_ephemeron, is_guardian, is_immobile, is_ordered_kind, is_unordered_kind,
};
pub use lines::{push_check, push_generation_of, push_path};
pub use note::Note;
pub use object::Object;
pub use print::push_print;
pub use registration::Registration;
pub use rounds::least;
pub use rule::{Rule, push_facts, push_object, push_objects, push_rule_to, push_rules_to};
pub use runner::{Ran, run};
pub use sets::Sets;
pub use state::State;
pub use stop::Stop;
pub use value::Value;
