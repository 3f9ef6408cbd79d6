//! What a sweeper does, as events of the owned core.
//!
//! A collection begins with a `World`: what started at each address and what each register held. Each sweeper is seen
//! as a `Hand`: the starts of its territories, the pairs of an object and its place, those of them that are unswept,
//! its registers and its mail. What was forwarded last is swept first.
//! `Tied` says how its memory comes from the world, and `Holds` which part of the core's state it stands for: the stage
//! of a slot is read off where it lies. Objects are named by their old addresses.
//!
//! `laws` has the theorems, as contracts of functions that do nothing: each step of a sweeper (a copy made, a place put,
//! a message sent or taken) is a list of its own events; rounds of all sweepers and the exchange of their messages lead
//! from state to state, and come to an end; and where nothing is left to do, exactly what the rules reach was forwarded,
//! and each slot of it has its place. Nothing here runs in a collection, and no call takes memory.
#![tactic(auto)]

pub mod laws;
