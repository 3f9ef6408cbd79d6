//! Rounds of all sweepers, until nothing is left to do.
//!
//! A round of all sweepers runs in threads: each sweeper handles what it was told and sweeps what it
//! forwarded, on its own territories alone. Between two rounds the messages are exchanged on the calling
//! thread. When no sweeper has a message left to send, exactly the objects that the roots lead to were
//! forwarded, each once and by its owner, and every slot of what is kept has the place of its object.
//!
//! For contracts the sweepers stand together for one state of the core; `run_to_idle` leads to a state in
//! which the core is idle, in whatever order the threads ran. Every turn but the last delivers a message,
//! which makes the core's rank fall, so no budget of turns ends a run. Rounds and exchanges take memory.
//! That sweepers run in rounds, with an exchange between two, is this project's own.
#![tactic(auto)]

mod laws;
mod rounds;
mod run;
#[cfg(test)]
mod tests;

pub use laws::new_sweepers_stand_together;
pub use run::{Rounds, run_to_idle};
