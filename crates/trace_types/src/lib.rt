//! The types of a trace, and in specs/ every definition that the other crates are proved against.
//!
//! A trace is a list of lines, each of which is one `Command` on registers, fixnums and constants,
//! or is refused with one `Fault`. A collection's arguments, the limits of a run and the kinds of
//! object have their types here too, and the fixed words of kinds and faults.
//!
//! In contracts a `Register` is its number, and every other type is the plain data that it is.
//! The one invariant is that a register's number is below 4,096. No call takes memory.
//!
//! specs/ goes from values and graphs to a whole run; docs/DEFINITIONS.md walks through it.
#![tactic(auto)]

mod command;
mod fault;
mod kind;
pub mod laws;
mod limits;
mod operand;
mod register;

pub use command::Command;
pub use fault::Fault;
pub use kind::Kind;
pub use limits::Limits;
pub use operand::{CollectArgs, Mode, Operand};
pub use register::Register;
