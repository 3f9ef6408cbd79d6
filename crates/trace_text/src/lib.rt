//! The lines of a trace, one by one, and what a line says.
//!
//! A [`LineReader`] takes bytes from a source that gives them in any pieces, and gives lines. Contracts see it as the
//! bytes that it has taken and not yet given, the line that it gave last, and whether its source has ended. Its invariant:
//! all of these bytes lie in one buffer of 4,096 bytes, and a known front of what is held has no newline, so that no byte
//! is searched twice. A line is ended by the byte 10; bytes after the last one are a line too. A line of more than 1,024
//! bytes is too long.
//!
//! [`read_command`] gives the command of a line, nothing for an empty line and a comment, or the first fault, exactly as
//! the definition `read` of `trace_types` says. From the bottom: `numeral` reads numerals, `operands` has a function for
//! each class of operands, `fields` splits, `shapes` reads what several commands take alike, `rows` has a function for
//! each command, and `command` finds it by its word.
//!
//! Only [`LineReader::new`] takes memory. All of this is this project's own.
#![tactic(auto)]

mod bytes;
mod command;
mod fields;
mod numeral;
mod operands;
mod reader;
mod rows;
mod shapes;

pub use command::read_command;
pub use reader::{LineReader, Next};
