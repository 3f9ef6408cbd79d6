//! What a command names beside its registers.

use crate::register::Register;

/// A value as a line of a trace names it: what a register holds, a fixnum, or a constant.
/// A fixnum is from -2^60 to 2^60 - 1. No line can name a broken weak pointer.
#[derive(Clone, Copy, Debug, PartialEq, Eq)]
pub enum Operand {
    Reg(Register),
    Fixnum(i64),
    Nil,
    True,
    False,
}

/// The kind of a new entry of an identity table: a pair, a weak pair or an ephemeron.
/// A table's entries are strong, weak or ephemeral by their own kind. This project's own.
#[derive(Clone, Copy, Debug, PartialEq, Eq)]
pub enum Mode {
    Pair,
    Weak,
    Eph,
}

/// The arguments of a collection: the oldest generation that is collected, and the youngest and the
/// oldest that a survivor goes to. Which are allowed, and what no arguments mean, is this project's own.
///
/// `Plain` asks for the arguments that belong to the number of plain collections so far. In `Explicit`
/// each is a generation from 0 to 7, and `min` and `max` may also be 8, the static generation.
#[derive(Clone, Copy, Debug, PartialEq, Eq)]
pub enum CollectArgs {
    Plain,
    Explicit { cg: u8, min: u8, max: u8 },
}
