//! What a field, a register or a queue holds.

use crate::address::Address;

/// A value. All but `Object` are immediates.
#[derive(Clone, Copy, Debug, PartialEq, Eq)]
pub enum Value {
    /// A whole number of 61 bits, from -2^60 to 2^60 - 1.
    Fixnum(i64),
    /// The empty list.
    Nil,
    /// True, printed `t`.
    True,
    /// False, printed `f`.
    False,
    /// The broken weak pointer: it stands in a weak field whose object went.
    Bwp,
    /// The object at this place.
    Object(Address),
}
