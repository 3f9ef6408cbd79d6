//! What a guardian was told.

use crate::address::Address;
use crate::value::Value;

/// A registration of an object with a guardian: once nothing else reaches the object, the guardian's
/// queue gets the representative. (Dybvig, Bruggeman and Eby, "Guardians in a Generation-Based Garbage
/// Collector", 1993; representatives are as in The Chez Scheme User's Guide.)
#[derive(Clone, Copy, Debug, PartialEq, Eq)]
pub struct Registration {
    /// The number of the line that made it, 1 to 1,073,741,823. No two registrations have one line.
    pub line: u32,
    /// The guardian that was told.
    pub guardian: Address,
    /// What is watched. An immediate never dies.
    pub object: Value,
    /// What the guardian's queue gets once the object is found dead.
    pub representative: Value,
}
