//! The limits of a run.

/// What a run is given beside its trace: the number of sweepers, from 1 to 64; the oldest generation
/// that is collected, from 1 to 7; and the greatest number of lines, from 1 to 1,073,741,823.
/// What a trace prints does not depend on the sweepers. This project's own.
#[derive(Clone, Copy, Debug, PartialEq, Eq)]
pub struct Limits {
    pub sweepers: u32,
    pub generations: u8,
    pub max_lines: u32,
}
