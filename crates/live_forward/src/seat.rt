//! A seat, by which one thread steps on the words.

use crate::view::View;
use atomic_table::Seat;
use std::marker::Model;

/// A sweeper's right to step on the words of one table, and what it knows of them. It may cross to another
/// thread, and its methods are those of `ForwardTable`.
#[derive(Drop)]
pub struct SweepSeat {
    pub(crate) seat: Seat<u64, View>,
}

impl Model for SweepSeat {
    ghost use Rattle.std.specs.Prelude.{◌≡◌, ◌+◌, ◌<◌, [], length, sum};
    ghost use Rattle.live_forward.specs.Seats.{Seated};

    ghost Value = { Seated };

    ghost view = { λ s. record { table = s.seat.table_id; view = s.seat.me.0 } };

    ghost invariant = { λ s. (s.seat.me.1 ≡ [])
        × (0 < length s.seat.me.0.ranges)
        × (1 + sum s.seat.me.0.ranges ≡ s.seat.table_id.words) };
}
