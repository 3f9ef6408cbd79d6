//! The seats of all sweepers, claimed and split in turn.

ghost use Rattle.std.specs.Prelude.{◌≡◌, ℕ, ◌<◌, length, slice_index_or, vec_len, IfOk};
ghost use Rattle.live_forward.specs.Forwarding.{first_view};
ghost use Rattle.live_forward.specs.Seats.{IsSeatOf};

use crate::seat::SweepSeat;
use crate::table::ForwardTable;
use std::alloc::{AllocError, Global};
use std::mem::replace;

/// A seat for each range: seat k has number k, and has forwarded nothing. Takes the first seat of the
/// table, before any other was split off it, and takes memory.
pub fn claim_all(
    alloc: Global,
    table: &ForwardTable,
    first: SweepSeat,
    count: usize,
) -> Result<Vec<SweepSeat>, AllocError>
    requires table { first.table ≡ table.now.table }
    requires view { first.view ≡ first_view table.now.ranges }
    requires count { count ≡ length table.now.ranges }
    ensures len { IfOk result (λ v. vec_len v ≡ count) }
    ensures seats { IfOk result (λ v. (k : ℕ) (d : _) → k < count → IsSeatOf table.now k (slice_index_or v.items k d)) }
{
    let mut seats = Vec::new(alloc);
    let mut seat = first;
    for _ in 0..count {
        table.claim(&mut seat);
        let next = table.split(&mut seat);
        seats.push(replace(&mut seat, next))?;
    }
    Ok(seats)
}
