//! A new ring of hints.

ghost use Rattle.std.specs.Prelude.{◌≡◌, ◌<◌, [], IfOk};
ghost use Rattle.live_forward.specs.Hints.{taken, given, waiting, ring_capacity, IsRing};

use crate::hints::{HintReceiver, HintSender};
use rtrb::RingBuffer;
use std::alloc::{AllocError, Global};

/// Both ends of a new ring for so many targets, which is empty. Takes memory; the ends take none.
pub fn hint_ring(alloc: Global, capacity: usize) -> Result<(HintSender, HintReceiver), AllocError>
    requires { 0 < capacity }
    ensures ring { IfOk result (λ r. IsRing r.0 r.1) }
    ensures sender { IfOk result (λ r. (taken r.0 ≡ []) × (ring_capacity r.0 ≡ capacity)) }
    ensures receiver { IfOk result (λ r. (given r.1 ≡ []) × (waiting r.1 ≡ [])) }
{
    let (producer, consumer) = RingBuffer::new(alloc, capacity)?;
    Ok((HintSender { producer }, HintReceiver { consumer }))
}
