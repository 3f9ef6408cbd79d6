//! The two ends of a ring of hints, from one sweeper to another.

ghost use Rattle.std.specs.Prelude.{◌+◌, ◌≤◌, length};
ghost use Rattle.rtrb.specs.Ring.{sent, known_free, producer_capacity};

use gc_words::Address;
use rtrb::{Consumer, Producer, PushError};

/// The end that offers targets. `taken` is what the ring took from it, oldest first.
#[derive(Drop)]
pub struct HintSender {
    pub(crate) producer: Producer<Address>,
    ghost room: { producer_capacity producer ≤ known_free producer + length (sent producer) },
}

/// The end that gives them. `given` is what it gave, oldest first, and `waiting` what it is known to give
/// next.
#[derive(Drop)]
pub struct HintReceiver {
    pub(crate) consumer: Consumer<Address>,
}

impl HintSender {
    ghost use Rattle.std.specs.Prelude.{◌≡◌, ◌<◌, [], ◌∷◌, ◌++◌, length, IsOk, IfErr, OnOk};
    ghost use Rattle.live_forward.specs.Hints.{taken, ring_capacity, SameSender};

    /// Offers a target. Hands it back only where the ring did, so never at the first `capacity` offers;
    /// then nothing changed, and the request in the outbox stands all the same.
    pub fn offer(&mut self, target: Address) -> Result<(), Address>
        ensures ring { SameSender self.old self.new }
        ensures ok { OnOk result (taken self.new ≡ taken self.old ++ target ∷ []) }
        ensures back { IfErr result (λ at. (at ≡ target) × (taken self.new ≡ taken self.old)) }
        ensures first { length (taken self.old) < ring_capacity self.old → IsOk result }
    {
        match self.producer.push(target) {
            Ok(()) => Ok(()),
            Err(PushError::Full(target)) => Err(target),
        }
    }
}

impl HintReceiver {
    ghost use Rattle.std.specs.Prelude.{◌≡◌, ◌<◌, [], ◌∷◌, ◌++◌, length, IsSome, IfSome, IfNone};
    ghost use mathlib.Core.List.{IsPrefix};
    ghost use Rattle.live_forward.specs.Hints.{taken, given, waiting, IsRing, SameSender, SameReceiver};

    /// The next target. None only where the ring gave nothing, so never for targets that `beside` counted.
    pub fn next_hint(&mut self) -> Option<Address>
        ensures ring { SameReceiver self.old self.new }
        ensures some { IfSome result (λ at. given self.new ≡ given self.old ++ at ∷ []) }
        ensures order { IfSome result (λ at. IsPrefix (waiting self.old) (at ∷ waiting self.new)) }
        ensures none { IfNone result ((given self.new ≡ given self.old) × (waiting self.new ≡ [])) }
        ensures known { 0 < length (waiting self.old) → IsSome result }
    {
        self.consumer.pop().ok()
    }

    /// How many targets were taken and not yet given, counted with both ends of one ring at hand. So many
    /// next calls of `next_hint` give these, in order.
    pub fn beside(&mut self, sender: &mut HintSender) -> usize
        requires { IsRing sender.old self.old }
        ensures ring { SameReceiver self.old self.new × SameSender sender.old sender.new }
        ensures kept { (taken sender.new ≡ taken sender.old) × (given self.new ≡ given self.old) }
        ensures value { result ≡ length (waiting self.new) }
        ensures order { given self.new ++ waiting self.new ≡ taken sender.new }
    {
        self.consumer.slots_beside(&mut sender.producer)
    }
}
