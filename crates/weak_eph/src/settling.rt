//! The end of a collection for weak fields.

ghost use Rattle.std.specs.Prelude.{◌≡◌, All, map};
ghost use Rattle.weak_eph.specs.Slots.{IsWaiting, settled};

use crate::fields::WeakFields;

/// Fixes each slot whose key is kept, and breaks each other one. Each slot waits before. Takes no memory.
///
/// It comes after all guardians were served, so that a weak field whose object a guardian saves stays.
/// (Dybvig, Bruggeman and Eby, "Guardians in a Generation-Based Garbage Collector", 1993.)
pub fn settle<F: WeakFields>(fields: &mut F)
    requires { All IsWaiting (F.slots fields.old) }
    ensures slots { F.slots fields.new ≡ map (settled (F.kept fields.old)) (F.slots fields.old) }
    ensures kept { F.kept fields.new ≡ F.kept fields.old }
{
    for n in 0..fields.pending() {
        match fields.kept_at(fields.key(n)) {
            Some(new) => fields.fix(n, new),
            None => fields.break_slot(n),
        }
    }
}

#[cfg(test)]
mod tests {
    use super::*;
    use crate::fields::{WeakSlot, WeakState};
    use crate::memory::MemFields;
    use gc_words::Address;
    use std::test::Fail;

    /// A slot that waits for the key at this offset of a thread's segment 1.
    fn waiting(thread: u8, offset: u32) -> WeakSlot
        ensures { IsWaiting result }
    {
        WeakSlot {
            key: place(thread, 1, offset),
            state: WeakState::Waiting,
        }
    }

    fn place(thread: u8, segment: u64, offset: u32) -> Address {
        Address::new(thread, segment, offset).unwrap_or(Address::at(0, 0, 0))
    }

    #[test]
    fn kept_keys_are_fixed_and_others_broken(rt: HostRuntime) -> Result<(), Fail> {
        let alloc = rt.alloc();
        let slots = Vec::from_array(
            alloc,
            [waiting(0, 2), waiting(0, 4), waiting(63, 2), waiting(0, 2)],
        )?;
        let kept = Vec::from_array(
            alloc,
            [
                (place(63, 1, 2), place(63, 9, 0)),
                (place(0, 1, 2), place(0, 8, 6)),
                (place(0, 1, 2), place(0, 8, 8)),
            ],
        )?;
        let mut fields = MemFields { slots, kept };
        settle(&mut fields);
        for (n, state) in [
            WeakState::Fixed(place(0, 8, 6)),
            WeakState::Broken,
            WeakState::Fixed(place(63, 9, 0)),
            WeakState::Fixed(place(0, 8, 6)),
        ]
        .iter()
        .enumerate()
        {
            let slot = fields.slots.get(n);
            assert!(rt; slot.is_some_and(|s| s.state == *state));
        }
        assert_eq!(rt; fields.pending(), 4);
        Ok(())
    }
}
