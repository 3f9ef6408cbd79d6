//! A run of the machine, from outside: an ephemeron of sweeper 1, whose key sweeper 0 owns.

ghost use Rattle.std.specs.Prelude.{◌≡◌, IfOk};

use crate::event::Event;
use crate::machine::Machine;
use crate::plan::{Due, Plan};
use crate::slot::{Slot, Stage, Want};
use std::alloc::{AllocError, Global};

/// A slot with a place.
fn slot(name: u64, holder: u64, target: u64, want: Want) -> Slot {
    Slot {
        name,
        holder,
        target,
        want,
        has_place: true,
    }
}

/// Registers of sweeper 0 and 1 refer to the ephemeron 1 and its key 2; its value is 3.
fn dues(alloc: Global) -> Result<Vec<Due>, AllocError> {
    let mut dues = Vec::new(alloc);
    for (name, holder, target) in [(100, 0, 1), (101, 1, 2)] {
        let root = slot(name, holder, target, Want::Keep);
        dues.push(Due {
            slot: root,
            member: None,
            watched: Vec::new(alloc),
        })?;
    }
    let key = slot(10, 1, 2, Want::Watch);
    dues.push(Due {
        slot: key,
        member: Some(1),
        watched: Vec::new(alloc),
    })?;
    let mut watched = Vec::new(alloc);
    watched.push(key)?;
    dues.push(Due {
        slot: slot(11, 1, 3, Want::Keep),
        member: Some(1),
        watched,
    })?;
    Ok(dues)
}

/// Two sweepers; object 2 stays.
fn plan(alloc: Global) -> Result<Plan, AllocError>
    ensures { IfOk result (λ p. p.sweepers ≡ 2) }
{
    let mut staying = Vec::new(alloc);
    staying.push(2)?;
    let dues = dues(alloc)?;
    Ok(Plan {
        older: Vec::new(alloc),
        sweepers: 2,
        staying,
        first_new: 100,
        dues,
    })
}

#[cfg(test)]
mod tests {
    use super::*;

    #[test]
    fn an_ephemeron_is_kept(rt: HostRuntime) -> Result<(), AllocError> {
        let alloc = rt.alloc();
        let plan = plan(alloc)?;
        let mut machine = Machine::start(alloc, &plan)?;
        let first = slot(100, 0, 1, Want::Keep);
        let second = slot(101, 1, 2, Want::Keep);
        let key = slot(10, 1, 2, Want::Watch);
        let value = slot(11, 1, 3, Want::Keep);
        let events = [
            Event::Deliver { slot: first },
            Event::Deliver { slot: second },
            Event::Forward {
                sweeper: 1,
                object: 1,
                place: 601,
            },
            Event::Answer {
                sweeper: 1,
                slot: first,
                place: 601,
            },
            Event::Sweep {
                sweeper: 1,
                object: 1,
            },
            Event::Forward {
                sweeper: 0,
                object: 2,
                place: 2,
            },
            Event::Learn {
                sweeper: 1,
                slot: key,
                place: 2,
            },
            Event::Answer {
                sweeper: 0,
                slot: second,
                place: 2,
            },
            Event::Sweep {
                sweeper: 0,
                object: 2,
            },
            Event::Deliver { slot: first },
            Event::Deliver { slot: second },
            Event::Deliver { slot: key },
            Event::Fix {
                sweeper: 0,
                slot: first,
                place: 601,
            },
            Event::Fix {
                sweeper: 1,
                slot: second,
                place: 2,
            },
            Event::Answer {
                sweeper: 0,
                slot: key,
                place: 2,
            },
            Event::Deliver { slot: key },
            Event::Fix {
                sweeper: 1,
                slot: key,
                place: 2,
            },
            Event::Forward {
                sweeper: 1,
                object: 3,
                place: 603,
            },
            Event::Sweep {
                sweeper: 1,
                object: 3,
            },
            Event::Answer {
                sweeper: 1,
                slot: value,
                place: 603,
            },
            Event::Fix {
                sweeper: 1,
                slot: value,
                place: 603,
            },
        ];
        for event in events {
            machine.apply(alloc, &plan, event)?;
        }
        let own: Vec<(u64, u64)> = machine
            .own
            .iter()
            .map(|e| (e.object, e.place))
            .collect(alloc)?;
        assert_eq!(rt; own.as_slice(), [(1, 601), (2, 2), (3, 603)].as_slice());
        assert!(rt; machine.unswept.is_empty());
        assert_eq!(rt; machine.slots.len(), 4);
        assert!(rt;
            machine
                .slots
                .iter()
                .all(|t| matches!(t.stage, Stage::Fixed(_)))
        );
        Ok(())
    }
}
