//! What no clause says: that a copy is made and pairs are followed where there is memory, and that registers may have gaps
//! between them.

ghost use Rattle.std.specs.Prelude.{IfOk, IsSome, IsTrue};
ghost use Rattle.sweep_share.specs.Following.{IsPairIn};
ghost use Rattle.sweep_share.specs.Shares.{start_in};

use crate::{Registers, Share};
use gc_words::{Address, Value};
use http_server::Log;
use std::alloc::{AllocError, Global};
use std::test::Fail;
use territory::{CopyLog, Territory};
use trace_types::Kind;

/// The share of sweeper 3 of 64, which has thread 3 alone, with one pair.
fn share_of_a_pair(alloc: Global) -> Result<(Share, Address), AllocError>
    ensures { IfOk result (λ r. IsSome (start_in r.0 r.1)) }
{
    let mut territory = Territory::new(alloc, 3)?;
    let at = territory.allocate(Kind::Pair, 2, 0, 7)?;
    let mut territories = Vec::new(alloc);
    territories.push(territory)?;
    let share = Share::new(alloc, 3, 64, territories)?;
    Ok((share, at))
}

#[test]
fn a_pair_is_copied(rt: HostRuntime) -> Result<(), Fail> {
    let (mut share, at) = share_of_a_pair(rt.alloc())?;
    let place = share.copy(at, 1)?;
    assert_eq!(rt; (place.thread(), place == at), (3, false));
    Ok(())
}

/// Whether a pair starts there.
fn is_pair(share: &Share, at: Address) -> bool
    ensures { IsTrue result → IsPairIn share.now at }
{
    share.is_own(at) && share.of_thread(at.thread()).is_start(at) && share.kind(at) == Kind::Pair
}

#[test]
fn a_pair_is_followed(rt: HostRuntime) -> Result<(), Fail> {
    let alloc = rt.alloc();
    let (mut share, at) = share_of_a_pair(alloc)?;
    let copy = share.copy(at, 1)?;
    let pairs = is_pair(&share, at) && is_pair(&share, copy);
    assert!(&rt; pairs);
    let mut places = [0; 256];
    let mut log = CopyLog {
        own: Log::new(),
        count: 0,
        waiting: Vec::new(alloc),
    };
    let followed = share.follow(at, copy, &mut places, &mut log)?;
    assert_eq!(rt;
        (followed.object, followed.copy, followed.car_swept),
        (at, copy, true)
    );
    Ok(())
}

#[test]
fn registers_have_gaps(rt: HostRuntime) -> Result<(), Fail> {
    let items = Vec::from_array(
        rt.alloc(),
        [(1, Value::Nil), (7, Value::Nil), (4093, Value::Nil)],
    )?;
    let registers = Registers::new(1, 3, items);
    assert_eq!(rt; registers.len(), 3);
    Ok(())
}
