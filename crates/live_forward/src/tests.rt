//! The worked example of two ranges of three, and of a ring of capacity 1.

use crate::{ForwardTable, claim_all, hint_ring};
use gc_words::Address;
use std::test::Fail;

#[test]
fn a_stored_place_is_loaded(rt: HostRuntime) -> Result<(), Fail> {
    let (table, mut one) = ForwardTable::new(rt.alloc(), &[3, 3])?;
    let first = table.claim(&mut one);
    let mut two = table.split(&mut one);
    let second = table.claim(&mut two);
    assert!(rt; first == 0 && second == 1);
    assert!(rt; table.load(&mut one, 4).is_none());
    let place = Address::at(1, 2, 4);
    table.store_own(&mut two, 4, place);
    assert!(rt; table.load(&mut one, 4) == Some(place));
    table.join(&mut one, two);
    Ok(())
}

#[test]
fn a_ring_of_one_takes_one(rt: HostRuntime) -> Result<(), Fail> {
    let (mut sender, mut receiver) = hint_ring(rt.alloc(), 1)?;
    let one = Address::at(0, 0, 2);
    let two = Address::at(0, 0, 4);
    assert!(rt; sender.offer(one).is_ok());
    assert!(rt; sender.offer(two) == Err(two));
    assert!(rt; receiver.beside(&mut sender) == 1);
    assert!(rt; receiver.next_hint() == Some(one));
    assert!(rt; receiver.next_hint().is_none());
    Ok(())
}

#[test]
fn each_range_has_a_seat(rt: HostRuntime) -> Result<(), Fail> {
    let alloc = rt.alloc();
    let (table, first) = ForwardTable::new(alloc, &[3, 0, 2])?;
    let seats = claim_all(alloc, &table, first, 3)?;
    assert_eq!(rt; seats.len(), 3);
    Ok(())
}
