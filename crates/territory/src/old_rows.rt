//! Rows of old objects under marked cards, whose answers are known from outside.

ghost use Rattle.std.specs.Prelude.{◌≤◌};

use crate::territory::Territory;
use gc_words::Address;
use segment::words_after;
use std::alloc::{AllocError, Global};
use std::test::Fail;
use trace_types::Kind;

/// Puts a word into a start, if it has so many, that refers to this generation.
fn put(territory: &mut Territory, at: Address, index: u32, refers: u8) {
    if !territory.is_start(at) {
        return;
    }
    let words = words_after(territory.kind(at), u64::from(territory.length(at)));
    if u64::from(index) < words {
        territory.put(at, index, 8, refers);
    }
}

/// The old starts, four at most.
fn olds(alloc: Global, territory: &Territory, cg: u8) -> Result<Vec<Address>, AllocError>
    requires { cg ≤ 8 }
{
    let mut found = Vec::new(alloc);
    let mut at = territory.first_old(cg);
    for _count in 0..4 {
        if let Some(old) = at {
            found.push(old)?;
            at = territory.next_old(old, cg);
        }
    }
    Ok(found)
}

/// The least word of a start at or after `from` under a card of at most 1.
fn dirty_word(territory: &Territory, at: Address, from: u32) -> Option<u32> {
    if territory.is_start(at) {
        territory.next_dirty_word(at, from, 1)
    } else {
        None
    }
}

#[test]
fn old_objects_under_marked_cards(rt: HostRuntime) -> Result<(), Fail> {
    let alloc = rt.alloc();
    let mut territory = Territory::new(alloc, 2)?;
    let vector = territory.allocate(Kind::Vector, 1000, 3, 1)?;
    let beside = territory.allocate(Kind::Pair, 2, 3, 2)?;
    let pair = territory.allocate(Kind::Pair, 2, 3, 3)?;
    let aging = territory.allocate(Kind::Pair, 2, 2, 4)?;
    put(&mut territory, vector, 700, 0);
    put(&mut territory, aging, 0, 1);
    put(&mut territory, pair, 1, 1);
    let above_1 = olds(alloc, &territory, 1)?;
    assert_eq!(rt;
        above_1.as_slice(),
        [vector, aging, beside, pair].as_slice()
    );
    let above_2 = olds(alloc, &territory, 2)?;
    assert_eq!(rt; above_2.as_slice(), [vector, beside, pair].as_slice());
    Ok(())
}

/// Card 10 has the words 640 to 703 of the segment, and word 0 of the vector stands behind its header.
#[test]
fn words_under_one_marked_card(rt: HostRuntime) -> Result<(), Fail> {
    let mut territory = Territory::new(rt.alloc(), 2)?;
    let vector = territory.allocate(Kind::Vector, 1000, 3, 1)?;
    put(&mut territory, vector, 700, 0);
    assert_eq!(rt; dirty_word(&territory, vector, 0), Some(639));
    assert_eq!(rt; dirty_word(&territory, vector, 650), Some(650));
    assert_eq!(rt; dirty_word(&territory, vector, 702), Some(702));
    assert_eq!(rt; dirty_word(&territory, vector, 703), None);
    Ok(())
}

#[test]
fn cards_are_raised(rt: HostRuntime) -> Result<(), Fail> {
    let mut territory = Territory::new(rt.alloc(), 2)?;
    let aging = territory.allocate(Kind::Pair, 2, 2, 1)?;
    let vector = territory.allocate(Kind::Vector, 1000, 3, 2)?;
    put(&mut territory, aging, 0, 1);
    put(&mut territory, vector, 700, 0);
    assert_eq!(rt; territory.first_dirty(), Some(0));
    territory.raise_cards(1);
    assert_eq!(rt; territory.first_dirty(), Some(1));
    assert_eq!(rt;
        (territory.first_old(1), territory.first_old(2)),
        (None, Some(vector))
    );
    territory.raise_cards(2);
    assert_eq!(rt; territory.first_dirty(), None);
    Ok(())
}
