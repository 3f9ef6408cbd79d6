//! Rows of copies: what is seen of a copy in another generation, and of the original.

ghost use Rattle.std.specs.Prelude.{◌<◌, length, IsTrue};
ghost use Rattle.std.specs.FinMap as map;
ghost use Rattle.segment.specs.Layout.{HasLength};
ghost use Rattle.territory.specs.Territories.{words_of};

use crate::territory::Territory;
use gc_words::Address;
use segment::words_after;
use std::alloc::{AllocError, Global};
use std::test::Fail;
use trace_types::Kind;

/// Kind, length, generation, birth, and the first and last word.
type Told = (Kind, u32, u8, u32, [u64; 2]);

/// Whether a start has a word of this index.
fn has_word(territory: &Territory, at: Address, index: u32) -> bool
    ensures { IsTrue result → index < length (words_of (map.get territory.now.starts at)) }
{
    if !territory.is_start(at) {
        return false;
    }
    let count = words_after(territory.kind(at), u64::from(territory.length(at)));
    u64::from(index) < count
}

pub fn put(territory: &mut Territory, at: Address, index: u32, word: u64) {
    if has_word(territory, at, index) {
        territory.put(at, index, word, 255);
    }
}

pub fn word(territory: &Territory, at: Address, index: u32) -> u64 {
    if has_word(territory, at, index) {
        territory.word(at, index)
    } else {
        0
    }
}

fn told(territory: &Territory, at: Address, last: u32) -> Option<Told> {
    if !territory.is_start(at) {
        return None;
    }
    Some((
        territory.kind(at),
        territory.length(at),
        territory.generation(at),
        territory.birth(at),
        [word(territory, at, 0), word(territory, at, last)],
    ))
}

/// An object of line 7 in generation 0 with 8 in its first and 6 in its last word, and its copy in
/// generation 4.
fn copy_of(
    alloc: Global,
    kind: Kind,
    length: u32,
    last: u32,
) -> Result<(Option<Told>, Option<Told>), AllocError>
    requires { HasLength kind length }
{
    let mut territory = Territory::new(alloc, 3)?;
    let at = territory.allocate(kind, length, 0, 7)?;
    put(&mut territory, at, 0, 8);
    put(&mut territory, at, last, 6);
    let mut copy = at;
    if territory.is_start(at) {
        copy = territory.copy(at, 4)?;
    }
    Ok((told(&territory, at, last), told(&territory, copy, last)))
}

/// What has to be seen of the two.
fn both(kind: Kind, length: u32) -> (Option<Told>, Option<Told>) {
    (
        Some((kind, length, 0, 7, [8, 6])),
        Some((kind, length, 4, 7, [8, 6])),
    )
}

#[test]
fn copies(rt: HostRuntime) -> Result<(), Fail> {
    let alloc = rt.alloc();
    assert_eq!(rt; copy_of(alloc, Kind::Pair, 2, 1)?, both(Kind::Pair, 2));
    assert_eq!(rt; copy_of(alloc, Kind::Vector, 3, 2)?, both(Kind::Vector, 3));
    assert_eq!(rt;
        copy_of(alloc, Kind::Vector, 200, 199)?,
        both(Kind::Vector, 200)
    );
    assert_eq!(rt; copy_of(alloc, Kind::Bytes, 20, 2)?, both(Kind::Bytes, 20));
    assert_eq!(rt; copy_of(alloc, Kind::Cell, 2, 1)?, both(Kind::Cell, 2));
    Ok(())
}
