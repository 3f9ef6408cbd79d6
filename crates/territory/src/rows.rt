//! Rows of a territory whose answers are known from outside.

ghost use Rattle.std.specs.Prelude.{◌<◌, ◌≤◌};

use crate::counts::SegmentCounts;
use crate::territory::{Targets, Territory};
use gc_words::Address;
use std::alloc::{AllocError, Global};
use std::test::Fail;
use trace_types::Kind;

#[test]
fn a_pair_of_thread_3(rt: HostRuntime) -> Result<(), Fail> {
    let mut territory = Territory::new(rt.alloc(), 3)?;
    let at = territory.allocate(Kind::Pair, 2, 0, 7)?;
    assert!(rt; territory.is_start(at));
    assert_eq!(rt; at.thread(), 3);
    assert_eq!(rt; (territory.kind(at), territory.length(at)), (Kind::Pair, 2));
    assert_eq!(rt; (territory.generation(at), territory.birth(at)), (0, 7));
    assert_eq!(rt; (territory.word(at, 0), territory.word(at, 1)), (0, 0));
    assert_eq!(rt;
        territory.counts(),
        SegmentCounts {
            segment_words: 512,
            open_areas: 1,
            held_segments: 0,
            cells: 0
        }
    );
    Ok(())
}

/// The words of the segment in which a vector of so many fields lies, and how many areas are open then.
fn segment_of(alloc: Global, fields: u32) -> Result<(u64, u64), AllocError>
    requires { fields ≤ 4000000 }
{
    let mut territory = Territory::new(alloc, 0)?;
    territory.allocate(Kind::Vector, fields, 8, 1)?;
    let counts = territory.counts();
    Ok((counts.segment_words, counts.open_areas))
}

#[test]
fn sizes(rt: HostRuntime) -> Result<(), Fail> {
    let alloc = rt.alloc();
    assert_eq!(rt; segment_of(alloc, 0)?, (512, 1));
    assert_eq!(rt; segment_of(alloc, 1)?, (512, 1));
    assert_eq!(rt; segment_of(alloc, 126)?, (512, 1));
    assert_eq!(rt; segment_of(alloc, 127)?, (512, 1));
    assert_eq!(rt; segment_of(alloc, 128)?, (130, 0));
    assert_eq!(rt; segment_of(alloc, 129)?, (130, 0));
    assert_eq!(rt; segment_of(alloc, 130)?, (132, 0));
    assert_eq!(rt; segment_of(alloc, 4000000)?, (4000002, 0));
    Ok(())
}

/// The start after another.
fn after(territory: &Territory, at: Address) -> Option<Address> {
    if territory.is_start(at) {
        territory.next_start(at)
    } else {
        None
    }
}

#[test]
fn starts_are_shown(rt: HostRuntime) -> Result<(), Fail> {
    let mut territory = Territory::new(rt.alloc(), 5)?;
    let first = territory.allocate(Kind::Vector, 3, 2, 1)?;
    let second = territory.allocate(Kind::Vector, 200, 2, 2)?;
    let young = territory.allocate(Kind::Cell, 2, 0, 3)?;
    assert_eq!(rt; territory.first_start(2), Some(first));
    assert_eq!(rt; after(&territory, first), Some(second));
    assert_eq!(rt; after(&territory, second), None);
    assert_eq!(rt; territory.first_start(0), Some(young));
    assert_eq!(rt; territory.first_start(1), None);
    assert_eq!(rt; territory.counts().cells, 1);
    assert_eq!(rt; territory.first_dirty(), None);
    Ok(())
}

/// An object in each space.
fn fill(territory: &mut Territory, generation: u8, birth: u32) -> Result<(), AllocError>
    requires generation_in { generation ≤ 8 }
    requires born { 0 < birth }
{
    territory.allocate(Kind::Pair, 2, generation, birth)?;
    territory.allocate(Kind::Weak, 2, generation, birth)?;
    territory.allocate(Kind::Eph, 2, generation, birth)?;
    territory.allocate(Kind::Boxed, 1, generation, birth)?;
    territory.allocate(Kind::Bytes, 5, generation, birth)?;
    territory.allocate(Kind::ImmVector, 3, generation, birth)?;
    territory.allocate(Kind::ImmBytes, 9, generation, birth)?;
    territory.allocate(Kind::Cell, 2, generation, birth)?;
    Ok(())
}

/// A territory with objects of three generations in each space, after the generations up to `cg` were set
/// aside.
fn begun(alloc: Global, cg: u8) -> Result<Territory, AllocError>
    requires { cg ≤ 7 }
{
    let mut territory = Territory::new(alloc, 1)?;
    fill(&mut territory, 2, 1)?;
    fill(&mut territory, 1, 2)?;
    fill(&mut territory, 0, 3)?;
    territory.begin(Targets {
        cg,
        min: cg,
        max: cg + 1,
    });
    Ok(territory)
}

/// How many words, open areas, held segments and cells are in use.
fn counted(territory: &Territory) -> [u64; 4] {
    let counts = territory.counts();
    [
        counts.segment_words,
        counts.open_areas,
        counts.held_segments,
        counts.cells,
    ]
}

/// What is in use then, and the first from-segment.
fn set_aside(alloc: Global, cg: u8) -> Result<([u64; 4], Option<u64>), AllocError>
    requires { cg ≤ 7 }
{
    let territory = begun(alloc, cg)?;
    Ok((counted(&territory), territory.first_from()))
}

#[test]
fn generations_are_set_aside(rt: HostRuntime) -> Result<(), Fail> {
    let alloc = rt.alloc();
    assert_eq!(rt; set_aside(alloc, 0)?, ([12288, 16, 0, 3], Some(16)));
    assert_eq!(rt; set_aside(alloc, 1)?, ([12288, 8, 0, 3], Some(16)));
    assert_eq!(rt; set_aside(alloc, 2)?, ([12288, 0, 0, 3], Some(16)));
    Ok(())
}

/// What is in use after all that was set aside was given back, the first from-segment, and the first start
/// of generation 0.
fn given_back(alloc: Global, cg: u8) -> Result<([u64; 4], Option<u64>, Option<Address>), AllocError>
    requires { cg ≤ 7 }
{
    let mut territory = begun(alloc, cg)?;
    territory.finish(&[]);
    Ok((
        counted(&territory),
        territory.first_from(),
        territory.first_start(0),
    ))
}

/// The segment of an object that is made then: the one that was given back last.
fn used_again(alloc: Global, cg: u8) -> Result<u64, AllocError>
    requires { cg ≤ 7 }
{
    let mut territory = begun(alloc, cg)?;
    territory.finish(&[]);
    let at = territory.allocate(Kind::Pair, 2, 0, 4)?;
    Ok(at.segment())
}

#[test]
fn what_is_not_held_is_given_back(rt: HostRuntime) -> Result<(), Fail> {
    let alloc = rt.alloc();
    assert_eq!(rt; given_back(alloc, 0)?, ([8192, 16, 0, 2], None, None));
    assert_eq!(rt; given_back(alloc, 1)?, ([4096, 8, 0, 1], None, None));
    assert_eq!(rt; given_back(alloc, 2)?, ([0, 0, 0, 0], None, None));
    assert_eq!(rt; used_again(alloc, 0)?, 23);
    Ok(())
}

/// Begins and ends a collection of generation 0 in which this start of the first from-segment is held.
/// False where it is none.
fn collect_but(territory: &mut Territory, held: Address) -> bool {
    territory.begin(Targets {
        cg: 0,
        min: 0,
        max: 3,
    });
    if territory.first_from() != Some(held.segment()) || !territory.is_start(held) {
        return false;
    }
    territory.finish(&[held]);
    true
}

/// The generation of a start.
fn generation(territory: &Territory, at: Address) -> Option<u8> {
    if territory.is_start(at) {
        Some(territory.generation(at))
    } else {
        None
    }
}

/// The first of two vectors of so many fields is held, and the second and a pair are not: what is in use
/// then, the generations of the three, and whether the first vector is the one start of generation 1.
fn one_held(alloc: Global, fields: u32) -> Result<([u64; 4], [Option<u8>; 3], bool), AllocError>
    requires { fields ≤ 4000000 }
{
    let mut territory = Territory::new(alloc, 1)?;
    let held = territory.allocate(Kind::ImmVector, fields, 0, 1)?;
    let beside = territory.allocate(Kind::ImmVector, fields, 0, 2)?;
    let elsewhere = territory.allocate(Kind::Pair, 2, 0, 3)?;
    let is_first = collect_but(&mut territory, held) && territory.first_start(1) == Some(held);
    let generations = [
        generation(&territory, held),
        generation(&territory, beside),
        generation(&territory, elsewhere),
    ];
    Ok((
        counted(&territory),
        generations,
        is_first && after(&territory, held).is_none(),
    ))
}

#[test]
fn what_is_held_stays(rt: HostRuntime) -> Result<(), Fail> {
    let alloc = rt.alloc();
    assert_eq!(rt;
        one_held(alloc, 3)?,
        ([512, 0, 1, 0], [Some(1), None, None], true)
    );
    assert_eq!(rt;
        one_held(alloc, 200)?,
        ([202, 0, 0, 0], [Some(1), None, None], true)
    );
    Ok(())
}
