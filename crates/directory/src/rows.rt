//! Rows of a directory whose answers are known from outside.

ghost use Rattle.std.specs.Prelude.{◌≡◌, ◌≤◌, ◌<◌, IfOk};
ghost use Rattle.directory.specs.Directories.{AreOfThreads, HaveBegun};
ghost use Rattle.directory.specs.Nears.{IsNear};

use crate::directory::Directory;
use crate::near::Near;
use crate::reach::Reach;
use gc_words::{Address, Value, encode};
use std::alloc::{AllocError, Global};
use std::test::Fail;
use territory::{Targets, Territory};
use trace_types::Kind;

/// Two pairs in segment 0, a vector of its own segment 1 in generation 1, and a pair in segment 2, which is
/// too old to be collected.
fn fill(territory: &mut Territory) -> Result<(), AllocError>
    ensures { territory.new.thread ≡ territory.old.thread }
{
    territory.allocate(Kind::Pair, 2, 0, 1)?;
    territory.allocate(Kind::Pair, 2, 0, 2)?;
    territory.allocate(Kind::Vector, 200, 1, 3)?;
    territory.allocate(Kind::Pair, 2, 2, 4)?;
    Ok(())
}

/// A territory of a thread after the generations up to 1 were set aside. Threads 0, 1 and 5 have objects.
fn begun(alloc: Global, thread: u8, targets: Targets) -> Result<Territory, AllocError>
    requires thread { thread < 64 }
    requires least { targets.cg ≤ targets.min }
    requires greatest { targets.min ≤ targets.max }
    requires generations { targets.max ≤ 8 }
    ensures thread { IfOk result (λ t. t.thread ≡ thread) }
    ensures targets { IfOk result (λ t. t.targets ≡ targets) }
{
    let mut territory = Territory::new(alloc, thread)?;
    if thread < 2 || thread == 5 {
        fill(&mut territory)?;
    }
    territory.begin(targets);
    Ok(territory)
}

/// The territories of all threads.
fn all_begun(alloc: Global, targets: Targets) -> Result<Vec<Territory>, AllocError>
    requires least { targets.cg ≤ targets.min }
    requires greatest { targets.min ≤ targets.max }
    requires generations { targets.max ≤ 8 }
    ensures threads { IfOk result (λ v. AreOfThreads v.items) }
    ensures begun { IfOk result (λ v. HaveBegun v.items targets) }
{
    let mut territories = Vec::new(alloc);
    for thread in 0..64u8 {
        territories.push(begun(alloc, thread, targets)?)?;
    }
    Ok(territories)
}

/// The generation and the word of an address, where it is collected.
fn seen(directory: &Directory, at: Address) -> Option<(u8, usize)> {
    let found = directory.find(at)?;
    Some((found.generation, found.word))
}

/// The same, by a call for each.
fn asked(directory: &Directory, at: Address) -> Option<(u8, usize)> {
    if directory.collected(at) {
        Some((directory.generation(at), directory.word_of(at)))
    } else {
        None
    }
}

/// The same by a look-up that remembers the from-segment, and the generation to which an object there goes.
fn seen_near(directory: &Directory, near: &mut Near, at: Address) -> Option<(u8, usize, u8)>
    requires near { IsNear directory.now near.old }
    ensures near { IsNear directory.now near.new }
{
    let found = directory.find_near(near, at)?;
    Some((found.generation, found.word, near.target))
}

/// The parts of the address to which a word refers within a reach.
fn referred(reach: Reach, word: u64) -> Option<(u8, u64, u32)> {
    let at = reach.object(word)?;
    Some((at.thread(), at.segment(), at.offset()))
}

/// The first word and the range of a sweeper, where there is one of this number.
fn range(directory: &Directory, sweeper: u32) -> Option<(usize, usize)> {
    if sweeper < directory.sweepers() {
        Some((directory.first_word(sweeper), directory.range(sweeper)))
    } else {
        None
    }
}

const TARGETS: Targets = Targets {
    cg: 1,
    min: 1,
    max: 2,
};

#[test]
fn what_is_collected(rt: HostRuntime) -> Result<(), Fail> {
    let alloc = rt.alloc();
    let territories = all_begun(alloc, TARGETS)?;
    let directory = Directory::new(alloc, &territories, TARGETS, 1)?;
    assert_eq!(rt; (directory.cg(), directory.sweepers()), (1, 1));
    for (thread, segment, offset, expected) in [
        (0, 0, 0, Some((0, 1))),
        (0, 0, 2, Some((0, 2))),
        (0, 0, 510, Some((0, 256))),
        (0, 0, 512, None),
        (0, 1, 0, Some((1, 257))),
        (0, 1, 200, Some((1, 257))),
        (0, 1, 202, None),
        (0, 2, 0, None),
        (0, 3, 0, None),
        (1, 0, 0, Some((0, 258))),
        (1, 1, 0, Some((1, 514))),
        (2, 0, 0, None),
        (5, 0, 4, Some((0, 517))),
        (5, 1, 0, Some((1, 771))),
        (63, 4294967295, 8388606, None),
    ] {
        let at = Address::new(thread, segment, offset).ok_or("an address")?;
        assert_eq!(rt;
            seen(&directory, at),
            expected,
            "{thread} {segment} {offset}"
        );
        assert_eq!(rt;
            asked(&directory, at),
            expected,
            "{thread} {segment} {offset}"
        );
    }
    Ok(())
}

#[test]
fn what_lies_near(rt: HostRuntime) -> Result<(), Fail> {
    let alloc = rt.alloc();
    let territories = all_begun(alloc, TARGETS)?;
    let directory = &Directory::new(alloc, &territories, TARGETS, 1)?;
    let mut near = Near::none();
    for (thread, segment, offset, expected) in [
        (2, 0, 0, None),
        (0, 0, 2, Some((0, 2, 1))),
        (0, 0, 510, Some((0, 256, 1))),
        (0, 0, 512, None),
        (0, 0, 0, Some((0, 1, 1))),
        (0, 2, 0, None),
        (0, 0, 4, Some((0, 3, 1))),
        (0, 1, 0, Some((1, 257, 2))),
        (0, 1, 200, Some((1, 257, 2))),
        (1, 1, 0, Some((1, 514, 2))),
        (1, 0, 0, Some((0, 258, 1))),
    ] {
        let at = Address::new(thread, segment, offset).ok_or("an address")?;
        assert_eq!(rt;
            seen_near(directory, &mut near, at),
            expected,
            "{thread} {segment} {offset}"
        );
    }
    Ok(())
}

#[test]
fn which_words_refer(rt: HostRuntime) -> Result<(), Fail> {
    for (least, beyond, word, expected) in [
        (16, 32, 113, None),
        (16, 32, 121, None),
        (16, 32, 129, Some((0, 0, 16))),
        (16, 32, 137, None),
        (16, 32, 241, Some((0, 0, 30))),
        (16, 32, 249, None),
        (16, 32, 257, None),
        (16, 32, 128, None),
        (16, 32, 134, None),
        (16, 32, 0, None),
        (16, 32, 18446744073709551615, None),
        (15, 33, 113, None),
        (15, 33, 121, None),
        (15, 33, 257, Some((0, 0, 32))),
        (15, 33, 273, None),
        (17, 18, 129, None),
        (17, 18, 145, None),
        (16, 16, 129, None),
        (32, 16, 129, None),
        (32, 16, 257, None),
        (18446744073709551615, 0, 1, None),
        (18446744073709551615, 0, 18446744073709551601, None),
        (0, 18446744073709551615, 1, Some((0, 0, 0))),
        (
            0,
            18446744073709551615,
            18446744073709551601,
            Some((63, 4294967295, 8388606)),
        ),
        (0, 18446744073709551615, 18446744073709551609, None),
    ] {
        assert_eq!(rt;
            referred(Reach { least, beyond }, word),
            expected,
            "{least} {beyond} {word}"
        );
    }
    Ok(())
}

#[test]
fn what_is_within_reach(rt: HostRuntime) -> Result<(), Fail> {
    let alloc = rt.alloc();
    let territories = all_begun(alloc, TARGETS)?;
    let reach = Directory::new(alloc, &territories, TARGETS, 1)?.reach();
    assert_eq!(rt; (reach.least, reach.beyond), (0, 180143985103208650));
    for (thread, segment, offset, expected) in [
        (0, 0, 0, true),
        (0, 1, 202, true),
        (2, 0, 0, true),
        (5, 1, 200, true),
        (5, 1, 202, false),
        (5, 2, 0, false),
        (63, 4294967295, 8388606, false),
    ] {
        let at = Address::new(thread, segment, offset).ok_or("an address")?;
        assert_eq!(rt;
            reach.object(encode(Value::Object(at))).is_some(),
            expected,
            "{thread} {segment} {offset}"
        );
    }
    assert_eq!(rt; reach.object(encode(Value::Nil)), None);
    assert_eq!(rt; reach.object(encode(Value::Fixnum(1))), None);
    Ok(())
}

#[test]
fn where_it_goes(rt: HostRuntime) -> Result<(), Fail> {
    let alloc = rt.alloc();
    for (min, max, young, older) in [(1, 1, 1, 1), (1, 2, 1, 2), (2, 2, 2, 2), (2, 8, 2, 2)] {
        let targets = Targets { cg: 1, min, max };
        let territories = all_begun(alloc, targets)?;
        let directory = Directory::new(alloc, &territories, targets, 2)?;
        assert_eq!(rt; directory.target(0), young);
        assert_eq!(rt; directory.target(1), older);
    }
    Ok(())
}

#[test]
fn each_sweeper_has_a_range(rt: HostRuntime) -> Result<(), Fail> {
    let alloc = rt.alloc();
    let territories = all_begun(alloc, TARGETS)?;
    let old = Address::new(5, 1, 0).ok_or("an address")?;
    for (sweepers, first, second, last, word) in [
        (1, Some((1, 771)), None, None, 771),
        (2, Some((1, 257)), Some((258, 514)), None, 771),
        (3, Some((1, 257)), Some((258, 257)), None, 771),
        (64, Some((1, 257)), Some((258, 257)), Some((515, 257)), 771),
    ] {
        let directory = Directory::new(alloc, &territories, TARGETS, sweepers)?;
        assert_eq!(rt; range(&directory, 0), first, "of {sweepers}");
        assert_eq!(rt; range(&directory, 1), second, "of {sweepers}");
        assert_eq!(rt; range(&directory, 5), last, "of {sweepers}");
        assert_eq!(rt; seen(&directory, old), Some((1, word)), "of {sweepers}");
    }
    Ok(())
}
