//! What no clause says: that places are made, one is noted, and a list is followed, where there is memory.

ghost use Rattle.std.specs.Prelude.{◌≡◌, ◌≤◌, ◌<◌, IfOk, IfSome, IsTrue, Some};
ghost use Rattle.gc_words.specs.Layout.{segment_of, thread_of};
ghost use Rattle.directory.specs.Tables.{entry_at};
ghost use Rattle.sweep_share.specs.Following.{IsPairIn};
ghost use Rattle.sweep_places.specs.Following.{IsOneSweep};
ghost use Rattle.directory.specs.Directories.{AreOfThreads, HaveBegun, word_in};
ghost use Rattle.sweep_places.specs.Places.{IsOwnStart};

use crate::Places;
use directory::{Directory, FromSegment, Near};
use gc_words::{Address, Value, encode};
use std::alloc::{AllocError, Global};
use std::test::Fail;
use sweep_share::Share;
use territory::{Followed, Targets, Territory};
use trace_types::Kind;

/// A territory with two pairs, of which the second leads to the first, after generation 0 was set aside.
fn begun(alloc: Global, thread: u8, targets: Targets) -> Result<Territory, AllocError>
    requires thread { thread < 64 }
    requires least { targets.cg ≤ targets.min }
    requires greatest { targets.min ≤ targets.max }
    requires generations { targets.max ≤ 8 }
    ensures thread { IfOk result (λ t. t.thread ≡ thread) }
    ensures targets { IfOk result (λ t. t.targets ≡ targets) }
{
    let mut territory = Territory::new(alloc, thread)?;
    let first = territory.allocate(Kind::Pair, 2, 0, 1)?;
    let second = territory.allocate(Kind::Pair, 2, 0, 2)?;
    territory.put(second, 1, encode(Value::Object(first)), 0);
    territory.begin(targets);
    Ok(territory)
}

/// The territories of all threads.
fn all_begun(alloc: Global, targets: Targets) -> Result<Vec<Territory>, AllocError>
    requires least { targets.cg ≤ targets.min }
    requires greatest { targets.min ≤ targets.max }
    requires generations { targets.max ≤ 8 }
    ensures threads { IfOk result (λ v. AreOfThreads v.items) }
    ensures begun { IfOk result (λ v. HaveBegun v.items targets) }
{
    let mut territories = Vec::new(alloc);
    for thread in 0..64u8 {
        territories.push(begun(alloc, thread, targets)?)?;
    }
    Ok(territories)
}

/// What the directory tells of the first object of a segment, where it is one of a sweeper's own.
fn own_start(directory: &Directory, number: u32, at: Address) -> Option<usize>
    ensures own { IfSome result (λ word. IsOwnStart directory.now number at) }
    ensures word { IfSome result (λ word. word ≡ word_in directory.now at) }
{
    if directory.collected(at)
        && at.offset() == 0
        && u32::from(at.thread()) % directory.sweepers() == number
    {
        Some(directory.word_of(at))
    } else {
        None
    }
}

/// Whether a pair starts there.
fn is_pair(share: &Share, at: Address) -> bool
    ensures { IsTrue result → IsPairIn share.now at }
{
    share.is_own(at) && share.of_thread(at.thread()).is_start(at) && share.kind(at) == Kind::Pair
}

/// The from-segment in which an address lies.
fn from_of(directory: &Directory, at: Address) -> Option<FromSegment>
    ensures { IfSome result (λ from. entry_at directory.now.tables (thread_of at) (segment_of at) ≡ Some from) }
{
    let mut near = Near::none();
    directory.find_near(&mut near, at)?;
    Some(near.from)
}

/// Copies a pair to generation 1, and follows it.
fn follow_from(
    share: &mut Share,
    places: &mut Places,
    directory: &Directory,
    object: Address,
) -> Result<Option<Followed>, AllocError>
    requires one { IsOneSweep share.old places.old }
    requires directory { places.old.directory ≡ directory.now }
    requires pair { IsPairIn share.old object }
{
    let Some(from) = from_of(directory, object) else {
        return Ok(None);
    };
    if from.size != 512 {
        return Ok(None);
    }
    let copy = share.copy(object, 1)?;
    let followed = places.follow(share, object, copy, from)?;
    Ok(Some(followed))
}

#[test]
fn a_list_is_followed(rt: HostRuntime) -> Result<(), Fail> {
    let alloc = rt.alloc();
    let targets = Targets {
        cg: 0,
        min: 1,
        max: 1,
    };
    let territories = all_begun(alloc, targets)?;
    let directory = Directory::new(alloc, &territories, targets, 1)?;
    let mut places = Places::new(&directory, 0, Vec::new(alloc))?;
    let mut share = Share::new(alloc, 0, 1, territories)?;
    let first = Address::new(5, 0, 0).ok_or("an address")?;
    let second = Address::new(5, 0, 2).ok_or("an address")?;
    let pair = is_pair(&share, second);
    assert!(&rt; pair);
    let followed = follow_from(&mut share, &mut places, &directory, second)?.ok_or(
        "a from-segment",
    )?;
    assert_eq!(rt; (followed.object, followed.car_swept), (first, true));
    assert_eq!(rt; places.len(), 1);
    assert_eq!(rt; places.take_unswept(), None);
    Ok(())
}

#[test]
fn a_place_is_noted(rt: HostRuntime) -> Result<(), Fail> {
    let alloc = rt.alloc();
    let targets = Targets {
        cg: 0,
        min: 1,
        max: 1,
    };
    let territories = all_begun(alloc, targets)?;
    let directory = Directory::new(alloc, &territories, targets, 3)?;
    let mut places = Places::new(&directory, 2, Vec::new(alloc))?;
    let at = Address::new(5, 0, 0).ok_or("an address")?;
    let place = Address::new(5, 1, 0).ok_or("an address")?;
    let word = own_start(&directory, 2, at).ok_or("an object of its own")?;
    places.note(at, word, place)?;
    assert_eq!(rt; places.place_of(at, word), Some(place));
    assert_eq!(rt; places.len(), 1);
    assert_eq!(rt; places.take_unswept(), Some((at, place)));
    assert_eq!(rt; places.take_unswept(), None);
    Ok(())
}
