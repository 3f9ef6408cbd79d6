//! Rows of runs: what is copied where pairs are followed, and where following ends.

ghost use Rattle.std.specs.Prelude.{◌≡◌, ◌<◌, length, IsTrue};
ghost use Rattle.territory.specs.Following.{IsPairAt};

use crate::copy_rows::{put, word};
use crate::following::{CopyLog, Followed};
use crate::pool::object_in;
use crate::territory::Territory;
use gc_words::{Address, Value, encode};
use http_server::Log;
use std::alloc::{AllocError, Global};
use std::test::Fail;
use trace_types::Kind;

/// The word of `nil`.
const NIL: u64 = 6;

/// The copy of a pair, and its two words, if it was copied.
type Copied = Option<(Address, [u64; 2])>;

/// What is seen after three pairs were followed.
#[derive(Clone, Copy, Debug, PartialEq, Eq)]
struct Seen {
    /// Where following ended.
    end: Option<Followed>,
    /// How many were copied while it went on.
    count: u64,
    /// How many of them wait to be swept, and the last of those with its copy.
    waiting: (usize, Option<(Address, Address)>),
    /// What has the place of each of the three.
    copies: [Copied; 3],
}

/// Pair `number` of segment 0, which has generation 0, or of segment 1 or 2, which have generation 1.
fn pair(segment: u8, number: u8) -> Address {
    Address::at(3, u64::from(segment), 2 * u32::from(number))
}

/// The word that refers to it.
fn to(segment: u8, number: u8) -> u64 {
    encode(Value::Object(pair(segment, number)))
}

/// Makes a pair of these words in generation 0.
fn add(territory: &mut Territory, words: &[u64; 2]) -> Result<(), AllocError> {
    let at = territory.allocate(Kind::Pair, 2, 0, 7)?;
    put(territory, at, 0, words[0]);
    put(territory, at, 1, words[1]);
    Ok(())
}

/// A territory with three such pairs.
fn list(alloc: Global, words: &[[u64; 2]; 3]) -> Result<Territory, AllocError> {
    let mut territory = Territory::new(alloc, 3)?;
    add(&mut territory, &words[0])?;
    add(&mut territory, &words[1])?;
    add(&mut territory, &words[2])?;
    Ok(territory)
}

/// Makes so many pairs in generation 1.
fn fill(territory: &mut Territory, others: u32) -> Result<(), AllocError> {
    for _other in 0..others {
        territory.allocate(Kind::Pair, 2, 1, 8)?;
    }
    Ok(())
}

/// Whether a pair starts there.
fn is_pair(territory: &Territory, at: Address) -> bool
    ensures { IsTrue result → IsPairAt territory.now at }
{
    territory.is_start(at) && territory.kind(at) == Kind::Pair
}

/// Copies the first pair to generation 1, where it has a place then.
fn copy_first(
    territory: &mut Territory,
    first: Address,
    places: &mut [u64],
) -> Result<Option<Address>, AllocError>
    requires { length places.old ≡ 256 }
    ensures { length places.new ≡ 256 }
{
    if !territory.is_start(first) {
        return Ok(None);
    }
    let copy = territory.copy(first, 1)?;
    places[0] = encode(Value::Object(copy));
    Ok(Some(copy))
}

/// Follows from a pair on, if one starts there and at its copy.
fn follow(
    territory: &mut Territory,
    first: Address,
    copy: Address,
    places: &mut [u64],
    log: &mut CopyLog,
) -> Result<Option<Followed>, AllocError>
    requires places { length places.old ≡ 256 }
    requires count { log.old.count ≡ length log.old.own.items }
    ensures places { length places.new ≡ 256 }
{
    if !is_pair(territory, first) || !is_pair(territory, copy) {
        return Ok(None);
    }
    let followed = territory.follow(first, copy, places, log)?;
    Ok(Some(followed))
}

/// Where following has to end: at a pair of these words.
fn end(object: Address, copy: Address, car_swept: bool, words: [u64; 2]) -> Option<Followed> {
    Some(Followed {
        object,
        copy,
        car_swept,
        car: words[0],
        cdr: words[1],
    })
}

/// What stands at the place to which this word refers.
fn copied(territory: &Territory, place: u64) -> Copied {
    let at = object_in(place)?;
    Some((at, [word(territory, at, 0), word(territory, at, 1)]))
}

/// The copies of the three pairs.
fn copies(territory: &Territory, places: &[u64]) -> [Copied; 3]
    requires { length places.now ≡ 256 }
{
    [
        copied(territory, places[0]),
        copied(territory, places[1]),
        copied(territory, places[2]),
    ]
}

/// Copies the first pair to generation 1, and follows from it on.
fn follow_first(
    alloc: Global,
    territory: &mut Territory,
    places: &mut [u64],
) -> Result<Option<Seen>, AllocError>
    requires { length places.old ≡ 256 }
{
    let first = pair(0, 0);
    let Some(copy) = copy_first(territory, first, places)? else {
        return Ok(None);
    };
    let mut log = CopyLog {
        own: Log::new(),
        count: 0,
        waiting: Vec::new(alloc),
    };
    let end = follow(territory, first, copy, places, &mut log)?;
    Ok(Some(Seen {
        end,
        count: log.count,
        waiting: (log.waiting.len(), log.waiting.last().copied()),
        copies: copies(territory, places),
    }))
}

/// The same of three pairs of these words, with so many others in generation 1.
fn run(alloc: Global, words: &[[u64; 2]; 3], others: u32) -> Result<Option<Seen>, AllocError> {
    let mut territory = list(alloc, words)?;
    fill(&mut territory, others)?;
    follow_first(alloc, &mut territory, &mut [0; 256])
}

/// The car of the second pair is the third. It is copied and waits, and is taken when the list has ended.
#[test]
fn a_list_is_followed_to_its_end(rt: HostRuntime) -> Result<(), Fail> {
    let words = [[8, to(0, 1)], [to(0, 2), NIL], [16, 24]];
    let seen = run(rt.alloc(), &words, 0)?;
    let wanted = Seen {
        end: end(pair(0, 2), pair(1, 2), true, [16, 24]),
        count: 2,
        waiting: (0, None),
        copies: [
            Some((pair(1, 0), [8, to(1, 1)])),
            Some((pair(1, 1), [to(1, 2), NIL])),
            Some((pair(1, 2), [16, 24])),
        ],
    };
    assert_eq!(rt; seen, Some(wanted));
    Ok(())
}

/// The car of the second pair is the first, which has a place: its cdr, the third, is not copied.
#[test]
fn a_car_with_a_place_ends_it(rt: HostRuntime) -> Result<(), Fail> {
    let words = [[8, to(0, 1)], [to(0, 0), to(0, 2)], [16, NIL]];
    let seen = run(rt.alloc(), &words, 0)?;
    let wanted = Seen {
        end: end(pair(0, 1), pair(1, 1), false, [to(0, 0), to(0, 2)]),
        count: 1,
        waiting: (0, None),
        copies: [
            Some((pair(1, 0), [8, to(1, 1)])),
            Some((pair(1, 1), [to(0, 0), to(0, 2)])),
            None,
        ],
    };
    assert_eq!(rt; seen, Some(wanted));
    Ok(())
}

/// The segment of generation 1 is full with what the first car refers to: its cdr goes to the next segment, and the one in
/// the full segment waits.
#[test]
fn a_full_segment_is_left(rt: HostRuntime) -> Result<(), Fail> {
    let words = [[to(0, 2), to(0, 1)], [8, NIL], [16, 24]];
    let seen = run(rt.alloc(), &words, 254)?;
    let wanted = Seen {
        end: end(pair(0, 1), pair(2, 0), true, [8, NIL]),
        count: 2,
        waiting: (1, Some((pair(0, 2), pair(1, 255)))),
        copies: [
            Some((pair(1, 254), [to(1, 255), to(2, 0)])),
            Some((pair(2, 0), [8, NIL])),
            Some((pair(1, 255), [16, 24])),
        ],
    };
    assert_eq!(rt; seen, Some(wanted));
    Ok(())
}
