//! Pairs of one segment that are copied to another in one go, each led to by the cdr of the one before it.

ghost use Rattle.std.specs.Prelude.{◌≡◌, ◌≢◌, ℕ, false, [], ◌∷◌, ◌++◌, ◌+◌, ◌-◌, ◌*◌, ◌/◌, ◌%◌, ◌<◌, ◌≤◌, Some, IfSome, IfNone, IsFalse, IsTrue, length, slice_index, slice_set, vec_capacity};
ghost use Rattle.gc_words.specs.declared.value.Value.TheVariants as value;
ghost use Rattle.gc_words.specs.declared.address.TheConstants.{THREADS};
ghost use Rattle.gc_words.specs.Layout.{HasParts, address_of};
ghost use Rattle.gc_words.specs.Word.{value_of};
ghost use Rattle.segment.specs.Segments.{HasRoom, IsSound, IsStart, is_free};
ghost use Rattle.territory.specs.Pools.{IsSettled, numbered};
ghost use Rattle.territory.specs.FollowedSegments.{CanFollow, HasSpare, IsBetween, IsCarSweptIn, IsCdrSweptIn, IsReachedIn, IsTip, IsTrailIn, copy_at, object_at, reel, with_segment};

use super::Pool;
use super::room::{SHARED_STARTS, SHARED_WORDS};
use crate::following::CopyLog;
use gc_words::{Address, Value, decode, encode};
use segment::{Segment, Space};

/// What stands in place of the word of a place where an object has none. It is the word of a number.
const NO_PLACE: u64 = 0;

/// From which segment of a thread to which one pairs are copied.
#[derive(Clone, Copy)]
pub struct Between {
    pub thread: u8,
    pub from: usize,
    pub to: usize,
}

impl Between {
    /// The address of start `k` of the segment from which pairs are copied.
    #[inline(always)]
    pub fn object(self, k: usize) -> Address
        requires { HasParts self.thread self.from (2 * k) }
        ensures { result ≡ object_at self k }
    {
        Address::at(self.thread, self.from as u64, 2 * k as u32)
    }

    /// The address of the copy at an offset of the other one.
    #[inline(always)]
    pub fn copy(self, offset: usize) -> Address
        requires { HasParts self.thread self.to offset }
        ensures { result ≡ copy_at self offset }
    {
        Address::at(self.thread, self.to as u64, offset as u32)
    }
}

/// The pair that was copied last: its number of start, the offset of its copy, and its words, which are read once.
#[derive(Clone, Copy)]
pub struct Tip {
    pub start: usize,
    pub offset: usize,
    pub car: u64,
    pub cdr: u64,
}

/// Where following ended: at this pair, whose car was swept or was not; and how many objects were copied.
#[derive(Clone, Copy)]
pub struct End {
    pub tip: Tip,
    pub car_swept: bool,
    pub count: u32,
}

/// The object to which a word refers, if it refers to one.
#[inline(always)]
pub fn object_in(word: u64) -> Option<Address>
    ensures some { IfSome result (λ a. value_of word ≡ Some (value.Object a)) }
    ensures none { IfNone result ((a : ℕ) → value_of word ≡ Some (value.Object a) → ⊥) }
{
    match decode(word)? {
        Value::Object(at) => Some(at),
        _ => None,
    }
}

/// The number of the start to which a word refers, where that may be one in the first 512 words of this segment: the word is
/// that of the segment's first object and 16 times the number more.
#[inline(always)]
fn start_of(word: u64, thread: u8, segment: usize) -> Option<usize>
    requires { HasParts thread segment 0 }
    ensures object { IfSome result (λ k. value_of word ≡ Some (value.Object (address_of thread segment (2 * k)))) }
    ensures small { IfSome result (λ k. k < 256) }
{
    let first = encode(Value::Object(Address::at(thread, segment as u64, 0)));
    let start = word.wrapping_sub(first).rotate_right(4);
    if start < 256 {
        Some(start as usize)
    } else {
        None
    }
}

/// The number of the start that may be at an address, where that lies in the first 512 words of this segment.
#[inline(always)]
fn start_at(at: Address, thread: u8, segment: usize) -> Option<usize>
    requires { HasParts thread segment 0 }
    ensures object { IfSome result (λ k. at ≡ address_of thread segment (2 * k)) }
    ensures small { IfSome result (λ k. k < 256) }
{
    start_of(encode(Value::Object(at)), thread, segment)
}

/// The same, where something starts there that has no place. The births of `from` are lent apart, so that they stay at hand.
#[inline(always)]
fn unplaced(
    from: &Segment,
    births: &[u32],
    between: Between,
    word: u64,
    places: &[u64],
) -> Option<usize>
    requires births { births.now ≡ from.now.births }
    requires parts { HasParts between.thread between.from 0 }
    requires used { is_free from.now.role ≡ false }
    requires starts { length from.now.births ≡ 256 }
    requires places { length places.now ≡ 256 }
    ensures object { IfSome result (λ k. value_of word ≡ Some (value.Object (object_at between k))) }
    ensures start { IfSome result (IsStart from.now) }
    ensures small { IfSome result (λ k. k < 256) }
    ensures unplaced { IfSome result (λ k. slice_index places.now k ≡ 0) }
{
    let k = start_of(word, between.thread, between.from)?;
    if births[k] > 0 && places[k] == NO_PLACE {
        Some(k)
    } else {
        None
    }
}

/// Copies start `k` to the top of the segment `to`, and puts its place into word `index` of the copy of `tip`. Gives the
/// pair with the offset of its copy. The words and births of `from` are lent apart, so that they stay at hand.
#[inline(always)]
fn reach(
    from: &Segment,
    words: &[u64],
    births: &[u32],
    to: &mut Segment,
    between: Between,
    k: usize,
    tip: Tip,
    index: usize,
    places: &mut [u64],
    log: &mut CopyLog,
) -> Tip
    requires between { IsBetween between from.now to.old places.old }
    requires tip { IsTip from.now to.old tip.start tip.offset tip.car tip.cdr }
    requires index { index < 2 }
    requires words { words.now ≡ from.now.words }
    requires births { births.now ≡ from.now.births }
    requires start { IsStart from.now k }
    requires small { k < 256 }
    requires unplaced { slice_index places.old k ≡ 0 }
    requires refers { value_of (slice_index from.now.words (2 * tip.start + index)) ≡ Some (value.Object (object_at between k)) }
    requires room { HasRoom to.old 2 }
    ensures start { result.start ≡ k }
    ensures reached { IsReachedIn between from.now (reel to.old places.old log.old.own.items log.old.waiting.items)
        (reel to.new places.new log.new.own.items log.new.waiting.items) tip.start tip.offset index k result.offset }
    ensures tip { IsTip from.now to.new result.start result.offset result.car result.cdr }
    ensures between { IsBetween between from.now to.new places.new }
    ensures waiting { log.new.waiting ≡ log.old.waiting }
    ensures top { to.new.top ≡ to.old.top + 2 }
    ensures words { length to.new.words ≡ length to.old.words }
    ensures copies { (j : ℕ) → IsStart to.old j → IsStart to.new j }
{
    let car = words[2 * k];
    let cdr = words[2 * k + 1];
    let offset = to.grow_two(car, cdr, births[k]);
    let place = between.copy(offset);
    let word = encode(Value::Object(place));
    to.put_in_pair(tip.offset / 2, index, word);
    places[k] = word;
    log.own = log.own.and(&between.object(k), &place);
    Tip {
        start: k,
        offset,
        car,
        cdr,
    }
}

/// Sweeps the car of `tip`, where it refers to no object, or to a pair that can be copied now. Gives whether it did.
#[inline(always)]
fn sweep_car(
    from: &Segment,
    words: &[u64],
    births: &[u32],
    to: &mut Segment,
    between: Between,
    tip: Tip,
    places: &mut [u64],
    log: &mut CopyLog,
) -> bool
    requires between { IsBetween between from.now to.old places.old }
    requires tip { IsTip from.now to.old tip.start tip.offset tip.car tip.cdr }
    requires words { words.now ≡ from.now.words }
    requires births { births.now ≡ from.now.births }
    requires spare { HasSpare to.old (length log.old.waiting.items) (vec_capacity log.old.waiting) }
    ensures swept { IsTrue result → IsCarSweptIn between from.now
        (reel to.old places.old log.old.own.items log.old.waiting.items)
        (reel to.new places.new log.new.own.items log.new.waiting.items) tip.start tip.offset }
    ensures same { IsFalse result → reel to.new places.new log.new.own.items log.new.waiting.items
        ≡ reel to.old places.old log.old.own.items log.old.waiting.items }
    ensures tip { IsTip from.now to.new tip.start tip.offset tip.car tip.cdr }
    ensures count { 2 * length log.new.own.items + to.old.top ≡ 2 * length log.old.own.items + to.new.top }
    ensures grows { to.old.top ≤ to.new.top }
    ensures between { IsBetween between from.now to.new places.new }
    ensures spare { HasSpare to.new (length log.new.waiting.items) (vec_capacity log.new.waiting) }
    ensures no_more { length log.new.waiting.items + to.old.top ≤ length log.old.waiting.items + to.new.top }
    ensures words { length to.new.words ≡ length to.old.words }
{
    let Some(k) = unplaced(from, births, between, tip.car, places) else {
        return object_in(tip.car).is_none();
    };
    if !to.has_room_for_two() {
        return false;
    }
    let next = reach(from, words, births, to, between, k, tip, 0, places, log);
    log.waiting
        .push_reserved((between.object(k), between.copy(next.offset)));
    true
}

/// Takes the pair that waits last, where it and its copy lie in the two segments. Gives its number of start, and the offset
/// of its copy. The births of `from` are lent apart, so that they stay at hand.
#[inline(always)]
fn take_waiting(
    from: &Segment,
    births: &[u32],
    to: &Segment,
    between: Between,
    log: &mut CopyLog,
) -> Option<(usize, usize)>
    requires births { births.now ≡ from.now.births }
    requires from_parts { HasParts between.thread between.from 0 }
    requires to_parts { HasParts between.thread between.to 0 }
    requires used { is_free from.now.role ≡ false }
    requires starts { length from.now.births ≡ 256 }
    ensures start { IfSome result (λ t. IsStart from.now t.0) }
    ensures copy { IfSome result (λ t. IsStart to.now (t.1 / 2)) }
    ensures even { IfSome result (λ t. t.1 % 2 ≡ 0) }
    ensures waited { IfSome result (λ t.
        log.old.waiting.items ≡ log.new.waiting.items ++ (object_at between t.0, copy_at between t.1) ∷ []) }
    ensures capacity { vec_capacity log.new.waiting ≡ vec_capacity log.old.waiting }
    ensures own { log.new.own ≡ log.old.own }
    ensures same { IfNone result (log.new.waiting ≡ log.old.waiting) }
{
    let (object, copy) = *log.waiting.last()?;
    let k = start_at(object, between.thread, between.from)?;
    let q = start_at(copy, between.thread, between.to)?;
    if births[k] == 0 || !to.is_start(2 * q) {
        return None;
    }
    log.waiting.pop();
    Some((k, 2 * q))
}

/// Sweeps the cdr of `tip`, where it refers to a pair that can be copied now, and gives that one. Where it refers to no
/// object, the pair is swept, and the one that waits last is next.
#[inline(always)]
fn sweep_cdr(
    from: &Segment,
    words: &[u64],
    births: &[u32],
    to: &mut Segment,
    between: Between,
    tip: Tip,
    places: &mut [u64],
    log: &mut CopyLog,
) -> Option<Tip>
    requires between { IsBetween between from.now to.old places.old }
    requires tip { IsTip from.now to.old tip.start tip.offset tip.car tip.cdr }
    requires words { words.now ≡ from.now.words }
    requires births { births.now ≡ from.now.births }
    requires spare { HasSpare to.old (length log.old.waiting.items) (vec_capacity log.old.waiting) }
    ensures swept { IfSome result (λ t. IsCdrSweptIn between from.now
        (reel to.old places.old log.old.own.items log.old.waiting.items)
        (reel to.new places.new log.new.own.items log.new.waiting.items) tip.start tip.offset t.start t.offset) }
    ensures same { IfNone result (reel to.new places.new log.new.own.items log.new.waiting.items
        ≡ reel to.old places.old log.old.own.items log.old.waiting.items) }
    ensures tip { IfSome result (λ t. IsTip from.now to.new t.start t.offset t.car t.cdr) }
    ensures count { 2 * length log.new.own.items + to.old.top ≡ 2 * length log.old.own.items + to.new.top }
    ensures grows { to.old.top ≤ to.new.top }
    ensures between { IsBetween between from.now to.new places.new }
    ensures spare { HasSpare to.new (length log.new.waiting.items) (vec_capacity log.new.waiting) }
    ensures less { IfSome result (λ t.
        length log.new.waiting.items + to.old.top < length log.old.waiting.items + to.new.top) }
    ensures words { length to.new.words ≡ length to.old.words }
{
    let Some(k) = unplaced(from, births, between, tip.cdr, places) else {
        if object_in(tip.cdr).is_some() {
            return None;
        }
        let (start, offset) = take_waiting(from, births, to, between, log)?;
        return Some(Tip {
            start,
            offset,
            car: words[2 * start],
            cdr: words[2 * start + 1],
        });
    };
    if !to.has_room_for_two() {
        return None;
    }
    Some(reach(from, words, births, to, between, k, tip, 1, places, log))
}

/// How many pairs lie between two tops of a segment.
#[inline(always)]
fn pairs_between(before: usize, top: usize) -> u32
    requires within { before ≤ top }
    requires small { top ≤ 512 }
    ensures { result ≡ (top - before) / 2 }
{
    (top - before) as u32 / 2
}

/// Follows pairs from `first` on.
#[inline(always)]
pub(super) fn follow_from(
    from: &Segment,
    to: &mut Segment,
    between: Between,
    first: Tip,
    places: &mut [u64],
    log: &mut CopyLog,
) -> End
    requires between { IsBetween between from.now to.old places.old }
    requires tip { IsTip from.now to.old first.start first.offset first.car first.cdr }
    requires spare { HasSpare to.old (length log.old.waiting.items) (vec_capacity log.old.waiting) }
    ensures followed { IsTrailIn between from.now (reel to.old places.old log.old.own.items log.old.waiting.items)
        first.start first.offset (reel to.new places.new log.new.own.items log.new.waiting.items)
        result.tip.start result.tip.offset result.car_swept }
    ensures tip { IsTip from.now to.new result.tip.start result.tip.offset result.tip.car result.tip.cdr }
    ensures count { length log.new.own.items ≡ length log.old.own.items + result.count }
    ensures few { result.count ≤ 256 }
{
    let (words, births) = from.words_and_births();
    let before = to.top();
    let mut tip = first;
    while sweep_car(from, words, births, to, between, tip, places, log) {
        match sweep_cdr(from, words, births, to, between, tip, places, log) {
            Some(next) => tip = next,
            None => {
                return End {
                    tip,
                    car_swept: true,
                    count: pairs_between(before, to.top()),
                };
            }
        }
    }
    End {
        tip,
        car_swept: false,
        count: pairs_between(before, to.top()),
    }
}

/// The same from one segment of a list to another.
#[inline(always)]
fn follow_apart(
    segments: &mut [Segment],
    between: Between,
    first: Tip,
    places: &mut [u64],
    log: &mut CopyLog,
) -> End
    requires apart { between.from ≢ between.to }
    requires from_within { between.from < length segments.old }
    requires to_within { between.to < length segments.old }
    requires between { IsBetween between (numbered segments.old between.from) (numbered segments.old between.to) places.old }
    requires tip { IsTip (numbered segments.old between.from) (numbered segments.old between.to) first.start first.offset first.car first.cdr }
    requires spare { HasSpare (numbered segments.old between.to) (length log.old.waiting.items) (vec_capacity log.old.waiting) }
    ensures followed { IsTrailIn between (numbered segments.old between.from)
        (reel (numbered segments.old between.to) places.old log.old.own.items log.old.waiting.items) first.start first.offset
        (reel (numbered segments.new between.to) places.new log.new.own.items log.new.waiting.items)
        result.tip.start result.tip.offset result.car_swept }
    ensures others { segments.new ≡ slice_set segments.old between.to (numbered segments.new between.to) }
    ensures count { length log.new.own.items ≡ length log.old.own.items + result.count }
    ensures few { result.count ≤ 256 }
{
    if between.from < between.to {
        let (front, back) = segments.split_at_mut(between.to);
        follow_from(
            &front[between.from],
            &mut back[0],
            between,
            first,
            places,
            log,
        )
    } else {
        let (front, back) = segments.split_at_mut(between.from);
        follow_from(
            &back[0],
            &mut front[between.to],
            between,
            first,
            places,
            log,
        )
    }
}

impl Pool {
    /// Whether pairs of one segment can be copied to another one: to the open segment of its area, both of pairs alone.
    #[inline(always)]
    pub fn can_follow(&self, between: Between) -> bool
        requires settled { IsSettled self.now }
        requires from_within { between.from < length self.now.segments }
        requires to_within { between.to < length self.now.segments }
        ensures { IsTrue result → CanFollow self.now between }
    {
        let from = &self.segments[between.from];
        let to = &self.segments[between.to];
        let Space::Pair = from.space() else {
            return false;
        };
        let Space::Pair = to.space() else {
            return false;
        };
        between.from != between.to
            && from.possible_starts() == SHARED_STARTS
            && to.words() == SHARED_WORDS
            && self.areas[usize::from(to.generation())] == Some(between.to)
    }

    /// Follows pairs of one segment from start `k` on, of which a copy stands at an offset of the other one: as long as
    /// that has room, and what is referred to lies in the first one and has no place.
    #[inline(always)]
    pub fn follow(
        &mut self,
        between: Between,
        k: usize,
        offset: usize,
        places: &mut [u64],
        log: &mut CopyLog,
    ) -> End
        requires settled { IsSettled self.old }
        requires can { CanFollow self.old between }
        requires thread { between.thread < THREADS }
        requires start { IsStart (numbered self.old.segments between.from) k }
        requires copy { IsStart (numbered self.old.segments between.to) (offset / 2) }
        requires even { offset % 2 ≡ 0 }
        requires places { length places.old ≡ 256 }
        requires spare { length log.old.waiting.items + 256 ≤ vec_capacity log.old.waiting }
        ensures followed { IsTrailIn between (numbered self.old.segments between.from)
            (reel (numbered self.old.segments between.to) places.old log.old.own.items log.old.waiting.items) k offset
            (reel (numbered self.new.segments between.to) places.new log.new.own.items log.new.waiting.items)
            result.tip.start result.tip.offset result.car_swept }
        ensures others { self.new ≡ with_segment self.old between.to (numbered self.new.segments between.to) }
        ensures count { length log.new.own.items ≡ length log.old.own.items + result.count }
        ensures few { result.count ≤ 256 }
    {
        let (car, cdr) = self.segments[between.from].two_words(k);
        let first = Tip {
            start: k,
            offset,
            car,
            cdr,
        };
        follow_apart(&mut self.segments, between, first, places, log)
    }
}
