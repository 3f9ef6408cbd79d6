//! Pairs that are copied in one go, for a collection that moves them.

ghost use Rattle.std.specs.Prelude.{◌≡◌, ℕ, ◌<◌, false, Some, IfOk, IfSome, IfNone, IsTrue, IsFalse, OnErr, length};
ghost use Rattle.std.specs.FinMap as map;
ghost use Rattle.gc_words.specs.declared.value.Value.TheVariants as value;
ghost use Rattle.gc_words.specs.Layout.{offset_of, segment_of, thread_of};
ghost use Rattle.gc_words.specs.Word.{value_of};
ghost use Rattle.territory.specs.Following.{AreItsWords, CanReach, HasTrail, IsLeft, IsPairAt, IsReached, IsSweptNow, IsTrail, IsTrailEnd, RefersToUnplaced, trail, word_at};

use super::{Territory, place};
use crate::following::{CopyLog, Followed};
use crate::pool::{Between, object_in};
use gc_words::{Address, Value, encode};
use std::alloc::AllocError;
use trace_types::Kind;

/// How many objects start in a segment that is shared, at most.
const MOST: usize = 256;

/// Where a run in the open segment stopped: at this pair, whose car was swept or was not.
#[derive(Clone, Copy)]
struct Stop {
    object: Address,
    copy: Address,
    car_swept: bool,
}

/// How far apart the words of references are to the beginnings of two times 512 words, one behind the other.
const BLOCK: u64 = 4096;

/// Whether a word refers to nothing in the first 512 words of an object's segment, by one comparison.
#[inline(always)]
fn leads_away(object: Address, word: u64) -> bool
    ensures { IsTrue result → (b : ℕ) → value_of word ≡ Some (value.Object b) → segment_of b ≡ segment_of object
        → thread_of b ≡ thread_of object → offset_of b < 512 → ⊥ }
{
    let first = encode(Value::Object(object)) - 8 * u64::from(object.offset());
    word / BLOCK != first / BLOCK
}

impl Territory {
    /// Goes from pair to pair, from one on whose copy is known, as far as it can. It sweeps a pair's car and its cdr, and
    /// goes on with the pair to which the cdr refers. A field is swept where it refers to no object, or to a pair in the
    /// same segment that has no place yet, which is copied then, in the generation of the first copy: its place is put
    /// into the field of the copy and into `places`, which has for each two words of the segment the word of the place
    /// of what starts there, or 0. What a car refers to waits in `log` to be swept. Where a cdr refers to no object, the
    /// pair that waits last may be taken and followed, too, if it lies in the same segment. Following ends exactly where
    /// a cdr refers to no such pair, or a car to another object. Takes memory for what waits, and where it opens a
    /// segment. Err where that is refused, or where a `u64` doesn't count so many copies: what was copied until then is
    /// right.
    ///
    /// So lists and trees are copied with few look-ups. That it is done by segments is this project's own.
    // What it calls for each run is part of it, and in a larger function the loop would share the machine's registers.
    #[inline(never)]
    pub fn follow(
        &mut self,
        object: Address,
        copy: Address,
        places: &mut [u64],
        log: &mut CopyLog,
    ) -> Result<Followed, AllocError>
        requires object { IsPairAt self.old object }
        requires copy { IsPairAt self.old copy }
        requires places { length places.old ≡ 256 }
        requires count { log.old.count ≡ length log.old.own.items }
        ensures trail { IfOk result (λ e. IfSome (map.get self.old.starts copy) (λ y. IsTrail y.generation
            (trail self.old places.old log.old.own.items log.old.waiting.items) object copy
            (trail self.new places.new log.new.own.items log.new.waiting.items) e.object e.copy e.car_swept)) }
        ensures ends { IfOk result (λ e. IsTrailEnd
            (trail self.new places.new log.new.own.items log.new.waiting.items) e.object e.car_swept) }
        ensures words { IfOk result (λ e. AreItsWords self.new e.object e.car e.cdr) }
        ensures anyhow { IfSome (map.get self.old.starts copy) (λ y. HasTrail y.generation
            (trail self.old places.old log.old.own.items log.old.waiting.items) object copy
            (trail self.new places.new log.new.own.items log.new.waiting.items)) }
        ensures count { log.new.count ≡ length log.new.own.items }
        ensures places { length places.new ≡ 256 }
    {
        let mut object = object;
        let mut copy = copy;
        loop {
            let end = self.follow_open(object, copy, places, log)?;
            if !self.sweep_car(end, places, log)? {
                let (car, cdr) = self.pair_words(end.object);
                return Ok(Followed {
                    object: end.object,
                    copy: end.copy,
                    car_swept: end.car_swept,
                    car,
                    cdr,
                });
            }
            match self.reach(end.object, end.copy, 1, places, log)? {
                Some(next) => (object, copy) = next,
                None => {
                    let (car, cdr) = self.pair_words(end.object);
                    return Ok(Followed {
                        object: end.object,
                        copy: end.copy,
                        car_swept: true,
                        car,
                        cdr,
                    });
                }
            }
        }
    }

    /// Follows pairs as long as the open segment has room, where the copy stands in that. Refused, nothing has changed.
    #[inline(always)]
    fn follow_open(
        &mut self,
        object: Address,
        copy: Address,
        places: &mut [u64],
        log: &mut CopyLog,
    ) -> Result<Stop, AllocError>
        requires object { IsPairAt self.old object }
        requires copy { IsPairAt self.old copy }
        requires places { length places.old ≡ 256 }
        requires count { log.old.count ≡ length log.old.own.items }
        ensures trail { IfOk result (λ e. IfSome (map.get self.old.starts copy) (λ y. IsTrail y.generation
            (trail self.old places.old log.old.own.items log.old.waiting.items) object copy
            (trail self.new places.new log.new.own.items log.new.waiting.items) e.object e.copy e.car_swept)) }
        ensures count { log.new.count ≡ length log.new.own.items }
        ensures places { length places.new ≡ 256 }
        ensures refused { OnErr result (trail self.new places.new log.new.own.items log.new.waiting.items
            ≡ trail self.old places.old log.old.own.items log.old.waiting.items) }
    {
        let (from, k) = place(object);
        let between = Between {
            thread: self.thread,
            from,
            to: copy.segment() as usize,
        };
        if !self.pool.can_follow(between) {
            return Ok(Stop {
                object,
                copy,
                car_swept: false,
            });
        }
        let before = log.count;
        if before > u64::MAX - MOST as u64 {
            return Err(AllocError);
        }
        log.waiting.reserve(MOST)?;
        let end = self
            .pool
            .follow(between, k, copy.offset() as usize, places, log);
        log.count = before + u64::from(end.count);
        Ok(Stop {
            object: between.object(end.tip.start),
            copy: between.copy(end.tip.offset),
            car_swept: end.car_swept,
        })
    }

    /// Both words of a pair.
    #[inline(always)]
    fn pair_words(&self, at: Address) -> (u64, u64)
        requires pair { IsPairAt self.now at }
        ensures { AreItsWords self.now at result.0 result.1 }
    {
        (self.pair_word(at, 0), self.pair_word(at, 1))
    }

    /// A word of a pair.
    #[inline(always)]
    fn pair_word(&self, at: Address, index: u32) -> u64
        requires pair { IsPairAt self.now at }
        requires index { index < 2 }
        ensures word { result ≡ word_at self.now at index }
        ensures thread { thread_of at ≡ self.now.thread }
    {
        let (segment, start) = place(at);
        self.pool.segment(segment).word(start, index as usize)
    }

    /// The pair to which a word of a pair refers, where it lies in the same segment and has no place.
    #[inline(always)]
    fn unplaced(&self, object: Address, index: u32, places: &[u64]) -> Option<Address>
        requires object { IsPairAt self.now object }
        requires index { index < 2 }
        requires places { length places.now ≡ 256 }
        ensures some { IfSome result (RefersToUnplaced self.now places.now object index) }
        ensures none { IfNone result ((b : ℕ) → RefersToUnplaced self.now places.now object index b → ⊥) }
    {
        let word = self.pair_word(object, index);
        // So it is at the end of most runs.
        if leads_away(object, word) {
            return None;
        }
        let at = object_in(word)?;
        let entry = at.offset() as usize / 2;
        if at.segment() != object.segment() || entry >= MOST || places[entry] != 0 {
            return None;
        }
        if self.is_start(at) && self.kind(at) == Kind::Pair {
            Some(at)
        } else {
            None
        }
    }

    /// Copies a pair that lies in the same segment and has no place, to which a word of a pair refers, and puts its place
    /// into the same word of that pair's copy. Gives the place. Refused, at most the lists of segments have changed.
    #[inline(never)]
    fn copy_unplaced(
        &mut self,
        object: Address,
        copy: Address,
        index: u32,
        at: Address,
        places: &mut [u64],
        log: &mut CopyLog,
    ) -> Result<Address, AllocError>
        requires object { IsPairAt self.old object }
        requires copy { IsPairAt self.old copy }
        requires index { index < 2 }
        requires refers { RefersToUnplaced self.old places.old object index at }
        requires places { length places.old ≡ 256 }
        requires count { log.old.count ≡ length log.old.own.items }
        ensures reached { IfOk result (λ place. IfSome (map.get self.old.starts copy) (λ y. IsReached y.generation
            (trail self.old places.old log.old.own.items log.old.waiting.items)
            (trail self.new places.new log.new.own.items log.new.waiting.items) object copy index at place)) }
        ensures refused { OnErr result (IsLeft (trail self.old places.old log.old.own.items log.old.waiting.items)
            (trail self.new places.new log.new.own.items log.new.waiting.items)) }
        ensures waiting { log.new.waiting ≡ log.old.waiting }
        ensures count { log.new.count ≡ length log.new.own.items }
        ensures places { length places.new ≡ 256 }
    {
        let count = log.count.checked_add(1).ok_or(AllocError)?;
        let generation = self.generation(copy);
        let place = self.copy(at, generation)?;
        let word = encode(Value::Object(place));
        self.put(copy, index, word, generation);
        places[at.offset() as usize / 2] = word;
        log.own = log.own.and(&at, &place);
        log.count = count;
        Ok(place)
    }

    /// The same where the word refers to such a pair, which it gives with its place. In most runs of pairs it refers to
    /// none, so that is tested first.
    #[inline(always)]
    fn reach(
        &mut self,
        object: Address,
        copy: Address,
        index: u32,
        places: &mut [u64],
        log: &mut CopyLog,
    ) -> Result<Option<(Address, Address)>, AllocError>
        requires object { IsPairAt self.old object }
        requires copy { IsPairAt self.old copy }
        requires index { index < 2 }
        requires places { length places.old ≡ 256 }
        requires count { log.old.count ≡ length log.old.own.items }
        ensures reached { IfOk result (λ o. IfSome o (λ e. IfSome (map.get self.old.starts copy) (λ y. IsReached y.generation
            (trail self.old places.old log.old.own.items log.old.waiting.items)
            (trail self.new places.new log.new.own.items log.new.waiting.items) object copy index e.0 e.1))) }
        ensures same { IfOk result (λ o. IfNone o (trail self.new places.new log.new.own.items log.new.waiting.items
            ≡ trail self.old places.old log.old.own.items log.old.waiting.items)) }
        ensures none { IfOk result (λ o. IfNone o
            (CanReach (trail self.old places.old log.old.own.items log.old.waiting.items) object index → ⊥)) }
        ensures refused { OnErr result (IsLeft (trail self.old places.old log.old.own.items log.old.waiting.items)
            (trail self.new places.new log.new.own.items log.new.waiting.items)) }
        ensures waiting { log.new.waiting ≡ log.old.waiting }
        ensures count { log.new.count ≡ length log.new.own.items }
        ensures places { length places.new ≡ 256 }
    {
        let Some(at) = self.unplaced(object, index, places) else {
            return Ok(None);
        };
        let place = self.copy_unplaced(object, copy, index, at, places, log)?;
        Ok(Some((at, place)))
    }

    /// Sweeps the car of the pair where following ended, if it was not swept, where it refers to no object or to a pair
    /// that can be copied. Gives whether it is swept now. Refused, at most the lists of segments have changed.
    #[inline(always)]
    fn sweep_car(
        &mut self,
        end: Stop,
        places: &mut [u64],
        log: &mut CopyLog,
    ) -> Result<bool, AllocError>
        requires object { IsPairAt self.old end.object }
        requires copy { IsPairAt self.old end.copy }
        requires places { length places.old ≡ 256 }
        requires count { log.old.count ≡ length log.old.own.items }
        ensures swept { IfOk result (λ s. IsTrue s → IfSome (map.get self.old.starts end.copy) (λ y. IsSweptNow y.generation
            end.car_swept
            (trail self.old places.old log.old.own.items log.old.waiting.items)
            (trail self.new places.new log.new.own.items log.new.waiting.items) end.object end.copy)) }
        ensures same { IfOk result (λ s. IsFalse s → trail self.new places.new log.new.own.items log.new.waiting.items
            ≡ trail self.old places.old log.old.own.items log.old.waiting.items) }
        ensures ends { IfOk result (λ s. IsFalse s → (end.car_swept ≡ false) × IsTrailEnd
            (trail self.new places.new log.new.own.items log.new.waiting.items) end.object false) }
        ensures refused { OnErr result (IsLeft (trail self.old places.old log.old.own.items log.old.waiting.items)
            (trail self.new places.new log.new.own.items log.new.waiting.items)) }
        ensures count { log.new.count ≡ length log.new.own.items }
        ensures places { length places.new ≡ 256 }
    {
        if end.car_swept {
            return Ok(true);
        }
        if object_in(self.pair_word(end.object, 0)).is_none() {
            return Ok(true);
        }
        log.waiting.reserve(1)?;
        match self.reach(end.object, end.copy, 0, places, log)? {
            Some(reached) => {
                log.waiting.push_reserved(reached);
                Ok(true)
            }
            None => Ok(false),
        }
    }
}
