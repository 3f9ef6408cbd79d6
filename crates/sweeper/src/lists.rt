//! A list is swept from pair to pair, without a look at the objects that wait.
//!
//! Most objects are pairs, and the cdr of most of them refers to one that is copied next. That one is swept at once: its
//! words were read to be copied, and it need not be put among the objects that wait only to be taken from there again.
//! Where such pairs lie in one from-segment they are copied in one go, with few look-ups. Where a list ends, that goes on
//! with the pair that waits last, if it lies there, too.

ghost use Rattle.std.specs.Prelude.{◌≡◌, ◌<◌, ◌≤◌, Some, IfOk, IfSome, OnOk, length};
ghost use Rattle.directory.specs.Directories.{found_at, word_in};
ghost use Rattle.directory.specs.Nears.{IsNear};
ghost use Rattle.gc_mail.specs.Recipients.{owner};
ghost use Rattle.territory.specs.Finishing.{target_of};
ghost use Rattle.territory.specs.Territories.{words_of};
ghost use Rattle.sweep_model.specs.Hands.{IsAbsent};
ghost use Rattle.sweep_share.specs.Shares.{IsPairOf, start_in};
ghost use Rattle.sweeper.specs.Sweepers.{CanKeep, FieldDone, IsHalfway, IsNextPair, SweeperView, asked_in, in_hand, left_of, with_next};
ghost use Rattle.sweeper.specs.Looked.{HasEntry};
ghost use Rattle.sweeper.specs.Ready.{ComesTo, HasBegun, Ready, Runs};

use crate::Sweeper;
use crate::fields::{Asked, referred};
use directory::{Directory, FromSegment, Near};
use gc_words::{Address, Value, encode};
use std::alloc::AllocError;

/// How many words a from-segment has in which pairs lie.
const SHARED: u32 = 512;

/// The lowest bits of a word, which tell that it refers to an object.
const TAG_BITS: u32 = 3;

/// Where two words have the same tag, what they differ in is less than this once the tag is turned to the top.
const NO_OBJECT: u64 = 1 << 61;

/// A pair that was forwarded and is swept next, with its words, which stayed as they were at its old place.
#[derive(Clone, Copy)]
pub(crate) struct NextPair {
    pub object: Address,
    pub copy: Address,
    pub car: u64,
    pub cdr: u64,
}

impl NextPair {
    /// Whether its cdr refers to an object in another segment, so that it leads to none that is copied in one go with it:
    /// then the words of the two differ above the offsets in a segment, and the tag is the same. Rotated, the tag stands
    /// above all others, so that one comparison tells both.
    #[inline(always)]
    fn leads_away(&self) -> bool {
        let own = encode(Value::Object(self.object));
        let apart = (own ^ self.cdr).rotate_right(TAG_BITS);
        apart >= u64::from(SHARED) && apart < NO_OBJECT
    }
}

/// A pair that is swept next, of which the car may have been swept already.
#[derive(Clone, Copy)]
pub(crate) struct BegunPair {
    pub pair: NextPair,
    pub car_swept: bool,
}

impl Sweeper {
    /// The words of a collected object, of which `word` is the word in the directory, where it is a pair of its own
    /// that has no place yet.
    #[inline(always)]
    fn fresh_pair(&self, target: Address, word: usize) -> Option<(u64, u64)>
        requires own { owner self.now.share.sweepers target ≡ self.now.share.number
            → CanKeep self.now target × (word ≡ word_in self.now.places.directory target) }
        ensures own { IfSome result (λ words. owner self.now.share.sweepers target ≡ self.now.share.number) }
        ensures absent { IfSome result (λ words. IsAbsent self.now.places.own target) }
        ensures pair { IfSome result (λ words. IsPairOf (start_in self.now.share target) words.0 words.1) }
    {
        if !self.share.is_own(target) || !self.places.is_absent(target, word) {
            return None;
        }
        self.share.pair(target)
    }

    /// Handles the cdr of a forwarded pair, which asks for a collected object. Where that is a pair which is copied now,
    /// it is swept next.
    #[inline(always)]
    fn sweep_cdr(&mut self, pair: NextPair, asked: Asked) -> Result<Option<NextPair>, AllocError>
        requires index { asked.index ≡ 1 }
        requires target { asked_in self.old.places.directory (start_in self.old.share pair.object) 1 ≡ Some asked.target }
        requires found { found_at self.old.places.directory asked.target ≡ Some asked.found }
        requires refers { asked.refers ≡ target_of self.old.places.directory.targets asked.found.generation }
        requires generation_in { asked.refers ≤ 8 }
        requires field { 1 < length (words_of (start_in self.old.share pair.copy)) }
        requires own { owner self.old.share.sweepers asked.target ≡ self.old.share.number
            → CanKeep self.old asked.target }
        ensures done { IfOk result (λ next. FieldDone self.old (with_next self.new next) pair.object pair.copy 1) }
        ensures next { IfOk result (λ next. IfSome next (IsNextPair self.old)) }
        ensures object { IfOk result (λ next. IfSome next (λ pair. pair.object ≡ asked.target)) }
    {
        let Some((car, cdr)) = self.fresh_pair(asked.target, asked.found.word) else {
            self.sweep_field(pair.object, pair.copy, asked)?;
            return Ok(None);
        };
        let place = self.copy_taken(asked.target, asked.found.word, asked.refers)?;
        self.put(pair.copy, 1, place, asked.refers);
        Ok(Some(NextPair {
            object: asked.target,
            copy: place,
            car,
            cdr,
        }))
    }

    /// Sweeps pairs in one go, from one on, as long as each leads to the next in the same from-segment and no car refers
    /// to another place. Where a cdr refers to no object, it goes on with the pair that waits last, where that lies in the
    /// same from-segment, `from`. Answers the pair to which it came: the first one where its cdr leads away, or where its
    /// from-segment hasn't `SHARED` words.
    fn follow(&mut self, pair: NextPair, from: FromSegment) -> Result<BegunPair, AllocError>
        requires from { HasEntry self.old.places.directory pair.object from }
        requires ready { Ready (in_hand self.old pair.object pair.copy) }
        requires words { IsNextPair self.old pair }
        ensures comes { IfOk result (λ b. ComesTo self.old self.new pair b) }
        ensures directory { OnOk result (self.new.places.directory ≡ self.old.places.directory) }
        ensures inbox { OnOk result (self.new.inbox ≡ self.old.inbox) }
    {
        if pair.leads_away() {
            return Ok(BegunPair {
                pair,
                car_swept: false,
            });
        }
        if from.size != SHARED {
            return Ok(BegunPair {
                pair,
                car_swept: false,
            });
        }
        let followed = self
            .places
            .follow(&mut self.share, pair.object, pair.copy, from)?;
        Ok(BegunPair {
            pair: NextPair {
                object: followed.object,
                copy: followed.copy,
                car: followed.car,
                cdr: followed.cdr,
            },
            car_swept: followed.car_swept,
        })
    }

    /// Handles the car of a forwarded pair, where that was not done.
    #[inline(always)]
    fn sweep_car(
        &mut self,
        begun: &BegunPair,
        near: &mut Near,
        directory: &Directory,
    ) -> Result<(), AllocError>
        requires same { self.old.places.directory ≡ directory.now }
        requires near { IsNear directory.now near.old }
        requires begun { HasBegun self.old begun.now }
        ensures done { OnOk result ((u : SweeperView) → IsHalfway u self.old begun.now
            → FieldDone u self.new begun.now.pair.object begun.now.pair.copy 0) }
        ensures near { IsNear directory.now near.new }
    {
        if begun.car_swept {
            return Ok(());
        }
        let pair = &begun.pair;
        self.sweep_word(pair.object, pair.copy, 0, pair.car, near, directory)?;
        Ok(())
    }

    /// Handles the fields of a forwarded pair that are not swept, and answers the pair that is swept next, where its cdr
    /// leads to one.
    #[inline(always)]
    fn sweep_pair(
        &mut self,
        begun: BegunPair,
        near: &mut Near,
        directory: &Directory,
    ) -> Result<Option<NextPair>, AllocError>
        requires same { self.old.places.directory ≡ directory.now }
        requires near { IsNear directory.now near.old }
        requires begun { HasBegun self.old begun }
        ensures runs { IfOk result (λ next. (u : SweeperView) → Ready (in_hand u begun.pair.object begun.pair.copy)
            → IsHalfway u self.old begun
            → Runs (in_hand u begun.pair.object begun.pair.copy) (with_next self.new next)) }
        ensures words { IfOk result (λ next. IfSome next (IsNextPair self.new)) }
        ensures from { IfOk result (λ next. IfSome next (λ pair. HasEntry directory.now pair.object near.new.from)) }
        ensures less { IfOk result (λ next. (u : SweeperView) → Ready (in_hand u begun.pair.object begun.pair.copy)
            → IsHalfway u self.old begun
            → left_of (with_next self.new next) < left_of (in_hand u begun.pair.object begun.pair.copy)) }
        ensures directory { OnOk result (self.new.places.directory ≡ directory.now) }
        ensures near { IsNear directory.now near.new }
        ensures inbox { OnOk result (self.new.inbox ≡ self.old.inbox) }
    {
        self.sweep_car(&begun, near, directory)?;
        let pair = begun.pair;
        let Some(target) = referred(pair.cdr) else {
            return Ok(None);
        };
        let Some(found) = directory.find_near(near, target) else {
            return Ok(None);
        };
        let asked = Asked {
            index: 1,
            target,
            found,
            refers: near.target,
        };
        let next = self.sweep_cdr(pair, asked)?;
        Ok(next)
    }

    /// Sweeps a pair that was forwarded, and each further one to which its cdr leads and which is copied now. Its
    /// from-segment was looked at last, as that of each further one was when its place was asked for.
    pub(crate) fn sweep_list(
        &mut self,
        first: NextPair,
        near: &mut Near,
        directory: &Directory,
    ) -> Result<(), AllocError>
        requires same { self.old.places.directory ≡ directory.now }
        requires near { IsNear directory.now near.old }
        requires ready { Ready (in_hand self.old first.object first.copy) }
        requires words { IsNextPair self.old first }
        requires from { HasEntry directory.now first.object near.old.from }
        ensures runs { OnOk result (Runs (in_hand self.old first.object first.copy) self.new) }
        ensures inbox { OnOk result (self.new.inbox ≡ self.old.inbox) }
        ensures less { OnOk result (left_of self.new < left_of (in_hand self.old first.object first.copy)) }
        ensures near { IsNear directory.now near.new }
    {
        let mut next = Some(first);
        while let Some(pair) = next {
            let begun = self.follow(pair, near.from)?;
            next = self.sweep_pair(begun, near, directory)?;
        }
        Ok(())
    }
}
