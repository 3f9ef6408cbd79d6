//! The end of a collection: from-segments are kept with the starts that are held in them, or given back.

ghost use Rattle.std.specs.Prelude.{◌≡◌, ◌<◌, ◌+◌, ℕ, true, false, cond, length, slice_set, Contains, All};
ghost use Rattle.seg_chain.specs.Lists.{chain_of, link_count, times, without, moved, EachOnce};
ghost use Rattle.segment.specs.declared.segment.Role.TheVariants.{From};
ghost use Rattle.segment.specs.Segments.{IsSound, is_free, given_back, kept_marked};
ghost use Rattle.territory.specs.Pools.{IsSettled, numbered, is_held, cells_in, list_of};
ghost use Rattle.territory.specs.FinishedPools.{IsHoldable, AreHeld, IsFinishedAt, AreFinished};

use super::Pool;
use super::room::SHARED_WORDS;
use crate::territory::Targets;
use gc_words::Address;
use seg_chain::Chains;
use segment::{Segment, Space};

/// Holds starts of from-segments at their place.
fn hold_starts(segments: &mut Vec<Segment>, held: &[Address])
    requires sound { (n : ℕ) → IsSound (numbered segments.old.items n) }
    requires holdable { All (IsHoldable segments.old.items) held.now }
    ensures sound { (n : ℕ) → IsSound (numbered segments.new.items n) }
    ensures held { AreHeld segments.old.items segments.new.items held.now }
{
    for at in held {
        segments[at.segment() as usize].hold(at.offset() as usize / 2);
    }
}

/// 1 where a segment in use counts as held, else 0.
fn held_in(segment: &Segment) -> u64
    requires { is_free segment.now.role ≡ false }
    ensures { result ≡ cond (is_held segment.now) 1 0 }
{
    u64::from(segment.was_held() && segment.words() == SHARED_WORDS)
}

/// How many queue cells a segment in use has.
fn cells_in(segment: &Segment) -> u64
    requires { is_free segment.now.role ≡ false }
    ensures { result ≡ cells_in segment.now }
{
    match segment.space() {
        Space::Cell => segment.starts() as u64,
        _ => 0,
    }
}

/// Takes a number that stands in chain 1 out of it; one that does not stays where it is.
fn take_out(dirty: &mut Chains, n: usize, is_there: bool)
    requires two { length dirty.old ≡ 2 }
    requires each_once { EachOnce dirty.old }
    requires there { is_there ≡ true → Contains (chain_of dirty.old 1) n }
    requires not_there { is_there ≡ false → times n (chain_of dirty.old 1) ≡ 0 }
    ensures two { length dirty.new ≡ 2 }
    ensures links { link_count dirty.new ≡ link_count dirty.old }
    ensures each_once { EachOnce dirty.new }
    ensures chain { chain_of dirty.new 1 ≡ without n (chain_of dirty.old 1) }
{
    if is_there {
        dirty.unlink(1, n);
    }
}

impl Pool {
    /// Holds starts of from-segments at their place.
    pub fn hold(&mut self, held: &[Address])
        requires settled { IsSettled self.old }
        requires holdable { All (IsHoldable self.old.segments) held.now }
        ensures settled { IsSettled self.new }
        ensures segments { AreHeld self.old.segments self.new.segments held.now }
        ensures rest { self.new ≡ record self.old { segments = self.new.segments } }
    {
        hold_starts(&mut self.segments, held);
    }

    /// Gives from-segment `n` back, with all that starts in it.
    fn release(&mut self, n: usize)
        requires settled { IsSettled self.old }
        requires aside { (numbered self.old.segments n).role ≡ From }
        ensures settled { IsSettled self.new }
        ensures segments { self.new.segments
            ≡ slice_set self.old.segments n (given_back (numbered self.old.segments n)) }
        ensures areas { self.new.areas ≡ self.old.areas }
        ensures lists { self.new.lists ≡ moved self.old.lists (list_of (numbered self.old.segments n)) 0 n }
        ensures dirty { chain_of self.new.dirty 1 ≡ without n (chain_of self.old.dirty 1) }
    {
        let segment = &self.segments[n];
        let list = 10 + usize::from(segment.generation());
        let is_dirty = segment.is_dirty();
        self.counts.segment_words -= segment.words() as u64;
        self.counts.held_segments -= held_in(segment);
        self.counts.cells -= cells_in(segment);
        self.segments[n].give_back();
        self.lists.unlink(list, n);
        take_out(&mut self.dirty, n, is_dirty);
    }

    /// Takes from-segment `n` into use again, in this generation, with its held starts alone.
    fn keep(&mut self, n: usize, generation: u8)
        requires settled { IsSettled self.old }
        requires aside { (numbered self.old.segments n).role ≡ From }
        requires generation_in { generation < 9 }
        ensures settled { IsSettled self.new }
        ensures segments { self.new.segments
            ≡ slice_set self.old.segments n (kept_marked (numbered self.old.segments n) generation) }
        ensures areas { self.new.areas ≡ self.old.areas }
        ensures lists { self.new.lists
            ≡ moved self.old.lists (list_of (numbered self.old.segments n)) (1 + generation) n }
        ensures dirty { self.new.dirty ≡ self.old.dirty }
    {
        let segment = &self.segments[n];
        let list = 10 + usize::from(segment.generation());
        self.counts.held_segments -= held_in(segment);
        self.counts.cells -= cells_in(segment);
        self.segments[n].keep_marked(generation);
        let segment = &self.segments[n];
        self.counts.held_segments += held_in(segment);
        self.counts.cells += cells_in(segment);
        self.lists.unlink(list, n);
        self.lists.push_last(1 + usize::from(generation), n);
    }

    /// Keeps from-segment `n` where a start is held in it, and gives it back where none is.
    fn finish_segment(&mut self, n: usize, targets: Targets)
        requires settled { IsSettled self.old }
        requires aside { (numbered self.old.segments n).role ≡ From }
        requires greatest { targets.max < 9 }
        ensures settled { IsSettled self.new }
        ensures finished { IsFinishedAt self.old self.new targets n }
    {
        let segment = &self.segments[n];
        if segment.holds() {
            let next = segment.generation() + 1;
            self.keep(n, next.max(targets.min).min(targets.max));
        } else {
            self.release(n);
        }
    }

    /// Keeps each from-segment in which a start is held, and gives back each other one.
    pub fn finish(&mut self, targets: Targets)
        requires settled { IsSettled self.old }
        requires greatest { targets.max < 9 }
        ensures settled { IsSettled self.new }
        ensures finished { AreFinished self.old self.new targets }
    {
        while let Some(n) = self.first_aside() {
            self.finish_segment(n, targets);
        }
    }
}
