//! The from-segments of one thread, by their numbers.

ghost use Rattle.std.specs.Prelude.{◌≡◌, ◌≢◌, ◌+◌, ◌^◌, ◌<◌, ◌≤◌, ℕ, [], length, None, Some, OnOk};
ghost use Rattle.directory.specs.Reaches.{LiesInTable, ReachesIn, Spans};
ghost use Rattle.directory.specs.Tables.{entry_in, run_of, word_at};

use crate::reach::Reach;
use gc_words::{OFFSETS, SEGMENTS};
use std::alloc::{AllocError, Global};
use std::marker::Model;

/// A from-segment, and where its words begin.
#[derive(Clone, Copy, Debug, PartialEq, Eq)]
pub struct FromSegment {
    /// The first word of its possible starts.
    pub first_word: usize,
    /// How many words of memory it has.
    pub size: u32,
    /// The generation that it had.
    pub generation: u8,
}

/// How many words of memory a segment has that objects share.
const SHARED_SIZE: u32 = 512;

/// How many words a from-segment of this size gets: one for each two words of memory of a shared one, in
/// which an object may start at each even offset. A segment of one large object gets one.
#[inline(always)]
pub fn run(size: u32) -> usize
    ensures { result ≡ run_of size }
{
    if size == SHARED_SIZE { 256 } else { 1 }
}

impl FromSegment {
    /// The word of an offset in it.
    #[inline(always)]
    pub fn word(self, offset: u32) -> usize
        requires inside { offset < self.size }
        requires fits { self.first_word + run_of self.size ≤ 2 ^ 64 }
        ensures { result ≡ word_at self offset }
    {
        if self.size == SHARED_SIZE {
            self.first_word + offset as usize / 2
        } else {
            self.first_word
        }
    }
}

/// A thread's from-segments. It is as long as the greatest of their numbers asks for.
#[derive(Drop)]
pub struct FromTable {
    entries: Vec<Option<FromSegment>>,
    /// What they would reach as those of thread 0.
    reach: Reach,
}

impl Model for FromTable {
    ghost use Rattle.std.specs.Prelude.{List, Option};
    ghost use Rattle.directory.specs.declared.table.FromSegment.{FromSegment};
    ghost use Rattle.directory.specs.Reaches.{LiesInTable, Spans};

    ghost Value = { List (Option FromSegment) };

    ghost view = { λ t. t.entries.items };

    ghost invariant = { λ t. Spans t.reach (LiesInTable t.entries.items 0) };
}

/// Makes entries long enough for a number. Takes memory where they are not.
fn lengthen(entries: &mut Vec<Option<FromSegment>>, segment: usize) -> Result<(), AllocError>
    ensures long { OnOk result (segment < length entries.new.items) }
    ensures same { (n : ℕ) → entry_in entries.new.items n ≡ entry_in entries.old.items n }
{
    if entries.len() <= segment {
        let length = segment.checked_add(1).ok_or(AllocError)?;
        entries.resize(length, None)?;
    }
    Ok(())
}

impl FromTable {
    /// A table without from-segments. Takes no memory.
    pub fn new(alloc: Global) -> FromTable
        ensures { result ≡ [] }
    {
        FromTable {
            entries: Vec::new(alloc),
            reach: Reach::none(),
        }
    }

    /// Puts a from-segment at its number, where none is. Takes memory where the table is too short.
    pub fn put(&mut self, segment: usize, from: FromSegment) -> Result<(), AllocError>
        requires { entry_in self.old segment ≡ None }
        ensures here { OnOk result (entry_in self.new segment ≡ Some from) }
        ensures others { OnOk result ((n : ℕ) → n ≢ segment → entry_in self.new n ≡ entry_in self.old n) }
    {
        lengthen(&mut self.entries, segment)?;
        self.entries[segment] = Some(from);
        self.reach = self
            .reach
            .with(Reach::of_segment(segment as u64, from.size));
        Ok(())
    }

    /// What they reach as those of a thread.
    fn reach(&self, thread: u64) -> Reach
        requires { thread < 64 }
        ensures { Spans result (LiesInTable self.now thread) }
    {
        // An empty reach may have ends that are too great for a sum, and stays empty.
        let first = thread * SEGMENTS * OFFSETS;
        Reach {
            least: first.saturating_add(self.reach.least),
            beyond: first.saturating_add(self.reach.beyond),
        }
    }

    /// The from-segment of a number. None where the number is of no from-segment.
    #[inline(always)]
    pub fn entry(&self, segment: usize) -> Option<FromSegment>
        ensures { result ≡ entry_in self.now segment }
    {
        if segment < self.entries.len() {
            self.entries[segment]
        } else {
            None
        }
    }
}

/// The reach of all from-segments, by the tables of all threads.
pub fn reach_of(tables: &[FromTable]) -> Reach
    requires { length tables.now ≡ 64 }
    ensures { ReachesIn result tables.now }
{
    let mut reach = Reach::none();
    for (thread, table) in tables.iter().enumerate() {
        reach = reach.with(table.reach(thread as u64));
    }
    reach
}
