//! What is collected, and which word each possible start has.

ghost use Rattle.std.specs.Prelude.{◌≡◌, ◌↔◌, ℕ, ◌+◌, ◌^◌, ◌<◌, ◌≤◌, length, slice_index, Option, IfOk, IfSome, IsTrue};
ghost use Rattle.directory.specs.Tables.{aside_at, shown};
ghost use Rattle.territory.specs.Finishing.{target_of};
ghost use Rattle.directory.specs.Directories.{found_at, from_at, from_in, owner_in, start_of, sweeper_count, word_in, AreOfThreads, HasOwnWords, HaveBegun, IsCollected, IsWithin, TellsApart};
ghost use Rattle.directory.specs.Reaches.{Reaches};

use crate::numbering::{THREADS, number_threads};
use crate::reach::Reach;
use crate::table::{FromSegment, FromTable, reach_of};
use gc_words::Address;
use std::alloc::{AllocError, Global};
use std::marker::Model;
use territory::{Targets, Territory};

/// Where a collected object lies: the generation of its from-segment, and the word of its address.
#[derive(Clone, Copy, Debug, PartialEq, Eq)]
pub struct Found {
    /// The generation that the from-segment had.
    pub generation: u8,
    /// The word of the address. It lies in the range of the address's owner.
    pub word: usize,
}

/// Where the territories of a collection have their from-segments, and a word for each possible start in
/// them. Sweeper k has the objects of the threads that leave k when divided by the number of sweepers.
#[derive(Drop)]
pub struct Directory {
    pub(crate) targets: Targets,
    /// How many words each sweeper has.
    ranges: Vec<usize>,
    /// The first of them.
    firsts: Vec<usize>,
    /// The from-segments of each thread.
    pub(crate) tables: Vec<FromTable>,
    /// From the first address in one of them to the last.
    reach: Reach,
}

impl Model for Directory {
    ghost use Rattle.directory.specs.Directories.{DirectoryView, AreTargets, IsSound};
    ghost use Rattle.directory.specs.Reaches.{ReachesIn};

    ghost Value = { DirectoryView };

    ghost view = { λ d. record { targets = d.targets; ranges = d.ranges.items; tables = d.tables.items } };

    ghost invariant = { λ d. AreTargets d.targets × IsSound d.ranges.items d.firsts.items d.tables.items
        × ReachesIn d.reach d.tables.items };
}

/// A table without from-segments for each thread.
fn empty_tables(alloc: Global) -> Result<Vec<FromTable>, AllocError>
    ensures { IfOk result (λ v. length v.items ≡ 64) }
{
    let mut tables = Vec::with_capacity(alloc, THREADS)?;
    for _ in 0..THREADS {
        tables.push(FromTable::new(alloc))?;
    }
    Ok(tables)
}

/// The from-segment in which an address lies, by the tables of all threads.
#[inline(always)]
fn from_segment(tables: &[FromTable], at: Address) -> Option<FromSegment>
    requires { length tables.now ≡ 64 }
    ensures { result ≡ from_in tables.now at }
{
    let from = tables[at.thread() as usize].entry(at.segment() as usize)?;
    if at.offset() < from.size {
        Some(from)
    } else {
        None
    }
}

/// Where an object of a generation goes, be it collected or not.
#[inline(always)]
pub(crate) fn target_in(targets: Targets, generation: u8) -> u8
    requires { targets.min ≤ targets.max }
    ensures { result ≡ target_of targets generation }
{
    if generation < targets.max {
        (generation + 1).max(targets.min)
    } else {
        targets.max
    }
}

impl Directory {
    /// The directory of territories that have begun a collection with these targets. Takes memory for a table
    /// of each thread with from-segments, which is as long as the greatest of their numbers; no segment is
    /// looked at twice.
    pub fn new(
        alloc: Global,
        territories: &[Territory],
        targets: Targets,
        sweepers: u32,
    ) -> Result<Directory, AllocError>
        requires threads { AreOfThreads territories.now }
        requires begun { HaveBegun territories.now targets }
        requires sweepers_in { (1 ≤ sweepers) × (sweepers ≤ 64) }
        requires least { targets.cg ≤ targets.min }
        requires greatest { targets.min ≤ targets.max }
        requires generations { targets.max ≤ 8 }
        ensures targets { IfOk result (λ d. d.targets ≡ targets) }
        ensures sweepers { IfOk result (λ d. sweeper_count d ≡ sweepers) }
        ensures segments { IfOk result (λ d. (a : ℕ) → shown (from_at d a) ≡ aside_at territories.now a) }
        ensures own { IfOk result HasOwnWords }
        ensures apart { IfOk result TellsApart }
    {
        let mut tables = empty_tables(alloc)?;
        let mut ranges = Vec::new(alloc);
        let mut firsts = Vec::new(alloc);
        let mut word = 1;
        for sweeper in 0..sweepers {
            let next = number_threads(alloc, territories, &mut tables, sweeper, sweepers, word)?;
            firsts.push(word)?;
            ranges.push(next - word)?;
            word = next;
        }
        let reach = reach_of(&tables);
        Ok(Directory {
            targets,
            ranges,
            firsts,
            tables,
            reach,
        })
    }

    /// How many sweepers there are, from 1 to 64.
    pub fn sweepers(&self) -> u32
        ensures value { result ≡ sweeper_count self.now }
        ensures range { (1 ≤ result) × (result ≤ 64) }
    {
        self.ranges.len() as u32
    }

    /// The greatest generation that is collected.
    pub fn cg(&self) -> u8
        ensures value { result ≡ self.now.targets.cg }
        ensures range { result ≤ 8 }
    {
        self.targets.cg
    }

    /// From the first collected address to the last.
    #[inline(always)]
    pub fn reach(&self) -> Reach
        ensures { Reaches result self.now }
    {
        self.reach
    }

    /// What is told of an address, by one look-up: None exactly where it lies in no from-segment. Asked of each
    /// reference that a collection looks at.
    #[inline(always)]
    pub fn find(&self, at: Address) -> Option<Found>
        ensures value { result ≡ found_at self.now at }
        ensures range { IfSome result (λ f. IsWithin self.now.ranges (owner_in self.now at) f.word) }
        ensures own { HasOwnWords self.now }
        ensures apart { TellsApart self.now }
    {
        let from = from_segment(&self.tables, at)?;
        Some(Found {
            generation: from.generation,
            word: from.word(at.offset()),
        })
    }

    /// Whether an address lies in a from-segment.
    #[inline(always)]
    pub fn collected(&self, at: Address) -> bool
        ensures { IsTrue result ↔ IsCollected self.now at }
    {
        from_segment(&self.tables, at).is_some()
    }

    /// The generation of the from-segment in which an address lies.
    #[inline(always)]
    pub fn generation(&self, at: Address) -> u8
        requires { IsCollected self.now at }
        ensures { IfSome (from_at self.now at) (λ from. result ≡ from.generation) }
    {
        let Some(from) = from_segment(&self.tables, at) else {
            unreachable!()
        };
        from.generation
    }

    /// Where an object of a collected generation goes: to the next generation, but at least to `min` and at
    /// most to `max` of the targets.
    #[inline(always)]
    pub fn target(&self, generation: u8) -> u8
        requires { generation ≤ self.now.targets.cg }
        ensures value { result ≡ target_of self.now.targets generation }
        ensures range { result ≤ 8 }
    {
        target_in(self.targets, generation)
    }

    /// The word of a collected address. It lies in its owner's range, and no two possible starts have the
    /// same one.
    pub fn word_of(&self, at: Address) -> usize
        requires { IsCollected self.now at }
        ensures value { result ≡ word_in self.now at }
        ensures range { IsWithin self.now.ranges (owner_in self.now at) result }
        ensures own { HasOwnWords self.now }
        ensures apart { TellsApart self.now }
    {
        let Some(from) = from_segment(&self.tables, at) else {
            unreachable!()
        };
        from.word(at.offset())
    }

    /// The first word of a sweeper. Word 0 is no one's; those of sweeper 0 begin at word 1, and those of any
    /// other after those of the sweeper before it.
    pub fn first_word(&self, sweeper: u32) -> usize
        requires { sweeper < sweeper_count self.now }
        ensures { result ≡ start_of self.now.ranges sweeper }
    {
        self.firsts[sweeper as usize]
    }

    /// How many words a sweeper has: they are as many from its first one on.
    pub fn range(&self, sweeper: u32) -> usize
        requires { sweeper < sweeper_count self.now }
        ensures value { result ≡ slice_index self.now.ranges sweeper }
        ensures next { start_of self.now.ranges (sweeper + 1) ≡ start_of self.now.ranges sweeper + result }
        ensures fits { start_of self.now.ranges (sweeper + 1) < 2 ^ 64 }
        ensures own { HasOwnWords self.now }
        ensures apart { TellsApart self.now }
    {
        self.ranges[sweeper as usize]
    }
}
