//! The segments of one creator thread.

ghost use Rattle.std.specs.Prelude.{◌≡◌, ℕ, ◌<◌, ◌↔◌, ◌*◌, ◌/◌, Option, length, slice_index, IfOk, IfSome, IsSome, IsTrue};
ghost use Rattle.std.specs.FinMap as map;
ghost use Rattle.gc_words.specs.declared.address.TheConstants.{THREADS};
ghost use Rattle.gc_words.specs.Layout.{address_of, segment_of, offset_of};
ghost use Rattle.territory.specs.Territories.{no_territory, words_of, with_word, IsShaped, HaveAddresses, TellsLower, AreCardsSound};

mod allocating;
mod collecting;
mod copying;
mod finishing;
mod following;
mod listing;
mod olds;
mod spare;

use crate::pool::Pool;
use gc_words::{Address, THREADS};
use std::alloc::{AllocError, Global};
use std::marker::Model;
use trace_types::Kind;

/// What a collection does with generations: it collects those up to `cg`, and what it keeps of generation g
/// goes to generation min(max(g + 1, `min`), `max`).
#[derive(Clone, Copy, Debug, PartialEq, Eq)]
pub struct Targets {
    /// The greatest generation that is collected.
    pub cg: u8,
    /// The least generation to which an object may go.
    pub min: u8,
    /// The greatest.
    pub max: u8,
}

/// One thread's objects and queue cells by their addresses, and its segments.
#[derive(Drop)]
pub struct Territory {
    thread: u8,
    pool: Pool,
    /// Those of the last collection that began.
    targets: Targets,
    /// Memory that a collection left for the next, whatever it holds.
    spare: Vec<u64>,
}

impl Model for Territory {
    ghost use Rattle.std.specs.Prelude.{◌<◌};
    ghost use Rattle.gc_words.specs.declared.address.TheConstants.{THREADS};
    ghost use Rattle.territory.specs.Territories.{TerritoryView, coded_territory};
    ghost use Rattle.territory.specs.Pools.{IsSettled, AreUsed, territory_view};
    ghost use Rattle.territory.specs.FinishedPools.{IsBetween};

    ghost Value = { TerritoryView };

    ghost coded = { coded_territory };

    ghost view = { λ a. territory_view a.thread a.pool a.targets };

    ghost invariant = { λ a. (a.thread < THREADS) × IsSettled a.pool × AreUsed a.pool.segments
        × IsBetween a.pool.segments a.targets };
}

/// The number of the segment of an address, and the number of its start there: one for each two words.
#[inline(always)]
fn place(at: Address) -> (usize, usize)
    ensures segment { result.0 ≡ segment_of at }
    ensures start { result.1 ≡ offset_of at / 2 }
{
    (at.segment() as usize, at.offset() as usize / 2)
}

impl Territory {
    /// A territory with no start, no segment and no open area. Takes memory.
    pub fn new(alloc: Global, thread: u8) -> Result<Territory, AllocError>
        requires { thread < THREADS }
        ensures { IfOk result (λ t. t ≡ no_territory thread) }
    {
        let pool = Pool::new(alloc)?;
        let targets = Targets {
            cg: 0,
            min: 0,
            max: 0,
        };
        Ok(Territory {
            thread,
            pool,
            targets,
            spare: Vec::new(alloc),
        })
    }

    /// Whether an object or cell of this territory starts at the address.
    pub fn is_start(&self, at: Address) -> bool
        ensures { IsTrue result ↔ IsSome (map.get self.now.starts at) }
    {
        if at.thread() != self.thread {
            return false;
        }
        self.pool
            .is_start(at.segment() as usize, at.offset() as usize)
    }

    /// The kind of a start.
    #[inline(always)]
    pub fn kind(&self, at: Address) -> Kind
        requires { IsSome (map.get self.now.starts at) }
        ensures value { IfSome (map.get self.now.starts at) (λ x. result ≡ x.kind) }
        ensures shaped { IfSome (map.get self.now.starts at) IsShaped }
        ensures addresses { HaveAddresses self.now }
    {
        let (segment, start) = place(at);
        self.pool.segment(segment).kind(start)
    }

    /// Its length: fields, or bytes of a byte object; 0 of a guardian, 2 of a queue cell.
    #[inline(always)]
    pub fn length(&self, at: Address) -> u32
        requires { IsSome (map.get self.now.starts at) }
        ensures value { IfSome (map.get self.now.starts at) (λ x. result ≡ x.length) }
        ensures shaped { IfSome (map.get self.now.starts at) IsShaped }
    {
        let (segment, start) = place(at);
        self.pool.segment(segment).length(start) as u32
    }

    /// Its birth: the number of the line that made it; of a queue cell, of its registration.
    pub fn birth(&self, at: Address) -> u32
        requires { IsSome (map.get self.now.starts at) }
        ensures value { IfSome (map.get self.now.starts at) (λ x. result ≡ x.birth) }
        ensures shaped { IfSome (map.get self.now.starts at) IsShaped }
    {
        let (segment, start) = place(at);
        self.pool.segment(segment).birth(start)
    }

    /// Its generation, 0 to 8; of a start in a from-segment, the one it had.
    pub fn generation(&self, at: Address) -> u8
        requires { IsSome (map.get self.now.starts at) }
        ensures value { IfSome (map.get self.now.starts at) (λ x. result ≡ x.generation) }
        ensures shaped { IfSome (map.get self.now.starts at) IsShaped }
    {
        let (segment, _) = place(at);
        self.pool.segment(segment).generation()
    }

    /// A word of it, counted after the header.
    #[inline(always)]
    pub fn word(&self, at: Address, index: u32) -> u64
        requires { index < length (words_of (map.get self.now.starts at)) }
        ensures { result ≡ slice_index (words_of (map.get self.now.starts at)) index }
    {
        let (segment, start) = place(at);
        self.pool.segment(segment).word(start, index as usize)
    }

    /// All its words, after the header; for byte objects the bytes, eight a word.
    #[inline(always)]
    pub fn fields(&self, at: Address) -> &[u64]
        requires { IsSome (map.get self.now.starts at) }
        ensures { result.now ≡ words_of (map.get self.now.starts at) }
    {
        let (segment, start) = place(at);
        self.pool.segment(segment).fields(start)
    }

    /// Puts a word into a start, at an index that is counted after its header. `refers` is the generation of
    /// what the word refers to, or 255 where it refers to nothing or needs no mark. The card of the word is
    /// marked where `refers` is below the start's generation, and in a from-segment wherever it is not 255:
    /// the write barrier of a generational collector, with one byte for each 64 words.
    #[inline(always)]
    pub fn put(&mut self, at: Address, index: u32, word: u64, refers: u8)
        requires { index < length (words_of (map.get self.old.starts at)) }
        ensures after { self.new ≡ with_word self.old at index word refers }
        ensures sound { (generation_at : ℕ → Option ℕ)
            → TellsLower generation_at (map.get self.old.starts at) word refers
            → AreCardsSound generation_at self.old → AreCardsSound generation_at self.new }
    {
        let (segment, start) = place(at);
        self.pool.put(segment, start, index as usize, word, refers);
    }

    /// The address of start `k` of segment `n`.
    fn address(&self, n: usize, k: usize) -> Address
        requires within { n < length self.now.segments }
        requires start { k < 4194304 }
        ensures { result ≡ address_of self.now.thread n (2 * k) }
    {
        Address::at(self.thread, n as u64, 2 * k as u32)
    }
}
