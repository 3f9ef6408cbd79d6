//! The share of a sweeper.

ghost use Rattle.std.specs.Prelude.{◌≡◌, ◌≢◌, ◌+◌, ◌/◌, ◌%◌, ◌<◌, ◌≤◌, ◌↔◌, IfNone, IfOk, IfSome, IsSome, IsTrue, length, replicate};
ghost use Rattle.trace_types.specs.declared.kind.Kind.TheVariants.{Pair};
ghost use Rattle.gc_mail.specs.Recipients.{owner};
ghost use Rattle.gc_words.specs.Layout.{thread_of};
ghost use Rattle.territory.specs.Territories.{words_of};
ghost use Rattle.sweep_share.specs.Shares.{AreFinished, AreIndicesOf, AreRaised, AreShareOf, IsCopied, IsPairOf, IsPut, IsRaised, IsShare, start_in, territory_at, territory_of};
ghost use Rattle.sweep_share.specs.Following.{AreItsWords, HasTrail, IsPairIn, IsTrail, IsTrailEnd, share_trail};

use gc_words::Address;
use std::alloc::{AllocError, Global};
use std::marker::Model;
use territory::{CopyLog, Followed, Territory};
use trace_types::Kind;

/// What stands in place of an index where a thread is another sweeper's. An index is below 64.
const NOT_OWN: u8 = 255;

/// The territories of the threads that leave `number` when divided by `sweepers`.
#[derive(Drop)]
pub struct Share {
    number: u32,
    sweepers: u32,
    /// For each thread the index of its territory, or `NOT_OWN`: an access by address divides nothing.
    indices: Vec<u8>,
    territories: Vec<Territory>,
}

impl Model for Share {
    ghost use Rattle.sweep_share.specs.Shares.{AreIndicesOf, AreShareOf, ShareView, coded_share};

    ghost Value = { ShareView };

    ghost coded = { coded_share };

    ghost view = { λ s. record { number = s.number; sweepers = s.sweepers; territories = s.territories.items } };

    ghost invariant = { λ s. AreShareOf s.number s.sweepers s.territories.items
        × AreIndicesOf s.number s.sweepers s.indices.items };
}

/// `NOT_OWN` for each thread.
fn none_own(alloc: Global) -> Result<Vec<u8>, AllocError>
    ensures { IfOk result (λ v. v.items ≡ replicate 64 255) }
{
    vec![in alloc; NOT_OWN; 64]
}

/// For each thread the index of its territory in the share of this sweeper, or `NOT_OWN`. Takes memory.
fn indices_of(alloc: Global, number: u32, sweepers: u32) -> Result<Vec<u8>, AllocError>
    requires { 0 < sweepers }
    ensures { IfOk result (λ v. AreIndicesOf number sweepers v.items) }
{
    let mut indices = none_own(alloc)?;
    // No thread has such a remainder.
    if number >= sweepers {
        return Ok(indices);
    }
    let mut thread = number as usize;
    let mut index = 0;
    while thread < 64 {
        indices[thread] = index;
        index += 1;
        thread += sweepers as usize;
    }
    Ok(indices)
}

/// Raises the marks of at most `cg` in each of these.
fn raise_all(territories: &mut Vec<Territory>, cg: u8)
    requires { cg ≤ 8 }
    ensures { AreRaised cg territories.old.items territories.new.items }
{
    for i in 0..territories.len() {
        territories[i].raise_cards(cg);
    }
}

/// Ends the collection in each of these, with nothing kept in place.
fn finish_all(territories: &mut Vec<Territory>)
    ensures { AreFinished territories.old.items territories.new.items }
{
    for i in 0..territories.len() {
        territories[i].finish(&[]);
    }
}

impl Share {
    /// The share of these territories: those of the threads `number`, `number + sweepers` and so on, in this order. Takes
    /// memory for a table of the threads; where it is refused, the territories are dropped.
    pub fn new(
        alloc: Global,
        number: u32,
        sweepers: u32,
        territories: Vec<Territory>,
    ) -> Result<Share, AllocError>
        requires { AreShareOf number sweepers territories.items }
        ensures { IfOk result (λ s.
            s ≡ record { number = number; sweepers = sweepers; territories = territories.items }) }
    {
        let indices = indices_of(alloc, number, sweepers)?;
        Ok(Share {
            number,
            sweepers,
            indices,
            territories,
        })
    }

    /// How many territories there are.
    pub fn len(&self) -> usize
        ensures { result ≡ length self.now.territories }
    {
        self.territories.len()
    }

    /// The territory at an index.
    pub fn territory(&self, i: usize) -> &Territory
        requires { i < length self.now.territories }
        ensures { result.now ≡ territory_at self.now i }
    {
        &self.territories[i]
    }

    /// The territory of a thread of its own.
    pub fn of_thread(&self, thread: u8) -> &Territory
        requires within { thread < 64 }
        requires own { thread % self.now.sweepers ≡ self.now.number }
        ensures value { result.now ≡ territory_at self.now (thread / self.now.sweepers) }
        ensures thread { result.now.thread ≡ thread }
    {
        &self.territories[usize::from(self.indices[usize::from(thread)])]
    }

    /// Raises the marks of at most `cg` on the cards of generations above `cg`, as each territory does.
    pub fn raise_cards(&mut self, cg: u8)
        requires { cg ≤ 8 }
        ensures { IsRaised self.old self.new cg }
    {
        raise_all(&mut self.territories, cg);
    }

    /// Takes the memory that its first territory keeps from one collection to the next. Nothing is said of what the vector
    /// holds.
    pub fn take_spare(&mut self) -> Vec<u64>
        ensures { self.new ≡ self.old }
    {
        self.territories[0].take_spare()
    }

    /// Leaves memory with its first territory, for the next collection to take.
    pub fn leave_spare(&mut self, memory: Vec<u64>)
        ensures { self.new ≡ self.old }
    {
        self.territories[0].leave_spare(memory);
    }

    /// The number of the sweeper.
    pub fn number(&self) -> u32
        ensures { result ≡ self.now.number }
    {
        self.number
    }

    /// Whether the address belongs to one of its threads.
    #[inline(always)]
    pub fn is_own(&self, at: Address) -> bool
        ensures { IsTrue result ↔ (owner self.now.sweepers at ≡ self.now.number) }
    {
        self.indices[usize::from(at.thread())] != NOT_OWN
    }

    /// The index of the territory of an address of its own.
    #[inline(always)]
    fn index(&self, at: Address) -> usize
        requires { owner self.now.sweepers at ≡ self.now.number }
        ensures value { result ≡ thread_of at / self.now.sweepers }
        ensures within { result < length self.now.territories }
        ensures thread { thread_of at < 64 }
    {
        usize::from(self.indices[usize::from(at.thread())])
    }

    /// The territory of an address of its own.
    #[inline(always)]
    fn territory_of(&self, at: Address) -> &Territory
        requires { owner self.now.sweepers at ≡ self.now.number }
        ensures { result.now ≡ territory_of self.now at }
    {
        let i = self.index(at);
        &self.territories[i]
    }

    /// The kind of a start.
    #[inline(always)]
    pub fn kind(&self, at: Address) -> Kind
        requires { IsSome (start_in self.now at) }
        ensures { IfSome (start_in self.now at) (λ x. result ≡ x.kind) }
    {
        self.territory_of(at).kind(at)
    }

    /// Its length: fields, or bytes of a byte object; 0 of a guardian, 2 of a queue cell.
    #[inline(always)]
    pub fn length(&self, at: Address) -> u32
        requires { IsSome (start_in self.now at) }
        ensures { IfSome (start_in self.now at) (λ x. result ≡ x.length) }
    {
        self.territory_of(at).length(at)
    }

    /// All its words, after the header; for byte objects the bytes, eight a word.
    #[inline(always)]
    pub fn fields(&self, at: Address) -> &[u64]
        requires { IsSome (start_in self.now at) }
        ensures { result.now ≡ words_of (start_in self.now at) }
    {
        self.territory_of(at).fields(at)
    }

    /// The two words of a start that is a pair. None exactly where it is none.
    #[inline(always)]
    pub fn pair(&self, at: Address) -> Option<(u64, u64)>
        requires { IsSome (start_in self.now at) }
        ensures some { IfSome result (λ words. IsPairOf (start_in self.now at) words.0 words.1) }
        ensures none { IfNone result (IfSome (start_in self.now at) (λ x. x.kind ≢ Pair)) }
    {
        let territory = self.territory_of(at);
        let Kind::Pair = territory.kind(at) else {
            return None;
        };
        let fields = territory.fields(at);
        Some((fields[0], fields[1]))
    }

    /// Puts a word into a start, at an index that is counted after its header, and marks its card where `refers`, the
    /// generation of what the word refers to, is below that of the start. 255 stands for no reference.
    #[inline(always)]
    pub fn put(&mut self, at: Address, index: u32, word: u64, refers: u8)
        requires { index < length (words_of (start_in self.old at)) }
        ensures { IsPut self.old self.new at index word refers }
    {
        let i = self.index(at);
        self.territories[i].put(at, index, word, refers);
    }

    /// Makes a copy of a start in this generation, in the same thread, and gives its address. No card is marked. Takes
    /// memory.
    #[inline(always)]
    pub fn copy(&mut self, at: Address, generation: u8) -> Result<Address, AllocError>
        requires start { IsSome (start_in self.old at) }
        requires generation_in { generation ≤ 8 }
        ensures copied { IfOk result (λ q. IsCopied self.old self.new at generation q) }
        ensures number { self.new.number ≡ self.old.number }
        ensures sweepers { self.new.sweepers ≡ self.old.sweepers }
    {
        let i = self.index(at);
        let place = self.territories[i].copy(at, generation)?;
        Ok(place)
    }

    /// The same for a pair: with few look-ups where the open segment has room.
    #[inline(always)]
    pub fn copy_pair(&mut self, at: Address, generation: u8) -> Result<Address, AllocError>
        requires pair { IsPairIn self.old at }
        requires generation_in { generation ≤ 8 }
        ensures copied { IfOk result (λ q. IsCopied self.old self.new at generation q) }
        ensures number { self.new.number ≡ self.old.number }
        ensures sweepers { self.new.sweepers ≡ self.old.sweepers }
    {
        let i = self.index(at);
        let copy = self.territories[i].copy_pair(at, generation)?;
        Ok(copy)
    }

    /// Goes from pair to pair in one from-segment, from one on whose copy is known, as far as it can, as the territory's
    /// `follow` does. A field is swept where it refers to no object, or to a pair in the same segment that has no place
    /// yet, which is copied then. Where a cdr refers to no object, the pair that waits last may be taken. `places` has for
    /// each two words of the segment the word of the place of what starts there, or 0; the copies, and what waits to be
    /// swept, go to `log`. The words of the pair at which it ends are told. Takes memory. Err where it is refused, or where
    /// a `u64` doesn't count so many copies: what was copied until then is right.
    #[inline(always)]
    pub fn follow(
        &mut self,
        object: Address,
        copy: Address,
        places: &mut [u64],
        log: &mut CopyLog,
    ) -> Result<Followed, AllocError>
        requires object { IsPairIn self.old object }
        requires copy { IsPairIn self.old copy }
        requires thread { thread_of copy ≡ thread_of object }
        requires places { length places.old ≡ 256 }
        requires count { log.old.count ≡ length log.old.own.items }
        ensures trail { IfOk result (λ e. IfSome (start_in self.old copy) (λ y. IsTrail y.generation
            (share_trail self.old places.old log.old.own.items log.old.waiting.items) object copy
            (share_trail self.new places.new log.new.own.items log.new.waiting.items) e.object e.copy e.car_swept)) }
        ensures ends { IfOk result (λ e. IsTrailEnd
            (share_trail self.new places.new log.new.own.items log.new.waiting.items) e.object e.car_swept) }
        ensures words { IfOk result (λ e. AreItsWords self.new e.object e.car e.cdr) }
        ensures anyhow { IfSome (start_in self.old copy) (λ y. HasTrail y.generation
            (share_trail self.old places.old log.old.own.items log.old.waiting.items) object copy
            (share_trail self.new places.new log.new.own.items log.new.waiting.items)) }
        ensures count { log.new.count ≡ length log.new.own.items }
        ensures places { length places.new ≡ 256 }
    {
        let i = self.index(object);
        let followed = self.territories[i].follow(object, copy, places, log)?;
        Ok(followed)
    }

    /// Ends the collection in each of its territories, with nothing kept in place, and gives them, in the same order.
    /// Costs what `finish` of each costs.
    pub fn finish(self) -> Vec<Territory>
        ensures finished { AreFinished self.territories result.items }
        ensures share { IsShare self }
    {
        let mut territories = self.territories;
        finish_all(&mut territories);
        territories
    }
}
