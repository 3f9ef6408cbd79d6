//! The places of a sweeper's own objects.

ghost use Rattle.std.specs.Prelude.{◌≡◌, ◌+◌, ◌^◌, ◌<◌, ◌≤◌, ◌↔◌, [], ◌∷◌, ◌++◌, Contains, IfNone, IfOk, IfSome, IsTrue, MatchOption, OnErr, OnOk, length, replicate, Some};
ghost use Rattle.directory.specs.Directories.{sweeper_count, word_in};
ghost use Rattle.sweep_model.specs.Hands.{IsAbsent};
ghost use Rattle.directory.specs.Tables.{entry_at};
ghost use Rattle.gc_words.specs.Layout.{segment_of, thread_of};
ghost use Rattle.sweep_share.specs.Following.{AreItsWords, IsPairIn, share_trail};
ghost use Rattle.sweep_share.specs.Following.{HasTrail as HasShareTrail, IsTrail as IsShareTrail, IsTrailEnd as IsShareTrailEnd};
ghost use Rattle.sweep_share.specs.Shares.{start_in};
ghost use Rattle.sweep_places.specs.Following.{HasTrail, IsOneSweep, IsTrail, IsTrailEnd, part_at, sweep_of, with_part};
ghost use Rattle.sweep_places.specs.Places.{IsOwnStart};

use directory::{Directory, FromSegment};
use gc_words::{Address, Value, decode, encode};
use http_server::Log;
use std::alloc::AllocError;
use std::marker::Model;
use std::snapshot::Snapshot;
use sweep_share::Share;
use territory::{CopyLog, Followed};

/// What the table has for an object that was not forwarded. It is the word of a number.
const NO_PLACE: u64 = 0;

/// How many entries a from-segment of 512 words has: an object may start at each even offset.
const ENTRIES: usize = 256;

/// A table of places by word, and what is not swept.
#[derive(Drop)]
pub struct Places {
    number: u32,
    directory: Snapshot<Directory>,
    /// The first word of the sweeper's range.
    first: usize,
    /// For each word of the range what a field that referred to its object is to hold, or `NO_PLACE`.
    table: Vec<u64>,
    /// All objects that were forwarded, with their places, in that order; how many they are; and those of them that wait to
    /// be swept.
    log: CopyLog,
}

impl Model for Places {
    ghost use Rattle.std.specs.Prelude.{◌≡◌, length};
    ghost use Rattle.sweep_places.specs.Places.{ArePlaces, PlacesView};

    ghost Value = { PlacesView };

    ghost view = { λ p. record {
      number = p.number;
      directory = p.directory.value;
      own = p.log.own.items;
      unswept = p.log.waiting.items;
    } };

    ghost invariant = { λ p. ArePlaces p.directory.value p.number p.first p.table.items p.log.own.items
        × (p.log.count ≡ length p.log.own.items) };
}

/// A table of objects that were not forwarded, in this memory, whatever it holds. Takes more where it has no room for it.
fn empty_table(memory: Vec<u64>, count: usize) -> Result<Vec<u64>, AllocError>
    ensures { IfOk result (λ v. v.items ≡ replicate count 0) }
{
    let mut table = memory;
    table.clear();
    table.resize(count, NO_PLACE)?;
    Ok(table)
}

/// One more. Err where a `u64` doesn't count so far.
fn one_more(count: u64) -> Result<u64, AllocError>
    ensures value { IfOk result (λ n. n ≡ count + 1) }
    ensures few { IfOk result (λ n. n < 2 ^ 64) }
{
    count.checked_add(1).ok_or(AllocError)
}

/// Goes from pair to pair as the share's `follow` does, by the entries of the from-segment alone: those from one on.
#[inline(always)]
fn follow_at(
    share: &mut Share,
    object: Address,
    copy: Address,
    table: &mut [u64],
    entry: usize,
    log: &mut CopyLog,
) -> Result<Followed, AllocError>
    requires object { IsPairIn share.old object }
    requires copy { IsPairIn share.old copy }
    requires thread { thread_of copy ≡ thread_of object }
    requires inside { entry + 256 ≤ length table.old }
    requires count { log.old.count ≡ length log.old.own.items }
    ensures trail { IfOk result (λ e. IfSome (start_in share.old copy) (λ y. IsShareTrail y.generation
        (share_trail share.old (part_at table.old entry) log.old.own.items log.old.waiting.items) object copy
        (share_trail share.new (part_at table.new entry) log.new.own.items log.new.waiting.items) e.object e.copy e.car_swept)) }
    ensures ends { IfOk result (λ e. IsShareTrailEnd
        (share_trail share.new (part_at table.new entry) log.new.own.items log.new.waiting.items) e.object e.car_swept) }
    ensures words { IfOk result (λ e. AreItsWords share.new e.object e.car e.cdr) }
    ensures anyhow { IfSome (start_in share.old copy) (λ y. HasShareTrail y.generation
        (share_trail share.old (part_at table.old entry) log.old.own.items log.old.waiting.items) object copy
        (share_trail share.new (part_at table.new entry) log.new.own.items log.new.waiting.items)) }
    ensures around { table.new ≡ with_part table.old entry (part_at table.new entry) }
    ensures count { log.new.count ≡ length log.new.own.items }
{
    share.follow(object, copy, &mut table[entry..entry + ENTRIES], log)
}

impl Places {
    /// Places of which none is known yet, for a sweeper of this directory. Their table, of a word for each of the
    /// sweeper's, stands in this memory, whatever it holds. Takes more where it has no room for the table.
    pub fn new(directory: &Directory, number: u32, memory: Vec<u64>) -> Result<Places, AllocError>
        requires { number < sweeper_count directory.now }
        ensures { IfOk result (λ p. p ≡ record { number = number; directory = directory.now; own = []; unswept = [] }) }
    {
        let alloc = *memory.allocator();
        let first = directory.first_word(number);
        let table = empty_table(memory, directory.range(number))?;
        Ok(Places {
            number,
            directory: Snapshot::of(directory),
            first,
            table,
            log: CopyLog {
                own: Log::new(),
                count: 0,
                waiting: Vec::new(alloc),
            },
        })
    }

    /// The memory of their table, whatever it holds, for the places of a later collection.
    pub fn into_memory(self) -> Vec<u64> {
        self.table
    }

    /// How many objects were forwarded.
    pub fn len(&self) -> u64
        ensures { result ≡ length self.now.own }
    {
        self.log.count
    }

    /// The place of an object of its own, of which `word` is the word in the directory. None exactly where it was not
    /// forwarded.
    #[inline(always)]
    pub fn place_of(&self, at: Address, word: usize) -> Option<Address>
        requires word_is { word ≡ word_in self.now.directory at }
        requires own { IsOwnStart self.now.directory self.now.number at }
        ensures { MatchOption result (IsAbsent self.now.own at) (λ place. Contains self.now.own (at, place)) }
    {
        match decode(self.table[word - self.first])? {
            Value::Object(place) => Some(place),
            _ => None,
        }
    }

    /// Whether an object of its own, of which `word` is the word in the directory, was not forwarded.
    #[inline(always)]
    pub fn is_absent(&self, at: Address, word: usize) -> bool
        requires word_is { word ≡ word_in self.now.directory at }
        requires own { IsOwnStart self.now.directory self.now.number at }
        ensures { IsTrue result ↔ IsAbsent self.now.own at }
    {
        self.table[word - self.first] == NO_PLACE
    }

    /// Puts the place of an object of its own into the table, as the last of so many.
    #[inline(always)]
    fn enter(&mut self, at: Address, word: usize, place: Address, count: u64)
        requires word_is { word ≡ word_in self.old.directory at }
        requires own { IsOwnStart self.old.directory self.old.number at }
        requires absent { IsAbsent self.old.own at }
        requires count { count ≡ length self.old.own + 1 }
        ensures { self.new ≡ record self.old { own = self.old.own ++ (at, place) ∷ [] } }
    {
        self.log.own = self.log.own.and(&at, &place);
        let entry = word - self.first;
        self.table[entry] = encode(Value::Object(place));
        self.log.count = count;
    }

    /// Notes the place of an object of its own, which was not forwarded before and is to be swept. Err where memory is
    /// refused, or where there would be more objects than a `u64` counts; it changes nothing.
    #[inline(always)]
    pub fn note(&mut self, at: Address, word: usize, place: Address) -> Result<(), AllocError>
        requires word_is { word ≡ word_in self.old.directory at }
        requires own { IsOwnStart self.old.directory self.old.number at }
        requires absent { IsAbsent self.old.own at }
        ensures ok { OnOk result (self.new ≡ record self.old {
          own = self.old.own ++ (at, place) ∷ [];
          unswept = self.old.unswept ++ (at, place) ∷ [];
        }) }
        ensures few { OnOk result (length self.old.own + 1 < 2 ^ 64) }
        ensures err { OnErr result (self.new ≡ self.old) }
    {
        let count = one_more(self.log.count)?;
        self.log.waiting.push((at, place))?;
        self.enter(at, word, place, count);
        Ok(())
    }

    /// The same for an object that the caller sweeps now, as if it had taken it at once. Takes no memory: Err only where
    /// there would be more objects than a `u64` counts; it changes nothing.
    #[inline(always)]
    pub fn note_taken(&mut self, at: Address, word: usize, place: Address) -> Result<(), AllocError>
        requires word_is { word ≡ word_in self.old.directory at }
        requires own { IsOwnStart self.old.directory self.old.number at }
        requires absent { IsAbsent self.old.own at }
        ensures ok { OnOk result (self.new ≡ record self.old { own = self.old.own ++ (at, place) ∷ [] }) }
        ensures few { OnOk result (length self.old.own + 1 < 2 ^ 64) }
        ensures err { OnErr result (self.new ≡ self.old) }
    {
        let count = one_more(self.log.count)?;
        self.enter(at, word, place, count);
        Ok(())
    }

    /// Goes from pair to pair in one from-segment of 512 words, from one on whose copy is known, as far as it can: each
    /// object that is copied on the way is forwarded, and what a car refers to is to be swept. Where a cdr refers to no
    /// object, the one that was forwarded last of those that are not swept may be taken. It ends exactly where a cdr
    /// refers to no pair of the from-segment that was not forwarded, or a car to another object; the words of the pair at
    /// which it ends are told. Takes memory. Err where it is refused, or where there would be more objects than a `u64`
    /// counts: what was forwarded until then is right.
    #[inline(always)]
    pub fn follow(
        &mut self,
        share: &mut Share,
        object: Address,
        copy: Address,
        from: FromSegment,
    ) -> Result<Followed, AllocError>
        requires one { IsOneSweep share.old self.old }
        requires from { entry_at self.old.directory.tables (thread_of object) (segment_of object) ≡ Some from }
        requires shared { from.size ≡ 512 }
        requires object { IsPairIn share.old object }
        requires copy { IsPairIn share.old copy }
        requires thread { thread_of copy ≡ thread_of object }
        ensures trail { IfOk result (λ e. IfSome (start_in share.old copy) (λ y. IsTrail y.generation
            (sweep_of share.old self.old) object copy (sweep_of share.new self.new) e.object e.copy e.car_swept)) }
        ensures ends { IfOk result (λ e. IsTrailEnd (sweep_of share.new self.new) e.object e.car_swept) }
        ensures words { IfOk result (λ e. AreItsWords share.new e.object e.car e.cdr) }
        ensures anyhow { IfSome (start_in share.old copy) (λ y. HasTrail y.generation
            (sweep_of share.old self.old) object copy (sweep_of share.new self.new)) }
    {
        let entry = from.first_word - self.first;
        let followed = follow_at(share, object, copy, &mut self.table, entry, &mut self.log);
        // A `u64` counts the objects.
        let _count = self.log.count;
        followed
    }

    /// Takes the object that was forwarded last of those that are not swept, with its place, to be swept. None exactly
    /// where all are swept.
    #[inline(always)]
    pub fn take_unswept(&mut self) -> Option<(Address, Address)>
        ensures some { IfSome result (λ f. self.old.unswept ≡ self.new.unswept ++ f ∷ []) }
        ensures none { IfNone result (self.old.unswept ≡ []) }
        ensures same { IfNone result (self.new ≡ self.old) }
        ensures rest { self.new ≡ record self.old { unswept = self.new.unswept } }
    {
        self.log.waiting.pop()
    }
}
