//! The parts of a heap, which a collection takes out and puts back.

ghost use Rattle.std.specs.Prelude.{◌≡◌, ◌≤◌, true, false, slice_get, Some};
ghost use Rattle.heap_store.specs.Parts.{seen_parts};
ghost use Rattle.heap_store.specs.Calls.{IsValid};

use crate::heap::Heap;
use crate::locks::Locks;
use crate::notes::Notes;
use crate::registers::Registers;
use crate::registry::Registry;
use gc_words::Value;
use std::mem;
use territory::Territory;

/// What a heap is made of.
#[derive(Drop)]
pub struct Parts {
    /// Those of threads 0 to 63, in this order.
    pub territories: Vec<Territory>,
    /// What each of the 4,096 registers holds.
    pub registers: Vec<Value>,
    pub locks: Locks,
    pub notes: Notes,
    pub registry: Registry,
    /// How many collections without arguments there were.
    pub collects: u64,
    /// The current thread.
    pub thread: u8,
    /// The oldest generation that is collected.
    pub generations: u8,
    pub version: u8,
    /// The newest line that the heap was given.
    pub last: u32,
}

impl Heap {
    /// The objects of one thread.
    pub fn territory(&self, thread: u8) -> &Territory
        requires alive { self.now.failed ≡ false }
        requires thread { thread ≤ 63 }
        ensures lends { slice_get self.now.territories thread ≡ Some result.now }
        ensures valid { IsValid self.now }
    {
        &self.territories[usize::from(thread)]
    }

    /// Hands over all parts. The heap has failed then, until it gets parts again. Takes no memory.
    pub fn take_parts(&mut self) -> Parts
        requires alive { self.old.failed ≡ false }
        ensures parts { seen_parts result ≡ self.old }
        ensures valid { IsValid (seen_parts result) }
        ensures failed { self.new.failed ≡ true }
        ensures last { self.new.last ≡ self.old.last }
    {
        let alloc = *self.territories.allocator();
        self.failed = true;
        Parts {
            territories: mem::replace(&mut self.territories, Vec::new(alloc)),
            registers: mem::replace(&mut self.registers, Registers::none(alloc)).into_values(),
            locks: mem::replace(&mut self.locks, Locks::new(alloc)),
            notes: mem::replace(&mut self.notes, Notes::none(alloc)),
            registry: mem::replace(&mut self.registry, Registry::new(alloc)),
            collects: self.collects,
            thread: self.thread,
            generations: self.generations,
            version: self.version,
            last: self.last,
        }
    }

    /// Makes the heap the one of these parts, which has not failed. Takes no memory.
    pub fn put_parts(&mut self, parts: Parts)
        requires valid { IsValid (seen_parts parts) }
        ensures { self.new ≡ seen_parts parts }
    {
        self.territories = parts.territories;
        self.registers = Registers::from_values(parts.registers);
        self.locks = parts.locks;
        self.notes = parts.notes;
        self.registry = parts.registry;
        self.collects = parts.collects;
        self.thread = parts.thread;
        self.generations = parts.generations;
        self.version = parts.version;
        self.last = parts.last;
        self.failed = false;
    }
}
