//! The heap: its parts, and the calls that look at no object.

ghost use Rattle.std.specs.Prelude.{◌≡◌, ◌≢◌, ◌↔◌, ◌<◌, ◌≤◌, true, false, length, Ok, Err, IfOk, OnOk, OnErr, IsTrue};
ghost use Rattle.trace_types.specs.States.{opening};
ghost use Rattle.trace_types.specs.Steps.{step};
ghost use Rattle.trace_types.specs.WellFormed.{greatest_line, operand_fits};
ghost use Rattle.gc_words.specs.declared.value.Value.{Value};
ghost use Rattle.heap_store.specs.Changes.{HaveSoundCards};
ghost use Rattle.heap_store.specs.Stands.{Stands};
ghost use Rattle.heap_store.specs.Calls.{Performs, PerformsOnAnyLine, IsLeft, IsValid, operand_value};
ghost use Rattle.heap_store.specs.Opening.{AreNew};
ghost use Rattle.heap_store.specs.Used.{HoldNoneFrom};

use crate::error::HeapError;
use crate::locks::Locks;
use crate::notes::Notes;
use crate::registers::Registers;
use crate::registry::Registry;
use gc_words::Value;
use std::alloc::{AllocError, Global};
use std::marker::Model;
use territory::Territory;
use trace_types::{Command, Fault, Operand, Register};

/// The objects of 64 threads, and what refers to them.
#[derive(Drop)]
pub struct Heap {
    pub(crate) failed: bool,
    /// The newest line that the heap was given, 0 at first.
    pub(crate) last: u32,
    pub(crate) territories: Vec<Territory>,
    pub(crate) registers: Registers,
    pub(crate) locks: Locks,
    pub(crate) notes: Notes,
    pub(crate) registry: Registry,
    pub(crate) thread: u8,
    pub(crate) collects: u64,
    pub(crate) generations: u8,
    pub(crate) version: u8,
}

impl Model for Heap {
    ghost use Rattle.std.specs.Prelude.{◌≡◌, false};
    ghost use Rattle.heap_store.specs.HeapView.{HeapView};
    ghost use Rattle.heap_store.specs.Calls.{IsValid};
    ghost use Rattle.std.specs.Coded.{codes};
    ghost use Rattle.territory.specs.Territories.{coded_territory};

    ghost Value = { HeapView };

    ghost coded = { Prim.hlevel (codes, coded_territory) };

    ghost view = { λ h. record {
      failed = h.failed;
      last = h.last;
      territories = h.territories.items;
      registers = h.registers;
      locks = h.locks;
      notes = h.notes;
      registry = h.registry;
      thread = h.thread;
      collects = h.collects;
      oldest = h.generations;
      version = h.version;
    } };

    ghost invariant = { λ h. h.failed ≡ false → IsValid (record {
      failed = h.failed;
      last = h.last;
      territories = h.territories.items;
      registers = h.registers;
      locks = h.locks;
      notes = h.notes;
      registry = h.registry;
      thread = h.thread;
      collects = h.collects;
      oldest = h.generations;
      version = h.version;
    }) };
}

// A territory for each thread.
fn new_territories(alloc: Global) -> Result<Vec<Territory>, AllocError>
    ensures { IfOk result (λ v. AreNew v.items 64) }
{
    let mut territories = Vec::new(alloc);
    for thread in 0..64u8 {
        territories.push(Territory::new(alloc, thread)?)?;
    }
    Ok(territories)
}

impl Heap {
    /// An empty heap with the generations 0 to `generations`, 1 to 7, beside the static one. Takes memory.
    pub fn new(alloc: Global, generations: u8) -> Result<Heap, AllocError>
        requires { (1 ≤ generations) × (generations ≤ 7) }
        ensures opening { IfOk result (λ h. Stands h (opening generations)) }
        ensures cards { IfOk result (λ h. HaveSoundCards h.territories) }
        ensures last { IfOk result (λ h. h.last ≡ 0) }
    {
        let territories = new_territories(alloc)?;
        let registers = Registers::new(alloc)?;
        let notes = Notes::new(alloc)?;
        Ok(Heap {
            failed: false,
            last: 0,
            territories,
            registers,
            locks: Locks::new(alloc),
            notes,
            registry: Registry::new(alloc),
            thread: 0,
            collects: 0,
            generations,
            version: 1,
        })
    }

    /// Whether a call ran out of memory, or the parts are taken out. Every call that answers a `HeapError`
    /// answers `Failed` then.
    pub fn failed(&self) -> bool
        ensures { result ≡ self.now.failed }
    {
        self.failed
    }

    /// Makes the heap one that has failed.
    pub fn fail(&mut self)
        ensures { self.new ≡ record self.old { failed = true } }
    {
        self.failed = true;
    }

    /// Makes this thread the creator of what is made from now on. Takes no memory, and has no fault.
    pub fn select_thread(&mut self, thread: u8) -> Result<(), HeapError>
        requires { thread ≤ 63 }
        ensures step { PerformsOnAnyLine self.old (λ s line. step s line (Command.Thread thread)) result self.new }
        ensures failed { (result ≡ Err HeapError.Failed) ↔ (self.old.failed ≡ true) }
        ensures no_memory { result ≢ Err HeapError.NoMemory }
        ensures left { IsLeft result self.old self.new }
        ensures objects { self.new.territories ≡ self.old.territories }
        ensures last { self.new.last ≡ self.old.last }
    {
        if self.failed {
            return Err(HeapError::Failed);
        }
        self.thread = thread;
        Ok(())
    }

    /// Puts a value into a register. Takes no memory, and has no fault.
    pub fn mov(&mut self, d: Register, value: Operand) -> Result<(), HeapError>
        requires { IsTrue (operand_fits value) }
        ensures step { PerformsOnAnyLine self.old (λ s line. step s line (Command.Mov d value)) result self.new }
        ensures failed { (result ≡ Err HeapError.Failed) ↔ (self.old.failed ≡ true) }
        ensures no_memory { result ≢ Err HeapError.NoMemory }
        ensures left { IsLeft result self.old self.new }
        ensures objects { self.new.territories ≡ self.old.territories }
        ensures last { self.new.last ≡ self.old.last }
    {
        if self.failed {
            return Err(HeapError::Failed);
        }
        let value = self.operand(value);
        self.registers.set(d, value);
        Ok(())
    }

    /// A bound on the registers that hold objects: no register from it on holds one. So who looks for objects need not
    /// look at all registers. It rises where a register gets an object, and `narrow_registers` lowers it.
    pub fn used_registers(&self) -> usize
        ensures within { result ≤ length self.now.registers }
        ensures none { HoldNoneFrom self.now.registers result }
    {
        self.registers.used()
    }

    /// Makes this the bound on the registers that hold objects. Takes no memory.
    pub fn narrow_registers(&mut self, used: usize)
        requires within { used ≤ length self.old.registers }
        requires none { HoldNoneFrom self.old.registers used }
        ensures { self.new ≡ self.old }
    {
        self.registers.narrow(used);
    }

    /// The value that the operand is, or that its register holds. Takes no memory, and has no fault.
    pub fn value_of(&self, value: Operand) -> Result<Value, HeapError>
        ensures value { IfOk result (λ v. v ≡ operand_value self.now.registers value) }
        ensures valid { OnOk result (IsValid self.now) }
        ensures failed { (result ≡ Err HeapError.Failed) ↔ (self.now.failed ≡ true) }
        ensures only_failed { OnErr result (self.now.failed ≡ true) }
    {
        if self.failed {
            return Err(HeapError::Failed);
        }
        Ok(self.operand(value))
    }

    /// The same, of a heap that has not failed.
    pub(crate) fn operand(&self, operand: Operand) -> Value
        requires { self.now.failed ≡ false }
        ensures { result ≡ operand_value self.now.registers operand }
    {
        match operand {
            Operand::Reg(register) => self.registers.get(register),
            Operand::Fixnum(number) => Value::Fixnum(number),
            Operand::Nil => Value::Nil,
            Operand::True => Value::True,
            Operand::False => Value::False,
        }
    }

    /// Makes the version 2, which only line 1 may do: on any other line it answers the fault
    /// `UnknownCommand`. Takes no memory.
    pub fn version_two(&mut self, line: u32) -> Result<(), HeapError>
        requires newer { self.old.last < line }
        requires line { line ≤ greatest_line }
        ensures step { Performs self.old (λ s. step s line Command.Version) result self.new }
        ensures failed { (result ≡ Err HeapError.Failed) ↔ (self.old.failed ≡ true) }
        ensures no_memory { result ≢ Err HeapError.NoMemory }
        ensures left { IsLeft result self.old self.new }
        ensures objects { self.new.territories ≡ self.old.territories }
        ensures last { self.new.last ≤ line }
    {
        if self.failed {
            return Err(HeapError::Failed);
        }
        if line != 1 {
            return Err(HeapError::Fault(Fault::UnknownCommand));
        }
        self.last = line;
        self.version = 2;
        Ok(())
    }
}
