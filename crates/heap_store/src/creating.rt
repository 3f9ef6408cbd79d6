//! The calls that make an object.

ghost use Rattle.std.specs.Prelude.{◌≡◌, ◌==◌, ◌↔◌, ◌<◌, ◌≤◌, if◌then◌else◌, true, false, Ok, Err, OnOk, OnErr, IsTrue};
ghost use Rattle.trace_types.specs.Steps.{step};
ghost use Rattle.trace_types.specs.WellFormed.{greatest_line, operand_fits};
ghost use Rattle.heap_store.specs.Starts.{Keeps, IsLaidOut};
ghost use Rattle.heap_store.specs.Shapes.{start_of, HasSize};
ghost use Rattle.heap_store.specs.HeapView.{starts_of};
ghost use Rattle.heap_store.specs.Plain.{is_plain};
ghost use Rattle.heap_store.specs.Changes.{HaveSoundCards};
ghost use Rattle.heap_store.specs.Calls.{Performs, IsLeft, HasMade};

use crate::error::HeapError;
use crate::heap::Heap;
use crate::shape::{Shape, make_object};
use gc_words::{Value, encode};
use trace_types::{Command, Fault, Kind, Operand, Register};

impl Heap {
    /// Makes a pair on this line, and puts it into a register. Takes memory; refused, the heap has failed.
    pub fn cons(
        &mut self,
        line: u32,
        d: Register,
        car: Operand,
        cdr: Operand,
    ) -> Result<(), HeapError>
        requires newer { self.old.last < line }
        requires line { line ≤ greatest_line }
        requires car { IsTrue (operand_fits car) }
        requires cdr { IsTrue (operand_fits cdr) }
        ensures step { Performs self.old (λ s. step s line (Command.Cons d car cdr)) result self.new }
        ensures failed { (result ≡ Err HeapError.Failed) ↔ (self.old.failed ≡ true) }
        ensures left { IsLeft result self.old self.new }
        ensures kept { OnOk result (Keeps (starts_of self.old) (starts_of self.new)) }
        ensures cards { OnOk result (HaveSoundCards self.new.territories) }
        ensures last { self.new.last ≤ line }
    {
        if self.failed {
            return Err(HeapError::Failed);
        }
        let first = encode(self.operand(car));
        let second = encode(self.operand(cdr));
        let pair = Shape::Two {
            kind: Kind::Pair,
            first,
            second,
        };
        self.make(line, d, pair)
    }

    /// Makes a box on this line, and puts it into a register. Takes memory; refused, the heap has failed.
    pub fn make_box(&mut self, line: u32, d: Register, value: Operand) -> Result<(), HeapError>
        requires newer { self.old.last < line }
        requires line { line ≤ greatest_line }
        requires value { IsTrue (operand_fits value) }
        ensures step { Performs self.old (λ s. step s line (Command.MakeBox d value)) result self.new }
        ensures failed { (result ≡ Err HeapError.Failed) ↔ (self.old.failed ≡ true) }
        ensures left { IsLeft result self.old self.new }
        ensures kept { OnOk result (Keeps (starts_of self.old) (starts_of self.new)) }
        ensures cards { OnOk result (HaveSoundCards self.new.territories) }
        ensures last { self.new.last ≤ line }
    {
        if self.failed {
            return Err(HeapError::Failed);
        }
        let word = encode(self.operand(value));
        let boxed = Shape::Filled {
            kind: Kind::Boxed,
            length: 1,
            word,
        };
        self.make(line, d, boxed)
    }

    /// Makes a vector of so many times the value on this line, and puts it into a register. Takes memory;
    /// refused, the heap has failed. A length above 1,000,000, or 4,000,000 in version 2, is the fault
    /// `BadLength`.
    pub fn vector(
        &mut self,
        line: u32,
        d: Register,
        length: u32,
        value: Operand,
    ) -> Result<(), HeapError>
        requires newer { self.old.last < line }
        requires line { line ≤ greatest_line }
        requires value { IsTrue (operand_fits value) }
        ensures step { Performs self.old (λ s. step s line (Command.Vector d length value)) result self.new }
        ensures failed { (result ≡ Err HeapError.Failed) ↔ (self.old.failed ≡ true) }
        ensures left { IsLeft result self.old self.new }
        ensures kept { OnOk result (Keeps (starts_of self.old) (starts_of self.new)) }
        ensures cards { OnOk result (HaveSoundCards self.new.territories) }
        ensures last { self.new.last ≤ line }
    {
        if self.failed {
            return Err(HeapError::Failed);
        }
        if length > self.greatest_length() {
            return Err(HeapError::Fault(Fault::BadLength));
        }
        let word = encode(self.operand(value));
        let vector = Shape::Filled {
            kind: Kind::Vector,
            length,
            word,
        };
        self.make(line, d, vector)
    }

    /// Makes a byte object of so many times the byte on this line, and puts it into a register. Takes
    /// memory; refused, the heap has failed. A length above 1,000,000, or 4,000,000 in version 2, is the
    /// fault `BadLength`.
    pub fn bytes(&mut self, line: u32, d: Register, length: u32, byte: u8) -> Result<(), HeapError>
        requires newer { self.old.last < line }
        requires line { line ≤ greatest_line }
        ensures step { Performs self.old (λ s. step s line (Command.Bytes d length byte)) result self.new }
        ensures failed { (result ≡ Err HeapError.Failed) ↔ (self.old.failed ≡ true) }
        ensures left { IsLeft result self.old self.new }
        ensures kept { OnOk result (Keeps (starts_of self.old) (starts_of self.new)) }
        ensures cards { OnOk result (HaveSoundCards self.new.territories) }
        ensures last { self.new.last ≤ line }
    {
        if self.failed {
            return Err(HeapError::Failed);
        }
        if length > self.greatest_length() {
            return Err(HeapError::Fault(Fault::BadLength));
        }
        let bytes = Shape::Packed {
            kind: Kind::Bytes,
            length,
            byte,
        };
        self.make(line, d, bytes)
    }

    /// The most fields or bytes of a new object.
    fn greatest_length(&self) -> u32
        ensures value { result ≡ (if self.now.version == 2 then 4000000 else 1000000) }
        ensures range { result ≤ 4000000 }
    {
        if self.version == 2 { 4000000 } else { 1000000 }
    }

    /// Makes an object of a plain kind for the current thread, whose birth is the line, and puts it into a
    /// register.
    fn make(&mut self, line: u32, d: Register, shape: Shape) -> Result<(), HeapError>
        requires alive { self.old.failed ≡ false }
        requires newer { self.old.last < line }
        requires line { line ≤ greatest_line }
        requires sized { HasSize shape }
        requires laid_out { IsLaidOut (starts_of self.old) (start_of line shape) }
        requires plain { is_plain (start_of line shape).kind ≡ true }
        ensures stands { OnOk result (HasMade self.old self.new (start_of line shape) line d) }
        ensures kept { OnOk result (Keeps (starts_of self.old) (starts_of self.new)) }
        ensures cards { OnOk result (HaveSoundCards self.new.territories) }
        ensures refused { OnErr result ((result ≡ Err HeapError.NoMemory) × (self.new.failed ≡ true)) }
        ensures last { self.new.last ≤ line }
    {
        let territory = &mut self.territories[usize::from(self.thread)];
        match make_object(territory, line, shape) {
            Ok(at) => {
                self.last = line;
                self.registers.set(d, Value::Object(at));
                Ok(())
            }
            Err(_) => {
                self.failed = true;
                Err(HeapError::NoMemory)
            }
        }
    }
}
