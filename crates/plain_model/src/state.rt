//! The state of a trace.

ghost use Rattle.std.specs.Prelude.{◌≡◌, IfOk, OnOk, MatchOption, Some, None, replicate, map};
ghost use Rattle.trace_types.specs.Values as values;
ghost use Rattle.trace_types.specs.States as states;
ghost use Rattle.plain_model.specs.Plain.{meaning, note_meaning};

use crate::entries::{index_in_order, index_of, put_entry};
use crate::note::Note;
use crate::object::Object;
use crate::registration::Registration;
use crate::value::Value;
use std::alloc::{AllocError, Global};
use std::marker::Model;
use trace_types::{Kind, Operand, Register};

const REGISTERS: usize = 4096;

const NOTES: usize = 256;

/// The state of a trace.
#[derive(Drop)]
pub struct State {
    /// The objects by birth, in ascending order of births.
    pub(crate) graph: Vec<(u32, Object)>,
    /// What the 4,096 registers hold.
    pub(crate) registers: Vec<Value>,
    /// The lock counts above 0 by birth, in ascending order of births.
    pub(crate) locks: Vec<(u32, u32)>,
    /// The 256 notes.
    pub(crate) notes: Vec<Note>,
    /// The registrations, in ascending order of lines.
    pub(crate) registrations: Vec<Registration>,
    /// The current thread, from 0 to 63.
    pub(crate) thread: u8,
    /// How many `collect` lines without arguments were accepted.
    pub(crate) collects: u32,
    /// The oldest generation that is collected, from 1 to 7.
    pub(crate) oldest: u8,
    /// The version, 1 or 2.
    pub(crate) version: u8,
}

impl Model for State {
    ghost use Rattle.std.specs.Prelude.{◌≡◌, length, map, IsTrue};
    ghost use Rattle.std.specs.FinMap.{is_sorted};
    ghost use Rattle.std.specs.Ordering.{nat_cmp};
    ghost use Rattle.trace_types.specs.States as states;

    ghost Value = { states.State };

    ghost use Rattle.plain_model.specs.Plain.{meaning, note_meaning};

    ghost view = { λ s. record {
      graph = s.graph.items;
      registers = map meaning s.registers.items;
      locks = s.locks.items;
      notes = map note_meaning s.notes.items;
      registrations = s.registrations.items;
      thread = s.thread;
      collects = s.collects;
      oldest = s.oldest;
      version = s.version;
    } };

    ghost invariant = { λ s.
        (length s.registers.items ≡ 4096) × (length s.notes.items ≡ 256) × IsTrue (is_sorted nat_cmp s.graph.items) };
}

// So many registers that hold `nil`.
fn new_registers(alloc: Global, count: usize) -> Result<Vec<Value>, AllocError>
    ensures { IfOk result (λ v. v.items ≡ replicate count Value.Nil) }
{
    vec![in alloc; Value::Nil; count]
}

// So many empty notes.
fn new_notes(alloc: Global, count: usize) -> Result<Vec<Note>, AllocError>
    ensures { IfOk result (λ v. v.items ≡ replicate count Note.Empty) }
{
    vec![in alloc; Note::Empty; count]
}

impl State {
    /// Where a trace begins. `oldest` is the oldest generation that is collected.
    pub fn opening(alloc: Global, oldest: u8) -> Result<State, AllocError>
        ensures { IfOk result (λ s. s ≡ states.opening oldest) }
    {
        let registers = new_registers(alloc, REGISTERS)?;
        let notes = new_notes(alloc, NOTES)?;
        Ok(State {
            graph: Vec::new(alloc),
            registers,
            locks: Vec::new(alloc),
            notes,
            registrations: Vec::new(alloc),
            thread: 0,
            collects: 0,
            oldest,
            version: 1,
        })
    }

    /// What the register holds.
    pub fn register_value(&self, r: Register) -> Value
        ensures { meaning result ≡ states.register_value self.now r }
    {
        let number = r.number();
        self.registers[number as usize]
    }

    /// The value that the operand is, or that its register holds.
    pub fn operand_value(&self, operand: Operand) -> Value
        ensures { meaning result ≡ states.operand_value self.now operand }
    {
        match operand {
            Operand::Reg(register) => self.register_value(register),
            Operand::Fixnum(number) => Value::Fixnum(number),
            Operand::Nil => Value::Nil,
            Operand::True => Value::True,
            Operand::False => Value::False,
        }
    }

    /// Puts a value into the register.
    pub fn with_register(&mut self, d: Register, value: Value)
        ensures { self.new ≡ states.with_register self.old d (meaning value) }
    {
        let number = d.number();
        self.registers[number as usize] = value;
    }

    /// The object of this birth, where there is one.
    pub fn object_at(&self, birth: u32) -> Option<&Object>
        ensures { MatchOption result (values.object_at self.now.graph birth ≡ None) (λ o. values.object_at self.now.graph birth ≡ Some o.now) }
    {
        match index_in_order(&self.graph, birth) {
            Some(place) => Some(&self.graph[place].1),
            None => None,
        }
    }

    /// Puts the object into the graph under the birth.
    pub fn with_object(&mut self, birth: u32, object: Object) -> Result<(), AllocError>
        ensures { OnOk result (self.new ≡ states.with_object self.old birth object) }
    {
        put_entry(&mut self.graph, birth, object)?;
        Ok(())
    }

    /// Puts a value into a field of the object of this birth.
    pub fn with_field(&mut self, birth: u32, index: usize, value: Value)
        ensures { (o : values.Object) → values.object_at self.old.graph birth ≡ Some o → self.new ≡ states.with_field self.old birth o index (meaning value) }
    {
        match index_in_order(&self.graph, birth) {
            Some(place) => self.graph[place].1.with_field(index, value),
            None => (),
        }
    }

    /// A new object of the current thread, in generation 0.
    pub fn new_object(&self, alloc: Global, kind: Kind, fields: Vec<Value>) -> Object
        ensures { result ≡ states.new_object self.now kind (map meaning fields.items) }
    {
        Object {
            kind,
            creator: self.thread,
            generation: 0,
            fields,
            queue: Vec::new(alloc),
        }
    }

    /// Makes a new object, whose birth is the line, and puts it into register d.
    pub fn with_new(
        &mut self,
        alloc: Global,
        line: u32,
        d: Register,
        kind: Kind,
        fields: Vec<Value>,
    ) -> Result<(), AllocError>
        ensures { OnOk result (self.new ≡ states.with_new self.old line d kind (map meaning fields.items)) }
    {
        let object = self.new_object(alloc, kind, fields);
        self.with_object(line, object)?;
        self.with_register(d, Value::Object(line));
        Ok(())
    }

    /// How often the object is locked.
    pub fn lock_count(&self, birth: u32) -> u32
        ensures { result ≡ states.lock_count self.now birth }
    {
        match index_of(&self.locks, birth) {
            Some(place) => self.locks[place].1,
            None => 0,
        }
    }
}
