//! Registers: what each of them holds, and a bound below which all lie that hold an object.

ghost use Rattle.std.specs.Prelude.{◌≡◌, ◌<◌, ◌≤◌, [], length, replicate, slice_index_or, slice_set, IfOk};
ghost use Rattle.heap_store.specs.Used.{HoldNoneFrom};

use gc_words::Value;
use std::alloc::{AllocError, Global};
use std::marker::Model;
use trace_types::Register;

/// How many registers there are.
const REGISTERS: usize = 4096;

/// What the registers hold, by their numbers.
#[derive(Drop)]
pub(crate) struct Registers {
    values: Vec<Value>,
    /// No register from this one on holds an object.
    used: usize,
}

impl Model for Registers {
    ghost use Rattle.std.specs.Prelude.{List, ◌≤◌, length};
    ghost use Rattle.gc_words.specs.declared.value.Value.{Value as Held};
    ghost use Rattle.heap_store.specs.Used.{HoldNoneFrom};

    ghost Value = { List Held };

    ghost view = { λ r. r.values.items };

    ghost invariant = { λ r. (r.used ≤ length r.values.items) × HoldNoneFrom r.values.items r.used };
}

// A number of values `nil`.
fn nils(alloc: Global, count: usize) -> Result<Vec<Value>, AllocError>
    ensures { IfOk result (λ v. v.items ≡ replicate count Value.Nil) }
{
    vec![in alloc; Value::Nil; count]
}

impl Registers {
    /// All registers, each of which holds `nil`. Takes memory.
    pub(crate) fn new(alloc: Global) -> Result<Registers, AllocError>
        ensures { IfOk result (λ r. r ≡ replicate REGISTERS Value.Nil) }
    {
        let values = nils(alloc, REGISTERS)?;
        Ok(Registers { values, used: 0 })
    }

    /// No registers at all, which takes no memory: those of a heap whose parts are taken out.
    pub(crate) fn none(alloc: Global) -> Registers
        ensures { result ≡ [] }
    {
        Registers {
            values: Vec::new(alloc),
            used: 0,
        }
    }

    /// Registers that hold these values, any of which may be an object. Takes no memory.
    pub(crate) fn from_values(values: Vec<Value>) -> Registers
        ensures { result ≡ values.items }
    {
        let used = values.len();
        Registers { values, used }
    }

    /// What the registers hold.
    pub(crate) fn into_values(self) -> Vec<Value>
        ensures { result.items ≡ self }
    {
        self.values
    }

    /// What a register holds.
    #[inline(always)]
    pub(crate) fn get(&self, register: Register) -> Value
        requires { register < length self.now }
        ensures { result ≡ slice_index_or self.now register Value.Nil }
    {
        self.values[register.number() as usize]
    }

    /// Puts a value into a register.
    #[inline(always)]
    pub(crate) fn set(&mut self, register: Register, value: Value)
        requires { register < length self.old }
        ensures { self.new ≡ slice_set self.old register value }
    {
        let number = register.number() as usize;
        if number >= self.used && matches!(value, Value::Object(_)) {
            self.used = number + 1;
        }
        self.values[number] = value;
    }

    /// A bound: no register from it on holds an object.
    pub(crate) fn used(&self) -> usize
        ensures within { result ≤ length self.now }
        ensures none { HoldNoneFrom self.now result }
    {
        self.used
    }

    /// Makes this the bound.
    pub(crate) fn narrow(&mut self, used: usize)
        requires within { used ≤ length self.old }
        requires none { HoldNoneFrom self.old used }
        ensures { self.new ≡ self.old }
    {
        self.used = used;
    }
}
