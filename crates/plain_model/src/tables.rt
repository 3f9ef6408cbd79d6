//! The commands on identity tables.

ghost use Rattle.std.specs.Prelude.{◌≡◌, ◌∷◌, [], position, Option, Some, None, MatchResult, Ok, Err};
ghost use Rattle.trace_types.specs.States.{silently, with_field, with_new};
ghost use Rattle.trace_types.specs.Steps.{step};
ghost use Rattle.trace_types.specs.Values.{object};
ghost use Rattle.trace_types.specs.Values as values;
ghost use Rattle.trace_types.specs.Tables as tables;
ghost use Rattle.trace_types.specs.Steps as steps;
ghost use Rattle.plain_model.specs.Plain.{meaning};
ghost use Rattle.plain_model.specs.Stepping.{Answers, entry_changed};

use crate::making::two;
use crate::object::Object;
use crate::state::State;
use crate::stop::Stop;
use crate::value::Value;
use std::alloc::Global;
use trace_types::{Command, Fault, Kind, Mode, Operand, Register};

// The kind of the entries that a mode makes.
fn entry_kind(mode: Mode) -> Kind
    ensures { result ≡ tables.entry_kind mode }
{
    match mode {
        Mode::Pair => Kind::Pair,
        Mode::Weak => Kind::Weak,
        Mode::Eph => Kind::Eph,
    }
}

// Whether the kind is one of entries.
fn is_entry(kind: Kind) -> bool
    ensures { result ≡ tables.is_entry kind }
{
    match kind {
        Kind::Pair | Kind::Weak | Kind::Eph => true,
        _ => false,
    }
}

// A key, which may not be `bwp`.
fn whole_key(key: Value) -> Result<Value, Fault>
    ensures { MatchResult result (λ k. (k ≡ key) × (steps.whole_key (meaning key) ≡ Ok (meaning key)))
        (λ fault. steps.whole_key (meaning key) ≡ Err fault) }
{
    if key.same_value(Value::Bwp) {
        Err(Fault::WrongKind)
    } else {
        Ok(key)
    }
}

impl Object {
    /// Whether the object is of a kind of entries and its field 0 is the value.
    fn has_key(&self, key: Value) -> bool
        ensures { result ≡ tables.has_key (meaning key) (Some self.now) }
    {
        is_entry(self.kind) && self.field_at(0).same_value(key)
    }
}

impl State {
    // Whether the value is an object that has the key.
    fn has_key(&self, key: Value, value: Value) -> bool
        ensures { result
            ≡ tables.has_key (meaning key) (values.object_of_value self.now.graph (meaning value)) }
    {
        match self.object_of_value(value) {
            Some(object) => object.has_key(key),
            None => false,
        }
    }

    // Whether a slot with this value holds an entry of the key.
    fn holds_entry(&self, key: Value, slot: Value) -> bool
        ensures { result ≡ tables.holds_entry self.now.graph (meaning key) (meaning slot) }
    {
        if key.same_value(Value::Bwp) {
            return false;
        }
        self.has_key(key, slot)
    }

    // Whether a slot with this value is free.
    fn is_free(&self, slot: Value) -> bool
        ensures { result ≡ tables.is_free self.now.graph (meaning slot) }
    {
        if slot.same_value(Value::Nil) {
            return true;
        }
        self.has_key(Value::Bwp, slot)
    }

    // The least of the slots that holds an entry of the key.
    fn entry_slot(&self, slots: &[Value], key: Value) -> Option<usize>
        ensures { result
            ≡ position (λ slot. tables.holds_entry self.now.graph (meaning key) (meaning slot)) slots.now }
    {
        slots.iter().position(|slot| self.holds_entry(key, *slot))
    }

    // The least of the slots that is free.
    fn free_slot(&self, slots: &[Value]) -> Option<usize>
        ensures { result ≡ position (λ slot. tables.is_free self.now.graph (meaning slot)) slots.now }
    {
        slots.iter().position(|slot| self.is_free(*slot))
    }

    /// The least slot of the table that holds an entry of the key.
    pub fn where_in(&self, table: &Object, key: Value) -> Option<usize>
        ensures { result ≡ tables.where_in self.now.graph table.now (meaning key) }
    {
        self.entry_slot(&table.fields, key)
    }

    /// The least free slot of the table.
    pub fn free_in(&self, table: &Object) -> Option<usize>
        ensures { result ≡ tables.free_in self.now.graph table.now }
    {
        self.free_slot(&table.fields)
    }

    // The entry's value changes, and register d gets the entry.
    fn put_found(
        &mut self,
        alloc: Global,
        d: Register,
        entry: Value,
        value: Value,
    ) -> Result<Vec<u8>, Stop>
        ensures { Answers (entry_changed self.old d (meaning entry) (meaning value))
            result self.old self.new }
    {
        let (birth, _) = self.object_of(entry)?;
        self.with_field(birth, 1, value);
        self.with_register(d, Value::Object(birth));
        Ok(Vec::new(alloc))
    }

    // A new entry goes into a slot of the table and into register d.
    fn put_new(
        &mut self,
        alloc: Global,
        line: u32,
        d: Register,
        kind: Kind,
        key: Value,
        value: Value,
        table: u32,
        slot: usize,
    ) -> Result<Vec<u8>, Stop>
        requires { ◌≡◌ {A = Option values.Object} (values.object_at self.old.graph line) None }
        ensures { (t : values.Object) → values.object_at self.old.graph table ≡ Some t →
            Answers (silently (with_field (with_new self.old line d kind (meaning key ∷ meaning value ∷ []))
            table t slot (object line))) result self.old self.new }
    {
        let fields = two(alloc, key, value)?;
        self.with_new(alloc, line, d, kind, fields)?;
        self.with_field(table, slot, Value::Object(line));
        Ok(Vec::new(alloc))
    }

    /// `tput`.
    #[tactic(auto, unfolding(trace_types::specs::Steps::step))]
    pub(crate) fn table_put(
        &mut self,
        alloc: Global,
        line: u32,
        d: Register,
        table: Register,
        mode: Mode,
        key: Operand,
        value: Operand,
    ) -> Result<Vec<u8>, Stop>
        requires { ◌≡◌ {A = Option values.Object} (values.object_at self.old.graph line) None }
        ensures { Answers (step self.old line (Command.TablePut d table mode key value))
            result self.old self.new }
    {
        let value = self.operand_value(value);
        let (birth, object) = self.table_of(self.register_value(table))?;
        let key = whole_key(self.operand_value(key))?;
        match self.where_in(object, key) {
            Some(slot) => {
                let entry = object.field_at(slot);
                self.put_found(alloc, d, entry, value)
            }
            None => match self.free_in(object) {
                Some(slot) => self.put_new(
                    alloc,
                    line,
                    d,
                    entry_kind(mode),
                    key,
                    value,
                    birth,
                    slot,
                ),
                None => Err(Stop::Fault(Fault::TableFull)),
            },
        }
    }

    // What the entry in the slot has, or `f`.
    fn found_at(&self, table: &Object, slot: Option<usize>) -> Result<Value, Fault>
        ensures { MatchResult result (λ v. steps.found_at self.now table.now slot ≡ Ok (meaning v))
            (λ fault. steps.found_at self.now table.now slot ≡ Err fault) }
    {
        match slot {
            Some(slot) => {
                let (_, entry) = self.object_of(table.field_at(slot))?;
                Ok(entry.field_at(1))
            }
            None => Ok(Value::False),
        }
    }

    /// `tget`.
    #[tactic(auto, unfolding(trace_types::specs::Steps::step))]
    pub(crate) fn table_get(
        &mut self,
        alloc: Global,
        d: Register,
        table: Register,
        key: Operand,
    ) -> Result<Vec<u8>, Stop>
        ensures { Answers (step self.old 0 (Command.TableGet d table key)) result self.old self.new }
    {
        let (_, object) = self.table_of(self.register_value(table))?;
        let key = whole_key(self.operand_value(key))?;
        let value = self.found_at(object, self.where_in(object, key))?;
        self.with_register(d, value);
        Ok(Vec::new(alloc))
    }

    /// `tdel`.
    #[tactic(auto, unfolding(trace_types::specs::Steps::step))]
    pub(crate) fn table_delete(
        &mut self,
        alloc: Global,
        table: Register,
        key: Operand,
    ) -> Result<Vec<u8>, Stop>
        ensures { Answers (step self.old 0 (Command.TableDel table key)) result self.old self.new }
    {
        let (birth, object) = self.table_of(self.register_value(table))?;
        let key = whole_key(self.operand_value(key))?;
        match self.where_in(object, key) {
            Some(slot) => {
                self.with_field(birth, slot, Value::Nil);
                Ok(Vec::new(alloc))
            }
            None => Ok(Vec::new(alloc)),
        }
    }
}
