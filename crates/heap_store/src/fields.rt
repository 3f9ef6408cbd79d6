//! The calls that read or change a field of an object.

ghost use Rattle.std.specs.Prelude.{◌≡◌, ◌≢◌, ◌↔◌, ℕ, ◌<◌, pos, true, false, length, slice_get, slice_index_or, Some, Ok, Err, IfOk, IfSome, OnOk, OnErr, IsSome, IsTrue, MatchOption};
ghost use Rattle.std.specs.FinMap.{get};
ghost use Rattle.gc_words.specs.Layout.{thread_of};
ghost use Rattle.gc_words.specs.declared.address.TheConstants.{THREADS};
ghost use Rattle.gc_words.specs.declared.value.Value.{Value};
ghost use Rattle.gc_words.specs.Word.{IsInRange};
ghost use Rattle.trace_types.specs.Values.{has_bytes};
ghost use Rattle.trace_types.specs.WellFormed.{operand_fits};
ghost use Rattle.trace_types.specs.States.{State};
ghost use Rattle.trace_types.specs.Steps.{step};
ghost use Rattle.heap_store.specs.Starts.{IsThere, Keeps, is_object};
ghost use Rattle.heap_store.specs.Changes.{HaveSoundCards};
ghost use Rattle.heap_store.specs.HeapView.{starts_of};
ghost use Rattle.heap_store.specs.Fields.{place_in, HasNoFields, IsFielded, field_in, generation_in};
ghost use Rattle.heap_store.specs.Fields.{is_byte_word, refers_of, word_index, HasRoomFor, PutsThere};
ghost use Rattle.heap_store.specs.Stands.{Stands};
ghost use Rattle.heap_store.specs.Calls.{PerformsOnAnyLine, IsLeft};

use crate::error::HeapError;
use crate::heap::Heap;
use crate::shape::NO_MARK;
use gc_words::{Address, Value, decode, encode};
use territory::Territory;
use trace_types::{Command, Fault, Kind, Operand, Register};

impl Heap {
    /// Puts a field of the object in register `s` into register `d`; a byte becomes a fixnum. Takes no
    /// memory. The fault is `WrongKind` where `s` holds no object of a kind with fields, and `BadIndex`
    /// where the index is not below its length.
    pub fn get(&mut self, d: Register, s: Register, index: u32) -> Result<(), HeapError>
        ensures step { PerformsOnAnyLine self.old (λ before line. step before line (Command.Get d s index)) result self.new }
        ensures failed { (result ≡ Err HeapError.Failed) ↔ (self.old.failed ≡ true) }
        ensures no_memory { result ≢ Err HeapError.NoMemory }
        ensures left { IsLeft result self.old self.new }
        ensures objects { self.new.territories ≡ self.old.territories }
        ensures last { self.new.last ≡ self.old.last }
    {
        if self.failed {
            return Err(HeapError::Failed);
        }
        let Some(at) = self.fielded(s) else {
            return Err(HeapError::Fault(Fault::WrongKind));
        };
        let territory = self.home(at);
        if index >= territory.length(at) {
            return Err(HeapError::Fault(Fault::BadIndex));
        }
        let value = field(territory, at, index);
        self.registers.set(d, value);
        Ok(())
    }

    /// Puts a value into a field of the object in register `s`. Takes no memory. The fault is `WrongKind`
    /// where `s` holds no object of a kind with fields, or a byte object and the value is no number from 0
    /// to 255; then `BadIndex` where the index is not below its length.
    pub fn set(&mut self, s: Register, index: u32, value: Operand) -> Result<(), HeapError>
        requires { IsTrue (operand_fits value) }
        ensures step { PerformsOnAnyLine self.old (λ before line. step before line (Command.Set s index value)) result self.new }
        ensures failed { (result ≡ Err HeapError.Failed) ↔ (self.old.failed ≡ true) }
        ensures no_memory { result ≢ Err HeapError.NoMemory }
        ensures left { IsLeft result self.old self.new }
        ensures kept { OnOk result (Keeps (starts_of self.old) (starts_of self.new)) }
        ensures cards { OnOk result (HaveSoundCards self.new.territories) }
        ensures last { self.new.last ≡ self.old.last }
    {
        if self.failed {
            return Err(HeapError::Failed);
        }
        let Some(at) = self.fielded(s) else {
            return Err(HeapError::Fault(Fault::WrongKind));
        };
        let value = self.operand(value);
        let refers = self.refers(&value);
        let territory = &mut self.territories[index_of(at)];
        if let Err(fault) = put_field(territory, at, index, value, refers) {
            return Err(HeapError::Fault(fault));
        }
        Ok(())
    }

    /// The generation of the object that the value is, and none of an immediate. Takes no memory, and has
    /// no fault.
    pub fn generation_of(&self, value: Operand) -> Result<Option<u8>, HeapError>
        requires { IsTrue (operand_fits value) }
        ensures value { IfOk result (λ g. (s : State) → Stands self.now s → g ≡ generation_in s value) }
        ensures failed { (result ≡ Err HeapError.Failed) ↔ (self.now.failed ≡ true) }
        ensures only_failed { OnErr result (self.now.failed ≡ true) }
    {
        if self.failed {
            return Err(HeapError::Failed);
        }
        match self.operand(value) {
            Value::Object(at) => Ok(Some(self.home(at).generation(at))),
            _ => Ok(None),
        }
    }

    /// The generation of what the value refers to, or 255.
    fn refers(&self, value: &Value) -> u8
        requires alive { self.now.failed ≡ false }
        requires there { IsThere (starts_of self.now) value.now }
        ensures { result ≡ refers_of (starts_of self.now) value.now }
    {
        match *value {
            Value::Object(at) => self.home(at).generation(at),
            _ => NO_MARK,
        }
    }

    /// The place of the object in a register, where it is of a kind with fields.
    fn fielded(&self, register: Register) -> Option<Address>
        requires alive { self.now.failed ≡ false }
        ensures { MatchOption result (HasNoFields self.now register) (λ a. IsFielded self.now register a) }
    {
        let Some(at) = self.object_in(register) else {
            return None;
        };
        match self.home(at).kind(at) {
            Kind::Guard | Kind::OrderedGuard => None,
            _ => Some(at),
        }
    }

    /// The place of the object in a register, where it holds one.
    fn object_in(&self, register: Register) -> Option<Address>
        requires alive { self.now.failed ≡ false }
        ensures place { result ≡ place_in (slice_index_or self.now.registers register Value.Nil) }
        ensures there { IfSome result (λ a. IsTrue (is_object (starts_of self.now a))) }
    {
        match self.registers.get(register) {
            Value::Object(at) => Some(at),
            _ => None,
        }
    }

    /// The territory of an object.
    fn home(&self, at: Address) -> &Territory
        requires alive { self.now.failed ≡ false }
        requires there { IsTrue (is_object (starts_of self.now at)) }
        ensures territory { slice_get self.now.territories (thread_of at) ≡ Some result.now }
        ensures start { get result.now.starts at ≡ starts_of self.now at }
        ensures there { IsSome (get result.now.starts at) }
    {
        &self.territories[index_of(at)]
    }
}

/// Which territory has the object.
fn index_of(at: Address) -> usize
    ensures { (result ≡ thread_of at) × (result < THREADS) }
{
    usize::from(at.thread())
}

/// Puts a value into a field of an object. `refers` is the generation of what it refers to, or 255. The
/// fault is `WrongKind` where a byte object would get no byte, and `BadIndex` where the index is not below
/// the length.
fn put_field(
    territory: &mut Territory,
    at: Address,
    index: u32,
    value: Value,
    refers: u8,
) -> Result<(), Fault>
    requires start { IsSome (get territory.old.starts at) }
    requires value { IsInRange value }
    requires room { IfSome (get territory.old.starts at) (HasRoomFor index) }
    ensures { PutsThere territory.old territory.new at index value refers result }
{
    match territory.kind(at) {
        Kind::Bytes | Kind::ImmBytes => put_byte(territory, at, index, value),
        _ => put_value(territory, at, index, value, refers),
    }
}

fn put_value(
    territory: &mut Territory,
    at: Address,
    index: u32,
    value: Value,
    refers: u8,
) -> Result<(), Fault>
    requires start { IsSome (get territory.old.starts at) }
    requires value { IsInRange value }
    requires words { IfSome (get territory.old.starts at) (λ x. has_bytes x.kind ≡ false) }
    requires room { IfSome (get territory.old.starts at) (HasRoomFor index) }
    ensures { PutsThere territory.old territory.new at index value refers result }
{
    if index >= territory.length(at) {
        return Err(Fault::BadIndex);
    }
    territory.put(at, index, encode(value), refers);
    Ok(())
}

fn put_byte(territory: &mut Territory, at: Address, index: u32, value: Value) -> Result<(), Fault>
    requires start { IsSome (get territory.old.starts at) }
    requires bytes { IfSome (get territory.old.starts at) (λ x. has_bytes x.kind ≡ true) }
    requires room { IfSome (get territory.old.starts at) (HasRoomFor index) }
    ensures { (refers : ℕ) → PutsThere territory.old territory.new at index value refers result }
{
    let Some(byte) = byte_in(value) else {
        return Err(Fault::WrongKind);
    };
    if index >= territory.length(at) {
        return Err(Fault::BadIndex);
    }
    let mut bytes = territory.word(at, index / 8).to_le_bytes();
    bytes[(index % 8) as usize] = byte;
    territory.put(at, index / 8, u64::from_le_bytes(bytes), NO_MARK);
    Ok(())
}

/// The number from 0 to 255 that the value is.
fn byte_in(value: Value) -> Option<u8>
    ensures { MatchOption result (is_byte_word value ≡ false) (λ b. (b < 256) × (value ≡ Value.Fixnum (pos b))) }
{
    match value {
        Value::Fixnum(number) => {
            if number >= 0 && number < 256 {
                Some(number as u8)
            } else {
                None
            }
        }
        _ => None,
    }
}

/// A field of an object.
fn field(territory: &Territory, at: Address, index: u32) -> Value
    requires start { IsSome (get territory.now.starts at) }
    requires within { IfSome (get territory.now.starts at) (λ x. word_index x.kind index < length x.words) }
    ensures { result ≡ field_in (get territory.now.starts at) index }
{
    match territory.kind(at) {
        Kind::Bytes | Kind::ImmBytes => {
            let bytes = territory.word(at, index / 8).to_le_bytes();
            Value::Fixnum(i64::from(bytes[(index % 8) as usize]))
        }
        _ => match decode(territory.word(at, index)) {
            Some(value) => value,
            None => Value::Nil,
        },
    }
}
