//! The commands that make an object.

ghost use Rattle.std.specs.Prelude.{◌≡◌, ◌∷◌, [], pos, IfOk, map, replicate};
ghost use Rattle.trace_types.specs.States.{with_new, operand_value, silently};
ghost use Rattle.trace_types.specs.Steps.{greatest_length, not_too_long};
ghost use Rattle.trace_types.specs.Values.{fixnum};
ghost use Rattle.plain_model.specs.Plain.{meaning};
ghost use Rattle.plain_model.specs.Stepping.{Answers};

use crate::state::State;
use crate::stop::Stop;
use crate::value::Value;
use std::alloc::{AllocError, Global};
use trace_types::{Fault, Kind, Operand, Register};

pub(crate) fn two(alloc: Global, first: Value, second: Value) -> Result<Vec<Value>, AllocError>
    ensures { IfOk result (λ v. v.items ≡ first ∷ second ∷ []) }
{
    let mut fields = Vec::new(alloc);
    fields.push(first)?;
    fields.push(second)?;
    Ok(fields)
}

fn one(alloc: Global, first: Value) -> Result<Vec<Value>, AllocError>
    ensures { IfOk result (λ v. v.items ≡ first ∷ []) }
{
    let mut fields = Vec::new(alloc);
    fields.push(first)?;
    Ok(fields)
}

#[tactic(auto, using(crate::proofs::Parts::copies_mean))]
fn copies(alloc: Global, value: Value, count: usize) -> Result<Vec<Value>, AllocError>
    ensures { IfOk result (λ v. map meaning v.items ≡ replicate count (meaning value)) }
{
    vec![in alloc; value; count]
}

impl State {
    /// Makes an object with two fields.
    pub(crate) fn make_pair(
        &mut self,
        alloc: Global,
        line: u32,
        d: Register,
        kind: Kind,
        first: Operand,
        second: Operand,
    ) -> Result<Vec<u8>, Stop>
        ensures { Answers (silently (with_new self.old line d kind
            (operand_value self.old first ∷ operand_value self.old second ∷ []))) result self.old self.new }
    {
        let fields = two(alloc, self.operand_value(first), self.operand_value(second))?;
        self.with_new(alloc, line, d, kind, fields)?;
        Ok(Vec::new(alloc))
    }

    /// Makes a box.
    pub(crate) fn make_box(
        &mut self,
        alloc: Global,
        line: u32,
        d: Register,
        value: Operand,
    ) -> Result<Vec<u8>, Stop>
        ensures { Answers (silently (with_new self.old line d Kind.Boxed (operand_value self.old value ∷ [])))
            result self.old self.new }
    {
        let fields = one(alloc, self.operand_value(value))?;
        self.with_new(alloc, line, d, Kind::Boxed, fields)?;
        Ok(Vec::new(alloc))
    }

    /// Makes a guardian.
    pub(crate) fn make_guardian(
        &mut self,
        alloc: Global,
        line: u32,
        d: Register,
        kind: Kind,
    ) -> Result<Vec<u8>, Stop>
        ensures { Answers (silently (with_new self.old line d kind [])) result self.old self.new }
    {
        self.with_new(alloc, line, d, kind, Vec::new(alloc))?;
        Ok(Vec::new(alloc))
    }

    // The most fields or bytes of a new object.
    fn greatest_length(&self) -> u32
        ensures { result ≡ greatest_length self.now }
    {
        if self.version == 2 {
            4_000_000
        } else {
            1_000_000
        }
    }

    // Makes an object of so many equal fields.
    fn make_copies(
        &mut self,
        alloc: Global,
        line: u32,
        d: Register,
        kind: Kind,
        count: u32,
        value: Value,
    ) -> Result<Vec<u8>, Stop>
        ensures { Answers (not_too_long self.old count
            (silently (with_new self.old line d kind (replicate count (meaning value))))) result self.old self.new }
    {
        if count > self.greatest_length() {
            return Err(Stop::Fault(Fault::BadLength));
        }
        let fields = copies(alloc, value, count as usize)?;
        self.with_new(alloc, line, d, kind, fields)?;
        Ok(Vec::new(alloc))
    }

    /// Makes a vector of so many equal values.
    pub(crate) fn make_vector(
        &mut self,
        alloc: Global,
        line: u32,
        d: Register,
        kind: Kind,
        count: u32,
        value: Operand,
    ) -> Result<Vec<u8>, Stop>
        ensures { Answers (not_too_long self.old count
            (silently (with_new self.old line d kind (replicate count (operand_value self.old value)))))
            result self.old self.new }
    {
        self.make_copies(alloc, line, d, kind, count, self.operand_value(value))
    }

    /// Makes so many equal bytes.
    pub(crate) fn make_bytes(
        &mut self,
        alloc: Global,
        line: u32,
        d: Register,
        kind: Kind,
        count: u32,
        byte: u8,
    ) -> Result<Vec<u8>, Stop>
        ensures { Answers (not_too_long self.old count
            (silently (with_new self.old line d kind (replicate count (fixnum (pos byte)))))) result self.old self.new }
    {
        self.make_copies(alloc, line, d, kind, count, Value::Fixnum(i64::from(byte)))
    }
}
