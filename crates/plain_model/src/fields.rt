//! The commands on registers and fields.

ghost use Rattle.std.specs.Prelude.{◌≡◌, ◌<◌, ◌≤◌, MatchOption, length};
ghost use Rattle.trace_types.specs.Values.{field_at};
ghost use Rattle.trace_types.specs.Steps.{step};
ghost use Rattle.plain_model.specs.Plain.{meaning};
ghost use Rattle.plain_model.specs.Stepping.{Answers};

use crate::kinds::has_bytes;
use crate::object::Object;
use crate::state::State;
use crate::stop::Stop;
use crate::value::Value;
use std::alloc::Global;
use trace_types::{Command, Fault, Operand, Register};

impl Object {
    /// The field of this index, where there is one.
    fn field(&self, index: u32) -> Option<Value>
        ensures { MatchOption result (length self.now.fields ≤ index)
            (λ v. (index < length self.now.fields) × (meaning v ≡ field_at self.now index)) }
    {
        if (index as usize) < self.fields.len() {
            Some(self.fields[index as usize])
        } else {
            None
        }
    }
}

impl State {
    /// `mov`.
    #[tactic(auto, unfolding(trace_types::specs::Steps::step))]
    pub(crate) fn mov(
        &mut self,
        alloc: Global,
        d: Register,
        value: Operand,
    ) -> Result<Vec<u8>, Stop>
        ensures { Answers (step self.old 0 (Command.Mov d value)) result self.old self.new }
    {
        self.with_register(d, self.operand_value(value));
        Ok(Vec::new(alloc))
    }

    /// `get`.
    #[tactic(auto, unfolding(trace_types::specs::Steps::step))]
    pub(crate) fn get(
        &mut self,
        alloc: Global,
        d: Register,
        from: Register,
        index: u32,
    ) -> Result<Vec<u8>, Stop>
        ensures { Answers (step self.old 0 (Command.Get d from index)) result self.old self.new }
    {
        let (_, object) = self.fielded_of(self.register_value(from))?;
        match object.field(index) {
            Some(value) => {
                self.with_register(d, value);
                Ok(Vec::new(alloc))
            }
            None => Err(Stop::Fault(Fault::BadIndex)),
        }
    }

    /// `set`.
    #[tactic(auto, unfolding(trace_types::specs::Steps::step))]
    pub(crate) fn set(
        &mut self,
        alloc: Global,
        into: Register,
        index: u32,
        value: Operand,
    ) -> Result<Vec<u8>, Stop>
        ensures { Answers (step self.old 0 (Command.Set into index value)) result self.old self.new }
    {
        let value = self.operand_value(value);
        let (birth, object) = self.fielded_of(self.register_value(into))?;
        if has_bytes(object.kind) && !value.is_byte() {
            return Err(Stop::Fault(Fault::WrongKind));
        }
        match object.field(index) {
            Some(_) => {
                self.with_field(birth, index as usize, value);
                Ok(Vec::new(alloc))
            }
            None => Err(Stop::Fault(Fault::BadIndex)),
        }
    }
}
