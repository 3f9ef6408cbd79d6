//! The commands on guardians.

ghost use Rattle.std.specs.Prelude.{◌≡◌, ◌∷◌, [], drop, MatchOption, OnOk, Some};
ghost use Rattle.trace_types.specs.States as states;
ghost use Rattle.trace_types.specs.Values as values;
ghost use Rattle.trace_types.specs.Steps.{step, or_itself, with_registration};
ghost use Rattle.plain_model.specs.Plain.{meaning};
ghost use Rattle.plain_model.specs.Stepping.{Answers};

use crate::entries::index_of;
use crate::object::Object;
use crate::registration::Registration;
use crate::state::State;
use crate::stop::Stop;
use crate::value::Value;
use std::alloc::{AllocError, Global};
use trace_types::{Command, Operand, Register};

impl Object {
    /// The first value of the queue, where there is one.
    fn first_queued(&self) -> Option<(Value, u32)>
        ensures { MatchOption result (self.now.queue ≡ [])
            (λ entry. self.now.queue ≡ (meaning entry.0, entry.1) ∷ drop 1 self.now.queue) }
    {
        if self.queue.is_empty() {
            None
        } else {
            Some(self.queue[0])
        }
    }

    /// Takes the first value from the queue. Without one nothing changes.
    fn drop_first(&mut self)
        ensures { self.new ≡ record self.old { queue = drop 1 self.old.queue } }
    {
        if !self.queue.is_empty() {
            self.queue.remove(0);
        }
    }
}

impl State {
    /// The representative, which is the object itself where none is named.
    fn or_itself(&self, value: Value, representative: Option<Operand>) -> Value
        ensures { meaning result ≡ or_itself self.now (meaning value) representative }
    {
        match representative {
            Some(operand) => self.operand_value(operand),
            None => value,
        }
    }

    /// Adds a registration behind the others.
    fn with_registration(&mut self, registration: Registration) -> Result<(), AllocError>
        ensures { OnOk result (self.new ≡ with_registration self.old registration) }
    {
        self.registrations.push(registration)?;
        Ok(())
    }

    /// Takes the first value from the queue of the object of this birth.
    fn drop_first(&mut self, birth: u32)
        ensures { (o : values.Object) → values.object_at self.old.graph birth ≡ Some o
            → self.new ≡ states.with_object self.old birth (record o { queue = drop 1 o.queue }) }
    {
        match index_of(&self.graph, birth) {
            Some(place) => self.graph[place].1.drop_first(),
            None => (),
        }
    }

    /// `reg`.
    #[tactic(auto, unfolding(trace_types::specs::Steps::step))]
    pub(crate) fn register(
        &mut self,
        alloc: Global,
        line: u32,
        guardian: Register,
        object: Operand,
        representative: Option<Operand>,
    ) -> Result<Vec<u8>, Stop>
        ensures { Answers (step self.old line (Command.Reg guardian object representative))
            result self.old self.new }
    {
        let value = self.operand_value(object);
        let (birth, _) = self.guardian_of(self.register_value(guardian))?;
        let registration = Registration {
            line,
            guardian: birth,
            object: value,
            representative: self.or_itself(value, representative),
        };
        self.with_registration(registration)?;
        Ok(Vec::new(alloc))
    }

    /// `take`.
    #[tactic(auto, unfolding(trace_types::specs::Steps::step))]
    pub(crate) fn take(
        &mut self,
        alloc: Global,
        d: Register,
        guardian: Register,
    ) -> Result<Vec<u8>, Stop>
        ensures { Answers (step self.old 0 (Command.Take d guardian)) result self.old self.new }
    {
        let (birth, object) = self.guardian_of(self.register_value(guardian))?;
        match object.first_queued() {
            None => {
                self.with_register(d, Value::False);
                Ok(Vec::new(alloc))
            }
            Some((value, _)) => {
                self.drop_first(birth);
                self.with_register(d, value);
                Ok(Vec::new(alloc))
            }
        }
    }
}
