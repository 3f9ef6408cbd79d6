//! The parts of a state, as the other files read them.

ghost use Rattle.std.specs.Prelude.{◌≡◌, MatchOption, Some, None};
ghost use Rattle.trace_types.specs.Values as values;
ghost use Rattle.plain_model.specs.Plain.{meaning};

use crate::object::Object;
use crate::state::State;
use crate::value::Value;

impl State {
    /// The objects by birth, in ascending order of births.
    pub(crate) fn graph(&self) -> &[(u32, Object)]
        ensures { result.now ≡ self.now.graph }
    {
        &self.graph
    }

    /// The object that the value is, where it is one.
    pub(crate) fn object_of_value(&self, value: Value) -> Option<&Object>
        ensures { MatchOption result (values.object_of_value self.now.graph (meaning value) ≡ None)
            (λ o. values.object_of_value self.now.graph (meaning value) ≡ Some o.now) }
    {
        match value {
            Value::Object(birth) => self.object_at(birth),
            _ => None,
        }
    }
}
