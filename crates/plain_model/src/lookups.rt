//! What commands ask of their operands.

ghost use Rattle.std.specs.Prelude.{◌≡◌, Ok, Err, MatchResult};
ghost use Rattle.trace_types.specs.Steps as steps;
ghost use Rattle.trace_types.specs.Tables as tables;
ghost use Rattle.plain_model.specs.Plain.{meaning};

use crate::kinds::is_guardian;
use crate::object::Object;
use crate::state::State;
use crate::value::Value;
use trace_types::{Fault, Kind};

impl State {
    /// The object that the value is, with its birth.
    pub(crate) fn object_of(&self, value: Value) -> Result<(u32, &Object), Fault>
        ensures { MatchResult result (λ o. steps.object_of self.now (meaning value) ≡ Ok (o.0, o.1.now))
            (λ fault. steps.object_of self.now (meaning value) ≡ Err fault) }
    {
        let Value::Object(birth) = value else {
            return Err(Fault::WrongKind);
        };
        match self.object_at(birth) {
            Some(object) => Ok((birth, object)),
            None => Err(Fault::WrongKind),
        }
    }

    /// The guardian that the value is.
    pub(crate) fn guardian_of(&self, value: Value) -> Result<(u32, &Object), Fault>
        ensures { MatchResult result (λ o. steps.guardian_of self.now (meaning value) ≡ Ok (o.0, o.1.now))
            (λ fault. steps.guardian_of self.now (meaning value) ≡ Err fault) }
    {
        let (birth, object) = self.object_of(value)?;
        if is_guardian(object.kind) {
            Ok((birth, object))
        } else {
            Err(Fault::WrongKind)
        }
    }

    /// The object of a kind with fields that the value is.
    pub(crate) fn fielded_of(&self, value: Value) -> Result<(u32, &Object), Fault>
        ensures { MatchResult result (λ o. steps.fielded_of self.now (meaning value) ≡ Ok (o.0, o.1.now))
            (λ fault. steps.fielded_of self.now (meaning value) ≡ Err fault) }
    {
        let (birth, object) = self.object_of(value)?;
        if is_guardian(object.kind) {
            Err(Fault::WrongKind)
        } else {
            Ok((birth, object))
        }
    }

    /// The table that the value is.
    pub(crate) fn table_of(&self, value: Value) -> Result<(u32, &Object), Fault>
        ensures { MatchResult result (λ o. steps.table_of self.now (meaning value) ≡ Ok (o.0, o.1.now))
            (λ fault. steps.table_of self.now (meaning value) ≡ Err fault) }
    {
        let (birth, object) = self.object_of(value)?;
        if is_table(object.kind) {
            Ok((birth, object))
        } else {
            Err(Fault::WrongKind)
        }
    }
}

// Any vector is a table.
fn is_table(kind: Kind) -> bool
    ensures { result ≡ tables.is_table kind }
{
    match kind {
        Kind::Vector | Kind::ImmVector => true,
        _ => false,
    }
}
