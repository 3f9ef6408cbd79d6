//! Registrations with guardians.

ghost use Rattle.std.specs.Prelude.{◌≡◌, ◌++◌, OnOk};
ghost use Rattle.trace_types.specs.Kept.{registration_rules};

use crate::rule::{Rule, push_object, push_rule_to};
use crate::value::Value;
use std::alloc::{AllocError, Global};
use std::marker::Model;

/// A registration: the line that made it, the guardian's birth, the object and its representative. (Dybvig,
/// Bruggeman and Eby, "Guardians in a Generation-Based Garbage Collector", 1993.)
#[derive(Drop)]
pub struct Registration {
    pub line: u32,
    pub guardian: u32,
    pub object: Value,
    pub representative: Value,
}

impl Model for Registration {
    ghost use Rattle.trace_types.specs.States as states;

    ghost Value = { states.Registration };

    ghost use Rattle.plain_model.specs.Plain.{meaning};

    ghost view = { λ r. record {
      line = r.line;
      guardian = r.guardian;
      object = meaning r.object;
      representative = meaning r.representative;
    } };
}

impl Registration {
    /// Appends the rule from the guardian, and the object where that is one, to the representative.
    pub fn push_rules(&self, alloc: Global, rules: &mut Vec<Rule>) -> Result<(), AllocError>
        ensures { OnOk result (rules.new.items ≡ rules.old.items ++ registration_rules self.now) }
    {
        let mut premises = Vec::from_slice(alloc, &[self.guardian])?;
        push_object(self.object, &mut premises)?;
        push_rule_to(alloc, self.representative, &premises, rules)?;
        Ok(())
    }

    /// The same registration again.
    pub fn copy(&self) -> Registration
        ensures { result ≡ self.now }
    {
        Registration {
            line: self.line,
            guardian: self.guardian,
            object: self.object,
            representative: self.representative,
        }
    }
}
