//! Objects.

ghost use Rattle.std.specs.Prelude.{◌≡◌, ◌++◌, map, set, IfOk, OnOk};
ghost use Rattle.trace_types.specs.Values as values;
ghost use Rattle.trace_types.specs.Kept.{strong_rules, ephemeron_rules, object_rules, without_premise};
ghost use Rattle.plain_model.specs.Plain.{meaning};

use crate::kinds::is_ephemeron;
use crate::rule::{Rule, push_object, push_objects, push_rule_to, push_rules_to};
use crate::value::Value;
use std::alloc::{AllocError, Global};
use std::marker::Model;
use trace_types::Kind;

/// An object: its kind, the thread that made it, its generation, its fields, and of a guardian the queue, each
/// value with the line of its registration and the first to be taken first. A byte is the fixnum that it is.
#[derive(Drop)]
pub struct Object {
    pub kind: Kind,
    pub creator: u8,
    pub generation: u8,
    pub fields: Vec<Value>,
    pub queue: Vec<(Value, u32)>,
}

impl Model for Object {
    ghost use Rattle.std.specs.Prelude.{map};
    ghost use Rattle.trace_types.specs.Values as values;

    ghost Value = { values.Object };

    ghost use Rattle.plain_model.specs.Plain.{meaning, queued};

    ghost view = { λ o. record {
      kind = o.kind;
      creator = o.creator;
      generation = o.generation;
      fields = map meaning o.fields.items;
      queue = map queued o.queue.items;
    } };
}

impl Object {
    /// Puts a value into a field. Without a field of this index nothing changes.
    pub fn with_field(&mut self, index: usize, value: Value)
        ensures { self.new ≡ record self.old { fields = set self.old.fields index (meaning value) } }
    {
        if index < self.fields.len() {
            self.fields[index] = value;
        }
    }

    /// A field by its index; `nil` where there is none.
    pub fn field_at(&self, index: usize) -> Value
        ensures { meaning result ≡ values.field_at self.now index }
    {
        if index < self.fields.len() {
            self.fields[index]
        } else {
            Value::Nil
        }
    }

    // Appends the values that wait in the queue.
    fn push_queue_values(&self, found: &mut Vec<Value>) -> Result<(), AllocError>
        ensures { OnOk result (map meaning found.new.items ≡ map meaning found.old.items ++ values.queue_values self.now) }
    {
        for entry in &self.queue {
            found.push(entry.0)?;
        }
        Ok(())
    }

    // Appends the fields that hold their objects.
    fn push_strong_fields(&self, found: &mut Vec<Value>) -> Result<(), AllocError>
        ensures { OnOk result (map meaning found.new.items ≡ map meaning found.old.items ++ values.strong_fields self.now.kind self.now.fields) }
    {
        match self.kind {
            Kind::Eph => Ok(()),
            Kind::Weak => {
                if self.fields.len() == 0 {
                    return Ok(());
                }
                found.extend_from_slice(&self.fields[1..])
            }
            _ => found.extend_from_slice(&self.fields),
        }
    }

    /// The values that the object holds: those of the queue and of the strong fields.
    pub fn strong_values(&self, alloc: Global) -> Result<Vec<Value>, AllocError>
        ensures { IfOk result (λ found. map meaning found.items ≡ values.strong_values self.now) }
    {
        let mut found = Vec::new(alloc);
        self.push_queue_values(&mut found)?;
        self.push_strong_fields(&mut found)?;
        Ok(found)
    }

    /// The objects among them.
    pub fn strong_references(&self, alloc: Global) -> Result<Vec<u32>, AllocError>
        ensures { IfOk result (λ found. found.items ≡ values.strong_references self.now) }
    {
        let values = self.strong_values(alloc)?;
        let mut found = Vec::new(alloc);
        push_objects(&values, &mut found)?;
        Ok(found)
    }

    // Appends the rules from the object to what it holds.
    pub(crate) fn push_strong_rules(
        &self,
        alloc: Global,
        birth: u32,
        rules: &mut Vec<Rule>,
    ) -> Result<(), AllocError>
        ensures { OnOk result (rules.new.items ≡ rules.old.items ++ strong_rules birth self.now) }
    {
        let values = self.strong_values(alloc)?;
        let premises = Vec::from_slice(alloc, &[birth])?;
        push_rules_to(alloc, &values, &premises, rules)?;
        Ok(())
    }

    // Appends the rule from an ephemeron, and its key where that is an object, to its value.
    fn push_ephemeron_rules(
        &self,
        alloc: Global,
        birth: u32,
        rules: &mut Vec<Rule>,
    ) -> Result<(), AllocError>
        ensures { OnOk result (rules.new.items ≡ rules.old.items ++ ephemeron_rules birth self.now) }
    {
        if !is_ephemeron(self.kind) {
            return Ok(());
        }
        let mut premises = Vec::from_slice(alloc, &[birth])?;
        push_object(self.field_at(0), &mut premises)?;
        push_rule_to(alloc, self.field_at(1), &premises, rules)?;
        Ok(())
    }

    /// Appends what follows from the object.
    pub fn push_rules(
        &self,
        alloc: Global,
        birth: u32,
        rules: &mut Vec<Rule>,
    ) -> Result<(), AllocError>
        ensures { OnOk result (rules.new.items ≡ rules.old.items ++ object_rules birth self.now) }
    {
        self.push_strong_rules(alloc, birth, rules)?;
        self.push_ephemeron_rules(alloc, birth, rules)?;
        Ok(())
    }

    /// Appends what would be asked of the object if it were in a set: its rules, with itself struck from their
    /// premises.
    pub fn push_rules_as_though(
        &self,
        alloc: Global,
        birth: u32,
        rules: &mut Vec<Rule>,
    ) -> Result<(), AllocError>
        ensures { OnOk result (rules.new.items ≡ rules.old.items ++ without_premise birth (object_rules birth self.now)) }
    {
        let mut own = Vec::new(alloc);
        self.push_rules(alloc, birth, &mut own)?;
        for rule in &own {
            let struck = rule.without_premise(alloc, birth)?;
            rules.push(struck)?;
        }
        Ok(())
    }
}
