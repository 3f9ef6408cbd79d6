//! The rules and roots of a state.

ghost use Rattle.std.specs.Prelude.{◌≡◌, ◌++◌, flat_map, IfOk, OnOk};
ghost use Rattle.trace_types.specs.States as states;
ghost use Rattle.trace_types.specs.Kept as kept;
ghost use Rattle.trace_types.specs.Kept.{object_rules, registration_rules};

use crate::rule::{Rule, push_facts, push_objects};
use crate::state::State;
use std::alloc::{AllocError, Global};

impl State {
    // Appends what follows from each object.
    fn push_object_rules(&self, alloc: Global, rules: &mut Vec<Rule>) -> Result<(), AllocError>
        ensures { OnOk result (rules.new.items
            ≡ rules.old.items ++ flat_map (λ entry. object_rules entry.0 entry.1) self.now.graph) }
    {
        for (birth, object) in &self.graph {
            object.push_rules(alloc, *birth, rules)?;
        }
        Ok(())
    }

    // Appends the rules of the registrations.
    fn push_registration_rules(
        &self,
        alloc: Global,
        rules: &mut Vec<Rule>,
    ) -> Result<(), AllocError>
        ensures { OnOk result (rules.new.items ≡ rules.old.items ++ flat_map registration_rules self.now.registrations) }
    {
        for registration in &self.registrations {
            registration.push_rules(alloc, rules)?;
        }
        Ok(())
    }

    /// What every set of objects must meet to be closed.
    pub fn rules(&self, alloc: Global) -> Result<Vec<Rule>, AllocError>
        ensures { IfOk result (λ rules. rules.items ≡ kept.rules self.now) }
    {
        let mut rules = Vec::new(alloc);
        self.push_object_rules(alloc, &mut rules)?;
        self.push_registration_rules(alloc, &mut rules)?;
        Ok(rules)
    }

    // Appends the objects that are locked.
    fn push_locked(&self, objects: &mut Vec<u32>) -> Result<(), AllocError>
        ensures { OnOk result (objects.new.items ≡ objects.old.items ++ states.locked self.now) }
    {
        for entry in &self.locks {
            objects.push(entry.0)?;
        }
        Ok(())
    }

    // Appends the objects of generations above cg.
    fn push_older(&self, cg: u8, objects: &mut Vec<u32>) -> Result<(), AllocError>
        ensures { OnOk result (objects.new.items ≡ objects.old.items ++ kept.older self.now cg) }
    {
        for (birth, object) in &self.graph {
            if cg < object.generation {
                objects.push(*birth)?;
            }
        }
        Ok(())
    }

    /// Appends what is there without a premise: the objects in registers, the locked ones, and those of generations
    /// above cg.
    pub fn push_roots(&self, alloc: Global, cg: u8, rules: &mut Vec<Rule>) -> Result<(), AllocError>
        ensures { OnOk result (rules.new.items ≡ rules.old.items ++ kept.roots self.now cg) }
    {
        let mut objects = Vec::new(alloc);
        push_objects(&self.registers, &mut objects)?;
        self.push_locked(&mut objects)?;
        self.push_older(cg, &mut objects)?;
        push_facts(alloc, &objects, rules)?;
        Ok(())
    }
}
