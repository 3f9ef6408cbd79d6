//! Rules on objects.

ghost use Rattle.std.specs.Prelude.{◌≡◌, ◌==◌, ◌∷◌, ◌++◌, [], not, map, filter, flat_map, IfOk, OnOk};
ghost use Rattle.trace_types.specs.Values.{objects_in};
ghost use Rattle.trace_types.specs.Rules.{has_premises, facts};
ghost use Rattle.trace_types.specs.Kept.{rules_to};
ghost use Rattle.plain_model.specs.Plain.{meaning};

use crate::births::Births;
use crate::value::Value;
use std::alloc::{AllocError, Global};
use std::marker::Model;

/// A rule: where all premises are in a set of objects, the conclusion is to be in it too.
#[derive(Drop)]
pub struct Rule {
    pub premises: Vec<u32>,
    pub conclusion: u32,
}

impl Model for Rule {
    ghost use Rattle.trace_types.specs.Rules as rules;

    ghost Value = { rules.Rule };

    ghost view = { λ r. record { premises = r.premises.items; conclusion = r.conclusion } };
}

impl Rule {
    /// Whether all premises are in the set.
    pub fn has_premises(&self, set: &Births) -> bool
        ensures { result ≡ has_premises set.now self.now }
    {
        self.premises.iter().all(|x| set.contains(*x))
    }

    /// The rule with the object struck from its premises.
    pub fn without_premise(&self, alloc: Global, birth: u32) -> Result<Rule, AllocError>
        ensures { IfOk result (λ r. r ≡ record self.now { premises = filter (λ y. not (birth == y)) self.now.premises }) }
    {
        let mut premises = Vec::new(alloc);
        for premise in &self.premises {
            if birth != *premise {
                premises.push(*premise)?;
            }
        }
        Ok(Rule {
            premises,
            conclusion: self.conclusion,
        })
    }
}

/// Appends the object that the value is, where it is one.
pub fn push_object(value: Value, objects: &mut Vec<u32>) -> Result<(), AllocError>
    ensures { OnOk result (objects.new.items ≡ objects.old.items ++ objects_in (meaning value ∷ [])) }
{
    match value {
        Value::Object(birth) => {
            objects.push(birth)?;
            Ok(())
        }
        _ => Ok(()),
    }
}

/// Appends the objects among the values.
pub fn push_objects(values: &[Value], objects: &mut Vec<u32>) -> Result<(), AllocError>
    ensures { OnOk result (objects.new.items ≡ objects.old.items ++ objects_in (map meaning values.now)) }
{
    for value in values {
        push_object(*value, objects)?;
    }
    Ok(())
}

/// Appends the rule from the premises to the value, where it is an object.
pub fn push_rule_to(
    alloc: Global,
    value: Value,
    premises: &[u32],
    rules: &mut Vec<Rule>,
) -> Result<(), AllocError>
    ensures { OnOk result (rules.new.items ≡ rules.old.items ++ rules_to (meaning value) premises.now) }
{
    match value {
        Value::Object(birth) => {
            let premises = premises.to_vec(alloc)?;
            let rule = Rule {
                premises,
                conclusion: birth,
            };
            rules.push(rule)?;
            Ok(())
        }
        _ => Ok(()),
    }
}

/// Appends the rules from the premises to the objects among the values.
pub fn push_rules_to(
    alloc: Global,
    values: &[Value],
    premises: &[u32],
    rules: &mut Vec<Rule>,
) -> Result<(), AllocError>
    ensures { OnOk result (rules.new.items
        ≡ rules.old.items ++ flat_map (λ v. rules_to v premises.now) (map meaning values.now)) }
{
    for value in values {
        push_rule_to(alloc, *value, premises, rules)?;
    }
    Ok(())
}

/// Appends the objects, as rules without premises.
pub fn push_facts(alloc: Global, objects: &[u32], rules: &mut Vec<Rule>) -> Result<(), AllocError>
    ensures { OnOk result (rules.new.items ≡ rules.old.items ++ facts objects.now) }
{
    for object in objects {
        let rule = Rule {
            premises: Vec::new(alloc),
            conclusion: *object,
        };
        rules.push(rule)?;
    }
    Ok(())
}
