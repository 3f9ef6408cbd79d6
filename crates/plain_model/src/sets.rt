//! The four sets of a collection.

ghost use Rattle.std.specs.Prelude.{◌≡◌, ◌∷◌, [], ◌++◌, ◌&&◌, map, flat_map, IfOk, OnOk};
ghost use Rattle.trace_types.specs.Values.{objects_in};
ghost use Rattle.trace_types.specs.Kept.{accessible, accessible_or_served, as_though, as_though_member, is_candidate, is_dead, is_given, is_ordered, is_ready, is_unordered, is_unready, kept, ready, served, unready_rules, waited_for};
ghost use Rattle.plain_model.specs.Plain.{Alike, meaning};
ghost use Rattle.plain_model.specs.Reached.{IsAccessible, IsServed, IsWaitedFor, IsKept, kept_rules_with};

use crate::births::Births;
use crate::kinds::{is_ordered_kind, is_unordered_kind};
use crate::registration::Registration;
use crate::rounds::least;
use crate::rule::{Rule, push_facts, push_object, push_rule_to};
use crate::state::State;
use crate::value::Value;
use std::alloc::{AllocError, Global};

/// The four sets of a collection of generations up to `cg`. A set that was not reached yet is empty.
#[derive(Drop)]
pub struct Sets {
    /// The oldest generation that is collected.
    pub cg: u8,
    /// A: what is reached from the roots.
    pub accessible: Births,
    /// L: with what unordered guardians save.
    pub served: Births,
    /// W: with what the objects of the candidates would ask for.
    pub waited_for: Births,
    /// K: what is kept.
    pub kept: Births,
}

impl State {
    // Whether the registration's guardian is an unordered one.
    fn is_unordered(&self, registration: &Registration) -> bool
        ensures { result ≡ is_unordered self.now registration.now }
    {
        match self.object_at(registration.guardian) {
            Some(guardian) => is_unordered_kind(guardian.kind),
            None => false,
        }
    }

    // Whether the registration's guardian is an ordered one.
    fn is_ordered(&self, registration: &Registration) -> bool
        ensures { result ≡ is_ordered self.now registration.now }
    {
        match self.object_at(registration.guardian) {
            Some(guardian) => is_ordered_kind(guardian.kind),
            None => false,
        }
    }

    // Whether the registration's object is inaccessible.
    fn is_dead(&self, sets: &Sets, registration: &Registration) -> bool
        requires { IsAccessible self.now sets.now }
        ensures { result ≡ is_dead self.now sets.now.cg registration.now }
    {
        sets.accessible.is_outside(registration.object)
    }

    // Whether the registration is dead and its guardian an unordered one.
    fn is_saved(&self, sets: &Sets, registration: &Registration) -> bool
        requires { IsAccessible self.now sets.now }
        ensures { result ≡ (is_dead self.now sets.now.cg registration.now && is_unordered self.now registration.now) }
    {
        if !self.is_dead(sets, registration) {
            return false;
        }
        self.is_unordered(registration)
    }

    // Whether the registration may be ready.
    fn is_candidate(&self, sets: &Sets, registration: &Registration) -> bool
        requires { IsServed self.now sets.now }
        ensures { result ≡ is_candidate self.now sets.now.cg registration.now }
    {
        if !self.is_dead(sets, registration) {
            return false;
        }
        if !self.is_ordered(registration) {
            return false;
        }
        if !sets.served.contains(registration.guardian) {
            return false;
        }
        sets.served.is_outside(registration.object)
    }

    // Whether the registration is a candidate and nothing waits for it.
    fn is_ready(&self, sets: &Sets, registration: &Registration) -> bool
        requires { IsWaitedFor self.now sets.now }
        ensures { result ≡ is_ready self.now sets.now.cg registration.now }
    {
        if !self.is_candidate(sets, registration) {
            return false;
        }
        sets.waited_for.is_outside(registration.object)
    }

    // Whether the registration is a dead one of an ordered guardian, and no candidate.
    fn is_unready(&self, sets: &Sets, registration: &Registration) -> bool
        requires { IsServed self.now sets.now }
        ensures { result ≡ is_unready self.now sets.now.cg registration.now }
    {
        if !self.is_dead(sets, registration) {
            return false;
        }
        if !self.is_ordered(registration) {
            return false;
        }
        !self.is_candidate(sets, registration)
    }

    /// Whether the registration's representative goes into its guardian's queue.
    pub fn is_given(&self, sets: &Sets, registration: &Registration) -> bool
        requires { IsKept self.now sets.now }
        ensures { result ≡ is_given self.now sets.now.cg registration.now }
    {
        if self.is_ready(sets, registration) {
            return true;
        }
        if !self.is_saved(sets, registration) {
            return false;
        }
        sets.kept.contains(registration.guardian)
    }

    // Appends the rules from the guardians of dead registrations that are unordered to the representatives.
    fn push_served(
        &self,
        alloc: Global,
        sets: &Sets,
        rules: &mut Vec<Rule>,
    ) -> Result<(), AllocError>
        requires { IsAccessible self.now sets.now }
        ensures { OnOk result (rules.new.items ≡ rules.old.items ++ served self.now sets.now.cg) }
    {
        for registration in &self.registrations {
            if self.is_saved(sets, registration) {
                push_rule_to(
                    alloc,
                    registration.representative,
                    &[registration.guardian],
                    rules,
                )?;
            }
        }
        Ok(())
    }

    // Appends what would be asked of the object of this birth.
    fn push_as_though_member(
        &self,
        alloc: Global,
        member: u32,
        rules: &mut Vec<Rule>,
    ) -> Result<(), AllocError>
        ensures { OnOk result (rules.new.items ≡ rules.old.items ++ as_though_member self.now member) }
    {
        for (birth, object) in &self.graph {
            if member == *birth {
                object.push_rules_as_though(alloc, member, rules)?;
            }
        }
        Ok(())
    }

    // Appends what would be asked of the value, where it is an object.
    fn push_as_though_value(
        &self,
        alloc: Global,
        value: Value,
        rules: &mut Vec<Rule>,
    ) -> Result<(), AllocError>
        ensures { OnOk result (rules.new.items
            ≡ rules.old.items ++ flat_map (as_though_member self.now) (objects_in (meaning value ∷ []))) }
    {
        match value {
            Value::Object(birth) => self.push_as_though_member(alloc, birth, rules),
            _ => Ok(()),
        }
    }

    // Appends what would be asked of the objects of the candidates.
    fn push_as_though(
        &self,
        alloc: Global,
        sets: &Sets,
        rules: &mut Vec<Rule>,
    ) -> Result<(), AllocError>
        requires { IsServed self.now sets.now }
        ensures { OnOk result (rules.new.items ≡ rules.old.items ++ as_though self.now sets.now.cg) }
    {
        for registration in &self.registrations {
            if self.is_candidate(sets, registration) {
                self.push_as_though_value(alloc, registration.object, rules)?;
            }
        }
        Ok(())
    }

    // Appends the representatives of the candidates that are ready.
    fn push_ready(&self, sets: &Sets, objects: &mut Vec<u32>) -> Result<(), AllocError>
        requires { IsWaitedFor self.now sets.now }
        ensures { OnOk result (objects.new.items
            ≡ objects.old.items ++ objects_in (map (λ r. r.representative) (ready self.now sets.now.cg))) }
    {
        for registration in &self.registrations {
            if self.is_ready(sets, registration) {
                push_object(registration.representative, objects)?;
            }
        }
        Ok(())
    }

    // Appends the rules from the guardians of dead registrations that are ordered, and no candidates, to the objects.
    fn push_unready(
        &self,
        alloc: Global,
        sets: &Sets,
        rules: &mut Vec<Rule>,
    ) -> Result<(), AllocError>
        requires { IsServed self.now sets.now }
        ensures { OnOk result (rules.new.items ≡ rules.old.items ++ unready_rules self.now sets.now.cg) }
    {
        for registration in &self.registrations {
            if self.is_unready(sets, registration) {
                push_rule_to(alloc, registration.object, &[registration.guardian], rules)?;
            }
        }
        Ok(())
    }

    // The rules of what is kept, once the other sets are there.
    fn kept_rules(&self, alloc: Global, sets: &Sets) -> Result<Vec<Rule>, AllocError>
        requires { IsWaitedFor self.now sets.now }
        ensures { IfOk result (λ rules. rules.items ≡ kept_rules_with self.now sets.now.cg sets.now.waited_for) }
    {
        let mut rules = self.rules(alloc)?;
        self.push_served(alloc, sets, &mut rules)?;
        push_facts(alloc, sets.waited_for.members(), &mut rules)?;
        let mut ready = Vec::new(alloc);
        self.push_ready(sets, &mut ready)?;
        push_facts(alloc, &ready, &mut rules)?;
        self.push_unready(alloc, sets, &mut rules)?;
        Ok(rules)
    }

    // What is kept, once the other sets are there.
    fn kept(&self, alloc: Global, sets: &Sets) -> Result<Births, AllocError>
        requires { IsWaitedFor self.now sets.now }
        ensures { IfOk result (λ set. Alike set (kept self.now sets.now.cg)) }
    {
        let rules = self.kept_rules(alloc, sets)?;
        let set = least(alloc, &rules)?;
        Ok(set)
    }

    // A collection of generations up to cg that has not begun.
    fn no_sets(&self, alloc: Global, cg: u8) -> Sets
        ensures { result.cg ≡ cg }
    {
        Sets {
            cg,
            accessible: Births::new(alloc),
            served: Births::new(alloc),
            waited_for: Births::new(alloc),
            kept: Births::new(alloc),
        }
    }

    /// The four sets of a collection of generations up to cg.
    #[tactic(auto, unfolding(trace_types::specs::Kept::accessible, trace_types::specs::Kept::accessible_or_served, trace_types::specs::Kept::waited_for))]
    pub fn sets(&self, alloc: Global, cg: u8) -> Result<Sets, AllocError>
        ensures cg { IfOk result (λ sets. sets.cg ≡ cg) }
        ensures accessible { IfOk result (λ sets. Alike sets.accessible (accessible self.now cg)) }
        ensures served { IfOk result (λ sets. Alike sets.served (accessible_or_served self.now cg)) }
        ensures waited_for { IfOk result (λ sets. Alike sets.waited_for (waited_for self.now cg)) }
        ensures kept { IfOk result (λ sets. Alike sets.kept (kept self.now cg)) }
    {
        let mut sets = self.no_sets(alloc, cg);
        let mut rules = self.rules(alloc)?;
        self.push_roots(alloc, cg, &mut rules)?;
        sets.accessible = least(alloc, &rules)?;
        self.push_served(alloc, &sets, &mut rules)?;
        sets.served = least(alloc, &rules)?;
        self.push_as_though(alloc, &sets, &mut rules)?;
        sets.waited_for = least(alloc, &rules)?;
        sets.kept = self.kept(alloc, &sets)?;
        Ok(sets)
    }
}
