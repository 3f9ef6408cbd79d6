//! Why an object is kept, and how much it holds.

ghost use Rattle.std.specs.Prelude.{◌≡◌, ◌∷◌, [], ◌++◌, map, flat_map, option_map, IfOk, OnOk};
ghost use Rattle.std.specs.Prelude.{MatchOption, Some, None};
ghost use Rattle.std.specs.FinMap.{find};
ghost use Rattle.std.specs.Ordering.{nat_cmp};
ghost use Rattle.trace_types.specs.Values.{object_at, size_of};
ghost use Rattle.trace_types.specs.Kept.{strong_rules};
ghost use Rattle.trace_types.specs.Finder as finder;
ghost use Rattle.trace_types.specs.Steps.{size_from};
ghost use Rattle.plain_model.specs.Plain.{meaning};
ghost use Rattle.plain_model.specs.Walks.{through, listed, longer_walk, held};

use crate::census::{push_counts, sizes_among};
use crate::object::Object;
use crate::rounds::least;
use crate::rule::{Rule, push_facts};
use crate::state::State;
use crate::text::push_word;
use crate::value::Value;
use std::alloc::{AllocError, Global};
use std::marker::Model;
use trace_types::Kind;

/// A walk along strong references: where it begins, and the index of each step.
#[derive(Drop)]
struct Walk {
    from: u32,
    indexes: Vec<u64>,
}

impl Model for Walk {
    ghost use Rattle.std.specs.Prelude.{ℕ, List};

    ghost Value = { ℕ × List ℕ };

    ghost view = { λ w. (w.from, w.indexes.items) };
}

// The walk from the object.
fn walk_from(walks: &[Walk], from: u32) -> Option<&Walk>
    ensures { MatchOption result (find nat_cmp from walks.now
        ≡ None) (λ w. find nat_cmp from walks.now ≡ Some w.now.1) }
{
    for walk in walks {
        if walk.from == from {
            return Some(walk);
        }
    }
    None
}

impl Walk {
    // The indexes again.
    fn copied(&self, alloc: Global) -> Result<Vec<u64>, AllocError>
        ensures { IfOk result (λ v. v.items ≡ self.now.1) }
    {
        Vec::from_slice(alloc, &self.indexes)
    }

    // The walk with a step before it.
    fn after(&self, alloc: Global, index: u64) -> Result<Vec<u64>, AllocError>
        ensures { IfOk result (λ v. v.items ≡ index ∷ self.now.1) }
    {
        let mut indexes = Vec::from_slice(alloc, &[index])?;
        indexes.extend_from_slice(&self.indexes)?;
        Ok(indexes)
    }
}

// The walk that goes on from the value of this index, where that is an object from which there is one.
fn through_value(
    alloc: Global,
    walks: &[Walk],
    index: u64,
    value: Value,
) -> Result<Option<Vec<u64>>, AllocError>
    ensures { IfOk result (λ found. option_map (λ w. w.items) found
        ≡ through (λ y. find nat_cmp y walks.now) (finder.indexed index (meaning value ∷ []))) }
{
    let Value::Object(to) = value else {
        return Ok(None);
    };
    match walk_from(walks, to) {
        Some(walk) => {
            let longer = walk.after(alloc, index)?;
            Ok(Some(longer))
        }
        None => Ok(None),
    }
}

// The first walk that goes on from one of the values, of which the first has this index.
fn through_values(
    alloc: Global,
    walks: &[Walk],
    first: u8,
    values: &[Value],
) -> Result<Option<Vec<u64>>, AllocError>
    ensures { IfOk result (λ found. option_map (λ w. w.items) found
        ≡ through (λ y. find nat_cmp y walks.now) (finder.indexed first (map meaning values.now))) }
{
    for (place, value) in values.iter().enumerate() {
        let index = u64::from(first) + place as u64;
        let found = through_value(alloc, walks, index, *value)?;
        if found.is_some() {
            return Ok(found);
        }
    }
    Ok(None)
}

impl Object {
    // The index of the first strong value: the car of a weak pair is none.
    fn first_index(&self) -> u8
        ensures { result ≡ finder.first_index self.now.kind }
    {
        match self.kind {
            Kind::Weak => 1,
            _ => 0,
        }
    }
}

// The first walk from the object that is a step longer than these.
fn longer_from(
    alloc: Global,
    state: &State,
    walks: &[Walk],
    from: u32,
) -> Result<Option<Vec<u64>>, AllocError>
    ensures { IfOk result (λ found. option_map (λ w. w.items) found
        ≡ through (λ y. find nat_cmp y walks.now) (finder.steps_at (object_at state.now.graph from))) }
{
    match state.object_at(from) {
        Some(object) => {
            let values = object.strong_values(alloc)?;
            through_values(alloc, walks, object.first_index(), &values)
        }
        None => Ok(None),
    }
}

// Appends the walk, where there is one.
fn push_walk(walks: &mut Vec<Walk>, from: u32, indexes: Option<Vec<u64>>) -> Result<(), AllocError>
    ensures { OnOk result (walks.new.items ≡ walks.old.items
        ++ listed from (option_map (λ w. w.items) indexes)) }
{
    match indexes {
        Some(indexes) => {
            walks.push(Walk { from, indexes })?;
            Ok(())
        }
        None => Ok(()),
    }
}

// Appends the first walk from the object that is a step longer than these, where there is one.
#[tactic(auto, unfolding(crate::specs::Walks::longer_walk))]
fn push_longer(
    alloc: Global,
    state: &State,
    walks: &[Walk],
    from: u32,
    found: &mut Vec<Walk>,
) -> Result<(), AllocError>
    ensures { OnOk result (found.new.items ≡ found.old.items ++ longer_walk state.now.graph walks.now from) }
{
    let indexes = longer_from(alloc, state, walks, from)?;
    push_walk(found, from, indexes)?;
    Ok(())
}

// The first walks from each object that are a step longer than these.
fn longer(alloc: Global, state: &State, walks: &[Walk]) -> Result<Vec<Walk>, AllocError>
    ensures { IfOk result (λ v. v.items
        ≡ flat_map (λ entry. longer_walk state.now.graph walks.now entry.0) state.now.graph) }
{
    let mut found = Vec::new(alloc);
    for (from, _) in state.graph() {
        push_longer(alloc, state, walks, *from, &mut found)?;
    }
    Ok(found)
}

// The walk without a step, which ends where it begins.
fn standing(alloc: Global, at: u32) -> Result<Vec<Walk>, AllocError>
    ensures { IfOk result (λ v. v.items ≡ (at, []) ∷ []) }
{
    let mut walks = Vec::new(alloc);
    let walk = Walk {
        from: at,
        indexes: Vec::new(alloc),
    };
    walks.push(walk)?;
    Ok(walks)
}

/// Among the walks of least length from object a to object b, the first.
#[tactic(auto, unfolding(trace_types::specs::Finder::path))]
pub fn path(alloc: Global, state: &State, a: u32, b: u32) -> Result<Option<Vec<u64>>, AllocError>
    ensures { IfOk result (λ found. option_map (λ w. w.items) found ≡ finder.path state.now.graph a b) }
{
    let mut walks = standing(alloc, b)?;
    for _steps in 0..state.graph().len() {
        match walk_from(&walks, a) {
            Some(walk) => {
                let indexes = walk.copied(alloc)?;
                return Ok(Some(indexes));
            }
            None => {}
        }
        walks = longer(alloc, state, &walks)?;
    }
    Ok(None)
}

// Appends the rules from each object to what it holds strongly.
fn push_strong_rules(
    alloc: Global,
    graph: &[(u32, Object)],
    rules: &mut Vec<Rule>,
) -> Result<(), AllocError>
    ensures { OnOk result (rules.new.items ≡ rules.old.items
        ++ flat_map (λ entry. strong_rules entry.0 entry.1) graph.now) }
{
    for (birth, object) in graph {
        object.push_strong_rules(alloc, *birth, rules)?;
    }
    Ok(())
}

// The sizes of the objects that are reached from an object.
#[tactic(auto, unfolding(trace_types::specs::Finder::reach))]
fn reached_sizes(alloc: Global, state: &State, birth: u32) -> Result<Vec<u64>, AllocError>
    ensures { IfOk result (λ sizes. sizes.items
        ≡ map (λ entry. size_of entry.1.kind entry.1.fields) (finder.reached state.now.graph birth)) }
{
    let mut rules = Vec::new(alloc);
    push_facts(alloc, &[birth], &mut rules)?;
    push_strong_rules(alloc, state.graph(), &mut rules)?;
    let set = least(alloc, &rules)?;
    let sizes = sizes_among(alloc, state.graph(), &set)?;
    Ok(sizes)
}

// The same from a value.
fn held_sizes(alloc: Global, state: &State, value: Value) -> Result<Vec<u64>, AllocError>
    ensures { IfOk result (λ sizes. sizes.items
        ≡ map (λ entry. size_of entry.1.kind entry.1.fields) (held state.now.graph (meaning value))) }
{
    match value {
        Value::Object(birth) => reached_sizes(alloc, state, birth),
        _ => Ok(Vec::new(alloc)),
    }
}

/// Appends how many objects and words are reached from the value.
pub fn push_size(
    alloc: Global,
    state: &State,
    value: Value,
    text: &mut Vec<u8>,
) -> Result<(), AllocError>
    ensures { OnOk result (text.new.items ≡ text.old.items ++ size_from state.now.graph (meaning value)) }
{
    let sizes = held_sizes(alloc, state, value)?;
    push_word(text, b"size ")?;
    push_counts(&sizes, text)
}
