//! Sets of objects, each named by its birth.

ghost use Rattle.std.specs.Prelude.{◌≡◌, ℕ, ◌≤◌, ◌∷◌, ◌++◌, [], length, slice_index_or, false, OnOk};
ghost use Rattle.trace_types.specs.Rules.{has};
ghost use Rattle.trace_types.specs.Kept.{is_outside};
ghost use Rattle.plain_model.specs.Plain.{meaning};

use crate::value::Value;
use std::alloc::{AllocError, Global};
use std::marker::Model;

/// A set of objects, each named by its birth, with a table that tells at once whether an object is in.
#[derive(Drop)]
pub struct Births {
    members: Vec<u32>,
    is_member: Vec<bool>,
}

impl Model for Births {
    ghost use Rattle.std.specs.Prelude.{◌≡◌, ℕ, List, slice_index_or, false};
    ghost use Rattle.trace_types.specs.Rules.{has};

    ghost Value = { List ℕ };

    ghost view = { λ s. s.members.items };

    ghost invariant = { λ s. (x : ℕ) → has s.members.items x ≡ slice_index_or s.is_member.items x false };
}

// Makes the table at least so long; what is new is false.
fn lengthen(table: &mut Vec<bool>, count: usize) -> Result<(), AllocError>
    ensures same { (x : ℕ) → slice_index_or table.new.items x false ≡ slice_index_or table.old.items x false }
    ensures long { OnOk result (count ≤ length table.new.items) }
{
    if table.len() < count {
        table.resize(count, false)?;
    }
    Ok(())
}

impl Births {
    /// No object.
    pub fn new(alloc: Global) -> Births
        ensures { result ≡ [] }
    {
        Births {
            members: Vec::new(alloc),
            is_member: Vec::new(alloc),
        }
    }

    /// Whether the object is in the set.
    pub fn contains(&self, birth: u32) -> bool
        ensures { result ≡ has self.now birth }
    {
        let place = birth as usize;
        if place < self.is_member.len() {
            self.is_member[place]
        } else {
            false
        }
    }

    /// Puts an object into the set.
    pub fn insert(&mut self, birth: u32) -> Result<(), AllocError>
        ensures { OnOk result (self.new ≡ self.old ++ birth ∷ []) }
    {
        let place = birth as usize;
        lengthen(&mut self.is_member, place + 1)?;
        self.members.push(birth)?;
        self.is_member[place] = true;
        Ok(())
    }

    /// The objects of the set.
    pub fn members(&self) -> &[u32]
        ensures { result.now ≡ self.now }
    {
        &self.members
    }

    /// Whether the value is an object outside the set.
    pub fn is_outside(&self, value: Value) -> bool
        ensures { result ≡ is_outside self.now (meaning value) }
    {
        match value {
            Value::Object(birth) => !self.contains(birth),
            _ => false,
        }
    }
}
