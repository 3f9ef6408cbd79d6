//! The registers of a sweeper.

ghost use Rattle.std.specs.Prelude.{◌≡◌, ◌<◌, IsSome, Some, length};
ghost use Rattle.sweep_share.specs.Registers.{AreRegistersOf, IsSet, item_at, register_in};

use gc_words::{Address, Value};
use std::marker::Model;

/// Registers whose numbers leave `number` when divided by `sweepers`, each with what it holds. A collection deals out
/// those that hold objects.
#[derive(Drop)]
pub struct Registers {
    number: u32,
    sweepers: u32,
    /// In ascending order of their numbers.
    items: Vec<(u32, Value)>,
}

impl Model for Registers {
    ghost use Rattle.sweep_share.specs.Registers.{AreRegistersOf, RegistersView};

    ghost Value = { RegistersView };

    ghost view = { λ s. record { number = s.number; sweepers = s.sweepers; items = s.items.items } };

    ghost invariant = { λ s. AreRegistersOf s.number s.sweepers s.items.items };
}

impl Registers {
    /// These registers, in ascending order of their numbers.
    pub fn new(number: u32, sweepers: u32, items: Vec<(u32, Value)>) -> Registers
        requires { AreRegistersOf number sweepers items.items }
        ensures { result ≡ record { number = number; sweepers = sweepers; items = items.items } }
    {
        Registers {
            number,
            sweepers,
            items,
        }
    }

    /// How many registers there are.
    pub fn len(&self) -> usize
        ensures { result ≡ length self.now.items }
    {
        self.items.len()
    }

    /// The register at an index: its number, and what it holds.
    pub fn get(&self, i: usize) -> (u32, Value)
        requires { i < length self.now.items }
        ensures value { result ≡ item_at self.now.items i }
        ensures holds { register_in self.now result.0 ≡ Some result.1 }
    {
        self.items[i]
    }

    /// Where register r stands.
    fn index_of(&self, r: u32) -> usize
        requires { IsSome (register_in self.now r) }
        ensures within { result < length self.now.items }
        ensures number { (item_at self.now.items result).0 ≡ r }
    {
        self.items.partition_point(|item| item.0 < r)
    }

    /// Lets register r hold the object at a place.
    pub fn set(&mut self, r: u32, place: Address)
        requires { IsSome (register_in self.old r) }
        ensures { IsSet self.old self.new r place }
    {
        let i = self.index_of(r);
        self.items[i] = (r, Value::Object(place));
    }

    /// The registers again, in the same order.
    pub fn into_items(self) -> Vec<(u32, Value)>
        ensures value { result.items ≡ self.items }
        ensures numbers { AreRegistersOf self.number self.sweepers result.items }
    {
        self.items
    }
}
