//! Territories and registers are dealt out to sweepers: those of number k go to the sweeper of k modulo their number. Of
//! the registers only those are dealt out that hold objects, since a collection leaves the others as they are. They are
//! looked for below a bound that the heap knows.

ghost use Rattle.std.specs.Prelude.{◌≡◌, ◌↔◌, ◌+◌, ◌<◌, ◌≤◌, [], ◌++◌, ◌∷◌, length, replicate, slice_get, IfNone, IfOk, IfSome, IsFalse, IsSome, OnOk};
ghost use Rattle.sweep_model.specs.World.{object_in};
ghost use Rattle.collector.specs.Dealt.{AreDealt, AreRegistersDealt, HoldNone};

use gc_words::Value;
use std::alloc::{AllocError, Global};
use std::marker::Model;
use std::mem::replace;
use territory::Territory;

/// The territories of one sweeper, in the order of their threads.
#[derive(Drop)]
pub(crate) struct OwnTerritories {
    territories: Vec<Territory>,
}

impl Model for OwnTerritories {
    ghost use Rattle.std.specs.Prelude.{List};
    ghost use Rattle.std.specs.Coded.{coded_list};
    ghost use Rattle.territory.specs.Territories.{TerritoryView, coded_territory};

    ghost Value = { List TerritoryView };

    ghost coded = { coded_list coded_territory };

    ghost view = { λ o. o.territories.items };
}

impl OwnTerritories {
    /// These territories.
    pub(crate) fn new(territories: Vec<Territory>) -> OwnTerritories
        ensures { result ≡ territories.items }
    {
        OwnTerritories { territories }
    }

    /// Puts a territory behind the others. Takes memory.
    fn push(&mut self, territory: Territory) -> Result<(), AllocError>
        ensures { OnOk result (self.new ≡ self.old ++ territory ∷ []) }
    {
        self.territories.push(territory)?;
        Ok(())
    }

    /// Takes the last one, where there is one.
    pub(crate) fn pop(&mut self) -> Option<Territory>
        ensures some { IfSome result (λ t. self.old ≡ self.new ++ t ∷ []) }
        ensures none { IfNone result (self.old ≡ []) }
    {
        self.territories.pop()
    }

    /// The territories, in order.
    pub(crate) fn into_territories(self) -> Vec<Territory>
        ensures { result.items ≡ self }
    {
        self.territories
    }
}

/// A list without territories for each of `count` sweepers. Takes memory.
fn none_yet(alloc: Global, count: u32) -> Result<Vec<OwnTerritories>, AllocError>
    ensures { IfOk result (λ v. v.items ≡ replicate count []) }
{
    let mut owns = Vec::new(alloc);
    for _ in 0..count {
        owns.push(OwnTerritories::new(Vec::new(alloc)))?;
    }
    Ok(owns)
}

/// All territories for the one sweeper there is. Takes memory.
fn deal_to_one(
    alloc: Global,
    territories: Vec<Territory>,
) -> Result<Vec<OwnTerritories>, AllocError>
    ensures { IfOk result (λ v. AreDealt 1 territories.items v.items) }
{
    let mut owns = Vec::new(alloc);
    owns.push(OwnTerritories::new(territories))?;
    Ok(owns)
}

/// Deals all territories out to so many sweepers, in their order. Takes memory.
pub(crate) fn deal_territories(
    alloc: Global,
    territories: Vec<Territory>,
    sweepers: u32,
) -> Result<Vec<OwnTerritories>, AllocError>
    requires sweepers { (1 ≤ sweepers) × (sweepers ≤ 64) }
    requires all { length territories.items ≡ 64 }
    ensures { IfOk result (λ v. AreDealt sweepers territories.items v.items) }
{
    // A territory is large: where nothing is to be collected, to move all of them would take longer than all else. One
    // sweeper is given the list as it is.
    if sweepers == 1 {
        return deal_to_one(alloc, territories);
    }
    let mut owns = none_yet(alloc, sweepers)?;
    let mut next = 0;
    for territory in territories {
        owns[next].push(territory)?;
        next = (next + 1) % owns.len();
    }
    Ok(owns)
}

/// The registers of one sweeper that hold objects, each with its number, in the order of the numbers.
#[derive(Drop)]
pub(crate) struct OwnRegisters {
    registers: Vec<(u32, Value)>,
}

impl Model for OwnRegisters {
    ghost use Rattle.collector.specs.Dealt.{NumberedValues};

    ghost Value = { NumberedValues };

    ghost view = { λ o. o.registers.items };
}

impl OwnRegisters {
    /// No registers.
    fn none(alloc: Global) -> OwnRegisters
        ensures { result ≡ [] }
    {
        OwnRegisters {
            registers: Vec::new(alloc),
        }
    }

    /// Puts a register behind the others. Takes memory.
    fn push(&mut self, register: u32, value: Value) -> Result<(), AllocError>
        ensures { OnOk result (self.new ≡ self.old ++ (register, value) ∷ []) }
    {
        self.registers.push((register, value))?;
        Ok(())
    }

    /// Takes all of them.
    pub(crate) fn take(&mut self, alloc: Global) -> Vec<(u32, Value)>
        ensures taken { result.items ≡ self.old }
        ensures after { self.new ≡ [] }
    {
        replace(&mut self.registers, Vec::new(alloc))
    }
}

/// A list without registers for each of `count` sweepers. Takes memory.
fn no_registers(alloc: Global, count: u32) -> Result<Vec<OwnRegisters>, AllocError>
    ensures { IfOk result (λ v. v.items ≡ replicate count []) }
{
    let mut owns = Vec::new(alloc);
    for _ in 0..count {
        owns.push(OwnRegisters::none(alloc))?;
    }
    Ok(owns)
}

/// Whether one of the eight registers from one on holds an object.
// It looks at each of them, with no branch between.
#[inline(always)]
fn is_object_among(registers: &[Value], from: usize) -> bool
    requires { from + 8 ≤ length registers.now }
    ensures { IsFalse result ↔ HoldNone registers.now from (from + 8) }
{
    let mut found = false;
    for i in 0..8 {
        found |= matches!(registers[from + i], Value::Object(_));
    }
    found
}

/// The first register that is not passed, where each eight from one on is passed of which none holds an object.
#[inline(always)]
fn pass_eights(registers: &[Value], from: usize) -> usize
    ensures start { from ≤ result }
    ensures none { HoldNone registers.now from result }
    ensures some { result + 8 ≤ length registers.now → HoldNone registers.now result (result + 8) → ⊥ }
{
    let mut at = from;
    while at < registers.len() && registers.len() - at >= 8 && !is_object_among(registers, at) {
        at += 8;
    }
    at
}

/// The first register from one on that holds an object.
// Most registers hold none, so nearly all the time is spent on passing them, eight at a time. In a larger function this
// would share the machine's registers with the rest.
#[inline(never)]
fn next_object(registers: &[Value], from: usize) -> Option<usize>
    ensures within { IfSome result (λ r. (from ≤ r) × (r < length registers.now)) }
    ensures object { IfSome result (λ r. IsSome (object_in (slice_get registers.now r))) }
    ensures first { IfSome result (λ r. HoldNone registers.now from r) }
    ensures none { IfNone result (HoldNone registers.now from (length registers.now)) }
{
    let start = pass_eights(registers, from);
    for register in start..registers.len() {
        if let Value::Object(_) = registers[register] {
            return Some(register);
        }
    }
    None
}

/// Deals the registers that hold objects out to so many sweepers, in one pass over these. Takes memory.
pub(crate) fn deal_registers(
    alloc: Global,
    registers: &[Value],
    sweepers: u32,
) -> Result<Vec<OwnRegisters>, AllocError>
    requires sweepers { (1 ≤ sweepers) × (sweepers ≤ 64) }
    requires few { length registers.now ≤ 4096 }
    ensures { IfOk result (λ v. AreRegistersDealt sweepers registers.now v.items) }
{
    let mut owns = no_registers(alloc, sweepers)?;
    let mut from = 0;
    while let Some(register) = next_object(registers, from) {
        let number = register % owns.len();
        owns[number].push(register as u32, registers[register])?;
        from = register + 1;
    }
    Ok(owns)
}
