//! The least set that meets all rules.

ghost use Rattle.std.specs.Prelude.{◌≡◌, ◌∷◌, [], ◌++◌, ◌&&◌, not, if◌then◌else◌, IfOk};
ghost use Rattle.trace_types.specs.Rules.{has, has_premises};
ghost use Rattle.trace_types.specs.Rules as rules_of;
ghost use Rattle.plain_model.specs.Plain.{Alike, IsRound};

use crate::births::Births;
use crate::rule::Rule;
use std::alloc::{AllocError, Global};

// Puts the conclusion into the set, where it is not there and all premises are. Tells whether it did.
fn conclude(rule: &Rule, set: &mut Births) -> Result<bool, AllocError>
    ensures added { IfOk result (λ added.
        added ≡ (not (has set.old rule.now.conclusion) && has_premises set.old rule.now)) }
    ensures set { IfOk result (λ added. set.new ≡ (if added then set.old ++ rule.now.conclusion ∷ [] else set.old)) }
{
    if set.contains(rule.conclusion) {
        return Ok(false);
    }
    if !rule.has_premises(set) {
        return Ok(false);
    }
    set.insert(rule.conclusion)?;
    Ok(true)
}

// Goes over the rules once, and puts each conclusion into the set whose premises are there. Tells whether one was new.
// It begins with the last rules, which are those of the newest objects, since most objects refer to older ones.
fn round(rules: &[Rule], set: &mut Births) -> Result<bool, AllocError>
    ensures { IfOk result (λ added. IsRound set.old set.new added rules.now rules.now) }
{
    let mut added = false;
    let mut left = rules.len();
    while left > 0 {
        left -= 1;
        let more = conclude(&rules[left], set)?;
        added |= more;
    }
    Ok(added)
}

/// The least set of objects that meets every rule. It goes over the rules until none has anything to add.
#[tactic(auto, unfolding(trace_types::specs::Rules::least))]
pub fn least(alloc: Global, rules: &[Rule]) -> Result<Births, AllocError>
    ensures { IfOk result (λ set. Alike set (rules_of.least rules.now)) }
{
    let mut set = Births::new(alloc);
    for _round in 0..rules.len() {
        let added = round(rules, &mut set)?;
        if !added {
            return Ok(set);
        }
    }
    Ok(set)
}
