//! The fields of a line, which is split at each space.

ghost use Rattle.std.specs.Prelude.{◌≡◌, ◌≢◌, ◌<◌, ◌==◌, [], ◌∷◌, length, MatchOption, MatchResult, IsTrue, ◌↔◌, position};

use std::marker::Model;
use trace_types::Fault;

/// The fields that are still to come.
#[derive(Drop)]
pub struct Fields<'a> {
    // none are left, or those of this text
    rest: Option<&'a [u8]>,
}

impl<'a> Model for Fields<'a> {
    ghost use Rattle.std.specs.Prelude.{List, ℕ};
    ghost use Rattle.trace_text.specs.Fields.{fields_left};

    ghost Value = { List (List ℕ) };

    ghost view = { λ f. fields_left f.rest };
}

fn first_space(text: &[u8]) -> Option<usize>
    ensures { result ≡ position (λ c. c == 32) text.now }
{
    text.iter().position(|c| *c == b' ')
}

impl<'a> Fields<'a> {
    ghost use Rattle.trace_types.specs.Reading.{fields};
    ghost use Rattle.trace_text.specs.Fields.{fields_of};

    pub fn of(line: &'a [u8]) -> Fields<'a>
        ensures { result ≡ fields line.entry.now }
    {
        Fields { rest: Some(line) }
    }

    /// Takes the first field, and answers None where none is left.
    pub fn next(&mut self) -> Option<&'a [u8]>
        ensures { MatchOption result (self.old ≡ []) (λ field. self.old ≡ field.now ∷ self.new) }
    {
        let text = self.rest?;
        match first_space(text) {
            Some(i) => {
                self.rest = Some(&text[i + 1..]);
                Some(&text[..i])
            }
            None => {
                self.rest = None;
                Some(text)
            }
        }
    }

    /// Whether no field is left.
    pub fn is_empty(&self) -> bool
        ensures { IsTrue result ↔ (self.now ≡ []) }
    {
        self.rest.is_none()
    }

    /// Nothing, where no field is left.
    pub fn none(mut self) -> Result<(), Fault>
        ensures { MatchResult result (λ _. self.entry ≡ []) (λ fault. (fault ≡ Fault.OperandCount) × (length self.entry ≢ 0)) }
    {
        match self.next() {
            None => Ok(()),
            Some(_) => Err(Fault::OperandCount),
        }
    }

    /// The field that is left, where there is just one.
    pub fn one(mut self) -> Result<&'a [u8], Fault>
        ensures { MatchResult result (λ field. self.entry ≡ field.now ∷ []) (λ fault. (fault ≡ Fault.OperandCount) × (length self.entry ≢ 1)) }
    {
        let first = self.next().ok_or(Fault::OperandCount)?;
        self.none()?;
        Ok(first)
    }

    /// The two fields that are left, where there are just two.
    pub fn two(mut self) -> Result<(&'a [u8], &'a [u8]), Fault>
        ensures { MatchResult result (λ r. self.entry ≡ r.0.now ∷ r.1.now ∷ []) (λ fault. (fault ≡ Fault.OperandCount) × (length self.entry ≢ 2)) }
    {
        let first = self.next().ok_or(Fault::OperandCount)?;
        let second = self.one()?;
        Ok((first, second))
    }

    /// The three fields that are left, where there are just three.
    pub fn three(mut self) -> Result<(&'a [u8], &'a [u8], &'a [u8]), Fault>
        ensures { MatchResult result (λ r. self.entry ≡ r.0.now ∷ r.1.now ∷ r.2.now ∷ []) (λ fault. (fault ≡ Fault.OperandCount) × (length self.entry ≢ 3)) }
    {
        let first = self.next().ok_or(Fault::OperandCount)?;
        let (second, third) = self.two()?;
        Ok((first, second, third))
    }

    /// The two or three fields that are left.
    pub fn two_or_three(mut self) -> Result<(&'a [u8], &'a [u8], Option<&'a [u8]>), Fault>
        ensures { MatchResult result (λ r. self.entry ≡ r.0.now ∷ r.1.now ∷ fields_of r.2) (λ fault. (fault ≡ Fault.OperandCount) × (length self.entry ≢ 2) × (length self.entry ≢ 3)) }
    {
        let first = self.next().ok_or(Fault::OperandCount)?;
        let second = self.next().ok_or(Fault::OperandCount)?;
        if self.is_empty() {
            return Ok((first, second, None));
        }
        let third = self.one()?;
        Ok((first, second, Some(third)))
    }

    /// The first two fields, and the others that are left.
    pub fn two_and_others(mut self) -> Result<(&'a [u8], &'a [u8], Fields<'a>), Fault>
        ensures { MatchResult result (λ r. self.entry ≡ r.0.now ∷ r.1.now ∷ r.2) (λ fault. (fault ≡ Fault.OperandCount) × (length self.entry < 2)) }
    {
        let first = self.next().ok_or(Fault::OperandCount)?;
        let second = self.next().ok_or(Fault::OperandCount)?;
        Ok((first, second, self))
    }
}
