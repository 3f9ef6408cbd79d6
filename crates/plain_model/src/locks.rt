//! The commands on locks and notes.

ghost use Rattle.std.specs.Prelude.{◌≡◌, not, ◌==◌, IsTrue, OnOk, IfOk, filter, set, slice_index_or};
ghost use Rattle.std.specs.FinMap.{is_sorted};
ghost use Rattle.std.specs.Ordering.{nat_cmp};
ghost use Rattle.trace_types.specs.States as states;
ghost use Rattle.trace_types.specs.Steps.{step, with_lock_count, is_same_object};
ghost use Rattle.plain_model.specs.Plain.{meaning, note_meaning};
ghost use Rattle.plain_model.specs.Stepping.{Answers, CountsBelow};

use crate::entries::put_entry;
use crate::kinds::is_immobile;
use crate::lines::push_check;
use crate::note::Note;
use crate::state::State;
use crate::stop::Stop;
use crate::value::Value;
use std::alloc::{AllocError, Global};
use trace_types::{Command, Fault, Operand, Register};

// The locks but for the one of this birth.
fn without(alloc: Global, locks: &[(u32, u32)], birth: u32) -> Result<Vec<(u32, u32)>, AllocError>
    ensures { IfOk result (λ v. v.items ≡ filter (λ entry. not (birth == entry.0)) locks.now) }
{
    let mut others = Vec::new(alloc);
    for (other, count) in locks {
        if birth != *other {
            others.push((*other, *count))?;
        }
    }
    Ok(others)
}

impl Value {
    /// Whether the value is this object.
    fn is_same_object(self, birth: u32) -> bool
        ensures { result ≡ is_same_object birth (meaning self) }
    {
        match self {
            Value::Object(other) => birth == other,
            _ => false,
        }
    }
}

impl State {
    /// Gives the object this lock count.
    fn with_lock_count(&mut self, alloc: Global, birth: u32, count: u32) -> Result<(), AllocError>
        requires { IsTrue (is_sorted nat_cmp self.old.locks) }
        ensures { OnOk result (self.new ≡ with_lock_count self.old birth count) }
    {
        if count == 0 {
            self.locks = without(alloc, &self.locks, birth)?;
        } else {
            put_entry(&mut self.locks, birth, count)?;
        }
        Ok(())
    }

    /// The note of this number.
    fn note_at(&self, k: u8) -> Note
        ensures { note_meaning result ≡ slice_index_or self.now.notes k states.empty }
    {
        self.notes[k as usize]
    }

    /// Sets a note to the place of the object of this birth.
    fn with_note(&mut self, k: u8, birth: u32)
        ensures { self.new ≡ record self.old { notes = set self.old.notes k (states.set_to birth) } }
    {
        self.notes[k as usize] = Note::SetTo(birth);
    }

    /// `lock`.
    #[tactic(auto, unfolding(trace_types::specs::Steps::step))]
    pub(crate) fn lock(&mut self, alloc: Global, line: u32, value: Operand) -> Result<Vec<u8>, Stop>
        requires sorted { IsTrue (is_sorted nat_cmp self.old.locks) }
        requires counts { CountsBelow line self.old }
        ensures { Answers (step self.old line (Command.Lock value)) result self.old self.new }
    {
        let (birth, _) = self.object_of(self.operand_value(value))?;
        let count = self.lock_count(birth);
        self.with_lock_count(alloc, birth, count + 1)?;
        Ok(Vec::new(alloc))
    }

    /// `unlock`.
    #[tactic(auto, unfolding(trace_types::specs::Steps::step))]
    pub(crate) fn unlock(&mut self, alloc: Global, value: Operand) -> Result<Vec<u8>, Stop>
        requires { IsTrue (is_sorted nat_cmp self.old.locks) }
        ensures { Answers (step self.old 0 (Command.Unlock value)) result self.old self.new }
    {
        let (birth, _) = self.object_of(self.operand_value(value))?;
        let count = self.lock_count(birth);
        if count == 0 {
            return Err(Stop::Fault(Fault::NotLocked));
        }
        self.with_lock_count(alloc, birth, count - 1)?;
        Ok(Vec::new(alloc))
    }

    /// `note`.
    #[tactic(auto, unfolding(trace_types::specs::Steps::step))]
    pub(crate) fn note(&mut self, alloc: Global, k: u8, r: Register) -> Result<Vec<u8>, Stop>
        ensures { Answers (step self.old 0 (Command.Note k r)) result self.old self.new }
    {
        let (birth, object) = self.object_of(self.register_value(r))?;
        if is_immobile(object.kind) || self.lock_count(birth) > 0 {
            self.with_note(k, birth);
            Ok(Vec::new(alloc))
        } else {
            Err(Stop::Fault(Fault::NotFixed))
        }
    }

    /// `check`: the text.
    #[tactic(auto, unfolding(trace_types::specs::Steps::step))]
    pub(crate) fn check(&self, alloc: Global, k: u8, r: Register) -> Result<Vec<u8>, Stop>
        ensures { Answers (step self.now 0 (Command.Check k r)) result self.now self.now }
    {
        let mut text = Vec::new(alloc);
        match self.note_at(k) {
            Note::Empty => return Err(Stop::Fault(Fault::BadNote)),
            Note::Gone => push_check(k, b"gone", &mut text)?,
            Note::SetTo(birth) => {
                if self.register_value(r).is_same_object(birth) {
                    push_check(k, b"kept", &mut text)?
                } else {
                    push_check(k, b"other", &mut text)?
                }
            }
        }
        Ok(text)
    }
}
