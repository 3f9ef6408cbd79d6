//! What a collection leaves.

ghost use Rattle.std.specs.Prelude.{◌≡◌, ◌==◌, ◌++◌, ◌&&◌, map, IfOk, OnOk, OnErr};
ghost use Rattle.trace_types.specs.States as states;
ghost use Rattle.trace_types.specs.Rules.{has};
ghost use Rattle.trace_types.specs.Values.{object_at};
ghost use Rattle.trace_types.specs.Kept.{is_given};
ghost use Rattle.trace_types.specs.Collections.{collect, fields_left, graph_left, is_note_gone, note_left, object_left, queued_for, registrations_left, unless_outside};
ghost use Rattle.plain_model.specs.Plain.{meaning, queued, note_meaning};
ghost use Rattle.plain_model.specs.Reached.{IsKept};

use crate::arguments::Arguments;
use crate::births::Births;
use crate::kinds::is_immobile;
use crate::note::Note;
use crate::object::Object;
use crate::registration::Registration;
use crate::sets::Sets;
use crate::state::State;
use crate::value::Value;
use std::alloc::{AllocError, Global};
use trace_types::Kind;

impl Births {
    // The value, broken where it is an object outside the set.
    fn unless_outside(&self, value: Value) -> Value
        ensures { meaning result ≡ unless_outside self.now (meaning value) }
    {
        if self.is_outside(value) {
            Value::Bwp
        } else {
            value
        }
    }

    // What is left of the fields of an object of this kind, where the set is kept.
    fn fields_left(
        &self,
        alloc: Global,
        kind: Kind,
        fields: &[Value],
    ) -> Result<Vec<Value>, AllocError>
        ensures { IfOk result (λ left. map meaning left.items ≡ fields_left self.now kind (map meaning fields.now)) }
    {
        let mut left = fields.to_vec(alloc)?;
        match kind {
            Kind::Weak => {
                if left.len() > 0 {
                    left[0] = self.unless_outside(left[0]);
                }
                Ok(left)
            }
            Kind::Eph => {
                if left.len() > 1 && self.is_outside(left[0]) {
                    left[0] = Value::Bwp;
                    left[1] = Value::Bwp;
                }
                Ok(left)
            }
            _ => Ok(left),
        }
    }
}

impl State {
    // Whether the registration's representative goes into the queue of this guardian.
    fn is_given_to(&self, sets: &Sets, guardian: u32, registration: &Registration) -> bool
        requires { IsKept self.now sets.now }
        ensures { result ≡ (is_given self.now sets.now.cg registration.now && (guardian == registration.now.guardian)) }
    {
        if guardian != registration.guardian {
            return false;
        }
        self.is_given(sets, registration)
    }

    // Appends the representatives that the guardian is given, each with its line.
    fn push_given(
        &self,
        sets: &Sets,
        guardian: u32,
        queue: &mut Vec<(Value, u32)>,
    ) -> Result<(), AllocError>
        requires { IsKept self.now sets.now }
        ensures { OnOk result (map queued queue.new.items
            ≡ map queued queue.old.items ++ queued_for self.now sets.now.cg guardian) }
    {
        for registration in &self.registrations {
            if self.is_given_to(sets, guardian, registration) {
                queue.push((registration.representative, registration.line))?;
            }
        }
        Ok(())
    }

    // What is left of a kept object.
    fn object_left(
        &self,
        alloc: Global,
        sets: &Sets,
        a: Arguments,
        birth: u32,
        object: &Object,
    ) -> Result<Object, AllocError>
        requires sets { IsKept self.now sets.now }
        requires same { sets.now.cg ≡ a.cg }
        ensures { IfOk result (λ left. left ≡ object_left self.now a birth object.now) }
    {
        let fields = sets.kept.fields_left(alloc, object.kind, &object.fields)?;
        let mut queue = object.queue.to_vec(alloc)?;
        self.push_given(sets, birth, &mut queue)?;
        Ok(Object {
            kind: object.kind,
            creator: object.creator,
            generation: a.target(object.generation),
            fields,
            queue,
        })
    }

    // The kept objects.
    fn graph_left(
        &self,
        alloc: Global,
        sets: &Sets,
        a: Arguments,
    ) -> Result<Vec<(u32, Object)>, AllocError>
        requires sets { IsKept self.now sets.now }
        requires same { sets.now.cg ≡ a.cg }
        ensures { IfOk result (λ graph. graph.items ≡ graph_left self.now a) }
    {
        let mut graph = Vec::new(alloc);
        for (birth, object) in &self.graph {
            if sets.kept.contains(*birth) {
                let left = self.object_left(alloc, sets, a, *birth, object)?;
                graph.push((*birth, left))?;
            }
        }
        Ok(graph)
    }

    // The registrations of kept guardians, but for those that were given.
    fn registrations_left(
        &self,
        alloc: Global,
        sets: &Sets,
    ) -> Result<Vec<Registration>, AllocError>
        requires { IsKept self.now sets.now }
        ensures { IfOk result (λ left. left.items ≡ registrations_left self.now sets.now.cg) }
    {
        let mut left = Vec::new(alloc);
        for registration in &self.registrations {
            if sets.kept.contains(registration.guardian) && !self.is_given(sets, registration) {
                left.push(registration.copy())?;
            }
        }
        Ok(left)
    }

    // Whether the object is locked.
    fn is_locked(&self, birth: u32) -> bool
        ensures { result ≡ has (states.locked self.now) birth }
    {
        for entry in &self.locks {
            if entry.0 == birth {
                return true;
            }
        }
        false
    }

    // Whether a note of the object goes.
    fn is_note_gone(&self, sets: &Sets, birth: u32) -> bool
        requires { IsKept self.now sets.now }
        ensures { result ≡ is_note_gone self.now sets.now.cg birth (object_at self.now.graph birth) }
    {
        match self.object_at(birth) {
            Some(object) => {
                if object.generation > sets.cg {
                    return false;
                }
                if !sets.kept.contains(birth) {
                    return true;
                }
                if is_immobile(object.kind) {
                    return false;
                }
                !self.is_locked(birth)
            }
            None => false,
        }
    }

    // What becomes of a note.
    fn note_left(&self, sets: &Sets, note: Note) -> Note
        requires { IsKept self.now sets.now }
        ensures { note_meaning result ≡ note_left self.now sets.now.cg (note_meaning note) }
    {
        match note {
            Note::SetTo(birth) => {
                if self.is_note_gone(sets, birth) {
                    Note::Gone
                } else {
                    note
                }
            }
            _ => note,
        }
    }

    // What becomes of the notes.
    fn notes_left(&self, alloc: Global, sets: &Sets) -> Result<Vec<Note>, AllocError>
        requires { IsKept self.now sets.now }
        ensures { IfOk result (λ left. map note_meaning left.items ≡ map (note_left self.now sets.now.cg) self.now.notes) }
    {
        let mut left = Vec::new(alloc);
        for note in &self.notes {
            left.push(self.note_left(sets, *note))?;
        }
        Ok(left)
    }

    /// Collects with these arguments. Refused, the state is as it was.
    #[tactic(auto, unfolding(trace_types::specs::Collections::collect))]
    pub fn collect(&mut self, alloc: Global, a: Arguments) -> Result<(), AllocError>
        ensures collects { OnOk result (self.new ≡ collect self.old a) }
        ensures refused { OnErr result (self.new ≡ self.old) }
    {
        let sets = self.sets(alloc, a.cg)?;
        let graph = self.graph_left(alloc, &sets, a)?;
        let notes = self.notes_left(alloc, &sets)?;
        let registrations = self.registrations_left(alloc, &sets)?;
        self.graph = graph;
        self.notes = notes;
        self.registrations = registrations;
        Ok(())
    }
}

#[cfg(test)]
mod tests {
    use super::*;
    use crate::arguments::plain_arguments;
    use std::test::Fail;
    use trace_types::Register;

    // A pair that refers to another is given first, and the other one by the next collection, once the queue of the
    // guardian no longer has the first. (The case `ordered-first-the-one-that-refers` of conformance/.)
    #[test]
    fn ordered_guardian_gives_the_one_that_refers_first(rt: HostRuntime) -> Result<(), Fail> {
        let alloc = rt.alloc();
        let mut state = State::opening(alloc, 3)?;
        let d = Register::new(0).ok_or("no register")?;
        let other = Register::new(1).ok_or("no register")?;
        state.with_new(alloc, 1, d, Kind::OrderedGuard, Vec::new(alloc))?;
        let fields = Vec::from_slice(alloc, &[Value::Fixnum(2), Value::Nil])?;
        state.with_new(alloc, 2, other, Kind::Pair, fields)?;
        let fields = Vec::from_slice(alloc, &[Value::Fixnum(1), Value::Object(2)])?;
        state.with_new(alloc, 3, other, Kind::Pair, fields)?;
        state.with_register(other, Value::Nil);
        for (line, birth) in [(4, 2), (5, 3)] {
            state.registrations.push(Registration {
                line,
                guardian: 1,
                object: Value::Object(birth),
                representative: Value::Object(birth),
            })?;
        }
        for (n, given) in [(1, (Value::Object(3), 5)), (4, (Value::Object(2), 4))] {
            state.collect(alloc, plain_arguments(3, n))?;
            let guardian = state.object_at(1).ok_or("no guardian")?;
            assert_eq!(rt; guardian.queue.as_slice(), [given].as_slice());
            let emptied = state.new_object(alloc, Kind::OrderedGuard, Vec::new(alloc));
            state.with_object(1, emptied)?;
        }
        Ok(())
    }
}
