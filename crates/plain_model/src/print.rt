//! The printed graph of a value.

ghost use Rattle.std.specs.Prelude.{◌≡◌, ◌++◌, ◌∷◌, [], Some, IsTrue, map, fold, IfOk, OnOk, flat_map};
ghost use Rattle.std.specs.List.{list_all};
ghost use Rattle.trace_types.specs.Values.{object_at, objects_in, is_byte, has_bytes};
ghost use Rattle.trace_types.specs.Printing.{contents, with_number, numbering, numbered_at};
ghost use Rattle.trace_types.specs.Printing.{value_text, byte_text, content_text, object_line, print_text};
ghost use Rattle.plain_model.specs.Plain.{meaning, queued};
ghost use Rattle.plain_model.specs.Bytes.{are_bytes, HasBytes};

use crate::kinds::{has_bytes, is_guardian};
use crate::object::Object;
use crate::state::State;
use crate::text::{push_byte, push_generation, push_number, push_value, push_word};
use crate::value::Value;
use std::alloc::{AllocError, Global};

/// Appends the value, and a line for each object that is reached from it, in the order of first visit.
#[tactic(auto, unfolding(trace_types::specs::Printing::print_text))]
pub fn push_print(
    alloc: Global,
    state: &State,
    value: Value,
    text: &mut Vec<u8>,
) -> Result<(), AllocError>
    requires { HasBytes state.now.graph }
    ensures { OnOk result (text.new.items ≡ text.old.items ++ print_text state.now.graph (meaning value)) }
{
    let births = numbering(alloc, state, value)?;
    push_word(text, b"= ")?;
    push_value(text, &births, value)?;
    push_word(text, b"\n")?;
    push_objects(state, &births, text)
}

// The births of the objects that a print of the value shows, in the order of first visit.
fn numbering(alloc: Global, state: &State, value: Value) -> Result<Vec<u32>, AllocError>
    ensures { IfOk result (λ births. births.items ≡ numbering state.now.graph (meaning value)) }
{
    let mut births = Vec::new(alloc);
    number_value(value, &mut births)?;
    for at in 0..state.graph().len() {
        if at < births.len() {
            number_contents(state, births[at], &mut births)?;
        }
    }
    Ok(births)
}

// Gives numbers to what the object of the birth refers to.
fn number_contents(state: &State, birth: u32, births: &mut Vec<u32>) -> Result<(), AllocError>
    ensures { OnOk result (births.new.items ≡ numbered_at state.now.graph (Some birth) births.old.items) }
{
    match state.object_at(birth) {
        Some(object) => object.number_contents(births),
        None => Ok(()),
    }
}

// Gives a number to the object that the value is, where it has none.
fn number_value(value: Value, births: &mut Vec<u32>) -> Result<(), AllocError>
    ensures { OnOk result (births.new.items
        ≡ fold with_number births.old.items (objects_in (meaning value ∷ []))) }
{
    if let Value::Object(birth) = value {
        if !births.contains(&birth) {
            births.push(birth)?;
        }
    }
    Ok(())
}

fn number_values(values: &[Value], births: &mut Vec<u32>) -> Result<(), AllocError>
    ensures { OnOk result (births.new.items
        ≡ fold with_number births.old.items (objects_in (map meaning values.now))) }
{
    for value in values {
        number_value(*value, births)?;
    }
    Ok(())
}

fn number_queue(queue: &[(Value, u32)], births: &mut Vec<u32>) -> Result<(), AllocError>
    ensures { OnOk result (births.new.items
        ≡ fold with_number births.old.items (objects_in (map (λ e. e.0) (map queued queue.now)))) }
{
    for (value, _) in queue {
        number_value(*value, births)?;
    }
    Ok(())
}

impl Object {
    // Gives numbers to the objects in it that have none.
    fn number_contents(&self, births: &mut Vec<u32>) -> Result<(), AllocError>
        ensures { OnOk result (births.new.items
            ≡ fold with_number births.old.items (objects_in (contents self.now))) }
    {
        if is_guardian(self.kind) {
            number_queue(&self.queue, births)
        } else {
            number_values(&self.fields, births)
        }
    }

    // Appends the fields or the queued values, each after a space.
    fn push_contents(&self, births: &[u32], text: &mut Vec<u8>) -> Result<(), AllocError>
        requires { IsTrue (are_bytes self.now) }
        ensures { OnOk result (text.new.items ≡ text.old.items
            ++ flat_map (content_text births.now self.now.kind) (contents self.now)) }
    {
        if is_guardian(self.kind) {
            return push_queue(&self.queue, births, text);
        }
        if has_bytes(self.kind) {
            return push_bytes(&self.fields, text);
        }
        push_values(&self.fields, births, text)
    }

    // Appends the line of the object.
    fn push_line(&self, birth: u32, births: &[u32], text: &mut Vec<u8>) -> Result<(), AllocError>
        requires { IsTrue (are_bytes self.now) }
        ensures { OnOk result (text.new.items ≡ text.old.items
            ++ object_line births.now birth (Some self.now)) }
    {
        push_value(text, births, Value::Object(birth))?;
        push_word(text, b" ")?;
        push_word(text, self.kind.word().as_bytes())?;
        push_word(text, b" g")?;
        push_generation(text, self.generation)?;
        push_word(text, b" t")?;
        push_number(text, u64::from(self.creator))?;
        self.push_contents(births, text)?;
        push_word(text, b"\n")
    }
}

// Appends the values, each after a space.
fn push_values(values: &[Value], births: &[u32], text: &mut Vec<u8>) -> Result<(), AllocError>
    ensures { OnOk result (text.new.items ≡ text.old.items
        ++ flat_map (λ v. 32 ∷ value_text births.now v) (map meaning values.now)) }
{
    for value in values {
        push_word(text, b" ")?;
        push_value(text, births, *value)?;
    }
    Ok(())
}

fn push_queue(queue: &[(Value, u32)], births: &[u32], text: &mut Vec<u8>) -> Result<(), AllocError>
    ensures { OnOk result (text.new.items ≡ text.old.items
        ++ flat_map (λ v. 32 ∷ value_text births.now v) (map (λ e. e.0) (map queued queue.now))) }
{
    for (value, _) in queue {
        push_word(text, b" ")?;
        push_value(text, births, *value)?;
    }
    Ok(())
}

// Appends the bytes, each after a space.
fn push_bytes(bytes: &[Value], text: &mut Vec<u8>) -> Result<(), AllocError>
    requires { IsTrue (list_all is_byte (map meaning bytes.now)) }
    ensures { OnOk result (text.new.items ≡ text.old.items
        ++ flat_map (λ v. 32 ∷ byte_text v) (map meaning bytes.now)) }
{
    for byte in bytes {
        push_word(text, b" ")?;
        push_byte(text, *byte)?;
    }
    Ok(())
}

// Appends the line of the object of the birth.
fn push_object(
    state: &State,
    birth: u32,
    births: &[u32],
    text: &mut Vec<u8>,
) -> Result<(), AllocError>
    requires { HasBytes state.now.graph }
    ensures { OnOk result (text.new.items ≡ text.old.items
        ++ object_line births.now birth (object_at state.now.graph birth)) }
{
    match state.object_at(birth) {
        Some(object) => object.push_line(birth, births, text),
        None => Ok(()),
    }
}

// Appends the lines of the objects of the births.
fn push_objects(state: &State, births: &[u32], text: &mut Vec<u8>) -> Result<(), AllocError>
    requires { HasBytes state.now.graph }
    ensures { OnOk result (text.new.items ≡ text.old.items
        ++ flat_map (λ birth. object_line births.now birth (object_at state.now.graph birth)) births.now) }
{
    for birth in births {
        push_object(state, *birth, births, text)?;
    }
    Ok(())
}
