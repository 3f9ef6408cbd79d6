//! The texts of a single line.

ghost use Rattle.std.specs.Prelude.{◌≡◌, ◌++◌, OnOk, option_map, flat_map, codes, decimal};
ghost use Rattle.trace_types.specs.Values.{object_of_value};
ghost use Rattle.trace_types.specs.Printing.{generation_text, check_text, path_text};
ghost use Rattle.plain_model.specs.Plain.{meaning};

use crate::state::State;
use crate::text::{push_generation, push_number, push_word};
use crate::value::Value;
use std::alloc::AllocError;

/// Appends the generation of the object that the value is, or `none` of an immediate.
pub fn push_generation_of(state: &State, value: Value, text: &mut Vec<u8>) -> Result<(), AllocError>
    ensures { OnOk result (text.new.items ≡ text.old.items
        ++ generation_text (object_of_value state.now.graph (meaning value))) }
{
    push_word(text, b"gen ")?;
    match state.object_of_value(value) {
        Some(object) => push_generation(text, object.generation)?,
        None => push_word(text, b"none")?,
    }
    push_word(text, b"\n")
}

/// Appends what there is to say of note k.
pub fn push_check(k: u8, word: &[u8], text: &mut Vec<u8>) -> Result<(), AllocError>
    ensures { OnOk result (text.new.items ≡ text.old.items ++ check_text k word.now) }
{
    push_word(text, b"check ")?;
    push_number(text, u64::from(k))?;
    push_word(text, b" ")?;
    push_word(text, word)?;
    push_word(text, b"\n")
}

/// Appends the indexes of a walk, or `none` where there is no walk.
pub fn push_path(walk: Option<Vec<u64>>, text: &mut Vec<u8>) -> Result<(), AllocError>
    ensures { OnOk result (text.new.items ≡ text.old.items ++ path_text (option_map (λ w. w.items) walk)) }
{
    match walk {
        Some(walk) => {
            push_word(text, b"path")?;
            push_indexes(&walk, text)?;
            push_word(text, b"\n")
        }
        None => push_word(text, b"path none\n"),
    }
}

fn push_indexes(walk: &[u64], text: &mut Vec<u8>) -> Result<(), AllocError>
    ensures { OnOk result (text.new.items ≡ text.old.items
        ++ flat_map (λ index. codes " " ++ decimal index) walk.now) }
{
    for index in walk {
        push_word(text, b" ")?;
        push_number(text, *index)?;
    }
    Ok(())
}
