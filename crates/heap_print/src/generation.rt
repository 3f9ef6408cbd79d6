//! The line with the generation of an object.

ghost use Rattle.std.specs.Prelude.{◌≡◌, ◌++◌, OnOk, Option};
ghost use Rattle.std.specs.Option.{option_map};
ghost use Rattle.trace_types.specs.Values.{Object};
ghost use Rattle.trace_types.specs.Printing.{generation_text};

use crate::text::{push_generation, push_word};
use std::alloc::AllocError;

/// Appends a line with the generation of an object, `s` for the static one, or with `none`, of an immediate.
/// Takes memory; refused, a front of the line may have been appended. The text is this project's own.
pub fn generation_text(generation: Option<u8>, text: &mut Vec<u8>) -> Result<(), AllocError>
    ensures { OnOk result ((o : Option Object) → generation ≡ option_map (λ o. o.generation) o
        → text.new.items ≡ text.old.items ++ generation_text o) }
{
    push_word(text, b"gen ")?;
    match generation {
        Some(number) => push_generation(text, number)?,
        None => push_word(text, b"none")?,
    }
    push_word(text, b"\n")
}
