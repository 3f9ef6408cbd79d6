//! The census: how many objects each generation has and how many words they take, and its text.

ghost use Rattle.std.specs.Prelude.{◌≡◌, ◌++◌, OnOk};
ghost use Rattle.trace_types.specs.Printing.{census_lines};
ghost use Rattle.heap_print.specs.Lines.{count_line};

use crate::text::{push_generation, push_number, push_word};
use std::alloc::AllocError;
use std::marker::Model;

/// The objects of one generation, and the words that they take.
#[derive(Clone, Copy, Debug, PartialEq, Eq)]
pub(crate) struct Counted {
    pub(crate) objects: u64,
    pub(crate) words: u64,
}

/// How many objects each generation has and how many words they take: of the generations 0 to 7, and of the
/// static one last. Queue cells are not counted.
#[derive(Drop)]
pub struct Census {
    pub(crate) generations: [Counted; 9],
}

impl Model for Census {
    ghost use Rattle.std.specs.Prelude.{◌≡◌, ℕ, List, map, length};

    ghost Value = { List (ℕ × ℕ) };

    ghost view = { λ c. map (λ g. (g.objects, g.words)) c.generations };

    ghost invariant = { λ c. length c.generations ≡ 9 };
}

/// Appends the line of a generation, where it has objects.
fn push_count(text: &mut Vec<u8>, generation: u8, counted: &Counted) -> Result<(), AllocError>
    ensures { OnOk result (text.new.items ≡ text.old.items
        ++ count_line generation counted.now.objects counted.now.words) }
{
    if counted.objects == 0 {
        return Ok(());
    }
    push_word(text, b"g")?;
    push_generation(text, generation)?;
    push_word(text, b" ")?;
    push_number(text, counted.objects)?;
    push_word(text, b" ")?;
    push_number(text, counted.words)?;
    push_word(text, b"\n")
}

/// Appends a line for each generation with objects, in ascending order and the static one last: `g`, the
/// generation, its objects and its words. Takes memory; refused, a front of the lines may have been appended.
/// The text is this project's own.
pub fn census_text(census: &Census, text: &mut Vec<u8>) -> Result<(), AllocError>
    ensures { OnOk result (text.new.items ≡ text.old.items ++ census_lines 0 census.now) }
{
    for generation in 0..9u8 {
        push_count(
            text,
            generation,
            &census.generations[usize::from(generation)],
        )?;
    }
    Ok(())
}
