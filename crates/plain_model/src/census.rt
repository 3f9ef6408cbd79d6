//! How many objects and words there are.

ghost use Rattle.std.specs.Prelude.{◌≡◌, ◌++◌, codes, decimal, map, filter, length, sum, IfOk, OnOk, flat_map};
ghost use Rattle.trace_types.specs.Values.{size_of};
ghost use Rattle.trace_types.specs.Rules.{has};
ghost use Rattle.trace_types.specs.Printing.{of_generation, census_text};
ghost use Rattle.plain_model.specs.Census.{generation_line};

use crate::births::Births;
use crate::object::Object;
use crate::state::State;
use crate::text::{push_generation, push_number, push_word};
use itoa::Buffer;
use std::alloc::{AllocError, Global};
use trace_types::Kind;

/// The generations, the static one last.
const GENERATIONS: [u8; 9] = [0, 1, 2, 3, 4, 5, 6, 7, 8];

/// Appends a line for each generation with objects, in ascending order.
#[tactic(auto, unfolding(trace_types::specs::Printing::census_text))]
pub fn push_census(alloc: Global, state: &State, text: &mut Vec<u8>) -> Result<(), AllocError>
    ensures { OnOk result (text.new.items ≡ text.old.items ++ census_text state.now.graph) }
{
    let generations: [u8; 9] = GENERATIONS;
    push_generations(alloc, state, &generations, text)
}

fn push_generations(
    alloc: Global,
    state: &State,
    generations: &[u8],
    text: &mut Vec<u8>,
) -> Result<(), AllocError>
    ensures { OnOk result (text.new.items ≡ text.old.items
        ++ flat_map (generation_line state.now.graph) generations.now) }
{
    for generation in generations {
        push_line(alloc, state, *generation, text)?;
    }
    Ok(())
}

// Appends the line of a generation, where it has objects.
fn push_line(
    alloc: Global,
    state: &State,
    generation: u8,
    text: &mut Vec<u8>,
) -> Result<(), AllocError>
    ensures { OnOk result (text.new.items ≡ text.old.items ++ generation_line state.now.graph generation) }
{
    let sizes = sizes_in(alloc, state.graph(), generation)?;
    if sizes.is_empty() {
        return Ok(());
    }
    push_word(text, b"g")?;
    push_generation(text, generation)?;
    push_word(text, b" ")?;
    push_counts(&sizes, text)
}

/// Appends how many sizes there are and their sum.
pub(crate) fn push_counts(sizes: &[u64], text: &mut Vec<u8>) -> Result<(), AllocError>
    ensures { OnOk result (text.new.items ≡ text.old.items
        ++ decimal (length sizes.now) ++ codes " " ++ decimal (sum sizes.now) ++ codes "\n") }
{
    push_number(text, sizes.len() as u64)?;
    push_word(text, b" ")?;
    push_wide(text, sum_of(sizes))?;
    push_word(text, b"\n")
}

fn push_wide(text: &mut Vec<u8>, number: u128) -> Result<(), AllocError>
    ensures { OnOk result (text.new.items ≡ text.old.items ++ decimal number) }
{
    let mut buffer = Buffer::new();
    text.extend_from_slice(buffer.format(number).as_bytes())
}

fn sum_of(sizes: &[u64]) -> u128
    ensures { result ≡ sum sizes.now }
{
    let mut total: u128 = 0;
    for size in sizes {
        let words: u64 = *size;
        total += u128::from(words);
    }
    total
}

impl Object {
    /// The words of the object.
    fn size(&self) -> u64
        ensures { result ≡ size_of self.now.kind self.now.fields }
    {
        let count = self.fields.len() as u64;
        match self.kind {
            Kind::Vector | Kind::ImmVector => (1 + count + 1) / 2 * 2,
            Kind::Bytes | Kind::ImmBytes => (1 + (count + 7) / 8 + 1) / 2 * 2,
            Kind::Guard | Kind::OrderedGuard => 4,
            _ => 2,
        }
    }
}

// The sizes of the objects of one generation.
fn sizes_in(alloc: Global, graph: &[(u32, Object)], generation: u8) -> Result<Vec<u64>, AllocError>
    ensures { IfOk result (λ sizes. sizes.items
        ≡ map (λ entry. size_of entry.1.kind entry.1.fields) (of_generation generation graph.now)) }
{
    let mut sizes = Vec::new(alloc);
    for (_, object) in graph {
        if object.generation == generation {
            sizes.push(object.size())?;
        }
    }
    Ok(sizes)
}

/// The sizes of the objects of a set of births.
pub(crate) fn sizes_among(
    alloc: Global,
    graph: &[(u32, Object)],
    set: &Births,
) -> Result<Vec<u64>, AllocError>
    ensures { IfOk result (λ sizes. sizes.items
        ≡ map (λ entry. size_of entry.1.kind entry.1.fields)
        (filter (λ entry. has set.now entry.0) graph.now)) }
{
    let mut sizes = Vec::new(alloc);
    for (birth, object) in graph {
        if set.contains(*birth) {
            sizes.push(object.size())?;
        }
    }
    Ok(sizes)
}
