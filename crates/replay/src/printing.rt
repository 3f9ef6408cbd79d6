// The commands that print: where memory runs out nothing was appended, and the heap has failed.
ghost use Rattle.std.specs.Prelude.{◌≡◌, ◌≢◌, ◌↔◌, List, ℕ, true, Err, IfOk, IsTrue};
ghost use Rattle.trace_types.specs.States.{State, operand_value};
ghost use Rattle.trace_types.specs.Values.{object_of_value};
ghost use Rattle.trace_types.specs.WellFormed.{operand_fits};
ghost use Rattle.trace_types.specs.Printing as printing;
ghost use Rattle.heap_store.specs.Stands.{Stands};
ghost use Rattle.replay.specs.Engine.{Prints};

use heap_print::{census, census_text, generation_text, print_value};
use heap_store::{Heap, HeapError};
use trace_types::{Fault, Operand};

/// Appends lines that were made. Where they couldn't be had, the heap has failed.
fn append_or_fail(
    heap: &mut Heap,
    made: Result<Vec<u8>, HeapError>,
    text: &mut Vec<u8>,
) -> Result<(), HeapError>
    requires failed { (made ≡ Err HeapError.Failed) ↔ (heap.old.failed ≡ true) }
    requires no_fault { (f : Fault) → made ≢ Err (HeapError.Fault f) }
    ensures { (shown : State → List ℕ) → IfOk made (λ lines. (s : State) → Stands heap.old s → lines.items ≡ shown s)
        → Prints shown result heap.old heap.new text.old.items text.new.items }
{
    let appended = match made {
        Ok(lines) => match text.extend_from_slice(&lines) {
            Ok(()) => Ok(()),
            Err(_) => Err(HeapError::NoMemory),
        },
        Err(error) => Err(error),
    };
    if appended.is_err() {
        heap.fail();
    }
    appended
}

/// Appends the printed graph of the value.
pub(crate) fn print_graph(
    heap: &mut Heap,
    value: Operand,
    text: &mut Vec<u8>,
) -> Result<(), HeapError>
    ensures { Prints (λ s. printing.print_text s.graph (operand_value s value)) result heap.old heap.new text.old.items text.new.items }
{
    let printed = print_value(heap, value, text);
    if printed.is_err() {
        heap.fail();
    }
    printed
}

/// The lines of the census.
#[tactic(auto, unfolding(trace_types::specs::Printing::census_text))]
fn census_lines(heap: &Heap, text: &Vec<u8>) -> Result<Vec<u8>, HeapError>
    ensures lines { IfOk result (λ lines. (s : State) → Stands heap.now s → lines.items ≡ printing.census_text s.graph) }
    ensures failed { (result ≡ Err HeapError.Failed) ↔ (heap.now.failed ≡ true) }
    ensures no_fault { (f : Fault) → result ≢ Err (HeapError.Fault f) }
{
    let counted = census(heap)?;
    let mut lines = Vec::new(*text.allocator());
    match census_text(&counted, &mut lines) {
        Ok(()) => Ok(lines),
        Err(_) => Err(HeapError::NoMemory),
    }
}

/// Appends the census.
pub(crate) fn print_census(heap: &mut Heap, text: &mut Vec<u8>) -> Result<(), HeapError>
    ensures { Prints (λ s. printing.census_text s.graph) result heap.old heap.new text.old.items text.new.items }
{
    let made = census_lines(heap, text);
    append_or_fail(heap, made, text)
}

/// The line with the generation of the value.
fn generation_line(heap: &Heap, value: Operand, text: &Vec<u8>) -> Result<Vec<u8>, HeapError>
    requires { IsTrue (operand_fits value) }
    ensures lines { IfOk result (λ lines. (s : State) → Stands heap.now s → lines.items ≡ printing.generation_text (object_of_value s.graph (operand_value s value))) }
    ensures failed { (result ≡ Err HeapError.Failed) ↔ (heap.now.failed ≡ true) }
    ensures no_fault { (f : Fault) → result ≢ Err (HeapError.Fault f) }
{
    let generation = heap.generation_of(value)?;
    let mut lines = Vec::new(*text.allocator());
    match generation_text(generation, &mut lines) {
        Ok(()) => Ok(lines),
        Err(_) => Err(HeapError::NoMemory),
    }
}

/// Appends the generation of the value.
pub(crate) fn print_generation(
    heap: &mut Heap,
    value: Operand,
    text: &mut Vec<u8>,
) -> Result<(), HeapError>
    requires { IsTrue (operand_fits value) }
    ensures { Prints (λ s. printing.generation_text (object_of_value s.graph (operand_value s value))) result heap.old heap.new text.old.items text.new.items }
{
    let made = generation_line(heap, value, text);
    append_or_fail(heap, made, text)
}
