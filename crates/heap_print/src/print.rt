//! The printed graph of a value.

ghost use Rattle.std.specs.Prelude.{◌≡◌, ◌≢◌, ◌↔◌, ◌++◌, ◌∷◌, [], ℕ, List, true, false, codes, fold, slice_get, Some, IsTrue, IfSome, IfNone, OnOk, OnErr, Err};
ghost use Rattle.trace_types.specs.States.{State, operand_value};
ghost use Rattle.trace_types.specs.Values.{objects_in};
ghost use Rattle.trace_types.specs.Printing.{with_number, value_text, print_text};
ghost use Rattle.gc_words.specs.Layout.{IsAddress};
ghost use Rattle.gc_words.specs.Word.{value_of};
ghost use Rattle.segment.specs.Segments.{Start};
ghost use Rattle.heap_store.specs.HeapView.{starts_of};
ghost use Rattle.heap_store.specs.Starts.{is_object, read};
ghost use Rattle.heap_store.specs.Queues.{Queue, HasQueue};
ghost use Rattle.heap_store.specs.Calls.{IsValid};
ghost use Rattle.heap_store.specs.Stands.{Stands};
ghost use Rattle.heap_print.specs.Words.{by_word, shown_words, with_words};
ghost use Rattle.heap_print.specs.Lines.{line_text, GoesOn};

use crate::contents::referred;
use crate::numbers::Numbers;
use crate::objects::push_object;
use crate::text::{push_value, push_word};
use gc_words::{Address, Value};
use heap_store::{Heap, HeapError};
use std::alloc::{AllocError, Global};
use trace_types::{Fault, Operand};

/// The place of the object of a number. None where there is no such number.
fn numbered(numbers: &Numbers, number: usize) -> Option<Address>
    ensures none { IfNone result ((w a : ℕ) → slice_get numbers.now number ≡ Some w
        → value_of w ≢ Some (Value.Object a)) }
    ensures some { IfSome result (λ a. (w : ℕ) × (slice_get numbers.now number ≡ Some w)
        × (value_of w ≡ Some (Value.Object a))) }
{
    match numbers.object(number) {
        Some(word) => referred(word),
        None => None,
    }
}

/// Appends the first line: the value, whose object is given number 0.
fn push_first(value: &Value, numbers: &mut Numbers, text: &mut Vec<u8>) -> Result<(), AllocError>
    ensures numbers { OnOk result (numbers.new
        ≡ fold with_number numbers.old (objects_in (by_word value.now ∷ []))) }
    ensures text { OnOk result ((more : List ℕ) → text.new.items
        ≡ text.old.items ++ codes "= " ++ value_text (numbers.new ++ more) (by_word value.now) ++ 10 ∷ []) }
    ensures address { OnOk result ((a : ℕ) → value.now ≡ Value.Object a → IsAddress a) }
{
    push_word(text, b"= ")?;
    push_value(text, numbers, *value)?;
    push_word(text, b"\n")?;
    Ok(())
}

/// Appends the line of an object with this number, and gives numbers to what it refers to, from left to right.
/// The line is put together in `line`, so that where memory is refused nothing was appended.
fn push_line(
    alloc: Global,
    heap: &Heap,
    at: Address,
    number: usize,
    numbers: &mut Numbers,
    line: &mut Vec<u8>,
    text: &mut Vec<u8>,
) -> Result<(), AllocError>
    requires alive { heap.now.failed ≡ false }
    requires there { IsTrue (is_object (starts_of heap.now at)) }
    ensures numbers { OnOk result ((x : Start) (cells : List ℕ) (queue : Queue) → starts_of heap.now at ≡ Some x
        → HasQueue (starts_of heap.now) at x cells queue
        → numbers.new ≡ with_words numbers.old (shown_words (starts_of heap.now) x cells)) }
    ensures text { OnOk result ((x : Start) (cells : List ℕ) (queue : Queue) → starts_of heap.now at ≡ Some x
        → HasQueue (starts_of heap.now) at x cells queue → (more : List ℕ)
        → text.new.items
        ≡ text.old.items ++ line_text (starts_of heap.now) (numbers.new ++ more) number at x cells) }
    ensures kept { GoesOn text.old.items text.new.items }
{
    line.clear();
    push_object(alloc, heap, at, number, numbers, line)?;
    text.extend_from_slice(line)?;
    Ok(())
}

/// Appends the printed graph of a value: the first line, and one for each object that is reached from it.
/// Objects are given numbers as they are come upon, so each has one before its line is printed.
fn push_graph(
    alloc: Global,
    heap: &Heap,
    value: &Value,
    text: &mut Vec<u8>,
) -> Result<(), AllocError>
    requires alive { heap.now.failed ≡ false }
    requires valid { IsValid heap.now }
    requires there { (a : ℕ) → value.now ≡ Value.Object a → IsTrue (is_object (starts_of heap.now a)) }
    ensures text { OnOk result ((s : State) → Stands heap.now s
        → text.new.items ≡ text.old.items ++ print_text s.graph (read (starts_of heap.now) value.now)) }
    ensures kept { GoesOn text.old.items text.new.items }
{
    let mut numbers = Numbers::new(alloc);
    let mut line = Vec::new(alloc);
    push_first(value, &mut numbers, &mut line)?;
    text.extend_from_slice(&line)?;
    let mut number = 0;
    while number < numbers.count() {
        match numbered(&numbers, number) {
            Some(at) => push_line(alloc, heap, at, number, &mut numbers, &mut line, text)?,
            None => return Ok(()),
        }
        number += 1;
    }
    Ok(())
}

/// Appends the printed graph of a value: a line with the value, and one for each object that is reached from it.
///
/// Objects are numbered in the order of first visit, going through them by number and through each from left to
/// right, weak fields and queues included. The numbers and the text take memory from the text's allocator. Refused,
/// nothing was appended, and the heap is as it was. It answers `Failed` exactly where the heap had failed. The text
/// is this project's own.
pub fn print_value(heap: &Heap, value: Operand, text: &mut Vec<u8>) -> Result<(), HeapError>
    ensures text { OnOk result ((s : State) → Stands heap.now s
        → text.new.items ≡ text.old.items ++ print_text s.graph (operand_value s value)) }
    ensures refused { OnErr result (text.new.items ≡ text.old.items) }
    ensures failed { (result ≡ Err HeapError.Failed) ↔ (heap.now.failed ≡ true) }
    ensures no_fault { (f : Fault) → result ≢ Err (HeapError.Fault f) }
{
    if heap.failed() {
        return Err(HeapError::Failed);
    }
    let value = heap.value_of(value)?;
    let alloc = *text.allocator();
    let length = text.len();
    match push_graph(alloc, heap, &value, text) {
        Ok(()) => Ok(()),
        Err(_) => {
            text.truncate(length);
            Err(HeapError::NoMemory)
        }
    }
}
