//! Printing the line of one object of a heap, which gives numbers to what it refers to.

ghost use Rattle.std.specs.Prelude.{◌≡◌, ◌++◌, ◌↔◌, ℕ, List, false, Some, IsTrue, IsSome, IfSome, IfOk, OnOk};
ghost use Rattle.std.specs.FinMap.{get};
ghost use Rattle.trace_types.specs.Values.{has_bytes, is_guardian};
ghost use Rattle.segment.specs.Segments.{Start};
ghost use Rattle.heap_store.specs.HeapView.{starts_of};
ghost use Rattle.heap_store.specs.Queues.{Queue, HasQueue};
ghost use Rattle.heap_store.specs.Starts.{is_object};
ghost use Rattle.heap_print.specs.Words.{shown_words, with_words};
ghost use Rattle.heap_print.specs.Lines.{shown_text, head_text, line_text};

use crate::contents::{push_bytes, push_fields, push_words, queue_words};
use crate::numbers::Numbers;
use crate::text::{push_generation, push_number, push_word};
use gc_words::Address;
use heap_store::Heap;
use std::alloc::{AllocError, Global};
use territory::Territory;
use trace_types::Kind;

/// What is printed of an object.
#[derive(Clone, Copy, Debug, PartialEq, Eq)]
pub(crate) enum Contents {
    /// Its fields, which are values.
    Fields,
    /// Its bytes.
    Bytes,
    /// The values of its queue.
    Queue,
}

impl Contents {
    /// The contents of a kind.
    pub(crate) fn of(kind: Kind) -> Contents
        ensures bytes { (result ≡ Contents.Bytes) ↔ IsTrue (has_bytes kind) }
        ensures queue { (result ≡ Contents.Queue) ↔ IsTrue (is_guardian kind) }
    {
        match kind {
            Kind::Pair | Kind::Weak | Kind::Eph => Contents::Fields,
            Kind::Boxed | Kind::Vector | Kind::ImmVector => Contents::Fields,
            Kind::Bytes | Kind::ImmBytes => Contents::Bytes,
            Kind::Guard | Kind::OrderedGuard => Contents::Queue,
            Kind::Cell => Contents::Fields,
        }
    }
}

/// The words of the values in a guardian's queue.
fn queue_of(alloc: Global, heap: &Heap, at: Address) -> Result<Vec<u64>, AllocError>
    requires alive { heap.now.failed ≡ false }
    requires there { IsTrue (is_object (starts_of heap.now at)) }
    requires guardian { IfSome (starts_of heap.now at) (λ x. IsTrue (is_guardian x.kind)) }
    ensures { IfOk result (λ words. (x : Start) (cells : List ℕ) (queue : Queue) → starts_of heap.now at ≡ Some x
        → HasQueue (starts_of heap.now) at x cells queue
        → words.items ≡ shown_words (starts_of heap.now) x cells) }
{
    let territory = heap.territory(at.thread());
    let _kind = territory.kind(at);
    let words = queue_words(alloc, territory, territory.word(at, 0))?;
    Ok(words)
}

/// Appends what is printed of an object behind its thread, each after a space, and gives numbers to what it
/// refers to, from left to right.
fn push_contents(
    alloc: Global,
    heap: &Heap,
    at: Address,
    numbers: &mut Numbers,
    text: &mut Vec<u8>,
) -> Result<(), AllocError>
    requires alive { heap.now.failed ≡ false }
    requires there { IsTrue (is_object (starts_of heap.now at)) }
    ensures numbers { OnOk result ((x : Start) (cells : List ℕ) (queue : Queue) → starts_of heap.now at ≡ Some x
        → HasQueue (starts_of heap.now) at x cells queue
        → numbers.new ≡ with_words numbers.old (shown_words (starts_of heap.now) x cells)) }
    ensures text { OnOk result ((x : Start) (cells : List ℕ) (queue : Queue) → starts_of heap.now at ≡ Some x
        → HasQueue (starts_of heap.now) at x cells queue → (more : List ℕ)
        → text.new.items ≡ text.old.items ++ shown_text (starts_of heap.now) (numbers.new ++ more) x cells) }
{
    let territory = heap.territory(at.thread());
    let length = territory.length(at);
    match Contents::of(territory.kind(at)) {
        Contents::Fields => push_fields(territory, at, length, numbers, text),
        Contents::Bytes => push_bytes(territory, at, length, text),
        Contents::Queue => push_words(&queue_of(alloc, heap, at)?, numbers, text),
    }
}

/// Appends the number, the kind, the generation and the thread of an object.
fn push_head(
    territory: &Territory,
    at: Address,
    number: usize,
    text: &mut Vec<u8>,
) -> Result<(), AllocError>
    requires { IsSome (get territory.now.starts at) }
    ensures { OnOk result (IfSome (get territory.now.starts at) (λ x.
        text.new.items ≡ text.old.items ++ head_text number at x.kind x.generation)) }
{
    let kind = territory.kind(at);
    let generation = territory.generation(at);
    push_word(text, b"#")?;
    push_number(text, number as u64)?;
    push_word(text, b" ")?;
    push_word(text, kind.word().as_bytes())?;
    push_word(text, b" g")?;
    push_generation(text, generation)?;
    push_word(text, b" t")?;
    push_number(text, u64::from(at.thread()))
}

/// Appends the line of an object with this number, and gives numbers to what it refers to, from left to right.
pub(crate) fn push_object(
    alloc: Global,
    heap: &Heap,
    at: Address,
    number: usize,
    numbers: &mut Numbers,
    text: &mut Vec<u8>,
) -> Result<(), AllocError>
    requires alive { heap.now.failed ≡ false }
    requires there { IsTrue (is_object (starts_of heap.now at)) }
    ensures numbers { OnOk result ((x : Start) (cells : List ℕ) (queue : Queue) → starts_of heap.now at ≡ Some x
        → HasQueue (starts_of heap.now) at x cells queue
        → numbers.new ≡ with_words numbers.old (shown_words (starts_of heap.now) x cells)) }
    ensures text { OnOk result ((x : Start) (cells : List ℕ) (queue : Queue) → starts_of heap.now at ≡ Some x
        → HasQueue (starts_of heap.now) at x cells queue → (more : List ℕ)
        → text.new.items
        ≡ text.old.items ++ line_text (starts_of heap.now) (numbers.new ++ more) number at x cells) }
{
    push_head(heap.territory(at.thread()), at, number, text)?;
    push_contents(alloc, heap, at, numbers, text)?;
    push_word(text, b"\n")?;
    Ok(())
}
