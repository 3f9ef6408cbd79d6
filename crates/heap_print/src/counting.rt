//! Counting: a walk over all starts of a heap.

ghost use Rattle.std.specs.Prelude.{◌≡◌, ◌↔◌, ◌<◌, ◌≤◌, ◌*◌, true, false, length, IsSome, IfOk, OnErr, Err};
ghost use Rattle.std.specs.FinMap.{get};
ghost use Rattle.trace_types.specs.States.{State};
ghost use Rattle.trace_types.specs.WellFormed.{greatest_line};
ghost use Rattle.trace_types.specs.Printing.{census, of_generation, words_of};
ghost use Rattle.territory.specs.Territories.{AreItsStarts, starts_of_generation};
ghost use Rattle.heap_store.specs.Stands.{Stands};
ghost use Rattle.heap_print.specs.Counting.{AreFew, objects_among, words_among, objects_counted, words_counted, words_in};

use crate::counts::{Census, Counted};
use gc_words::Address;
use heap_store::{Heap, HeapError};
use segment::{Space, words_after};
use territory::Territory;
use trace_types::Kind;

/// No more objects than this can be: each has a line of its own.
const MOST_STARTS: u32 = 1073741823;

/// The words of what starts at an address, header and all: an even number.
fn words_at(territory: &Territory, at: Address) -> u64
    requires { IsSome (get territory.now.starts at) }
    ensures value { result ≡ words_in (get territory.now.starts at) }
    ensures small { result ≤ 4294967304 }
{
    let kind = territory.kind(at);
    let header = u64::from(Space::of(kind).has_header());
    (header + words_after(kind, u64::from(territory.length(at))) + 1) / 2 * 2
}

/// What starts at an address, counted: one object and its words, of a queue cell none.
fn count_start(territory: &Territory, at: Address) -> Counted
    requires { IsSome (get territory.now.starts at) }
    ensures objects { result.objects ≡ objects_counted (get territory.now.starts at) }
    ensures words { result.words ≡ words_counted (get territory.now.starts at) }
    ensures one { result.objects ≤ 1 }
    ensures small { result.words ≤ result.objects * 4294967304 }
{
    match territory.kind(at) {
        Kind::Cell => Counted {
            objects: 0,
            words: 0,
        },
        _ => Counted {
            objects: 1,
            words: words_at(territory, at),
        },
    }
}

/// The objects of a generation in one territory.
fn count_starts(territory: &Territory, generation: u8) -> Counted
    requires generation { generation < 9 }
    requires few { AreFew (get territory.now.starts) }
    ensures objects { result.objects ≡ objects_among (get territory.now.starts)
        (starts_of_generation territory.now generation) }
    ensures words { result.words ≡ words_among (get territory.now.starts)
        (starts_of_generation territory.now generation) }
    ensures all { AreItsStarts territory.now generation (starts_of_generation territory.now generation) }
    ensures few { result.objects ≤ greatest_line }
    ensures small { result.words ≤ result.objects * 4294967304 }
{
    let mut objects = 0;
    let mut words = 0;
    let mut next = territory.first_start(generation);
    for _ in 0..MOST_STARTS {
        match next {
            Some(at) => {
                let start = count_start(territory, at);
                objects += start.objects;
                words += start.words;
                next = territory.next_start(at);
            }
            None => break,
        }
    }
    Counted { objects, words }
}

/// The objects of a generation.
fn count_generation(heap: &Heap, generation: u8) -> Counted
    requires alive { heap.now.failed ≡ false }
    requires generation { generation < 9 }
    ensures objects { (s : State) → Stands heap.now s
        → result.objects ≡ length (of_generation generation s.graph) }
    ensures words { (s : State) → Stands heap.now s
        → result.words ≡ words_of (of_generation generation s.graph) }
{
    let mut objects = 0;
    let mut words = 0;
    for thread in 0..64u8 {
        let counted = count_starts(heap.territory(thread), generation);
        objects += counted.objects;
        words += counted.words;
    }
    Counted { objects, words }
}

/// Counts the objects of each generation and the words that they take. Goes through all starts of the heap, and
/// takes no memory. It answers `Failed` exactly where the heap had failed, and no other error.
pub fn census(heap: &Heap) -> Result<Census, HeapError>
    ensures counts { IfOk result (λ counts. (s : State) → Stands heap.now s → counts ≡ census s.graph) }
    ensures failed { (result ≡ Err HeapError.Failed) ↔ (heap.now.failed ≡ true) }
    ensures only_failed { OnErr result (heap.now.failed ≡ true) }
{
    if heap.failed() {
        return Err(HeapError::Failed);
    }
    Ok(Census {
        generations: [
            count_generation(heap, 0),
            count_generation(heap, 1),
            count_generation(heap, 2),
            count_generation(heap, 3),
            count_generation(heap, 4),
            count_generation(heap, 5),
            count_generation(heap, 6),
            count_generation(heap, 7),
            count_generation(heap, 8),
        ],
    })
}
