//! What is printed of an object: its fields, or of a guardian the values of its queue.

ghost use Rattle.std.specs.Prelude.{◌≡◌, ◌≢◌, ◌+◌, ◌/◌, ◌≤◌, Some, IfSome, IfNone, ◌∷◌, ◌++◌, [], List, ℕ, length, flat_map, map, OnOk, IfOk};
ghost use Rattle.std.specs.FinMap.{get};
ghost use Rattle.gc_words.specs.Layout.{IsAddress};
ghost use Rattle.gc_words.specs.Word.{value_of};
ghost use Rattle.heap_store.specs.Starts.{bytes_of};
ghost use Rattle.territory.specs.Territories.{words_of as words_at};
ghost use Rattle.heap_print.specs.Words.{first_of};
ghost use Rattle.heap_print.specs.Lines.{spaced_byte, AreShown};
ghost use Rattle.heap_print.specs.Chains.{IsChain};

use crate::numbers::Numbers;
use crate::text::{push_byte, push_value, push_word};
use gc_words::{Address, Value, decode};
use std::alloc::{AllocError, Global};
use territory::Territory;

/// More cells than a queue can have, since each has a place of its own.
const TOO_MANY_CELLS: u64 = 2305843009213693953;

/// Appends the value of a word after a space; its object is given a number where it has none.
#[tactic(auto, unfolding(gc_words::specs::Word::value_of))]
fn push_spaced(text: &mut Vec<u8>, numbers: &mut Numbers, word: u64) -> Result<(), AllocError>
    ensures { OnOk result (AreShown numbers.old numbers.new (word ∷ []) text.old.items text.new.items) }
{
    push_word(text, b" ")?;
    match decode(word) {
        Some(value) => push_value(text, numbers, value),
        None => push_word(text, b"nil"),
    }
}

/// Appends the fields of an object, each after a space, and gives numbers to what they refer to, from left to
/// right.
pub(crate) fn push_fields(
    territory: &Territory,
    at: Address,
    count: u32,
    numbers: &mut Numbers,
    text: &mut Vec<u8>,
) -> Result<(), AllocError>
    requires { count ≡ length (words_at (get territory.now.starts at)) }
    ensures { OnOk result (AreShown numbers.old numbers.new (words_at (get territory.now.starts at))
        text.old.items text.new.items) }
{
    for index in 0..count {
        push_spaced(text, numbers, territory.word(at, index))?;
    }
    Ok(())
}

/// Appends the bytes of a byte object, each after a space.
pub(crate) fn push_bytes(
    territory: &Territory,
    at: Address,
    count: u32,
    text: &mut Vec<u8>,
) -> Result<(), AllocError>
    requires { (count + 7) / 8 ≤ length (words_at (get territory.now.starts at)) }
    ensures { OnOk result (text.new.items ≡ text.old.items
        ++ flat_map spaced_byte (bytes_of (words_at (get territory.now.starts at)) count)) }
{
    for index in 0..count {
        let bytes = territory.word(at, index / 8).to_le_bytes();
        push_byte(text, bytes[(index % 8) as usize])?;
    }
    Ok(())
}

/// Appends the values of words, each after a space, and gives numbers to what they refer to, from left to right.
pub(crate) fn push_words(
    words: &[u64],
    numbers: &mut Numbers,
    text: &mut Vec<u8>,
) -> Result<(), AllocError>
    ensures { OnOk result (AreShown numbers.old numbers.new words.now text.old.items text.new.items) }
{
    for word in words {
        push_spaced(text, numbers, *word)?;
    }
    Ok(())
}

/// The place of the object that a word refers to. None where it refers to none.
pub(crate) fn referred(word: u64) -> Option<Address>
    ensures some { IfSome result (λ a. value_of word ≡ Some (Value.Object a)) }
    ensures valid { IfSome result IsAddress }
    ensures none { IfNone result ((a : ℕ) → value_of word ≢ Some (Value.Object a)) }
{
    match decode(word) {
        Some(value) => match value {
            Value::Object(at) => Some(at),
            _ => None,
        },
        None => None,
    }
}

/// The words of the values in a queue, where `first` refers to its first cell: the first to be taken first.
pub(crate) fn queue_words(
    alloc: Global,
    territory: &Territory,
    first: u64,
) -> Result<Vec<u64>, AllocError>
    requires { (cells : List ℕ) × IsChain (get territory.now.starts) first cells }
    ensures { IfOk result (λ words. (cells : List ℕ) → IsChain (get territory.now.starts) first cells
        → words.items ≡ map (λ c. first_of (get territory.now.starts c)) cells) }
{
    let mut words = Vec::new(alloc);
    let mut next = first;
    for _ in 0..TOO_MANY_CELLS {
        match referred(next) {
            Some(cell) => {
                words.push(territory.word(cell, 0))?;
                next = territory.word(cell, 1);
            }
            None => return Ok(words),
        }
    }
    Ok(words)
}
