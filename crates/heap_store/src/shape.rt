//! New objects in a territory.

ghost use Rattle.std.specs.Prelude.{◌≡◌, ◌+◌, ◌/◌, ◌<◌, ◌≤◌, [], ◌∷◌, replicate};
ghost use Rattle.segment.specs.Layout.{words_after, HasLength};
ghost use Rattle.heap_store.specs.Changes.{HasYoung, MakesStart, HasFilled, new_start};
ghost use Rattle.heap_store.specs.Shapes.{packed, packed_word, start_of, HasSize};

use gc_words::Address;
use std::alloc::AllocError;
use territory::Territory;
use trace_types::Kind;

/// What `put` is told of a word that needs no mark on its card: a word that refers to nothing, or a word of
/// a new object, since nothing is younger than generation 0.
pub(crate) const NO_MARK: u8 = 255;

/// What a new object is to hold.
#[derive(Clone, Copy, Debug)]
pub(crate) enum Shape {
    /// Two words, of a kind without a length.
    Two { kind: Kind, first: u64, second: u64 },
    /// The same word again and again.
    Filled { kind: Kind, length: u32, word: u64 },
    /// The same byte again and again.
    Packed { kind: Kind, length: u32, byte: u8 },
}

/// Makes an object of generation 0 whose birth is the line. Takes memory; refused, there is no new object.
pub(crate) fn make_object(
    territory: &mut Territory,
    line: u32,
    shape: Shape,
) -> Result<Address, AllocError>
    requires sized { HasSize shape }
    requires born { 0 < line }
    ensures { MakesStart territory.old territory.new (start_of line shape) result }
{
    match shape {
        Shape::Two {
            kind,
            first,
            second,
        } => make_two(territory, line, kind, first, second),
        Shape::Filled { kind, length, word } => make_filled(territory, line, kind, length, word),
        Shape::Packed { kind, length, byte } => make_packed(territory, line, kind, length, byte),
    }
}

fn make_two(
    territory: &mut Territory,
    line: u32,
    kind: Kind,
    first: u64,
    second: u64,
) -> Result<Address, AllocError>
    requires sized { HasLength kind 2 × (words_after kind 2 ≡ 2) }
    requires born { 0 < line }
    ensures { MakesStart territory.old territory.new (new_start kind 2 line (first ∷ second ∷ [])) result }
{
    let at = territory.allocate(kind, 2, 0, line)?;
    territory.put(at, 0, first, NO_MARK);
    territory.put(at, 1, second, NO_MARK);
    Ok(at)
}

fn make_filled(
    territory: &mut Territory,
    line: u32,
    kind: Kind,
    length: u32,
    word: u64,
) -> Result<Address, AllocError>
    requires sized { HasLength kind length × (words_after kind length ≡ length) }
    requires born { 0 < line }
    ensures { MakesStart territory.old territory.new (new_start kind length line (replicate length word)) result }
{
    let at = territory.allocate(kind, length, 0, line)?;
    fill(territory, at, length, word);
    Ok(at)
}

fn make_packed(
    territory: &mut Territory,
    line: u32,
    kind: Kind,
    length: u32,
    byte: u8,
) -> Result<Address, AllocError>
    requires sized { HasLength kind length × (words_after kind length ≡ (length + 7) / 8) }
    requires born { 0 < line }
    ensures { MakesStart territory.old territory.new (new_start kind length line (packed byte length)) result }
{
    let at = territory.allocate(kind, length, 0, line)?;
    let whole = pack(byte, 8);
    fill(territory, at, length / 8, whole);
    if length % 8 == 0 {
        return Ok(at);
    }
    let rest = pack(byte, length % 8);
    territory.put(at, length / 8, rest, NO_MARK);
    Ok(at)
}

/// Puts the word into the first `count` words of an object of generation 0.
fn fill(territory: &mut Territory, at: Address, count: u32, word: u64)
    requires { HasYoung territory.old at count }
    ensures { HasFilled territory.old territory.new at count word }
{
    for index in 0..count {
        territory.put(at, index, word, NO_MARK);
    }
}

/// A word whose first `count` bytes, at most 8, are this one, and whose other bytes are 0.
fn pack(byte: u8, count: u32) -> u64
    requires { count ≤ 8 }
    ensures { result ≡ packed_word byte count }
{
    let mut bytes = [0; 8];
    for index in 0..count {
        bytes[index as usize] = byte;
    }
    u64::from_le_bytes(bytes)
}
