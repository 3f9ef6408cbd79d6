//! How objects lie in words: what a header says, and how many words an object takes. The layout is this
//! project's own, after the typed objects of Chez Scheme ("Don't Stop the BIBOP", 1994).

ghost use Rattle.std.specs.Prelude.{◌≡◌, ◌+◌, ◌*◌, ◌/◌, ◌<◌, ◌≤◌};
ghost use Rattle.segment.specs.Layout.{code_of, kind_of_code, first_word, kind_of, length_of, words_after, count_of, size_of};

use crate::space::Space;
use trace_types::Kind;

/// The tag of a header, in the three lowest bits.
const HEADER_TAG: u64 = 7;

/// What the kind code in a header counts: 2^3.
const CODE_UNIT: u64 = 8;

/// What the length in a header counts: 2^8.
const LENGTH_UNIT: u64 = 256;

/// The code of a kind in a header; of a kind without one, 0.
fn code(kind: Kind) -> u64
    ensures value { result ≡ code_of kind }
    ensures range { result < 7 }
{
    match kind {
        Kind::Pair | Kind::Weak | Kind::Eph | Kind::Cell | Kind::Boxed => 0,
        Kind::Vector => 1,
        Kind::Bytes => 2,
        Kind::ImmVector => 3,
        Kind::ImmBytes => 4,
        Kind::Guard => 5,
        Kind::OrderedGuard => 6,
    }
}

/// The kind of a code in a header. No header has a code above 6.
#[inline(always)]
fn kind_of_code(code: u64) -> Kind
    ensures { result ≡ kind_of_code code }
{
    match code {
        0 => Kind::Boxed,
        1 => Kind::Vector,
        2 => Kind::Bytes,
        3 => Kind::ImmVector,
        4 => Kind::ImmBytes,
        5 => Kind::Guard,
        _ => Kind::OrderedGuard,
    }
}

/// The first word of a new object of so many fields or bytes: its header, or 0 where its space has no
/// headers.
pub fn first_word(kind: Kind, length: u32) -> u64
    ensures { result ≡ first_word kind length }
{
    if Space::of(kind).has_header() {
        u64::from(length) * LENGTH_UNIT + code(kind) * CODE_UNIT + HEADER_TAG
    } else {
        0
    }
}

/// The kind of the object with this first word.
#[tactic(auto, unfolding(crate::specs::Layout::kind_of))]
#[inline(always)]
pub(crate) fn kind_of(space: Space, first: u64) -> Kind
    ensures { result ≡ kind_of space first }
{
    match space {
        Space::Pair => Kind::Pair,
        Space::Weak => Kind::Weak,
        Space::Ephemeron => Kind::Eph,
        Space::Cell => Kind::Cell,
        Space::Typed | Space::Raw | Space::Immobile | Space::ImmobileRaw => {
            kind_of_code(first / CODE_UNIT % 32)
        }
    }
}

/// The fields or bytes of the object with this first word; of a guardian none.
#[tactic(auto, unfolding(crate::specs::Layout::length_of))]
#[inline(always)]
pub(crate) fn length_of(space: Space, first: u64) -> u64
    ensures value { result ≡ length_of space first }
    ensures range { result < 72057594037927936 }
{
    if space.has_header() {
        first / LENGTH_UNIT
    } else {
        2
    }
}

/// The words after the header of an object of this kind and length, for a length below 2^56.
#[inline(always)]
pub fn words_after(kind: Kind, length: u64) -> u64
    requires { length < 72057594037927936 }
    ensures value { result ≡ words_after kind length }
    ensures range { result ≤ length + 3 }
{
    match kind {
        Kind::Boxed => 1,
        Kind::Vector | Kind::ImmVector => length,
        Kind::Bytes | Kind::ImmBytes => length.div_ceil(8),
        Kind::Guard | Kind::OrderedGuard => 3,
        Kind::Pair | Kind::Weak | Kind::Eph | Kind::Cell => 2,
    }
}

/// All words of the object with this first word: an even number.
#[tactic(auto, unfolding(crate::specs::Layout::count_of, crate::specs::Layout::size_of))]
#[inline(always)]
pub fn size(space: Space, first: u64) -> usize
    ensures { result ≡ size_of space first }
{
    let count = words_after(kind_of(space, first), length_of(space, first));
    (space.skip() + count as usize + 1) / 2 * 2
}

#[cfg(test)]
mod tests {
    use super::*;
    use std::test::Fail;

    #[test]
    fn the_table_of_layouts(rt: HostRuntime) -> Result<(), Fail> {
        for (kind, length, first, words) in [
            (Kind::Pair, 2, 0, 2),
            (Kind::Weak, 2, 0, 2),
            (Kind::Eph, 2, 0, 2),
            (Kind::Cell, 2, 0, 2),
            (Kind::Boxed, 1, 0x107, 2),
            (Kind::Vector, 3, 0x30f, 4),
            (Kind::Vector, 4, 0x40f, 6),
            (Kind::Bytes, 9, 0x917, 4),
            (Kind::ImmVector, 0, 0x1f, 2),
            (Kind::ImmBytes, 8, 0x827, 2),
            (Kind::Guard, 0, 0x2f, 4),
            (Kind::OrderedGuard, 0, 0x37, 4),
        ] {
            let space = Space::of(kind);
            assert_eq!(rt; first_word(kind, length), first, "{kind:?}");
            assert_eq!(rt; kind_of(space, first), kind, "{kind:?}");
            assert_eq!(rt; length_of(space, first), u64::from(length), "{kind:?}");
            assert_eq!(rt; size(space, first), words, "{kind:?}");
        }
        Ok(())
    }
}
