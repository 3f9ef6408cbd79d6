//! From the first collected address to the last: most words need no look-up.

ghost use Rattle.std.specs.Prelude.{◌≡◌, ℕ, ◌+◌, ◌/◌, ◌%◌, ◌<◌, ◌≤◌, ◌⊎◌, ◌↔◌, IfNone, IfSome, Some};
ghost use Rattle.gc_words.specs.Layout.{offset_of, segment_of, thread_of};
ghost use Rattle.gc_words.specs.Word.{value_of};
ghost use Rattle.gc_words.specs.declared.value.Value.TheVariants as value;
ghost use Rattle.directory.specs.Reaches.{IsWithinReach, Spans};

use gc_words::{Address, OFFSETS, SEGMENTS};

/// Addresses by their numbers, from the first that is collected on, up to one beyond the last.
#[derive(Clone, Copy, Debug, PartialEq, Eq)]
pub struct Reach {
    /// The number of the first collected address. Where nothing is collected, `beyond` is not greater.
    pub least: u64,
    /// The number beyond the last one.
    pub beyond: u64,
}

/// One beyond the number of the last address: 2^61.
const ADDRESSES: u64 = 2305843009213693952;

/// The last four bits of an object's word, 0001, turned to the top: 2^60.
const OBJECT: u64 = 1152921504606846976;

/// The half of a number, rounded up.
#[inline(always)]
fn half(number: u64) -> u64
    ensures { result ≡ (number + 1) / 2 }
{
    number / 2 + number % 2
}

/// The address in the word of an object: its parts put together again, which is the word without its tag.
#[inline(always)]
fn address_in(word: u64) -> Address
    requires { word % 16 ≡ 1 }
    ensures { value_of word ≡ Some (value.Object result) }
{
    let number = word / 8;
    let segment = number / OFFSETS;
    Address::at(
        (segment / SEGMENTS) as u8,
        segment % SEGMENTS,
        (number % OFFSETS) as u32,
    )
}

impl Reach {
    /// Within it no address lies.
    pub(crate) fn none() -> Reach
        ensures { (a : ℕ) → IsWithinReach result a → ⊥ }
    {
        Reach {
            least: 0,
            beyond: 0,
        }
    }

    /// The reach of the first words of a segment of thread 0.
    pub(crate) fn of_segment(segment: u64, size: u32) -> Reach
        ensures { (a : ℕ) → IsWithinReach result a ↔ (thread_of a ≡ 0) × (segment_of a ≡ segment) × (offset_of a < size) }
    {
        if segment < SEGMENTS {
            let least = segment * OFFSETS;
            Reach {
                least,
                beyond: least + u64::from(size).min(OFFSETS),
            }
        } else {
            Reach::none()
        }
    }

    /// The reach of all that lies within one of the two.
    pub(crate) fn with(self, other: Reach) -> Reach
        ensures { Spans result (λ a. IsWithinReach self a ⊎ IsWithinReach other a) }
    {
        if self.beyond <= self.least {
            other
        } else if other.beyond <= other.least {
            self
        } else {
            Reach {
                least: self.least.min(other.least),
                beyond: self.beyond.max(other.beyond),
            }
        }
    }

    /// The object to which a word refers, where that lies within the reach, by one comparison.
    #[inline(always)]
    pub fn object(self, word: u64) -> Option<Address>
        ensures some { IfSome result (λ a. (value_of word ≡ Some (value.Object a)) × IsWithinReach self a) }
        ensures none { IfNone result ((a : ℕ) → value_of word ≡ Some (value.Object a) → IsWithinReach self a → ⊥) }
    {
        // The word of an object at address a is 8 a + 1, and a is even. So with its last four bits turned to the
        // top it is 2^60 + a / 2, and any other word comes out below 2^60 or not below 2^61.
        let turned = word.rotate_right(4);
        let first = half(self.least);
        let end = half(self.beyond.min(ADDRESSES));
        if turned.wrapping_sub(OBJECT + first) < end.saturating_sub(first) {
            Some(address_in(word))
        } else {
            None
        }
    }
}
