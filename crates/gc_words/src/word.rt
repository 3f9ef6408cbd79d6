//! The word of a value: 64 bits, of which the three lowest are the tag. The layout is this project's own,
//! after the tagged words of Chez Scheme (Dybvig, Eby and Bruggeman, "Don't Stop the BIBOP", 1994).

ghost use Rattle.std.specs.Prelude.{◌≡◌, ◌↔◌, IsSome, IfSome, Some};
ghost use Rattle.gc_words.specs.Word.{IsInRange, IsValid, HasForm, word_of, value_of};

use crate::address::Address;
use crate::value::Value;

/// The word of `nil`: tag 6, and 0 above it.
const NIL: u64 = 6;

const TRUE: u64 = 14;

const FALSE: u64 = 22;

const BWP: u64 = 30;

/// The word of a value whose fixnum, if it is one, is from -2^60 to 2^60 - 1.
#[tactic(auto, unfolding(crate::specs::Word::value_of))]
pub fn encode(v: Value) -> u64
    requires { IsInRange v }
    ensures word { result ≡ word_of v }
    ensures valid { IsValid v }
    ensures round_trip { value_of result ≡ Some v }
{
    match v {
        Value::Fixnum(z) => (z * 8).cast_unsigned(),
        Value::Nil => NIL,
        Value::True => TRUE,
        Value::False => FALSE,
        Value::Bwp => BWP,
        Value::Object(a) => a.number() * 8 + 1,
    }
}

/// The value of a word. None exactly where no value has this word: tags 2 to 5 and 7, an object tag
/// with an odd offset, and tag 6 with more than 3 above it.
#[tactic(auto, unfolding(crate::specs::Word::value_of))]
pub fn decode(word: u64) -> Option<Value>
    ensures value { result ≡ value_of word }
    ensures some { IsSome result ↔ HasForm word }
    ensures valid { IfSome result IsValid }
    ensures round_trip { IfSome result (λ v. word_of v ≡ word) }
{
    match word % 8 {
        0 => Some(Value::Fixnum(word.cast_signed() / 8)),
        1 => match Address::from_number(word / 8) {
            Some(a) => Some(Value::Object(a)),
            None => None,
        },
        6 => match word {
            NIL => Some(Value::Nil),
            TRUE => Some(Value::True),
            FALSE => Some(Value::False),
            BWP => Some(Value::Bwp),
            _ => None,
        },
        _ => None,
    }
}

#[cfg(test)]
mod tests {
    use super::*;
    use std::test::Fail;

    #[test]
    fn the_table_of_words(rt: HostRuntime) -> Result<(), Fail> {
        let place = Value::Object(Address::at(1, 2, 4));
        for (word, value) in [
            (0x0000000000000000, Some(Value::Fixnum(0))),
            (0x0000000000000008, Some(Value::Fixnum(1))),
            (0xfffffffffffffff8, Some(Value::Fixnum(-1))),
            (0x0000000000000006, Some(Value::Nil)),
            (0x000000000000000e, Some(Value::True)),
            (0x0000000000000016, Some(Value::False)),
            (0x000000000000001e, Some(Value::Bwp)),
            (0x0400000008000021, Some(place)),
            (0x0000000000000005, None),
            (0x0000000000000009, None),
            (0x0000000000000007, None),
            (0x0000000000000026, None),
        ] {
            assert_eq!(rt; decode(word), value, "decode {word}");
            if let Some(v) = decode(word) {
                assert_eq!(rt; encode(v), word, "encode {word}");
            }
        }
        Ok(())
    }
}
