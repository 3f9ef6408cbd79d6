//! Pieces of printed text, appended to a buffer.

ghost use Rattle.std.specs.Prelude.{◌≡◌, ◌<◌, ◌++◌, ◌∷◌, [], ◌==◌, decimal, position, OnOk, IsTrue};
ghost use Rattle.std.specs.Char.{digit_char};
ghost use Rattle.std.specs.Fmt.{signed_decimal};
ghost use Rattle.trace_types.specs.Values.{is_byte};
ghost use Rattle.trace_types.specs.Printing.{number_of, value_text, byte_text, generation_word};
ghost use Rattle.plain_model.specs.Plain.{meaning};

use crate::value::Value;
use itoa::Buffer;
use std::alloc::AllocError;

/// Objects of this generation are never collected.
const STATIC_GENERATION: u8 = 8;

pub(crate) fn push_word(text: &mut Vec<u8>, word: &[u8]) -> Result<(), AllocError>
    ensures { OnOk result (text.new.items ≡ text.old.items ++ word.now) }
{
    text.extend_from_slice(word)
}

pub(crate) fn push_number(text: &mut Vec<u8>, number: u64) -> Result<(), AllocError>
    ensures { OnOk result (text.new.items ≡ text.old.items ++ decimal number) }
{
    let mut buffer = Buffer::new();
    text.extend_from_slice(buffer.format(number).as_bytes())
}

fn push_fixnum(text: &mut Vec<u8>, number: i64) -> Result<(), AllocError>
    ensures { OnOk result (text.new.items ≡ text.old.items ++ signed_decimal number) }
{
    let mut buffer = Buffer::new();
    text.extend_from_slice(buffer.format(number).as_bytes())
}

/// Appends a generation by its number, or `s` for the static one.
pub(crate) fn push_generation(text: &mut Vec<u8>, generation: u8) -> Result<(), AllocError>
    ensures { OnOk result (text.new.items ≡ text.old.items ++ generation_word generation) }
{
    if generation == STATIC_GENERATION {
        push_word(text, b"s")
    } else {
        push_number(text, u64::from(generation))
    }
}

fn place_in(births: &[u32], birth: u32) -> Option<usize>
    ensures { result ≡ position (λ x. x == birth) births.now }
{
    births.iter().position(|x| *x == birth)
}

// The number of the object in a print, whose objects have these births in the order of their numbers.
fn number_of(births: &[u32], birth: u32) -> usize
    ensures { result ≡ number_of births.now birth }
{
    place_in(births, birth).unwrap_or(0)
}

/// Appends a value as it is printed, an object by its number.
pub(crate) fn push_value(text: &mut Vec<u8>, births: &[u32], value: Value) -> Result<(), AllocError>
    ensures { OnOk result (text.new.items ≡ text.old.items ++ value_text births.now (meaning value)) }
{
    match value {
        Value::Fixnum(number) => push_fixnum(text, number),
        Value::Nil => push_word(text, b"nil"),
        Value::True => push_word(text, b"t"),
        Value::False => push_word(text, b"f"),
        Value::Bwp => push_word(text, b"bwp"),
        Value::Object(birth) => {
            push_word(text, b"#")?;
            push_number(text, number_of(births, birth) as u64)
        }
    }
}

fn push_digit(text: &mut Vec<u8>, digit: u8) -> Result<(), AllocError>
    requires { digit < 16 }
    ensures { OnOk result (text.new.items ≡ text.old.items ++ digit_char digit ∷ []) }
{
    if digit < 10 {
        push_word(text, &[b'0' + digit])
    } else {
        push_word(text, &[b'a' + (digit - 10)])
    }
}

/// Appends two lower-case hexadecimal digits.
pub(crate) fn push_byte(text: &mut Vec<u8>, value: Value) -> Result<(), AllocError>
    requires { IsTrue (is_byte (meaning value)) }
    ensures { OnOk result (text.new.items ≡ text.old.items ++ byte_text (meaning value)) }
{
    match value {
        Value::Fixnum(number) => {
            push_digit(text, (number / 16) as u8)?;
            push_digit(text, (number % 16) as u8)
        }
        _ => Ok(()),
    }
}
