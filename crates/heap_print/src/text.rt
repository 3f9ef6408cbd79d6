//! Pieces of printed text, appended to a buffer.

ghost use Rattle.std.specs.Prelude.{◌≡◌, ◌++◌, ◌∷◌, [], ◌<◌, ℕ, List, fold, decimal, OnOk};
ghost use Rattle.std.specs.Char.{digit_char};
ghost use Rattle.std.specs.Fmt.{signed_decimal};
ghost use Rattle.trace_types.specs.Values.{objects_in};
ghost use Rattle.trace_types.specs.Printing.{with_number, value_text, generation_word};
ghost use Rattle.gc_words.specs.Layout.{IsAddress};
ghost use Rattle.heap_print.specs.Words.{by_word};
ghost use Rattle.heap_print.specs.Lines.{spaced_byte};

use crate::numbers::Numbers;
use gc_words::{Value, encode};
use itoa::Buffer;
use std::alloc::AllocError;

/// The generation of objects that no collection looks at; it is printed as a letter.
const STATIC: u8 = 8;

pub(crate) fn push_word(text: &mut Vec<u8>, word: &[u8]) -> Result<(), AllocError>
    ensures { OnOk result (text.new.items ≡ text.old.items ++ word.now) }
{
    text.extend_from_slice(word)
}

/// A number. Most generations and threads have one digit.
#[tactic(auto, using(std::proofs::lemmas::Fmt::decimal_digit))]
pub(crate) fn push_number(text: &mut Vec<u8>, number: u64) -> Result<(), AllocError>
    ensures { OnOk result (text.new.items ≡ text.old.items ++ decimal number) }
{
    if number < 10 {
        text.push(b'0' + number as u8)?;
        return Ok(());
    }
    let mut buffer = Buffer::new();
    text.extend_from_slice(buffer.format(number).as_bytes())
}

fn push_fixnum(text: &mut Vec<u8>, number: i64) -> Result<(), AllocError>
    ensures { OnOk result (text.new.items ≡ text.old.items ++ signed_decimal number) }
{
    let mut buffer = Buffer::new();
    text.extend_from_slice(buffer.format(number).as_bytes())
}

/// A value; an object by its number, which it is given here where it has none.
pub(crate) fn push_value(
    text: &mut Vec<u8>,
    numbers: &mut Numbers,
    value: Value,
) -> Result<(), AllocError>
    ensures numbers { OnOk result (numbers.new
        ≡ fold with_number numbers.old (objects_in (by_word value ∷ []))) }
    ensures text { OnOk result ((more : List ℕ)
        → text.new.items ≡ text.old.items ++ value_text (numbers.new ++ more) (by_word value)) }
    ensures address { (a : ℕ) → value ≡ Value.Object a → IsAddress a }
{
    match value {
        Value::Fixnum(number) => push_fixnum(text, number),
        Value::Nil => push_word(text, b"nil"),
        Value::True => push_word(text, b"t"),
        Value::False => push_word(text, b"f"),
        Value::Bwp => push_word(text, b"bwp"),
        Value::Object(at) => {
            let number = numbers.visit(encode(Value::Object(at)))?;
            push_word(text, b"#")?;
            push_number(text, number as u64)
        }
    }
}

fn digit(value: u8) -> u8
    requires { value < 16 }
    ensures { result ≡ digit_char value }
{
    if value < 10 {
        b'0' + value
    } else {
        b'a' + (value - 10)
    }
}

/// A byte as two lower-case hexadecimal digits, after a space.
pub(crate) fn push_byte(text: &mut Vec<u8>, byte: u8) -> Result<(), AllocError>
    ensures { OnOk result (text.new.items ≡ text.old.items ++ spaced_byte byte) }
{
    text.extend_from_slice(&[b' ', digit(byte / 16), digit(byte % 16)])
}

/// A generation by its number, the static one by its letter.
pub(crate) fn push_generation(text: &mut Vec<u8>, generation: u8) -> Result<(), AllocError>
    ensures { OnOk result (text.new.items ≡ text.old.items ++ generation_word generation) }
{
    if generation == STATIC {
        push_word(text, b"s")
    } else {
        push_number(text, u64::from(generation))
    }
}
