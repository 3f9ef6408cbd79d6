//! The classes of operands, one function each.

ghost use Rattle.std.specs.Prelude.{◌≡◌};
ghost use Rattle.trace_types.specs.Reading.{register, negated, plain, value, count, byte, thread, generation, generation_or_static, mode, register_but, is_register as is_the_register, value_but};

use crate::numeral::read_numeral;
use trace_types::{Fault, Mode, Operand, Register};

const MOST_FIXNUM: u64 = 1_152_921_504_606_846_975;

const MOST_NEGATED: u64 = 1_152_921_504_606_846_976;

/// A register: `r` and a numeral at most 4095.
pub fn read_register(field: &[u8]) -> Result<Register, Fault>
    ensures { result ≡ register field.now }
{
    let [b'r', number @ ..] = field else {
        return Err(Fault::BadRegister);
    };
    let n = read_numeral(number, 4095, Fault::BadRegister)?;
    Register::new(n as u32).ok_or(Fault::BadRegister)
}

/// What stands behind `-`: a numeral that is not `0`, in the range of fixnums.
fn read_negated(number: &[u8]) -> Result<Operand, Fault>
    ensures { result ≡ negated number.now }
{
    if number == b"0".as_slice() {
        return Err(Fault::BadNumber);
    }
    let n = read_numeral(number, MOST_NEGATED, Fault::BadNumber)?;
    Ok(Operand::Fixnum(-(n as i64)))
}

/// A value that is written without `r` and `-`: `nil`, `t`, `f` or a numeral.
fn read_plain(field: &[u8]) -> Result<Operand, Fault>
    ensures { result ≡ plain field.now }
{
    if field == b"nil".as_slice() {
        return Ok(Operand::Nil);
    }
    if field == b"t".as_slice() {
        return Ok(Operand::True);
    }
    if field == b"f".as_slice() {
        return Ok(Operand::False);
    }
    let n = read_numeral(field, MOST_FIXNUM, Fault::BadNumber)?;
    Ok(Operand::Fixnum(n as i64))
}

/// A value: a register, a fixnum, `nil`, `t` or `f`.
pub fn read_value(field: &[u8]) -> Result<Operand, Fault>
    ensures { result ≡ value field.now }
{
    match field {
        [b'r', ..] => Ok(Operand::Reg(read_register(field)?)),
        [b'-', number @ ..] => read_negated(number),
        _ => read_plain(field),
    }
}

/// A count: a numeral at most 4294967295.
pub fn read_count(field: &[u8]) -> Result<u32, Fault>
    ensures { result ≡ count field.now }
{
    let n = read_numeral(field, 4_294_967_295, Fault::BadNumber)?;
    Ok(n as u32)
}

/// A byte or the number of a note: a numeral at most 255.
pub fn read_byte(field: &[u8]) -> Result<u8, Fault>
    ensures { result ≡ byte field.now }
{
    let n = read_numeral(field, 255, Fault::BadNumber)?;
    Ok(n as u8)
}

/// A thread: a numeral at most 63.
pub fn read_thread(field: &[u8]) -> Result<u8, Fault>
    ensures { result ≡ thread field.now }
{
    let n = read_numeral(field, 63, Fault::BadThread)?;
    Ok(n as u8)
}

/// A generation: one digit from 0 to 7.
pub fn read_generation(field: &[u8]) -> Result<u8, Fault>
    ensures { result ≡ generation field.now }
{
    match field {
        [digit @ b'0'..=b'7'] => Ok(*digit - b'0'),
        _ => Err(Fault::BadGeneration),
    }
}

/// As MIN and MAX also `s`, the static generation, which is number 8.
pub fn read_generation_or_static(field: &[u8]) -> Result<u8, Fault>
    ensures { result ≡ generation_or_static field.now }
{
    match field {
        b"s" => Ok(8),
        _ => read_generation(field),
    }
}

/// A mode: `p`, `w` or `e`.
pub fn read_mode(field: &[u8]) -> Result<Mode, Fault>
    ensures { result ≡ mode field.now }
{
    match field {
        b"p" => Ok(Mode::Pair),
        b"w" => Ok(Mode::Weak),
        b"e" => Ok(Mode::Eph),
        _ => Err(Fault::BadNumber),
    }
}

/// A register other than `d`.
pub fn read_register_but(d: Register, field: &[u8]) -> Result<Register, Fault>
    ensures { result ≡ register_but d field.now }
{
    let register = read_register(field)?;
    if register.number() == d.number() {
        return Err(Fault::BadRegister);
    }
    Ok(register)
}

/// Whether the operand is the register `d`.
fn is_register(d: Register, operand: &Operand) -> bool
    ensures { result ≡ is_the_register d operand.now }
{
    match operand {
        Operand::Reg(register) => register.number() == d.number(),
        _ => false,
    }
}

/// A value other than the register `d`.
pub fn read_value_but(d: Register, field: &[u8]) -> Result<Operand, Fault>
    ensures { result ≡ value_but d field.now }
{
    let operand = read_value(field)?;
    if is_register(d, &operand) {
        return Err(Fault::BadRegister);
    }
    Ok(operand)
}
