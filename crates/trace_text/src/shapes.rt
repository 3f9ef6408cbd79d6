//! The operands that several commands take alike: so many fields, read from left to right.

ghost use Rattle.std.specs.Prelude.{◌≡◌};
ghost use Rattle.trace_types.specs.Reading.{register, value, count, byte, one_operand, two_operands, three_operands};
ghost use Rattle.trace_text.specs.Shapes.{alone, pair, triple};

use crate::fields::Fields;
use crate::operands::{read_byte, read_count, read_register, read_value};
use trace_types::{Fault, Operand, Register};

pub fn register(operands: Fields) -> Result<Register, Fault>
    ensures { result ≡ one_operand register alone operands.entry }
{
    read_register(operands.one()?)
}

pub fn value(operands: Fields) -> Result<Operand, Fault>
    ensures { result ≡ one_operand value alone operands.entry }
{
    read_value(operands.one()?)
}

pub fn register_value(operands: Fields) -> Result<(Register, Operand), Fault>
    ensures { result ≡ two_operands register value pair operands.entry }
{
    let (first, second) = operands.two()?;
    Ok((read_register(first)?, read_value(second)?))
}

pub fn byte_register(operands: Fields) -> Result<(u8, Register), Fault>
    ensures { result ≡ two_operands byte register pair operands.entry }
{
    let (first, second) = operands.two()?;
    Ok((read_byte(first)?, read_register(second)?))
}

pub fn register_value_value(operands: Fields) -> Result<(Register, Operand, Operand), Fault>
    ensures { result ≡ three_operands register value value triple operands.entry }
{
    let (first, second, third) = operands.three()?;
    Ok((
        read_register(first)?,
        read_value(second)?,
        read_value(third)?,
    ))
}

pub fn register_count_value(operands: Fields) -> Result<(Register, u32, Operand), Fault>
    ensures { result ≡ three_operands register count value triple operands.entry }
{
    let (first, second, third) = operands.three()?;
    Ok((
        read_register(first)?,
        read_count(second)?,
        read_value(third)?,
    ))
}

pub fn register_count_byte(operands: Fields) -> Result<(Register, u32, u8), Fault>
    ensures { result ≡ three_operands register count byte triple operands.entry }
{
    let (first, second, third) = operands.three()?;
    Ok((
        read_register(first)?,
        read_count(second)?,
        read_byte(third)?,
    ))
}
