//! The commands, one function each: what a command makes of its operands.
#![tactic(auto, using(crate::proofs::Shaping::three_operands_made))]

ghost use Rattle.std.specs.Prelude.{◌≡◌};
ghost use Rattle.trace_types.specs.Reading.{register, value, count, byte, thread, no_operand, one_operand, two_operands, three_operands, registration, collection, version, table_put};

use crate::fields::Fields;
use crate::operands::{
    read_count, read_generation, read_generation_or_static, read_mode, read_register,
    read_register_but, read_thread, read_value, read_value_but,
};
use crate::shapes::{
    byte_register, register, register_count_byte, register_count_value, register_value,
    register_value_value, value,
};
use trace_types::{CollectArgs, Command, Fault};

pub fn read_thread_command(operands: Fields) -> Result<Command, Fault>
    ensures { result ≡ one_operand thread Command.Thread operands.entry }
{
    let thread = read_thread(operands.one()?)?;
    Ok(Command::Thread { thread })
}

pub fn read_cons(operands: Fields) -> Result<Command, Fault>
    ensures { result ≡ three_operands register value value Command.Cons operands.entry }
{
    let (d, car, cdr) = register_value_value(operands)?;
    Ok(Command::Cons { d, car, cdr })
}

pub fn read_weak(operands: Fields) -> Result<Command, Fault>
    ensures { result ≡ three_operands register value value Command.Weak operands.entry }
{
    let (d, car, cdr) = register_value_value(operands)?;
    Ok(Command::Weak { d, car, cdr })
}

pub fn read_eph(operands: Fields) -> Result<Command, Fault>
    ensures { result ≡ three_operands register value value Command.Eph operands.entry }
{
    let (d, key, value) = register_value_value(operands)?;
    Ok(Command::Eph { d, key, value })
}

pub fn read_box(operands: Fields) -> Result<Command, Fault>
    ensures { result ≡ two_operands register value Command.MakeBox operands.entry }
{
    let (d, value) = register_value(operands)?;
    Ok(Command::MakeBox { d, value })
}

pub fn read_vec(operands: Fields) -> Result<Command, Fault>
    ensures { result ≡ three_operands register count value Command.Vector operands.entry }
{
    let (d, length, value) = register_count_value(operands)?;
    Ok(Command::Vector { d, length, value })
}

pub fn read_bytes(operands: Fields) -> Result<Command, Fault>
    ensures { result ≡ three_operands register count byte Command.Bytes operands.entry }
{
    let (d, length, byte) = register_count_byte(operands)?;
    Ok(Command::Bytes { d, length, byte })
}

pub fn read_ivec(operands: Fields) -> Result<Command, Fault>
    ensures { result ≡ three_operands register count value Command.ImmVector operands.entry }
{
    let (d, length, value) = register_count_value(operands)?;
    Ok(Command::ImmVector { d, length, value })
}

pub fn read_ibytes(operands: Fields) -> Result<Command, Fault>
    ensures { result ≡ three_operands register count byte Command.ImmBytes operands.entry }
{
    let (d, length, byte) = register_count_byte(operands)?;
    Ok(Command::ImmBytes { d, length, byte })
}

pub fn read_guard(operands: Fields) -> Result<Command, Fault>
    ensures { result ≡ one_operand register Command.Guard operands.entry }
{
    let d = register(operands)?;
    Ok(Command::Guard { d })
}

pub fn read_oguard(operands: Fields) -> Result<Command, Fault>
    ensures { result ≡ one_operand register Command.OrderedGuard operands.entry }
{
    let d = register(operands)?;
    Ok(Command::OrderedGuard { d })
}

pub fn read_reg(operands: Fields) -> Result<Command, Fault>
    ensures { result ≡ registration operands.entry }
{
    let (first, second, third) = operands.two_or_three()?;
    let guardian = read_register(first)?;
    let object = read_value(second)?;
    let representative = match third {
        Some(field) => Some(read_value(field)?),
        None => None,
    };
    Ok(Command::Reg {
        guardian,
        object,
        representative,
    })
}

pub fn read_take(operands: Fields) -> Result<Command, Fault>
    ensures { result ≡ two_operands register register Command.Take operands.entry }
{
    let (first, second) = operands.two()?;
    let d = read_register(first)?;
    let guardian = read_register(second)?;
    Ok(Command::Take { d, guardian })
}

pub fn read_get(operands: Fields) -> Result<Command, Fault>
    ensures { result ≡ three_operands register register count Command.Get operands.entry }
{
    let (first, second, third) = operands.three()?;
    let d = read_register(first)?;
    let s = read_register(second)?;
    let index = read_count(third)?;
    Ok(Command::Get { d, s, index })
}

pub fn read_set(operands: Fields) -> Result<Command, Fault>
    ensures { result ≡ three_operands register count value Command.Set operands.entry }
{
    let (s, index, value) = register_count_value(operands)?;
    Ok(Command::Set { s, index, value })
}

pub fn read_mov(operands: Fields) -> Result<Command, Fault>
    ensures { result ≡ two_operands register value Command.Mov operands.entry }
{
    let (d, value) = register_value(operands)?;
    Ok(Command::Mov { d, value })
}

pub fn read_lock(operands: Fields) -> Result<Command, Fault>
    ensures { result ≡ one_operand value Command.Lock operands.entry }
{
    let value = value(operands)?;
    Ok(Command::Lock { value })
}

pub fn read_unlock(operands: Fields) -> Result<Command, Fault>
    ensures { result ≡ one_operand value Command.Unlock operands.entry }
{
    let value = value(operands)?;
    Ok(Command::Unlock { value })
}

pub fn read_note(operands: Fields) -> Result<Command, Fault>
    ensures { result ≡ two_operands byte register Command.Note operands.entry }
{
    let (k, r) = byte_register(operands)?;
    Ok(Command::Note { k, r })
}

pub fn read_check(operands: Fields) -> Result<Command, Fault>
    ensures { result ≡ two_operands byte register Command.Check operands.entry }
{
    let (k, r) = byte_register(operands)?;
    Ok(Command::Check { k, r })
}

pub fn read_collect(operands: Fields) -> Result<Command, Fault>
    ensures { result ≡ collection operands.entry }
{
    if operands.is_empty() {
        return Ok(Command::Collect {
            args: CollectArgs::Plain,
        });
    }
    let (first, second, third) = operands.three()?;
    let cg = read_generation(first)?;
    let min = read_generation_or_static(second)?;
    let max = read_generation_or_static(third)?;
    Ok(Command::Collect {
        args: CollectArgs::Explicit { cg, min, max },
    })
}

pub fn read_print(operands: Fields) -> Result<Command, Fault>
    ensures { result ≡ one_operand value Command.Print operands.entry }
{
    let value = value(operands)?;
    Ok(Command::Print { value })
}

pub fn read_census(operands: Fields) -> Result<Command, Fault>
    ensures { result ≡ no_operand Command.Census operands.entry }
{
    operands.none()?;
    Ok(Command::Census)
}

pub fn read_gen(operands: Fields) -> Result<Command, Fault>
    ensures { result ≡ one_operand value Command.Gen operands.entry }
{
    let value = value(operands)?;
    Ok(Command::Gen { value })
}

pub fn read_version(operands: Fields) -> Result<Command, Fault>
    ensures { result ≡ version operands.entry }
{
    match operands.one() {
        Ok(number) if number == b"2".as_slice() => Ok(Command::Version),
        _ => Err(Fault::UnknownCommand),
    }
}

pub fn read_tput(operands: Fields) -> Result<Command, Fault>
    ensures { result ≡ table_put operands.entry }
{
    let (first, second, others) = operands.two_and_others()?;
    let (third, fourth, fifth) = others.three()?;
    let d = read_register(first)?;
    let table = read_register_but(d, second)?;
    let mode = read_mode(third)?;
    let key = read_value_but(d, fourth)?;
    let value = read_value_but(d, fifth)?;
    Ok(Command::TablePut {
        d,
        table,
        mode,
        key,
        value,
    })
}

pub fn read_tget(operands: Fields) -> Result<Command, Fault>
    ensures { result ≡ three_operands register register value Command.TableGet operands.entry }
{
    let (first, second, third) = operands.three()?;
    let d = read_register(first)?;
    let table = read_register(second)?;
    let key = read_value(third)?;
    Ok(Command::TableGet { d, table, key })
}

pub fn read_tdel(operands: Fields) -> Result<Command, Fault>
    ensures { result ≡ two_operands register value Command.TableDel operands.entry }
{
    let (table, key) = register_value(operands)?;
    Ok(Command::TableDel { table, key })
}

pub fn read_path(operands: Fields) -> Result<Command, Fault>
    ensures { result ≡ two_operands register value Command.Path operands.entry }
{
    let (from, to) = register_value(operands)?;
    Ok(Command::Path { from, to })
}

pub fn read_size(operands: Fields) -> Result<Command, Fault>
    ensures { result ≡ one_operand register Command.Size operands.entry }
{
    let from = register(operands)?;
    Ok(Command::Size { from })
}
