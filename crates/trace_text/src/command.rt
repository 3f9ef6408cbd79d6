//! What a line says: nothing, one command, or the first fault.
//!
//! The first field is the command word. It is compared with the words of its length alone, so a line
//! takes few comparisons, and each word hands the other fields to its function of `rows`.

ghost use Rattle.std.specs.Prelude.{◌≡◌, ◌≤◌, length};
ghost use Rattle.std.specs.List.{list_all};
ghost use Rattle.trace_types.specs.Reading.{by_word, command_in, grammar, is_skipped as skips, is_printable as prints, read};
ghost use Rattle.trace_text.specs.Words.{words_of};

use crate::fields::Fields;
use crate::rows::{
    read_box, read_bytes, read_census, read_check, read_collect, read_cons, read_eph, read_gen,
    read_get, read_guard, read_ibytes, read_ivec, read_lock, read_mov, read_note, read_oguard,
    read_path, read_print, read_reg, read_set, read_size, read_take, read_tdel, read_tget,
    read_thread_command, read_tput, read_unlock, read_vec, read_version, read_weak,
};
use trace_types::{Command, Fault};

/// A command whose word has three letters.
fn read_three_letters(word: &[u8], operands: Fields) -> Result<Command, Fault>
    ensures { result ≡ by_word (words_of 3) word.now operands.entry }
{
    if word == b"eph".as_slice() {
        return read_eph(operands);
    }
    if word == b"box".as_slice() {
        return read_box(operands);
    }
    if word == b"vec".as_slice() {
        return read_vec(operands);
    }
    if word == b"reg".as_slice() {
        return read_reg(operands);
    }
    if word == b"get".as_slice() {
        return read_get(operands);
    }
    if word == b"set".as_slice() {
        return read_set(operands);
    }
    if word == b"mov".as_slice() {
        return read_mov(operands);
    }
    if word == b"gen".as_slice() {
        return read_gen(operands);
    }
    Err(Fault::UnknownCommand)
}

/// A command whose word has four letters.
fn read_four_letters(word: &[u8], operands: Fields) -> Result<Command, Fault>
    ensures { result ≡ by_word (words_of 4) word.now operands.entry }
{
    if word == b"cons".as_slice() {
        return read_cons(operands);
    }
    if word == b"weak".as_slice() {
        return read_weak(operands);
    }
    if word == b"ivec".as_slice() {
        return read_ivec(operands);
    }
    if word == b"take".as_slice() {
        return read_take(operands);
    }
    if word == b"lock".as_slice() {
        return read_lock(operands);
    }
    if word == b"note".as_slice() {
        return read_note(operands);
    }
    if word == b"tput".as_slice() {
        return read_tput(operands);
    }
    if word == b"tget".as_slice() {
        return read_tget(operands);
    }
    if word == b"tdel".as_slice() {
        return read_tdel(operands);
    }
    if word == b"path".as_slice() {
        return read_path(operands);
    }
    if word == b"size".as_slice() {
        return read_size(operands);
    }
    Err(Fault::UnknownCommand)
}

/// A command whose word has five letters.
fn read_five_letters(word: &[u8], operands: Fields) -> Result<Command, Fault>
    ensures { result ≡ by_word (words_of 5) word.now operands.entry }
{
    if word == b"bytes".as_slice() {
        return read_bytes(operands);
    }
    if word == b"guard".as_slice() {
        return read_guard(operands);
    }
    if word == b"check".as_slice() {
        return read_check(operands);
    }
    if word == b"print".as_slice() {
        return read_print(operands);
    }
    Err(Fault::UnknownCommand)
}

/// A command whose word has six letters.
fn read_six_letters(word: &[u8], operands: Fields) -> Result<Command, Fault>
    ensures { result ≡ by_word (words_of 6) word.now operands.entry }
{
    if word == b"thread".as_slice() {
        return read_thread_command(operands);
    }
    if word == b"ibytes".as_slice() {
        return read_ibytes(operands);
    }
    if word == b"oguard".as_slice() {
        return read_oguard(operands);
    }
    if word == b"unlock".as_slice() {
        return read_unlock(operands);
    }
    if word == b"census".as_slice() {
        return read_census(operands);
    }
    Err(Fault::UnknownCommand)
}

/// A command whose word has seven letters.
fn read_seven_letters(word: &[u8], operands: Fields) -> Result<Command, Fault>
    ensures { result ≡ by_word (words_of 7) word.now operands.entry }
{
    if word == b"collect".as_slice() {
        return read_collect(operands);
    }
    if word == b"version".as_slice() {
        return read_version(operands);
    }
    Err(Fault::UnknownCommand)
}

/// The command of this word. A word is compared with those of its length alone.
fn read_by_word(word: &[u8], operands: Fields) -> Result<Command, Fault>
    ensures { result ≡ by_word grammar word.now operands.entry }
{
    match word.len() {
        3 => read_three_letters(word, operands),
        4 => read_four_letters(word, operands),
        5 => read_five_letters(word, operands),
        6 => read_six_letters(word, operands),
        7 => read_seven_letters(word, operands),
        _ => Err(Fault::UnknownCommand),
    }
}

/// The command of a line of these fields, of which the first is the command word.
fn read_fields(mut fields: Fields) -> Result<Command, Fault>
    ensures { result ≡ command_in fields.entry }
{
    let word = fields.next().ok_or(Fault::UnknownCommand)?;
    read_by_word(word, fields)
}

/// Whether the line is empty or a comment.
fn is_skipped(line: &[u8]) -> bool
    ensures { result ≡ skips line.now }
{
    matches!(line, [] | [b';', ..])
}

/// Whether each byte is from the space to `~`.
fn is_printable(line: &[u8]) -> bool
    ensures { result ≡ list_all prints line.now }
{
    line.iter().all(|c| b' ' <= *c && *c <= b'~')
}

/// What a line of a trace says: nothing, one command, or its first fault. Takes no memory.
///
/// `line` is the line without its newline, of at most 1,024 bytes. The answer is `None` for an empty
/// line and for a comment, which begins with `;` and may hold any bytes. Any other line is split at
/// each space, and has the first of these faults that is there:
///
/// 1. `NotText`: a byte is outside 32 to 126.
/// 2. `UnknownCommand`: the first field is no command word, or it is `version` and the others are not
///    the one field `2`.
/// 3. `OperandCount`: the command does not take this number of other fields.
/// 4. The operands' own faults, from left to right: `BadRegister`, `BadNumber`, `BadThread` and
///    `BadGeneration`, where a field has not the form of its class or is out of its range. In `tput`
///    an operand that is the register of the entry is `BadRegister` too.
///
/// The grammar and the order of its faults are this project's own.
pub fn read_command(line: &[u8]) -> Result<Option<Command>, Fault>
    requires { length line.now ≤ 1024 }
    ensures { result ≡ read line.now }
{
    if is_skipped(line) {
        return Ok(None);
    }
    match read_fields(Fields::of(line)) {
        Ok(command) => Ok(Some(command)),
        // A line that says a command has no other bytes, so these are looked for in a refused one alone.
        Err(_) if !is_printable(line) => Err(Fault::NotText),
        Err(fault) => Err(fault),
    }
}

#[cfg(test)]
mod tests;
