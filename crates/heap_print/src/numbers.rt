//! The numbers that the objects of one print have.

ghost use Rattle.std.specs.Prelude.{◌≡◌, ℕ, List, [], ◌+◌, ◌*◌, ◌/◌, ◌%◌, ◌++◌, ◌<◌, ◌≤◌, length, slice_get, slice_index, OnOk, OnErr, IfOk};
ghost use Rattle.trace_types.specs.Printing.{with_number, number_of};
ghost use Rattle.heap_print.specs.Notes.{place_in, place_of, note_of, AreNoted, IsLast};

use indexmap::IndexSet;
use std::alloc::{AllocError, Global};
use std::marker::Model;

/// How many starts a block has: one for each two of its 512 words.
const STARTS: usize = 256;

/// By how much the words differ that refer to a start and to the next one.
const START: u64 = 16;

/// By how much they differ where the other start is at the same place of the next block.
const BLOCK: u64 = 4096;

/// No print has so many objects: each was made by a line of its own.
const TOO_MANY: usize = 4294967295;

/// A block, and its row.
#[derive(Clone, Copy, Drop)]
pub(crate) struct Last {
    block: u64,
    row: usize,
}

/// The objects that have a number, each by the word that refers to it, in the order of their numbers.
///
/// An object's number is noted at its place: each block of 256 starts of which one was come upon has a row of
/// notes. Rows are found by a hash, and the last one that was looked at without it.
#[derive(Drop)]
pub struct Numbers {
    words: Vec<u64>,
    /// The blocks that have rows, in the order of these.
    blocks: IndexSet<u64>,
    /// For each start of these blocks 0, or one more than its number.
    rows: Vec<u32>,
    last: Last,
}

impl Model for Numbers {
    ghost use Rattle.std.specs.Prelude.{List, ℕ};

    ghost Value = { List ℕ };

    ghost use Rattle.heap_print.specs.Notes.{AreNoted, IsLast};

    ghost view = { λ n. n.words.items };

    ghost invariant = { λ n. AreNoted n.words.items n.blocks.keys n.rows.items
        × IsLast n.last.block n.last.row n.blocks.keys };
}

/// Sees to it that there is a row behind those of so many blocks.
fn make_room(rows: &mut Vec<u32>, blocks: usize) -> Result<(), AllocError>
    requires { 256 * blocks ≤ length rows.old.items }
    ensures room { OnOk result (256 * blocks + 256 ≤ length rows.new.items) }
    ensures more { length rows.old.items ≤ length rows.new.items }
    ensures same { (i : ℕ) → slice_index rows.new.items i ≡ slice_index rows.old.items i }
{
    if rows.len() / STARTS > blocks {
        return Ok(());
    }
    rows.extend_from_slice(&[0; STARTS])?;
    Ok(())
}

/// The row of a block, which gets one where it has none.
fn make_row(
    blocks: &mut IndexSet<u64>,
    rows: &mut Vec<u32>,
    block: u64,
) -> Result<usize, AllocError>
    requires { 256 * length blocks.old.keys ≤ length rows.old.items }
    ensures row { IfOk result (λ row. row ≡ place_in blocks.new.keys block) }
    ensures within { IfOk result (λ row. row < length blocks.new.keys) }
    ensures err { OnErr result (blocks.new.keys ≡ blocks.old.keys) }
    ensures noted { (words : List ℕ) → AreNoted words blocks.old.keys rows.old.items
        → AreNoted words blocks.new.keys rows.new.items }
{
    make_room(rows, blocks.len())?;
    match blocks.insert_full(block) {
        Ok((row, _)) => Ok(row),
        Err(_) => Err(AllocError),
    }
}

/// The row of a block, which gets one where it has none, and is the last one from then on.
fn find_row(
    blocks: &mut IndexSet<u64>,
    rows: &mut Vec<u32>,
    last: &mut Last,
    block: u64,
) -> Result<usize, AllocError>
    requires room { 256 * length blocks.old.keys ≤ length rows.old.items }
    requires last { IsLast last.old.block last.old.row blocks.old.keys }
    ensures row { IfOk result (λ row. row ≡ place_in blocks.new.keys block) }
    ensures within { IfOk result (λ row. row < length blocks.new.keys) }
    ensures last { IsLast last.new.block last.new.row blocks.new.keys }
    ensures noted { (words : List ℕ) → AreNoted words blocks.old.keys rows.old.items
        → AreNoted words blocks.new.keys rows.new.items }
{
    if last.block == block && last.row < blocks.len() {
        return Ok(last.row);
    }
    let row = make_row(blocks, rows, block)?;
    *last = Last { block, row };
    Ok(row)
}

/// The number of the object that a word refers to, which is noted at this place; where it has none, it is given
/// the next one.
fn find_number(
    words: &mut Vec<u64>,
    rows: &mut Vec<u32>,
    place: usize,
    word: u64,
) -> Result<usize, AllocError>
    requires form { word % 16 ≡ 1 }
    requires within { place < length rows.old.items }
    requires note { slice_index rows.old.items place ≡ note_of words.old.items word }
    ensures numbers { OnOk result (words.new.items ≡ with_number words.old.items word) }
    ensures number { IfOk result (λ number. number ≡ place_in words.old.items word) }
    ensures noted { (blocks : List ℕ) → place ≡ place_of blocks word
        → place_in blocks (word / 4096) < length blocks
        → AreNoted words.old.items blocks rows.old.items → AreNoted words.new.items blocks rows.new.items }
{
    let note = rows[place];
    if note > 0 {
        return Ok(note as usize - 1);
    }
    let number = words.len();
    if number >= TOO_MANY {
        return Err(AllocError);
    }
    words.push(word)?;
    rows[place] = number as u32 + 1;
    Ok(number)
}

impl Numbers {
    /// No object has a number. Takes no memory yet.
    pub fn new(alloc: Global) -> Numbers
        ensures { result ≡ [] }
    {
        Numbers {
            words: Vec::new(alloc),
            blocks: IndexSet::new(alloc),
            rows: Vec::new(alloc),
            last: Last { block: 0, row: 0 },
        }
    }

    /// How many objects have a number.
    pub fn count(&self) -> usize
        ensures count { result ≡ length self.now }
        ensures small { result < 9223372036854775808 }
    {
        self.words.len()
    }

    /// The object of a number.
    pub fn object(&self, number: usize) -> Option<u64>
        ensures { result ≡ slice_get self.now number }
    {
        self.words.get(number).copied()
    }

    /// The number of the object that a word refers to; where it has none, it is given the next one. It keeps its
    /// number, whatever objects are given numbers behind it.
    pub fn visit(&mut self, word: u64) -> Result<usize, AllocError>
        requires { word % 16 ≡ 1 }
        ensures numbers { OnOk result (self.new ≡ with_number self.old word) }
        ensures number { IfOk result (λ number. (more : List ℕ) → number_of (self.new ++ more) word ≡ number) }
    {
        let row = find_row(
            &mut self.blocks,
            &mut self.rows,
            &mut self.last,
            word / BLOCK,
        )?;
        let place = STARTS * row + (word / START) as usize % STARTS;
        let number = find_number(&mut self.words, &mut self.rows, place, word)?;
        Ok(number)
    }
}
