//! Words for the from-segments of territories, one after the other.

ghost use Rattle.std.specs.Prelude.{◌≡◌, ◌<◌, ◌≤◌, length, IfOk};
ghost use Rattle.directory.specs.Numbered.{IsNumbered, AreNumbered};

use crate::table::{FromSegment, FromTable, run};
use std::alloc::{AllocError, Global};
use territory::Territory;

/// How many threads there are.
pub const THREADS: usize = gc_words::THREADS as usize;

/// Gives the from-segments of a territory their words, from `first` on. Answers their table, and the word
/// after the last. Takes memory.
fn number_segments(
    alloc: Global,
    territory: &Territory,
    first: usize,
) -> Result<(FromTable, usize), AllocError>
    ensures { IfOk result (λ r. IsNumbered territory.now r.0 first r.1) }
{
    let mut table = FromTable::new(alloc);
    let mut next = first;
    let mut at = territory.first_from();
    while let Some(segment) = at {
        let size = territory.from_words(segment);
        let from = FromSegment {
            first_word: next,
            size,
            generation: territory.from_generation(segment),
        };
        next = next.checked_add(run(size)).ok_or(AllocError)?;
        table.put(segment as usize, from)?;
        at = territory.next_from(segment);
    }
    Ok((table, next))
}

/// Numbers the from-segments of a sweeper's threads, and answers the word after the last. Takes memory.
pub fn number_threads(
    alloc: Global,
    territories: &[Territory],
    tables: &mut Vec<FromTable>,
    sweeper: u32,
    sweepers: u32,
    first: usize,
) -> Result<usize, AllocError>
    requires sweepers_in { sweepers ≤ 64 }
    requires sweeper_in { sweeper < sweepers }
    requires territories { length territories.now ≡ 64 }
    requires tables { length tables.old.items ≡ 64 }
    ensures count { IfOk result (λ next. length tables.new.items ≡ 64) }
    ensures numbered { IfOk result (λ next.
        AreNumbered territories.now tables.old.items tables.new.items sweeper sweepers first next) }
{
    let mut next = first;
    let mut thread = sweeper as usize;
    while thread < THREADS {
        let (table, after) = number_segments(alloc, &territories[thread], next)?;
        tables[thread] = table;
        next = after;
        thread += sweepers as usize;
    }
    Ok(next)
}
