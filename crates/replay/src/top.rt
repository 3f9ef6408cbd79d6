// The top call: from the words, the source and the sinks to the status.
ghost use Rattle.std.specs.Prelude.{◌≡◌, ◌⊎◌, List, ℕ, Some, None};
ghost use Rattle.gc_io.specs.Outside.{Rose};
ghost use Rattle.replay.specs.declared.words.Words.{Words};
ghost use Rattle.replay.specs.Words.{words_of};
ghost use Rattle.replay.specs.Rows.{read_of, wrote_of};
ghost use Rattle.replay.specs.Built.{run};
ghost use Rattle.replay.specs.Headline.{Headline, OtherWords, IsComplete, StaysQuiet};

use crate::lines::run;
use crate::report::{Outcome, Status, report, report_memory, report_usage};
use crate::words::{WordsError, read_words};
use gc_io::{Gate, Sink, Source};
use std::alloc::Global;
use std::thread::Threads;

/// Replays a trace: all that the program does.
///
/// It reads the words, performs the lines of `source` one by one, and writes the text of each to `out` before it asks for
/// more. `out` is flushed after the last line, and before the message of a refused line. A message goes to `err`.
pub fn replay_main<R: Threads + Sync, S: Source, O: Sink, E: Sink, G: Gate>(
    rt: &R,
    alloc: Global,
    words: &[String],
    source: &mut S,
    out: &mut O,
    err: &mut E,
    gate: &G,
) -> Outcome
    // The headline: the table of statuses, where the words are in form and the source tells its bytes.
    ensures table { (w : Words) → words_of words.now ≡ Some w → (bytes : List ℕ) → S.left source.old ≡ Some bytes →
        Headline result.status w.limits bytes result.heap (read_of S.left S.faults source.old source.new)
        (wrote_of O.written O.flushed O.faults out.old out.new) (wrote_of E.written E.flushed E.faults err.old err.new) }

    // Where nothing of the outside failed, a trace is performed and its refusal told, unless memory ran out.
    ensures complete { (w : Words) → words_of words.now ≡ Some w → (bytes : List ℕ) → S.left source.old ≡ Some bytes →
        StaysQuiet (S.faults source.old) (S.faults source.new) → StaysQuiet (O.faults out.old) (O.faults out.new) →
        StaysQuiet (E.faults err.old) (E.faults err.new) → IsComplete result.status (run w.limits bytes).stop }

    // Other words: nothing is read, and nothing is written but a message.
    ensures other_words { words_of words.now ≡ None → (source.new ≡ source.old) × (out.new ≡ out.old) × (result.heap ≡ None)
        × OtherWords result.status (wrote_of E.written E.flushed E.faults err.old err.new) }

    // When an answer comes, whatever the outside tells.
    ensures usage { result.status ≡ Status.Usage → words_of words.now ≡ None }
    ensures read_cause { result.status ≡ Status.ReadFault → Rose (S.faults source.old) (S.faults source.new) }
    ensures write_cause { result.status ≡ Status.WriteFault →
        Rose (O.faults out.old) (O.faults out.new) ⊎ Rose (E.faults err.old) (E.faults err.new) }
{
    match read_words(words) {
        Ok(words) => {
            let ending = run(rt, alloc, &words.limits, source, out, gate);
            report(alloc, err, ending)
        }
        Err(WordsError::Usage) => report_usage(err),
        Err(WordsError::NoMemory) => report_memory(err),
    }
}

#[cfg(test)]
mod tests;
