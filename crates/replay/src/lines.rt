// The lines of a source, performed one by one.
ghost use Rattle.std.specs.Prelude.{◌≡◌, ◌<◌, ◌≤◌, [], Some, List, ℕ, length, OnOk};
ghost use Rattle.gc_io.specs.Outside.{StaysFlushed};
ghost use Rattle.trace_types.specs.States.{State};
ghost use Rattle.heap_store.specs.Stands.{Stands};
ghost use Rattle.replay.specs.Words.{IsInRange};
ghost use Rattle.replay.specs.Engine.{Turns};
ghost use Rattle.replay.specs.Rows.{Progress, read_of, wrote_of};
ghost use Rattle.replay.specs.Ended.{Ended, HasRisen, Closed};

use crate::engine::Engine;
use crate::put::put;
use gc_io::{Gate, Sink, Source};
use heap_store::{Heap, HeapError};
use std::alloc::Global;
use std::thread::Threads;
use trace_text::{LineReader, Next, read_command};
use trace_types::{Fault, Limits};

#[cfg(test)]
mod tests;

/// How the lines of a source ended.
#[derive(Drop)]
pub(crate) enum Ending {
    All(Heap),
    At(u64, Fault, Heap),
    ReadFault,
    WriteFault,
    NoMemory,
}

// Performs a line of at most 1,024 bytes.
#[tactic(auto, unfolding(trace_types::specs::Runs::line_turn))]
fn perform<R: Threads + Sync, G: Gate>(
    rt: &R,
    limits: &Limits,
    engine: &mut Engine,
    number: u64,
    line: &[u8],
    text: &mut Vec<u8>,
    gate: &G,
) -> Result<(), HeapError>
    requires limits { IsInRange limits.now }
    requires newer { engine.old.newest < number }
    requires short { length line.now ≤ 1024 }
    requires empty { text.old.items ≡ [] }
    ensures turn { (s : State) → Stands engine.old.heap s → Turns limits.now s number line.now result text.new.items engine.new.heap }
    ensures newest { engine.new.newest ≤ number }
    ensures within { OnOk result (number ≤ limits.now.max_lines) }
{
    if number > u64::from(limits.max_lines) {
        return Err(HeapError::Fault(Fault::TooManyLines));
    }
    match read_command(line) {
        Ok(None) => Ok(()),
        Ok(Some(command)) => engine.step(rt, number as u32, &command, text, gate),
        Err(fault) => Err(HeapError::Fault(fault)),
    }
}

/// Performs the lines of a source, and writes the text of each before it asks for more.
fn perform_lines<R: Threads + Sync, S: Source, O: Sink, G: Gate>(
    rt: &R,
    alloc: Global,
    limits: &Limits,
    source: &mut S,
    out: &mut O,
    gate: &G,
) -> Ending
    requires { IsInRange limits.now }
    ensures ended { (bytes : List ℕ) → S.left source.old ≡ Some bytes → Ended result limits.now bytes
        (read_of S.left S.faults source.old source.new) (wrote_of O.written O.flushed O.faults out.old out.new) }
    ensures progress { (bytes : List ℕ) → S.left source.old ≡ Some bytes → Progress limits.now bytes
        (read_of S.left S.faults source.old source.new) (wrote_of O.written O.flushed O.faults out.old out.new) }
    ensures cause { HasRisen result
        (read_of S.left S.faults source.old source.new) (wrote_of O.written O.flushed O.faults out.old out.new) }
    ensures flushed { StaysFlushed (O.flushed out.old) (O.flushed out.new) }
    ensures later { O.faults out.old ≤ O.faults out.new }
{
    let mut reader = match LineReader::new(alloc) {
        Ok(reader) => reader,
        Err(_) => return Ending::NoMemory,
    };
    let mut engine = match Engine::new(alloc, *limits) {
        Ok(engine) => engine,
        Err(_) => return Ending::NoMemory,
    };
    let mut text = Vec::new(alloc);
    let mut number: u64 = 1;
    'lines: loop {
        match reader.next(source) {
            Ok(Next::Line) => {}
            Ok(Next::TooLong) => return Ending::At(number, Fault::TooLong, engine.into_heap()),
            Ok(Next::End) => return Ending::All(engine.into_heap()),
            Err(_) => return Ending::ReadFault,
        }
        text.clear();
        match perform(
            rt,
            limits,
            &mut engine,
            number,
            reader.line(),
            &mut text,
            gate,
        ) {
            Ok(()) => {}
            Err(HeapError::Fault(fault)) => return Ending::At(number, fault, engine.into_heap()),
            Err(_) => return Ending::NoMemory,
        }
        match put(out, &text) {
            Ok(()) => {}
            Err(_) => return Ending::WriteFault,
        }
        number += 1;
    }
}

/// Performs the lines of a source, and flushes the output after the last one.
pub(crate) fn run<R: Threads + Sync, S: Source, O: Sink, G: Gate>(
    rt: &R,
    alloc: Global,
    limits: &Limits,
    source: &mut S,
    out: &mut O,
    gate: &G,
) -> Ending
    requires { IsInRange limits.now }
    ensures closed { (bytes : List ℕ) → S.left source.old ≡ Some bytes → Closed result limits.now bytes
        (read_of S.left S.faults source.old source.new) (wrote_of O.written O.flushed O.faults out.old out.new) }
    ensures progress { (bytes : List ℕ) → S.left source.old ≡ Some bytes → Progress limits.now bytes
        (read_of S.left S.faults source.old source.new) (wrote_of O.written O.flushed O.faults out.old out.new) }
    ensures cause { HasRisen result
        (read_of S.left S.faults source.old source.new) (wrote_of O.written O.flushed O.faults out.old out.new) }
{
    match perform_lines(rt, alloc, limits, source, out, gate) {
        Ending::All(heap) => match out.flush() {
            Ok(()) => Ending::All(heap),
            Err(_) => Ending::WriteFault,
        },
        Ending::At(number, fault, heap) => match out.flush() {
            Ok(()) => Ending::At(number, fault, heap),
            Err(_) => Ending::WriteFault,
        },
        Ending::ReadFault => Ending::ReadFault,
        Ending::WriteFault => Ending::WriteFault,
        Ending::NoMemory => Ending::NoMemory,
    }
}
