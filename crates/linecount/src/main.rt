//! linecount: reads the lines of a trace from standard input and counts what they say.
//!
//! It performs nothing. It is there to measure the reading of lines alone: `bench/run --reading` times it.
#![tactic(auto)]

use gc_io::StdSource;
use std::alloc::Global;
use std::io::{self, BufReader, Read};
use trace_text::{LineReader, Next, read_command};

/// Bytes of standard input that are read at once.
const INPUT_BUFFER: usize = 65536;

/// How many lines have a command, say nothing, or have a fault.
#[derive(Clone, Copy)]
struct Counts {
    commands: u64,
    skipped: u64,
    faults: u64,
}

/// Reads lines until they end, one is too long, or a read fails.
fn count_lines<R: Read>(reader: &mut LineReader, source: &mut StdSource<R>) -> Counts {
    let mut counts = Counts {
        commands: 0,
        skipped: 0,
        faults: 0,
    };
    for _ in 0..u64::MAX {
        match reader.next(source) {
            Ok(Next::Line) => {}
            Ok(_) | Err(_) => return counts,
        }
        match read_command(reader.line()) {
            Ok(Some(_)) => counts.commands = counts.commands.saturating_add(1),
            Ok(None) => counts.skipped = counts.skipped.saturating_add(1),
            Err(_) => counts.faults = counts.faults.saturating_add(1),
        }
    }
    counts
}

fn main(rt: HostRuntime) -> io::Result<()> {
    let alloc: Global = rt.alloc();
    let mut reader = LineReader::new(alloc)?;
    let mut source = StdSource::new(BufReader::with_capacity(alloc, INPUT_BUFFER, rt.reader())?);
    let counts = count_lines(&mut reader, &mut source);
    let Counts {
        commands,
        skipped,
        faults,
    } = counts;
    println!(rt; "{commands} commands, {skipped} skipped, {faults} faults")
}
