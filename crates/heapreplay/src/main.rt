//! heapreplay: replays a recorded allocation trace from standard input.
//!
//! It hands its words, standard input, standard output and standard error to `replay::replay_main` and ends with the
//! number of the status. Input is buffered; output is not, so that a partner process that feeds lines has each reply
//! before its next line is read.
#![tactic(auto)]

use gc_io::{OpenGate, StdSink, StdSource};
use replay::{Status, replay_main};
use std::env;
use std::io::{self, BufReader, ErrorKind};
use std::process::ExitCode;

/// Bytes of standard input that are read at once.
const INPUT_BUFFER: usize = 65536;

/// What stands for words that are not UTF-8.
const NOT_UTF8: &str = "not UTF-8";

/// The words after the program's name. Where one of them isn't UTF-8, a single word that is out of form stands for all.
fn collect_words(rt: &HostRuntime) -> io::Result<Vec<String>> {
    let mut words = Vec::new(rt.alloc());
    match env::args(rt) {
        Ok(arguments) => {
            for word in arguments.skip(1) {
                words.push(word)?;
            }
        }
        Err(error) => {
            if error.kind() == ErrorKind::OutOfMemory {
                return Err(error);
            }
            words.push(String::from_str(rt.alloc(), NOT_UTF8)?)?;
        }
    }
    Ok(words)
}

fn main(rt: HostRuntime) -> ExitCode {
    let words = match collect_words(&rt) {
        Ok(words) => words,
        Err(_) => return ExitCode::from(Status::NoMemory.number()),
    };
    let reader = match BufReader::with_capacity(rt.alloc(), INPUT_BUFFER, rt.reader()) {
        Ok(reader) => reader,
        Err(_) => return ExitCode::from(Status::NoMemory.number()),
    };
    let mut source = StdSource::new(reader);
    let mut out = StdSink::new(rt.stdout());
    let mut err = StdSink::new(rt.stderr());
    let outcome = replay_main(
        &rt,
        rt.alloc(),
        &words,
        &mut source,
        &mut out,
        &mut err,
        &OpenGate,
    );
    ExitCode::from(outcome.status.number())
}
