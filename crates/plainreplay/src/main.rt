//! plainreplay: the plain model of a trace, as a program to compare others with.
//!
//! It reads all of standard input, runs it by `plain_model::run`, and writes what heapreplay writes: the text, the
//! message and the exit status, under the same name. It is slow, and no program for users.
//!
//! The run is proved equal to the definitions. What is done here with words, input and output is proved safe, and
//! nothing more.
#![tactic(auto)]

mod words;

use plain_model::run;
use std::env;
use std::io::{self, ErrorKind, Read, Write};
use std::process::ExitCode;
use trace_types::Fault;
use words::read_limits;

/// What stands for words that are not UTF-8.
const NOT_UTF8: &str = "not UTF-8";

/// The usage line is heapreplay's too, though two of these words are all that this program takes.
const USAGE: &str =
    "heapreplay: usage: heapreplay [--sweepers N] [--generations G] [--max-lines N] \
    [--workload NUMBER --count COUNT]\n";

/// Why there is no run, or none that could be told.
#[derive(Clone, Copy)]
enum Failure {
    Usage,
    Read,
    Write,
    NoMemory,
}

impl Failure {
    fn message(self) -> &'static str {
        match self {
            Failure::Usage => USAGE,
            Failure::Read => "heapreplay: read fault\n",
            Failure::Write => "heapreplay: write fault\n",
            Failure::NoMemory => "heapreplay: out of memory\n",
        }
    }

    fn status(self) -> u8 {
        match self {
            Failure::Usage => 2,
            Failure::Read => 3,
            Failure::Write => 4,
            Failure::NoMemory => 5,
        }
    }
}

// The words after the program's name. Where one of them isn't UTF-8, a single word that is out of form stands for
// all.
fn collect_words(rt: &HostRuntime) -> io::Result<Vec<String>> {
    let mut words = Vec::new(rt.alloc());
    match env::args(rt) {
        Ok(arguments) => {
            for word in arguments.skip(1) {
                words.push(word)?;
            }
        }
        Err(error) => {
            if error.kind() == ErrorKind::OutOfMemory {
                return Err(error);
            }
            words.push(String::from_str(rt.alloc(), NOT_UTF8)?)?;
        }
    }
    Ok(words)
}

// All of standard input.
fn read_all(rt: &HostRuntime) -> Result<Vec<u8>, Failure> {
    let mut bytes = Vec::new(rt.alloc());
    let mut input = rt.reader();
    match input.read_to_end(&mut bytes) {
        Ok(_) => Ok(bytes),
        Err(error) => {
            if error.kind() == ErrorKind::OutOfMemory {
                Err(Failure::NoMemory)
            } else {
                Err(Failure::Read)
            }
        }
    }
}

// Writes the text to standard output.
fn write_text(rt: &HostRuntime, text: &[u8]) -> Result<(), Failure> {
    let mut out = rt.stdout();
    match out.write_all(text) {
        Ok(()) => match out.flush() {
            Ok(()) => Ok(()),
            Err(_) => Err(Failure::Write),
        },
        Err(_) => Err(Failure::Write),
    }
}

// Writes the message of a refused line to standard error.
fn tell_refusal(rt: &HostRuntime, line: u64, fault: Fault) -> Result<(), Failure> {
    let text = fault.text();
    let message = match format!(in rt.alloc(); "heapreplay: line {line}: {text}\n") {
        Ok(message) => message,
        Err(_) => return Err(Failure::NoMemory),
    };
    match rt.stderr().write_all(message.as_bytes()) {
        Ok(()) => Ok(()),
        Err(_) => Err(Failure::Write),
    }
}

// Runs standard input, and answers the exit status.
fn replay(rt: &HostRuntime) -> Result<u8, Failure> {
    let words = match collect_words(rt) {
        Ok(words) => words,
        Err(_) => return Err(Failure::NoMemory),
    };
    let limits = match read_limits(&words) {
        Some(limits) => limits,
        None => return Err(Failure::Usage),
    };
    let bytes = read_all(rt)?;
    let ran = match run(rt.alloc(), limits, &bytes) {
        Ok(ran) => ran,
        Err(_) => return Err(Failure::NoMemory),
    };
    write_text(rt, &ran.text)?;
    match ran.stop {
        Some((line, fault)) => {
            tell_refusal(rt, line, fault)?;
            Ok(1)
        }
        None => Ok(0),
    }
}

fn main(rt: HostRuntime) -> ExitCode {
    match replay(&rt) {
        Ok(status) => ExitCode::from(status),
        Err(failure) => match rt.stderr().write_all(failure.message().as_bytes()) {
            Ok(()) => ExitCode::from(failure.status()),
            Err(_) => ExitCode::from(Failure::Write.status()),
        },
    }
}
