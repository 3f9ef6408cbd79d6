//! A run over the bytes of a trace.

ghost use Rattle.std.specs.Prelude.{◌≡◌, ◌≤◌, ◌<◌, ◌∷◌, ◌==◌, length, position, IfOk};
ghost use Rattle.trace_types.specs.Lines.{lines_of};
ghost use Rattle.trace_types.specs.Runs as runs;
ghost use Rattle.trace_types.specs.Steps.{step};
ghost use Rattle.trace_types.specs.WellFormed.{IsWellFormed, AllBefore};
ghost use Rattle.plain_model.specs.Stepping.{Answers, CountsBelow};

use crate::state::State;
use crate::stop::Stop;
use std::alloc::{AllocError, Global};
use std::marker::Model;
use trace_text::read_command;
use trace_types::{Fault, Limits};

/// The most bytes of a line.
const LONGEST_LINE: usize = 1024;

/// Where a run stands at its end: its state, its text, and the line and the fault at which it ended, where it
/// ended before its last line.
#[derive(Drop)]
pub struct Ran {
    pub state: State,
    pub text: Vec<u8>,
    pub stop: Option<(u64, Fault)>,
}

impl Model for Ran {
    ghost use Rattle.trace_types.specs.Run as run;
    ghost use Rattle.trace_types.specs.States as states;

    ghost Value = { run.Ran states.State };

    ghost view = { λ r. record { state = r.state; text = r.text.items; stop = r.stop } };
}

fn newline_in(bytes: &[u8]) -> Option<usize>
    ensures { result ≡ position (λ b. b == 10) bytes.now }
{
    bytes.iter().position(|b| *b == 10)
}

// The first line of bytes of which there are some, and what is left behind it.
fn first_line(bytes: &[u8]) -> (&[u8], &[u8])
    requires { 0 < length bytes.now }
    ensures lines { lines_of bytes.now ≡ result.0.now ∷ lines_of result.1.now }
    ensures shorter { length result.1.now < length bytes.now }
{
    match newline_in(bytes) {
        Some(place) => (&bytes[..place], &bytes[place + 1..]),
        None => (bytes, &bytes[bytes.len()..]),
    }
}

// Performs a line, and gives the text that it prints.
#[tactic(auto, unfolding(trace_types::specs::Runs::line_turn))]
fn turn(
    alloc: Global,
    limits: &Limits,
    state: &mut State,
    number: u64,
    line: &[u8],
) -> Result<Vec<u8>, Stop>
    requires limits { limits.now.max_lines ≤ 1073741823 }
    requires first { 1 ≤ number }
    requires well_formed { IsWellFormed state.old }
    requires before { AllBefore state.old number }
    requires counts { CountsBelow number state.old }
    ensures { Answers (runs.line_turn step limits.now state.old number line.now) result state.old state.new }
{
    if line.len() > LONGEST_LINE {
        return Err(Stop::Fault(Fault::TooLong));
    }
    if number > u64::from(limits.max_lines) {
        return Err(Stop::Fault(Fault::TooManyLines));
    }
    match read_command(line) {
        Ok(Some(command)) => state.step(alloc, number as u32, &command),
        Ok(None) => Ok(Vec::new(alloc)),
        Err(fault) => Err(Stop::Fault(fault)),
    }
}

/// The run of a trace: each line is performed, until one is refused.
pub fn run(alloc: Global, limits: Limits, bytes: &[u8]) -> Result<Ran, AllocError>
    requires generations { (1 ≤ limits.generations) × (limits.generations ≤ 7) }
    requires lines { limits.max_lines ≤ 1073741823 }
    ensures { IfOk result (λ ran. ran ≡ runs.run step limits bytes.now) }
{
    let mut state = State::opening(alloc, limits.generations)?;
    let mut text = Vec::new(alloc);
    let mut rest = bytes;
    let mut number: u64 = 1;
    while !rest.is_empty() {
        let (line, others) = first_line(rest);
        match turn(alloc, &limits, &mut state, number, line) {
            Ok(said) => text.extend_from_slice(&said)?,
            Err(Stop::Fault(fault)) => {
                return Ok(Ran {
                    state,
                    text,
                    stop: Some((number, fault)),
                });
            }
            Err(Stop::NoMemory) => return Err(AllocError),
        }
        rest = others;
        number += 1;
    }
    Ok(Ran {
        state,
        text,
        stop: None,
    })
}

#[cfg(test)]
mod tests {
    use super::*;
    use std::test::Fail;

    // The worked cases of conformance/ show the rest: each runs through `plainreplay`.
    #[test]
    fn runs_each_kind_of_command(rt: HostRuntime) -> Result<(), Fail> {
        let limits = Limits {
            sweepers: 1,
            generations: 3,
            max_lines: 100,
        };
        let trace =
            b"version 2\nthread 3\nguard r0\ncons r1 1 nil\nreg r0 r1\nvec r2 2 nil\ntput r3 r2 e r2 -7\n\
            bytes r4 2 171\nset r4 1 9\nibytes r5 1 0\nnote 7 r5\nlock r4\nunlock r4\nmov r1 nil\ncollect 0 1 1\n\
            take r1 r0\ntget r6 r2 r2\nget r7 r4 0\nprint r1\nprint r4\ncheck 7 r5\ncensus\ngen r2\n\
            path r2 r3\nsize r2\ntdel r2 r2\ncollect\nget r1 r1 2\nprint r1\n";
        let ran = run(rt.alloc(), limits, trace)?;
        assert_eq!(rt;
            ran.text.as_slice(),
            b"= #0\n#0 pair g1 t3 1 nil\n= #0\n#0 bytes g1 t3 ab 09\ncheck 7 kept\ng1 6 16\ngen 1\npath 0\nsize 2 6\n".as_slice()
        );
        assert_eq!(rt; ran.stop, Some((28, Fault::BadIndex)));
        Ok(())
    }
}
