// The reader of lines.
ghost use Rattle.std.specs.Prelude.{◌≡◌, ◌⊎◌, ◌<◌, ◌≤◌, ◌++◌, [], true, false, length, Ok, IfOk, OnOk, OnErr, List, ℕ};
ghost use Rattle.std.specs.Io.KnownBytes.{Keeps};
ghost use Rattle.gc_io.specs.Outside.{HasCause};

use crate::bytes::{newline_after, read_behind};
use gc_io::{Failed, Source};
use std::alloc::{AllocError, Global};
use std::marker::Model;

// The bytes of the buffer, and so the most that a read asks for.
const BUFFER: usize = 4096;

// The bytes of a longest line, without its newline.
const LONGEST: usize = 1024;

/// What comes next.
#[derive(Clone, Copy, Debug, PartialEq, Eq)]
pub enum Next {
    /// A line of at most 1,024 bytes.
    Line,
    /// A line of more than 1,024 bytes.
    TooLong,
    /// The end of the input.
    End,
}

/// Bytes of a source, given as lines.
#[derive(Drop)]
pub struct LineReader {
    buffer: Vec<u8>,
    // what is held, and how much of it was searched in vain for a newline
    start: usize,
    end: usize,
    searched: usize,
    line_start: usize,
    line_end: usize,
    ended: bool,
}

impl Model for LineReader {
    ghost use Rattle.std.specs.Prelude.{◌≡◌, ◌+◌, ◌≤◌, take, slice_range, vec_len};
    ghost use Rattle.trace_types.specs.Lines.{IsPlain};
    ghost use Rattle.trace_text.specs.Reader.{Reader};

    ghost Value = { Reader };

    ghost view = { λ r. record {
      held = slice_range r.buffer.items r.start r.end;
      line = slice_range r.buffer.items r.line_start r.line_end;
      ended = r.ended;
    } };

    ghost invariant = { λ r. (vec_len r.buffer ≡ 4096) × (r.line_start ≤ r.line_end) × (r.line_end ≤ 4096)
        × (r.start + r.searched ≤ r.end) × (r.end ≤ 4096)
        × IsPlain (take r.searched (slice_range r.buffer.items r.start r.end)) };
}

impl LineReader {
    ghost use Rattle.trace_text.specs.Reader.{HoldsLess, HoldsTooLong, HoldsEnd, KnowsEnd};
    ghost use Rattle.trace_text.specs.Next.{Nexts, GivesLines};
    ghost use Rattle.trace_text.specs.Steps.{Splits, Fills};
    ghost use Rattle.trace_types.specs.Lines.{IsPlain};

    /// A reader that has taken nothing. All its memory is taken here.
    pub fn new(alloc: Global) -> Result<LineReader, AllocError>
        ensures { IfOk result (λ r. r ≡ record { held = []; line = []; ended = false }) }
    {
        Ok(LineReader {
            buffer: vec![in alloc; 0; BUFFER]?,
            start: 0,
            end: 0,
            searched: 0,
            line_start: 0,
            line_end: 0,
            ended: false,
        })
    }

    /// The line for which the last [`LineReader::next`] answered [`Next::Line`], without its
    /// newline. Before the first `next`, and after any other answer, there are no bytes.
    pub fn line(&self) -> &[u8]
        ensures { result.now ≡ self.now.line }
    {
        &self.buffer[self.line_start..self.line_end]
    }

    // What the held bytes say of the next line, if they do.
    fn split(&mut self) -> Option<Next>
        ensures next { Splits result self.old.held self.new }
        ensures ended { self.new.ended ≡ self.old.ended }
    {
        self.line_start = 0;
        self.line_end = 0;
        match newline_after(&self.buffer[self.start..self.end], self.searched) {
            Some(at) if at > LONGEST => Some(Next::TooLong),
            Some(at) => {
                self.line_start = self.start;
                self.line_end = self.start + at;
                self.start += at + 1;
                self.searched = 0;
                Some(Next::Line)
            }
            None => self.split_plain(),
        }
    }

    // The same, where no newline is held.
    fn split_plain(&mut self) -> Option<Next>
        requires plain { IsPlain self.old.held }
        requires line { self.old.line ≡ [] }
        ensures next { Splits result self.old.held self.new }
        ensures ended { self.new.ended ≡ self.old.ended }
    {
        let count = self.end - self.start;
        self.searched = count;
        if count > LONGEST {
            return Some(Next::TooLong);
        }
        if !self.ended {
            return None;
        }
        if count == 0 {
            return Some(Next::End);
        }
        self.line_start = self.start;
        self.line_end = self.end;
        self.start = self.end;
        self.searched = 0;
        Some(Next::Line)
    }

    // Takes more bytes of a source that has not ended, where less than a line is held.
    fn fill<S: Source>(&mut self, source: &mut S) -> Result<(), Failed>
        requires short { length self.old.held ≤ 1024 }
        requires going { self.old.ended ≡ false }
        ensures taken { OnOk result (Fills (S.left source.old) (S.left source.new) self.old self.new) }
        ensures kept { OnErr result ((self.new ≡ record self.old { line = [] })
            × Keeps (S.left source.old) (S.left source.new)) }
        ensures cause { HasCause (S.faults source.old) (S.faults source.new) result }
    {
        let count = self.end - self.start;
        let result = read_behind(&mut self.buffer, self.start, count, source);
        self.line_start = 0;
        self.line_end = 0;
        self.start = 0;
        match result {
            Ok(taken) => {
                self.end = count + taken;
                self.ended = taken == 0;
                Ok(())
            }
            Err(failed) => {
                self.end = count;
                Err(failed)
            }
        }
    }

    // Reads on until a line, a line that is too long, or the end has come.
    fn advance<S: Source>(&mut self, source: &mut S) -> Result<Next, Failed>
        ensures next { Nexts (S.left source.old) (S.left source.new) result self.old self.new }
        ensures ended { KnowsEnd self.old (S.left source.old) → KnowsEnd self.new (S.left source.new) }
        ensures stays { self.old.ended ≡ true → self.new.ended ≡ true }
        ensures asks { (source.new ≡ source.old) ⊎ HoldsLess self.old }
        ensures cause { HasCause (S.faults source.old) (S.faults source.new) result }
    {
        loop {
            if let Some(next) = self.split() {
                return Ok(next);
            }
            self.fill(source)?;
        }
    }

    /// The next line, of the bytes that are held and those that the source gives.
    ///
    /// `TooLong` comes exactly where the line has more than 1,024 bytes, and from then on, and
    /// `End` exactly where the source has ended and no byte of a line is left, and from then on.
    /// `Failed` comes only where the source's count rose in this call. It loses no byte: the next
    /// call goes on with all that was taken. A read asks for at most 4,096 bytes.
    pub fn next<S: Source>(&mut self, source: &mut S) -> Result<Next, Failed>
        // The lines of all the bytes come one by one, in whatever pieces the source gives them.
        ensures lines { KnowsEnd self.old (S.left source.old) → (left : List ℕ) → S.left source.old ≡ Some left
            → GivesLines result (self.old.held ++ left) self.new (S.left source.new) }
        ensures next { Nexts (S.left source.old) (S.left source.new) result self.old self.new }
        ensures long { HoldsTooLong self.old → result ≡ Ok Next.TooLong }
        ensures end { HoldsEnd self.old → result ≡ Ok Next.End }

        // The end that it tells is the source's, and it stays.
        ensures ended { KnowsEnd self.old (S.left source.old) → KnowsEnd self.new (S.left source.new) }
        ensures stays { self.old.ended ≡ true → self.new.ended ≡ true }

        // The source is asked only where less than a line is held.
        ensures asks { (source.new ≡ source.old) ⊎ HoldsLess self.old }
        ensures cause { HasCause (S.faults source.old) (S.faults source.new) result }
    {
        self.advance(source)
    }
}

#[cfg(test)]
mod tests {
    use super::*;
    use gc_io::MemSource;
    use std::test::Fail;

    // What eight calls answer: each line behind a `|`, else `T` for TooLong, `E` for End, `F` for Failed.
    fn answers(
        alloc: Global,
        input: &[u8],
        piece: usize,
        fails: &[u64],
    ) -> Result<Vec<u8>, AllocError> {
        let bytes = Vec::from_slice(alloc, input)?;
        let mut source = MemSource::new(bytes, piece.max(1), Vec::from_slice(alloc, fails)?);
        let mut reader = LineReader::new(alloc)?;
        let mut answers = Vec::new(alloc);
        for _ in 0..8 {
            answers.push(match reader.next(&mut source) {
                Ok(Next::Line) => b'|',
                Ok(Next::TooLong) => b'T',
                Ok(Next::End) => b'E',
                Err(Failed) => b'F',
            })?;
            answers.extend_from_slice(reader.line())?;
        }
        Ok(answers)
    }

    #[test]
    fn lines_come_in_order(rt: HostRuntime) -> Result<(), Fail> {
        let cases: [(&[u8], usize, &[u64], &[u8]); 7] = [
            (b"", 1, &[], b"EEEEEEEE"),
            (b"\n", 1, &[], b"|EEEEEEE"),
            (b"gen r0\n\ngen t", 1, &[], b"|gen r0||gen tEEEEE"),
            (b"gen r0\n\ngen t\n", 4096, &[], b"|gen r0||gen tEEEEE"),
            // A failed read loses nothing, and comes only where no whole line is held.
            (b"gen r0\ngen r1\n", 10, &[2], b"|gen r0F|gen r1EEEEE"),
            (b"gen r0\ngen r1", 4, &[1, 4, 5], b"F|gen r0FF|gen r1EEE"),
            (b"gen r0\ngen r1\n", 64, &[2], b"|gen r0|gen r1FEEEEE"),
        ];
        for (input, piece, fails, want) in cases {
            let got = answers(rt.alloc(), input, piece, fails)?;
            assert_eq!(rt; got.as_slice(), want);
        }
        Ok(())
    }

    #[test]
    fn a_line_has_at_most_1024_bytes(rt: HostRuntime) -> Result<(), Fail> {
        for piece in [1, 10, 1024, 1025, 4096] {
            let mut input = vec![in rt.alloc(); b'x'; 1024]?;
            let last = answers(rt.alloc(), &input, piece, &[])?;
            assert_eq!(rt; last.len(), 8 + 1024);
            assert_eq!(rt; &last[1025..], b"EEEEEEE".as_slice());
            input.push(b'\n')?;
            let longest = answers(rt.alloc(), &input, piece, &[])?;
            assert_eq!(rt; longest.as_slice(), last.as_slice());
            input[1024] = b'x';
            let too_long = answers(rt.alloc(), &input, piece, &[])?;
            assert_eq!(rt; too_long.as_slice(), b"TTTTTTTT".as_slice());
            input.push(b'\n')?;
            let ended = answers(rt.alloc(), &input, piece, &[])?;
            assert_eq!(rt; ended.as_slice(), b"TTTTTTTT".as_slice());
        }
        Ok(())
    }
}
