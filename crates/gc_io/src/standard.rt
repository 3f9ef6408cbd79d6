// The adapters over std's readers and writers: the trusted edge.
ghost use Rattle.std.specs.Prelude.{◌≡◌, ◌<◌, length, None, OnOk};
ghost use Rattle.std.specs.Io.KnownBytes.{Keeps};
ghost use Rattle.gc_io.specs.Outside.{Reads, Writes, HasCause, StaysFlushed, AllFlushed, count_faults};

use crate::{Failed, Sink, Source};
use std::io::{Read, Write};
use std::marker::Model;

/// A reader of std. Each `Err` of it is a fault.
#[derive(Drop)]
pub struct StdSource<R: Read> {
    inner: R,
    faults: u64,
}

impl<R: Read> Model for StdSource<R> {
    ghost use Rattle.gc_io.specs.Standard.{ReaderState};

    ghost Value = { ReaderState };

    ghost view = { λ s. record { left = R.remaining s.inner; faults = s.faults } };
}

impl<R: Read> StdSource<R> {
    /// A source over a reader. A read of it is one read of the reader.
    pub fn new(inner: R) -> StdSource<R>
        ensures { result ≡ record { left = R.remaining inner; faults = 0 } }
    {
        StdSource { inner, faults: 0 }
    }
}

impl<R: Read> Source for StdSource<R> {
    ghost left = { λ s. s.left };

    ghost faults = { λ s. s.faults };

    fn read(&mut self, into: &mut [u8]) -> Result<usize, Failed>
        requires { 0 < length into.old }
        ensures bytes { Reads self.old.left self.new.left result into.new }
        ensures cause { HasCause self.old.faults self.new.faults result }
        ensures faults { self.new.faults ≡ count_faults self.old.faults result }
    {
        match self.inner.read(into) {
            Ok(n) => Ok(n),
            Err(_) => {
                self.faults = self.faults.saturating_add(1);
                Err(Failed)
            }
        }
    }
}

/// A writer of std. Each `Err` of it is a fault, and so is a write that takes nothing.
#[derive(Drop)]
pub struct StdSink<W: Write> {
    inner: W,
    faults: u64,
}

impl<W: Write> Model for StdSink<W> {
    ghost use Rattle.gc_io.specs.Standard.{WriterState};

    ghost Value = { WriterState };

    ghost view = { λ s. record { written = W.contents s.inner; faults = s.faults } };
}

impl<W: Write> StdSink<W> {
    /// A sink over a writer. A write of it is one write of the writer. It doesn't tell what is
    /// flushed.
    pub fn new(inner: W) -> StdSink<W>
        ensures { result ≡ record { written = W.contents inner; faults = 0 } }
    {
        StdSink { inner, faults: 0 }
    }
}

impl<W: Write> Sink for StdSink<W> {
    ghost written = { λ s. s.written };

    ghost flushed = { λ _. None };

    ghost faults = { λ s. s.faults };

    fn write(&mut self, piece: &[u8]) -> Result<usize, Failed>
        requires { 0 < length piece.now }
        ensures bytes { Writes self.old.written self.new.written result piece.now }
        ensures flushed { StaysFlushed None None }
        ensures cause { HasCause self.old.faults self.new.faults result }
        ensures faults { self.new.faults ≡ count_faults self.old.faults result }
    {
        match self.inner.write(piece) {
            Ok(n) if n > 0 => Ok(n),
            _ => {
                self.faults = self.faults.saturating_add(1);
                Err(Failed)
            }
        }
    }

    fn flush(&mut self) -> Result<(), Failed>
        ensures bytes { Keeps self.old.written self.new.written }
        ensures flushed { OnOk result (AllFlushed None None self.new.written) }
        ensures cause { HasCause self.old.faults self.new.faults result }
        ensures faults { self.new.faults ≡ count_faults self.old.faults result }
    {
        match self.inner.flush() {
            Ok(()) => Ok(()),
            Err(_) => {
                self.faults = self.faults.saturating_add(1);
                Err(Failed)
            }
        }
    }
}

#[cfg(test)]
mod tests {
    use super::*;
    use std::io::BufWriter;
    use std::test::Fail;

    #[test]
    fn a_source_gives_the_bytes_of_its_reader(rt: HostRuntime) -> Result<(), Fail> {
        let mut source = StdSource::new(b"abc".as_slice());
        let mut buffer = [0u8; 2];
        assert_eq!(rt; source.read(&mut buffer), Ok(2));
        assert_eq!(rt; buffer.as_slice(), b"ab".as_slice());
        assert_eq!(rt; source.read(&mut buffer), Ok(1));
        assert_eq!(rt; buffer[0], b'c');
        assert_eq!(rt; source.read(&mut buffer), Ok(0));
        Ok(())
    }

    #[test]
    fn a_sink_hands_its_bytes_to_its_writer(rt: HostRuntime) -> Result<(), Fail> {
        let writer = BufWriter::new(rt.alloc(), Vec::new(rt.alloc()))?;
        let mut sink = StdSink::new(writer);
        assert_eq!(rt; sink.write(b"abc"), Ok(3));
        assert_eq!(rt; sink.write(b"d"), Ok(1));
        assert_eq!(rt; sink.inner.get_ref().as_slice(), b"".as_slice());
        assert_eq!(rt; sink.flush(), Ok(()));
        assert_eq!(rt; sink.inner.get_ref().as_slice(), b"abcd".as_slice());
        Ok(())
    }
}
