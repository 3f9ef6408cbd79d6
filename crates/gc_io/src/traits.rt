// What is read from, what is written to, and what is passed.
ghost use Rattle.std.specs.Prelude.{ℕ, List, Option, ◌<◌, length, OnOk};
ghost use Rattle.std.specs.Io.KnownBytes.{Keeps};
ghost use Rattle.gc_io.specs.Outside.{Reads, Writes, HasCause, StaysFlushed, AllFlushed};

/// A call on a source or a sink failed.
///
/// It comes only where the count of faults of that source or sink rose, and nothing moved.
#[derive(Clone, Copy, Debug, PartialEq, Eq)]
pub struct Failed;

/// Bytes that are read in order.
pub trait Source {
    /// The bytes that are left, where the source tells them.
    ghost left: { Self → Option (List ℕ) };

    /// How often the source has failed, up to 2^64 - 1.
    ghost faults: { Self → ℕ };

    /// Takes the next bytes into the front of the buffer, which isn't empty, and answers their
    /// number. `Ok(0)` is the end of the input: where the bytes are told, it comes exactly where
    /// none is left. `Failed` leaves what is left as it was.
    fn read(&mut self, into: &mut [u8]) -> Result<usize, Failed>
        requires { 0 < length into.old }
        ensures bytes { Reads (left self.old) (left self.new) result into.new }
        ensures cause { HasCause (faults self.old) (faults self.new) result };
}

/// A place to which bytes are written in order.
pub trait Sink {
    /// The bytes that were written, where the sink tells them.
    ghost written: { Self → Option (List ℕ) };

    /// How many of them are flushed, where the sink tells it.
    ghost flushed: { Self → Option ℕ };

    /// How often the sink has failed, up to 2^64 - 1.
    ghost faults: { Self → ℕ };

    /// Appends a front of the piece, which isn't empty, and answers its length, at least 1.
    /// `Failed` has appended nothing.
    fn write(&mut self, piece: &[u8]) -> Result<usize, Failed>
        requires { 0 < length piece.now }
        ensures bytes { Writes (written self.old) (written self.new) result piece.now }
        ensures flushed { StaysFlushed (flushed self.old) (flushed self.new) }
        ensures cause { HasCause (faults self.old) (faults self.new) result };

    /// Passes on what was written, and appends nothing. After `Ok` all bytes are flushed; what a
    /// failed call has flushed isn't said.
    fn flush(&mut self) -> Result<(), Failed>
        ensures bytes { Keeps (written self.old) (written self.new) }
        ensures flushed { OnOk result (AllFlushed (flushed self.old) (flushed self.new) (written self.new)) }
        ensures cause { HasCause (faults self.old) (faults self.new) result };
}

/// What each sweeper passes at the start of each round of a collection.
///
/// Rounds and sweepers are counted from 0. To pass takes no memory and returns.
pub trait Gate: Sync {
    fn pass(&self, sweeper: u32, round: u64);
}

/// A gate that does nothing.
#[derive(Clone, Copy, Debug, PartialEq, Eq)]
pub struct OpenGate;

impl Gate for OpenGate {
    fn pass(&self, _sweeper: u32, _round: u64) {}
}
