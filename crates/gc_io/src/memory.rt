// A source and a sink in memory, which fail at the calls that they are told.
ghost use Rattle.std.specs.Prelude.{◌≡◌, ◌⊎◌, ◌↔◌, ◌+◌, ◌-◌, ◌<◌, ◌≤◌, [], Some, min, length, drop, take, vec_len, IfOk, OnOk, IsErr, Contains};
ghost use Rattle.std.specs.Io.KnownBytes.{Keeps};
ghost use Rattle.gc_io.specs.Outside.{Reads, Writes, HasCause, StaysFlushed, AllFlushed, count_up, count_faults};

use crate::calls::Calls;
use crate::{Failed, Sink, Source};
use std::alloc::{AllocError, Global};
use std::marker::Model;

/// Bytes that are given in pieces, in order.
///
/// The calls whose numbers it was told fail; they are counted from 1.
#[derive(Drop)]
pub struct MemSource {
    bytes: Vec<u8>,
    at: usize,
    piece: usize,
    calls: Calls,
}

impl Model for MemSource {
    ghost use Rattle.std.specs.Prelude.{◌≤◌, drop, vec_len};
    ghost use Rattle.gc_io.specs.Memory.{SourceState};

    ghost Value = { SourceState };

    ghost view = { λ s. record {
      left = drop s.at s.bytes.items;
      piece = s.piece;
      fails = s.calls.fails.items;
      calls = s.calls.count;
      faults = s.calls.faults;
    } };

    ghost invariant = { λ s. (s.at ≤ vec_len s.bytes) × (1 ≤ s.piece) };
}

impl MemSource {
    /// A source of these bytes, of which a call gives at most `piece`, which is at least 1.
    /// The calls whose numbers are in `fails`, counted from 1, fail.
    pub fn new(bytes: Vec<u8>, piece: usize, fails: Vec<u64>) -> MemSource
        requires { 1 ≤ piece }
        ensures { result ≡ record { left = bytes.items; piece = piece; fails = fails.items; calls = 0; faults = 0 } }
    {
        MemSource {
            bytes,
            at: 0,
            piece,
            calls: Calls::new(fails),
        }
    }
}

impl Source for MemSource {
    ghost left = { λ s. Some s.left };

    ghost faults = { λ s. s.faults };

    fn read(&mut self, into: &mut [u8]) -> Result<usize, Failed>
        requires { 0 < length into.old }
        ensures bytes { Reads (Some self.old.left) (Some self.new.left) result into.new }
        ensures cause { HasCause self.old.faults self.new.faults result }

        // Exactly the numbered calls fail, and every other gives all that it can.
        ensures fails { IsErr result ↔ Contains self.old.fails (self.old.calls + 1) }
        ensures size { IfOk result (λ n. n ≡ min (min (length self.old.left) self.old.piece) (length into.old)) }
        ensures counts { self.new ≡ record self.old {
          left = self.new.left;
          calls = count_up self.old.calls;
          faults = count_faults self.old.faults result;
        } }
    {
        if self.calls.begin() {
            return Err(self.calls.fail());
        }
        let count = (self.bytes.len() - self.at).min(self.piece).min(into.len());
        into[..count].copy_from_slice(&self.bytes[self.at..self.at + count]);
        self.at += count;
        Ok(count)
    }
}

/// Bytes that are taken in pieces, up to a room that was reserved.
///
/// The calls whose numbers it was told fail; writes and flushes are counted together, from 1.
#[derive(Drop)]
pub struct MemSink {
    bytes: Vec<u8>,
    count: usize,
    flushed: usize,
    piece: usize,
    calls: Calls,
}

impl Model for MemSink {
    ghost use Rattle.std.specs.Prelude.{◌≤◌, take, vec_len};
    ghost use Rattle.gc_io.specs.Memory.{SinkState};

    ghost Value = { SinkState };

    ghost view = { λ s. record {
      written = take s.count s.bytes.items;
      flushed = s.flushed;
      room = vec_len s.bytes;
      piece = s.piece;
      fails = s.calls.fails.items;
      calls = s.calls.count;
      faults = s.calls.faults;
    } };

    ghost invariant = { λ s. (s.count ≤ vec_len s.bytes) × (1 ≤ s.piece) };
}

impl MemSink {
    /// A sink that takes `room` bytes in all, at most `piece` a write, which is at least 1.
    /// The calls whose numbers are in `fails` fail, writes and flushes counted together from 1,
    /// and so does a write that finds no room left. All its memory is taken here.
    pub fn with_room(
        alloc: Global,
        room: usize,
        piece: usize,
        fails: Vec<u64>,
    ) -> Result<MemSink, AllocError>
        requires { 1 ≤ piece }
        ensures { IfOk result (λ s. s ≡ record {
          written = [];
          flushed = 0;
          room = room;
          piece = piece;
          fails = fails.items;
          calls = 0;
          faults = 0;
        }) }
    {
        Ok(MemSink {
            bytes: vec![in alloc; 0; room]?,
            count: 0,
            flushed: 0,
            piece,
            calls: Calls::new(fails),
        })
    }

    /// The bytes that were written.
    pub fn written(&self) -> &[u8]
        ensures { result.now ≡ self.now.written }
    {
        &self.bytes[..self.count]
    }
}

impl Sink for MemSink {
    ghost written = { λ s. Some s.written };

    ghost flushed = { λ s. Some s.flushed };

    ghost faults = { λ s. s.faults };

    fn write(&mut self, piece: &[u8]) -> Result<usize, Failed>
        requires { 0 < length piece.now }
        ensures bytes { Writes (Some self.old.written) (Some self.new.written) result piece.now }
        ensures flushed { StaysFlushed (Some self.old.flushed) (Some self.new.flushed) }
        ensures cause { HasCause self.old.faults self.new.faults result }

        // Exactly the numbered calls fail and those that find no room, and every other takes all that it can.
        ensures fails { IsErr result ↔ (Contains self.old.fails (self.old.calls + 1) ⊎ (self.old.room ≤ length self.old.written)) }
        ensures size { IfOk result (λ n. n ≡ min (min (self.old.room - length self.old.written) self.old.piece) (length piece.now)) }
        ensures counts { self.new ≡ record self.old {
          written = self.new.written;
          calls = count_up self.old.calls;
          faults = count_faults self.old.faults result;
        } }
    {
        let room = self.bytes.len() - self.count;
        if self.calls.begin() || room == 0 {
            return Err(self.calls.fail());
        }
        let taken = room.min(self.piece).min(piece.len());
        self.bytes[self.count..self.count + taken].copy_from_slice(&piece[..taken]);
        self.count += taken;
        Ok(taken)
    }

    fn flush(&mut self) -> Result<(), Failed>
        ensures bytes { Keeps (Some self.old.written) (Some self.new.written) }
        ensures flushed { OnOk result (AllFlushed (Some self.old.flushed) (Some self.new.flushed) (Some self.new.written)) }
        ensures cause { HasCause self.old.faults self.new.faults result }

        // Exactly the numbered calls fail.
        ensures fails { IsErr result ↔ Contains self.old.fails (self.old.calls + 1) }
        ensures counts { self.new ≡ record self.old {
          flushed = self.new.flushed;
          calls = count_up self.old.calls;
          faults = count_faults self.old.faults result;
        } }
    {
        if self.calls.begin() {
            return Err(self.calls.fail());
        }
        self.flushed = self.count;
        Ok(())
    }
}

#[cfg(test)]
mod tests {
    use super::*;
    use std::test::Fail;

    #[test]
    fn a_source_fails_at_its_numbered_calls(rt: HostRuntime) -> Result<(), Fail> {
        let bytes = vec![in rt.alloc(); b'a', b'b', b'c']?;
        let fails = vec![in rt.alloc(); 2, 4]?;
        let mut source = MemSource::new(bytes, 2, fails);
        let mut buffer = [0u8; 8];
        assert_eq!(rt; source.read(&mut buffer), Ok(2));
        assert_eq!(rt; source.read(&mut buffer), Err(Failed));
        assert_eq!(rt; source.read(&mut buffer[2..]), Ok(1));
        assert_eq!(rt; source.read(&mut buffer), Err(Failed));
        assert_eq!(rt; source.read(&mut buffer), Ok(0));
        assert_eq!(rt; &buffer[..3], b"abc".as_slice());
        Ok(())
    }

    #[test]
    fn a_sink_fails_at_its_numbered_calls_and_at_its_room(rt: HostRuntime) -> Result<(), Fail> {
        let fails = vec![in rt.alloc(); 2, 4]?;
        let mut sink = MemSink::with_room(rt.alloc(), 3, 2, fails)?;
        assert_eq!(rt; sink.write(b"abc"), Ok(2));
        assert_eq!(rt; sink.write(b"c"), Err(Failed));
        assert_eq!(rt; sink.write(b"cd"), Ok(1));
        assert_eq!(rt; sink.flush(), Err(Failed));
        assert_eq!(rt; sink.flush(), Ok(()));
        assert_eq!(rt; sink.write(b"d"), Err(Failed));
        assert_eq!(rt; sink.written(), b"abc".as_slice());
        Ok(())
    }
}
