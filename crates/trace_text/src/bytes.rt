// Work on slices of bytes.
ghost use Rattle.std.specs.Prelude.{◌≡◌, ◌+◌, ◌<◌, ◌≤◌, length, slice_index, slice_range, take, IfSome, IfNone, IfOk, OnErr};
ghost use Rattle.std.specs.Io.KnownBytes.{Keeps};
ghost use Rattle.gc_io.specs.Outside.{HasCause};
ghost use Rattle.trace_types.specs.Lines.{IsPlain};
ghost use Rattle.trace_text.specs.Steps.{ReadsBehind};

use gc_io::{Failed, Source};
use memchr::memchr;

const NEWLINE: u8 = b'\n';

/// The place of the first newline. None stands among the bytes that were searched already.
pub fn newline_after(bytes: &[u8], searched: usize) -> Option<usize>
    requires within { searched ≤ length bytes.now }
    requires plain { IsPlain (take searched bytes.now) }
    ensures newline { IfSome result (λ at. (at < length bytes.now) × (slice_index bytes.now at ≡ NEWLINE)) }
    ensures first { IfSome result (λ at. IsPlain (take at bytes.now)) }
    ensures none { IfNone result (IsPlain bytes.now) }
{
    match memchr(NEWLINE, &bytes[searched..]) {
        Some(at) => Some(searched + at),
        None => None,
    }
}

// Moves the bytes from a place on to the front.
fn move_to_front(bytes: &mut [u8], from: usize, count: usize)
    requires { from + count ≤ length bytes.old }
    ensures { take count bytes.new ≡ slice_range bytes.old from (from + count) }
{
    if from > 0 {
        bytes.copy_within(from..from + count, 0);
    }
}

/// Moves bytes to the front, and reads behind them.
pub fn read_behind<S: Source>(
    buffer: &mut [u8],
    from: usize,
    count: usize,
    source: &mut S,
) -> Result<usize, Failed>
    requires fits { from + count ≤ length buffer.old }
    requires room { count < length buffer.old }
    ensures ok { IfOk result (λ n. ReadsBehind (S.left source.old) (S.left source.new)
        (slice_range buffer.old from (from + count)) count n buffer.new) }
    ensures err { OnErr result ((take count buffer.new ≡ slice_range buffer.old from (from + count))
        × Keeps (S.left source.old) (S.left source.new)) }
    ensures cause { HasCause (S.faults source.old) (S.faults source.new) result }
{
    move_to_front(buffer, from, count);
    source.read(&mut buffer[count..])
}
