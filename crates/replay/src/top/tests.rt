// Whole replays over a source and sinks in memory, whole and failing at each place.

use super::replay_main;
use gc_io::{MemSink, MemSource, OpenGate};
use std::alloc::Global;
use std::test::Fail;
use std::thread::Threads;

// A replay and what it must leave. The calls are counted from 1, so that number 0 fails no call.
#[derive(Clone, Copy)]
struct Case {
    input: &'static [u8],
    read_piece: usize,
    failing_read: u64,
    write_piece: usize,
    failing_write: u64,
    failing_message: u64,
    out: &'static [u8],
    err: &'static [u8],
    status: u8,
}

// A replay where nothing fails.
fn whole(input: &'static [u8], out: &'static [u8], err: &'static [u8], status: u8) -> Case {
    Case {
        input,
        read_piece: 64,
        failing_read: 0,
        write_piece: 64,
        failing_write: 0,
        failing_message: 0,
        out,
        err,
        status,
    }
}

fn passes<R: Threads + Sync>(rt: &R, alloc: Global, case: &Case) -> Result<bool, Fail> {
    let bytes = case.input.to_vec(alloc)?;
    let mut source = MemSource::new(
        bytes,
        case.read_piece.max(1),
        vec![in alloc; case.failing_read]?,
    );
    let failing_write = vec![in alloc; case.failing_write]?;
    let mut out = MemSink::with_room(alloc, 4096, case.write_piece.max(1), failing_write)?;
    let failing_message = vec![in alloc; case.failing_message]?;
    let mut err = MemSink::with_room(alloc, 4096, 4096, failing_message)?;
    let words: Vec<String> = Vec::new(alloc);
    let outcome = replay_main(
        rt,
        alloc,
        &words,
        &mut source,
        &mut out,
        &mut err,
        &OpenGate,
    );
    let given = outcome.heap.is_some();
    let wanted = case.status <= 1;
    Ok(
        out.written() == case.out
            && err.written() == case.err
            && outcome.status.number() == case.status
            && given == wanted,
    )
}

const PRINTS: &[u8] = b"print nil\nprint t\n";

const BOTH: &[u8] = b"= nil\n= t\n";

const REFUSED: &[u8] = b"cons r1 1 nil\nprint r1\nget r0 r1 5\n";

const PAIR: &[u8] = b"= #0\n#0 pair g0 t0 1 nil\n";

const READ_FAULT: &[u8] = b"heapreplay: read fault\n";

const WRITE_FAULT: &[u8] = b"heapreplay: write fault\n";

#[test]
fn replays(rt: HostRuntime) -> Result<(), Fail> {
    let cases = [
        whole(b"", b"", b"", 0),
        whole(b"print nil", b"= nil\n", b"", 0),
        whole(
            b"cons r0 1 nil\ncons r1 r0 r0\nprint r1\n",
            b"= #0\n#0 pair g0 t0 #1 #1\n#1 pair g0 t0 1 nil\n",
            b"",
            0,
        ),
        whole(
            REFUSED,
            PAIR,
            b"heapreplay: line 3: index out of range\n",
            1,
        ),
        Case {
            read_piece: 1,
            ..whole(PRINTS, BOTH, b"", 0)
        },
        Case {
            read_piece: 10,
            failing_read: 2,
            ..whole(PRINTS, b"= nil\n", READ_FAULT, 3)
        },
        Case {
            failing_write: 1,
            ..whole(PRINTS, b"", WRITE_FAULT, 4)
        },
        Case {
            write_piece: 3,
            failing_write: 2,
            ..whole(PRINTS, b"= n", WRITE_FAULT, 4)
        },
        Case {
            failing_write: 3,
            ..whole(PRINTS, BOTH, WRITE_FAULT, 4)
        },
        Case {
            failing_message: 1,
            ..whole(REFUSED, PAIR, b"", 4)
        },
    ];
    for case in &cases {
        assert!(rt; passes(&rt, rt.alloc(), case)?, "at {}", case.status);
    }
    Ok(())
}

// A comment of so many bytes, and a print.
fn comment_and_print(alloc: Global, count: usize) -> Result<Vec<u8>, Fail> {
    let mut input = vec![in alloc; b';'; count]?;
    input.extend_from_slice(b"\nprint t\n")?;
    Ok(input)
}

#[test]
fn lines_end_at_1024_bytes(rt: HostRuntime) -> Result<(), Fail> {
    let alloc = rt.alloc();
    let longest = comment_and_print(alloc, 1024)?;
    let mut source = MemSource::new(longest, 7, Vec::new(alloc));
    let mut out = MemSink::with_room(alloc, 64, 64, Vec::new(alloc))?;
    let mut err = MemSink::with_room(alloc, 64, 64, Vec::new(alloc))?;
    let words: Vec<String> = Vec::new(alloc);
    let outcome = replay_main(
        &rt,
        alloc,
        &words,
        &mut source,
        &mut out,
        &mut err,
        &OpenGate,
    );
    assert_eq!(rt; outcome.status.number(), 0);
    assert_eq!(rt; out.written(), b"= t\n".as_slice());

    let too_long = comment_and_print(alloc, 1025)?;
    let mut source = MemSource::new(too_long, 4096, Vec::new(alloc));
    let outcome = replay_main(
        &rt,
        alloc,
        &words,
        &mut source,
        &mut out,
        &mut err,
        &OpenGate,
    );
    assert_eq!(rt; outcome.status.number(), 1);
    assert_eq!(rt;
        err.written(),
        b"heapreplay: line 1: line too long\n".as_slice()
    );
    Ok(())
}

#[test]
fn other_words_are_refused(rt: HostRuntime) -> Result<(), Fail> {
    let alloc = rt.alloc();
    let mut words = Vec::new(alloc);
    words.push(String::from_str(alloc, "--help")?)?;
    let mut source = MemSource::new(PRINTS.to_vec(alloc)?, 64, Vec::new(alloc));
    let mut out = MemSink::with_room(alloc, 64, 64, Vec::new(alloc))?;
    let mut err = MemSink::with_room(alloc, 256, 256, Vec::new(alloc))?;
    let outcome = replay_main(
        &rt,
        alloc,
        &words,
        &mut source,
        &mut out,
        &mut err,
        &OpenGate,
    );
    assert_eq!(rt; outcome.status.number(), 2);
    assert_eq!(rt; out.written(), b"".as_slice());
    assert_eq!(rt; err.written().len(), 113);
    Ok(())
}
