//! What several sweepers leave of a trace: the same bytes as one, whatever their number.

ghost use Rattle.std.specs.Prelude.{◌≤◌};

use super::{Ending, run};
use gc_io::{MemSink, MemSource, OpenGate};
use std::alloc::{AllocError, Global};
use std::test::Fail;
use std::thread::Threads;
use trace_types::Limits;

/// How many pairs the ring has.
const PAIRS: u32 = 200;

/// A ring of pairs over eight threads, collected and printed.
fn ring(alloc: Global) -> Result<Vec<u8>, AllocError> {
    let mut text = String::new(alloc);
    for i in 0..PAIRS {
        let thread = i % 8;
        text.push_str(&format!(in alloc; "thread {thread}\ncons r{i} {i} nil\n")?)?;
    }
    for i in 0..PAIRS {
        let next = (i + 1) % PAIRS;
        text.push_str(&format!(in alloc; "set r{i} 1 r{next}\n")?)?;
    }
    for i in 1..PAIRS {
        text.push_str(&format!(in alloc; "mov r{i} nil\n")?)?;
    }
    text.push_str("collect 0 1 1\nprint r0\n")?;
    text.as_bytes().to_vec(alloc)
}

/// What is printed then.
fn printed(alloc: Global) -> Result<Vec<u8>, AllocError> {
    let mut text = String::new(alloc);
    text.push_str("= #0\n")?;
    for i in 0..PAIRS {
        let thread = i % 8;
        let next = (i + 1) % PAIRS;
        text.push_str(&format!(in alloc; "#{i} pair g1 t{thread} {i} #{next}\n")?)?;
    }
    text.as_bytes().to_vec(alloc)
}

/// A pair goes to an older generation, and then holds a younger one of another thread; a vector, a box and bytes are
/// shared; what nothing refers to goes.
const MIXED: &[u8] = b"cons r0 1 nil
thread 3
vec r1 5 r0
box r2 r1
bytes r3 9 255
set r1 4 r3
set r0 1 r2
cons r9 r0 r0
mov r9 nil
collect 0 1 1
thread 7
cons r4 r0 2
set r1 0 r4
mov r4 nil
mov r2 nil
mov r3 nil
collect 0 1 1
collect 1 1 2
print r0
census
mov r0 nil
mov r1 nil
collect 3 3 3
collect 2 3 3
census
";

const MIXED_PRINTED: &[u8] = b"= #0
#0 pair g2 t0 1 #1
#1 box g2 t3 #2
#2 vec g2 t3 #3 #0 #0 #0 #4
#3 pair g2 t7 #0 2
#4 bytes g2 t3 ff ff ff ff ff ff ff ff ff
g2 5 16
";

/// Whether so many sweepers print this.
fn prints<R: Threads + Sync>(
    rt: &R,
    alloc: Global,
    sweepers: u32,
    input: Vec<u8>,
    wanted: &[u8],
) -> Result<bool, Fail>
    requires { (1 ≤ sweepers) × (sweepers ≤ 64) }
{
    let limits = Limits {
        sweepers,
        generations: 3,
        max_lines: 10_000,
    };
    let mut source = MemSource::new(input, 4096, Vec::new(alloc));
    let mut out = MemSink::with_room(alloc, 16_384, 4096, Vec::new(alloc))?;
    let ending = run(rt, alloc, &limits, &mut source, &mut out, &OpenGate);
    let all = matches!(&ending, Ending::All(_));
    Ok(all && out.written() == wanted)
}

#[test]
fn any_number_of_sweepers_prints_the_same(rt: HostRuntime) -> Result<(), Fail> {
    let alloc = rt.alloc();
    let wanted = printed(alloc)?;
    for sweepers in [1, 2, 3, 7, 64] {
        assert!(rt;
            prints(&rt, alloc, sweepers, ring(alloc)?, &wanted)?,
            "{sweepers}"
        );
        let mixed = MIXED.to_vec(alloc)?;
        assert!(rt;
            prints(&rt, alloc, sweepers, mixed, MIXED_PRINTED)?,
            "{sweepers}"
        );
    }
    Ok(())
}
