//! mailcount: exchanges 9 times 1,000,000 messages among 8 sweepers and counts what arrives.
//!
//! It is there to measure the exchange alone: with any word on its command line it also writes, line by
//! line, how many nanoseconds of the processor each exchange took. `bench/run --bench mail` calls it so.
#![tactic(auto)]

ghost use Rattle.std.specs.Prelude.{◌≡◌, ◌<◌, IfOk, vec_len};

use gc_mail::{Inbox, Message, Outbox, Slot, exchange};
use gc_words::Address;
use std::alloc::{AllocError, Global};
use std::marker::Brand;
use std::sync::ledger::{Blank, Ledger};
use std::time::{CpuClock, Duration};
use std::{env, io};
use steps::Steps;

const SWEEPERS: u32 = 8;

const EACH: u32 = 125_000;

const ROUNDS: u32 = 9;

/// What one exchange did.
struct Round {
    arrived: u64,
    /// The processor time of the exchange, without the making and the taking of its messages.
    time: Duration,
}

/// A full outbox: each message is for the owner of another object.
fn full_outbox(alloc: Global) -> Result<Outbox, AllocError> {
    let mut outbox = Outbox::new(alloc);
    for i in 0..EACH {
        let thread = (i % 64) as u8;
        outbox.send(Message::Forward {
            target: Address::at(thread, 0, 2),
            back: Slot::Register(i % 4096),
        })?;
    }
    Ok(outbox)
}

fn full_outboxes(alloc: Global, count: u32) -> Result<Vec<Outbox>, AllocError>
    ensures { IfOk result (λ outboxes. vec_len outboxes ≡ count) }
{
    let mut outboxes = Vec::new(alloc);
    for _ in 0..count {
        outboxes.push(full_outbox(alloc)?)?;
    }
    Ok(outboxes)
}

/// How many messages are in the inbox.
fn count_messages(inbox: &mut Inbox) -> u64 {
    let mut count: u64 = 0;
    for _ in 0..u64::MAX {
        match inbox.next() {
            Some(_) => count = count.saturating_add(1),
            None => return count,
        }
    }
    count
}

fn arrived(inboxes: Vec<Inbox>) -> u64 {
    let mut count: u64 = 0;
    for mut inbox in inboxes {
        count = count.saturating_add(count_messages(&mut inbox));
    }
    count
}

/// One exchange of full outboxes, by a caller that counts no steps.
fn exchanged<M: Ledger, C: CpuClock>(alloc: Global, clock: &C, blank: Blank) -> io::Result<Round>
    requires name { blank.name ≡ M.name }
    requires parts { blank.parts ≡ M.parts }
    requires some { 0 < blank.parts }
{
    let outboxes = full_outboxes(alloc, SWEEPERS)?;
    let mut mail = Steps::<M>::new(blank);
    let start = clock.thread_cpu_time()?;
    let inboxes = exchange(alloc, outboxes, SWEEPERS, &mut mail)?;
    let end = clock.thread_cpu_time()?;
    Ok(Round {
        arrived: arrived(inboxes),
        time: end.saturating_sub(start),
    })
}

/// The same, where there is no ledger at hand.
fn exchanged_once<C: CpuClock>(alloc: Global, clock: &C) -> io::Result<Round> {
    let round = exchanged::<Brand, C>(alloc, clock, Blank::new(1))?;
    Ok(round)
}

fn main(rt: HostRuntime) -> io::Result<()> {
    let tells_times = env::args(&rt)?.len() > 1;
    let mut count: u64 = 0;
    for _ in 0..ROUNDS {
        let Round { arrived, time } = exchanged_once(rt.alloc(), &rt)?;
        count = count.saturating_add(arrived);
        if tells_times {
            println!(rt; "{}", time.as_nanos())?;
        }
    }
    println!(rt; "{count} messages")
}
