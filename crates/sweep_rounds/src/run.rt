//! Rounds and exchanges, until nothing is left to do.

ghost use Rattle.std.specs.Prelude.{◌≡◌, ℕ, ◌+◌, ◌<◌, ◌≤◌, false, [], IfOk, OnOk, length};
ghost use Rattle.std.specs.List.{sum_by};
ghost use Rattle.sweeper.specs.Sweepers.{SweeperView};
ghost use Rattle.sweep_rounds.specs.Turns.{CountRounds, Ends, Leads, Lowers, Whole, sweeper_at};
ghost use Rattle.sweep_rounds.specs.Mails.{AreMailed, ArePut, AreTaken};

use crate::rounds::round_all;
use directory::Directory;
use gc_io::Gate;
use gc_mail::{Inbox, Outbox, exchange};
use std::alloc::{AllocError, Global};
use std::sync::ledger::Ledger;
use std::thread::Threads;
use steps::Steps;
use sweeper::Sweeper;

/// How much a run took: rounds of all sweepers, and messages that were delivered between them.
#[derive(Clone, Copy, Debug, PartialEq, Eq)]
pub struct Rounds {
    /// How many rounds there were.
    pub rounds: u64,
    /// How many messages were delivered.
    pub messages: u64,
}

/// Takes the messages of each sweeper, in the order of the sweepers.
fn take_outboxes(alloc: Global, sweepers: &mut [Sweeper]) -> Result<Vec<Outbox>, AllocError>
    ensures { IfOk result (λ outboxes. AreTaken sweepers.old sweepers.new outboxes.items) }
{
    let mut outboxes = Vec::new(alloc);
    for k in 0..sweepers.len() {
        outboxes.push(sweepers[k].take_outbox(alloc))?;
    }
    Ok(outboxes)
}

/// Gives each sweeper the messages for it, in the order of the sweepers.
fn put_inboxes(sweepers: &mut [Sweeper], inboxes: Vec<Inbox>)
    requires count { length inboxes.items ≡ length sweepers.old }
    requires emptied { (k : ℕ) (d : SweeperView) → k < length sweepers.old
        → (sweeper_at sweepers.old d k).inbox ≡ [] }
    ensures { ArePut sweepers.old sweepers.new inboxes.items }
{
    let mut k = 0;
    for inbox in inboxes {
        sweepers[k].put_inbox(inbox);
        k += 1;
    }
}

/// How many messages there are in all.
fn waiting(outboxes: &[Outbox]) -> Result<u64, AllocError>
    ensures { IfOk result (λ count. count ≡ sum_by length outboxes.now) }
{
    let mut count: u64 = 0;
    for outbox in outboxes {
        count = count.checked_add(outbox.count() as u64).ok_or(AllocError)?;
    }
    Ok(count)
}

/// Exchanges the messages of all sweepers, and answers how many there were. Where there were none, nothing
/// changed.
fn deliver<M: Ledger>(
    alloc: Global,
    sweepers: &mut [Sweeper],
    mail: &mut Steps<M>,
) -> Result<u64, AllocError>
    requires count { length sweepers.old ≤ 64 }
    requires emptied { (k : ℕ) (d : SweeperView) → k < length sweepers.old
        → (sweeper_at sweepers.old d k).inbox ≡ [] }
    ensures mailed { OnOk result ((d : SweeperView)
        → AreMailed (length sweepers.old) (sweeper_at sweepers.old d) (sweeper_at sweepers.new d)) }
    ensures none { IfOk result (λ count. count ≡ 0 → (k : ℕ) (d : SweeperView) → k < length sweepers.old
        → (sweeper_at sweepers.old d k).outbox ≡ []) }
    ensures some { IfOk result (λ count. 0 < count → (k : ℕ) × (k < length sweepers.old)
        × ((d : SweeperView) → 0 < length (sweeper_at sweepers.old d k).outbox)) }
    ensures mail { IfOk result (λ count. mail.new ≡ mail.old + count) }
{
    let outboxes = take_outboxes(alloc, sweepers)?;
    let count = waiting(&outboxes)?;
    let inboxes = exchange(alloc, outboxes, sweepers.len() as u32, mail)?;
    put_inboxes(sweepers, inboxes);
    Ok(count)
}

/// A turn: a round of all sweepers, and the exchange. Answers how many messages were delivered.
fn turn<R: Threads + Sync, G: Gate, M: Ledger>(
    rt: &R,
    alloc: Global,
    sweepers: &mut [Sweeper],
    directory: &Directory,
    gate: &G,
    mail: &mut Steps<M>,
) -> Result<u64, AllocError>
    requires count { length sweepers.old ≤ 64 }
    requires whole { (d : SweeperView)
        → Whole (length sweepers.old) directory.now (sweeper_at sweepers.old d) }
    ensures leads { OnOk result ((d : SweeperView)
        → Leads (length sweepers.old) (sweeper_at sweepers.old d) (sweeper_at sweepers.new d)) }
    ensures ends { IfOk result (λ count. count ≡ 0 → (d : SweeperView)
        → Ends (length sweepers.old) (sweeper_at sweepers.old d) (sweeper_at sweepers.new d)) }
    ensures lowers { IfOk result (λ count. 0 < count → (d : SweeperView)
        → Lowers (length sweepers.old) (sweeper_at sweepers.old d) (sweeper_at sweepers.new d)) }
    ensures rounds { OnOk result ((d : SweeperView)
        → CountRounds (length sweepers.old) (sweeper_at sweepers.old d) (sweeper_at sweepers.new d) 1) }
    ensures mail { IfOk result (λ count. mail.new ≡ mail.old + count + 1) }
    ensures enough { OnOk result ((k : ℕ) (d : SweeperView) → k < length sweepers.old
        → (sweeper_at sweepers.new d k).ran_out ≡ false) }
{
    round_all(rt, sweepers, directory, gate)?;
    mail.tick();
    let count = deliver(alloc, sweepers, mail)?;
    Ok(count)
}

/// Turns, until one delivers no message.
fn run_turns<R: Threads + Sync, G: Gate, M: Ledger>(
    rt: &R,
    alloc: Global,
    sweepers: &mut [Sweeper],
    directory: &Directory,
    gate: &G,
    mail: &mut Steps<M>,
) -> Result<Rounds, AllocError>
    requires count { length sweepers.old ≤ 64 }
    requires whole { (d : SweeperView)
        → Whole (length sweepers.old) directory.now (sweeper_at sweepers.old d) }
    ensures ends { OnOk result ((d : SweeperView)
        → Ends (length sweepers.old) (sweeper_at sweepers.old d) (sweeper_at sweepers.new d)) }
    ensures rounds { IfOk result (λ r. (d : SweeperView)
        → CountRounds (length sweepers.old) (sweeper_at sweepers.old d) (sweeper_at sweepers.new d)
        r.rounds) }
    ensures mail { IfOk result (λ r. mail.new ≡ mail.old + r.rounds + r.messages) }
    ensures few { IfOk result (λ r. r.rounds ≤ r.messages + 1) }
    ensures enough { OnOk result ((k : ℕ) (d : SweeperView) → k < length sweepers.old
        → (sweeper_at sweepers.new d k).ran_out ≡ false) }
{
    let mut done = Rounds {
        rounds: 0,
        messages: 0,
    };
    loop {
        let count = turn(rt, alloc, sweepers, directory, gate, mail)?;
        done.rounds = done.rounds.checked_add(1).ok_or(AllocError)?;
        if count == 0 {
            return Ok(done);
        }
        done.messages = done.messages.checked_add(count).ok_or(AllocError)?;
    }
}

/// Runs rounds of all sweepers, and exchanges their messages between two rounds, until no message and nothing
/// unswept is left. At Ok exactly the objects that the rules reach were forwarded, each once and by its
/// owner, and each slot of what is kept has its place. `mail` takes a step for each round and for each message.
/// AllocError where a sweeper ran out of memory, or where the exchange did; the sweepers are then not to be
/// used any more.
pub fn run_to_idle<R: Threads + Sync, G: Gate, M: Ledger>(
    rt: &R,
    sweepers: &mut Vec<Sweeper>,
    directory: &Directory,
    gate: &G,
    mail: &mut Steps<M>,
) -> Result<Rounds, AllocError>
    requires count { length sweepers.old.items ≤ 64 }
    requires whole { (d : SweeperView)
        → Whole (length sweepers.old.items) directory.now (sweeper_at sweepers.old.items d) }
    ensures ends { OnOk result ((d : SweeperView)
        → Ends (length sweepers.old.items) (sweeper_at sweepers.old.items d)
        (sweeper_at sweepers.new.items d)) }
    ensures same { OnOk result (length sweepers.new.items ≡ length sweepers.old.items) }
    ensures rounds { IfOk result (λ r. (d : SweeperView)
        → CountRounds (length sweepers.old.items) (sweeper_at sweepers.old.items d)
        (sweeper_at sweepers.new.items d) r.rounds) }
    ensures mail { IfOk result (λ r. mail.new ≡ mail.old + r.rounds + r.messages) }
    ensures few { IfOk result (λ r. r.rounds ≤ r.messages + 1) }
    ensures enough { OnOk result ((k : ℕ) (d : SweeperView) → k < length sweepers.old.items
        → (sweeper_at sweepers.new.items d k).ran_out ≡ false) }
{
    let alloc = *sweepers.allocator();
    run_turns(rt, alloc, sweepers, directory, gate, mail)
}
