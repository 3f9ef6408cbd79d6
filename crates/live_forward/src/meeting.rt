//! Two sweepers in threads of their own, each of which stores the place of an object of its own and looks
//! for that of the other. What either learnt is what the other stored, whatever the schedule.

ghost use Rattle.std.specs.Prelude.{◌≡◌, ℕ, ◌<◌, [], ◌∷◌, length, slice_index_or, All, Contains};
ghost use Rattle.live_forward.specs.Forwarding.{Agrees, Owns};
ghost use Rattle.live_forward.specs.Meeting.{IsReady, Learns, LearnsFrom};

use crate::{ForwardTable, HintReceiver, HintSender, SweepSeat, hint_ring};
use gc_words::Address;
use std::test::Fail;
use std::thread;
use std::thread::Threads;

/// A sweeper with its seat and an end of a ring in each direction.
#[derive(Drop)]
struct Sweeper {
    seat: SweepSeat,
    sender: HintSender,
    receiver: HintReceiver,
    place: Address,
    /// The word of its own object.
    word: usize,
    /// The word of the other's object.
    wanted: usize,
    learnt: Option<Address>,
}

fn round(sweeper: &mut Sweeper, table: &ForwardTable)
    requires { IsReady table.now sweeper.old.seat sweeper.old.word sweeper.old.wanted }
    ensures learns { Learns sweeper.old.seat sweeper.new.seat sweeper.new.wanted sweeper.new.learnt }
    ensures wanted { sweeper.new.wanted ≡ sweeper.old.wanted }
{
    table.store_own(&mut sweeper.seat, sweeper.word, sweeper.place);
    let _ = sweeper.sender.offer(sweeper.place);
    let _ = sweeper.receiver.next_hint();
    sweeper.learnt = table.load(&mut sweeper.seat, sweeper.wanted);
}

/// Lets each of two seats know what the other forwarded and saw.
fn share(table: &ForwardTable, one: &mut SweepSeat, two: &mut SweepSeat)
    requires one { one.old.table ≡ table.now.table }
    requires two { two.old.table ≡ table.now.table }
    ensures one_own { one.new.view.own ≡ one.old.view.own }
    ensures two_own { two.new.view.own ≡ two.old.view.own }
    ensures one_range { (one.new.view.number ≡ one.old.view.number) × (one.new.view.ranges ≡ one.old.view.ranges) }
    ensures two_range { (two.new.view.number ≡ two.old.view.number) × (two.new.view.ranges ≡ two.old.view.ranges) }
    ensures one_seen { (p : ℕ × ℕ) → Contains one.old.view.seen p → Contains two.new.view.seen p }
    ensures two_seen { (p : ℕ × ℕ) → Contains two.old.view.seen p → Contains one.new.view.seen p }
    ensures one_agrees { Agrees one.new.view }
    ensures two_agrees { Agrees two.new.view }
{
    let mut all = table.split(one);
    let copy = table.split(two);
    table.join(&mut all, copy);
    let back = table.split(&mut all);
    table.join(one, back);
    table.join(two, all);
}

fn rounds<R: Threads + Sync>(rt: &R, sweepers: &mut [Sweeper], table: &ForwardTable)
    requires { All (λ s. IsReady table.now s.seat s.word s.wanted) sweepers.old }
    ensures learns { (k : ℕ) (d : _) → k < length sweepers.old
        → Learns (slice_index_or sweepers.old k d).seat (slice_index_or sweepers.new k d).seat
        (slice_index_or sweepers.new k d).wanted (slice_index_or sweepers.new k d).learnt }
    ensures wanted { (k : ℕ) (d : _) → k < length sweepers.old
        → (slice_index_or sweepers.new k d).wanted ≡ (slice_index_or sweepers.old k d).wanted }
{
    thread::for_each_mut(
        rt,
        sweepers,
        2,
        &|_, sweeper: &mut Sweeper|
            requires { IsReady table.now sweeper.now.seat sweeper.now.word sweeper.now.wanted }
            ensures { (sweeper.exit.now.wanted ≡ sweeper.entry.now.wanted)
                × Learns sweeper.entry.now.seat sweeper.exit.now.seat sweeper.exit.now.wanted
                sweeper.exit.now.learnt }
        {
            round(sweeper, table);
        },
    );
}

fn both(sweepers: [Sweeper; 2]) -> (Sweeper, Sweeper)
    ensures { sweepers ≡ result.0 ∷ result.1 ∷ [] }
{
    let [one, two] = sweepers;
    (one, two)
}

/// Both sweepers after a round in threads, and after each was told what the other knows.
fn meet<R: Threads + Sync>(
    rt: &R,
    table: &ForwardTable,
    first: Sweeper,
    second: Sweeper,
) -> (Sweeper, Sweeper)
    requires first { IsReady table.now first.seat first.word first.wanted }
    requires second { IsReady table.now second.seat second.word second.wanted }
    requires first_wanted { Owns second.seat.view first.wanted }
    requires second_wanted { Owns first.seat.view second.wanted }
    ensures first { LearnsFrom result.1.seat result.0.wanted result.0.learnt }
    ensures second { LearnsFrom result.0.seat result.1.wanted result.1.learnt }
{
    let mut sweepers = [first, second];
    rounds(rt, &mut sweepers, table);
    let (mut one, mut two) = both(sweepers);
    share(table, &mut one.seat, &mut two.seat);
    (one, two)
}

#[test]
fn a_learnt_place_is_the_owners(rt: HostRuntime) -> Result<(), Fail> {
    let alloc = rt.alloc();
    for _ in 0..50 {
        let (table, mut left) = ForwardTable::new(alloc, &[1, 1])?;
        table.claim(&mut left);
        let mut right = table.split(&mut left);
        table.claim(&mut right);
        let (sender, receiver) = hint_ring(alloc, 1)?;
        let (back_sender, back_receiver) = hint_ring(alloc, 1)?;
        let first = Sweeper {
            seat: left,
            sender,
            receiver: back_receiver,
            place: Address::at(0, 1, 2),
            word: 1,
            wanted: 2,
            learnt: None,
        };
        let second = Sweeper {
            seat: right,
            sender: back_sender,
            receiver,
            place: Address::at(1, 5, 8),
            word: 2,
            wanted: 1,
            learnt: None,
        };
        let (first, second) = meet(&rt, &table, first, second);
        assert!(rt; first.learnt.is_none() || first.learnt == Some(second.place));
        assert!(rt; second.learnt.is_none() || second.learnt == Some(first.place));
    }
    Ok(())
}
