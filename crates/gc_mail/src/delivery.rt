//! The exchange between two rounds.

ghost use Rattle.std.specs.Prelude.{◌≡◌, ◌+◌, ◌<◌, [], ◌∷◌, length, IfOk, OnOk, vec_len};
ghost use Rattle.gc_mail.specs.Recipients.{all_of, IsDelivered, AlsoDelivers};

use crate::boxes::{Inbox, Outbox};
use crate::message::Message;
use crate::recipients::recipient;
use std::alloc::{AllocError, Global};
use std::sync::ledger::Ledger;
use steps::Steps;

/// Gives each message to its recipient. There are as many outboxes as sweepers, by sender. Inbox k then
/// has exactly the messages whose recipient is k, by sender and then by their place in the outbox.
///
/// `mail` takes one step for each message that is delivered. Each message is moved once, and what an outbox
/// gives back as it is read serves the inboxes; the time is linear in the messages and the sweepers. Err where
/// memory is refused; the messages are then dropped.
pub fn exchange<M: Ledger>(
    alloc: Global,
    outboxes: Vec<Outbox>,
    sweepers: u32,
    mail: &mut Steps<M>,
) -> Result<Vec<Inbox>, AllocError>
    requires { vec_len outboxes ≡ sweepers }

    ensures count { IfOk result (λ inboxes. vec_len inboxes ≡ sweepers) }
    ensures delivered { IfOk result (λ inboxes. IsDelivered sweepers (all_of outboxes.items) inboxes.items) }
    ensures mail { OnOk result (mail.new ≡ mail.old + length (all_of outboxes.items)) }
{
    let mut inboxes = empty_inboxes(alloc, sweepers)?;
    for outbox in outboxes {
        deliver_all(&mut inboxes, sweepers, outbox, mail)?;
    }
    Ok(inboxes)
}

fn empty_inboxes(alloc: Global, sweepers: u32) -> Result<Vec<Inbox>, AllocError>
    ensures count { IfOk result (λ inboxes. vec_len inboxes ≡ sweepers) }
    ensures delivered { IfOk result (λ inboxes. IsDelivered sweepers [] inboxes.items) }
{
    let mut inboxes = Vec::new(alloc);
    for _ in 0..sweepers {
        inboxes.push(Inbox::new(alloc))?;
    }
    Ok(inboxes)
}

fn deliver_all<M: Ledger>(
    inboxes: &mut Vec<Inbox>,
    sweepers: u32,
    outbox: Outbox,
    mail: &mut Steps<M>,
) -> Result<(), AllocError>
    requires some { 0 < sweepers }
    requires count { vec_len inboxes.old ≡ sweepers }

    ensures count { OnOk result (vec_len inboxes.new ≡ sweepers) }
    ensures delivered { OnOk result (AlsoDelivers sweepers outbox inboxes.old.items inboxes.new.items) }
    ensures mail { OnOk result (mail.new ≡ mail.old + length outbox) }
{
    for message in outbox.into_messages() {
        deliver(inboxes, sweepers, message)?;
        mail.tick();
    }
    Ok(())
}

fn deliver(inboxes: &mut Vec<Inbox>, sweepers: u32, message: Message) -> Result<(), AllocError>
    requires some { 0 < sweepers }
    requires count { vec_len inboxes.old ≡ sweepers }

    ensures count { OnOk result (vec_len inboxes.new ≡ sweepers) }
    ensures delivered { OnOk result (AlsoDelivers sweepers (message ∷ []) inboxes.old.items inboxes.new.items) }
{
    let k = recipient(&message, sweepers) as usize;
    inboxes[k].add(message)
}

#[cfg(test)]
mod tests {
    use super::*;
    use crate::message::Slot;
    use gc_words::Address;
    use std::marker::Brand;
    use std::sync::ledger::Blank;
    use std::test::Fail;

    /// An exchange by a caller that counts nothing.
    fn exchanged<M: Ledger>(
        alloc: Global,
        outboxes: Vec<Outbox>,
        sweepers: u32,
        blank: Blank,
    ) -> Result<Vec<Inbox>, AllocError>
        requires count { vec_len outboxes ≡ sweepers }
        requires name { blank.name ≡ M.name }
        requires parts { blank.parts ≡ M.parts }
        requires some { 0 < blank.parts }
        ensures { IfOk result (λ inboxes. vec_len inboxes ≡ sweepers) }
    {
        let mut mail = Steps::<M>::new(blank);
        let inboxes = exchange(alloc, outboxes, sweepers, &mut mail)?;
        Ok(inboxes)
    }

    fn delivered(
        alloc: Global,
        outboxes: Vec<Outbox>,
        sweepers: u32,
    ) -> Result<Vec<Inbox>, AllocError>
        requires { vec_len outboxes ≡ sweepers }
        ensures { IfOk result (λ inboxes. vec_len inboxes ≡ sweepers) }
    {
        let inboxes = exchanged::<Brand>(alloc, outboxes, sweepers, Blank::new(1))?;
        Ok(inboxes)
    }

    /// Row of two sweepers: what is asked goes to the owner, what is told to the holder of the slot.
    #[test]
    fn asked_of_the_owner_told_to_the_holder(rt: HostRuntime) -> Result<(), Fail> {
        let alloc = rt.alloc();
        let forward = Message::Forward {
            target: Address::at(1, 0, 2),
            back: Slot::Register(0),
        };
        let moved = Message::Moved {
            back: Slot::Register(0),
            new: Address::at(1, 3, 4),
        };
        let mut first = Outbox::new(alloc);
        first.send(forward)?;
        let mut second = Outbox::new(alloc);
        second.send(moved)?;
        assert_eq!(rt; (first.count(), second.count()), (1, 1));
        let mut outboxes = Vec::new(alloc);
        outboxes.push(first)?;
        outboxes.push(second)?;
        let mut inboxes = delivered(alloc, outboxes, 2)?;
        let told = inboxes[0].next();
        let asked = inboxes[1].next();
        assert!(rt; told == Some(moved) && asked == Some(forward));
        assert!(rt; inboxes[0].next().is_none() && inboxes[1].next().is_none());
        Ok(())
    }

    #[test]
    fn recipients_of_all_messages(rt: HostRuntime) -> Result<(), Fail> {
        for (back, holder) in [
            (Slot::Register(4095), 0),
            (
                Slot::Field {
                    object: Address::at(10, 5, 6),
                    index: 2,
                },
                3,
            ),
            (
                Slot::Entry {
                    line: 1073741822,
                    part: 1,
                },
                6,
            ),
            (
                Slot::Wait {
                    object: Address::at(12, 5, 6),
                },
                5,
            ),
        ] {
            let told = Message::Moved {
                back,
                new: Address::at(1, 0, 0),
            };
            assert_eq!(rt; recipient(&told, 7), holder);
        }
        let asked = Message::Forward {
            target: Address::at(9, 0, 0),
            back: Slot::Nothing,
        };
        let watched = Message::Watch {
            key: Address::at(63, 0, 0),
            back: Slot::Register(1),
        };
        assert_eq!(rt; (recipient(&asked, 7), recipient(&watched, 7)), (2, 0));
        Ok(())
    }

    /// The number of the register that message i of a sender tells of.
    fn number(sender: u32, i: u32) -> u32 {
        sender.wrapping_mul(7).wrapping_add(i.wrapping_mul(3)) % 4096
    }

    /// How many messages a sender has: `each`, or none where another one sends all.
    fn load(sender: u32, each: u32, only: Option<u32>) -> u32 {
        match only {
            Some(one) => if sender == one { each } else { 0 },
            None => each,
        }
    }

    fn outbox(alloc: Global, sender: u32, load: u32) -> Result<Outbox, AllocError> {
        let mut outbox = Outbox::new(alloc);
        for i in 0..load {
            outbox.send(Message::Moved {
                back: Slot::Register(number(sender, i)),
                new: Address::at(0, 0, 0),
            })?;
        }
        Ok(outbox)
    }

    fn outboxes(
        alloc: Global,
        senders: u32,
        each: u32,
        only: Option<u32>,
    ) -> Result<Vec<Outbox>, AllocError>
        ensures { IfOk result (λ outboxes. vec_len outboxes ≡ senders) }
    {
        let mut outboxes = Vec::new(alloc);
        for sender in 0..senders {
            outboxes.push(outbox(alloc, sender, load(sender, each, only))?)?;
        }
        Ok(outboxes)
    }

    /// The numbers that inbox k should have.
    fn wanted(
        alloc: Global,
        k: u32,
        senders: u32,
        each: u32,
        only: Option<u32>,
    ) -> Result<Vec<u32>, AllocError>
        requires { 0 < senders }
    {
        let mut numbers = Vec::new(alloc);
        for sender in 0..senders {
            for i in 0..load(sender, each, only) {
                if number(sender, i) % senders == k {
                    numbers.push(number(sender, i))?;
                }
            }
        }
        Ok(numbers)
    }

    /// The numbers that an inbox has, in its order.
    fn numbers(alloc: Global, inbox: Inbox) -> Result<Vec<u32>, AllocError> {
        let mut inbox = inbox;
        let mut numbers = Vec::new(alloc);
        for _ in 0..100000 {
            match inbox.next() {
                Some(
                    Message::Moved {
                        back: Slot::Register(number),
                        ..
                    },
                ) => numbers.push(number)?,
                _ => break,
            }
        }
        Ok(numbers)
    }

    #[test]
    fn by_sender_and_place_for_any_number_of_sweepers(rt: HostRuntime) -> Result<(), Fail> {
        let alloc = rt.alloc();
        for (senders, each, only) in [
            (1, 5, None),
            (2, 9, None),
            (7, 20, None),
            (64, 3, None),
            (1, 0, None),
            (7, 0, None),
            (64, 0, None),
            (1, 1600, None),
            (2, 100, Some(1)),
            (7, 100, Some(6)),
            (64, 1000, Some(0)),
        ] {
            let sent = outboxes(alloc, senders, each, only)?;
            let mut k: u32 = 0;
            for inbox in delivered(alloc, sent, senders)? {
                let wanted = wanted(alloc, k, senders, each, only)?;
                let got = numbers(alloc, inbox)?;
                assert!(rt; got == wanted);
                k = k.wrapping_add(1);
            }
            assert_eq!(rt; k, senders);
        }
        Ok(())
    }
}
