//! Outboxes and inboxes.

ghost use Rattle.std.specs.Prelude.{◌≡◌, [], ◌∷◌, ◌++◌, length, OnErr, OnOk, MatchOption};
ghost use Rattle.gc_mail.specs.Recipients.{HasRecipient};

use crate::message::Message;
use crate::queue::Queue;
use std::alloc::{AllocError, Global};
use std::marker::Model;

/// What a sweeper tells others, in the order of sending.
#[derive(Drop)]
pub struct Outbox {
    messages: Queue,
    count: usize,
}

impl Model for Outbox {
    ghost use Rattle.std.specs.Prelude.{List, ◌≡◌, length};
    ghost use Rattle.gc_mail.specs.declared.message.Message.{Message};

    ghost Value = { List Message };

    ghost view = { λ o. o.messages };

    ghost invariant = { λ o. o.count ≡ length o.messages };
}

impl Outbox {
    /// An empty one. Takes no memory yet.
    pub fn new(alloc: Global) -> Outbox
        ensures { result ≡ [] }
    {
        Outbox {
            messages: Queue::new(alloc),
            count: 0,
        }
    }

    /// How many messages there are.
    pub fn count(&self) -> usize
        ensures { result ≡ length self.now }
    {
        self.count
    }

    /// Puts a message last. A `Moved` names a slot other than `Nothing`. Err where memory is refused, or where
    /// there would be more messages than a `usize` counts; it changes nothing.
    pub fn send(&mut self, message: Message) -> Result<(), AllocError>
        requires { HasRecipient message }
        ensures ok { OnOk result (self.new ≡ self.old ++ message ∷ []) }
        ensures err { OnErr result (self.new ≡ self.old) }
    {
        let count = self.count.checked_add(1).ok_or(AllocError)?;
        self.messages.push(message)?;
        self.count = count;
        Ok(())
    }

    /// The messages, to be delivered.
    pub(crate) fn into_messages(self) -> Queue
        ensures { result ≡ self }
    {
        self.messages
    }
}

/// What a sweeper was told and has not taken up, first come first.
#[derive(Drop)]
pub struct Inbox {
    messages: Queue,
}

impl Model for Inbox {
    ghost use Rattle.std.specs.Prelude.{List};
    ghost use Rattle.gc_mail.specs.declared.message.Message.{Message};

    ghost Value = { List Message };

    ghost view = { λ i. i.messages };
}

impl Inbox {
    /// An empty one. Takes no memory yet.
    pub fn new(alloc: Global) -> Inbox
        ensures { result ≡ [] }
    {
        Inbox {
            messages: Queue::new(alloc),
        }
    }

    /// Removes and gives the first message. None exactly where there is none.
    pub fn next(&mut self) -> Option<Message>
        ensures { MatchOption result ((self.old ≡ []) × (self.new ≡ [])) (λ m. self.old ≡ m ∷ self.new) }
    {
        self.messages.next()
    }

    /// Puts a message last, as from the sweeper itself. Err where memory is refused.
    pub fn add(&mut self, message: Message) -> Result<(), AllocError>
        ensures { OnOk result (self.new ≡ self.old ++ message ∷ []) }
    {
        self.messages.push(message)?;
        Ok(())
    }
}

#[cfg(test)]
mod tests {
    use super::*;
    use std::test::Fail;

    /// Says of a type that its values may go to another thread.
    fn may_cross<T: Send>(_value: &T) {}

    #[test]
    fn sweepers_take_their_boxes_to_their_threads(rt: HostRuntime) -> Result<(), Fail> {
        may_cross(&Outbox::new(rt.alloc()));
        may_cross(&Inbox::new(rt.alloc()));
        Ok(())
    }
}
