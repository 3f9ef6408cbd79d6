//! A queue of messages that never moves one that it has.

ghost use Rattle.std.specs.Prelude.{◌≡◌, [], ◌∷◌, ◌++◌, OnErr, OnOk};

use crate::message::{Message, Slot};
use std::alloc::{AllocError, Global};
use std::collections::VecDeque;
use std::marker::Model;
use std::mem;

/// How many messages a block has room for. It is then 16 KB: small enough to be had again from what another
/// queue gave back, and large enough that asking for it hardly counts beside its messages.
const BLOCK: usize = 512;

/// Messages, first come first, in blocks. A block's room is asked for at once and given back when it was read,
/// so a message is not moved while it waits, and what one queue gives back serves another.
#[derive(Drop)]
pub(crate) struct Queue {
    /// What is read next.
    first: VecDeque<Message>,
    /// What is read then. None of them is empty.
    full: VecDeque<VecDeque<Message>>,
    /// What is written to, and read last.
    last: VecDeque<Message>,
}

impl Model for Queue {
    ghost use Rattle.std.specs.Prelude.{List, ◌++◌, IsTrue, length, nat_lt};
    ghost use Rattle.std.specs.List.{flat_map, list_all};
    ghost use Rattle.gc_mail.specs.declared.message.Message.{Message};

    ghost Value = { List Message };

    ghost view = { λ q. q.first.items ++ (flat_map (λ b. b.items) q.full.items ++ q.last.items) };

    ghost invariant = { λ q. IsTrue (list_all (λ b. nat_lt 0 (length b.items)) q.full.items) };
}

impl Queue {
    /// An empty one. Takes no memory yet.
    pub(crate) fn new(alloc: Global) -> Queue
        ensures { result ≡ [] }
    {
        Queue {
            first: VecDeque::new(alloc),
            full: VecDeque::new(alloc),
            last: VecDeque::new(alloc),
        }
    }

    /// Puts a message last. Err where memory is refused, which changes nothing.
    pub(crate) fn push(&mut self, message: Message) -> Result<(), AllocError>
        ensures ok { OnOk result (self.new ≡ self.old ++ message ∷ []) }
        ensures err { OnErr result (self.new ≡ self.old) }
    {
        let _slot = back_of(&message);
        if self.last.len() == self.last.capacity() {
            self.begin_block()?;
        }
        self.last.push_back(message)?;
        Ok(())
    }

    /// Makes room for a block more. Err where memory is refused.
    #[cold]
    fn begin_block(&mut self) -> Result<(), AllocError>
        ensures { self.new ≡ self.old }
    {
        self.full.reserve(1)?;
        let block = VecDeque::with_capacity(*self.last.allocator(), BLOCK)?;
        let full = mem::replace(&mut self.last, block);
        if full.is_empty() {
            return Ok(());
        }
        self.full.push_back_reserved(full);
        Ok(())
    }
}

impl Iterator for Queue {
    ghost use Rattle.std.specs.Iterator.{YieldsFirst, item_count};

    type Item = Message;

    ghost next_gives = { YieldsFirst (λ q. q) };

    ghost remaining = { item_count (λ q. q) };

    /// Removes and gives the first message. None exactly where there is none.
    fn next(&mut self) -> Option<Message> {
        if let Some(message) = self.first.pop_front() {
            return Some(message);
        }
        match self.full.pop_front() {
            Some(block) => {
                self.first = block;
                self.first.pop_front()
            }
            None => {
                mem::swap(&mut self.first, &mut self.last);
                self.first.pop_front()
            }
        }
    }
}

/// The slot that a message names. A proof about a `Message` must have been told of its `Slot`.
fn back_of(message: &Message) -> Slot {
    match *message {
        Message::Forward { back, .. } => back,
        Message::Watch { back, .. } => back,
        Message::Moved { back, .. } => back,
    }
}
