//! Messages: what the sweepers of a collection tell each other between two rounds.
//!
//! Each object has one owner, the sweeper that works on its thread, and only the owner copies it. A sweeper
//! that needs a foreign object writes a `Message` into its `Outbox`; `exchange` takes all outboxes and gives
//! each message to its recipient's `Inbox`, by sender and then in the order of writing. For contracts an
//! outbox and an inbox are lists of messages; `recipient_of` says who gets a message.
//!
//! Invariant: a box keeps its messages in blocks, of which all but the first and the last one have some; an
//! outbox's count is its length. Only `send` and `exchange` take memory, a block at a time, so no message is
//! moved while it waits; a block that was read is given back, and serves the next one.
//! That owners ask each other by messages is as in Chez Scheme's parallel collector; the protocol and its
//! words are this project's own.
#![tactic(auto)]

mod boxes;
mod delivery;
mod message;
mod queue;
mod recipients;

pub use boxes::{Inbox, Outbox};
pub use delivery::exchange;
pub use message::{Message, Slot};
pub use recipients::holder;
