//! Who gets a message.

ghost use Rattle.std.specs.Prelude.{◌≡◌, ◌<◌};
ghost use Rattle.gc_mail.specs.Recipients.{recipient_of, holder_of};

use crate::message::{Message, Slot};
use gc_words::owner_of;

/// The sweeper that holds a slot. `Nothing` is held by nobody, and no message is sent to it.
pub fn holder(slot: &Slot, sweepers: u32) -> u32
    requires { 0 < sweepers }
    ensures value { result ≡ holder_of sweepers slot.now }
    ensures range { result < sweepers }
{
    match *slot {
        Slot::Register(number) => number % sweepers,
        Slot::Field { object, .. } => owner_of(object.thread(), sweepers),
        Slot::Entry { line, .. } => line % sweepers,
        Slot::Wait { object } => owner_of(object.thread(), sweepers),
        Slot::Nothing => 0,
    }
}

/// The sweeper that gets a message.
pub(crate) fn recipient(message: &Message, sweepers: u32) -> u32
    requires { 0 < sweepers }
    ensures value { result ≡ recipient_of sweepers message.now }
    ensures range { result < sweepers }
{
    match *message {
        Message::Forward { target, .. } => owner_of(target.thread(), sweepers),
        Message::Watch { key, .. } => owner_of(key.thread(), sweepers),
        Message::Moved { ref back, .. } => holder(back, sweepers),
    }
}
