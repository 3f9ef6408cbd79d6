//! Notes: places of objects that a trace wants to find again at the same place.

ghost use Rattle.std.specs.Prelude.{◌≡◌, ◌<◌, [], length, replicate, slice_index_or, slice_set, IfOk};

use gc_words::Address;
use std::alloc::{AllocError, Global};
use std::marker::Model;

/// How many notes there are.
const NOTES: usize = 256;

/// What a note holds.
#[derive(Clone, Copy, Debug, PartialEq, Eq)]
pub enum Noted {
    /// It was never set.
    Empty,
    /// The place of an object.
    Set(Address),
    /// It was set to an object that went, or that was moved.
    Gone,
}

/// 256 notes, by their numbers.
#[derive(Drop)]
pub struct Notes {
    notes: Vec<Noted>,
}

impl Model for Notes {
    ghost use Rattle.std.specs.Prelude.{List};
    ghost use Rattle.heap_store.specs.declared.notes.Noted.{Noted};

    ghost Value = { List Noted };

    ghost view = { λ n. n.notes.items };
}

fn empty_notes(alloc: Global, count: usize) -> Result<Vec<Noted>, AllocError>
    ensures { IfOk result (λ v. v.items ≡ replicate count Noted.Empty) }
{
    vec![in alloc; Noted::Empty; count]
}

impl Notes {
    /// Notes that are all empty.
    pub(crate) fn new(alloc: Global) -> Result<Notes, AllocError>
        ensures { IfOk result (λ n. n ≡ replicate NOTES Noted.Empty) }
    {
        let notes = empty_notes(alloc, NOTES)?;
        Ok(Notes { notes })
    }

    /// No notes at all, which takes no memory: those of a heap whose parts are taken out.
    pub(crate) fn none(alloc: Global) -> Notes
        ensures { result ≡ [] }
    {
        Notes {
            notes: Vec::new(alloc),
        }
    }

    /// What a note holds.
    pub fn get(&self, k: u8) -> Noted
        requires { k < length self.now }
        ensures { result ≡ slice_index_or self.now k Noted.Empty }
    {
        self.notes[usize::from(k)]
    }

    /// Makes a note gone.
    pub fn set_gone(&mut self, k: u8)
        requires { k < length self.old }
        ensures { self.new ≡ slice_set self.old k Noted.Gone }
    {
        self.notes[usize::from(k)] = Noted::Gone;
    }
}
