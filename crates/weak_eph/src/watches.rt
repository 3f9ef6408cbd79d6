//! Who is to be told once a key is kept.

ghost use Rattle.std.specs.Prelude.{◌≡◌, ℕ, ◌+◌, ◌*◌, eqb, List, [], ◌∷◌, ◌++◌, OnOk, OnErr};
ghost use Rattle.std.specs.Map.{lookup, remove_entry};

use gc_words::{Address, Value, encode};
use std::alloc::{AllocError, Global};
use std::collections::HashMap;
use std::marker::Model;

/// One watch, and the next one of the same key.
#[derive(Clone, Copy)]
struct Entry<B: Copy> {
    key: Address,
    /// Who waits. None once it was taken.
    back: Option<B>,
    /// The place of the next entry of this key, where this is not the last one.
    next: usize,
}

/// The first and the last entry of a key that wait.
#[derive(Clone, Copy)]
struct Chain {
    first: usize,
    last: usize,
}

/// Pairs of a key and of who is to be told once the key is kept, in the order of adding. The list is this
/// project's own.
///
/// Entries lie in the order of adding and stay until the whole list is dropped, so each `add` takes room
/// for one entry more.
#[derive(Drop)]
pub struct Watches<B: Copy> {
    entries: Vec<Entry<B>>,
    /// The chain of each key that somebody waits for, by the key's word.
    index: HashMap<u64, Chain>,
}

impl<B: Copy> Model for Watches<B> {
    ghost use Rattle.std.specs.Prelude.{ℕ, List};
    ghost use Rattle.weak_eph.specs.Watching.{waiting, chain_at, IsIndexed};

    ghost Value = { List (ℕ × B) };

    ghost view = { λ w. waiting w.entries.items };

    ghost invariant = { λ w. IsIndexed w.entries.items (chain_at w.index) };
}

impl<B: Copy> Watches<B> {
    /// Nobody waits. Takes no memory yet.
    pub fn new(alloc: Global) -> Watches<B>
        ensures { result ≡ [] }
    {
        Watches {
            entries: Vec::new(alloc),
            index: HashMap::new(alloc),
        }
    }

    /// Adds a pair last. Err where memory is refused, which changes nothing.
    pub fn add(&mut self, key: Address, back: B) -> Result<(), AllocError>
        ensures ok { OnOk result (self.new ≡ self.old ++ (key, back) ∷ []) }
        ensures err { OnErr result (self.new ≡ self.old) }
    {
        let place = self.entries.len();
        let entry = Entry {
            key,
            back: Some(back),
            next: 0,
        };
        match self.index.get_mut(&word(key)) {
            Some(chain) => {
                self.entries.push(entry)?;
                self.entries[chain.last].next = place;
                chain.last = place;
                Ok(())
            }
            None => {
                self.entries.push(entry)?;
                let chain = Chain {
                    first: place,
                    last: place,
                };
                match self.index.insert(word(key), chain) {
                    Ok(_) => Ok(()),
                    Err(_) => {
                        let _ = self.entries.pop();
                        Err(AllocError)
                    }
                }
            }
        }
    }

    /// Removes the first pair of this key and gives its back. None exactly where nobody waits for the key.
    pub fn take(&mut self, key: Address) -> Option<B>
        ensures first { result ≡ lookup (eqb key) self.old }
        ensures rest { self.new ≡ remove_entry (eqb key) self.old }
    {
        match self.index.get_mut(&word(key)) {
            Some(chain) => {
                let first = chain.first;
                let back = self.entries[first].back;
                let next = self.entries[first].next;
                self.entries[first].back = None;
                if first == chain.last {
                    let _ = self.index.remove(&word(key));
                } else {
                    chain.first = next;
                }
                back
            }
            None => None,
        }
    }
}

/// The word under which the index has a key.
fn word(key: Address) -> u64
    ensures { result ≡ key * 8 + 1 }
{
    encode(Value::Object(key))
}

#[cfg(test)]
mod tests {
    use super::*;
    use std::test::Fail;

    #[test]
    fn first_added_first_taken(rt: HostRuntime) -> Result<(), Fail> {
        let mut watches = Watches::new(rt.alloc());
        watches.add(Address::at(5, 0, 2), 1)?;
        watches.add(Address::at(5, 0, 2), 2)?;
        let first: Option<u32> = watches.take(Address::at(5, 0, 2));
        let second = watches.take(Address::at(5, 0, 2));
        let third = watches.take(Address::at(5, 0, 2));
        assert_eq!(rt; (first, second, third), (Some(1), Some(2), None));
        Ok(())
    }

    #[test]
    fn keys_apart(rt: HostRuntime) -> Result<(), Fail> {
        let mut watches = Watches::new(rt.alloc());
        for (key, back) in [(2, 1), (4, 2), (2, 3), (6, 4), (4, 5), (2, 6)] {
            watches.add(Address::at(5, 0, key), back)?;
        }
        for (key, back) in [
            (4, Some(2)),
            (2, Some(1)),
            (2, Some(3)),
            (8, None),
            (4, Some(5)),
            (4, None),
            (6, Some(4)),
            (2, Some(6)),
            (2, None),
        ] {
            let taken: Option<u8> = watches.take(Address::at(5, 0, key));
            assert_eq!(rt; taken, back);
        }
        watches.add(Address::at(5, 0, 4), 7)?;
        assert_eq!(rt; watches.take(Address::at(5, 0, 4)), Some(7));
        Ok(())
    }
}
