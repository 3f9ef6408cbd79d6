//! Weak fields, as settling sees them.

ghost use Rattle.std.specs.Prelude.{◌≡◌, ℕ, ◌<◌, List, eqb, length};
ghost use Rattle.std.specs.Map.{lookup};
ghost use Rattle.weak_eph.specs.declared.fields.WeakSlot.{WeakSlot};
ghost use Rattle.weak_eph.specs.declared.fields.WeakState.TheVariants.{Waiting, Fixed, Broken};
ghost use Rattle.weak_eph.specs.Slots.{HasKey, HasState, with_state};

use gc_words::Address;

/// What has become of a weak field or of an ephemeron.
#[derive(Clone, Copy, Debug, PartialEq, Eq)]
pub enum WeakState {
    /// Whether its key is kept is not known yet.
    Waiting,
    /// Its key is kept, and the field names the key's new address.
    Fixed(Address),
    /// Its key died, and the broken weak pointer stands in the field; of an ephemeron in both fields.
    Broken,
}

/// A weak field or an ephemeron: the address that its key had before the collection, and its state.
#[derive(Clone, Copy, Debug, PartialEq, Eq)]
pub struct WeakSlot {
    /// The address that the key had before the collection.
    pub key: Address,
    /// What has become of the field.
    pub state: WeakState,
}

/// The weak fields and ephemerons that wait for their keys at the end of a collection.
///
/// Seen as a list of slots, and as a finite map from the kept keys to their new addresses, a list of pairs
/// of which the first one of a key counts.
pub trait WeakFields {
    ghost slots: { Self → List WeakSlot };

    ghost kept: { Self → List (ℕ × ℕ) };

    /// How many slots there are.
    fn pending(&self) -> usize
        ensures { result ≡ length (slots self.now) };

    /// The key of slot n.
    fn key(&self, n: usize) -> Address
        requires { n < length (slots self.now) }
        ensures { HasKey (slots self.now) n result };

    /// The new address of a key. None exactly where the key is not kept.
    fn kept_at(&self, key: Address) -> Option<Address>
        ensures { result ≡ lookup (eqb key) (kept self.now) };

    /// Puts the new address into slot n, which waits.
    fn fix(&mut self, n: usize, new: Address)
        requires { HasState (slots self.old) n Waiting }
        ensures slots { slots self.new ≡ with_state (slots self.old) n (Fixed new) }
        ensures kept { kept self.new ≡ kept self.old };

    /// Puts the broken weak pointer into slot n, which waits; of an ephemeron into both fields.
    fn break_slot(&mut self, n: usize)
        requires { HasState (slots self.old) n Waiting }
        ensures slots { slots self.new ≡ with_state (slots self.old) n Broken }
        ensures kept { kept self.new ≡ kept self.old };
}
