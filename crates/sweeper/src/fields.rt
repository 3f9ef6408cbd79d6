//! The fields of a forwarded object.

ghost use Rattle.std.specs.Prelude.{◌≡◌, ℕ, ◌<◌, ◌≤◌, false, true, None, Some, IfNone, IfSome, OnOk, length, slice_index};
ghost use Rattle.segment.specs.Layout.{words_after};
ghost use Rattle.directory.specs.Directories.{found_at};
ghost use Rattle.directory.specs.Nears.{IsNear};
ghost use Rattle.gc_mail.specs.Recipients.{owner};
ghost use Rattle.gc_words.specs.Word.{value_of};
ghost use Rattle.territory.specs.Finishing.{target_of};
ghost use Rattle.territory.specs.Territories.{words_of};
ghost use Rattle.sweep_model.specs.World.{is_strong, object_in};
ghost use Rattle.sweep_share.specs.Shares.{start_in};
ghost use Rattle.sweeper.specs.Sweepers.{CanKeep, FieldDone, asked_by, asked_in};

use crate::Sweeper;
use directory::{Directory, Found, Near};
use gc_mail::{Message, Slot};
use gc_words::{Address, Value, decode};
use std::alloc::AllocError;
use trace_types::Kind;

/// The strong fields of an object: not the car of a weak pair, nor the key and value of an ephemeron, nor bytes. They
/// begin at the first number, and end before the second.
#[inline(always)]
pub(crate) fn strong_fields(kind: Kind, length: u32) -> (u32, u32)
    requires { length ≤ 4000000 }
    ensures order { result.0 ≤ result.1 }
    ensures within { result.1 ≤ words_after kind length }
    ensures strong { (i : ℕ) → result.0 ≤ i → i < result.1 → is_strong kind i ≡ true }
    ensures before { (i : ℕ) → i < result.0 → is_strong kind i ≡ false }
    ensures after { (i : ℕ) → result.1 ≤ i → i < words_after kind length → is_strong kind i ≡ false }
{
    match kind {
        Kind::Pair | Kind::Cell => (0, 2),
        Kind::Weak => (1, 2),
        Kind::Boxed => (0, 1),
        Kind::Vector | Kind::ImmVector => (0, length),
        Kind::Guard | Kind::OrderedGuard => (0, 3),
        Kind::Eph | Kind::Bytes | Kind::ImmBytes => (0, 0),
    }
}

/// The object to which a word refers.
#[inline(always)]
pub(crate) fn referred(word: u64) -> Option<Address>
    ensures { result ≡ object_in (value_of word) }
{
    match decode(word)? {
        Value::Object(target) => Some(target),
        _ => None,
    }
}

/// A field that refers to a collected object, and what the directory tells of that.
#[derive(Clone, Copy)]
pub(crate) struct Asked {
    pub index: u32,
    pub target: Address,
    pub found: Found,
    /// The generation to which the object goes.
    pub refers: u8,
}

/// The first of these words, from one on and before another, that refers to a collected object.
#[inline(always)]
pub(crate) fn first_asked(
    words: &[u64],
    from: u32,
    end: u32,
    near: &mut Near,
    directory: &Directory,
) -> Option<Asked>
    requires end { end ≤ length words.now }
    requires near { IsNear directory.now near.old }
    ensures within { IfSome result (λ a. (from ≤ a.index) × (a.index < end)) }
    ensures target { IfSome result (λ a. asked_by directory.now (slice_index words.now a.index) ≡ Some a.target) }
    ensures found { IfSome result (λ a. found_at directory.now a.target ≡ Some a.found) }
    ensures refers { IfSome result (λ a. a.refers ≡ target_of directory.now.targets a.found.generation) }
    ensures generation_in { IfSome result (λ a. a.refers ≤ 8) }
    ensures first { IfSome result (λ a. (i : ℕ) → from ≤ i → i < a.index
        → asked_by directory.now (slice_index words.now i) ≡ None) }
    ensures none { IfNone result ((i : ℕ) → from ≤ i → i < end
        → asked_by directory.now (slice_index words.now i) ≡ None) }
    ensures near { IsNear directory.now near.new }
{
    let reach = directory.reach();
    for index in from..end {
        let word = words[index as usize];
        let Some(target) = reach.object(word) else {
            continue;
        };
        if let Some(found) = directory.find_near(near, target) {
            return Some(Asked {
                index,
                target,
                found,
                refers: near.target,
            });
        }
    }
    None
}

impl Sweeper {
    /// Handles a field of a forwarded object, of which `word` is what stands at the old place.
    #[inline(always)]
    pub(crate) fn sweep_word(
        &mut self,
        object: Address,
        copy: Address,
        index: u32,
        word: u64,
        near: &mut Near,
        directory: &Directory,
    ) -> Result<(), AllocError>
        requires same { self.old.places.directory ≡ directory.now }
        requires near { IsNear directory.now near.old }
        requires asks { asked_in self.old.places.directory (start_in self.old.share object) index
            ≡ asked_by directory.now word }
        requires field { index < length (words_of (start_in self.old.share copy)) }
        requires own { (t : ℕ) → asked_by directory.now word ≡ Some t
            → owner self.old.share.sweepers t ≡ self.old.share.number → CanKeep self.old t }
        ensures done { OnOk result (FieldDone self.old self.new object copy index) }
        ensures near { IsNear directory.now near.new }
    {
        let Some(target) = referred(word) else {
            return Ok(());
        };
        let Some(found) = directory.find_near(near, target) else {
            return Ok(());
        };
        let asked = Asked {
            index,
            target,
            found,
            refers: near.target,
        };
        self.sweep_field(object, copy, asked)
    }

    /// Handles a field of a forwarded object that refers to a collected one: an object of its own is kept and its place
    /// put into the copy, and another sweeper is asked for one of its own.
    #[inline(always)]
    pub(crate) fn sweep_field(
        &mut self,
        object: Address,
        copy: Address,
        asked: Asked,
    ) -> Result<(), AllocError>
        requires target { asked_in self.old.places.directory (start_in self.old.share object) asked.index
            ≡ Some asked.target }
        requires found { found_at self.old.places.directory asked.target ≡ Some asked.found }
        requires refers { asked.refers ≡ target_of self.old.places.directory.targets asked.found.generation }
        requires generation_in { asked.refers ≤ 8 }
        requires field { asked.index < length (words_of (start_in self.old.share copy)) }
        requires own { owner self.old.share.sweepers asked.target ≡ self.old.share.number
            → CanKeep self.old asked.target }
        ensures { OnOk result (FieldDone self.old self.new object copy asked.index) }
    {
        if !self.share.is_own(asked.target) {
            self.outbox.send(Message::Forward {
                target: asked.target,
                back: Slot::Field {
                    object,
                    index: asked.index,
                },
            })?;
            return Ok(());
        }
        let place = self.keep(asked.target, asked.found.word, asked.refers)?;
        self.put(copy, asked.index, place, asked.refers);
        Ok(())
    }
}
