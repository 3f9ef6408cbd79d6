//! The table of forwarding words, and the steps on it.

ghost use Rattle.std.specs.Prelude.{◌≡◌, ℕ, ◌+◌, ◌<◌, ◌≤◌, length, None, Some, Contains, IfOk, IfSome, IfNone};
ghost use Rattle.live_forward.specs.Forwarding.{place_word, IsPlace, IsRanged, Owns, Records, Agrees, first_view, without_rights, split_off, claimed, stored, saw, joined};

use crate::plays::{Claim, Cut, Forwarding, Gather, Load, Settle, Store};
use crate::seat::SweepSeat;
use crate::view::View;
use atomic_table::Table;
use gc_words::{Address, Value, decode, encode};
use std::alloc::{AllocError, Global};
use std::marker::Model;

/// Words that all sweepers of a collection share. Word 0 counts the claims. The words of range k follow
/// those of range k - 1, range 0 begins at word 1, and each range is written by one seat alone, the one
/// that claimed its number. A word is 0, or the encoded new place of one object.
#[derive(Drop)]
pub struct ForwardTable {
    table: Table<u64, View, Vec<usize>, Forwarding, Global>,
}

impl Model for ForwardTable {
    ghost use Rattle.std.specs.Prelude.{◌≡◌, ◌+◌, ◌^◌, ◌<◌, length, sum};
    ghost use Rattle.live_forward.specs.Seats.{Words};

    ghost Value = { Words };

    ghost view = { λ t. record { table = t.table.shared.table_id; ranges = t.table.shared.key.items } };

    ghost invariant = { λ t. (t.table.shared.table_id.words ≡ 1 + sum t.table.shared.key.items)
        × (t.table.shared.table_id.slots ≡ 0)
        × (length t.table.shared.key.items < 2 ^ 63) };
}

impl ForwardTable {
    /// The table, with all words 0 and no number claimed, and the first seat, which has as many rights to
    /// claim as there are ranges. Takes memory.
    pub fn new(alloc: Global, ranges: &[usize]) -> Result<(ForwardTable, SweepSeat), AllocError>
        requires { 0 < length ranges.now }
        ensures ranges { IfOk result (λ t. t.0.ranges ≡ ranges.now) }
        ensures table { IfOk result (λ t. t.1.table ≡ t.0.table) }
        ensures view { IfOk result (λ t. t.1.view ≡ first_view ranges.now) }
    {
        let mut count = 1usize;
        for size in ranges {
            count = count.checked_add(*size).ok_or(AllocError)?;
        }
        let words = Vec::from_elem(alloc, 0u64, count)?;
        let key = ranges.to_vec(alloc)?;
        let (table, seat) = Table::of_words(alloc, words.as_slice(), &key)?;
        Ok((ForwardTable { table }, SweepSeat { seat }))
    }

    /// A new seat that knows what this one forwarded and saw, and gets all its rights to claim.
    pub fn split(&self, seat: &mut SweepSeat) -> SweepSeat
        requires { seat.old.table ≡ self.now.table }
        ensures table { seat.new.table ≡ seat.old.table }
        ensures new_table { result.table ≡ seat.old.table }
        ensures view { seat.new.view ≡ without_rights seat.old.view }
        ensures new_view { result.view ≡ split_off seat.old.view }
    {
        let seat = self.table.shared.split_seat::<Cut>(&mut seat.seat);
        SweepSeat { seat }
    }

    /// Gives the seat a number that no other seat has, and with it the range of that number. One fetch
    /// and add on word 0.
    pub fn claim(&self, seat: &mut SweepSeat) -> u64
        requires table { seat.old.table ≡ self.now.table }
        requires unclaimed { seat.old.view.number ≡ None }
        requires rights { 0 < seat.old.view.rights }
        ensures table { seat.new.table ≡ seat.old.table }
        ensures view { seat.new.view ≡ claimed result seat.old.view }
        ensures floor { seat.old.view.floor ≤ result }
        ensures has_range { result + seat.old.view.rights ≤ length seat.old.view.ranges }
        // Where no other seat has a right to claim, as where the seats claim and are split in turn.
        ensures in_turn { seat.old.view.floor + seat.old.view.rights ≡ length seat.old.view.ranges
            → result ≡ seat.old.view.floor }
    {
        self.table.shared.fetch_add::<Claim>(&mut seat.seat, 0, 1)
    }

    /// Stores the new place of an object of the seat's own range, once for each word.
    pub fn store_own(&self, seat: &mut SweepSeat, word: usize, place: Address)
        requires table { seat.old.table ≡ self.now.table }
        requires own { Owns seat.old.view word }
        requires fresh { ¬ Records seat.old.view.own word }
        ensures table { seat.new.table ≡ seat.old.table }
        ensures view { seat.new.view ≡ stored word place seat.old.view }
    {
        let code = encode(Value::Object(place));
        self.table.shared.store::<Store>(&mut seat.seat, word, code);
    }

    /// The place in a word of any range. None where the word was 0 at this step, so never where the seat
    /// stored the word or has seen its place.
    pub fn load(&self, seat: &mut SweepSeat, word: usize) -> Option<Address>
        requires table { seat.old.table ≡ self.now.table }
        requires word { IsRanged self.now.ranges word }
        ensures table { seat.new.table ≡ seat.old.table }
        ensures none { IfNone result (seat.new.view ≡ seat.old.view) }
        ensures some { IfSome result (λ place. seat.new.view ≡ saw word place seat.old.view) }
        ensures own { (x : ℕ) → Contains seat.old.view.own (word, x) → result ≡ Some x }
        ensures seen { (x : ℕ) → Contains seat.old.view.seen (word, x) → result ≡ Some x }
    {
        let found = self.table.shared.load::<Load>(&mut seat.seat, word);
        if found == 0 {
            None
        } else {
            Some(place_in(found))
        }
    }

    /// Takes in what another seat forwarded and saw; the other is spent. Afterwards what the seat knows
    /// agrees with itself: each word has one place, and one of the own range is what the seat stored.
    pub fn join(&self, seat: &mut SweepSeat, other: SweepSeat)
        requires table { seat.old.table ≡ self.now.table }
        requires other { other.table ≡ self.now.table }
        ensures table { seat.new.table ≡ seat.old.table }
        ensures view { seat.new.view ≡ joined seat.old.view other.view }
        ensures agrees { Agrees seat.new.view }
    {
        let SweepSeat { seat: other } = other;
        self.table.shared.join_seat::<Gather>(&mut seat.seat, other);
        // The join of the kit's table tells nothing; a look at word 0 tells that the view agrees.
        self.table.shared.load::<Settle>(&mut seat.seat, 0);
    }
}

/// The place that a word names.
fn place_in(word: u64) -> Address
    requires { IsPlace word }
    ensures { place_word result ≡ word }
{
    let Some(value) = decode(word) else {
        unreachable!()
    };
    match value {
        Value::Object(place) => place,
        _ => unreachable!(),
    }
}
