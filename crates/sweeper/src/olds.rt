//! The fields of an older object that a collection looks at.

ghost use Rattle.std.specs.Prelude.{◌≡◌, ◌↔◌, ◌<◌, ◌≤◌, Some, IfNone, IfSome, IsSome, IsTrue, length, slice_index};
ghost use Rattle.std.specs.FinMap as map;
ghost use Rattle.territory.specs.Territories.{card_byte, words_of};
ghost use Rattle.directory.specs.Nears.{IsNear};
ghost use Rattle.sweeper.specs.Sweepers.{asked_by};
ghost use Rattle.sweeper.specs.Starting.{AskNothingOld};

use crate::fields::{Asked, first_asked};
use cards::WORDS_PER_CARD;
use directory::{Directory, Near};
use gc_words::Address;
use territory::Territory;

/// How many words are looked at in one go.
const WINDOW: u32 = WORDS_PER_CARD as u32;

/// Whether a word of an object stands under a card that tells of a collected generation.
fn is_marked(territory: &Territory, object: Address, index: u32, directory: &Directory) -> bool
    requires start { IsSome (map.get territory.now.starts object) }
    requires index_in { index < length (words_of (map.get territory.now.starts object)) }
    ensures { IsTrue result ↔ (card_byte territory.now object index ≤ directory.now.targets.cg) }
{
    match territory.next_dirty_word(object, index, directory.cg()) {
        Some(dirty) => dirty == index,
        None => false,
    }
}

/// The first word of an object, from one on and before another, that stands under a card that tells of a collected
/// generation and refers to a collected object. From a word under such a card on, as many words as a card has are looked
/// at in one go; then the cards are asked for the next. A word that refers to a collected object is taken only where its
/// own card tells so, too.
pub(crate) fn next_old_asked(
    territory: &Territory,
    object: Address,
    from: u32,
    end: u32,
    near: &mut Near,
    directory: &Directory,
) -> Option<Asked>
    requires near { IsNear directory.now near.old }
    requires start { IsSome (map.get territory.now.starts object) }
    requires end { end ≤ length (words_of (map.get territory.now.starts object)) }
    ensures within { IfSome result (λ a. (from ≤ a.index) × (a.index < end)) }
    ensures marked { IfSome result (λ a. card_byte territory.now object a.index ≤ directory.now.targets.cg) }
    ensures target { IfSome result (λ a. asked_by directory.now
        (slice_index (words_of (map.get territory.now.starts object)) a.index) ≡ Some a.target) }
    ensures first { IfSome result (λ a. AskNothingOld directory.now territory.now object from a.index) }
    ensures none { IfNone result (AskNothingOld directory.now territory.now object from end) }
    ensures near { IsNear directory.now near.new }
{
    let fields = territory.fields(object);
    let mut next = from;
    while next < end {
        let index = territory.next_dirty_word(object, next, directory.cg())?;
        let stop = end.min(index.saturating_add(WINDOW));
        let found = first_asked(fields, index, stop, near, directory);
        let Some(asked) = found else {
            next = stop;
            continue;
        };
        let at = asked.index;
        if is_marked(territory, object, at, directory) {
            return Some(asked);
        }
        next = at + 1;
    }
    None
}
