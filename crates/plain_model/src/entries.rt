//! Lists of entries by birth.

ghost use Rattle.std.specs.Prelude.{◌≡◌, ◌<◌, OnOk, OnErr, MatchOption, Some, None, IsTrue};
ghost use Rattle.std.specs.FinMap.{find, put, is_sorted};
ghost use Rattle.std.specs.Ordering.{nat_cmp};
ghost use Rattle.plain_model.specs.Plain.{place, HasEntry};

use std::alloc::AllocError;

// Where the first entry of this birth stands, in a list of any order.
pub(crate) fn index_of<X>(entries: &[(u32, X)], birth: u32) -> Option<usize>
    ensures { MatchOption result (find nat_cmp birth entries.now ≡ None) (λ i. HasEntry entries.now i birth) }
{
    for (index, entry) in entries.iter().enumerate() {
        if entry.0 == birth {
            return Some(index);
        }
    }
    None
}

// How many entries of an ascending list are of a lesser birth.
fn place_of<X>(entries: &[(u32, X)], birth: u32) -> usize
    requires { IsTrue (is_sorted nat_cmp entries.now) }
    ensures { result ≡ place birth entries.now }
{
    let mut low = 0;
    let mut high = entries.len();
    while low < high {
        let middle = low + (high - low) / 2;
        if entries[middle].0 < birth {
            low = middle + 1;
        } else {
            high = middle;
        }
    }
    low
}

// Where the entry of this birth stands in an ascending list, by halving.
pub(crate) fn index_in_order<X>(entries: &[(u32, X)], birth: u32) -> Option<usize>
    requires { IsTrue (is_sorted nat_cmp entries.now) }
    ensures { MatchOption result (find nat_cmp birth entries.now ≡ None) (λ i. HasEntry entries.now i birth) }
{
    let index = place_of(entries, birth);
    if index >= entries.len() {
        return None;
    }
    if entries[index].0 != birth {
        return None;
    }
    Some(index)
}

// Puts an entry into its place. Refused, the list is as it was.
pub(crate) fn put_entry<X: Drop>(
    entries: &mut Vec<(u32, X)>,
    birth: u32,
    value: X,
) -> Result<(), AllocError>
    requires { IsTrue (is_sorted nat_cmp entries.old.items) }
    ensures put { OnOk result (entries.new.items ≡ put nat_cmp birth value entries.old.items) }
    ensures refused { OnErr result (entries.new.items ≡ entries.old.items) }
{
    match index_in_order(entries, birth) {
        Some(index) => {
            entries[index].1 = value;
            Ok(())
        }
        None => {
            let place = place_of(entries, birth);
            entries.insert(place, (birth, value))?;
            Ok(())
        }
    }
}
