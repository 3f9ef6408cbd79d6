//! The search for a dirty card: the inner loop of a young collection.

ghost use Rattle.std.specs.Prelude.{◌≡◌, ℕ, ◌+◌, ◌<◌, ◌≤◌, length, slice_index, slice_index_or, [], IsTrue, IfSome, IfNone};
ghost use Rattle.cards.specs.Cards.{IsDirty, NoneDirty, has_mark, raised_bytes};

/// Whether these are eight clean cards: one comparison of 64 bits.
fn are_clean(eight: [u8; 8]) -> bool
    ensures { IsTrue result → ((k : ℕ) → k < 8 → slice_index eight k ≡ 255) }
{
    u64::from_le_bytes(eight) == u64::MAX
}

/// The least dirty card from `from` up to `to`, byte by byte.
fn dirty_between(bytes: &[u8], from: usize, to: usize, limit: u8) -> Option<usize>
    requires { to ≤ length bytes.now }
    ensures dirty { IfSome result (λ card. (from ≤ card) × IsDirty bytes.now limit card) }
    ensures least { IfSome result (λ card. NoneDirty bytes.now limit from card) }
    ensures none { IfNone result (NoneDirty bytes.now limit from to) }
{
    for card in from..to {
        if bytes[card] <= limit {
            return Some(card);
        }
    }
    None
}

/// How many of these eights are clean before the first that is not.
fn clean_eights(eights: &[[u8; 8]]) -> usize
    ensures within { result ≤ length eights.now }
    ensures clean { (i k : ℕ) → i < result → k < 8 → slice_index (slice_index_or eights.now i []) k ≡ 255 }
{
    for (count, eight) in eights.iter().enumerate() {
        if !are_clean(*eight) {
            return count;
        }
    }
    eights.len()
}

/// The card up to which the cards from `from` on are clean, as far as whole eights show it.
fn after_clean(bytes: &[u8], from: usize) -> usize
    requires { from ≤ length bytes.now }
    ensures start { from ≤ result }
    ensures end { result ≤ length bytes.now }
    ensures clean { (card : ℕ) → from ≤ card → card < result → slice_index bytes.now card ≡ 255 }
{
    let (eights, _) = bytes[from..].as_chunks::<8>();
    from + 8 * clean_eights(eights)
}

/// The least dirty card at or after `from`, passing eight clean cards at a time.
pub fn next_dirty_in(bytes: &[u8], from: usize, limit: u8) -> Option<usize>
    requires { limit < 255 }
    ensures dirty { IfSome result (λ card. (from ≤ card) × IsDirty bytes.now limit card) }
    ensures least { IfSome result (λ card. NoneDirty bytes.now limit from card) }
    ensures none { IfNone result (NoneDirty bytes.now limit from (length bytes.now)) }
{
    let mut at = from;
    while at < bytes.len() {
        let start = after_clean(bytes, at);
        let end = bytes.len().min(start + 8);
        let found = dirty_between(bytes, start, end, limit);
        if found.is_some() {
            return found;
        }
        at = end;
    }
    None
}

/// Sets each dirty card to another byte, from one dirty card to the next.
pub fn raise_in(bytes: &mut [u8], limit: u8, to: u8)
    requires { limit < 255 }
    ensures { bytes.new ≡ raised_bytes limit to bytes.old }
{
    let mut at = 0;
    while let Some(card) = next_dirty_in(bytes, at, limit) {
        bytes[card] = to;
        at = card + 1;
    }
}

/// Whether some card is not clean.
pub fn has_mark_in(bytes: &[u8]) -> bool
    ensures { result ≡ has_mark bytes.now }
{
    next_dirty_in(bytes, 0, 254).is_some()
}
