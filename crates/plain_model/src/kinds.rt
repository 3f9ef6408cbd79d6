//! Tests of kinds.

ghost use Rattle.std.specs.Prelude.{◌≡◌};
ghost use Rattle.trace_types.specs.Values as values;
ghost use Rattle.trace_types.specs.Kept as kept;

use trace_types::Kind;

/// Whether it is a guardian, ordered or not.
pub fn is_guardian(kind: Kind) -> bool
    ensures { result ≡ values.is_guardian kind }
{
    match kind {
        Kind::Guard => true,
        Kind::OrderedGuard => true,
        _ => false,
    }
}

/// Whether it is an unordered guardian.
pub fn is_unordered_kind(kind: Kind) -> bool
    ensures { result ≡ kept.is_unordered_kind kind }
{
    match kind {
        Kind::Guard => true,
        _ => false,
    }
}

/// Whether it is an ordered guardian.
pub fn is_ordered_kind(kind: Kind) -> bool
    ensures { result ≡ kept.is_ordered_kind kind }
{
    match kind {
        Kind::OrderedGuard => true,
        _ => false,
    }
}

/// Whether it is an ephemeron pair.
pub fn is_ephemeron(kind: Kind) -> bool
    ensures { result ≡ values.is_ephemeron kind }
{
    match kind {
        Kind::Eph => true,
        _ => false,
    }
}

/// Whether no collection moves it.
pub fn is_immobile(kind: Kind) -> bool
    ensures { result ≡ values.is_immobile kind }
{
    match kind {
        Kind::ImmVector => true,
        Kind::ImmBytes => true,
        _ => false,
    }
}

/// Whether its fields are bytes.
pub fn has_bytes(kind: Kind) -> bool
    ensures { result ≡ values.has_bytes kind }
{
    match kind {
        Kind::Bytes => true,
        Kind::ImmBytes => true,
        _ => false,
    }
}
