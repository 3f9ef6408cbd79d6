//! Spaces: what the objects of one segment have in common.

ghost use Rattle.std.specs.Prelude.{◌≡◌, ◌<◌, ◌≤◌};
ghost use Rattle.segment.specs.Layout.{space_of, space_index, has_header, skip_of};

use trace_types::Kind;

/// A space: all objects of a segment are of one. So a segment says of each of its objects whether it has a
/// header, how its fields are looked at and whether it may move, as in Chez Scheme ("Don't Stop the BIBOP",
/// 1994). Which spaces there are is this project's own.
#[derive(Clone, Copy, Debug, PartialEq, Eq)]
pub enum Space {
    /// Pairs, without headers.
    Pair,
    /// Weak pairs, without headers.
    Weak,
    /// Ephemeron pairs, without headers.
    Ephemeron,
    /// Boxes, vectors and guardians.
    Typed,
    /// Byte objects.
    Raw,
    /// Vectors that stay at their place.
    Immobile,
    /// Byte objects that stay at their place.
    ImmobileRaw,
    /// Queue cells, without headers.
    Cell,
}

impl Space {
    /// The space in which objects of a kind lie.
    pub fn of(kind: Kind) -> Space
        ensures { result ≡ space_of kind }
    {
        match kind {
            Kind::Pair => Space::Pair,
            Kind::Weak => Space::Weak,
            Kind::Eph => Space::Ephemeron,
            Kind::Boxed | Kind::Vector | Kind::Guard | Kind::OrderedGuard => Space::Typed,
            Kind::Bytes => Space::Raw,
            Kind::ImmVector => Space::Immobile,
            Kind::ImmBytes => Space::ImmobileRaw,
            Kind::Cell => Space::Cell,
        }
    }

    /// The number of the space, 0 to 7: spaces have an order, for tables by space.
    #[inline(always)]
    pub fn index(self) -> usize
        ensures value { result ≡ space_index self }
        ensures range { result < 8 }
    {
        match self {
            Space::Pair => 0,
            Space::Weak => 1,
            Space::Ephemeron => 2,
            Space::Typed => 3,
            Space::Raw => 4,
            Space::Immobile => 5,
            Space::ImmobileRaw => 6,
            Space::Cell => 7,
        }
    }

    /// Whether objects of the space begin with a header.
    #[inline(always)]
    pub fn has_header(self) -> bool
        ensures { result ≡ has_header self }
    {
        match self {
            Space::Pair | Space::Weak | Space::Ephemeron | Space::Cell => false,
            Space::Typed | Space::Raw | Space::Immobile | Space::ImmobileRaw => true,
        }
    }

    /// How many words stand before the fields: 1 for a header, else 0.
    #[inline(always)]
    pub(crate) fn skip(self) -> usize
        ensures value { result ≡ skip_of self }
        ensures range { result ≤ 1 }
    {
        usize::from(self.has_header())
    }
}
