//! Kinds of object.

ghost use Rattle.std.specs.Prelude.{◌≡◌};
ghost use Rattle.trace_types.specs.Words.{kind_word};

/// What an object is. A `Cell` is the heap's own: it holds one entry of a guardian's queue, and no
/// trace makes or sees it.
///
/// Weak pairs, ephemerons and guardians are those of Chez Scheme. Ordered guardians are this project's
/// own in what they mean, and so are all words.
#[derive(Clone, Copy, Debug, PartialEq, Eq)]
pub enum Kind {
    /// A pair: car and cdr, both strong.
    Pair,
    /// A weak pair: a weak car and a strong cdr.
    Weak,
    /// An ephemeron pair: key and value.
    Eph,
    /// A box: one field.
    Boxed,
    /// A vector.
    Vector,
    /// A byte object, which refers to nothing.
    Bytes,
    /// A vector that no collection moves.
    ImmVector,
    /// A byte object that no collection moves.
    ImmBytes,
    /// An unordered guardian.
    Guard,
    /// An ordered guardian.
    OrderedGuard,
    /// A cell of a guardian's queue.
    Cell,
}

impl Kind {
    /// The word of the kind in traces and in printed text; `cell` for a queue cell.
    pub fn word(self) -> &'static str
        ensures { result.now ≡ kind_word self }
    {
        match self {
            Kind::Pair => "pair",
            Kind::Weak => "weak",
            Kind::Eph => "eph",
            Kind::Boxed => "box",
            Kind::Vector => "vec",
            Kind::Bytes => "bytes",
            Kind::ImmVector => "ivec",
            Kind::ImmBytes => "ibytes",
            Kind::Guard => "guard",
            Kind::OrderedGuard => "oguard",
            Kind::Cell => "cell",
        }
    }
}
