//! What may be wrong with a line.

ghost use Rattle.std.specs.Prelude.{◌≡◌};
ghost use Rattle.trace_types.specs.Words.{fault_text};

/// Why a line of a trace is refused. A refused line changes nothing. This project's own.
#[derive(Clone, Copy, Debug, PartialEq, Eq)]
pub enum Fault {
    /// The line has more than 1,024 bytes.
    TooLong,
    /// The line's number is above the limit of the run.
    TooManyLines,
    /// The line has a byte outside 32 to 126 and is no comment.
    NotText,
    /// The first field is no command word, or `version 2` stands on another line than the first.
    UnknownCommand,
    /// The command does not take this number of operands.
    OperandCount,
    /// An operand has not the form of a register from `r0` to `r4095`.
    BadRegister,
    /// An operand has not the form of a number in its range.
    BadNumber,
    /// An operand has not the form of a thread from 0 to 63.
    BadThread,
    /// A value is not of a kind that the command is for.
    WrongKind,
    /// The index is not below the object's length.
    BadIndex,
    /// A new object would have too many fields or bytes.
    BadLength,
    /// The object is not locked.
    NotLocked,
    /// The object is neither locked nor immobile, so it has no fixed place to note.
    NotFixed,
    /// The note is empty.
    BadNote,
    /// An operand is no generation, or the collection's arguments are not allowed.
    BadGeneration,
    /// The table has neither an entry of the key nor a free slot.
    TableFull,
}

impl Fault {
    /// The text of the fault in a message.
    pub fn text(self) -> &'static str
        ensures { result.now ≡ fault_text self }
    {
        match self {
            Fault::TooLong => "line too long",
            Fault::TooManyLines => "too many lines",
            Fault::NotText => "byte is not printable ASCII",
            Fault::UnknownCommand => "unknown command",
            Fault::OperandCount => "wrong number of operands",
            Fault::BadRegister => "bad register",
            Fault::BadNumber => "bad number",
            Fault::BadThread => "bad thread",
            Fault::WrongKind => "wrong kind of value",
            Fault::BadIndex => "index out of range",
            Fault::BadLength => "length too large",
            Fault::NotLocked => "not locked",
            Fault::NotFixed => "neither locked nor immobile",
            Fault::BadNote => "empty note",
            Fault::BadGeneration => "bad generation",
            Fault::TableFull => "table full",
        }
    }
}
