/// Why a line of dumps is refused. Where several hold, the first of them in this order is the cause, but a line's
/// operands are read from left to right: of `BadNumber` to `BadFrame` the first operand's that is wrong is the cause.
#[derive(Clone, Copy, Debug, PartialEq, Eq)]
pub enum LoadCause {
    /// The input ends where a line is due.
    Short,
    /// The last line has no end.
    BadEnd,
    /// A line stands where no dump is due any more.
    Trailing,
    /// The first line of a dump is not the header.
    BadHeader,
    /// A byte is neither a blank nor a printing ASCII character.
    BadByte,
    /// The first word is none of those that a line may begin with at its place.
    UnknownWord,
    /// The line has too few or too many words, or an empty one.
    BadWords,
    /// A number is not spelt in decimal without a zero in front, or does not fit 64 bits.
    BadNumber,
    /// A number is out of its range.
    BadRange,
    /// A name has a byte that no name may have, or too many.
    BadName,
    /// A frame is not a file, a colon and a line.
    BadFrame,
    /// The trace has more or fewer frames than its snapshot keeps.
    BadFrames,
    /// The trace does not stand after the one before it.
    OutOfOrder,
    /// The dump has more traces than a snapshot may have.
    TooMany,
}

impl LoadCause {
    ghost use Rattle.std.specs.Prelude.{◌≡◌};
    ghost use Rattle.dump_model.specs.Cause.{cause_word};

    /// The cause's name, as refusals print it.
    pub fn word(self) -> &'static str
        ensures { result.now ≡ cause_word self }
    {
        match self {
            LoadCause::Short => "Short",
            LoadCause::BadEnd => "BadEnd",
            LoadCause::Trailing => "Trailing",
            LoadCause::BadHeader => "BadHeader",
            LoadCause::BadByte => "BadByte",
            LoadCause::UnknownWord => "UnknownWord",
            LoadCause::BadWords => "BadWords",
            LoadCause::BadNumber => "BadNumber",
            LoadCause::BadRange => "BadRange",
            LoadCause::BadName => "BadName",
            LoadCause::BadFrame => "BadFrame",
            LoadCause::BadFrames => "BadFrames",
            LoadCause::OutOfOrder => "OutOfOrder",
            LoadCause::TooMany => "TooMany",
        }
    }
}
