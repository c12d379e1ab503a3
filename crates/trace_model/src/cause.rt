/// Why a line of a trace is refused. Where several hold, the first row of the table in `specs/Causes.antt`
/// is the cause: its operands' own causes stand there in one row, from left to right.
#[derive(Clone, Copy, Debug, PartialEq, Eq)]
pub enum TraceCause {
    /// The last line has no end.
    BadEnd,
    /// The first line is not the header.
    BadHeader,
    /// A byte is neither a blank nor a printing ASCII character.
    BadByte,
    /// The first word begins no line, or a word is none of those that may stand at its place.
    UnknownWord,
    /// An operation stands before the first track.
    Misplaced,
    /// The line has too few or too many words, or an empty one.
    BadWords,
    /// A number is not spelt in decimal without a zero in front, or does not fit 64 bits.
    BadNumber,
    /// Bytes are not spelt as an even number of hexadecimal digits in lower case.
    BadHex,
    /// A name has a byte that no name may have, or too many.
    BadName,
    /// A number or a count of bytes is out of its range.
    BadRange,
    /// A filter rule is not spelt as one.
    BadRule,
    /// A poke would write the letter of a domain where a block keeps its own.
    ForgedLetter,
    /// A line or a return has no frame that it speaks of.
    NoFrame,
    /// A track has the name of an earlier one.
    SameTrack,
    /// A pick names no track.
    NoTrack,
    /// The line passes a limit on tracks, operations or the like.
    TooMany,
}

impl TraceCause {
    ghost use Rattle.std.specs.Prelude.{◌≡◌};
    ghost use Rattle.trace_model.specs.Cause.{cause_word};

    /// The cause's name, as refusals print it.
    pub fn word(self) -> &'static str
        ensures { result.now ≡ cause_word self }
    {
        match self {
            TraceCause::BadEnd => "BadEnd",
            TraceCause::BadHeader => "BadHeader",
            TraceCause::BadByte => "BadByte",
            TraceCause::UnknownWord => "UnknownWord",
            TraceCause::Misplaced => "Misplaced",
            TraceCause::BadWords => "BadWords",
            TraceCause::BadNumber => "BadNumber",
            TraceCause::BadHex => "BadHex",
            TraceCause::BadName => "BadName",
            TraceCause::BadRange => "BadRange",
            TraceCause::BadRule => "BadRule",
            TraceCause::ForgedLetter => "ForgedLetter",
            TraceCause::NoFrame => "NoFrame",
            TraceCause::SameTrack => "SameTrack",
            TraceCause::NoTrack => "NoTrack",
            TraceCause::TooMany => "TooMany",
        }
    }
}
