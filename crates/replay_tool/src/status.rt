//! How a run ends: the statuses, their numbers, and why writing is given up.

ghost use Rattle.std.specs.Prelude.{◌≡◌};
ghost use Rattle.replay_tool.specs.declared.status.Halt.TheVariants as halts;
ghost use Rattle.replay_tool.specs.Status.{number_of, halted};

use std::alloc::AllocError;
use streams::Failed;

/// How a run ended.
#[derive(Clone, Copy, Debug, PartialEq, Eq)]
pub enum Status {
    /// The trace was replayed to its end, without a fault.
    Done,
    /// The trace was replayed up to a fault.
    Faulted,
    /// The words are none that the tool knows.
    Usage,
    /// The input has a faulty line.
    FaultyLine,
    /// A read failed.
    ReadFault,
    /// A write failed, of the report or of the line that tells a refusal.
    WriteFault,
    /// Memory ran out.
    OutOfMemory,
    /// The input has more bytes than it may.
    TooLong,
}

impl Status {
    /// The number that a program ends with.
    pub fn number(self) -> u8
        ensures { result ≡ number_of self }
    {
        match self {
            Status::Done => 0,
            Status::Faulted => 1,
            Status::Usage => 2,
            Status::FaultyLine => 3,
            Status::ReadFault => 4,
            Status::WriteFault => 5,
            Status::OutOfMemory => 6,
            Status::TooLong => 7,
        }
    }
}

/// Why writing was given up.
#[derive(Clone, Copy, Debug, PartialEq, Eq)]
pub enum Halt {
    WriteFault,
    OutOfMemory,
}

impl Halt {
    /// The status of the run.
    pub fn status(self) -> Status
        ensures { result ≡ halted self }
    {
        match self {
            Halt::WriteFault => Status::WriteFault,
            Halt::OutOfMemory => Status::OutOfMemory,
        }
    }
}

impl From<Failed> for Halt {
    ghost from_gives = { λ _ h. h ≡ halts.WriteFault };

    fn from(_failed: Failed) -> Halt {
        Halt::WriteFault
    }
}

impl From<AllocError> for Halt {
    ghost from_gives = { λ _ h. h ≡ halts.OutOfMemory };

    fn from(_error: AllocError) -> Halt {
        Halt::OutOfMemory
    }
}
