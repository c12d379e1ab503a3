//! Why a run does no event, and the one line that tells it.

ghost use Rattle.std.specs.Prelude.{◌≡◌, ◌++◌, IfOk, IsErrOf};
ghost use Rattle.replay_tool.specs.Refusals.{status_of, line_of, faulty_line_text, TakesMemory};
ghost use Rattle.replay_tool.specs.Status.{Tells};
ghost use Rattle.replay_tool.specs.Streams.{stream};

use crate::status::{Halt, Status};
use report_text::push_number;
use std::alloc::{AllocError, Global};
use streams::{Sink, write_all};
use trace_model::TraceCause;

/// Why a run does no event.
#[derive(Clone, Copy, Debug, PartialEq, Eq)]
pub enum Refusal {
    /// The words are none that the tool knows.
    Usage,
    /// The first faulty line of the trace, from 1, and its first fault.
    FaultyLine(u64, TraceCause),
    /// A read failed.
    ReadFault,
    /// The input has more bytes than it may.
    TooLong,
}

// The line that tells which line of a trace is faulty, and why.
#[tactic(auto, unfolding(crate::specs::Refusals::faulty_line_text))]
fn faulty_line(alloc: Global, line: u64, cause: TraceCause) -> Result<Vec<u8>, AllocError>
    ensures { IfOk result (λ text. text.items ≡ faulty_line_text line cause) }
{
    let mut text = Vec::from_slice(alloc, b"pymtrace: line ")?;
    push_number(&mut text, line)?;
    text.extend_from_slice(b": ")?;
    text.extend_from_slice(cause.word().as_bytes())?;
    text.push(b'\n')?;
    Ok(text)
}

impl Refusal {
    /// The status of a run that was refused so.
    pub fn status(self) -> Status
        ensures { result ≡ status_of self }
    {
        match self {
            Refusal::Usage => Status::Usage,
            Refusal::FaultyLine(_, _) => Status::FaultyLine,
            Refusal::ReadFault => Status::ReadFault,
            Refusal::TooLong => Status::TooLong,
        }
    }

    /// Writes the line that tells the refusal.
    pub fn tell<E: Sink>(self, alloc: Global, err: &mut E) -> Result<(), Halt>
        ensures told { Tells (line_of self) (stream (E.written err.old) (E.faults err.old))
            (stream (E.written err.new) (E.faults err.new)) result }
        ensures memory { IsErrOf result Halt.OutOfMemory → TakesMemory self }
    {
        match self {
            Refusal::Usage => write_all(err, b"pymtrace: usage\n")?,
            Refusal::FaultyLine(line, cause) => {
                let text = faulty_line(alloc, line, cause)?;
                write_all(err, text.as_slice())?;
            }
            Refusal::ReadFault => write_all(err, b"pymtrace: read fault\n")?,
            Refusal::TooLong => write_all(err, b"pymtrace: input too long\n")?,
        }
        Ok(())
    }
}
