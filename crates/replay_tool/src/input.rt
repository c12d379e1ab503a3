//! Reading the input as a trace.

ghost use Rattle.std.specs.Prelude.{◌≡◌, IfOk, IsErrOf};
ghost use Rattle.trace_model.specs.Known.{IsKnownTrace};
ghost use Rattle.trace_model.specs.Plain.{plain};
ghost use Rattle.replay_tool.specs.Input.{IsTrace, GaveInBounds};
ghost use Rattle.replay_tool.specs.Refusals.{IsInputCause, Why};
ghost use Rattle.replay_tool.specs.Streams.{stream};

use crate::refusal::Refusal;
use mem_base::Trace;
use mem_base::limits::MAX_INPUT;
use std::alloc::Global;
use streams::{ReadError, Source, read_all};
use trace_reader::{TraceError, read_trace};

/// Why there is no trace.
#[derive(Clone, Copy, Debug, PartialEq, Eq)]
pub enum Unread {
    Refused(Refusal),
    OutOfMemory,
}

/// Reads the whole input as a trace.
pub fn read_input<I: Source>(alloc: Global, input: &mut I) -> Result<Trace, Unread>
    ensures read { IfOk result (λ trace. IsTrace (stream (I.left input.old) (I.faults input.old))
        (stream (I.left input.new) (I.faults input.new)) (plain trace)) }
    ensures known { IfOk result IsKnownTrace }
    ensures refused { (why : Why) → IsErrOf result (Unread.Refused why) → IsInputCause why
        (stream (I.left input.old) (I.faults input.old)) (stream (I.left input.new) (I.faults input.new)) }
    ensures memory { IsErrOf result Unread.OutOfMemory → GaveInBounds
        (stream (I.left input.old) (I.faults input.old)) (stream (I.left input.new) (I.faults input.new)) }
{
    let bytes = match read_all(alloc, input, MAX_INPUT) {
        Ok(bytes) => bytes,
        Err(ReadError::Failed) => return Err(Unread::Refused(Refusal::ReadFault)),
        Err(ReadError::TooLong) => return Err(Unread::Refused(Refusal::TooLong)),
        Err(ReadError::OutOfMemory) => return Err(Unread::OutOfMemory),
    };
    match read_trace(alloc, bytes.as_slice()) {
        Ok(trace) => Ok(trace),
        Err(TraceError::At { line, cause }) => {
            Err(Unread::Refused(Refusal::FaultyLine(line, cause)))
        }
        Err(TraceError::OutOfMemory) => Err(Unread::OutOfMemory),
    }
}
