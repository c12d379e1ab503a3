//! A whole trace, read line by line in one pass: the header, then each line with its number, until one
//! is faulty or none is left.
ghost use Rattle.std.specs.Prelude.{◌≡◌, ◌==◌, IfOk, Ok};
ghost use Rattle.std.specs.List.{slice_split};
ghost use Rattle.std.specs.Str.{bytes_eq};
ghost use Rattle.trace_model.specs.Plain.{PlainTrace, plain};
ghost use Rattle.trace_model.specs.Known.{IsKnownTrace};
ghost use Rattle.trace_model.specs.Table.{table_of};
ghost use Rattle.trace_model.specs.Spelling.{line_end, header, spelling, IsWellFormed};
ghost use Rattle.trace_model.specs.Reading.{trace_at, lines_at, opening};
ghost use Rattle.trace_model.specs.Reading as Reading;
ghost use Rattle.trace_reader.specs.Answers.{Reads, at_line};

use crate::error::{LineError, TraceError};
use crate::progress::Progress;
use crate::words::next_line;
use mem_base::Trace;
use std::alloc::Global;
use trace_model::TraceCause;

/// The trace that the bytes spell, or the first faulty line and its first fault.
pub fn read_trace(alloc: Global, bytes: &[u8]) -> Result<Trace, TraceError>
    // What is read is spelt so.
    ensures found { IfOk result (λ t. IsWellFormed (plain t) × (bytes.now ≡ spelling (plain t))) }
    // What is spelt so is read, unless memory runs out.
    ensures only { (t : PlainTrace) → IsWellFormed t → bytes.now ≡ spelling t → Reads plain result (Ok t) }
    // Which line is the first faulty one, and why.
    ensures exact { Reads plain result (trace_at bytes.now) }
    ensures known { IfOk result IsKnownTrace }
    // Its table has the names that the lines say, each once, and no other text but the unknown one.
    ensures table { IfOk result (λ t. t.texts ≡ table_of (plain t).tracks) }
{
    read(alloc, bytes)
}

// The trace of the lines, or the first fault.
fn read(alloc: Global, bytes: &[u8]) -> Result<Trace, TraceError>
    ensures known { IfOk result IsKnownTrace }
    ensures table { IfOk result (λ t. t.texts ≡ table_of (plain t).tracks) }
    ensures read { Reads plain result (trace_at bytes.now) }
{
    match next_line(bytes) {
        Some((first, rest)) => {
            if is_header(first) {
                read_lines(alloc, rest)
            } else {
                Err(TraceError::At {
                    line: 1,
                    cause: TraceCause::BadHeader,
                })
            }
        }
        None => Err(TraceError::At {
            line: 1,
            cause: end_cause(bytes),
        }),
    }
}

fn is_header(line: &[u8]) -> bool
    ensures { result ≡ bytes_eq line.now header }
{
    line == b"pymtrace 1".as_slice()
}

// What is wrong with a first line that has no end.
fn end_cause(line: &[u8]) -> TraceCause
    ensures { result ≡ Reading.end_cause line.now }
{
    if line.is_empty() {
        TraceCause::BadHeader
    } else {
        TraceCause::BadEnd
    }
}

// What stands behind the header.
fn read_lines(alloc: Global, bytes: &[u8]) -> Result<Trace, TraceError>
    ensures known { IfOk result IsKnownTrace }
    ensures table { IfOk result (λ t. t.texts ≡ table_of (plain t).tracks) }
    ensures read { Reads plain result (lines_at 2 opening (slice_split (λ b. b == line_end) bytes.now)) }
{
    let mut progress = match Progress::new(alloc) {
        Ok(progress) => progress,
        Err(_) => return Err(TraceError::OutOfMemory),
    };
    let mut line: u64 = 2;
    let mut rest = bytes;
    let mut words = Vec::new(alloc);
    while let Some((text, after)) = next_line(rest) {
        match progress.line(alloc, text, &mut words) {
            Ok(()) => {}
            Err(error) => return Err(at(line, error)),
        }
        line += 1;
        rest = after;
    }
    if !rest.is_empty() {
        return Err(TraceError::At {
            line,
            cause: TraceCause::BadEnd,
        });
    }
    let Progress { trace, counts: _ } = progress;
    Ok(trace)
}

// The error of a line, with its number.
fn at(line: u64, error: LineError) -> TraceError
    ensures { result ≡ at_line line error }
{
    match error {
        LineError::OutOfMemory => TraceError::OutOfMemory,
        LineError::Wrong(cause) => TraceError::At { line, cause },
    }
}
