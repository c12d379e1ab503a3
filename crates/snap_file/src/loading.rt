//! Dumps, read line by line in one pass, until a line is faulty or none is left.
ghost use Rattle.std.specs.Prelude.{◌≡◌, ◌<◌, ◌^◌, List, length, IfOk, Ok};
ghost use Rattle.std.specs.List.{AllByRecursion};
ghost use Rattle.snapshot_model.specs.Snapshots.{PlainSnapshot};
ghost use Rattle.dump_model.specs.Reading.{Place, dumps_at, end_causes, first_cause};
ghost use Rattle.dump_model.specs.Spelling.{dumps_text, IsDumpable};
ghost use Rattle.snap_file.specs.Answers.{Reads, at_line};
ghost use Rattle.snap_file.specs.Plain.{IsLoaded, plain_loaded};

use crate::error::{LineError, LoadError};
use crate::progress::{Loaded, Progress};
use dump_model::{LoadCause, read_where_spelt};
use line_text::next_line;
use std::alloc::Global;

/// Reads exactly so many dumps, one after the other, that are all of the bytes. The error is the first faulty
/// line and its first fault, or that there was no memory.
pub fn load(alloc: Global, bytes: &[u8], count: u8) -> Result<Loaded, LoadError>
    requires { length bytes.now < 2 ^ 32 }
    // What is read is spelt so.
    ensures found { IfOk result (λ l. AllByRecursion IsDumpable (plain_loaded l)
        × (length (plain_loaded l) ≡ count) × (bytes.now ≡ dumps_text (plain_loaded l))) }
    // What is spelt so is read, unless memory runs out.
    ensures only { (ss : List PlainSnapshot) → AllByRecursion IsDumpable ss → length ss ≡ count
        → bytes.now ≡ dumps_text ss → Reads plain_loaded result (Ok ss) }
    // Which line is the first faulty one, and why.
    ensures exact { Reads plain_loaded result (dumps_at bytes.now count) }
    // The rows of each snapshot have their names and frames in the tables.
    ensures held { IfOk result IsLoaded }
{
    // The law that ties reading to spelling.
    read_where_spelt();
    read(alloc, bytes, count)
}

// The snapshots of the lines, or the first fault.
fn read(alloc: Global, bytes: &[u8], count: u8) -> Result<Loaded, LoadError>
    requires { length bytes.now < 2 ^ 32 }
    ensures exact { Reads plain_loaded result (dumps_at bytes.now count) }
    ensures held { IfOk result IsLoaded }
{
    let mut progress = match Progress::new(alloc, count) {
        Ok(progress) => progress,
        Err(_) => return Err(LoadError::OutOfMemory),
    };
    let mut line: u64 = 1;
    let mut rest = bytes;
    let mut words = Vec::new(alloc);
    while let Some((text, after)) = next_line(rest) {
        match progress.line(alloc, text, &mut words) {
            Ok(()) => {}
            Err(error) => return Err(at(line, error)),
        }
        line += 1;
        rest = after;
    }
    match end_fault(progress.left, rest) {
        Some(cause) => return Err(LoadError::At { line, cause }),
        None => {}
    }
    let Progress {
        loaded,
        left: _,
        at: _,
        rows: _,
        frames: _,
    } = progress;
    Ok(loaded)
}

// Why the input may not end here, where so many dumps are due and this stands behind the last line's end.
fn end_fault(left: u8, rest: &[u8]) -> Option<LoadCause>
    ensures { (p : Place) → p.left ≡ left → result ≡ first_cause (end_causes p rest.now) }
{
    if !rest.is_empty() {
        Some(LoadCause::BadEnd)
    } else if left > 0 {
        Some(LoadCause::Short)
    } else {
        None
    }
}

// The error of a line, with its number.
fn at(line: u64, error: LineError) -> LoadError
    ensures { result ≡ at_line line error }
{
    match error {
        LineError::OutOfMemory => LoadError::OutOfMemory,
        LineError::Wrong(cause) => LoadError::At { line, cause },
    }
}
