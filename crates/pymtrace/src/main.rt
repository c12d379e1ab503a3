//! `pymtrace`: reads a recorded trace of allocation operations from standard input, replays it, and
//! prints what each operation answered.
//!
//! The output goes through a buffer, so that a run costs one write for each full buffer and not one
//! for each event. So a write that fails may be met some events later, and at the latest when the
//! buffer is flushed at the end; the status is 5 all the same.
#![tactic(auto)]

use replay_tool::{Status, run};
use sources::{MemArenas, MemRaw};
use std::io::BufWriter;
use std::process::ExitCode;
use std::rt::Env;
use std::{env, io};
use streams::{StdSink, StdSource};

// The words after the program's name. A word that is no text is no word that the tool knows, so
// there are none then.
fn words<R: Env + AllocGlobal>(rt: &R) -> io::Result<Vec<String>> {
    let mut words = Vec::new(rt.alloc());
    match env::args(rt) {
        Ok(args) => {
            for word in args.skip(1) {
                words.push(word)?;
            }
        }
        Err(error) if error.kind() == io::ErrorKind::OutOfMemory => return Err(error),
        Err(_) => {}
    }
    Ok(words)
}

// How many bytes of the output are held back and written together.
const BUFFER: usize = 65_536;

fn main(rt: HostRuntime) -> ExitCode {
    let (Ok(words), Ok(buffer), Ok(mut arenas), Ok(mut raw)) = (
        words(&rt),
        BufWriter::with_capacity(rt.alloc(), BUFFER, rt.stdout()),
        MemArenas::new(rt.alloc()),
        MemRaw::new(rt.alloc()),
    ) else {
        return ExitCode::from(Status::OutOfMemory.number());
    };
    let mut input = StdSource::new(rt.stdin());
    let mut out = StdSink::new(buffer);
    let mut err = StdSink::new(rt.stderr());
    let outcome = run(
        rt.alloc(),
        words.as_slice(),
        &mut input,
        &mut arenas,
        &mut raw,
        &mut out,
        &mut err,
    );
    match out.flush() {
        Ok(()) => ExitCode::from(outcome.status),
        Err(_) => ExitCode::from(Status::WriteFault.number()),
    }
}
