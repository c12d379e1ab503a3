//! The top call: what the words ask for, the input, the replay and the refusals.

ghost use Rattle.std.specs.Prelude.{◌≡◌, ◌<◌, ◌^◌, []};
ghost use Rattle.extents.specs.Extent.{AreDisjoint};
ghost use Rattle.trace_model.specs.Known.{IsKnownTrace};
ghost use Rattle.trace_model.specs.Plain.{plain};
ghost use Rattle.replay_tool.specs.Promise.{Promise};
ghost use Rattle.replay_tool.specs.Refusals.{Refusing};
ghost use Rattle.replay_tool.specs.Replays.{ReplayEnds};
ghost use Rattle.replay_tool.specs.Served.{both, shaped, NothingOut};
ghost use Rattle.replay_tool.specs.Status.{number_of};
ghost use Rattle.replay_tool.specs.Streams.{stream};
ghost use Rattle.replay_tool.specs.Words.{texts_of};

use crate::events::{status_of, write_report};
use crate::input::{Unread, read_input};
use crate::refusal::Refusal;
use crate::status::Status;
use crate::words::asks_replay;
use machine_core::Machine;
use mem_base::limits::{DEFAULT_ARENAS, MAX_RAW_BYTES};
use mem_base::{History, List, Trace};
use sources::{ArenaSource, RawSource};
use std::alloc::Global;
use streams::{Sink, Source};

/// How a run ended: the number of its status, and the events that were done.
#[derive(Drop)]
pub struct Outcome {
    pub status: u8,
    pub history: History,
}

// How a run ended, before its status is a number.
#[derive(Drop)]
struct Ending {
    status: Status,
    history: History,
}

impl Ending {
    // The end of a run that did no event.
    fn without_events(alloc: Global, status: Status) -> Ending
        ensures status { result.status ≡ status }
        ensures none { result.history.entries ≡ [] }
    {
        let entries = List::new(alloc);
        Ending {
            status,
            history: History { entries },
        }
    }

    fn outcome(self) -> Outcome
        ensures status { result.status ≡ number_of self.status }
        ensures history { result.history.entries ≡ self.history.entries }
    {
        Outcome {
            status: self.status.number(),
            history: self.history,
        }
    }
}

// Replays the trace and writes its report. All memory that the sources gave goes back.
fn replay<A: ArenaSource, R: RawSource, O: Sink>(
    alloc: Global,
    trace: Trace,
    arenas: &mut A,
    raw: &mut R,
    out: &mut O,
) -> Ending
    requires known { IsKnownTrace trace }
    requires arena { (A.seen arenas.old).asked < 2 ^ 62 }
    requires raw { (R.seen raw.old).asked < 2 ^ 62 }
    requires none_out { NothingOut (both (A.seen arenas.old) (R.seen raw.old)) }
    requires apart { AreDisjoint (A.seen arenas.old).window (R.seen raw.old).window }
    ensures ends { ReplayEnds (record {
      tracks = (plain trace).tracks;
      picks = (plain trace).picks;
      entries = result.history.entries;
      out = stream (O.written out.old) (O.faults out.old);
      out_then = stream (O.written out.new) (O.faults out.new);
      sources = shaped (both (A.seen arenas.old) (R.seen raw.old));
      sources_then = both (A.seen arenas.new) (R.seen raw.new);
    }) result.status }
    ensures back { NothingOut (both (A.seen arenas.new) (R.seen raw.new)) }
{
    arenas.shape(DEFAULT_ARENAS, 0);
    raw.shape(MAX_RAW_BYTES);
    let Ok(mut machine) = Machine::new(alloc, trace) else {
        return Ending::without_events(alloc, Status::OutOfMemory);
    };
    let status = match write_report(alloc, &mut machine, arenas, raw, out) {
        Ok(()) => status_of(&machine),
        Err(halt) => halt.status(),
    };
    Ending {
        status,
        history: machine.end(arenas, raw),
    }
}

// Tells a refusal, and ends the run.
fn refuse<E: Sink>(alloc: Global, refusal: Refusal, err: &mut E) -> Ending
    ensures none { result.history.entries ≡ [] }
    ensures told { Refusing refusal (stream (E.written err.old) (E.faults err.old))
        (stream (E.written err.new) (E.faults err.new)) result.status }
{
    let status = match refusal.tell(alloc, err) {
        Ok(()) => refusal.status(),
        Err(halt) => halt.status(),
    };
    Ending::without_events(alloc, status)
}

/// Does what the words ask: for now `replay` alone, which reads a trace from the input, replays it
/// over memory of the sources, and writes the report of it.
///
/// Nothing may be out of either source when `run` is called, and no address may lie in both of their
/// windows. Before the replay the sources are told how much there may be: 256 arenas and 268,435,456
/// raw bytes. When `run` returns, all that they gave has gone back. A small block for which an arena
/// was refused is asked of the raw source in its place, and a request that the raw source refused is
/// answered with null in the report.
///
/// The status is 0 where the trace was replayed without a fault and 1 where its last event is one;
/// 2 for other words; 3 for an input that is no trace; 4 for a failed read and 5 for a failed write;
/// 6 where memory ran out; 7 for an input of more than 16,777,216 bytes. With 2, 3, 4 and 7 one line
/// on `err` tells it. The history holds the events that were done.
pub fn run<I: Source, A: ArenaSource, R: RawSource, O: Sink, E: Sink>(
    alloc: Global,
    words: &[String],
    input: &mut I,
    arenas: &mut A,
    raw: &mut R,
    out: &mut O,
    err: &mut E,
) -> Outcome
    requires arena { (A.seen arenas.old).asked < 2 ^ 62 }
    requires raw { (R.seen raw.old).asked < 2 ^ 62 }
    requires none_out { NothingOut (both (A.seen arenas.old) (R.seen raw.old)) }
    requires apart { AreDisjoint (A.seen arenas.old).window (R.seen raw.old).window }
    ensures { Promise (record {
      words = texts_of words.now;
      before = record {
        input = stream (I.left input.old) (I.faults input.old);
        out = stream (O.written out.old) (O.faults out.old);
        err = stream (E.written err.old) (E.faults err.old);
        sources = both (A.seen arenas.old) (R.seen raw.old);
      };
      after = record {
        input = stream (I.left input.new) (I.faults input.new);
        out = stream (O.written out.new) (O.faults out.new);
        err = stream (E.written err.new) (E.faults err.new);
        sources = both (A.seen arenas.new) (R.seen raw.new);
      };
      status = result.status;
      entries = result.history.entries;
    }) }
{
    if !asks_replay(words) {
        return refuse(alloc, Refusal::Usage, err).outcome();
    }
    match read_input(alloc, input) {
        Ok(trace) => replay(alloc, trace, arenas, raw, out).outcome(),
        Err(Unread::Refused(refusal)) => refuse(alloc, refusal, err).outcome(),
        Err(Unread::OutOfMemory) => { Ending::without_events(alloc, Status::OutOfMemory).outcome() }
    }
}
