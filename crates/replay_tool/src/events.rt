//! The events of a replay, one after another, and what is printed of each.
//!
//! Before each event the machine is asked which track the schedule takes. It does the event of that
//! track, its text is put together in one buffer that is used again, and the text is written before the
//! next event is done. So whatever ends the replay, what was written is the texts of the first events, in
//! their order, and at most a part of one text behind them.

ghost use Rattle.std.specs.Prelude.{◌≡◌, ◌<◌, ◌^◌, [], true, false, IfSome, IfNone};
ghost use Rattle.event_model.specs.Events.{is_ready};
ghost use Rattle.event_model.specs.History.{IsWhole};
ghost use Rattle.event_model.specs.Schedule.{one_by_one, Takes};
ghost use Rattle.trace_model.specs.Plain.{plain};
ghost use Rattle.report_model.specs.Report.{summary_text};
ghost use Rattle.machine_core.specs.View.{tracks_of, state_of, ready_in};
ghost use Rattle.domain_api.specs.Held.{AreOut};
ghost use Rattle.replay_tool.specs.Replays.{moment, replay_between, status_at, EventEnds, ReportEnds, TradedBoth};
ghost use Rattle.replay_tool.specs.Served.{both};
ghost use Rattle.replay_tool.specs.Status.{Tells};
ghost use Rattle.replay_tool.specs.Streams.{stream};

use crate::status::{Halt, Status};
use machine_core::Machine;
use mem_base::TrackId;
use report_text::{push_event, push_summary};
use sources::{ArenaSource, RawSource};
use std::alloc::Global;
use streams::{Sink, write_all};

// Does one event, and writes its text, for which the buffer is used again.
fn one_event<A: ArenaSource, R: RawSource, O: Sink>(
    machine: &mut Machine,
    t: TrackId,
    arenas: &mut A,
    raws: &mut R,
    text: &mut Vec<u8>,
    out: &mut O,
) -> Result<(), Halt>
    requires ready { is_ready (tracks_of machine.old) (state_of machine.old) t ≡ true }
    requires no_fault { (state_of machine.old).faulted ≡ false }
    requires arena { (A.seen arenas.old).asked < 2 ^ 63 }
    requires raw { (R.seen raws.old).asked < 2 ^ 63 }
    requires held { AreOut machine.old.arenas machine.old.raws (A.seen arenas.old) (R.seen raws.old) }
    ensures ends { EventEnds t
        (moment machine.old (stream (O.written out.old) (O.faults out.old))
        (both (A.seen arenas.old) (R.seen raws.old)))
        (moment machine.new (stream (O.written out.new) (O.faults out.new))
        (both (A.seen arenas.new) (R.seen raws.new)))
        result }
    ensures held { AreOut machine.new.arenas machine.new.raws (A.seen arenas.new) (R.seen raws.new) }
{
    let step = machine.step(t, arenas, raws)?;
    let number = machine.history().entries.len() as u64;
    text.clear();
    push_event(text, number, &step, machine.trace())?;
    write_all(out, text.as_slice())?;
    Ok(())
}

// The track that the schedule takes for the next event: none once a fault has come.
fn next_track(machine: &mut Machine) -> Option<TrackId>
    ensures takes { IfSome result (λ t. Takes (ready_in machine.old) machine.old.picks t machine.new.picks) }
    ensures no_fault { IfSome result (λ t. (state_of machine.old).faulted ≡ false) }
    ensures none { IfNone result (IsWhole (tracks_of machine.old) machine.old.entries) }
    ensures same { machine.new ≡ record machine.old { picks = machine.new.picks } }
{
    if machine.faulted() {
        return None;
    }
    machine.next_track()
}

/// The status of a replay that was done to its end.
pub fn status_of(machine: &Machine) -> Status
    ensures { result ≡ status_at (state_of machine.now) }
{
    if machine.faulted() {
        Status::Faulted
    } else {
        Status::Done
    }
}

// Writes the summary, for which the buffer is used again.
fn write_summary<O: Sink>(machine: &Machine, text: &mut Vec<u8>, out: &mut O) -> Result<(), Halt>
    ensures { Tells (summary_text (tracks_of machine.now) machine.now.entries)
        (stream (O.written out.old) (O.faults out.old))
        (stream (O.written out.new) (O.faults out.new)) result }
{
    let totals = machine.totals();
    let status = status_of(machine).number();
    text.clear();
    push_summary(text, &totals, machine.trace(), status)?;
    write_all(out, text.as_slice())?;
    Ok(())
}

/// Replays the whole trace, and writes the text of each event before the next event is done, and
/// then the summary.
pub fn write_report<A: ArenaSource, R: RawSource, O: Sink>(
    alloc: Global,
    machine: &mut Machine,
    arenas: &mut A,
    raws: &mut R,
    out: &mut O,
) -> Result<(), Halt>
    requires start { machine.old.entries ≡ [] }
    requires picks { machine.old.picks ≡ one_by_one (plain machine.old.trace).picks }
    requires arena { (A.seen arenas.old).asked < 2 ^ 62 }
    requires raw { (R.seen raws.old).asked < 2 ^ 62 }
    requires held { AreOut machine.old.arenas machine.old.raws (A.seen arenas.old) (R.seen raws.old) }
    ensures trace { machine.new.trace ≡ machine.old.trace }
    ensures ends { ReportEnds (replay_between
        (moment machine.old (stream (O.written out.old) (O.faults out.old))
        (both (A.seen arenas.old) (R.seen raws.old)))
        (moment machine.new (stream (O.written out.new) (O.faults out.new))
        (both (A.seen arenas.new) (R.seen raws.new)))) result }
    ensures traded { TradedBoth
        (moment machine.old (stream (O.written out.old) (O.faults out.old))
        (both (A.seen arenas.old) (R.seen raws.old)))
        (moment machine.new (stream (O.written out.new) (O.faults out.new))
        (both (A.seen arenas.new) (R.seen raws.new))) }
    ensures held { AreOut machine.new.arenas machine.new.raws (A.seen arenas.new) (R.seen raws.new) }
{
    // The trace has few operations, so each source can be asked once for each.
    let _trace = machine.trace();
    let mut text = Vec::new(alloc);
    while let Some(t) = next_track(machine) {
        one_event(machine, t, arenas, raws, &mut text, out)?;
    }
    write_summary(machine, &mut text, out)
}
