//! The summary of a run, a function for each of its lines.
ghost use Rattle.std.specs.Prelude.{◌≡◌, ◌++◌, IfOk, OnOk, OnErr};
ghost use Rattle.trace_model.specs.Plain.{plain};
ghost use Rattle.trace_model.specs.Known.{IsKnownTrace};
ghost use Rattle.report_model.specs.Report.{owner_word, events_line, lock_line, blocks_line, arenas_line};
ghost use Rattle.report_model.specs.Report.{traced_line};
ghost use Rattle.line_text.specs.Texts.{StaysInFront};
ghost use Rattle.report_text.specs.Texts.{summary_of};

use line_text::{push_number, push_wide};
use mem_base::{Counts, List, Totals, Trace, TrackId};
use std::alloc::{AllocError, Global};

#[tactic(auto, unfolding(report_model::specs::Report::events_line))]
fn push_events_line(text: &mut Vec<u8>, events: u64, status: u8) -> Result<(), AllocError>
    ensures ok { OnOk result (text.new.items ≡ text.old.items ++ events_line events status) }
    ensures err { OnErr result (StaysInFront text.old.items text.new.items) }
{
    text.extend_from_slice(b"summary events ")?;
    push_number(text, events)?;
    text.extend_from_slice(b" status ")?;
    push_number(text, u64::from(status))?;
    text.push(b'\n')?;
    Ok(())
}

// What the summary calls the owner of the lock.
fn owner_name(trace: &Trace, owner: Option<TrackId>) -> &[u8]
    requires { IsKnownTrace trace.now }
    ensures { result.now ≡ owner_word (plain trace.now).tracks owner }
{
    match owner {
        None => b"free",
        Some(t) => match trace.tracks.get(t as usize) {
            Some(track) => trace.texts.get(track.name),
            None => b"",
        },
    }
}

#[tactic(auto, unfolding(report_model::specs::Report::lock_line))]
fn push_lock_line(text: &mut Vec<u8>, owner: &[u8]) -> Result<(), AllocError>
    ensures ok { OnOk result (text.new.items ≡ text.old.items ++ lock_line owner.now) }
    ensures err { OnErr result (StaysInFront text.old.items text.new.items) }
{
    text.extend_from_slice(b"summary lock ")?;
    text.extend_from_slice(owner)?;
    text.push(b'\n')?;
    Ok(())
}

#[tactic(auto, unfolding(report_model::specs::Report::blocks_line))]
fn push_blocks_line(text: &mut Vec<u8>, blocks: u64, bytes: u128) -> Result<(), AllocError>
    ensures ok { OnOk result (text.new.items ≡ text.old.items ++ blocks_line blocks bytes) }
    ensures err { OnErr result (StaysInFront text.old.items text.new.items) }
{
    text.extend_from_slice(b"summary blocks ")?;
    push_number(text, blocks)?;
    text.extend_from_slice(b" bytes ")?;
    push_wide(text, bytes)?;
    text.push(b'\n')?;
    Ok(())
}

#[tactic(auto, unfolding(report_model::specs::Report::arenas_line))]
fn push_arenas_line(text: &mut Vec<u8>, counts: Counts) -> Result<(), AllocError>
    ensures ok { OnOk result (text.new.items
        ≡ text.old.items ++ arenas_line counts.given counts.back counts.most) }
    ensures err { OnErr result (StaysInFront text.old.items text.new.items) }
{
    text.extend_from_slice(b"summary arenas given ")?;
    push_number(text, counts.given)?;
    text.extend_from_slice(b" back ")?;
    push_number(text, counts.back)?;
    text.extend_from_slice(b" most ")?;
    push_number(text, counts.most)?;
    text.push(b'\n')?;
    Ok(())
}

#[tactic(auto, unfolding(report_model::specs::Report::traced_line))]
fn push_traced_line(text: &mut Vec<u8>, traced: u128, peak: u128) -> Result<(), AllocError>
    ensures ok { OnOk result (text.new.items ≡ text.old.items ++ traced_line traced peak) }
    ensures err { OnErr result (StaysInFront text.old.items text.new.items) }
{
    text.extend_from_slice(b"summary traced ")?;
    push_wide(text, traced)?;
    text.extend_from_slice(b" peak ")?;
    push_wide(text, peak)?;
    text.push(b'\n')?;
    Ok(())
}

/// Adds the summary of these numbers, with the run's exit status, to the end of a text. The owner of
/// the lock is named as in the trace. The error is that there was no memory for it: the text that
/// stood there stands in front still, and more may stand behind it.
pub fn push_summary(
    text: &mut Vec<u8>,
    totals: &Totals,
    trace: &Trace,
    status: u8,
) -> Result<(), AllocError>
    requires { IsKnownTrace trace.now }
    ensures ok { OnOk result (text.new.items ≡ text.old.items ++ summary_of trace.now totals.now status) }
    ensures err { OnErr result (StaysInFront text.old.items text.new.items) }
{
    push_events_line(text, totals.events, status)?;
    push_lock_line(text, owner_name(trace, totals.owner))?;
    push_blocks_line(text, totals.blocks, totals.bytes)?;
    push_arenas_line(text, totals.counts)?;
    push_traced_line(text, totals.traced, totals.peak)
}

/// The five lines of these numbers, with the run's exit status. The owner of the lock is named as in
/// the trace. The error is that there was no memory for them.
pub fn summary_text(
    alloc: Global,
    totals: &Totals,
    trace: &Trace,
    status: u8,
) -> Result<List<u8>, AllocError>
    requires { IsKnownTrace trace.now }
    ensures { IfOk result (λ text. text ≡ summary_of trace.now totals.now status) }
{
    let mut text = Vec::new(alloc);
    push_summary(&mut text, totals, trace, status)?;
    Ok(List::from_vec(text))
}
