//! The text of an event: its line, and below it the shape of a heap, the frames of a trace, the groups of
//! statistics or what a fault found.
ghost use Rattle.std.specs.Prelude.{◌≡◌, ◌++◌, List, length, IfOk, OnOk, OnErr, IsSome, Some};
ghost use Rattle.std.specs.List.{flat_map};
ghost use Rattle.mem_base.specs.Name.{Name};
ghost use Rattle.trace_model.specs.Plain.{action_of, text_at};
ghost use Rattle.trace_model.specs.Known.{IsKnown, IsKnownOp, IsKnownTrace, op_at};
ghost use Rattle.event_model.specs.Replies.{plain_reply, IsKnownReply};
ghost use Rattle.report_model.specs.Report.{reply_word, event_line, event_lines, fault_line, block_line};
ghost use Rattle.report_model.specs.Report.{head_line, tail_line, shape_word, arena_line, pool_word};
ghost use Rattle.report_model.specs.Report.{pools_word, class_line, shape_lines, fault_lines, more_lines};
ghost use Rattle.report_model.specs.Report.{block_name, frames_word, groups_word, kept_word, traced_word};
ghost use Rattle.line_text.specs.Texts.{StaysInFront};
ghost use Rattle.report_text.specs.Texts.{step_text};

use crate::changes::push_change_lines;
use crate::dumps::push_indented_lines;
use crate::frames::push_frame_lines;
use crate::groups::push_group_lines;
use crate::words::{push_hex, push_name, push_op};
use line_text::{push_number, push_wide};
use mem_base::{
    ArenaLine, BlockReport, ClassLine, Fault, List, Op, Reply, Step, TextId, Texts, Trace,
    UsedPool, View,
};
use std::alloc::{AllocError, Global};
use trace_model::name_of;

// ---- the line of an event

// How many blocks lie in pools, and how many in raw regions.
#[tactic(auto, unfolding(report_model::specs::Report::shape_word))]
fn push_shape(text: &mut Vec<u8>, view: &View) -> Result<(), AllocError>
    ensures ok { OnOk result (text.new.items ≡ text.old.items ++ shape_word view.now) }
    ensures err { OnErr result (StaysInFront text.old.items text.new.items) }
{
    text.extend_from_slice(b"pool ")?;
    push_number(text, view.pooled)?;
    text.extend_from_slice(b" raw ")?;
    push_number(text, view.raws)
}

// The bytes that are traced, and the most that were.
#[tactic(auto, unfolding(report_model::specs::Report::traced_word))]
fn push_traced(text: &mut Vec<u8>, current: u128, most: u128) -> Result<(), AllocError>
    ensures ok { OnOk result (text.new.items ≡ text.old.items ++ traced_word current most) }
    ensures err { OnErr result (StaysInFront text.old.items text.new.items) }
{
    push_wide(text, current)?;
    text.push(b' ')?;
    push_wide(text, most)
}

// How many frames a trace keeps, and of how many.
#[tactic(auto, unfolding(report_model::specs::Report::frames_word))]
fn push_frame_count(text: &mut Vec<u8>, kept: usize, total: u32) -> Result<(), AllocError>
    ensures ok { OnOk result (text.new.items ≡ text.old.items ++ frames_word kept total) }
    ensures err { OnErr result (StaysInFront text.old.items text.new.items) }
{
    text.extend_from_slice(b"frames ")?;
    push_number(text, kept as u64)?;
    text.extend_from_slice(b" of ")?;
    push_number(text, u64::from(total))
}

// How many traces a snapshot has.
#[tactic(auto, unfolding(report_model::specs::Report::kept_word))]
fn push_kept(text: &mut Vec<u8>, count: u64) -> Result<(), AllocError>
    ensures ok { OnOk result (text.new.items ≡ text.old.items ++ kept_word count) }
    ensures err { OnErr result (StaysInFront text.old.items text.new.items) }
{
    text.extend_from_slice(b"ok ")?;
    push_number(text, count)
}

// How many groups statistics have.
#[tactic(auto, unfolding(report_model::specs::Report::groups_word))]
fn push_group_count(text: &mut Vec<u8>, count: u64) -> Result<(), AllocError>
    ensures ok { OnOk result (text.new.items ≡ text.old.items ++ groups_word count) }
    ensures err { OnErr result (StaysInFront text.old.items text.new.items) }
{
    text.extend_from_slice(b"groups ")?;
    push_number(text, count)
}

fn push_reply(text: &mut Vec<u8>, reply: &Reply) -> Result<(), AllocError>
    ensures ok { (texts : List Name)
        → OnOk result (text.new.items ≡ text.old.items ++ reply_word (plain_reply texts reply.now)) }
    ensures err { OnErr result (StaysInFront text.old.items text.new.items) }
{
    match reply {
        Reply::Ok | Reply::Dumped(_) => text.extend_from_slice(b"ok"),
        Reply::Null => text.extend_from_slice(b"null"),
        Reply::Busy => text.extend_from_slice(b"busy"),
        Reply::Absent => text.extend_from_slice(b"absent"),
        Reply::Outside => text.extend_from_slice(b"outside"),
        Reply::Held => text.extend_from_slice(b"held"),
        Reply::NotHeld => text.extend_from_slice(b"not_held"),
        Reply::NotTracing => text.extend_from_slice(b"not_tracing"),
        Reply::NoSnapshot => text.extend_from_slice(b"no_snapshot"),
        Reply::Untraced => text.extend_from_slice(b"none"),
        Reply::Traced(current, most) => push_traced(text, *current, *most),
        Reply::Kept(count) => push_kept(text, *count),
        Reply::Frames(kept, total) => push_frame_count(text, kept.len(), *total),
        Reply::Groups(count, _) | Reply::Diffs(count, _) => push_group_count(text, *count),
        Reply::Bytes(bytes) => push_hex(text, bytes.as_slice()),
        Reply::Heap(view) => push_shape(text, view),
        Reply::Fault(_, _) => text.extend_from_slice(b"fault"),
    }
}

// The line of an event.
#[tactic(auto, unfolding(report_model::specs::Report::event_line))]
fn push_event_line(
    text: &mut Vec<u8>,
    texts: &Texts,
    number: u64,
    track: TextId,
    op: &Op,
    reply: &Reply,
) -> Result<(), AllocError>
    requires track { IsKnown texts.now track }
    requires op { IsKnownOp texts.now op.now }
    ensures ok { OnOk result (text.new.items ≡ text.old.items
        ++ event_line number (text_at texts.now track) (action_of texts.now op.now)
        (plain_reply texts.now reply.now)) }
    ensures err { OnErr result (StaysInFront text.old.items text.new.items) }
{
    push_number(text, number)?;
    push_name(text, texts, track)?;
    text.push(b' ')?;
    push_op(text, texts, op)?;
    text.extend_from_slice(b" = ")?;
    push_reply(text, reply)?;
    text.push(b'\n')?;
    Ok(())
}

// ---- the shape of a heap

#[tactic(auto, unfolding(report_model::specs::Report::arena_line))]
fn push_arena_line(text: &mut Vec<u8>, arena: ArenaLine) -> Result<(), AllocError>
    ensures ok { OnOk result (text.new.items ≡ text.old.items ++ arena_line arena) }
    ensures err { OnErr result (StaysInFront text.old.items text.new.items) }
{
    text.extend_from_slice(b"  arena ")?;
    push_number(text, u64::from(arena.id))?;
    text.extend_from_slice(b" free ")?;
    push_number(text, u64::from(arena.free))?;
    text.extend_from_slice(b" of ")?;
    push_number(text, u64::from(arena.total))?;
    text.push(b'\n')?;
    Ok(())
}

fn push_arena_lines(text: &mut Vec<u8>, arenas: &[ArenaLine]) -> Result<(), AllocError>
    ensures ok { OnOk result (text.new.items ≡ text.old.items ++ flat_map arena_line arenas.now) }
    ensures err { OnErr result (StaysInFront text.old.items text.new.items) }
{
    for arena in arenas {
        push_arena_line(text, *arena)?;
    }
    Ok(())
}

#[tactic(auto, unfolding(report_model::specs::Report::pool_word))]
fn push_pool(text: &mut Vec<u8>, pool: UsedPool) -> Result<(), AllocError>
    ensures ok { OnOk result (text.new.items ≡ text.old.items ++ pool_word pool) }
    ensures err { OnErr result (StaysInFront text.old.items text.new.items) }
{
    push_number(text, u64::from(pool.arena))?;
    text.push(b':')?;
    push_number(text, u64::from(pool.live))
}

// The partly used pools of a class, with commas between.
fn push_pools(text: &mut Vec<u8>, pools: &[UsedPool]) -> Result<(), AllocError>
    ensures ok { OnOk result (text.new.items ≡ text.old.items ++ pools_word pools.now) }
    ensures err { OnErr result (StaysInFront text.old.items text.new.items) }
{
    let Some((first, rest)) = pools.split_first() else {
        return text.extend_from_slice(b"-");
    };
    push_pool(text, *first)?;
    for pool in rest {
        text.push(b',')?;
        push_pool(text, *pool)?;
    }
    Ok(())
}

#[tactic(auto, unfolding(report_model::specs::Report::class_line))]
fn push_class_line(text: &mut Vec<u8>, class: &ClassLine) -> Result<(), AllocError>
    ensures ok { OnOk result (text.new.items ≡ text.old.items ++ class_line class.now) }
    ensures err { OnErr result (StaysInFront text.old.items text.new.items) }
{
    text.extend_from_slice(b"  class ")?;
    push_number(text, u64::from(class.size))?;
    text.extend_from_slice(b" used ")?;
    push_pools(text, class.used.as_slice())?;
    text.extend_from_slice(b" full ")?;
    push_number(text, class.full)?;
    text.push(b'\n')?;
    Ok(())
}

fn push_class_lines(text: &mut Vec<u8>, classes: &[ClassLine]) -> Result<(), AllocError>
    ensures ok { OnOk result (text.new.items ≡ text.old.items ++ flat_map class_line classes.now) }
    ensures err { OnErr result (StaysInFront text.old.items text.new.items) }
{
    for class in classes {
        push_class_line(text, class)?;
    }
    Ok(())
}

fn push_shape_lines(text: &mut Vec<u8>, view: &View) -> Result<(), AllocError>
    ensures ok { OnOk result (text.new.items ≡ text.old.items ++ shape_lines view.now) }
    ensures err { OnErr result (StaysInFront text.old.items text.new.items) }
{
    push_arena_lines(text, view.arenas.as_slice())?;
    push_class_lines(text, view.classes.as_slice())
}

// ---- what a fault found

#[tactic(auto, unfolding(report_model::specs::Report::fault_line))]
fn push_fault_line(text: &mut Vec<u8>, fault: Fault) -> Result<(), AllocError>
    ensures ok { OnOk result (text.new.items ≡ text.old.items ++ fault_line fault) }
    ensures err { OnErr result (StaysInFront text.old.items text.new.items) }
{
    match fault {
        Fault::Unlocked => text.extend_from_slice(b"  unlocked\n"),
        Fault::BadId { found, verified } => {
            text.extend_from_slice(b"  bad_id found ")?;
            push_hex(text, &[found])?;
            text.extend_from_slice(b" verified ")?;
            push_hex(text, &[verified])?;
            text.push(b'\n')?;
            Ok(())
        }
        Fault::BadLead(k) => {
            text.extend_from_slice(b"  bad_lead ")?;
            push_number(text, u64::from(k))?;
            text.push(b'\n')?;
            Ok(())
        }
        Fault::BadTail(k) => {
            text.extend_from_slice(b"  bad_tail ")?;
            push_number(text, u64::from(k))?;
            text.push(b'\n')?;
            Ok(())
        }
    }
}

#[tactic(auto, unfolding(report_model::specs::Report::block_line))]
fn push_block_line(text: &mut Vec<u8>, name: &[u8], size: u64) -> Result<(), AllocError>
    ensures ok { OnOk result (text.new.items ≡ text.old.items ++ block_line name.now size) }
    ensures err { OnErr result (StaysInFront text.old.items text.new.items) }
{
    text.extend_from_slice(b"  block ")?;
    text.extend_from_slice(name)?;
    text.extend_from_slice(b" size ")?;
    push_number(text, size)?;
    text.push(b'\n')?;
    Ok(())
}

#[tactic(auto, unfolding(report_model::specs::Report::head_line))]
fn push_head_line(text: &mut Vec<u8>, head: &[u8]) -> Result<(), AllocError>
    ensures ok { OnOk result (text.new.items ≡ text.old.items ++ head_line head.now) }
    ensures err { OnErr result (StaysInFront text.old.items text.new.items) }
{
    text.extend_from_slice(b"  head ")?;
    push_hex(text, head)?;
    text.push(b'\n')?;
    Ok(())
}

#[tactic(auto, unfolding(report_model::specs::Report::tail_line))]
fn push_tail_line(text: &mut Vec<u8>, tail: &[u8]) -> Result<(), AllocError>
    ensures ok { OnOk result (text.new.items ≡ text.old.items ++ tail_line tail.now) }
    ensures err { OnErr result (StaysInFront text.old.items text.new.items) }
{
    text.extend_from_slice(b"  tail ")?;
    push_hex(text, tail)?;
    text.push(b'\n')?;
    Ok(())
}

// The lines of a fault in a block.
fn push_block(
    text: &mut Vec<u8>,
    fault: Fault,
    name: &[u8],
    block: &BlockReport,
) -> Result<(), AllocError>
    ensures ok { OnOk result (text.new.items
        ≡ text.old.items ++ fault_lines name.now fault (Some block.now)) }
    ensures err { OnErr result (StaysInFront text.old.items text.new.items) }
{
    push_fault_line(text, fault)?;
    push_block_line(text, name, block.size)?;
    push_head_line(text, &block.head)?;
    push_tail_line(text, &block.tail)
}

// ---- the whole text

// The name of the block that an operation is on, where it is on one.
fn name_of_block<'a>(texts: &'a Texts, op: &Op) -> &'a [u8]
    requires { IsKnownOp texts.now op.now }
    ensures { result.now ≡ block_name (action_of texts.now op.now) }
{
    match name_of(op) {
        Some(name) => texts.get(name),
        None => b"",
    }
}

// The lines below that of the event.
fn push_more_lines(
    text: &mut Vec<u8>,
    texts: &Texts,
    name: &[u8],
    reply: &Reply,
) -> Result<(), AllocError>
    requires { IsKnownReply (length texts.now) reply.now }
    ensures ok { OnOk result (text.new.items
        ≡ text.old.items ++ more_lines name.now (plain_reply texts.now reply.now)) }
    ensures err { OnErr result (StaysInFront text.old.items text.new.items) }
{
    match reply {
        Reply::Heap(view) => push_shape_lines(text, view),
        Reply::Frames(kept, _) => push_frame_lines(text, texts, kept.as_slice()),
        Reply::Groups(_, first) => push_group_lines(text, texts, first.as_slice()),
        Reply::Diffs(_, first) => push_change_lines(text, texts, first.as_slice()),
        Reply::Dumped(dump) => push_indented_lines(text, dump.as_slice()),
        Reply::Fault(fault, None) => push_fault_line(text, *fault),
        Reply::Fault(fault, Some(block)) => push_block(text, *fault, name, block),
        Reply::Ok
        | Reply::Null
        | Reply::Busy
        | Reply::Absent
        | Reply::Outside
        | Reply::Held
        | Reply::NotHeld
        | Reply::NotTracing
        | Reply::NoSnapshot
        | Reply::Untraced
        | Reply::Bytes(_)
        | Reply::Traced(_, _)
        | Reply::Kept(_) => Ok(()),
    }
}

// The text of an event, by the operation that was done.
fn push_event_lines(
    text: &mut Vec<u8>,
    texts: &Texts,
    number: u64,
    track: TextId,
    op: &Op,
    reply: &Reply,
) -> Result<(), AllocError>
    requires track { IsKnown texts.now track }
    requires op { IsKnownOp texts.now op.now }
    requires reply { IsKnownReply (length texts.now) reply.now }
    ensures ok { OnOk result (text.new.items ≡ text.old.items
        ++ event_lines number (text_at texts.now track) (action_of texts.now op.now)
        (plain_reply texts.now reply.now)) }
    ensures err { OnErr result (StaysInFront text.old.items text.new.items) }
{
    push_event_line(text, texts, number, track, op, reply)?;
    push_more_lines(text, texts, name_of_block(texts, op), reply)
}

/// Adds the text of the event with that number, counted from 1, to the end of a text. The step's
/// entry names an operation of this trace, and the files of its reply are in the trace's table. The error
/// is that there was no memory for it: the text that stood there stands in front still, and more may stand
/// behind it.
pub fn push_event(
    text: &mut Vec<u8>,
    number: u64,
    step: &Step,
    trace: &Trace,
) -> Result<(), AllocError>
    requires known { IsKnownTrace trace.now }
    requires op { IsSome (op_at trace.now.tracks step.now.entry.track step.now.entry.at) }
    requires reply { IsKnownReply (length trace.now.texts) step.now.reply }
    ensures ok { OnOk result (text.new.items ≡ text.old.items ++ step_text trace.now number step.now) }
    ensures err { OnErr result (StaysInFront text.old.items text.new.items) }
{
    let Some(track) = trace.tracks.get(step.entry.track as usize) else {
        unreachable!()
    };
    let Some(op) = track.ops.get(step.entry.at as usize) else {
        unreachable!()
    };
    push_event_lines(text, &trace.texts, number, track.name, op, &step.reply)
}

/// The text of the event with that number, counted from 1. The step's entry names an operation of
/// this trace, and the files of its reply are in the trace's table. The error is that there was no memory
/// for it.
pub fn event_text(
    alloc: Global,
    number: u64,
    step: &Step,
    trace: &Trace,
) -> Result<List<u8>, AllocError>
    requires known { IsKnownTrace trace.now }
    requires op { IsSome (op_at trace.now.tracks step.now.entry.track step.now.entry.at) }
    requires reply { IsKnownReply (length trace.now.texts) step.now.reply }
    ensures { IfOk result (λ text. text ≡ step_text trace.now number step.now) }
{
    let mut text = Vec::new(alloc);
    push_event(&mut text, number, step, trace)?;
    Ok(List::from_vec(text))
}
