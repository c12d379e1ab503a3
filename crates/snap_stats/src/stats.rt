//! The first statistics of a snapshot.
ghost use Rattle.std.specs.Prelude.{◌≡◌, length, map, min, take, IfOk, IfSome, IfNone};
ghost use Rattle.std.specs.List.{AllByRecursion};
ghost use Rattle.mem_base.specs.declared.trace.KeyKind.TheVariants as kinds;
ghost use Rattle.frame_stack.specs.Callers.{AreAmong};
ghost use Rattle.snapshot_model.specs.Occurrences.{occurrences};
ghost use Rattle.snapshot_model.specs.Stats.{group_cmp, plain_group, stats_of};
ghost use Rattle.trace_table.specs.Plain.{plain_rows, IsHeld};
ghost use Rattle.snap_stats.specs.Answers.{kind_of};
ghost use Rattle.snap_stats.specs.Groups.{whole, IsFrontOf};

use crate::groups::{Summed, frames_summed, tracebacks_summed};
use crate::order::first_in_order;
use crate::sums::{sums_by_frame, sums_by_traceback};
use frame_stack::Tracebacks;
use mem_base::{Group, KeyKind, List, Texts};
use std::alloc::{AllocError, Global};
use trace_table::Snapshot;

/// By what rows are grouped, and whether each counts for all its kept frames.
#[derive(Clone, Copy, Debug, PartialEq, Eq)]
pub struct Grouping {
    pub key: KeyKind,
    pub cumulative: bool,
}

/// Where single frames are keys, whether their lines are part of them.
pub fn has_lines(key: KeyKind) -> Option<bool>
    ensures some { IfSome result (λ by_line. kind_of by_line ≡ key) }
    ensures none { IfNone result (key ≡ kinds.Traceback) }
{
    match key {
        KeyKind::Filename => Some(false),
        KeyKind::Lineno => Some(true),
        KeyKind::Traceback => None,
    }
}

// How many groups there are, and the first.
fn count_and_first(
    alloc: Global,
    texts: &Texts,
    groups: &mut [Summed<'_>],
    most: u32,
) -> Result<(u64, List<Group>), AllocError>
    ensures count { IfOk result (λ r. r.0 ≡ length (map whole groups.old)) }
    ensures len { IfOk result (λ r. length r.1 ≡ min most (length (map whole groups.old))) }
    ensures front { IfOk result (λ r. IsFrontOf group_cmp (plain_group texts.now) (map whole groups.old) r.1) }
{
    let count = groups.len() as u64;
    let first = first_in_order(alloc, texts, groups, most as usize)?;
    Ok((count, first))
}

/// How many statistics a snapshot has, and the first of them: so many, or all. The error is that there was no
/// memory.
pub fn first_statistics(
    alloc: Global,
    s: &Snapshot,
    by: Grouping,
    most: u32,
    texts: &Texts,
    table: &Tracebacks,
) -> Result<(u64, List<Group>), AllocError>
    requires { IsHeld texts.now table.now s.now.rows }
    ensures count { IfOk result (λ r. r.0
        ≡ length (stats_of (occurrences by.key by.cumulative (plain_rows texts.now table.now s.now.rows)))) }
    ensures first { IfOk result (λ r. map (plain_group texts.now) r.1
        ≡ take most (stats_of (occurrences by.key by.cumulative (plain_rows texts.now table.now s.now.rows)))) }
    ensures known { IfOk result (λ r. AllByRecursion (λ g. AreAmong (length texts.now) g.key) r.1) }
{
    // The lengths of the tables say that no text and no traceback stands twice.
    let _texts = texts.len();
    let _tracebacks = table.len();
    let rows = s.rows.as_slice();
    match has_lines(by.key) {
        Some(by_line) => {
            let by_frame = sums_by_frame(alloc, rows, by_line, by.cumulative, table)?;
            let mut groups = frames_summed(alloc, &by_frame)?;
            let answer = count_and_first(alloc, texts, &mut groups, most)?;
            Ok(answer)
        },
        None => {
            let sums = sums_by_traceback(alloc, rows)?;
            let mut groups = tracebacks_summed(alloc, &sums, table)?;
            let answer = count_and_first(alloc, texts, &mut groups, most)?;
            Ok(answer)
        },
    }
}
