//! The first changes from one snapshot to another.
ghost use Rattle.std.specs.Prelude.{◌≡◌, length, map, min, take, IfOk};
ghost use Rattle.std.specs.List.{AllByRecursion};
ghost use Rattle.frame_stack.specs.Callers.{AreAmong};
ghost use Rattle.snapshot_model.specs.Compared.{change_cmp, plain_change};
ghost use Rattle.trace_table.specs.Plain.{IsHeld};
ghost use Rattle.snap_stats.specs.Answers.{changes_between};
ghost use Rattle.snap_stats.specs.Groups.{IsFrontOf};
ghost use Rattle.snap_stats.specs.Pairs.{whole_change};

use crate::change_order::first_changes_in_order;
use crate::changed::Changed;
use crate::pairs::{frames_changed, paired, tracebacks_changed};
use crate::stats::{Grouping, has_lines};
use crate::sums::{sums_by_frame, sums_by_traceback};
use frame_stack::Tracebacks;
use mem_base::{Diff, List, Texts};
use std::alloc::{AllocError, Global};
use trace_table::Snapshot;

// How many changes there are, and the first.
fn count_and_first(
    alloc: Global,
    texts: &Texts,
    changes: &mut [Changed<'_>],
    most: u32,
) -> Result<(u64, List<Diff>), AllocError>
    ensures count { IfOk result (λ r. r.0 ≡ length (map whole_change changes.old)) }
    ensures len { IfOk result (λ r. length r.1 ≡ min most (length (map whole_change changes.old))) }
    ensures front { IfOk result (λ r. IsFrontOf change_cmp (plain_change texts.now)
        (map whole_change changes.old) r.1) }
{
    let count = changes.len() as u64;
    let first = first_changes_in_order(alloc, texts, changes, most as usize)?;
    Ok((count, first))
}

/// How many keys two snapshots have, and the first changes from the old one to the new: so many, or all. The
/// error is that there was no memory.
pub fn first_changes(
    alloc: Global,
    new: &Snapshot,
    old: &Snapshot,
    by: Grouping,
    most: u32,
    texts: &Texts,
    table: &Tracebacks,
) -> Result<(u64, List<Diff>), AllocError>
    requires new { IsHeld texts.now table.now new.now.rows }
    requires old { IsHeld texts.now table.now old.now.rows }
    ensures count { IfOk result (λ r. r.0
        ≡ length (changes_between texts.now table.now by new.now old.now)) }
    ensures first { IfOk result (λ r. map (plain_change texts.now) r.1
        ≡ take most (changes_between texts.now table.now by new.now old.now)) }
    ensures known { IfOk result (λ r. AllByRecursion (λ d. AreAmong (length texts.now) d.key) r.1) }
{
    // The lengths of the tables say that no text and no traceback stands twice.
    let _texts = texts.len();
    let _tracebacks = table.len();
    let new_rows = new.rows.as_slice();
    let old_rows = old.rows.as_slice();
    match has_lines(by.key) {
        Some(by_line) => {
            let new = sums_by_frame(alloc, new_rows, by_line, by.cumulative, table)?;
            let old = sums_by_frame(alloc, old_rows, by_line, by.cumulative, table)?;
            let pairs = paired(alloc, &new, &old)?;
            let mut changes = frames_changed(alloc, &pairs)?;
            let answer = count_and_first(alloc, texts, &mut changes, most)?;
            Ok(answer)
        },
        None => {
            let new = sums_by_traceback(alloc, new_rows)?;
            let old = sums_by_traceback(alloc, old_rows)?;
            let pairs = paired(alloc, &new, &old)?;
            let mut changes = tracebacks_changed(alloc, &pairs, table)?;
            let answer = count_and_first(alloc, texts, &mut changes, most)?;
            Ok(answer)
        },
    }
}
