//! The order of changes, and the first ones in it, parted as groups are.
//!
//! What has changed most stands first, whether it has grown or shrunk:
//!
//! ```text
//! 130 +30, 2 +1, f.py:1     of two that changed by 30 bytes, the one that is larger now
//!  30 +30, 1 +1, f.py:4
//!   0 -30, 0 -1, f.py:3     it has vanished
//!  40  +0, 1 +0, f.py:2     and this one has not changed
//! ```
ghost use Rattle.std.specs.Prelude.{◌≡◌, length, map, min, IfOk};
ghost use Rattle.std.specs.List.Sorted.{IsPermutation};
ghost use Rattle.snapshot_model.specs.Compared.{change_cmp, plain_change};
ghost use Rattle.snap_stats.specs.Groups.{AreInOrder, IsFrontOf};
ghost use Rattle.snap_stats.specs.Pairs.{whole_change};

use crate::changed::Changed;
use crate::order::compare_keys;
use mem_base::{Diff, List, Texts};
use std::alloc::{AllocError, Global};
use std::cmp::Ordering;

// Changes by how much the size changed, then by size, and so by the count, then by key.
fn compare_changes(texts: &Texts, a: &Changed<'_>, b: &Changed<'_>) -> Ordering
    ensures { result ≡ change_cmp (plain_change texts.now (whole_change a.now))
        (plain_change texts.now (whole_change b.now)) }
{
    let a_size = a.new.size.abs_diff(a.old.size);
    let b_size = b.new.size.abs_diff(b.old.size);
    let a_count = a.new.count.abs_diff(a.old.count);
    let b_count = b.new.count.abs_diff(b.old.count);
    let numbers = a_size
        .cmp(&b_size)
        .then(a.new.size.cmp(&b.new.size))
        .then(a_count.cmp(&b_count))
        .then(a.new.count.cmp(&b.new.count));
    if numbers != Ordering::Equal {
        return numbers;
    }
    compare_keys(texts, a.key, b.key)
}

// The changes with the frames of their keys.
fn whole_changes(alloc: Global, changes: &[Changed<'_>]) -> Result<List<Diff>, AllocError>
    ensures { IfOk result (λ ds. ds ≡ map whole_change changes.now) }
{
    let mut answer = List::new(alloc);
    for change in changes {
        answer.push(Diff {
            key: List::from_slice(alloc, change.key)?,
            size: change.new.size,
            size_diff: change.new.size as i128 - change.old.size as i128,
            count: change.new.count,
            count_diff: change.new.count as i64 - change.old.count as i64,
        })?;
    }
    Ok(answer)
}

// All changes, the greatest first.
fn all_in_order(
    alloc: Global,
    texts: &Texts,
    changes: &mut [Changed<'_>],
) -> Result<List<Diff>, AllocError>
    ensures same { IfOk result (λ ds. IsPermutation (map whole_change changes.old) ds) }
    ensures sorted { IfOk result (AreInOrder change_cmp (plain_change texts.now)) }
{
    changes.sort_unstable_by(|a, b| compare_changes(texts, b, a));
    let answer = whole_changes(alloc, changes)?;
    Ok(answer)
}

/// The first changes, the greatest first: so many, or all.
pub fn first_changes_in_order(
    alloc: Global,
    texts: &Texts,
    changes: &mut [Changed<'_>],
    most: usize,
) -> Result<List<Diff>, AllocError>
    ensures len { IfOk result (λ ds. length ds ≡ min most (length changes.old)) }
    ensures front { IfOk result (IsFrontOf change_cmp (plain_change texts.now) (map whole_change changes.old)) }
{
    if most >= changes.len() {
        let all = all_in_order(alloc, texts, changes)?;
        return Ok(all);
    }
    let (front, _, _) = changes.select_nth_unstable_by(most, |a, b| compare_changes(texts, b, a));
    let first = all_in_order(alloc, texts, front)?;
    Ok(first)
}
