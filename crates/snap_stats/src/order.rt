//! The order of groups, and the first ones in it.
//!
//! Of many groups few are answered. So they are parted first, in time that grows with their number, and only
//! what stands in front of the part is put in order:
//!
//! ```text
//! 20, 130, 40, 50, 10    the groups, of which two are wanted
//! 50, 130 | 40, 20, 10   none behind the part is above one before it
//! 130, 50                the front in order
//! ```
ghost use Rattle.std.specs.Prelude.{◌≡◌, length, map, min, IfOk};
ghost use Rattle.std.specs.List.Sorted.{IsPermutation};
ghost use Rattle.mem_base.specs.Texts.{text_at};
ghost use Rattle.frame_model.specs.Frames.{frame_of, frames_of};
ghost use Rattle.snapshot_model.specs.Stats.{frame_cmp, key_cmp, group_cmp, plain_group};
ghost use Rattle.snap_stats.specs.Groups.{whole, AreInOrder, IsFrontOf};

use crate::groups::Summed;
use mem_base::{Frame, Group, List, TextId, Texts};
use std::alloc::{AllocError, Global};
use std::cmp::Ordering;

// The text with that number, and the empty one past the end.
fn text_of(texts: &Texts, id: TextId) -> &[u8]
    ensures { result.now ≡ text_at texts.now id }
{
    if (id.0 as usize) < texts.len() {
        texts.get(id)
    } else {
        &[]
    }
}

// Frames by their files' bytes, and then by their lines.
fn compare_frames(texts: &Texts, a: Frame, b: Frame) -> Ordering
    ensures { result ≡ frame_cmp (frame_of texts.now a) (frame_of texts.now b) }
{
    if a.file.0 == b.file.0 {
        return a.line.cmp(&b.line);
    }
    let files = text_of(texts, a.file).cmp(text_of(texts, b.file));
    files.then(a.line.cmp(&b.line))
}

/// Keys by their first frames that differ.
pub fn compare_keys(texts: &Texts, a: &[Frame], b: &[Frame]) -> Ordering
    ensures { result ≡ key_cmp (frames_of texts.now a.now) (frames_of texts.now b.now) }
{
    let mut i = 0;
    while i < a.len() && i < b.len() {
        let order = compare_frames(texts, a[i], b[i]);
        if order != Ordering::Equal {
            return order;
        }
        i += 1;
    }
    if i < a.len() {
        Ordering::Greater
    } else if i < b.len() {
        Ordering::Less
    } else {
        Ordering::Equal
    }
}

// Groups by size, then by count, then by key.
fn compare_groups(texts: &Texts, a: &Summed<'_>, b: &Summed<'_>) -> Ordering
    ensures { result ≡ group_cmp (plain_group texts.now (whole a.now)) (plain_group texts.now (whole b.now)) }
{
    let sizes = a
        .sum
        .size
        .cmp(&b.sum.size)
        .then(a.sum.count.cmp(&b.sum.count));
    if sizes != Ordering::Equal {
        return sizes;
    }
    compare_keys(texts, a.key, b.key)
}

// The groups with the frames of their keys.
fn whole_groups(alloc: Global, groups: &[Summed<'_>]) -> Result<List<Group>, AllocError>
    ensures { IfOk result (λ gs. gs ≡ map whole groups.now) }
{
    let mut answer = List::new(alloc);
    for group in groups {
        answer.push(Group {
            key: List::from_slice(alloc, group.key)?,
            size: group.sum.size,
            count: group.sum.count,
        })?;
    }
    Ok(answer)
}

// All groups, the greatest first.
fn all_in_order(
    alloc: Global,
    texts: &Texts,
    groups: &mut [Summed<'_>],
) -> Result<List<Group>, AllocError>
    ensures same { IfOk result (λ gs. IsPermutation (map whole groups.old) gs) }
    ensures sorted { IfOk result (AreInOrder group_cmp (plain_group texts.now)) }
{
    groups.sort_unstable_by(|a, b| compare_groups(texts, b, a));
    let answer = whole_groups(alloc, groups)?;
    Ok(answer)
}

/// The first groups, the greatest first: so many, or all.
pub fn first_in_order(
    alloc: Global,
    texts: &Texts,
    groups: &mut [Summed<'_>],
    most: usize,
) -> Result<List<Group>, AllocError>
    ensures len { IfOk result (λ gs. length gs ≡ min most (length groups.old)) }
    ensures front { IfOk result (IsFrontOf group_cmp (plain_group texts.now) (map whole groups.old)) }
{
    if most >= groups.len() {
        let all = all_in_order(alloc, texts, groups)?;
        return Ok(all);
    }
    let (front, _, _) = groups.select_nth_unstable_by(most, |a, b| compare_groups(texts, b, a));
    let first = all_in_order(alloc, texts, front)?;
    Ok(first)
}
