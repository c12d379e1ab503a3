//! Sums by key.
//!
//! A table has each key once, with the sum of the sizes that were added to it and how many they were. Sizes come
//! to the same whatever the order in which they are added, so the rows of one traceback may be added up before
//! anything is asked of its frames:
//!
//! ```text
//! rows           by traceback       by frame, cumulative
//! 100, tb 0      tb 0   130, 2      a:3   130, 2
//!  20, tb 2      tb 2    20, 1      b:7   130, 2
//!  30, tb 0                         a:4    20, 1
//! ```
ghost use Rattle.std.specs.Prelude.{◌≡◌, ◌+◌, ◌<◌, ◌^◌, ◌++◌, ◌∷◌, [], length, All, List, IfOk, OnOk};
ghost use Rattle.std.specs.List.{AllByRecursion};
ghost use Rattle.mem_base.specs.declared.reply.Frame.{Frame};
ghost use Rattle.frame_stack.specs.Tracebacks.{IsShort};
ghost use Rattle.snapshot_model.specs.Rules.{frames_seen};
ghost use Rattle.trace_table.specs.Plain.{AreTraced};
ghost use Rattle.snap_stats.specs.Sums.{counts, once, frame_key, frame_parts, parts_at, parts_of, same_frame, same_id};
ghost use Rattle.snap_stats.specs.Sums.{AddsUp, AreOfFrames, AreSound, IsSound};

use frame_stack::{TbId, Tracebacks};
use indexmap::IndexMap;
use mem_base::Frame;
use std::alloc::{AllocError, Global};
use std::hash::Hash;
use trace_table::Row;

/// The sum of sizes in bytes, and how many there are.
#[derive(Clone, Copy, Debug, PartialEq, Eq)]
pub struct Sum {
    pub size: u128,
    pub count: u64,
}

// Adds a sum to that of the key.
fn add<K: Copy + Eq + Hash>(
    sums: &mut IndexMap<K, Sum>,
    key: K,
    more: Sum,
) -> Result<(), AllocError>
    requires more { IsSound more }
    requires sound { AreSound sums.old.entries }
    requires room { counts once sums.old.entries + more.count < 2 ^ 64 }
    ensures { OnOk result ((before : List (K × Sum)) → AddsUp K.eq before sums.old.entries
        → AddsUp K.eq (before ++ (key, more) ∷ []) sums.new.entries) }
{
    match sums.get_mut(&key) {
        Some(sum) => {
            sum.size += more.size;
            sum.count += more.count;
        },
        None => {
            sums.insert(key, more)?;
        },
    }
    Ok(())
}

/// The sum of each traceback that a row has.
pub fn sums_by_traceback(alloc: Global, rows: &[Row]) -> Result<IndexMap<TbId, Sum>, AllocError>
    requires { length rows.now < 2 ^ 32 }
    ensures { IfOk result (λ m. AddsUp same_id (parts_of rows.now) m.entries) }
{
    let mut sums = IndexMap::new(alloc);
    for row in rows {
        let one = Sum {
            size: u128::from(row.size),
            count: 1,
        };
        add(&mut sums, row.trace, one)?;
    }
    Ok(sums)
}

// The frame as a key: with its line, or with line 0.
fn frame_key(by_line: bool, frame: Frame) -> Frame
    ensures { result ≡ frame_key by_line frame }
{
    if by_line {
        frame
    } else {
        Frame {
            file: frame.file,
            line: 0,
        }
    }
}

// The frames that count: all, or the most recent one.
fn frames_seen(cumulative: bool, frames: &[Frame]) -> &[Frame]
    ensures { result.now ≡ frames_seen cumulative frames.now }
{
    if cumulative {
        frames
    } else {
        &frames[frames.len().saturating_sub(1)..]
    }
}

// Adds a sum to that of each frame.
fn add_frames(
    sums: &mut IndexMap<Frame, Sum>,
    by_line: bool,
    frames: &[Frame],
    more: Sum,
) -> Result<(), AllocError>
    requires more { IsSound more }
    requires sound { AreSound sums.old.entries }
    requires room { counts once (sums.old.entries ++ parts_at by_line more frames.now) < 2 ^ 64 }
    ensures { OnOk result ((before : List (Frame × Sum)) → AddsUp same_frame before sums.old.entries
        → AddsUp same_frame (before ++ parts_at by_line more frames.now) sums.new.entries) }
{
    for frame in frames {
        add(sums, frame_key(by_line, *frame), more)?;
    }
    Ok(())
}

// The sum of each frame that counts for one of the tracebacks, by its line or by its file alone.
fn spread(
    alloc: Global,
    sums: &IndexMap<TbId, Sum>,
    by_line: bool,
    cumulative: bool,
    table: &Tracebacks,
) -> Result<IndexMap<Frame, Sum>, AllocError>
    requires sound { AreSound sums.now.entries }
    requires known { AllByRecursion (λ s. s.0.0 < length table.now) sums.now.entries }
    requires room { counts once (frame_parts by_line cumulative table.now sums.now.entries) < 2 ^ 64 }
    ensures { IfOk result (λ m. AddsUp same_frame
        (frame_parts by_line cumulative table.now sums.now.entries) m.entries) }
{
    let mut by_frame = IndexMap::new(alloc);
    for (id, sum) in sums {
        let frames = frames_seen(cumulative, table.frames(*id));
        add_frames(&mut by_frame, by_line, frames, *sum)?;
    }
    Ok(by_frame)
}

/// The sum of each frame that counts for a row, by its line or by its file alone.
pub fn sums_by_frame(
    alloc: Global,
    rows: &[Row],
    by_line: bool,
    cumulative: bool,
    table: &Tracebacks,
) -> Result<IndexMap<Frame, Sum>, AllocError>
    requires few { length rows.now < 2 ^ 32 }
    requires traced { AreTraced table.now rows.now }
    requires short { All IsShort table.now }
    ensures { IfOk result (λ m. AreOfFrames by_line cumulative table.now rows.now m.entries) }
{
    let sums = sums_by_traceback(alloc, rows)?;
    let by_frame = spread(alloc, &sums, by_line, cumulative, table)?;
    Ok(by_frame)
}
