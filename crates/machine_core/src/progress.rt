//! How many operations each track has done, and which tracks have operations left.
//!
//! A track that has done its last operation is never ready again. So the tracks that have operations left
//! stand in a list, by number in rising order, and a track leaves the list once, with its last operation:
//!
//! ```text
//!     track         0   1   2   3
//!     operations    3   0   2   5
//!     done          3   0   1   0
//!     unfinished    2, 3
//! ```
//!
//! The first ready track is looked for in this list, and no finished track is looked at again.
ghost use Rattle.std.specs.Prelude.{◌≡◌, ◌≤◌, ◌+◌, ◌<◌, ◌^◌, ◌==◌, filter, length, replicate, is_some, not};
ghost use Rattle.std.specs.Prelude.{slice_index, slice_set, IfOk};
ghost use Rattle.mem_base.specs.declared.limits.TheConstants.{MAX_TRACKS};
ghost use Rattle.trace_model.specs.Known.{op_at};
ghost use Rattle.machine_core.specs.Progress.{IsProgress, unfinished};

use crate::schedule::has_op;
use mem_base::{Trace, TrackId};
use std::alloc::{AllocError, Global};

/// What the tracks have done.
#[derive(Drop)]
pub(crate) struct Progress {
    /// How many operations each track has done.
    pub(crate) done: Vec<u32>,
    /// The tracks that have operations left, in rising order.
    pub(crate) unfinished: Vec<TrackId>,
}

// As many zeros as there are tracks.
fn no_ops_done(alloc: Global, count: usize) -> Result<Vec<u32>, AllocError>
    ensures { IfOk result (λ v. v.items ≡ replicate count 0) }
{
    vec![in alloc; 0; count]
}

// The tracks that have operations at all.
fn with_ops(alloc: Global, trace: &Trace) -> Result<Vec<TrackId>, AllocError>
    requires few { length trace.now.tracks ≤ MAX_TRACKS }
    ensures { IfOk result (λ v. v.items ≡ unfinished trace.now (replicate (length trace.now.tracks) 0)) }
{
    let mut tracks = Vec::new(alloc);
    for t in 0..trace.tracks.len() {
        let t = t as u32;
        if has_op(trace, t, 0) {
            tracks.push(t)?;
        }
    }
    Ok(tracks)
}

// Takes a track out of the list.
fn take_out(tracks: &mut Vec<TrackId>, t: TrackId)
    ensures { tracks.new.items ≡ filter (λ u. not (u == t)) tracks.old.items }
{
    tracks.retain(|u| *u != t);
}

impl Progress {
    /// Nothing is done. The error is want of memory.
    pub(crate) fn new(alloc: Global, trace: &Trace) -> Result<Progress, AllocError>
        requires few { length trace.now.tracks ≤ MAX_TRACKS }
        ensures done { IfOk result (λ p. p.done.items ≡ replicate (length trace.now.tracks) 0) }
        ensures is { IfOk result (λ p. IsProgress trace.now p) }
    {
        let done = no_ops_done(alloc, trace.tracks.len())?;
        let unfinished = with_ops(alloc, trace)?;
        Ok(Progress { done, unfinished })
    }

    /// Counts an operation of the track as done; answers whether the track has more.
    pub(crate) fn count(&mut self, trace: &Trace, t: TrackId) -> bool
        requires is { IsProgress trace.now self.old }
        requires track { t < length self.old.done.items }
        requires fits { slice_index self.old.done.items t + 1 < 2 ^ 32 }
        ensures done { self.new.done.items
            ≡ slice_set self.old.done.items t (slice_index self.old.done.items t + 1) }
        ensures is { IsProgress trace.now self.new }
        ensures more { result ≡ is_some (op_at trace.now.tracks t (slice_index self.old.done.items t + 1)) }
    {
        let after = self.done[t as usize] + 1;
        self.done[t as usize] = after;
        let more = has_op(trace, t, after);
        if !more {
            take_out(&mut self.unfinished, t);
        }
        more
    }
}
