//! Which track may go on, and what the end of an operation leaves.
//!
//! A track is ready where it has an operation left and need not wait for another track: only `acquire`
//! waits, while another track owns the interpreter lock. A track that has done its last operation lets
//! go of the lock, as a thread that ends does.
ghost use Rattle.std.specs.Prelude.{◌≡◌, ◌≤◌, ◌+◌, ◌<◌, ◌^◌, ◌&&◌, ℕ, List, true, false, if◌then◌else◌};
ghost use Rattle.std.specs.Prelude.{length, slice_index, slice_set, IfSome, IfNone, None, is_some, not};
ghost use Rattle.std.specs.Option.{option_copied};
ghost use Rattle.mem_base.specs.Name.{Name};
ghost use Rattle.trace_model.specs.Plain.{plain};
ghost use Rattle.trace_model.specs.Known.{op_at};
ghost use Rattle.event_model.specs.Effects.{may_do_next};
ghost use Rattle.event_model.specs.Events.{let_go};
ghost use Rattle.event_model.specs.Schedule.{IsFirstReady};
ghost use Rattle.event_model.specs.Replies.{is_fault as is_fault_reply, plain_reply};
ghost use Rattle.event_model.specs.State.{is_owner};
ghost use Rattle.machine_core.specs.Deeds.{deed_for};
ghost use Rattle.machine_core.specs.Progress.{IsProgress};
ghost use Rattle.machine_core.specs.Ready.{is_ready_now};

use crate::progress::Progress;
use mem_base::{Op, Reply, Trace, TrackId};

/// The operation of a track at an index.
pub(crate) fn next_op(trace: &Trace, t: TrackId, at: u32) -> Option<&Op>
    ensures { option_copied result ≡ op_at trace.now.tracks t at }
{
    match trace.tracks.get(t as usize) {
        Some(track) => track.ops.get(at as usize),
        None => None,
    }
}

/// Whether a track has an operation at an index.
pub(crate) fn has_op(trace: &Trace, t: TrackId, at: u32) -> bool
    ensures { result ≡ is_some (op_at trace.now.tracks t at) }
{
    next_op(trace, t, at).is_some()
}

// Whether the track need not wait for another track to do this: only the lock is waited for.
fn may_go_on(owner: Option<TrackId>, t: TrackId, op: &Op) -> bool
    ensures { (texts : List Name) → result ≡ may_do_next owner t (deed_for texts op.now) }
{
    if !matches!(op, Op::Acquire) {
        return true;
    }
    owner.is_none() || owner == Some(t)
}

/// Whether the track has an operation left, and needs wait for no other; a track that is none has nothing
/// left.
#[tactic(auto, using(crate::proofs::StepLemmas::none_past))]
pub(crate) fn is_ready_at(trace: &Trace, owner: Option<TrackId>, done: &[u32], t: TrackId) -> bool
    requires { length done.now ≡ length trace.now.tracks }
    ensures { result ≡ is_ready_now trace.now owner done.now t }
{
    if t as usize >= done.len() {
        return false;
    }
    match next_op(trace, t, done[t as usize]) {
        Some(op) => may_go_on(owner, t, op),
        None => false,
    }
}

/// The first track that is ready: it is among those that have operations left.
pub(crate) fn first_ready_at(
    trace: &Trace,
    owner: Option<TrackId>,
    progress: &Progress,
) -> Option<TrackId>
    requires { IsProgress trace.now progress.now }
    ensures first { IfSome result (IsFirstReady (is_ready_now trace.now owner progress.now.done.items)) }
    ensures none { IfNone result
        ((t : ℕ) → is_ready_now trace.now owner progress.now.done.items t ≡ false) }
{
    let done = progress.done.as_slice();
    let unfinished = progress.unfinished.as_slice();
    for i in 0..unfinished.len() {
        let t = unfinished[i];
        if is_ready_at(trace, owner, done, t) {
            return Some(t);
        }
    }
    None
}

// Whether the reply is a fault.
fn is_fault(reply: &Reply) -> bool
    ensures { (texts : List Name) → result ≡ is_fault_reply (plain_reply texts reply.now) }
{
    match reply {
        Reply::Fault(_, _) => true,
        Reply::Ok
        | Reply::Null
        | Reply::Busy
        | Reply::Absent
        | Reply::Outside
        | Reply::Held
        | Reply::NotHeld
        | Reply::NotTracing
        | Reply::NoSnapshot
        | Reply::Untraced
        | Reply::Bytes(_)
        | Reply::Traced(_, _)
        | Reply::Kept(_)
        | Reply::Frames(_, _)
        | Reply::Groups(_, _)
        | Reply::Diffs(_, _)
        | Reply::Dumped(_)
        | Reply::Heap(_) => false,
    }
}

// The owner once a track has done an operation, and has more to do or not: a finished track lets go of the
// lock.
fn owner_then(owner: Option<TrackId>, t: TrackId, more: bool) -> Option<TrackId>
    ensures { result ≡ (if is_owner owner t && not more then None else owner) }
{
    if owner == Some(t) && !more {
        None
    } else {
        owner
    }
}

/// Counts the operation of a track as done, unless the reply is a fault; answers whether it is one.
pub(crate) fn settle(
    trace: &Trace,
    owner: &mut Option<TrackId>,
    progress: &mut Progress,
    t: TrackId,
    reply: &Reply,
) -> bool
    requires is { IsProgress trace.now progress.old }
    requires track { t < length progress.old.done.items }
    requires fits { slice_index progress.old.done.items t + 1 < 2 ^ 32 }
    ensures fault { (texts : List Name) → result ≡ is_fault_reply (plain_reply texts reply.now) }
    ensures owner { owner.new ≡ (if result then owner.old
        else let_go (plain trace.now).tracks t (slice_index progress.old.done.items t + 1) owner.old) }
    ensures done { progress.new.done.items ≡ (if result then progress.old.done.items
        else slice_set progress.old.done.items t (slice_index progress.old.done.items t + 1)) }
    ensures is { IsProgress trace.now progress.new }
{
    let fault = is_fault(reply);
    if !fault {
        let more = progress.count(trace, t);
        *owner = owner_then(*owner, t, more);
    }
    fault
}
