//! What operations work on, and what each of them does to it.
//!
//! An operation of a track comes to one call: of the store for a block (`malloc`, `calloc`, `realloc`,
//! `free`, `poke`, `peek`) and for the heap's shape, of the owner for the interpreter lock (`take_gil` and
//! `drop_gil` of CPython's `ceval_gil.c`, without the waiting: a track that has to wait is not ready), of
//! the callers for a frame that comes, goes on or goes, of the traces for what tracemalloc's functions do,
//! and of a source for a refusal. What follows for the traces from a call of the store stands in `traces`, and what
//! is kept of the traces in `snapshots`.
//!
//! ```text
//!     store      name 3: a block of 100 bytes        name 4: none
//!     owner      track 0
//!     callers    track 0: main.py:3 load.py:10       track 1: no frames       tracebacks 0, 1, ..
//!     tracing    limit 1    name 3: 100 bytes, traceback 1, of 2 frames       sum 100, peak 140
//!     ranks      none, until the first snapshot is taken
//!     snapshots  name 9: the traces that there were, in the order of their names
//! ```
ghost use Rattle.std.specs.Prelude.{◌≡◌, ◌<◌, ◌≤◌, ◌^◌, List, length, true, false, is_some};
ghost use Rattle.std.specs.Prelude.{IfOk, IfSome, IfNone, OnOk, OnErr};
ghost use Rattle.mem_base.specs.Name.{Name};
ghost use Rattle.mem_base.specs.declared.limits.TheConstants.{MAX_REFUSAL};
ghost use Rattle.mem_base.specs.declared.trace.Side.TheVariants as sides;
ghost use Rattle.trace_model.specs.Plain.{IsKnownAmong};
ghost use Rattle.event_model.specs.Lock.{acquire_turn, release_turn};
ghost use Rattle.event_model.specs.Replies.{plain_reply, IsKnownReply};
ghost use Rattle.event_model.specs.State.{is_owner};
ghost use Rattle.domain_api.specs.Domains.{not_asked};
ghost use Rattle.block_store.specs.Sources.{AreHeld, CanAsk, Fails, FailsUnrefused, IsPassedOn};
ghost use Rattle.block_store.specs.Store.{HoldsTheSame};
ghost use Rattle.machine_core.specs.Acts.{told_where, ActsAmong, Affects, AsksArenas, AsksRaws, IsSound};
ghost use Rattle.machine_core.specs.Deeds.{is_quiet};
ghost use Rattle.machine_core.specs.Held.{IsAsItWas};

use block_store::{Answer, Call, Store};
use frame_stack::Callers;
use mem_base::{Letter, Op, Reply, Side, Texts, TrackId};
use snap_stats::Grouping;
use snap_store::Snapshots;
use sources::{ArenaSource, RawSource};
use std::alloc::{AllocError, Global};
use trace_table::{Ranks, Tracing};

/// What operations work on: the blocks, the track that owns the interpreter lock, the frames of the tracks
/// with their tracebacks, the traces, where each name stands in the order of names once that is known, and the
/// snapshots. It must be spent by the store's `end`.
pub(crate) struct Held {
    pub(crate) store: Store,
    pub(crate) owner: Option<TrackId>,
    pub(crate) callers: Callers,
    pub(crate) tracing: Tracing,
    pub(crate) ranks: Option<Ranks>,
    pub(crate) snapshots: Snapshots,
}

// Asks a source to refuse its k-th request from now. The error is want of memory.
fn refuse<A: ArenaSource, R: RawSource>(
    side: Side,
    k: u64,
    arenas: &mut A,
    raws: &mut R,
) -> Result<(), AllocError>
    requires number { (1 ≤ k) × (k ≤ MAX_REFUSAL) }
    requires arena { (A.seen arenas.old).asked < 2 ^ 63 }
    requires raw { (R.seen raws.old).asked < 2 ^ 63 }
    ensures arenas { OnOk result (A.seen arenas.new ≡ told_where sides.Arena side k (A.seen arenas.old)) }
    ensures raws { OnOk result (R.seen raws.new ≡ told_where sides.Raw side k (R.seen raws.old)) }
    ensures arenas_left { OnErr result (A.seen arenas.new ≡ A.seen arenas.old) }
    ensures raws_left { OnErr result (R.seen raws.new ≡ R.seen raws.old) }
{
    match side {
        Side::Arena => arenas.refuse(k),
        Side::Raw => raws.refuse(k),
    }
}

impl Held {
    // The track takes the lock.
    fn acquire(&mut self, t: TrackId) -> Reply
        ensures held { self.new ≡ record self.old { owner = (acquire_turn t self.old.owner).0 } }
        ensures answer { (texts : List Name) → plain_reply texts result ≡ (acquire_turn t self.old.owner).1 }
    {
        if self.owner == Some(t) {
            return Reply::Held;
        }
        self.owner = Some(t);
        Reply::Ok
    }

    // The track lets go of the lock.
    fn release(&mut self, t: TrackId) -> Reply
        ensures held { self.new ≡ record self.old { owner = (release_turn t self.old.owner).0 } }
        ensures answer { (texts : List Name) → plain_reply texts result ≡ (release_turn t self.old.owner).1 }
    {
        if self.owner != Some(t) {
            return Reply::NotHeld;
        }
        self.owner = None;
        Reply::Ok
    }

    // A call of a domain by the track.
    fn call(&self, t: TrackId, letter: Letter) -> Call
        ensures { result ≡ record { letter = letter; locked = is_owner self.now.owner t } }
    {
        Call {
            letter,
            locked: self.owner == Some(t),
        }
    }

    // Does an operation that asks no source, and leaves all others to `asking`.
    fn quiet(
        &mut self,
        alloc: Global,
        t: TrackId,
        op: &Op,
        texts: &Texts,
    ) -> Result<Option<Reply>, AllocError>
        requires known { IsKnownAmong (length self.old.store.blocks) op.now }
        requires track { t < length self.old.callers.frames }
        requires sound { IsSound texts.now self.old }
        ensures done { IfOk result (λ r. is_some r ≡ is_quiet op.now) }
        ensures acts { IfOk result (λ r.
            IfSome r (λ reply. ActsAmong texts.now t op.now self.old self.new not_asked reply)) }
        ensures known { IfOk result (λ r. IfSome r (IsKnownReply (length self.old.store.blocks))) }
        ensures same { HoldsTheSame self.old.store self.new.store }
        ensures stacks { length self.new.callers.frames ≡ length self.old.callers.frames }
        ensures others { IfOk result (λ r. IfNone r (self.new ≡ self.old)) }
        ensures err { OnErr result (IsAsItWas self.old self.new) }
    {
        match op {
            Op::Acquire => Ok(Some(self.acquire(t))),
            Op::Release => Ok(Some(self.release(t))),
            Op::Poke(name, offset, bytes) => {
                let reply = self.store.poke(*name, *offset, bytes.as_slice());
                Ok(Some(reply))
            }
            Op::Peek(name, offset, count) => {
                let reply = self.store.peek(alloc, *name, *offset, *count)?;
                Ok(Some(reply))
            }
            Op::Enter(file, line) => {
                self.callers.enter(t, *file, *line)?;
                Ok(Some(Reply::Ok))
            }
            Op::Line(line) => {
                self.callers.line(t, *line);
                Ok(Some(Reply::Ok))
            }
            Op::Leave => {
                self.callers.leave(t);
                Ok(Some(Reply::Ok))
            }
            Op::Start(limit) => {
                self.tracing.start(*limit);
                Ok(Some(Reply::Ok))
            }
            Op::Stop => {
                self.tracing.stop();
                Ok(Some(Reply::Ok))
            }
            Op::Clear => {
                self.tracing.clear();
                Ok(Some(Reply::Ok))
            }
            Op::ResetPeak => {
                self.tracing.reset_peak();
                Ok(Some(Reply::Ok))
            }
            Op::Traced => {
                let (current, peak) = self.tracing.traced();
                Ok(Some(Reply::Traced(current, peak)))
            }
            Op::Mark(domain, number, size) => {
                let reply = self.mark(t, *domain, *number, *size)?;
                Ok(Some(reply))
            }
            Op::Unmark(domain, number) => Ok(Some(self.unmark(*domain, *number))),
            Op::Origin(name) => {
                let reply = self.origin(alloc, *name)?;
                Ok(Some(reply))
            }
            Op::Snapshot(name) => {
                let reply = self.snapshot(alloc, *name, texts)?;
                Ok(Some(reply))
            }
            Op::Keep(new, old, rules) => {
                let reply = self.keep(alloc, *new, *old, rules.as_slice(), texts)?;
                Ok(Some(reply))
            }
            Op::Stats(name, key, cumulative, most) => {
                let by = Grouping {
                    key: *key,
                    cumulative: *cumulative,
                };
                let reply = self.stats(alloc, *name, by, *most, texts)?;
                Ok(Some(reply))
            }
            Op::Compare(new, old, key, cumulative, most) => {
                let by = Grouping {
                    key: *key,
                    cumulative: *cumulative,
                };
                let reply = self.compare(alloc, (*new, *old), by, *most, texts)?;
                Ok(Some(reply))
            }
            Op::Dump(name) => {
                let reply = self.dump(alloc, *name, texts)?;
                Ok(Some(reply))
            }
            Op::Heap => {
                let view = self.store.view()?;
                Ok(Some(Reply::Heap(view)))
            }
            Op::Malloc(_, _, _)
            | Op::Calloc(_, _, _, _)
            | Op::Realloc(_, _, _)
            | Op::Free(_, _)
            | Op::Refuse(_, _) => Ok(None),
        }
    }

    // Does an operation that may ask a source, or tells it something.
    fn asking<A: ArenaSource, R: RawSource>(
        &mut self,
        t: TrackId,
        op: &Op,
        arenas: &mut A,
        raws: &mut R,
    ) -> Result<Answer, AllocError>
        requires known { IsKnownAmong (length self.old.store.blocks) op.now }
        requires asking { is_quiet op.now ≡ false }
        requires ask { CanAsk self.old.store (A.seen arenas.old) (R.seen raws.old) }
        requires held { AreHeld self.old.store (A.seen arenas.old) (R.seen raws.old) }
        ensures affects { IfOk result (λ a. Affects t op.now self.old self.new a.asked a.reply) }
        ensures known { IfOk result (λ a. IsKnownReply (length self.old.store.blocks) a.reply) }
        ensures asks_arena { IfOk result (λ a.
            AsksArenas op.now a.asked self.old self.new (A.seen arenas.old) (A.seen arenas.new)) }
        ensures asks_raw { IfOk result (λ a.
            AsksRaws op.now a.asked self.old self.new (R.seen raws.old) (R.seen raws.new)) }
        ensures held { AreHeld self.new.store (A.seen arenas.new) (R.seen raws.new) }
        ensures others { self.new ≡ record self.old { store = self.new.store } }
        ensures err { OnErr result (self.new ≡ self.old) }
        ensures fails_arena { OnErr result
            (Fails self.old.store.arenas (A.seen arenas.old) (A.seen arenas.new)) }
        ensures fails_raw { OnErr result
            (FailsUnrefused self.old.store.raws (R.seen raws.old) (R.seen raws.new)) }
        ensures passed { OnErr result
            (IsPassedOn (A.seen arenas.old) (A.seen arenas.new) (R.seen raws.old) (R.seen raws.new)) }
    {
        match op {
            Op::Malloc(letter, name, size) => {
                let call = self.call(t, *letter);
                self.store.malloc(*name, call, *size, arenas, raws)
            }
            Op::Calloc(letter, name, elements, size) => {
                let call = self.call(t, *letter);
                self.store
                    .calloc(*name, call, *elements, *size, arenas, raws)
            }
            Op::Realloc(letter, name, size) => {
                let call = self.call(t, *letter);
                self.store.realloc(*name, call, *size, arenas, raws)
            }
            Op::Free(letter, name) => {
                let call = self.call(t, *letter);
                let reply = self.store.free(*name, call, arenas, raws);
                Ok(Answer::unasked(reply))
            }
            Op::Refuse(side, k) => {
                refuse(*side, *k, arenas, raws)?;
                Ok(Answer::unasked(Reply::Ok))
            }
            Op::Acquire
            | Op::Release
            | Op::Poke(_, _, _)
            | Op::Peek(_, _, _)
            | Op::Enter(_, _)
            | Op::Line(_)
            | Op::Leave
            | Op::Start(_)
            | Op::Stop
            | Op::Clear
            | Op::ResetPeak
            | Op::Traced
            | Op::Mark(_, _, _)
            | Op::Unmark(_, _)
            | Op::Origin(_)
            | Op::Snapshot(_)
            | Op::Keep(_, _, _)
            | Op::Stats(_, _, _, _)
            | Op::Compare(_, _, _, _, _)
            | Op::Dump(_)
            | Op::Heap => unreachable!(),
        }
    }

    /// Does an operation of the track. All that can fail comes before any change, and a request to a
    /// source comes last of that. The error is want of memory: then all is as it was, but for what the
    /// tables of tracebacks and traces have room for, and what a source granted has gone back.
    pub(crate) fn act<A: ArenaSource, R: RawSource>(
        &mut self,
        alloc: Global,
        t: TrackId,
        op: &Op,
        texts: &Texts,
        arenas: &mut A,
        raws: &mut R,
    ) -> Result<Answer, AllocError>
        requires known { IsKnownAmong (length self.old.store.blocks) op.now }
        requires track { t < length self.old.callers.frames }
        requires sound { IsSound texts.now self.old }
        requires ask { CanAsk self.old.store (A.seen arenas.old) (R.seen raws.old) }
        requires held { AreHeld self.old.store (A.seen arenas.old) (R.seen raws.old) }
        ensures acts { IfOk result (λ a.
            ActsAmong texts.now t op.now self.old self.new a.asked a.reply) }
        ensures known { IfOk result (λ a. IsKnownReply (length self.old.store.blocks) a.reply) }
        ensures asks_arena { IfOk result (λ a.
            AsksArenas op.now a.asked self.old self.new (A.seen arenas.old) (A.seen arenas.new)) }
        ensures asks_raw { IfOk result (λ a.
            AsksRaws op.now a.asked self.old self.new (R.seen raws.old) (R.seen raws.new)) }
        ensures held { AreHeld self.new.store (A.seen arenas.new) (R.seen raws.new) }
        ensures stacks { length self.new.callers.frames ≡ length self.old.callers.frames }
        ensures err { OnErr result (IsAsItWas self.old self.new) }
        ensures fails_arena { OnErr result
            (Fails self.old.store.arenas (A.seen arenas.old) (A.seen arenas.new)) }
        ensures fails_raw { OnErr result
            (FailsUnrefused self.old.store.raws (R.seen raws.old) (R.seen raws.new)) }
        ensures passed { OnErr result
            (IsPassedOn (A.seen arenas.old) (A.seen arenas.new) (R.seen raws.old) (R.seen raws.new)) }
    {
        match self.quiet(alloc, t, op, texts)? {
            Some(reply) => Ok(Answer::unasked(reply)),
            None => {
                let prepared = self.prepare(t, op)?;
                let answer = self.asking(t, op, arenas, raws)?;
                self.trace(prepared, &answer.reply);
                Ok(answer)
            }
        }
    }
}
