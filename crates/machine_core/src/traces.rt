//! What tracemalloc does while operations are done: `tracemalloc_alloc`, `tracemalloc_realloc` and
//! `tracemalloc_free`, `PyTraceMalloc_Track` and `PyTraceMalloc_Untrack`, and `tracemalloc_get_traceback` of
//! `Modules/_tracemalloc.c`.
//!
//! A block that somebody gets while anything is traced has a trace under its name, of the frames that the
//! track has then, until its name is given up. A source is asked last of all that can fail, and what it
//! granted must be traced. So such an operation goes in three steps:
//!
//! ```text
//!     prepare    the frames that a trace keeps get their number, and there is memory for one trace more
//!     ask        the block comes, changes or goes
//!     trace      where the answer is `ok`, the name gets the trace that was prepared or loses its own
//! ```
//!
//! The last step cannot fail. Where memory runs out in a step before it, all is as it was, but that
//! the table of tracebacks may be longer and the map of traces larger: no number and no trace changes.
//!
//! Unlike there, where a trace is added behind the block's back and the block is given up again if there is
//! no memory for it, the memory comes first; and a mark takes what it needs before it changes anything.
ghost use Rattle.std.specs.Prelude.{◌≡◌, ◌<◌, ◌≤◌, ℕ, false, List, length, IfOk, IfSome, IfNone, OnErr, None};
ghost use Rattle.mem_base.specs.Name.{Name};
ghost use Rattle.mem_base.specs.declared.trace.Op.TheVariants as ops;
ghost use Rattle.tracing_model.specs.Traces.{of_block};
ghost use Rattle.tracing_model.specs.Tracing.{gets};
ghost use Rattle.mem_base.specs.Texts.{text_at};
ghost use Rattle.trace_model.specs.Plain.{IsKnownAmong};
ghost use Rattle.event_model.specs.Replies.{plain_reply, IsKnownReply};
ghost use Rattle.event_model.specs.Replies.{is_ok as is_ok_reply};
ghost use Rattle.domain_api.specs.Domains.{not_asked};
ghost use Rattle.machine_core.specs.Acts.{Acts, IsSound};
ghost use Rattle.machine_core.specs.Deeds.{is_quiet};
ghost use Rattle.machine_core.specs.Held.{IsAsItWas};
ghost use Rattle.machine_core.specs.Prepared.{HasRoom, IsPrepared, IsPreparedFor, IsTraceBy, Makes};

use crate::held::Held;
use mem_base::{List, Op, Reply, TextId, TrackId};
use std::alloc::{AllocError, Global};
use trace_table::{MarkError, TraceOf};

/// What an operation that answers `ok` makes of the traces.
#[derive(Clone, Copy, Debug)]
pub(crate) enum Prepared {
    /// The name gets this trace, and there is memory for it.
    Gets(TextId, TraceOf),
    /// The name loses its trace, where it has one.
    Forgets(TextId),
    Nothing,
}

// Whether the operation was done.
fn is_ok(reply: &Reply) -> bool
    ensures { (texts : List Name) → result ≡ is_ok_reply (plain_reply texts reply.now) }
{
    matches!(reply, Reply::Ok)
}

impl Held {
    // The trace of so many bytes by the track, while anything is traced.
    fn trace_by(&mut self, t: TrackId, size: u64) -> Result<Option<TraceOf>, AllocError>
        requires { t < length self.old.callers.frames }
        ensures trace { IfOk result (λ of. IfSome of (IsTraceBy self.new t size)) }
        ensures none { IfOk result (λ of. IfNone of (self.old.tracing.limit ≡ None)) }
        ensures as_it_was { IsAsItWas self.old self.new }
    {
        let Some(limit) = self.tracing.limit() else {
            return Ok(None);
        };
        let trace = self.callers.recent(t, limit)?;
        let total = self.callers.total(t);
        Ok(Some(TraceOf { size, trace, total }))
    }

    // Makes ready for the block of a name, which may get so many bytes.
    fn prepare_for(&mut self, t: TrackId, name: TextId, size: u64) -> Result<Prepared, AllocError>
        requires track { t < length self.old.callers.frames }
        requires known { name.0 < length self.old.store.blocks }
        ensures prepared { IfOk result (λ p. (texts : List Name) →
            IsPreparedFor texts self.new t p (gets (of_block (text_at texts name)) size)) }
        ensures room { IfOk result (HasRoom self.new.tracing) }
        ensures as_it_was { IsAsItWas self.old self.new }
    {
        match self.trace_by(t, size)? {
            Some(of) => {
                self.tracing.reserve_one()?;
                Ok(Prepared::Gets(name, of))
            }
            None => Ok(Prepared::Nothing),
        }
    }

    /// Makes ready for what an operation that may ask a source makes of the traces where it answers `ok`.
    /// The error is want of memory.
    pub(crate) fn prepare(&mut self, t: TrackId, op: &Op) -> Result<Prepared, AllocError>
        requires track { t < length self.old.callers.frames }
        requires known { IsKnownAmong (length self.old.store.blocks) op.now }
        requires asking { is_quiet op.now ≡ false }
        ensures prepared { IfOk result (IsPrepared t op.now self.new) }
        ensures room { IfOk result (HasRoom self.new.tracing) }
        ensures as_it_was { IsAsItWas self.old self.new }
    {
        match op {
            Op::Malloc(_, name, size) => self.prepare_for(t, *name, *size),
            Op::Realloc(_, name, size) => self.prepare_for(t, *name, *size),
            Op::Calloc(_, name, elements, size) => match elements.checked_mul(*size) {
                Some(size) => self.prepare_for(t, *name, size),
                // No block has so many bytes.
                None => Ok(Prepared::Nothing),
            },
            Op::Free(_, name) => Ok(Prepared::Forgets(*name)),
            Op::Refuse(_, _) => Ok(Prepared::Nothing),
            Op::Acquire
            | Op::Release
            | Op::Poke(_, _, _)
            | Op::Peek(_, _, _)
            | Op::Enter(_, _)
            | Op::Line(_)
            | Op::Leave
            | Op::Start(_)
            | Op::Stop
            | Op::Clear
            | Op::ResetPeak
            | Op::Traced
            | Op::Mark(_, _, _)
            | Op::Unmark(_, _)
            | Op::Origin(_)
            | Op::Snapshot(_)
            | Op::Keep(_, _, _)
            | Op::Stats(_, _, _, _)
            | Op::Compare(_, _, _, _, _)
            | Op::Dump(_)
            | Op::Heap => unreachable!(),
        }
    }

    /// Makes of the traces what was prepared, where the operation answered `ok`. This cannot fail.
    pub(crate) fn trace(&mut self, prepared: Prepared, reply: &Reply)
        requires { HasRoom self.old.tracing prepared }
        ensures makes { Makes prepared reply.now self.old.tracing self.new.tracing }
        ensures others { self.new ≡ record self.old { tracing = self.new.tracing } }
    {
        if !is_ok(reply) {
            return;
        }
        match prepared {
            Prepared::Gets(name, of) => self.tracing.add(name, of),
            Prepared::Forgets(name) => self.tracing.remove(name),
            Prepared::Nothing => {}
        }
    }

    /// A number of a domain gets a trace of so many bytes by the track, in place of the one that it had. The
    /// error is want of memory.
    pub(crate) fn mark(
        &mut self,
        t: TrackId,
        domain: u32,
        number: u64,
        size: u64,
    ) -> Result<Reply, AllocError>
        requires track { t < length self.old.callers.frames }
        requires domain { 1 ≤ domain }
        ensures acts { IfOk result (Acts t (ops.Mark domain number size) self.old self.new not_asked) }
        ensures known { IfOk result (IsKnownReply (length self.old.store.blocks)) }
        ensures store { self.new.store ≡ self.old.store }
        ensures stacks { self.new.callers.frames ≡ self.old.callers.frames }
        ensures err { OnErr result (IsAsItWas self.old self.new) }
    {
        let Some(of) = self.trace_by(t, size)? else {
            return Ok(Reply::NotTracing);
        };
        match self.tracing.mark(domain, number, of) {
            Ok(()) => Ok(Reply::Ok),
            Err(MarkError::NotTracing) => Ok(Reply::NotTracing),
            Err(MarkError::OutOfMemory) => Err(AllocError),
        }
    }

    /// The trace of a number of a domain goes, where it has one.
    pub(crate) fn unmark(&mut self, domain: u32, number: u64) -> Reply
        ensures acts { (t : ℕ) → Acts t (ops.Unmark domain number) self.old self.new not_asked result }
        ensures known { (texts : ℕ) → IsKnownReply texts result }
        ensures others { self.new ≡ record self.old { tracing = self.new.tracing } }
    {
        match self.tracing.unmark(domain, number) {
            Ok(()) => Reply::Ok,
            Err(_) => Reply::NotTracing,
        }
    }

    /// The frames of a block's trace. The error is want of memory.
    pub(crate) fn origin(&self, alloc: Global, name: TextId) -> Result<Reply, AllocError>
        requires known { name.0 < length self.now.store.blocks }
        requires sound { (names : List Name) × IsSound names self.now }
        ensures acts { (t : ℕ) → IfOk result (Acts t (ops.Origin name) self.now self.now not_asked) }
        ensures known { IfOk result (IsKnownReply (length self.now.store.blocks)) }
    {
        match self.tracing.get(name) {
            Some(of) => {
                let kept = List::from_slice(alloc, self.callers.frames(of.trace))?;
                Ok(Reply::Frames(kept, of.total))
            }
            None => Ok(Reply::Untraced),
        }
    }
}
