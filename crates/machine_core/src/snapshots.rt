//! What `tracemalloc.take_snapshot`, `Snapshot.filter_traces`, `Snapshot.statistics` and `Snapshot.compare_to` of
//! `Lib/tracemalloc.py` do: snapshots under names, what rules leave of them, their statistics, and the changes from
//! one to another. A dump is a snapshot as text, which takes the place of the pickled files of `Snapshot.dump`.
//!
//! The rows of a snapshot stand in the order of their blocks' names. All names are put in order once, when the
//! first snapshot is taken, and then stand there by number:
//!
//! ```text
//!     ranks       name 3: 0    name 4: 1    name 2: 2                  once for the machine
//!     snapshots   name 7: the traces of names 3 and 2                  one for each name that was given
//! ```
ghost use Rattle.std.specs.Prelude.{◌≡◌, ◌<◌, true, ℕ, List, length, is_some, IfOk, IfSome, OnErr};
ghost use Rattle.mem_base.specs.Texts.{IsDistinct};
ghost use Rattle.mem_base.specs.declared.trace.Op.TheVariants as ops;
ghost use Rattle.event_model.specs.Replies.{IsKnownReply};
ghost use Rattle.domain_api.specs.Domains.{not_asked};
ghost use Rattle.trace_table.specs.Plain.{IsKnownKey};
ghost use Rattle.trace_table.specs.Ranks.{AreRanks};
ghost use Rattle.trace_table.specs.Traces.{trace_at};
ghost use Rattle.trace_table.specs.declared.key.TraceKey.{TraceKey};
ghost use Rattle.machine_core.specs.Acts.{ActsAmong, IsSound};
ghost use Rattle.machine_core.specs.Snapshots.{IsKeptNow};

use crate::held::Held;
use mem_base::{Reply, Rule, TextId, Texts};
use snap_stats::Grouping;
use snap_store::Snapshots;
use std::alloc::{AllocError, Global};
use trace_table::{MarkError, Ranks, Tracing};

// What is traced is kept under the name, where anything is.
fn keep_traces(
    alloc: Global,
    tracing: &Tracing,
    ranks: &Ranks,
    snapshots: &mut Snapshots,
    name: TextId,
) -> Result<Reply, AllocError>
    requires { (key : TraceKey) → is_some (trace_at tracing.now.traces key) ≡ true
        → IsKnownKey (length ranks.now) key }
    ensures kept { (texts : List (List ℕ)) → IsDistinct texts → AreRanks texts ranks.now
        → IfOk result (IsKeptNow texts tracing.now name snapshots.old snapshots.new) }
    ensures known { (texts : ℕ) → IfOk result (IsKnownReply texts) }
    ensures err { OnErr result (snapshots.new ≡ snapshots.old) }
{
    match tracing.snapshot(alloc, ranks) {
        Ok(s) => {
            let count = snapshots.put(name, s)?;
            Ok(Reply::Kept(count))
        }
        Err(MarkError::NotTracing) => Ok(Reply::NotTracing),
        Err(MarkError::OutOfMemory) => Err(AllocError),
    }
}

impl Held {
    /// What is traced now is kept under the name, in the place of what it had. The error is want of memory.
    pub(crate) fn snapshot(
        &mut self,
        alloc: Global,
        name: TextId,
        texts: &Texts,
    ) -> Result<Reply, AllocError>
        requires known { name.0 < length texts.now }
        requires sound { IsSound texts.now self.old }
        ensures acts { (t : ℕ) → IfOk result
            (ActsAmong texts.now t (ops.Snapshot name) self.old self.new not_asked) }
        ensures known { IfOk result (IsKnownReply (length texts.now)) }
        ensures others { self.new ≡ record self.old { ranks = self.new.ranks; snapshots = self.new.snapshots } }
        ensures err { OnErr result (self.new ≡ self.old) }
    {
        // The length of the table says that no text stands twice.
        let _texts = texts.len();
        match &self.ranks {
            Some(ranks) => keep_traces(alloc, &self.tracing, ranks, &mut self.snapshots, name),
            None => {
                let ranks = Ranks::new(alloc, texts)?;
                let reply = keep_traces(alloc, &self.tracing, &ranks, &mut self.snapshots, name)?;
                self.ranks = Some(ranks);
                Ok(reply)
            }
        }
    }

    /// What the rules leave of the old name's snapshot is kept under the new name. The error is want of memory.
    pub(crate) fn keep(
        &mut self,
        alloc: Global,
        new: TextId,
        old: TextId,
        rules: &[Rule],
        texts: &Texts,
    ) -> Result<Reply, AllocError>
        requires new { new.0 < length texts.now }
        requires old { old.0 < length texts.now }
        requires sound { IsSound texts.now self.old }
        ensures acts { (t : ℕ) → IfOk result
            (ActsAmong texts.now t (ops.Keep new old rules.now) self.old self.new not_asked) }
        ensures known { IfOk result (IsKnownReply (length texts.now)) }
        ensures others { self.new ≡ record self.old { snapshots = self.new.snapshots } }
        ensures err { OnErr result (self.new ≡ self.old) }
    {
        let table = self.callers.tracebacks();
        match self.snapshots.keep(alloc, new, old, rules, texts, table)? {
            Some(count) => Ok(Reply::Kept(count)),
            None => Ok(Reply::NoSnapshot),
        }
    }

    /// The first statistics of a name's snapshot, and how many there are. The error is want of memory.
    pub(crate) fn stats(
        &self,
        alloc: Global,
        name: TextId,
        by: Grouping,
        most: u32,
        texts: &Texts,
    ) -> Result<Reply, AllocError>
        requires known { name.0 < length texts.now }
        requires sound { IsSound texts.now self.now }
        ensures acts { (t : ℕ) → IfOk result
            (ActsAmong texts.now t (ops.Stats name by.key by.cumulative most) self.now self.now not_asked) }
        ensures known { IfOk result (IsKnownReply (length texts.now)) }
    {
        let table = self.callers.tracebacks();
        match self.snapshots.stats(alloc, name, by, most, texts, table)? {
            Some((count, first)) => Ok(Reply::Groups(count, first)),
            None => Ok(Reply::NoSnapshot),
        }
    }
    /// The first changes from an old name's snapshot to a new name's, and how many there are. The names are the new
    /// one and the old one. The error is want of memory.
    pub(crate) fn compare(
        &self,
        alloc: Global,
        names: (TextId, TextId),
        by: Grouping,
        most: u32,
        texts: &Texts,
    ) -> Result<Reply, AllocError>
        requires new { names.0.0 < length texts.now }
        requires old { names.1.0 < length texts.now }
        requires sound { IsSound texts.now self.now }
        ensures acts { (t : ℕ) → IfOk result (ActsAmong texts.now t
            (ops.Compare names.0 names.1 by.key by.cumulative most) self.now self.now not_asked) }
        ensures known { IfOk result (IsKnownReply (length texts.now)) }
    {
        let table = self.callers.tracebacks();
        match self
            .snapshots
            .compare(alloc, names, by, most, texts, table)?
        {
            Some((count, first)) => Ok(Reply::Diffs(count, first)),
            None => Ok(Reply::NoSnapshot),
        }
    }

    /// The name's snapshot as text. The error is want of memory.
    pub(crate) fn dump(
        &self,
        alloc: Global,
        name: TextId,
        texts: &Texts,
    ) -> Result<Reply, AllocError>
        requires known { name.0 < length texts.now }
        requires sound { IsSound texts.now self.now }
        ensures acts { (t : ℕ) → IfOk result
            (ActsAmong texts.now t (ops.Dump name) self.now self.now not_asked) }
        ensures known { IfOk result (IsKnownReply (length texts.now)) }
    {
        let table = self.callers.tracebacks();
        match self.snapshots.dump(alloc, name, texts, table)? {
            Some(text) => Ok(Reply::Dumped(text)),
            None => Ok(Reply::NoSnapshot),
        }
    }
}
