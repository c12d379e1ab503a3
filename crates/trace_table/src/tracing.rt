//! What is held while tracing.
ghost use Rattle.std.specs.Prelude.{◌≡◌, ◌≤◌, ◌+◌, ◌↔◌, ℕ, max, is_some, true, false, List, [], length};
ghost use Rattle.std.specs.Prelude.{Some, None, IfOk, IfErr, IfSome, IfNone, IsOk, OnOk, OnErr, IsErrOf};
ghost use Rattle.std.specs.HashMap.{hash_map_len, spare};
ghost use Rattle.mem_base.specs.Texts.{IsDistinct};
ghost use Rattle.mem_base.specs.declared.limits.TheConstants.{MAX_FRAME_LIMIT};
ghost use Rattle.trace_table.specs.Plain.{IsKnownKey, IsTaken};
ghost use Rattle.trace_table.specs.Ranks.{AreRanks};
ghost use Rattle.trace_table.specs.Traces.{size_in, trace_at, traced_bytes, AreSmall, Changes};
ghost use Rattle.trace_table.specs.Tracing.{ChangesOne, HoldsTheSame, IsIdle};
ghost use Rattle.trace_table.specs.declared.key.TraceKey.{TraceKey};
ghost use Rattle.trace_table.specs.declared.key.TraceKey.TheVariants as keys;
ghost use Rattle.trace_table.specs.declared.tracing.MarkError.TheVariants as errors;

use crate::key::{TraceKey, TraceOf};
use crate::ranks::Ranks;
use crate::snapshot::{Snapshot, rows_in_order};
use mem_base::{List, TextId};
use std::alloc::{AllocError, Global};
use std::collections::HashMap;
use std::marker::Model;

/// Why a number was not marked, or no snapshot taken.
#[derive(Clone, Copy, Debug, PartialEq, Eq)]
pub enum MarkError {
    NotTracing,
    OutOfMemory,
}

/// The traces that are held, while anything is traced, and their sums.
#[derive(Drop)]
pub struct Tracing {
    limit: Option<u32>,
    traces: HashMap<TraceKey, TraceOf>,
    bytes: u128,
    peak: u128,
}

impl Model for Tracing {
    ghost use Rattle.std.specs.HashMap.{spare, hash_map_len};
    ghost use Rattle.trace_table.specs.Tracing.{TracingView, IsSummed, room};

    ghost Value = { TracingView };

    ghost view = { λ t. record {
      limit = t.limit;
      traces = t.traces.entries;
      peak = t.peak;
      spare = room (spare t.traces) (hash_map_len t.traces);
    } };

    ghost invariant = { λ t. IsSummed t.limit t.traces.entries t.bytes t.peak };
}

// The bytes of a trace, or none.
fn size_of(of: Option<TraceOf>) -> u64
    ensures { result ≡ size_in of }
{
    match of {
        Some(t) => t.size,
        None => 0,
    }
}

// Puts a trace under a key, in place of the one that it had. Answers how many bytes that had.
fn put(traces: &mut HashMap<TraceKey, TraceOf>, key: TraceKey, of: TraceOf) -> u64
    requires { 1 ≤ spare traces.old }
    ensures had { result ≡ size_in (trace_at traces.old.entries key) }
    ensures among { result ≤ traced_bytes traces.old.entries }
    ensures changes { Changes key (Some of) traces.old.entries traces.new.entries }
    ensures small { AreSmall traces.old.entries → AreSmall traces.new.entries }
    ensures one { hash_map_len traces.new ≤ hash_map_len traces.old + 1 }
    ensures spare { spare traces.old ≤ spare traces.new + 1 }
{
    match traces.insert(key, of) {
        Ok(old) => size_of(old),
        Err(_) => unreachable!(),
    }
}

// Takes the trace of a key away, where it has one. Answers how many bytes it had.
fn take_out(traces: &mut HashMap<TraceKey, TraceOf>, key: TraceKey) -> u64
    ensures had { result ≡ size_in (trace_at traces.old.entries key) }
    ensures among { result ≤ traced_bytes traces.old.entries }
    ensures nothing { traces.old.entries ≡ [] → traces.new.entries ≡ [] }
    ensures changes { Changes key None traces.old.entries traces.new.entries }
    ensures small { AreSmall traces.old.entries → AreSmall traces.new.entries }
    ensures none { hash_map_len traces.new ≤ hash_map_len traces.old }
    ensures spare { spare traces.old ≤ spare traces.new }
{
    size_of(traces.remove(&key))
}

// The bytes of all traces once some are gone and others have come.
fn bytes_then(traces: &HashMap<TraceKey, TraceOf>, bytes: u128, gone: u64, come: u64) -> u128
    requires small { AreSmall traces.now.entries }
    requires were { gone ≤ bytes }
    requires change { traced_bytes traces.now.entries + gone ≡ bytes + come }
    ensures { result ≡ traced_bytes traces.now.entries }
{
    // The length of the map says that the sum fits.
    let _count = traces.len();
    bytes - u128::from(gone) + u128::from(come)
}

impl Tracing {
    /// Nothing is traced.
    pub fn new(alloc: Global) -> Tracing
        ensures { IsIdle result }
    {
        Tracing {
            limit: None,
            traces: HashMap::new(alloc),
            bytes: 0,
            peak: 0,
        }
    }

    /// Tracing begins, with so many frames a trace. Where it has begun before, nothing changes.
    pub fn start(&mut self, limit: u32)
        requires { (1 ≤ limit) × (limit ≤ MAX_FRAME_LIMIT) }
        ensures begins { IfNone self.old.limit (self.new ≡ record self.old { limit = Some limit }) }
        ensures nothing { IfNone self.old.limit ((self.new.traces ≡ []) × (self.new.peak ≡ 0)) }
        ensures goes_on { IfSome self.old.limit (λ _. self.new ≡ self.old) }
    {
        if self.limit.is_some() {
            return;
        }
        self.limit = Some(limit);
    }

    /// Tracing stops, and all traces go.
    pub fn stop(&mut self)
        ensures { IsIdle self.new }
    {
        self.clear();
        self.limit = None;
    }

    /// All traces go, and the peak begins again.
    pub fn clear(&mut self)
        ensures limit { self.new.limit ≡ self.old.limit }
        ensures traces { self.new.traces ≡ [] }
        ensures peak { self.new.peak ≡ 0 }
    {
        self.traces.clear();
        self.bytes = 0;
        self.peak = 0;
    }

    /// The peak begins again, at what is traced now.
    pub fn reset_peak(&mut self)
        ensures { self.new ≡ record self.old { peak = traced_bytes self.old.traces } }
    {
        self.peak = self.bytes;
    }

    /// How many bytes are traced, and the most that were.
    pub fn traced(&self) -> (u128, u128)
        ensures { result ≡ (traced_bytes self.now.traces, self.now.peak) }
    {
        (self.bytes, self.peak)
    }

    /// How many frames a trace keeps; `None` where nothing is traced.
    pub fn limit(&self) -> Option<u32>
        ensures { result ≡ self.now.limit }
    {
        self.limit
    }

    /// The trace of a block, by its name.
    pub fn get(&self, name: TextId) -> Option<TraceOf>
        ensures { result ≡ trace_at self.now.traces (keys.Block name) }
    {
        self.traces.get(&TraceKey::Block(name)).copied()
    }

    /// Room for one more trace. The error is that there was no memory, or that there are 4,294,967,295 traces,
    /// which no trace has operations for.
    pub fn reserve_one(&mut self) -> Result<(), AllocError>
        ensures same { HoldsTheSame self.old self.new }
        ensures spare { OnOk result (1 ≤ self.new.spare) }
    {
        if self.traces.len() >= u32::MAX as usize {
            return Err(AllocError);
        }
        self.traces.reserve(1)
    }

    // Puts a trace under a key.
    fn bring(&mut self, key: TraceKey, of: TraceOf)
        requires tracing { is_some self.old.limit ≡ true }
        requires spare { 1 ≤ self.old.spare }
        ensures changes { ChangesOne key (Some of) self.old self.new }
        ensures spare { self.old.spare ≤ self.new.spare + 1 }
    {
        let gone = put(&mut self.traces, key, of);
        self.bytes = bytes_then(&self.traces, self.bytes, gone, of.size);
        self.peak = self.peak.max(self.bytes);
    }

    // Takes the trace of a key away.
    fn take_away(&mut self, key: TraceKey)
        ensures changes { ChangesOne key None self.old self.new }
        ensures nothing { self.old.traces ≡ [] → self.new.traces ≡ [] }
        ensures spare { self.old.spare ≤ self.new.spare }
    {
        let gone = take_out(&mut self.traces, key);
        self.bytes = bytes_then(&self.traces, self.bytes, gone, 0);
    }

    /// A block gets a trace, in place of the one that it had. This cannot fail.
    pub fn add(&mut self, name: TextId, of: TraceOf)
        requires tracing { is_some self.old.limit ≡ true }
        requires spare { 1 ≤ self.old.spare }
        ensures changes { ChangesOne (keys.Block name) (Some of) self.old self.new }
        ensures spare { self.old.spare ≤ self.new.spare + 1 }
    {
        self.bring(TraceKey::Block(name), of);
    }

    /// The trace of a block goes, where it has one.
    pub fn remove(&mut self, name: TextId)
        ensures changes { ChangesOne (keys.Block name) None self.old self.new }
        ensures nothing { self.old.traces ≡ [] → self.new.traces ≡ [] }
        ensures spare { self.old.spare ≤ self.new.spare }
    {
        self.take_away(TraceKey::Block(name));
    }

    /// A number of a domain gets a trace, in place of the one that it had.
    pub fn mark(&mut self, domain: u32, number: u64, of: TraceOf) -> Result<(), MarkError>
        requires { 1 ≤ domain }
        ensures changes { OnOk result (ChangesOne (keys.Number domain number) (Some of) self.old self.new) }
        ensures not_tracing { IsErrOf result errors.NotTracing ↔ (self.old.limit ≡ None) }
        ensures err { OnErr result (HoldsTheSame self.old self.new) }
    {
        if self.limit.is_none() {
            return Err(MarkError::NotTracing);
        }
        if self.reserve_one().is_err() {
            return Err(MarkError::OutOfMemory);
        }
        self.bring(TraceKey::Number(domain, number), of);
        Ok(())
    }

    /// The trace of a number of a domain goes, where it has one. The error is that nothing is traced.
    pub fn unmark(&mut self, domain: u32, number: u64) -> Result<(), MarkError>
        ensures changes { OnOk result (ChangesOne (keys.Number domain number) None self.old self.new) }
        ensures not_tracing { IsErrOf result errors.NotTracing ↔ (self.old.limit ≡ None) }
        ensures err { IfErr result (λ e. (e ≡ errors.NotTracing) × (self.new ≡ self.old)) }
    {
        if self.limit.is_none() {
            return Err(MarkError::NotTracing);
        }
        self.take_away(TraceKey::Number(domain, number));
        Ok(())
    }

    /// The traces as they are now, in the order of their keys: those of blocks by the bytes of the blocks'
    /// names, which `ranks` has as numbers, and then those of marked numbers. The error is that nothing is
    /// traced, or that there was no memory.
    pub fn snapshot(&self, alloc: Global, ranks: &Ranks) -> Result<Snapshot, MarkError>
        requires { (key : TraceKey) → is_some (trace_at self.now.traces key) ≡ true
            → IsKnownKey (length ranks.now) key }
        ensures taken { IfOk result (λ s. (texts : List (List ℕ)) → IsDistinct texts
            → AreRanks texts ranks.now → IsTaken texts self.now s) }
        ensures not_tracing { IsErrOf result errors.NotTracing ↔ (self.now.limit ≡ None) }
    {
        let Some(limit) = self.limit else {
            return Err(MarkError::NotTracing);
        };
        match rows_in_order(alloc, &self.traces, ranks) {
            Ok(rows) => Ok(Snapshot {
                limit,
                rows: List::from_vec(rows),
            }),
            Err(_) => Err(MarkError::OutOfMemory),
        }
    }
}
