//! The keys of two tables of sums, each once, and what has changed of their sums.
//!
//! Each key of the new table stands with the sum that it had, and behind these each key that only the old table
//! has. A key that is not in a table has the sum of no sizes there:
//!
//! ```text
//! new          old          pairs: new, old     changes
//! b:7 130, 2   b:7 100, 1   b:7 130, 2 100, 1   b:7 130 +30, 2 +1
//! a:9  30, 1   a:4  30, 1   a:9  30, 1   0, 0   a:9  30 +30, 1 +1
//!                           a:4   0, 0  30, 1   a:4   0 -30, 0 -1
//! ```
ghost use Rattle.std.specs.Prelude.{◌≡◌, ◌<◌, ◌++◌, ◌∷◌, [], All, length, map, IfOk, OnOk};
ghost use Rattle.indexmap.specs.IndexMap.{IsUnique};
ghost use Rattle.frame_stack.specs.Tracebacks.{traceback_at};
ghost use Rattle.snap_stats.specs.Pairs.{sum_at, vanished, pairs_of};
ghost use Rattle.snap_stats.specs.Pairs.{diff_by, whole_change, IsSmallPair};

use crate::changed::Changed;
use crate::sums::Sum;
use frame_stack::{TbId, Tracebacks};
use indexmap::IndexMap;
use mem_base::Frame;
use std::alloc::{AllocError, Global};
use std::hash::Hash;
use std::slice;

const NOTHING: Sum = Sum { size: 0, count: 0 };

/// A key, and its sums in the new and in the old of two tables.
#[derive(Clone, Copy)]
pub struct Pair<K> {
    pub key: K,
    pub new: Sum,
    pub old: Sum,
}

// The key's sum, or that of no sizes.
fn sum_at<K: Copy + Eq + Hash>(sums: &IndexMap<K, Sum>, key: K) -> Sum
    ensures { result ≡ sum_at K.eq sums.now.entries key }
{
    match sums.get(&key) {
        Some(sum) => *sum,
        None => NOTHING,
    }
}

// Adds the keys that only the old sums have.
fn add_vanished<K: Copy + Eq + Hash>(
    pairs: &mut Vec<Pair<K>>,
    new: &IndexMap<K, Sum>,
    old: &IndexMap<K, Sum>,
) -> Result<(), AllocError>
    ensures { OnOk result (pairs.new.items
        ≡ pairs.old.items ++ vanished K.eq new.now.entries old.now.entries) }
{
    for (key, sum) in old {
        if !new.contains_key(key) {
            pairs.push(Pair {
                key: *key,
                new: NOTHING,
                old: *sum,
            })?;
        }
    }
    Ok(())
}

/// Each key of either table, once: those of the new one, and then those that only the old one has.
pub fn paired<K: Copy + Eq + Hash>(
    alloc: Global,
    new: &IndexMap<K, Sum>,
    old: &IndexMap<K, Sum>,
) -> Result<Vec<Pair<K>>, AllocError>
    ensures new { IsUnique K.eq new.now }
    ensures old { IsUnique K.eq old.now }
    ensures pairs { IfOk result (λ v. v.items ≡ pairs_of K.eq new.now.entries old.now.entries) }
{
    let mut pairs = Vec::with_capacity(alloc, new.len().max(old.len()))?;
    for (key, sum) in new {
        pairs.push(Pair {
            key: *key,
            new: *sum,
            old: sum_at(old, *key),
        })?;
    }
    add_vanished(&mut pairs, new, old)?;
    Ok(pairs)
}

/// The changes of keys that are tracebacks.
pub fn tracebacks_changed<'a>(
    alloc: Global,
    pairs: &[Pair<TbId>],
    table: &'a Tracebacks,
) -> Result<Vec<Changed<'a>>, AllocError>
    requires known { All (λ p. p.key.0 < length table.now) pairs.now }
    requires small { All IsSmallPair pairs.now }
    ensures { IfOk result (λ v. map whole_change v.items ≡ map (diff_by (traceback_at table.now)) pairs.now) }
{
    let mut changes = Vec::with_capacity(alloc, pairs.len())?;
    for pair in pairs {
        changes.push(Changed {
            key: table.frames(pair.key),
            new: pair.new,
            old: pair.old,
        })?;
    }
    Ok(changes)
}

/// The changes of keys that are single frames.
pub fn frames_changed(alloc: Global, pairs: &[Pair<Frame>]) -> Result<Vec<Changed<'_>>, AllocError>
    requires { All IsSmallPair pairs.now }
    ensures { IfOk result (λ v. map whole_change v.items ≡ map (diff_by (λ f. f ∷ [])) pairs.now) }
{
    let mut changes = Vec::with_capacity(alloc, pairs.len())?;
    for pair in pairs {
        changes.push(Changed {
            key: slice::from_ref(&pair.key),
            new: pair.new,
            old: pair.old,
        })?;
    }
    Ok(changes)
}
