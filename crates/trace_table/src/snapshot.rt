//! Snapshots: traces as they were held once.
//!
//! The rows of a snapshot stand in order: the traces of blocks first, by the bytes of the blocks' names, and
//! then those of marked numbers, by their domains and then by number. Names compare by their ranks, so no text
//! is read:
//!
//! ```text
//! key             text   rank
//! block 2         dict      1
//! block 1         list      2
//! number 7, 64
//! number 8, 16
//! ```
ghost use Rattle.std.specs.Prelude.{◌≡◌, map, IfOk};
ghost use Rattle.trace_table.specs.Plain.{row_of};
ghost use Rattle.trace_table.specs.Rows.{ranked_cmp, AreAllRows};

use crate::key::{TraceKey, TraceOf};
use crate::ranks::Ranks;
use frame_stack::TbId;
use mem_base::List;
use std::alloc::{AllocError, Global};
use std::cmp::Ordering;
use std::collections::HashMap;

/// One trace of a snapshot: its key, how many bytes, the number of the frames that it keeps, and how many
/// frames there were.
#[derive(Clone, Copy, Debug, PartialEq, Eq)]
pub struct Row {
    pub key: TraceKey,
    pub size: u64,
    pub trace: TbId,
    pub total: u32,
}

/// The traces that were held once, in order, and how many frames a trace kept at most.
#[derive(Debug, Drop, PartialEq)]
pub struct Snapshot {
    pub limit: u32,
    pub rows: List<Row>,
}

// The rows of all traces, as the table gives them.
fn rows_of(alloc: Global, traces: &HashMap<TraceKey, TraceOf>) -> Result<Vec<Row>, AllocError>
    ensures { IfOk result (λ v. v.items ≡ map (λ e. row_of e.0 e.1) traces.now.entries) }
{
    let mut rows = Vec::with_capacity(alloc, traces.len())?;
    for (key, of) in traces {
        rows.push(Row {
            key: *key,
            size: of.size,
            trace: of.trace,
            total: of.total,
        })?;
    }
    Ok(rows)
}

// Rows by their keys.
fn compare_rows(ranks: &Ranks, a: &Row, b: &Row) -> Ordering
    ensures { result ≡ ranked_cmp ranks.now a.now.key b.now.key }
{
    match (a.key, b.key) {
        (TraceKey::Block(a), TraceKey::Block(b)) => ranks.of(a).cmp(&ranks.of(b)),
        (TraceKey::Block(_), TraceKey::Number(_, _)) => Ordering::Less,
        (TraceKey::Number(_, _), TraceKey::Block(_)) => Ordering::Greater,
        (TraceKey::Number(d, m), TraceKey::Number(e, n)) => d.cmp(&e).then(m.cmp(&n)),
    }
}

/// The rows of all traces, in order.
pub fn rows_in_order(
    alloc: Global,
    traces: &HashMap<TraceKey, TraceOf>,
    ranks: &Ranks,
) -> Result<Vec<Row>, AllocError>
    ensures { IfOk result (λ v. AreAllRows ranks.now traces.now.entries v.items) }
{
    // The length of the map says that no key has two traces.
    let _count = traces.len();
    let mut rows = rows_of(alloc, traces)?;
    rows.sort_unstable_by(|a, b| compare_rows(ranks, a, b));
    Ok(rows)
}
