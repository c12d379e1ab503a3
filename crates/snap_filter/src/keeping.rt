//! The rows that stay.
ghost use Rattle.std.specs.Prelude.{◌≡◌, filter, IfOk};
ghost use Rattle.snapshot_model.specs.Rules.{kept_by, stays};
ghost use Rattle.trace_table.specs.Plain.{plain_row, plain_snapshot, IsHeld};

use crate::rules::{read_all, rows_that_stay};
use frame_stack::Tracebacks;
use mem_base::{List, Rule, Texts};
use std::alloc::{AllocError, Global};
use trace_table::Snapshot;

/// What the rules keep of the snapshot, whose files and tracebacks have their numbers in these tables. The
/// rows that stay keep their order. The error is that there was no memory.
pub fn keep(
    alloc: Global,
    s: &Snapshot,
    rules: &[Rule],
    texts: &Texts,
    table: &Tracebacks,
) -> Result<Snapshot, AllocError>
    requires { IsHeld texts.now table.now s.now.rows }
    ensures kept { IfOk result (λ k.
        plain_snapshot texts.now table.now k ≡ kept_by rules.now (plain_snapshot texts.now table.now s.now)) }
    ensures rows { IfOk result (λ k.
        k.rows ≡ filter (λ row. stays rules.now (plain_row texts.now table.now row)) s.now.rows) }
    ensures held { IfOk result (λ k. IsHeld texts.now table.now k.rows) }
{
    let mut held = read_all(alloc, rules, texts, table)?;
    let rows = rows_that_stay(alloc, &mut held, s.rows.as_slice())?;
    Ok(Snapshot {
        limit: s.limit,
        rows: List::from_vec(rows),
    })
}
