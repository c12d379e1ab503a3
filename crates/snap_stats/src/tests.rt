ghost use Rattle.std.specs.Prelude.{◌≡◌, ◌+◌, ◌<◌, ◌≤◌, List, length, IfOk, OnOk};
ghost use Rattle.frame_stack.specs.Callers.{AreAmong};
ghost use Rattle.trace_table.specs.Plain.{IsHeld};
ghost use Rattle.trace_table.specs.declared.snapshot.Row.{Row};

use super::*;
use frame_stack::Tracebacks;
use mem_base::{Diff, Frame, Group, KeyKind, List, TextId, Texts};
use std::alloc::{AllocError, Global};
use std::test::Fail;
use trace_table::{Row, Snapshot, TraceKey};

// The files a.py and b.py, as texts 1 and 2.
fn files(alloc: Global) -> Result<Texts, AllocError>
    ensures { IfOk result (λ texts. 3 ≤ length texts) }
{
    let mut texts = Texts::new(alloc)?;
    texts.intern(b"a.py")?;
    texts.intern(b"b.py")?;
    Ok(texts)
}

fn a(line: u32) -> Frame
    ensures { result ≡ record { file = record { 0 = 1 }; line = line } }
{
    Frame {
        file: TextId(1),
        line,
    }
}

fn b(line: u32) -> Frame
    ensures { result ≡ record { file = record { 0 = 2 }; line = line } }
{
    Frame {
        file: TextId(2),
        line,
    }
}

// One more row: so many bytes by these frames, of so many.
fn push(
    s: &mut Snapshot,
    table: &mut Tracebacks,
    texts: &Texts,
    size: u64,
    frames: &[Frame],
    total: u32,
) -> Result<(), AllocError>
    requires few { length s.old.rows < 8 }
    requires held { IsHeld texts.now table.old s.old.rows }
    requires among { AreAmong (length texts.now) frames.now }
    requires short { length frames.now ≤ 8 }
    ensures held { OnOk result (IsHeld texts.now table.new s.new.rows) }
    ensures more { OnOk result (length s.new.rows ≡ length s.old.rows + 1) }
    ensures others { (rows : List Row) → IsHeld texts.now table.old rows → OnOk result (IsHeld texts.now table.new rows) }
{
    if table.is_full() {
        return Err(AllocError);
    }
    let trace = table.intern(frames)?;
    s.rows.push(Row {
        key: TraceKey::Number(1, size),
        size,
        trace,
        total,
    })?;
    Ok(())
}

// Five rows: the first two have one traceback, and the last two tie in size and count.
fn sample(alloc: Global, texts: &Texts) -> Result<(Snapshot, Tracebacks), AllocError>
    requires { 3 ≤ length texts.now }
    ensures { IfOk result (λ r. IsHeld texts.now r.1 r.0.rows) }
{
    let mut s = Snapshot {
        limit: 2,
        rows: List::new(alloc),
    };
    let mut table = Tracebacks::new(alloc);
    push(&mut s, &mut table, texts, 100, &[a(3), b(7)], 3)?;
    push(&mut s, &mut table, texts, 10, &[a(3), b(7)], 2)?;
    push(&mut s, &mut table, texts, 30, &[b(7)], 1)?;
    push(&mut s, &mut table, texts, 20, &[a(4)], 1)?;
    push(&mut s, &mut table, texts, 20, &[a(9)], 1)?;
    Ok((s, table))
}

// Groups of these keys, sizes and counts, of so many.
fn groups(
    alloc: Global,
    count: u64,
    first: &[(&[Frame], u128, u64)],
) -> Result<(u64, List<Group>), AllocError> {
    let mut list = List::new(alloc);
    for (key, size, count) in first {
        list.push(Group {
            key: List::from_slice(alloc, key)?,
            size: *size,
            count: *count,
        })?;
    }
    Ok((count, list))
}

// The first groups of the sample.
fn first(
    alloc: Global,
    key: KeyKind,
    cumulative: bool,
    most: u32,
) -> Result<(u64, List<Group>), AllocError> {
    let texts = files(alloc)?;
    let (s, table) = sample(alloc, &texts)?;
    first_statistics(
        alloc,
        &s,
        Grouping { key, cumulative },
        most,
        &texts,
        &table,
    )
}

#[test]
fn groups_fall_by_size_count_and_key(rt: HostRuntime) -> Result<(), Fail> {
    let alloc = rt.alloc();
    let lines = first(alloc, KeyKind::Lineno, false, 2)?;
    assert!(rt; lines == groups(alloc, 3, &[(&[b(7)], 140, 3), (&[a(9)], 20, 1)])?);
    let files = first(alloc, KeyKind::Filename, false, 9)?;
    assert!(rt; files == groups(alloc, 2, &[(&[b(0)], 140, 3), (&[a(0)], 40, 2)])?);
    let tracebacks = first(alloc, KeyKind::Traceback, false, 1)?;
    assert!(rt; tracebacks == groups(alloc, 4, &[(&[a(3), b(7)], 110, 2)])?);
    Ok(())
}

#[test]
fn each_kept_frame_counts_where_statistics_are_cumulative(rt: HostRuntime) -> Result<(), Fail> {
    let alloc = rt.alloc();
    let lines = first(alloc, KeyKind::Lineno, true, 2)?;
    assert!(rt; lines == groups(alloc, 4, &[(&[b(7)], 140, 3), (&[a(3)], 110, 2)])?);
    let files = first(alloc, KeyKind::Filename, true, 2)?;
    assert!(rt; files == groups(alloc, 2, &[(&[a(0)], 150, 4), (&[b(0)], 140, 3)])?);
    Ok(())
}

#[test]
fn no_group_is_answered_where_none_is_wanted(rt: HostRuntime) -> Result<(), Fail> {
    let alloc = rt.alloc();
    let none = first(alloc, KeyKind::Traceback, false, 0)?;
    assert!(rt; none == groups(alloc, 4, &[])?);
    Ok(())
}

// Two snapshots with one table: of the lines 1, 2 and 3 of a.py, and of 1 twice, 2 and 4.
fn two(alloc: Global, texts: &Texts) -> Result<(Snapshot, Snapshot, Tracebacks), AllocError>
    requires { 3 ≤ length texts.now }
    ensures new { IfOk result (λ r. IsHeld texts.now r.2 r.0.rows) }
    ensures old { IfOk result (λ r. IsHeld texts.now r.2 r.1.rows) }
{
    let mut old = Snapshot {
        limit: 1,
        rows: List::new(alloc),
    };
    let mut new = Snapshot {
        limit: 1,
        rows: List::new(alloc),
    };
    let mut table = Tracebacks::new(alloc);
    push(&mut old, &mut table, texts, 100, &[a(1)], 1)?;
    push(&mut old, &mut table, texts, 40, &[a(2)], 1)?;
    push(&mut old, &mut table, texts, 30, &[a(3)], 1)?;
    push(&mut new, &mut table, texts, 100, &[a(1)], 1)?;
    push(&mut new, &mut table, texts, 30, &[a(1)], 1)?;
    push(&mut new, &mut table, texts, 40, &[a(2)], 1)?;
    push(&mut new, &mut table, texts, 30, &[a(4)], 1)?;
    Ok((new, old, table))
}

// Changes of these keys: the size, its difference, the count and its difference, of so many.
fn changes(
    alloc: Global,
    count: u64,
    first: &[(Frame, u128, i128, u64, i64)],
) -> Result<(u64, List<Diff>), AllocError> {
    let mut list = List::new(alloc);
    for (key, size, size_diff, count, count_diff) in first {
        list.push(Diff {
            key: List::from_slice(alloc, &[*key])?,
            size: *size,
            size_diff: *size_diff,
            count: *count,
            count_diff: *count_diff,
        })?;
    }
    Ok((count, list))
}

const BY_LINE: Grouping = Grouping {
    key: KeyKind::Lineno,
    cumulative: false,
};

#[test]
fn changes_fall_by_what_has_changed_whichever_way(rt: HostRuntime) -> Result<(), Fail> {
    let alloc = rt.alloc();
    let texts = files(alloc)?;
    let (new, old, table) = two(alloc, &texts)?;
    let all = first_changes(alloc, &new, &old, BY_LINE, 9, &texts, &table)?;
    let four = [
        (a(1), 130, 30, 2, 1),
        (a(4), 30, 30, 1, 1),
        (a(3), 0, -30, 0, -1),
        (a(2), 40, 0, 1, 0),
    ];
    assert!(rt; all == changes(alloc, 4, &four)?);
    let one = first_changes(alloc, &new, &old, BY_LINE, 1, &texts, &table)?;
    assert!(rt; one == changes(alloc, 4, &[(a(1), 130, 30, 2, 1)])?);
    Ok(())
}

#[test]
fn of_changes_alike_the_one_of_the_greater_key_is_first(rt: HostRuntime) -> Result<(), Fail> {
    let alloc = rt.alloc();
    let texts = files(alloc)?;
    let (s, table) = sample(alloc, &texts)?;
    let none = Snapshot {
        limit: 2,
        rows: List::new(alloc),
    };
    let vanished = first_changes(alloc, &none, &s, BY_LINE, 2, &texts, &table)?;
    let two = [(b(7), 0, -140, 0, -3), (a(9), 0, -20, 0, -1)];
    assert!(rt; vanished == changes(alloc, 3, &two)?);
    Ok(())
}
