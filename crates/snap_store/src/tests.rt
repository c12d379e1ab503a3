ghost use Rattle.std.specs.Prelude.{◌≡◌, ◌+◌, ◌<◌, ◌≤◌, length, IfOk, OnOk};
ghost use Rattle.trace_table.specs.Plain.{IsHeld};
ghost use Rattle.snap_store.specs.Stand.{AreStored};

use super::*;
use frame_stack::Tracebacks;
use mem_base::{Frame, Group, KeyKind, List, Rule, TextId, Texts};
use snap_stats::Grouping;
use std::alloc::{AllocError, Global};
use std::test::Fail;
use trace_table::{Row, Snapshot, TraceKey};

const A: TextId = TextId(1);

const B: TextId = TextId(2);

const WHOLE: TextId = TextId(3);

const PART: TextId = TextId(4);

const BY_LINE: Grouping = Grouping {
    key: KeyKind::Lineno,
    cumulative: false,
};

// The files a.py and b.py, as texts 1 and 2.
fn files(alloc: Global) -> Result<Texts, AllocError>
    ensures { IfOk result (λ texts. 3 ≤ length texts) }
{
    let mut texts = Texts::new(alloc)?;
    texts.intern(b"a.py")?;
    texts.intern(b"b.py")?;
    Ok(texts)
}

// One more row: so many bytes at line 3 of the file.
fn push(
    s: &mut Snapshot,
    table: &mut Tracebacks,
    texts: &Texts,
    size: u64,
    file: TextId,
) -> Result<(), AllocError>
    requires few { length s.old.rows < 8 }
    requires held { IsHeld texts.now table.old s.old.rows }
    requires known { file.0 < length texts.now }
    ensures held { OnOk result (IsHeld texts.now table.new s.new.rows) }
    ensures more { OnOk result (length s.new.rows ≡ length s.old.rows + 1) }
{
    if table.is_full() {
        return Err(AllocError);
    }
    let trace = table.intern(&[Frame { file, line: 3 }])?;
    s.rows.push(Row {
        key: TraceKey::Number(1, size),
        size,
        trace,
        total: 1,
    })?;
    Ok(())
}

// 64 bytes in a.py and 16 in b.py, and the table of their tracebacks.
fn sample(alloc: Global, texts: &Texts) -> Result<(Snapshot, Tracebacks), AllocError>
    requires { 3 ≤ length texts.now }
    ensures { IfOk result (λ r. IsHeld texts.now r.1 r.0.rows) }
{
    let mut s = Snapshot {
        limit: 1,
        rows: List::new(alloc),
    };
    let mut table = Tracebacks::new(alloc);
    push(&mut s, &mut table, texts, 64, A)?;
    push(&mut s, &mut table, texts, 16, B)?;
    Ok((s, table))
}

// The snapshot alone, under a name, and how many traces it has.
fn alone(
    alloc: Global,
    name: TextId,
    s: Snapshot,
    texts: &Texts,
    table: &Tracebacks,
) -> Result<(Snapshots, u64), AllocError>
    requires { IsHeld texts.now table.now s.rows }
    ensures { IfOk result (λ r. AreStored table.now r.0) }
{
    let mut all = Snapshots::new(alloc);
    let count = all.put(name, s)?;
    Ok((all, count))
}

// So many groups, of which the first is one block of so many bytes in the file.
fn groups(
    alloc: Global,
    count: u64,
    file: TextId,
    size: u128,
) -> Result<Option<(u64, List<Group>)>, AllocError> {
    let mut first = List::new(alloc);
    first.push(Group {
        key: List::from_slice(alloc, &[Frame { file, line: 3 }])?,
        size,
        count: 1,
    })?;
    Ok(Some((count, first)))
}

// A rule that wants what is traced to b.py.
fn only_b(alloc: Global) -> Result<Rule, AllocError> {
    Ok(Rule::File {
        inclusive: true,
        all_frames: true,
        line: None,
        domain: None,
        pattern: List::from_slice(alloc, b"b.py")?,
    })
}

#[test]
fn a_name_has_what_the_rules_keep_of_another_ones_snapshot(rt: HostRuntime) -> Result<(), Fail> {
    let alloc = rt.alloc();
    let texts = files(alloc)?;
    let (s, table) = sample(alloc, &texts)?;
    let (mut all, count) = alone(alloc, WHOLE, s, &texts, &table)?;
    assert_eq!(rt; count, 2);
    let rules = [only_b(alloc)?];
    let none = all.keep(alloc, WHOLE, PART, &rules, &texts, &table)?;
    assert_eq!(rt; none, None);
    let kept = all.keep(alloc, PART, WHOLE, &rules, &texts, &table)?;
    assert_eq!(rt; kept, Some(1));
    let whole = all.stats(alloc, WHOLE, BY_LINE, 1, &texts, &table)?;
    assert!(rt; whole == groups(alloc, 2, A, 64)?);
    let part = all.stats(alloc, PART, BY_LINE, 1, &texts, &table)?;
    assert!(rt; part == groups(alloc, 1, B, 16)?);
    Ok(())
}

#[test]
fn a_name_has_the_snapshot_that_it_got_last(rt: HostRuntime) -> Result<(), Fail> {
    let alloc = rt.alloc();
    let texts = files(alloc)?;
    let (s, table) = sample(alloc, &texts)?;
    let (mut all, _) = alone(alloc, WHOLE, s, &texts, &table)?;
    let kept = all.keep(alloc, WHOLE, WHOLE, &[only_b(alloc)?], &texts, &table)?;
    assert_eq!(rt; kept, Some(1));
    let whole = all.stats(alloc, WHOLE, BY_LINE, 1, &texts, &table)?;
    assert!(rt; whole == groups(alloc, 1, B, 16)?);
    let part = all.stats(alloc, PART, BY_LINE, 1, &texts, &table)?;
    assert!(rt; part.is_none());
    Ok(())
}
