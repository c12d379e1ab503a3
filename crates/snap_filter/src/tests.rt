ghost use Rattle.std.specs.Prelude.{◌≡◌, ◌+◌, ◌<◌, ◌≤◌, length, IfOk, OnOk};
ghost use Rattle.frame_stack.specs.Callers.{AreAmong};
ghost use Rattle.trace_table.specs.Plain.{IsHeld};

use super::*;
use frame_stack::Tracebacks;
use mem_base::{Frame, List, Rule, TextId, Texts};
use std::alloc::{AllocError, Global};
use std::test::Fail;
use trace_table::{Row, Snapshot, TraceKey};

// The files a.py and b.py, as texts 1 and 2.
fn files(alloc: Global) -> Result<Texts, AllocError>
    ensures { IfOk result (λ texts. 3 ≤ length texts) }
{
    let mut texts = Texts::new(alloc)?;
    texts.intern(b"a.py")?;
    texts.intern(b"b.py")?;
    Ok(texts)
}

// A line of the file with that number.
fn at(file: u32, line: u32) -> Frame
    ensures { result ≡ record { file = record { 0 = file }; line = line } }
{
    Frame {
        file: TextId(file),
        line,
    }
}

// One more row: so many bytes under the key, by these frames.
fn push(
    s: &mut Snapshot,
    table: &mut Tracebacks,
    texts: &Texts,
    key: TraceKey,
    size: u64,
    frames: &[Frame],
) -> Result<(), AllocError>
    requires few { length s.old.rows < 8 }
    requires held { IsHeld texts.now table.old s.old.rows }
    requires among { AreAmong (length texts.now) frames.now }
    requires short { length frames.now ≤ 8 }
    ensures held { OnOk result (IsHeld texts.now table.new s.new.rows) }
    ensures more { OnOk result (length s.new.rows ≡ length s.old.rows + 1) }
{
    if table.is_full() {
        return Err(AllocError);
    }
    let trace = table.intern(frames)?;
    s.rows.push(Row {
        key,
        size,
        trace,
        total: 2,
    })?;
    Ok(())
}

// Whether of three rows the rules keep those of these sizes:
//
// key           size   frames, the oldest first
// block            1   a.py:3 b.py:7
// number 5, 9      2   b.py:7 a.py:4
// number 6, 9      3   a.py:3
fn keeps(alloc: Global, rules: &[Rule], sizes: &[u64]) -> Result<bool, AllocError> {
    let texts = files(alloc)?;
    let mut table = Tracebacks::new(alloc);
    let mut s = Snapshot {
        limit: 2,
        rows: List::new(alloc),
    };
    push(
        &mut s,
        &mut table,
        &texts,
        TraceKey::Block(TextId(0)),
        1,
        &[at(1, 3), at(2, 7)],
    )?;
    push(
        &mut s,
        &mut table,
        &texts,
        TraceKey::Number(5, 9),
        2,
        &[at(2, 7), at(1, 4)],
    )?;
    push(
        &mut s,
        &mut table,
        &texts,
        TraceKey::Number(6, 9),
        3,
        &[at(1, 3)],
    )?;
    let k = keep(alloc, &s, rules, &texts, &table)?;
    let mut kept = Vec::new(alloc);
    for row in k.rows.as_slice() {
        kept.push(row.size)?;
    }
    Ok(kept.as_slice() == sizes)
}

// A rule about frames in files that match the pattern.
fn file(
    alloc: Global,
    inclusive: bool,
    all_frames: bool,
    line: Option<u32>,
    domain: Option<u32>,
    pattern: &[u8],
) -> Result<Rule, AllocError> {
    Ok(Rule::File {
        inclusive,
        all_frames,
        line,
        domain,
        pattern: List::from_slice(alloc, pattern)?,
    })
}

#[test]
fn all_frames_are_looked_at_or_the_most_recent_one(rt: HostRuntime) -> Result<(), Fail> {
    let alloc = rt.alloc();
    let top = file(alloc, true, false, None, None, b"b.py")?;
    assert!(rt; keeps(alloc, &[top], &[1])?);
    let all = file(alloc, true, true, None, None, b"b.py")?;
    assert!(rt; keeps(alloc, &[all], &[1, 2])?);
    Ok(())
}

#[test]
fn file_and_line_are_those_of_one_frame(rt: HostRuntime) -> Result<(), Fail> {
    let alloc = rt.alloc();
    let line = file(alloc, true, true, Some(3), None, b"a*.py")?;
    assert!(rt; keeps(alloc, &[line], &[1, 3])?);
    let other = file(alloc, true, true, Some(7), None, b"a*.py")?;
    assert!(rt; keeps(alloc, &[other], &[])?);
    Ok(())
}

#[test]
fn a_rule_of_a_domain_leaves_the_others(rt: HostRuntime) -> Result<(), Fail> {
    let alloc = rt.alloc();
    let wanted = file(alloc, true, true, None, Some(5), b"*")?;
    assert!(rt; keeps(alloc, &[wanted], &[2])?);
    let rejected = file(alloc, false, true, None, Some(5), b"*")?;
    assert!(rt; keeps(alloc, &[rejected], &[1, 3])?);
    let blocks = Rule::Domain {
        inclusive: true,
        domain: 0,
    };
    assert!(rt; keeps(alloc, &[blocks], &[1])?);
    Ok(())
}

#[test]
fn what_is_wanted_or_not_asked_for_stays_unless_it_is_rejected(
    rt: HostRuntime,
) -> Result<(), Fail> {
    let alloc = rt.alloc();
    assert!(rt; keeps(alloc, &[], &[1, 2, 3])?);
    let rejected = file(alloc, false, false, None, None, b"b.py")?;
    assert!(rt; keeps(alloc, &[rejected], &[2, 3])?);
    let wanted = file(alloc, true, false, None, None, b"a.py")?;
    let also_wanted = file(alloc, true, false, None, None, b"b.py")?;
    let rejected = Rule::Domain {
        inclusive: false,
        domain: 6,
    };
    assert!(rt; keeps(alloc, &[wanted, also_wanted, rejected], &[1, 2])?);
    Ok(())
}
