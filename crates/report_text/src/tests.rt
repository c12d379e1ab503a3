ghost use Rattle.std.specs.Prelude.{◌≡◌, ◌<◌, length, IfOk, IsSome, OnOk};
ghost use Rattle.std.specs.List.{AllByRecursion};
ghost use Rattle.event_model.specs.Replies.{AreKnownFrames, IsKnownReply};
ghost use Rattle.trace_model.specs.Known.{IsKnownTrace, op_at};
ghost use Rattle.trace_model.specs.Plain.{IsKnownAmong};

use crate::{event_text, push_event, push_number, push_summary, summary_text};
use mem_base::{
    ArenaLine, Ask, BlockReport, ClassLine, Counts, Entry, Fault, Frame, Grant, Group, KeyKind,
    Letter, List, Op, Reply, Rule, Step, TextId, Texts, Totals, Trace, Track, UsedPool, View,
};
use std::alloc::{AllocError, Global};
use std::test::Fail;

// The trace of a track `t` that does one operation. Its table has the names `t`, `x`, `s` and `u` and the
// files `a.py` and `b.pyc`, by the numbers from 1 to 6.
fn trace_of(alloc: Global, op: Op) -> Result<Trace, AllocError>
    requires { IsKnownAmong 7 op }
    ensures known { IfOk result IsKnownTrace }
    ensures op { IfOk result (λ trace. IsSome (op_at trace.tracks 0 0)) }
    ensures texts { IfOk result (λ trace. length trace.texts ≡ 7) }
{
    let mut texts = Texts::new(alloc)?;
    texts.intern(b"t")?;
    texts.intern(b"x")?;
    texts.intern(b"s")?;
    texts.intern(b"u")?;
    texts.intern(b"a.py")?;
    texts.intern(b"b.pyc")?;
    let mut ops = List::new(alloc);
    ops.push(op)?;
    let mut tracks = List::new(alloc);
    tracks.push(Track {
        name: TextId(1),
        ops,
    })?;
    Ok(Trace {
        texts,
        tracks,
        picks: List::new(alloc),
    })
}

// The step that did the first operation of the first track.
fn first_step(reply: Reply) -> Step
    ensures track { result.entry.track ≡ 0 }
    ensures at { result.entry.at ≡ 0 }
    ensures reply { result.reply ≡ reply }
{
    let entry = Entry {
        track: 0,
        at: 0,
        arena: Grant::NotAsked,
        raw: Ask::NotAsked,
    };
    Step { entry, reply }
}

// The text of the event with that number, which did this operation and answered so.
fn text_of(alloc: Global, number: u64, op: Op, reply: Reply) -> Result<List<u8>, AllocError>
    requires op { IsKnownAmong 7 op }
    requires reply { IsKnownReply 7 reply }
{
    let trace = trace_of(alloc, op)?;
    event_text(alloc, number, &first_step(reply), &trace)
}

fn class(alloc: Global, size: u32, used: &[UsedPool], full: u64) -> Result<ClassLine, AllocError> {
    let used = List::from_slice(alloc, used)?;
    Ok(ClassLine { size, used, full })
}

// A heap of one block of 32 bytes.
fn small_heap(alloc: Global) -> Result<View, AllocError> {
    let arena = ArenaLine {
        id: 1,
        free: 63,
        total: 64,
    };
    let pool = UsedPool { arena: 1, live: 1 };
    let mut classes = List::new(alloc);
    classes.push(class(alloc, 32, &[pool], 0)?)?;
    Ok(View {
        pooled: 1,
        raws: 0,
        arenas: List::from_slice(alloc, &[arena])?,
        classes,
    })
}

// A heap of two arenas: a class of full pools alone, and one with two partly used pools.
fn large_heap(alloc: Global) -> Result<View, AllocError> {
    let arenas = [
        ArenaLine {
            id: 1,
            free: 60,
            total: 64,
        },
        ArenaLine {
            id: 4,
            free: 62,
            total: 63,
        },
    ];
    let pools = [
        UsedPool {
            arena: 1,
            live: 509,
        },
        UsedPool { arena: 4, live: 2 },
    ];
    let mut classes = List::new(alloc);
    classes.push(class(alloc, 16, &[], 1)?)?;
    classes.push(class(alloc, 32, &pools, 2)?)?;
    Ok(View {
        pooled: 2552,
        raws: 3,
        arenas: List::from_slice(alloc, &arenas)?,
        classes,
    })
}

// A block with one byte too many written.
fn overrun() -> BlockReport {
    BlockReport {
        size: 32,
        head: [0x6d, 0xfd, 0xfd, 0xfd, 0xfd, 0xfd, 0xfd, 0xfd],
        tail: [0x00, 0xfd, 0xfd, 0xfd, 0xfd, 0xfd, 0xfd, 0xfd],
    }
}

fn totals(owner: Option<u32>) -> Totals {
    Totals {
        events: 5,
        owner,
        blocks: 2,
        bytes: 10,
        counts: Counts {
            given: 1,
            back: 0,
            out: 1,
            most: 1,
            pooled: 2,
        },
        traced: 430,
        peak: 994,
    }
}

const SMALL_HEAP: &[u8] =
    b"3 t heap = pool 1 raw 0\n  arena 1 free 63 of 64\n  class 32 used 1:1 full 0\n";

const LARGE_HEAP: &[u8] =
    b"18446744073709551615 t heap = pool 2552 raw 3\n  arena 1 free 60 of 64\n  arena 4 free 62 of 63\n  \
    class 16 used - full 1\n  class 32 used 1:509,4:2 full 2\n";

const OVERRUN: &[u8] = b"6 t free m x = fault\n  bad_tail 0\n  block x size 32\n  \
    head 6dfdfdfdfdfdfdfd\n  tail 00fdfdfdfdfdfdfd\n";

const NOT_TRACING: &[u8] = b"2 t mark 7 4096 20 = not_tracing\n";

const TRACED: &[u8] = b"13 t traced = 430 994\n";

const UNTRACED: &[u8] = b"14 t where x = none\n";

const FRAMES: &[u8] = b"15 t where x = frames 2 of 3\n  a.py:10\n  <unknown>:0\n";

const SNAPSHOT: &[u8] = b"9 t snapshot s = ok 3\n";

const KEEP: &[u8] =
    b"12 t keep u s ex,top,*,*,[!a]*.pyc in,all,12,7,a.py in-domain,0 ex-domain,4294967295 = ok 2\n";

const KEEP_OF_NONE: &[u8] = b"13 t keep u s = no_snapshot\n";

const GROUPS_OF_LINES: &[u8] =
    b"10 t stats s lineno plain 10 = groups 3\n  30 1 b.pyc:1\n  10 1 a.py:2\n  10 1 a.py:1\n";

const GROUPS_OF_FILES: &[u8] = b"11 t stats s filename cumulative 1 = groups 2\n  10 2 a.py:0\n";

const GROUPS_OF_TRACES: &[u8] =
    b"12 t stats s traceback plain 1000000 = groups 1\n  5 1 a.py:1 a.py:2\n";

const SUMMARY: &[u8] = b"summary events 5 status 0\nsummary lock free\nsummary blocks 2 bytes 10\n\
    summary arenas given 1 back 0 most 1\nsummary traced 430 peak 994\n";

const SUMMARY_OF_OWNER: &[u8] =
    b"summary events 5 status 1\nsummary lock t\nsummary blocks 2 bytes 10\n\
    summary arenas given 1 back 0 most 1\nsummary traced 430 peak 994\n";

// A place in the file `a.py` or `b.pyc`, whose numbers are 5 and 6.
fn frame(file: u32, line: u32) -> Frame
    ensures { result.file.0 ≡ file }
{
    Frame {
        file: TextId(file),
        line,
    }
}

// One more group.
fn push_group(
    groups: &mut List<Group>,
    alloc: Global,
    size: u128,
    count: u64,
    key: &[Frame],
) -> Result<(), AllocError>
    requires groups { AllByRecursion (λ g. AreKnownFrames 7 g.key) groups.old }
    requires key { AreKnownFrames 7 key.now }
    ensures { OnOk result (AllByRecursion (λ g. AreKnownFrames 7 g.key) groups.new) }
{
    let key = List::from_slice(alloc, key)?;
    groups.push(Group { key, size, count })
}

// Four rules, one of each kind.
fn four_rules(alloc: Global) -> Result<List<Rule>, AllocError> {
    let mut rules = List::new(alloc);
    rules.push(Rule::File {
        inclusive: false,
        all_frames: false,
        line: None,
        domain: None,
        pattern: List::from_slice(alloc, b"[!a]*.pyc")?,
    })?;
    rules.push(Rule::File {
        inclusive: true,
        all_frames: true,
        line: Some(12),
        domain: Some(7),
        pattern: List::from_slice(alloc, b"a.py")?,
    })?;
    rules.push(Rule::Domain {
        inclusive: true,
        domain: 0,
    })?;
    rules.push(Rule::Domain {
        inclusive: false,
        domain: u32::MAX,
    })?;
    Ok(rules)
}

#[test]
fn a_heap_has_a_line_for_each_arena_and_class(rt: HostRuntime) -> Result<(), Fail> {
    let alloc = rt.alloc();
    let small = text_of(alloc, 3, Op::Heap, Reply::Heap(small_heap(alloc)?))?;
    assert_eq!(rt; small.as_slice(), SMALL_HEAP);
    let large = text_of(alloc, u64::MAX, Op::Heap, Reply::Heap(large_heap(alloc)?))?;
    assert_eq!(rt; large.as_slice(), LARGE_HEAP);
    Ok(())
}

#[test]
fn a_fault_has_four_further_lines(rt: HostRuntime) -> Result<(), Fail> {
    let alloc = rt.alloc();
    let reply = Reply::Fault(Fault::BadTail(0), Some(overrun()));
    let text = text_of(alloc, 6, Op::Free(Letter::Mem, TextId(2)), reply)?;
    assert_eq!(rt; text.as_slice(), OVERRUN);
    Ok(())
}

#[test]
fn each_reply_of_tracing_has_its_text(rt: HostRuntime) -> Result<(), Fail> {
    let alloc = rt.alloc();
    let kept = List::from_slice(alloc, &[frame(5, 10), frame(0, 0)])?;
    let untracked = text_of(alloc, 2, Op::Mark(7, 4096, 20), Reply::NotTracing)?;
    assert_eq!(rt; untracked.as_slice(), NOT_TRACING);
    let traced = text_of(alloc, 13, Op::Traced, Reply::Traced(430, 994))?;
    assert_eq!(rt; traced.as_slice(), TRACED);
    let untraced = text_of(alloc, 14, Op::Origin(TextId(2)), Reply::Untraced)?;
    assert_eq!(rt; untraced.as_slice(), UNTRACED);
    let found = text_of(alloc, 15, Op::Origin(TextId(2)), Reply::Frames(kept, 3))?;
    assert_eq!(rt; found.as_slice(), FRAMES);
    Ok(())
}

#[test]
fn rules_are_spelt_as_in_the_trace(rt: HostRuntime) -> Result<(), Fail> {
    let alloc = rt.alloc();
    let snapshot = text_of(alloc, 9, Op::Snapshot(TextId(3)), Reply::Kept(3))?;
    assert_eq!(rt; snapshot.as_slice(), SNAPSHOT);
    let by_rules = Op::Keep(TextId(4), TextId(3), four_rules(alloc)?);
    let kept = text_of(alloc, 12, by_rules, Reply::Kept(2))?;
    assert_eq!(rt; kept.as_slice(), KEEP);
    let without_rules = Op::Keep(TextId(4), TextId(3), List::new(alloc));
    let none = text_of(alloc, 13, without_rules, Reply::NoSnapshot)?;
    assert_eq!(rt; none.as_slice(), KEEP_OF_NONE);
    Ok(())
}

#[test]
fn statistics_have_a_line_for_each_group(rt: HostRuntime) -> Result<(), Fail> {
    let alloc = rt.alloc();
    let mut lines = List::new(alloc);
    push_group(&mut lines, alloc, 30, 1, &[frame(6, 1)])?;
    push_group(&mut lines, alloc, 10, 1, &[frame(5, 2)])?;
    push_group(&mut lines, alloc, 10, 1, &[frame(5, 1)])?;
    let by_line = Op::Stats(TextId(3), KeyKind::Lineno, false, 10);
    let text = text_of(alloc, 10, by_line, Reply::Groups(3, lines))?;
    assert_eq!(rt; text.as_slice(), GROUPS_OF_LINES);
    let mut files = List::new(alloc);
    push_group(&mut files, alloc, 10, 2, &[frame(5, 0)])?;
    let by_file = Op::Stats(TextId(3), KeyKind::Filename, true, 1);
    let text = text_of(alloc, 11, by_file, Reply::Groups(2, files))?;
    assert_eq!(rt; text.as_slice(), GROUPS_OF_FILES);
    let mut traces = List::new(alloc);
    push_group(&mut traces, alloc, 5, 1, &[frame(5, 1), frame(5, 2)])?;
    let by_traceback = Op::Stats(TextId(3), KeyKind::Traceback, false, 1_000_000);
    let text = text_of(alloc, 12, by_traceback, Reply::Groups(1, traces))?;
    assert_eq!(rt; text.as_slice(), GROUPS_OF_TRACES);
    Ok(())
}

#[test]
fn the_summary_is_five_lines(rt: HostRuntime) -> Result<(), Fail> {
    let alloc = rt.alloc();
    let trace = trace_of(alloc, Op::Heap)?;
    let free = summary_text(alloc, &totals(None), &trace, 0)?;
    assert_eq!(rt; free.as_slice(), SUMMARY);
    let of_owner = summary_text(alloc, &totals(Some(0)), &trace, 1)?;
    assert_eq!(rt; of_owner.as_slice(), SUMMARY_OF_OWNER);
    Ok(())
}

#[test]
fn texts_follow_one_another_in_a_buffer(rt: HostRuntime) -> Result<(), Fail> {
    let alloc = rt.alloc();
    let trace = trace_of(alloc, Op::Free(Letter::Mem, TextId(2)))?;
    let mut text = Vec::new(alloc);
    let reply = Reply::Fault(Fault::BadTail(0), Some(overrun()));
    push_event(&mut text, 6, &first_step(reply), &trace)?;
    push_number(&mut text, 10)?;
    push_summary(&mut text, &totals(None), &trace, 0)?;
    let mut whole = Vec::from_slice(alloc, OVERRUN)?;
    whole.extend_from_slice(b"10")?;
    whole.extend_from_slice(SUMMARY)?;
    assert_eq!(rt; text.as_slice(), whole.as_slice());
    Ok(())
}
