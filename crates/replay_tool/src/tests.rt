//! Runs over streams and sources in memory. The expected texts are worked out by hand.

mod snapshots;

use crate::run;
use machine_core::{Machine, Spot};
use mem_base::{Ask, Grant, History, List, Reply, TextId};
use report_text::push_number;
use sources::{ArenaSource, MemArenas, MemRaw, RawSource};
use std::alloc::{AllocError, Global};
use std::process::Abort;
use std::test::Fail;
use streams::{MemSink, MemSource};
use trace_reader::read_trace;

// What a run gave: its status and history, how often the sources of arenas and of raw memory were
// asked and refused, and what the sinks received.
#[derive(Drop)]
struct Given {
    status: u8,
    history: History,
    arenas: (u64, u64),
    raws: (u64, u64),
    out: Vec<u8>,
    err: Vec<u8>,
}

// A run: its word, its input, which read of it fails, and how many bytes the sinks take.
#[derive(Clone, Copy)]
struct Setting<'a> {
    word: &'a str,
    input: &'a [u8],
    fail_at: Option<u64>,
    out_limit: u64,
    err_limit: u64,
}

fn run_over(alloc: Global, setting: Setting<'_>) -> Result<Given, AllocError> {
    let words = vec![in alloc; String::from_str(alloc, setting.word)?]?;
    let mut input = MemSource::new(List::from_slice(alloc, setting.input)?, setting.fail_at);
    let mut out = MemSink::new(alloc, setting.out_limit)?;
    let mut err = MemSink::new(alloc, setting.err_limit)?;
    let mut arenas = MemArenas::new(alloc)?;
    let mut raw = MemRaw::new(alloc)?;
    let outcome = run(
        alloc,
        words.as_slice(),
        &mut input,
        &mut arenas,
        &mut raw,
        &mut out,
        &mut err,
    );
    Ok(Given {
        status: outcome.status,
        history: outcome.history,
        arenas: (arenas.asked(), arenas.refused()),
        raws: (raw.asked(), raw.refused()),
        out: Vec::from_slice(alloc, out.bytes())?,
        err: Vec::from_slice(alloc, err.bytes())?,
    })
}

fn replay(alloc: Global, input: &[u8]) -> Result<Given, AllocError> {
    let setting = Setting {
        word: "replay",
        input,
        fail_at: None,
        out_limit: 262_144,
        err_limit: 4096,
    };
    run_over(alloc, setting)
}

// A trace with its whole report, the status, and how often each source was asked and refused.
#[derive(Clone, Copy)]
struct Replayed<'a> {
    trace: &'a [u8],
    report: &'a [u8],
    status: u8,
    arenas: (u64, u64),
    raws: (u64, u64),
}

// A run gave what the row says.
fn expect_replayed(rt: &impl Abort, given: &Given, row: &Replayed<'_>, at: usize) {
    assert_eq!(rt; given.out.as_slice(), row.report, "row {at}");
    assert_eq!(rt; given.status, row.status, "row {at}");
    assert_eq!(rt; given.arenas, row.arenas, "row {at}");
    assert_eq!(rt; given.raws, row.raws, "row {at}");
    assert!(rt; given.err.is_empty(), "row {at}");
}

const FIRST: &[u8] = b"pymtrace 1
track t
acquire
malloc m x 4
poke x 1 6162
peek x 0 4
peek x 12 1
free m x
peek x 0 1
release
";

#[test]
fn each_trace_prints_its_report(rt: HostRuntime) -> Result<(), Fail> {
    let rows = [
        Replayed {
            trace: b"pymtrace 1\n",
            report: b"summary events 0 status 0
summary lock free
summary blocks 0 bytes 0
summary arenas given 0 back 0 most 0
summary traced 0 peak 0
",
            status: 0,
            arenas: (0, 0),
            raws: (0, 0),
        },
        Replayed {
            trace: FIRST,
            report: b"1 t acquire = ok
2 t malloc m x 4 = ok
3 t poke x 1 6162 = ok
4 t peek x 0 4 = cd6162cd
5 t peek x 12 1 = outside
6 t free m x = ok
7 t peek x 0 1 = absent
8 t release = ok
summary events 8 status 0
summary lock free
summary blocks 0 bytes 0
summary arenas given 1 back 0 most 1
summary traced 0 peak 0
",
            status: 0,
            arenas: (1, 0),
            raws: (0, 0),
        },
        // Damage behind the data, and the operation after the fault is not done.
        Replayed {
            trace: b"pymtrace 1
track t
acquire
malloc m x 32
poke x 32 00
free m x
peek x 0 1
",
            report: b"1 t acquire = ok
2 t malloc m x 32 = ok
3 t poke x 32 00 = ok
4 t free m x = fault
  bad_tail 0
  block x size 32
  head 6dfdfdfdfdfdfdfd
  tail 00fdfdfdfdfdfdfd
summary events 4 status 1
summary lock t
summary blocks 1 bytes 32
summary arenas given 1 back 0 most 1
summary traced 0 peak 0
",
            status: 1,
            arenas: (1, 0),
            raws: (0, 0),
        },
        // Damage in front of the data is told before damage behind it.
        Replayed {
            trace: b"pymtrace 1
track t
acquire
malloc m x 32
poke x 32 00
poke x -7 00
free m x
",
            report: b"1 t acquire = ok
2 t malloc m x 32 = ok
3 t poke x 32 00 = ok
4 t poke x -7 00 = ok
5 t free m x = fault
  bad_lead 1
  block x size 32
  head 6d00fdfdfdfdfdfd
  tail 00fdfdfdfdfdfdfd
summary events 5 status 1
summary lock t
summary blocks 1 bytes 32
summary arenas given 1 back 0 most 1
summary traced 0 peak 0
",
            status: 1,
            arenas: (1, 0),
            raws: (0, 0),
        },
        // A block of another domain.
        Replayed {
            trace: b"pymtrace 1
track t
acquire
malloc m x 8
free o x
",
            report: b"1 t acquire = ok
2 t malloc m x 8 = ok
3 t free o x = fault
  bad_id found 6d verified 6f
  block x size 8
  head 6dfdfdfdfdfdfdfd
  tail fdfdfdfdfdfdfdfd
summary events 3 status 1
summary lock t
summary blocks 1 bytes 8
summary arenas given 1 back 0 most 1
summary traced 0 peak 0
",
            status: 1,
            arenas: (1, 0),
            raws: (0, 0),
        },
        // Without the lock: the raw domain needs none, and a size that is too great comes first.
        Replayed {
            trace: b"pymtrace 1
track t
free r x
malloc m x 9223372036854775808
malloc m x 9223372036854775807
",
            report: b"1 t free r x = ok
2 t malloc m x 9223372036854775808 = null
3 t malloc m x 9223372036854775807 = fault
  unlocked
summary events 3 status 1
summary lock free
summary blocks 0 bytes 0
summary arenas given 0 back 0 most 0
summary traced 0 peak 0
",
            status: 1,
            arenas: (0, 0),
            raws: (0, 0),
        },
        // A free of nothing needs the lock all the same.
        Replayed {
            trace: b"pymtrace 1
track t
free m x
",
            report: b"1 t free m x = fault
  unlocked
summary events 1 status 1
summary lock free
summary blocks 0 bytes 0
summary arenas given 0 back 0 most 0
summary traced 0 peak 0
",
            status: 1,
            arenas: (0, 0),
            raws: (0, 0),
        },
        // Sizes up to 488 with the 24 bytes of the hooks lie in pools, also where there are no data.
        Replayed {
            trace: b"pymtrace 1
track t
acquire
malloc m a 488
malloc m b 489
malloc o c 0
heap
",
            report: b"1 t acquire = ok
2 t malloc m a 488 = ok
3 t malloc m b 489 = ok
4 t malloc o c 0 = ok
5 t heap = pool 2 raw 1
  arena 1 free 62 of 64
  class 32 used 1:1 full 0
  class 512 used 1:1 full 0
summary events 5 status 0
summary lock free
summary blocks 3 bytes 977
summary arenas given 1 back 0 most 1
summary traced 0 peak 0
",
            status: 0,
            arenas: (1, 0),
            raws: (1, 0),
        },
        // A request whose arena is refused goes to the raw source.
        Replayed {
            trace: b"pymtrace 1
track t
acquire
refuse arena 1
malloc m x 8
heap
free m x
refuse arena 1
refuse raw 1
malloc m x 8
peek x 0 1
malloc m x 8
heap
",
            report: b"1 t acquire = ok
2 t refuse arena 1 = ok
3 t malloc m x 8 = ok
4 t heap = pool 0 raw 1
5 t free m x = ok
6 t refuse arena 1 = ok
7 t refuse raw 1 = ok
8 t malloc m x 8 = null
9 t peek x 0 1 = absent
10 t malloc m x 8 = ok
11 t heap = pool 1 raw 0
  arena 1 free 63 of 64
  class 32 used 1:1 full 0
summary events 11 status 0
summary lock free
summary blocks 1 bytes 8
summary arenas given 1 back 0 most 1
summary traced 0 peak 0
",
            status: 0,
            arenas: (3, 2),
            raws: (2, 1),
        },
        Replayed {
            trace: b"pymtrace 1
track t
refuse raw 1
malloc r x 8
malloc r x 8
peek x 0 2
free r x
",
            report: b"1 t refuse raw 1 = ok
2 t malloc r x 8 = null
3 t malloc r x 8 = ok
4 t peek x 0 2 = cdcd
5 t free r x = ok
summary events 5 status 0
summary lock free
summary blocks 0 bytes 0
summary arenas given 0 back 0 most 0
summary traced 0 peak 0
",
            status: 0,
            arenas: (0, 0),
            raws: (2, 1),
        },
        // The greatest size with its 24 bytes more is the first that a source is asked for.
        Replayed {
            trace: b"pymtrace 1
track t
acquire
malloc m x 9223372036854775807
malloc m x 9223372036854775784
malloc m x 9223372036854775783
calloc m x 2 4611686018427387904
calloc m x 2 9223372036854775808
",
            report: b"1 t acquire = ok
2 t malloc m x 9223372036854775807 = null
3 t malloc m x 9223372036854775784 = null
4 t malloc m x 9223372036854775783 = null
5 t calloc m x 2 4611686018427387904 = null
6 t calloc m x 2 9223372036854775808 = null
summary events 6 status 0
summary lock free
summary blocks 0 bytes 0
summary arenas given 0 back 0 most 0
summary traced 0 peak 0
",
            status: 0,
            arenas: (0, 0),
            raws: (1, 1),
        },
        // New data of malloc is CD, that of calloc 00.
        Replayed {
            trace: b"pymtrace 1
track t
acquire
malloc m x 4
peek x 0 4
calloc o y 2 3
peek y -8 22
",
            report: b"1 t acquire = ok
2 t malloc m x 4 = ok
3 t peek x 0 4 = cdcdcdcd
4 t calloc o y 2 3 = ok
5 t peek y -8 22 = 6ffdfdfdfdfdfdfd000000000000fdfdfdfdfdfdfdfd
summary events 5 status 0
summary lock free
summary blocks 2 bytes 10
summary arenas given 1 back 0 most 1
summary traced 0 peak 0
",
            status: 0,
            arenas: (1, 0),
            raws: (0, 0),
        },
        // A block stays while more than three quarters of its place are used, and moves at just that.
        Replayed {
            trace: b"pymtrace 1
track t
acquire
malloc m x 100
realloc m x 80
heap
realloc m x 72
heap
",
            report: b"1 t acquire = ok
2 t malloc m x 100 = ok
3 t realloc m x 80 = ok
4 t heap = pool 1 raw 0
  arena 1 free 63 of 64
  class 128 used 1:1 full 0
5 t realloc m x 72 = ok
6 t heap = pool 1 raw 0
  arena 1 free 63 of 64
  class 96 used 1:1 full 0
summary events 6 status 0
summary lock free
summary blocks 1 bytes 72
summary arenas given 1 back 0 most 1
summary traced 0 peak 0
",
            status: 0,
            arenas: (1, 0),
            raws: (0, 0),
        },
        // A name that holds nothing, and damage that a realloc finds.
        Replayed {
            trace: b"pymtrace 1
track t
acquire
acquire
malloc m x 4
malloc m x 9
free m x
free m x
realloc m x 4
poke y 0 00
poke x 12 00
peek x 4 8
poke x 11 00
realloc m x 5
",
            report: b"1 t acquire = ok
2 t acquire = held
3 t malloc m x 4 = ok
4 t malloc m x 9 = busy
5 t free m x = ok
6 t free m x = ok
7 t realloc m x 4 = ok
8 t poke y 0 00 = absent
9 t poke x 12 00 = outside
10 t peek x 4 8 = fdfdfdfdfdfdfdfd
11 t poke x 11 00 = ok
12 t realloc m x 5 = fault
  bad_tail 7
  block x size 4
  head 6dfdfdfdfdfdfdfd
  tail fdfdfdfdfdfdfd00
summary events 12 status 1
summary lock t
summary blocks 1 bytes 4
summary arenas given 1 back 0 most 1
summary traced 0 peak 0
",
            status: 1,
            arenas: (1, 0),
            raws: (0, 0),
        },
        // A block that is refused its new place stays as it was, and a raw one stays raw.
        Replayed {
            trace: b"pymtrace 1
track t
malloc r x 3
poke x 0 616263
refuse raw 1
realloc r x 5
peek x -8 19
realloc r x 5
peek x -8 21
realloc r x 2
peek x -8 18
realloc m x 9
",
            report: b"1 t malloc r x 3 = ok
2 t poke x 0 616263 = ok
3 t refuse raw 1 = ok
4 t realloc r x 5 = null
5 t peek x -8 19 = 72fdfdfdfdfdfdfd616263fdfdfdfdfdfdfdfd
6 t realloc r x 5 = ok
7 t peek x -8 21 = 72fdfdfdfdfdfdfd616263cdcdfdfdfdfdfdfdfdfd
8 t realloc r x 2 = ok
9 t peek x -8 18 = 72fdfdfdfdfdfdfd6162fdfdfdfdfdfdfdfd
10 t realloc m x 9 = fault
  unlocked
summary events 10 status 1
summary lock free
summary blocks 1 bytes 2
summary arenas given 0 back 0 most 0
summary traced 0 peak 0
",
            status: 1,
            arenas: (0, 0),
            raws: (4, 1),
        },
    ];
    for (at, row) in rows.iter().enumerate() {
        let given = replay(rt.alloc(), row.trace)?;
        expect_replayed(&rt, &given, row, at);
    }
    Ok(())
}

#[test]
fn the_history_has_the_answers_of_the_sources(rt: HostRuntime) -> Result<(), Fail> {
    let given = replay(
        rt.alloc(),
        b"pymtrace 1\ntrack t\nacquire\nmalloc m a 488\nmalloc m b 489\n",
    )?;
    let answers = [
        (Grant::NotAsked, Ask::NotAsked),
        (Grant::Granted(64), Ask::NotAsked),
        (Grant::NotAsked, Ask::Granted),
    ];
    assert_eq!(rt; given.history.entries.len(), answers.len());
    for (entry, (arena, raw)) in given.history.entries.as_slice().iter().zip(answers) {
        assert_eq!(rt; entry.arena, arena);
        assert_eq!(rt; entry.raw, raw);
    }
    Ok(())
}

// Adds a line for each of the blocks of these numbers: what stands before the number, and behind.
fn push_lines(
    trace: &mut Vec<u8>,
    (first, last): (u64, u64),
    before: &[u8],
    behind: &[u8],
) -> Result<(), AllocError> {
    for number in first..=last {
        trace.extend_from_slice(before)?;
        push_number(trace, number)?;
        trace.extend_from_slice(behind)?;
    }
    Ok(())
}

const START: &[u8] = b"pymtrace 1\ntrack t\nacquire\n";

// A pool of a class has room for 510 blocks of 32 bytes.
fn two_pools_and_two_blocks(alloc: Global) -> Result<Vec<u8>, AllocError> {
    let mut trace = Vec::from_slice(alloc, START)?;
    push_lines(&mut trace, (1, 1022), b"malloc m b", b" 8\n")?;
    trace.extend_from_slice(b"heap\nfree m b1\nheap\n")?;
    Ok(trace)
}

// A pool has room for 31 blocks of 512 bytes, so the 64 pools of an arena have room for 1,984.
fn an_arena_and_a_block(alloc: Global) -> Result<Vec<u8>, AllocError> {
    let mut trace = Vec::from_slice(alloc, START)?;
    push_lines(&mut trace, (1, 1985), b"malloc m b", b" 488\n")?;
    push_lines(&mut trace, (1, 1984), b"free m b", b"\n")?;
    trace.extend_from_slice(b"heap\nfree m b1985\nheap\n")?;
    Ok(trace)
}

// Two arenas and a block, of which a pool of the first arena and two of the second are freed again.
fn two_arenas_with_free_pools(alloc: Global) -> Result<Vec<u8>, AllocError> {
    let mut trace = Vec::from_slice(alloc, START)?;
    push_lines(&mut trace, (1, 3969), b"malloc m b", b" 488\n")?;
    push_lines(&mut trace, (1, 31), b"free m b", b"\n")?;
    push_lines(&mut trace, (1985, 2046), b"free m b", b"\n")?;
    trace.extend_from_slice(b"heap\nmalloc m z 8\nheap\n")?;
    Ok(trace)
}

#[test]
fn heaps_fill_and_empty(rt: HostRuntime) -> Result<(), Fail> {
    let alloc = rt.alloc();
    let rows = [
        (
            two_pools_and_two_blocks(alloc)?,
            b"1024 t heap = pool 1022 raw 0
  arena 1 free 61 of 64
  class 32 used 1:2 full 2
1025 t free m b1 = ok
1026 t heap = pool 1021 raw 0
  arena 1 free 61 of 64
  class 32 used 1:509,1:2 full 1
summary events 1026 status 0
summary lock free
summary blocks 1021 bytes 8168
summary arenas given 1 back 0 most 1
summary traced 0 peak 0
"
                .as_slice(),
        ),
        // An arena goes back, unless it is the last.
        (
            an_arena_and_a_block(alloc)?,
            b"3971 t heap = pool 1 raw 0
  arena 2 free 63 of 64
  class 512 used 2:1 full 0
3972 t free m b1985 = ok
3973 t heap = pool 0 raw 0
  arena 2 free 64 of 64
summary events 3973 status 0
summary lock free
summary blocks 0 bytes 0
summary arenas given 2 back 1 most 2
summary traced 0 peak 0
"
                .as_slice(),
        ),
        // A new pool comes from the arena with the fewest free pools.
        (
            two_arenas_with_free_pools(alloc)?,
            b"4064 t heap = pool 3876 raw 0
  arena 1 free 1 of 64
  arena 2 free 2 of 64
  arena 3 free 63 of 64
  class 512 used 3:1 full 125
4065 t malloc m z 8 = ok
4066 t heap = pool 3877 raw 0
  arena 2 free 2 of 64
  arena 3 free 63 of 64
  class 32 used 1:1 full 0
  class 512 used 3:1 full 125
summary events 4066 status 0
summary lock free
summary blocks 3877 bytes 1891496
summary arenas given 3 back 0 most 3
summary traced 0 peak 0
"
                .as_slice(),
        ),
    ];
    for (trace, end) in rows {
        let given = replay(alloc, trace.as_slice())?;
        assert_eq!(rt; given.status, 0);
        assert!(rt; given.out.as_slice().ends_with(end));
    }
    Ok(())
}

#[test]
fn a_refusal_is_one_line(rt: HostRuntime) -> Result<(), Fail> {
    let alloc = rt.alloc();
    let bad_number = b"pymtrace 1\ntrack t\nmalloc m x 007\n".as_slice();
    let forged = b"pymtrace 1\ntrack t\nacquire\nmalloc m x 8\npoke x -8 6d\n".as_slice();
    let refusals = [
        ("replai", FIRST, None, 2, b"pymtrace: usage\n".as_slice()),
        (
            "replay",
            forged,
            None,
            3,
            b"pymtrace: line 5: ForgedLetter\n",
        ),
        (
            "replay",
            bad_number,
            None,
            3,
            b"pymtrace: line 3: BadNumber\n",
        ),
        ("replay", FIRST, Some(1), 4, b"pymtrace: read fault\n"),
    ];
    for (word, input, fail_at, status, line) in refusals {
        let setting = Setting {
            word,
            input,
            fail_at,
            out_limit: 4096,
            err_limit: 4096,
        };
        let given = run_over(alloc, setting)?;
        assert_eq!(rt; given.status, status);
        assert_eq!(rt; given.err.as_slice(), line);
        assert!(rt; given.out.is_empty());
        let err_limit = 9;
        let untold = run_over(
            alloc,
            Setting {
                err_limit,
                ..setting
            },
        )?;
        assert_eq!(rt; untold.status, 5);
        assert_eq!(rt; untold.err.as_slice(), b"pymtrace:".as_slice());
        assert!(rt; untold.out.is_empty());
    }
    Ok(())
}

#[test]
fn an_input_may_have_so_many_bytes(rt: HostRuntime) -> Result<(), Fail> {
    let alloc = rt.alloc();
    let rows = [
        (16_777_216, 3, b"pymtrace: line 1: BadEnd\n".as_slice()),
        (16_777_217, 7, b"pymtrace: input too long\n"),
    ];
    for (count, status, line) in rows {
        let input = vec![in alloc; b'x'; count]?;
        let given = replay(alloc, input.as_slice())?;
        assert_eq!(rt; given.status, status);
        assert_eq!(rt; given.err.as_slice(), line);
    }
    Ok(())
}

// The block lies in raw memory, since an arena for each of many runs would take long.
const RAW: &[u8] = b"pymtrace 1
track t
malloc r x 4
poke x 1 6162
peek x 0 4
free r x
";

const RAW_REPORT: &[u8] = b"1 t malloc r x 4 = ok
2 t poke x 1 6162 = ok
3 t peek x 0 4 = cd6162cd
4 t free r x = ok
summary events 4 status 0
summary lock free
summary blocks 0 bytes 0
summary arenas given 0 back 0 most 0
summary traced 0 peak 0
";

#[test]
fn a_sink_that_fails_cuts_the_report(rt: HostRuntime) -> Result<(), Fail> {
    let alloc = rt.alloc();
    for limit in 0..=RAW_REPORT.len() {
        let setting = Setting {
            word: "replay",
            input: RAW,
            fail_at: None,
            out_limit: limit as u64,
            err_limit: 4096,
        };
        let given = run_over(alloc, setting)?;
        let is_whole = limit == RAW_REPORT.len();
        assert_eq!(rt; given.status, if is_whole { 0 } else { 5 });
        assert_eq!(rt; Some(given.out.as_slice()), RAW_REPORT.get(..limit));
        assert!(rt; given.err.is_empty());
    }
    // Nothing is done after the event whose text was cut off, which is the second.
    let setting = Setting {
        word: "replay",
        input: RAW,
        fail_at: None,
        out_limit: 30,
        err_limit: 4096,
    };
    assert_eq!(rt; run_over(alloc, setting)?.history.entries.len(), 2);
    Ok(())
}

#[test]
fn a_machine_shows_where_its_blocks_lie(rt: HostRuntime) -> Result<(), Fail> {
    let alloc = rt.alloc();
    let mut arenas = MemArenas::new(alloc)?;
    let mut raw = MemRaw::new(alloc)?;
    let mut machine = Machine::new(alloc, read_trace(alloc, RAW)?)?;
    assert_eq!(rt; machine.trace().tracks.len(), 1);
    assert_eq!(rt; machine.texts().find(b"x").map(|id| id.0), Some(2));
    assert!(rt; !machine.faulted());
    assert!(rt; machine.ready(0));
    let step = machine.step(0, &mut arenas, &mut raw);
    let spots = machine.places();
    assert_eq!(rt; machine.end(&mut arenas, &mut raw).entries.len(), 1);
    let step = step?;
    assert!(rt; step.reply == Reply::Ok);
    assert!(rt; step.entry.raw == Ask::Granted);
    // The block had 4 bytes of data and the 24 of its pads, and was the first raw region.
    let spot = Spot {
        name: TextId(2),
        place: 0x2000_0000_0000,
        len: 28,
    };
    assert!(rt; spots?.as_slice() == [spot].as_slice());
    Ok(())
}
