//! Snapshots of what is traced: what rules keep of them, their statistics, what changes from one to another, and
//! their text.
use super::{Replayed, expect_replayed, replay};
use std::test::Fail;

#[test]
fn snapshots_are_kept_grouped_compared_and_dumped(rt: HostRuntime) -> Result<(), Fail> {
    let rows = [
        // Groups of a snapshot, the greatest first, and what a rule leaves of it. In a pattern and in a
        // name a last `.pyc` counts as `.py`.
        Replayed {
            trace: b"pymtrace 1
track t
acquire
start 1
call a.py 1
malloc m p 10
line 2
malloc m q 10
call b.pyc 1
malloc m r 30
snapshot s
stats s lineno plain 10
stats s filename plain 10
keep u s ex,top,*,*,[!a]*.pyc
stats u lineno plain 1
",
            report: b"1 t acquire = ok
2 t start 1 = ok
3 t call a.py 1 = ok
4 t malloc m p 10 = ok
5 t line 2 = ok
6 t malloc m q 10 = ok
7 t call b.pyc 1 = ok
8 t malloc m r 30 = ok
9 t snapshot s = ok 3
10 t stats s lineno plain 10 = groups 3
  30 1 b.pyc:1
  10 1 a.py:2
  10 1 a.py:1
11 t stats s filename plain 10 = groups 2
  30 1 b.pyc:0
  20 2 a.py:0
12 t keep u s ex,top,*,*,[!a]*.pyc = ok 2
13 t stats u lineno plain 1 = groups 2
  10 1 a.py:2
summary events 13 status 0
summary lock free
summary blocks 3 bytes 50
summary arenas given 1 back 0 most 1
summary traced 50 peak 50
",
            status: 0,
            arenas: (1, 0),
            raws: (0, 0),
        },
        // Each kept frame counts where statistics are cumulative; a traceback counts as a whole. Without
        // tracing there is no snapshot, and a name without one has no statistics.
        Replayed {
            trace: b"pymtrace 1
track t
start 3
call a.py 1
call a.py 2
malloc r x 5
snapshot s
stats s filename cumulative 9
stats s lineno cumulative 9
stats s traceback plain 9
stats z lineno plain 9
stop
snapshot z
keep s z
stats s lineno plain 9
",
            report: b"1 t start 3 = ok
2 t call a.py 1 = ok
3 t call a.py 2 = ok
4 t malloc r x 5 = ok
5 t snapshot s = ok 1
6 t stats s filename cumulative 9 = groups 1
  10 2 a.py:0
7 t stats s lineno cumulative 9 = groups 2
  5 1 a.py:2
  5 1 a.py:1
8 t stats s traceback plain 9 = groups 1
  5 1 a.py:1 a.py:2
9 t stats z lineno plain 9 = no_snapshot
10 t stop = ok
11 t snapshot z = not_tracing
12 t keep s z = no_snapshot
13 t stats s lineno plain 9 = groups 1
  5 1 a.py:2
summary events 13 status 0
summary lock free
summary blocks 1 bytes 5
summary arenas given 0 back 0 most 0
summary traced 0 peak 0
",
            status: 0,
            arenas: (0, 0),
            raws: (1, 0),
        },
        // What has changed from one snapshot to another, the greatest change first. A line whose block has gone
        // has nothing left, and one whose block stayed has changed by nothing.
        Replayed {
            trace: b"pymtrace 1
track t
acquire
start 1
call f.py 1
malloc m a 100
line 2
malloc m b 40
line 3
malloc m c 30
snapshot s
free m c
line 1
malloc m a2 30
line 4
malloc m d 30
snapshot u
compare u s lineno plain 10
",
            report: b"1 t acquire = ok
2 t start 1 = ok
3 t call f.py 1 = ok
4 t malloc m a 100 = ok
5 t line 2 = ok
6 t malloc m b 40 = ok
7 t line 3 = ok
8 t malloc m c 30 = ok
9 t snapshot s = ok 3
10 t free m c = ok
11 t line 1 = ok
12 t malloc m a2 30 = ok
13 t line 4 = ok
14 t malloc m d 30 = ok
15 t snapshot u = ok 4
16 t compare u s lineno plain 10 = groups 4
  130 +30 2 +1 f.py:1
  30 +30 1 +1 f.py:4
  0 -30 0 -1 f.py:3
  40 +0 1 +0 f.py:2
summary events 16 status 0
summary lock free
summary blocks 4 bytes 200
summary arenas given 1 back 0 most 1
summary traced 200 peak 200
",
            status: 0,
            arenas: (1, 0),
            raws: (0, 0),
        },
        // A snapshot as text: a block's trace, and that of a marked number. A name without a snapshot has no
        // text, and is compared with none.
        Replayed {
            trace: b"pymtrace 1
track t
start 2
call f.py 9
malloc r x 5
mark 3 4 6
snapshot s
dump s
compare s z lineno plain 1
compare z s lineno plain 1
dump z
",
            report: b"1 t start 2 = ok
2 t call f.py 9 = ok
3 t malloc r x 5 = ok
4 t mark 3 4 6 = ok
5 t snapshot s = ok 2
6 t dump s = ok
  pysnap 1
  limit 2
  trace 0 x 5 1 f.py:9
  trace 3 4 6 1 f.py:9
  end
7 t compare s z lineno plain 1 = no_snapshot
8 t compare z s lineno plain 1 = no_snapshot
9 t dump z = no_snapshot
summary events 9 status 0
summary lock free
summary blocks 1 bytes 5
summary arenas given 0 back 0 most 0
summary traced 11 peak 11
",
            status: 0,
            arenas: (0, 0),
            raws: (1, 0),
        },
    ];
    for (at, row) in rows.iter().enumerate() {
        let given = replay(rt.alloc(), row.trace)?;
        expect_replayed(&rt, &given, row, at);
    }
    Ok(())
}
