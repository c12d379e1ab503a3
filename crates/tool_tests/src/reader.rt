//! What the reader makes of inputs. A row of a table has an input, in which a slash stands for the end
//! of a line, an arrow, and what comes of it: the last pick, or else the last operation of the last track, or
//! the faulty line and its fault.

use std::alloc::{AllocError, Global};
use std::test::Fail;
use trace_reader::read_trace;

// Whole inputs.
const INPUTS: &str = "\
/ => line 1: BadHeader
 => line 1: BadHeader
pymtrace 2/ => line 1: BadHeader
xxxxxxxxxxxxxxxx => line 1: BadEnd
pymtrace 1/ => nothing
pymtrace 1/acquire/ => line 2: Misplaced
pymtrace 1/pick t 1/ => line 2: NoTrack
pymtrace 1/acquire => line 2: BadEnd
pymtrace 1/track t => line 2: BadEnd
pymtrace 1/track t/ => nothing
pymtrace 1/track t/acquire/malloc m x 007/acquire x/ => line 4: BadNumber";

// Lines after the header and the line `track t`. The table of names numbers them as they come:
// `<unknown>` is 0 and `t` is 1.
const LINES: &str = "\
acquire/ => Acquire
release/ => Release
malloc r a 0/ => Malloc(Raw, TextId(2), 0)
malloc m t 18446744073709551615/ => Malloc(Mem, TextId(1), 18446744073709551615)
malloc r a 0/malloc o C_9 16/ => Malloc(Obj, TextId(3), 16)
calloc o y 2 18446744073709551615/ => Calloc(Obj, TextId(2), 2, 18446744073709551615)
realloc m x 5/ => Realloc(Mem, TextId(2), 5)
malloc r a 0/malloc o C_9 16/free m a/ => Free(Mem, TextId(2))
poke a -8 ff/ => Poke(TextId(2), -8, List { items: [255] })
poke a 9223372036854775807 00a9/ => Poke(TextId(2), 9223372036854775807, List { items: [0, 169] })
peek C_9 -1 1024/ => Peek(TextId(2), -1, 1024)
heap/ => Heap
refuse arena 3/ => Refuse(Arena, 3)
refuse raw 1/ => Refuse(Raw, 1)
refuse raw 1000000/ => Refuse(Raw, 1000000)
call a.py 3/ => Enter(TextId(2), 3)
call t 0/ => Enter(TextId(1), 0)
call <unknown> 2147483647/ => Enter(TextId(0), 2147483647)
call !~ 1/call a.py 1/call !~ 1/ => Enter(TextId(2), 1)
call a.py 1/line 2147483647/ => Line(2147483647)
call a.py 1/line 0/ => Line(0)
call a.py 1/return/ => Leave
call a.py 1/call b.py 1/return/line 2/ => Line(2)
start 1/ => Start(1)
start 65535/ => Start(65535)
stop/ => Stop
clear/ => Clear
reset_peak/ => ResetPeak
traced/ => Traced
mark 1 0 0/ => Mark(1, 0, 0)
mark 4294967295 7 18446744073709551615/ => Mark(4294967295, 7, 18446744073709551615)
unmark 1 18446744073709551615/ => Unmark(1, 18446744073709551615)
unmark 4294967295 0/ => Unmark(4294967295, 0)
where x/ => Origin(TextId(2))
call x 1/malloc r a 0/where x/ => Origin(TextId(2))
snapshot s/ => Snapshot(TextId(2))
malloc r a 0/snapshot t/ => Snapshot(TextId(1))
keep n s/ => Keep(TextId(2), TextId(3), List { items: [] })
snapshot s/keep s s/ => Keep(TextId(2), TextId(2), List { items: [] })
stats s filename plain 1/ => Stats(TextId(2), Filename, false, 1)
stats s lineno cumulative 1000000/ => Stats(TextId(2), Lineno, true, 1000000)
stats s traceback plain 10/ => Stats(TextId(2), Traceback, false, 10)
compare u s filename plain 1/ => Compare(TextId(2), TextId(3), Filename, false, 1)
compare s s lineno cumulative 1000000/ => Compare(TextId(2), TextId(2), Lineno, true, 1000000)
dump s/ => Dump(TextId(2))
malloc m x 007/ => line 3: BadNumber
malloc m x 18446744073709551616/ => line 3: BadNumber
malloc m x/ => line 3: BadWords
malloc m  x/ => line 3: BadWords
calloc m x 1/ => line 3: BadWords
calloc m x 18446744073709551616 07/ => line 3: BadNumber
realloc m x 1 2/ => line 3: BadWords
mall m x 1/ => line 3: UnknownWord
 malloc m x 1/ => line 3: UnknownWord
malloc q x 1/ => line 3: UnknownWord
malloc m x! 1/ => line 3: BadName
malloc m x\t1/ => line 3: BadByte
malloc m x \x7f/ => line 3: BadByte
stop => line 3: BadEnd
poke x -9 00/ => line 3: BadRange
poke x 9223372036854775808 00/ => line 3: BadRange
poke x -9223372036854775808 00/ => line 3: BadRange
poke x -0 00/ => line 3: BadNumber
poke x - 00/ => line 3: BadNumber
poke x -18446744073709551616 00/ => line 3: BadNumber
poke x 0 0/ => line 3: BadHex
poke x 0 0A/ => line 3: BadHex
poke x -8 6d/ => line 3: ForgedLetter
peek x 0 1025/ => line 3: BadRange
refuse pool 1/ => line 3: UnknownWord
refuse raw 0/ => line 3: BadRange
refuse raw 1000001/ => line 3: BadRange
refuse raw 01/ => line 3: BadNumber
refuse raw/ => line 3: BadWords
refuse arena 01/ => line 3: BadNumber
heap x/ => line 3: BadWords
call  1/ => line 3: BadWords
call a.py/ => line 3: BadWords
call a.py 1 2/ => line 3: BadWords
call a.py 01/ => line 3: BadNumber
call a.py 18446744073709551616/ => line 3: BadNumber
call a.py 2147483648/ => line 3: BadRange
call a\x7f.py 1/ => line 3: BadByte
line/ => line 3: BadWords
line 1 2/ => line 3: BadWords
line 01/ => line 3: BadNumber
line 2147483648/ => line 3: BadRange
line 1/ => line 3: NoFrame
call a.py 1/return/line 1/ => line 5: NoFrame
call a.py 1/track u/line 1/ => line 5: NoFrame
return 1/ => line 3: BadWords
return/ => line 3: NoFrame
call a.py 1/return/return/ => line 5: NoFrame
call a.py 1/track u/return/ => line 5: NoFrame
start/ => line 3: BadWords
start 1 1/ => line 3: BadWords
start 01/ => line 3: BadNumber
start 0/ => line 3: BadRange
start 65536/ => line 3: BadRange
stop 1/ => line 3: BadWords
clear 1/ => line 3: BadWords
reset_peak 1/ => line 3: BadWords
traced 1/ => line 3: BadWords
mark 1 1/ => line 3: BadWords
mark 1 1 1 1/ => line 3: BadWords
mark 0 1 1/ => line 3: BadRange
mark 4294967296 1 1/ => line 3: BadRange
mark 0 01 1/ => line 3: BadRange
mark 1 18446744073709551616 1/ => line 3: BadNumber
mark 1 1 01/ => line 3: BadNumber
unmark 1/ => line 3: BadWords
unmark 0 1/ => line 3: BadRange
unmark 4294967296 1/ => line 3: BadRange
unmark 1 01/ => line 3: BadNumber
where/ => line 3: BadWords
where x y/ => line 3: BadWords
where x!/ => line 3: BadName
snapshot/ => line 3: BadWords
snapshot s s/ => line 3: BadWords
snapshot s!/ => line 3: BadName
keep n/ => line 3: BadWords
keep n  in/ => line 3: BadWords
keep n! s! in/ => line 3: BadName
keep n s! in/ => line 3: BadName
stats s lineno plain/ => line 3: BadWords
stats s! line all 0/ => line 3: BadName
stats s line all 0/ => line 3: UnknownWord
stats s lineno all 0/ => line 3: UnknownWord
stats s traceback cumulative 01/ => line 3: BadRange
stats s traceback plain 01/ => line 3: BadNumber
stats s lineno plain 0/ => line 3: BadRange
stats s lineno plain 1000001/ => line 3: BadRange
compare u s lineno plain/ => line 3: BadWords
compare u s lineno plain 1 1/ => line 3: BadWords
compare u! s! line all 0/ => line 3: BadName
compare u s! line all 0/ => line 3: BadName
compare u s line all 0/ => line 3: UnknownWord
compare u s traceback cumulative 01/ => line 3: BadRange
compare u s lineno plain 1000001/ => line 3: BadRange
dump/ => line 3: BadWords
dump s s/ => line 3: BadWords
dump s!/ => line 3: BadName
reset/ => line 3: UnknownWord
returned/ => line 3: UnknownWord
Start 1/ => line 3: UnknownWord
pick t 1/return/ => line 4: Misplaced
track t/ => line 3: SameTrack
track u/ => nothing
track u/acquire/track t/ => line 5: SameTrack
track t!/ => line 3: BadName
track u/pick u 3/ => Pick { track: 1, times: 3 }
track u/pick u 3/pick t 1/ => Pick { track: 0, times: 1 }
pick t 4194304/ => Pick { track: 0, times: 4194304 }
pick t 4194305/ => line 3: BadRange
pick t 0/ => line 3: BadRange
pick t 01/ => line 3: BadNumber
pick t/ => line 3: BadWords
pick t 1 1/ => line 3: BadWords
pick  1/ => line 3: BadWords
pick t! 0/ => line 3: BadName
pick u 0/ => line 3: BadRange
pick u 1/ => line 3: NoTrack
pick t 4194304/pick t 1/ => line 4: TooMany
pick t 4194304/pick u 1/ => line 4: NoTrack
pick t 1/acquire/ => line 4: Misplaced
pick t 1/track u/ => line 4: Misplaced
pick t 1/track t x/ => line 4: Misplaced";

// Both sides of each limit: how a line begins, a part of it or whole lines, how often that comes, and
// what follows.
const LIMITS: &str = "\
poke x 0 |00|1024|/ => read
poke x 0 |00|1025|/ => line 3: BadRange
|acquire/|262144| => read
|acquire/|262145| => line 262147: TooMany
|acquire/|262144|track u/acquire/ => line 262148: TooMany
|heap/|1024| => read
|heap/|1025| => line 1027: TooMany
|heap/|1024|track u/heap/ => line 1028: TooMany
malloc r |x|32| 1/ => read
malloc r |x|33| 1/ => line 3: BadName
call |x|255| 1/ => read
call |x|256| 1/ => line 3: BadName
|call a 1/|256| => read
|call a 1/|257| => line 259: TooMany
|call a 1/|256|line 2/return/call b 1/ => read
|call a 1/|256|track u/call a 1/ => read
|call a 1/return/|300|return/ => line 603: NoFrame
|acquire/|262144|return/ => line 262147: NoFrame
|acquire/|262144|line 1/ => line 262147: NoFrame
call a 1/|line 2/|262143|return/ => line 262147: TooMany
|where x/|1024| => read
|where x/|1025| => line 1027: TooMany
|heap/|1024|where x/ => line 1027: TooMany
|snapshot s/|1024| => read
|snapshot s/|1025| => line 1027: TooMany
|heap/|1024|keep n s/ => line 1027: TooMany
|heap/|1024|stats s lineno plain 1/ => line 1027: TooMany
|heap/|1024|compare s s lineno plain 1/ => line 1027: TooMany
|heap/|1024|dump s/ => line 1027: TooMany
keep n s| in-domain,0|16|/ => read
keep n s| in-domain,0|17|/ => line 3: TooMany
keep n s| in-domain,0|17| in/ => line 3: BadRule
keep n s in,top,*,*,|x|255|/ => read
keep n s in,top,*,*,|x|256|/ => line 3: BadRule";

// Words in place of a rule, and what comes of each: the rule or its parts as they are printed, or the fault.
const RULES: &str = "\
in,top,*,*,a => File { inclusive: true, all_frames: false, line: None, domain: None, \
    pattern: List { items: [97] } }
ex,all,0,0,*,? => File { inclusive: false, all_frames: true, line: Some(0), domain: Some(0), \
    pattern: List { items: [42, 44, 63] } }
in,all,2147483647,4294967295,, => File { inclusive: true, all_frames: true, line: Some(2147483647), \
    domain: Some(4294967295), pattern: List { items: [44] } }
in-domain,0 => Domain { inclusive: true, domain: 0 }
ex-domain,4294967295 => Domain { inclusive: false, domain: 4294967295 }
in => BadRule
,top,*,*,a => BadRule
on,top,*,*,a => BadRule
in,,*,*,a => BadRule
in,most,*,*,a => BadRule
in,top,,*,a => BadRule
in,top,01,*,a => BadRule
in,top,2147483648,*,a => BadRule
in,top,**,*,a => BadRule
in,top,*,4294967296,a => BadRule
in,top,*,a => BadRule
in,top,*,* => BadRule
in,top,*,*, => BadRule
in-domain => BadRule
in-domain, => BadRule
in-domain,* => BadRule
in-domain,4294967296 => BadRule
ex-domain,1,2 => BadRule
ex-domain,00 => BadRule";

const HEAD: &str = "pymtrace 1/track t/";

// What comes of an input.
fn answer(alloc: Global, input: &str) -> Result<String, AllocError> {
    let trace = match read_trace(alloc, input.as_bytes()) {
        Ok(trace) => trace,
        Err(error) => return format!(in alloc; "{error}"),
    };
    if let Some(pick) = trace.picks.as_slice().last() {
        return format!(in alloc; "{pick:?}");
    }
    match trace
        .tracks
        .as_slice()
        .last()
        .and_then(|track| track.ops.as_slice().last())
    {
        Some(op) => format!(in alloc; "{op:?}"),
        None => String::from_str(alloc, "nothing"),
    }
}

// Adds a text whose slashes stand for ends of lines.
fn push_lines(input: &mut String, text: &str) -> Result<(), AllocError> {
    for c in text.chars() {
        input.push(if c == '/' { '\n' } else { c })?;
    }
    Ok(())
}

#[test]
fn an_input_is_read_or_its_first_fault_told(rt: HostRuntime) -> Result<(), Fail> {
    for (head, table) in [("", INPUTS), (HEAD, LINES)] {
        for row in table.lines() {
            let (text, wanted) = row.split_once(" => ").unwrap_or((row, ""));
            let mut input = String::new(rt.alloc());
            push_lines(&mut input, head)?;
            push_lines(&mut input, text)?;
            let found = answer(rt.alloc(), input.as_str())?;
            assert_eq!(rt; found.as_str(), wanted, "at {row:?}");
        }
    }
    Ok(())
}

// What is told of a line that keeps by one rule.
fn told_of_rule(alloc: Global, told: &str) -> Result<String, AllocError> {
    if told == "BadRule" {
        return format!(in alloc; "line 3: {told}");
    }
    format!(in alloc; "Keep(TextId(2), TextId(3), List {{ items: [{told}] }})")
}

#[test]
fn a_rule_is_read_or_is_no_rule(rt: HostRuntime) -> Result<(), Fail> {
    for row in RULES.lines() {
        let (rule, told) = row.split_once(" => ").unwrap_or((row, ""));
        let mut input = String::new(rt.alloc());
        push_lines(&mut input, HEAD)?;
        let line = format!(in rt.alloc(); "keep n s {rule}\n")?;
        input.push_str(line.as_str())?;
        let found = answer(rt.alloc(), input.as_str())?;
        let wanted = told_of_rule(rt.alloc(), told)?;
        assert_eq!(rt; found.as_str(), wanted.as_str(), "at {row:?}");
    }
    Ok(())
}

// Adds the lines of a row of the table of limits.
fn push_repeated(input: &mut String, row: &str) -> Result<(), AllocError> {
    let mut parts = row.split('|');
    push_lines(input, parts.next().unwrap_or(""))?;
    let part = parts.next().unwrap_or("");
    let times = parts.next().unwrap_or("").parse::<u32>().unwrap_or(0);
    for _ in 0..times {
        push_lines(input, part)?;
    }
    push_lines(input, parts.next().unwrap_or(""))
}

#[test]
fn a_limit_is_taken_and_one_more_refused(rt: HostRuntime) -> Result<(), Fail> {
    for row in LIMITS.lines() {
        let (text, wanted) = row.split_once(" => ").unwrap_or((row, ""));
        let mut input = String::new(rt.alloc());
        push_lines(&mut input, HEAD)?;
        push_repeated(&mut input, text)?;
        match read_trace(rt.alloc(), input.as_bytes()) {
            Ok(_) => assert_eq!(rt; wanted, "read", "at {row:?}"),
            Err(error) => {
                let told = format!(in rt.alloc(); "{error}")?;
                assert_eq!(rt; told.as_str(), wanted, "at {row:?}");
            }
        }
    }
    Ok(())
}

// The header, and so many tracks of different names.
fn tracks(alloc: Global, count: u32) -> Result<String, AllocError> {
    let mut input = String::from_str(alloc, "pymtrace 1\n")?;
    for at in 0..count {
        let line = format!(in alloc; "track t{at}\n")?;
        input.push_str(line.as_str())?;
    }
    Ok(input)
}

#[test]
fn a_65th_track_is_too_many_unless_its_name_is_taken(rt: HostRuntime) -> Result<(), Fail> {
    for (count, line, wanted) in [
        (64, "pick t63 1\n", "Pick { track: 63, times: 1 }"),
        (65, "", "line 66: TooMany"),
        (64, "track t63\n", "line 66: SameTrack"),
    ] {
        let mut input = tracks(rt.alloc(), count)?;
        input.push_str(line)?;
        let found = answer(rt.alloc(), input.as_str())?;
        assert_eq!(rt; found.as_str(), wanted);
    }
    Ok(())
}

// The header, a track, and snapshots of 16 different names.
fn snapshots(alloc: Global) -> Result<String, AllocError> {
    let mut input = String::from_str(alloc, "pymtrace 1\ntrack t\n")?;
    for at in 0..16 {
        let line = format!(in alloc; "snapshot s{at}\n")?;
        input.push_str(line.as_str())?;
    }
    Ok(input)
}

#[test]
fn a_17th_name_of_a_snapshot_is_too_many_where_it_is_written(rt: HostRuntime) -> Result<(), Fail> {
    for (line, wanted) in [
        ("snapshot s15\n", "Snapshot(TextId(17))"),
        ("snapshot s16\n", "line 19: TooMany"),
        (
            "keep s0 s16\n",
            "Keep(TextId(2), TextId(18), List { items: [] })",
        ),
        ("keep s16 s0\n", "line 19: TooMany"),
        (
            "stats s16 lineno plain 1\n",
            "Stats(TextId(18), Lineno, false, 1)",
        ),
        ("track u\nsnapshot s0\n", "Snapshot(TextId(2))"),
        ("track u\nsnapshot u\n", "line 20: TooMany"),
    ] {
        let mut input = snapshots(rt.alloc())?;
        input.push_str(line)?;
        let found = answer(rt.alloc(), input.as_str())?;
        assert_eq!(rt; found.as_str(), wanted, "at {line:?}");
    }
    Ok(())
}
