//! Traces: tracks of operations on blocks that have names, and the order in which tracks are picked.
//! Names are written out once, in the trace's table; an operation has their numbers.

use crate::{List, TextId, Texts};

/// An allocation domain, by the letter that the debug hooks write into its blocks.
#[derive(Clone, Copy, Debug, PartialEq, Eq)]
pub enum Letter {
    /// `PyMem_RawMalloc` and its kin.
    Raw,
    /// `PyMem_Malloc` and its kin.
    Mem,
    /// `PyObject_Malloc` and its kin.
    Obj,
}

impl Letter {
    ghost use Rattle.mem_base.specs.Letter.{letter_byte};
    ghost use Rattle.std.specs.Prelude.{◌≡◌};

    /// The letter as a byte: `r`, `m` or `o`.
    pub fn byte(self) -> u8
        ensures { result ≡ letter_byte self }
    {
        match self {
            Letter::Raw => b'r',
            Letter::Mem => b'm',
            Letter::Obj => b'o',
        }
    }
}

/// The index of a track in its trace, from 0.
pub type TrackId = u32;

/// Which of the two memory sources is meant.
#[derive(Clone, Copy, Debug, PartialEq, Eq)]
pub enum Side {
    Arena,
    Raw,
}

/// By what the traces of a snapshot are grouped.
#[derive(Clone, Copy, Debug, PartialEq, Eq)]
pub enum KeyKind {
    Filename,
    Lineno,
    Traceback,
}

/// A rule that keeps or drops traces of a snapshot, as `tracemalloc.Filter` and
/// `tracemalloc.DomainFilter` do.
#[derive(Debug, Drop, PartialEq)]
pub enum Rule {
    File {
        inclusive: bool,
        all_frames: bool,
        line: Option<u32>,
        domain: Option<u32>,
        pattern: List<u8>,
    },
    Domain {
        inclusive: bool,
        domain: u32,
    },
}

/// One operation of a track. Sizes, offsets and counts are in bytes.
#[derive(Debug, Drop, PartialEq)]
pub enum Op {
    /// Takes the interpreter lock.
    Acquire,
    /// Lets go of the interpreter lock.
    Release,
    /// Domain, block and size.
    Malloc(Letter, TextId, u64),
    /// Domain, block, number of elements and size of each.
    Calloc(Letter, TextId, u64, u64),
    /// Domain, block and new size.
    Realloc(Letter, TextId, u64),
    /// Domain and block.
    Free(Letter, TextId),
    /// Writes bytes at an offset from the block's data.
    Poke(TextId, i64, List<u8>),
    /// Reads so many bytes at an offset from the block's data.
    Peek(TextId, i64, u64),
    /// A new most recent frame: file and line.
    Enter(TextId, u32),
    /// The line of the most recent frame.
    Line(u32),
    /// Drops the most recent frame.
    Leave,
    /// Begins tracing with this frame limit.
    Start(u32),
    /// Ends tracing and drops the traces.
    Stop,
    /// Drops the traces.
    Clear,
    /// Sets the peak to what is traced now.
    ResetPeak,
    /// Answers what is traced, and the peak.
    Traced,
    /// Tracks memory of the caller's own: domain, number and size.
    Mark(u32, u64, u64),
    /// Ends the tracking of a domain's number.
    Unmark(u32, u64),
    /// Answers the trace of a block.
    Origin(TextId),
    /// Keeps the present traces under a name.
    Snapshot(TextId),
    /// Keeps under the first name what the rules leave of the second.
    Keep(TextId, TextId, List<Rule>),
    /// Groups a snapshot by a key; the flag says cumulative; at most so many lines.
    Stats(TextId, KeyKind, bool, u32),
    /// Compares a new snapshot with an old one.
    Compare(TextId, TextId, KeyKind, bool, u32),
    /// Prints a snapshot as a dump.
    Dump(TextId),
    /// Answers the heap's shape.
    Heap,
    /// Has a source refuse the request with that number, counted from now.
    Refuse(Side, u64),
}

/// A track: its name and its operations in order.
#[derive(Debug, Drop, PartialEq)]
pub struct Track {
    pub name: TextId,
    pub ops: List<Op>,
}

/// So many picks of a track in a row.
#[derive(Clone, Copy, Debug, PartialEq, Eq)]
pub struct Pick {
    pub track: TrackId,
    pub times: u32,
}

/// A recorded trace: its names, its tracks, and the order in which they are picked.
#[derive(Drop)]
pub struct Trace {
    pub texts: Texts,
    pub tracks: List<Track>,
    pub picks: List<Pick>,
}
