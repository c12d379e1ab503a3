//! What operations answer, and the numbers of a run's summary.

use crate::{Entry, List, TextId, TrackId};

/// What a check of a call or a block finds.
#[derive(Clone, Copy, Debug, PartialEq, Eq)]
pub enum Fault {
    /// The caller needs the interpreter lock and does not own it.
    Unlocked,
    /// The block's letter is not that of the call: the byte found, and the call's letter.
    BadId { found: u8, verified: u8 },
    /// The pad with that number before the data is damaged, counted from 1.
    BadLead(u8),
    /// The pad with that number behind the data is damaged, counted from 0.
    BadTail(u8),
}

/// A block with a damaged pad or another letter: its size in bytes, the eight bytes before its
/// data and the eight bytes behind it.
#[derive(Clone, Copy, Debug, PartialEq, Eq)]
pub struct BlockReport {
    pub size: u64,
    pub head: [u8; 8],
    pub tail: [u8; 8],
}

/// One frame of a traceback.
#[derive(Clone, Copy, Debug, Default, PartialEq, Eq, Hash)]
pub struct Frame {
    pub file: TextId,
    pub line: u32,
}

/// The traces with one key: the sum of their sizes in bytes, and their number.
#[derive(Debug, Drop, PartialEq)]
pub struct Group {
    pub key: List<Frame>,
    pub size: u128,
    pub count: u64,
}

/// What two snapshots have at one key: the new size and count, and new less old.
#[derive(Debug, Drop, PartialEq)]
pub struct Diff {
    pub key: List<Frame>,
    pub size: u128,
    pub size_diff: i128,
    pub count: u64,
    pub count_diff: i64,
}

/// A usable arena: its number, its free pools, and all its pools.
#[derive(Clone, Copy, Debug, PartialEq, Eq)]
pub struct ArenaLine {
    pub id: u32,
    pub free: u8,
    pub total: u8,
}

/// A partly used pool: its arena's number, and its live blocks.
#[derive(Clone, Copy, Debug, PartialEq, Eq)]
pub struct UsedPool {
    pub arena: u32,
    pub live: u32,
}

/// A size class with pools: the size of its blocks in bytes, its partly used pools in order, and
/// how many pools are full.
#[derive(Debug, Drop, PartialEq)]
pub struct ClassLine {
    pub size: u32,
    pub used: List<UsedPool>,
    pub full: u64,
}

/// The heap's shape: the live blocks in pools and in raw regions, the usable arenas in order, and
/// the size classes that have a pool.
#[derive(Debug, Drop, PartialEq)]
pub struct View {
    pub pooled: u64,
    pub raws: u64,
    pub arenas: List<ArenaLine>,
    pub classes: List<ClassLine>,
}

/// What an operation answers.
#[derive(Debug, Drop, PartialEq)]
pub enum Reply {
    Ok,
    Null,
    Busy,
    Absent,
    Outside,
    Held,
    NotHeld,
    NotTracing,
    NoSnapshot,
    Untraced,
    Bytes(List<u8>),
    /// What is traced and the peak, in bytes.
    Traced(u128, u128),
    /// The number of traces that a snapshot has.
    Kept(u64),
    /// The kept frames, oldest first, and how many there were.
    Frames(List<Frame>, u32),
    /// How many groups there are, and the first of them.
    Groups(u64, List<Group>),
    /// How many groups there are, and the first of them.
    Diffs(u64, List<Diff>),
    /// A dump's text.
    Dumped(List<u8>),
    Heap(View),
    /// The fault, and the block where it lies in one.
    Fault(Fault, Option<BlockReport>),
}

/// One event that was done, and what it answered.
#[derive(Debug, Drop, PartialEq)]
pub struct Step {
    pub entry: Entry,
    pub reply: Reply,
}

/// Counts of arenas (granted, given back, out, most out at once) and of live blocks in pools.
#[derive(Clone, Copy, Debug, PartialEq, Eq)]
pub struct Counts {
    pub given: u64,
    pub back: u64,
    pub out: u64,
    pub most: u64,
    pub pooled: u64,
}

/// The numbers of a run's summary. Sizes are in bytes.
#[derive(Clone, Copy, Debug, PartialEq, Eq)]
pub struct Totals {
    pub events: u64,
    pub owner: Option<TrackId>,
    pub blocks: u64,
    pub bytes: u128,
    pub counts: Counts,
    pub traced: u128,
    pub peak: u128,
}
