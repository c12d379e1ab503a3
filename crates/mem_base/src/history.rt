//! What happened in a run: which operations were done, and what the sources answered to each.

use crate::{List, TrackId};

/// What the arena source answered in an event. The number is that of the arena's pools.
#[derive(Clone, Copy, Debug, PartialEq, Eq)]
pub enum Grant {
    NotAsked,
    Refused,
    Granted(u8),
}

/// What the raw source answered in an event.
#[derive(Clone, Copy, Debug, PartialEq, Eq)]
pub enum Ask {
    NotAsked,
    Refused,
    Granted,
}

/// One event that was done: its track, the operation's index in the track from 0, and what the
/// sources answered.
#[derive(Clone, Copy, Debug, PartialEq, Eq)]
pub struct Entry {
    pub track: TrackId,
    pub at: u32,
    pub arena: Grant,
    pub raw: Ask,
}

/// The events of a run, in order.
#[derive(Debug, Drop, PartialEq)]
pub struct History {
    pub entries: List<Entry>,
}
