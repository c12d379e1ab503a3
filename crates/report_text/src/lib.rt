//! The text of an event and the summary of a run, as bytes. Both are lines that end in a line feed,
//! and their forms are this project's own. Numbers are decimal, bytes are two lowercase hexadecimal
//! digits each, and sizes are in bytes.
//!
//! The first line of an event is its number, the name of its track, the operation as the trace
//! spells it, an equals sign and the reply. A heap's shape, the frames of a trace, the groups of
//! statistics and a fault have further lines, which begin with two blanks:
//!
//! ```text
//! 3 t heap = pool 1 raw 0
//!   arena 1 free 63 of 64
//!   class 32 used 1:1 full 0
//! 5 t where x = frames 2 of 3
//!   load.py:10
//!   read.py:7
//! 6 t keep u s ex,top,*,*,lib/* = ok 2
//! 7 t stats u lineno plain 1 = groups 2
//!   30 1 read.py:7
//! 8 t compare u s lineno plain 1 = groups 1
//!   30 -10 1 -1 read.py:7
//! 9 t free m x = fault
//!   bad_tail 0
//!   block x size 32
//!   head 6dfdfdfdfdfdfdfd
//!   tail 00fdfdfdfdfdfdfd
//! ```
//!
//! The reply of `heap` counts the live blocks in pools and those in raw regions. An arena's line has
//! its number, its free pools and all its pools. A class's line has the size of its blocks, its
//! partly used pools as `ARENA:LIVE` with commas between (or `-` where there is none), and how many
//! of its pools are full.
//!
//! The reply of `where` counts the frames that the block's trace keeps, which are in the lines below,
//! oldest first, and those that there were; it is `none` where the block has no trace. The reply of
//! `traced` is two numbers, the bytes that are traced and the most that were.
//!
//! The reply of `snapshot` and of `keep` has the number of traces in the snapshot that they write. That of
//! `stats` counts all groups; the lines below it are those of the first groups, as many as were asked for at
//! most: the sum of the sizes, how often the key occurs, and the key, which is frames with blanks between,
//! the oldest first. Of a name that has no snapshot the reply is `no_snapshot`.
//!
//! That of `compare` counts all groups that either snapshot has; a line has the sum and by how much it differs, how
//! often the key occurs and by how much that differs, and the key. Differences have their sign always. The reply of
//! `dump` is `ok`, and the lines of the dump stand below it, each behind two blanks.
//!
//! The summary is five lines:
//!
//! ```text
//! summary events 5 status 0
//! summary lock free
//! summary blocks 2 bytes 10
//! summary arenas given 1 back 0 most 1
//! summary traced 0 peak 0
//! ```
//!
//! The definitions stand in the crate `report_model`.
#![tactic(auto)]

mod changes;
mod dumps;
mod events;
mod frames;
mod groups;
mod rules;
mod summary;
#[cfg(test)]
mod tests;
mod words;

pub use events::{event_text, push_event};
pub use line_text::push_number;
pub use summary::{push_summary, summary_text};
