//! The statistics of a snapshot and the comparison of two: what `Snapshot.statistics` and `Snapshot.compare_to`
//! of `Lib/tracemalloc.py` do, with an order of groups and one of changes that tell each two apart.
//!
//! Sizes are added up twice. First each row adds its size to the sum of its traceback, so that whatever is made
//! of a traceback's frames is made once for each traceback that a row has. Then each such traceback adds its
//! sum to those of its frames that count, or stands as a group by itself:
//!
//! ```text
//! rows           by traceback                 by line
//! 100, tb 0      tb 0: a:3 b:7   100, 1       b:7   130, 2
//!  30, tb 1      tb 1: b:7        30, 1       a:4    20, 1
//!  20, tb 2      tb 2: a:4        20, 1
//! ```
//!
//! To compare two snapshots, the sums of both are made, and each key of either stands once with the two sums that
//! it has, or with no size and no count where it is in one snapshot alone. A change is the new sum, and how much
//! that is above the old one:
//!
//! ```text
//! new            old            changes, those that changed most first
//! f.py:1 130, 2  f.py:1 100, 1  f.py:1  130 +30, 2 +1
//! f.py:2  40, 1  f.py:2  40, 1  f.py:4   30 +30, 1 +1
//! f.py:4  30, 1  f.py:3  30, 1  f.py:3    0 -30, 0 -1
//!                               f.py:2   40  +0, 1 +0
//! ```
//!
//! Sums stand under numbers of tracebacks and of files, and no text is hashed. Texts are read only where groups or
//! changes of the same numbers are put in order, and only what is answered is put in order at all: the rest takes
//! time that grows with the number of rows and of their frames.
#![tactic(auto)]

mod change_order;
mod changed;
mod changes;
mod groups;
mod order;
mod pairs;
mod stats;
mod sums;
#[cfg(test)]
mod tests;

pub use changes::first_changes;
pub use stats::{Grouping, first_statistics};
