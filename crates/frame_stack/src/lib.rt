//! The frames of the tracks, and a table that gives each list of frames one number.
//!
//! CPython keeps one copy of each traceback in `tracemalloc_tracebacks`, and a trace of a block points to
//! it. Here a trace keeps the number of its traceback:
//!
//! ```text
//! frames      0 main.py:3   1 load.py:10   2 read.py:7
//! tracebacks  0 [<unknown>:0]   1 [load.py:10, read.py:7]   2 [read.py:7] ..
//! ```
//!
//! Always, no list of frames stands twice, and a number, once given, means the same frames as the table
//! grows. Up to eight frames stand in the table itself, more in memory of their own. [`Callers`] has the
//! frames of all tracks beside the table, and looks an unchanged stack up but once.
#![tactic(auto)]

mod callers;
mod frames;
#[cfg(test)]
mod tests;
mod tracebacks;

pub use callers::Callers;
pub use frames::{Frames, recent};
pub use tracebacks::{TbId, Tracebacks};
