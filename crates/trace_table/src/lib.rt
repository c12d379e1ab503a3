//! The traces of blocks that tracemalloc holds: `tracemalloc_traces`, and the sums
//! `tracemalloc_traced_memory` and `tracemalloc_peak_traced_memory` of `Modules/_tracemalloc.c`. Recorded
//! traces, which a machine replays, are another thing: those are `trace_model`'s.
//!
//! A trace says how many bytes somebody asked for and by which frames. It stands under a key: the name of a
//! block, or a number that was marked in a domain. The frames are a number of a table of tracebacks.
//!
//! ```text
//! key            size   traceback   total
//! block 3         100           1       3
//! number 7, 64     20           1       3
//! ```
//!
//! Always, the sum is that of all sizes, the peak is not below it, and while nothing is traced there are no
//! traces. Memory for one trace more is asked for beforehand, so that a trace can be added once its block is
//! there.
#![tactic(auto)]

mod key;
mod ranks;
mod snapshot;
#[cfg(test)]
mod tests;
mod tracing;

pub use key::{TraceKey, TraceOf};
pub use ranks::{Ranks, text_of};
pub use snapshot::{Row, Snapshot};
pub use tracing::{MarkError, Tracing};
