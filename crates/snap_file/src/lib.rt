//! Snapshots as text, written and read again. `dump_model` says what the text of a snapshot is, and which line
//! of other bytes is the first faulty one.
//!
//! A dump is written in one pass over the rows of its snapshot. Dumps are read in one pass over their bytes, line
//! by line: each line is cut at its blanks, and its operands are read from left to right. Names and files go into
//! a table of texts, and the frames of a trace into a table of tracebacks, so nothing is kept twice.
#![tactic(auto)]

mod dumping;
mod error;
mod loading;
mod operands;
mod progress;
mod rows;
#[cfg(test)]
mod tests;
mod words;

pub use dump_model::LoadCause;
pub use dumping::dump;
pub use error::LoadError;
pub use loading::load;
pub use progress::Loaded;
