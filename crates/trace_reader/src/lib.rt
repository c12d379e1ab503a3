//! Reads traces: from bytes to operations, or to the first faulty line and its first fault.
//!
//! The bytes are read once, line by line: each line is cut at its blanks, its first word says what
//! the other words must be, and each operand is read by its own function. Names go into the trace's
//! table. What lines mean, and in which order their faults count, stands in `trace_model`.
#![tactic(auto)]

mod counts;
mod error;
mod lines;
mod operands;
mod operations;
mod progress;
mod rules;
mod words;

pub use error::TraceError;
pub use lines::read_trace;
pub use trace_model::TraceCause;
