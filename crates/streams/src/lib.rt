//! Where bytes come from and go to, with a count of the faults that were met.
//!
//! A [`Source`] gives bytes and a [`Sink`] takes them. Each may fail at any call, and counts how
//! often it did, so that a contract can say that a failure had a cause. `MemSource` and `MemSink`
//! are lists in memory that fail where they are told to. `StdSource` and `StdSink` stand over the
//! readers and writers of std. `read_all` and `write_all` work with any of them.
#![tactic(auto)]

mod all;
mod memory;
mod standard;
mod stream;
#[cfg(test)]
mod tests;

pub use all::{ReadError, read_all, write_all};
pub use memory::{MemSink, MemSource};
pub use standard::{StdSink, StdSource};
pub use stream::{Failed, Sink, Source};
