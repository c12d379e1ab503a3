//! The snapshots of a run, under the numbers of their names.
//!
//! Few snapshots have names, 16 at most in a trace, so a name is sought from the first on:
//!
//! ```text
//! name 7    limit 1    rows of names 3 and 2, of number 64
//! name 9    limit 1    the row of name 3
//! ```
#![tactic(auto)]

mod store;
#[cfg(test)]
mod tests;

pub use store::Snapshots;
