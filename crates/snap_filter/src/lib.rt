//! What rules keep of a snapshot: what `Snapshot.filter_traces` of `Lib/tracemalloc.py` does.
//!
//! A trace stays where an inclusive rule is about it, or no rule is inclusive, and no exclusive rule is about
//! it. A rule is about the traces of a domain, or about those with a frame in a file that matches a pattern.
//!
//! The pattern of a rule is read once. Whether a file matches it is found once for each file, and whether the
//! rule is about the frames of a traceback once for each traceback, and only where a row asks for it. From
//! then on both are known by number, and a row costs its rules and no text:
//!
//! ```text
//! rule      ex,all,*,*,*/lib/*
//! files     1: /usr/lib/a.py  yes    2: /home/b.py  no    3: not asked for yet
//! traces    0: 2 2  no               1: 2 1  yes          2: not asked for yet
//! ```
#![tactic(auto)]

mod frames;
mod keeping;
mod known;
mod matcher;
mod rules;
#[cfg(test)]
mod tests;

pub use keeping::keep;
