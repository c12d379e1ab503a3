//! Patterns of file names, and whether they match a name: what `fnmatch` does for the filters of
//! `Lib/tracemalloc.py`, over bytes.
//!
//! A pattern is read once, into pieces. The stars cut the pieces into runs, each piece of which takes one
//! byte. The first run must stand at the start of the name and the last one at its end; each run between
//! is taken at the first place behind the run before it, since a later place would only leave less of
//! the name for the runs that follow:
//!
//! ```text
//! pattern   /usr/ * /te?t_ * .py          three runs
//! name      /usr/lib/test_/test_a.py
//!           ^---^   ^----^       ^-^
//! ```
//!
//! So a match takes time of at most the pattern's length times the name's, and no memory.
#![tactic(auto)]

mod matching;
mod pattern;
mod piece;
mod sets;
#[cfg(test)]
mod tests;

pub use pattern::Pattern;
