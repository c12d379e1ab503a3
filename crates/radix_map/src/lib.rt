//! Which arena has an address: the radix tree of obmalloc.c.
//!
//! An arena is 1,048,576 bytes (one MiB) and begins at any multiple of 4,096, so it may lie in two MiB
//! of memory. Memory below 2^48 is cut into pieces of one MiB. A tree of three levels, indexed by bits
//! 47 to 38, 37 to 28 and 27 to 20 of an address, leads to the entry of its MiB:
//!
//! ```text
//! tree   1024 middles    by bits 47 to 38
//! middle 1024 leaves     by bits 37 to 28
//! leaf    256 entries    by bits 27 to 20
//! entry   the arena that begins in the MiB, and the rest of the one that began in the MiB before
//! ```
//!
//! A node that was never written has no slots. obmalloc.c has the same tree with levels of 15, 15 and
//! 14 bits over 64-bit addresses, and keeps for an arena how far it reaches into each of its two MiB.
//! To find an address takes one look at each level, however many arenas there are. Only `new` and
//! `mark` take memory.
#![tactic(auto)]

mod entry;
mod leaf;
mod map;
mod middle;
#[cfg(test)]
mod tests;
mod tree;

pub use map::RadixMap;
