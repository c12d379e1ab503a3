//! Blocks that each are a region of their own: what `_PyMem_RawMalloc` and its kin of
//! `Objects/obmalloc.c` do by the C library's `malloc`.
//!
//! A raw block is a whole region of a raw source, carved as one piece. While the piece is out, the
//! region, of which no byte is at home, waits in a map by its place:
//!
//! ```text
//! regions    place ---> region  [ - | - | - | - | - ]
//!                       piece   [ 7 | 0 | 0 | 5 | 1 ]   with whoever asked for it
//! ```
//!
//! When the piece comes back, its place finds the region, which is mended and goes back to the source.
//! Always, each region in the map is lent as a whole, and no two of them share an address. As in
//! `_PyMem_RawMalloc`, a block of no bytes has one. It differs in where a refusal shows: a source that
//! refuses gives no piece, and a request that finds no memory to keep its region is an error.
#![tactic(auto)]

mod heap;
#[cfg(test)]
mod tests;

pub use heap::{RawGot, RawHeap};
