//! Blocks of memory under addresses of their own, and the pieces of them that are lent out.
//!
//! A region is a row of cells. Each cell is a byte at home, which the region reads and writes, or is
//! lent, and then its byte is with a piece:
//!
//! ```text
//! region   [ 7 | 0 | - | - | - | 3 | 1 ]
//! piece            [ 0 | 0 | 5 ]
//! ```
//!
//! `carve` lends a run of cells, and `mend` brings a piece's bytes home. No byte is copied by either:
//! the piece is a part of the region's memory, and has its place among the region's addresses. Only
//! this crate holds raw pointers into that memory.
#![tactic(auto)]

mod laws;
mod maker;
mod memory;
mod piece;
mod region;
mod shell;
#[cfg(test)]
mod tests;

pub use laws::{
    bytes_after_a_write, home_after_a_carve, home_after_a_write, lent_beside_a_run,
    word_after_a_write,
};
pub use maker::Maker;
pub use piece::Piece;
pub use region::Region;
