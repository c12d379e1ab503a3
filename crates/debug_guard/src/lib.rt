//! The debug hooks' layout of one block, in a piece of memory, as `_PyMem_DebugRawAlloc` of
//! `Objects/obmalloc.c` writes it. With n bytes of data the block takes the first n + 24 bytes of the
//! piece (`PYMEM_DEBUG_EXTRA_BYTES` are three words of eight):
//!
//! | Bytes | Hold |
//! |---|---|
//! | 0 to 7 | n, the greatest byte first |
//! | 8 | the letter of the block's domain: `r`, `m` or `o` (`api_id`) |
//! | 9 to 15 | FD (`PYMEM_FORBIDDENBYTE`) |
//! | 16 to n+15 | the data: CD where it is new (`PYMEM_CLEANBYTE`) |
//! | n+16 to n+23 | FD |
//!
//! The size word is written by `dress` alone, and anew by `resize`. What follows it is the block's
//! body: `poke` and `peek` reach all of it, by offsets from the data's start. `check` looks at it in
//! the order of `_PyMem_DebugCheckAddress`: the letter, the pads before the data, those behind it. It
//! answers the first byte that is not as `dress` wrote it, where that function ends the process.
//!
//! A realloc (`_PyMem_DebugRawRealloc`) either writes the block anew around its data, by `resize`, or
//! dresses another one and copies the data to it, by `carry`. That function saves the data at both
//! ends, hands the block on filled with DD and puts them back; here nobody else sees it in between.
//!
//! What lies behind the block in its piece stays as it is until `kill` fills the whole piece with DD
//! (`PYMEM_DEADBYTE`). `_PyMem_DebugRawFree` fills the block's n + 24 bytes alone. There is no serial
//! number (`PYMEM_DEBUG_SERIALNO`). No call on a block takes memory.
#![tactic(auto)]

mod checks;
mod guarded;
mod reach;
#[cfg(test)]
mod tests;

pub use checks::{check, report};
pub use guarded::{Guarded, carry, dress, kill, piece, resize, size};
pub use reach::{peek, poke};
