//! One pool: 16,384 bytes that are cut into blocks of one size class. All that is known of a pool stands in
//! its bytes, as in obmalloc.c, and this crate keeps nothing beside them.
//!
//! A pool begins with a header of 48 bytes, little-endian; obmalloc.c names it `pool_header`:
//!
//! ```text
//! offset  bytes  field                                                    in obmalloc.c
//!      0      8  how many blocks are in use                               ref.count
//!      8      8  the offset of the first free block, 0 for none           freeblock
//!     16      8  the address of the next pool of its list, 0 for none     nextpool
//!     24      8  the address of the pool before it, 0 for none            prevpool
//!     32      4  the number of its arena                                  arenaindex
//!     36      4  its size class                                           szidx
//!     40      4  the next offset: that of the first block never taken     nextoffset
//!     44      4  the greatest next offset: 16,384 less a block's size     maxnextoffset
//! ```
//!
//! Behind the header stand the blocks, here of s bytes each:
//!
//! ```text
//! offset   0        48        48 + s     48 + 2s          next offset                16,384
//!          | header | block 0 | block 1  | block 2 | .. | never taken yet    | rest |
//! ```
//!
//! The free blocks form a list. The header has the offset of the first of them, and the first eight bytes
//! of each have the offset of the one after it, 0 for none. So a block that was given back is the next one
//! that is taken. Where no block is free, the pool takes the one at its next offset, which no caller has
//! had yet, and the next offset rises by the size of a block. A pool is full exactly where no block is free
//! and the next offset is over the greatest one. For blocks of 512 bytes, after the first two were given
//! back in this order:
//!
//! ```text
//! header: first free 560          560: [ 48 | .. ]          48: [ 0 | .. ]
//! ```
//!
//! Where obmalloc.c links by pointers, free blocks are named by their offsets here. There a pool that is
//! started anew by the class that it had keeps its free list; here `init` always begins a new one.
#![tactic(auto)]

mod bytes;
mod header;
mod pool;
#[cfg(test)]
mod tests;

pub use bytes::{arena, class, give, init, live, next, prev, set_next, set_prev, take};
pub use pool::{Gave, Taken, block_size};
