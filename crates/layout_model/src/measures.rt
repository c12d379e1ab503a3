//! The sizes of arenas, pools and blocks, in bytes, and how many classes of blocks there are.
//!
//! obmalloc.c names them `ARENA_SIZE`, `POOL_SIZE`, `POOL_OVERHEAD`, `SMALL_REQUEST_THRESHOLD`,
//! `ALIGNMENT`, `NB_SMALL_SIZE_CLASSES` and `SYSTEM_PAGE_SIZE`.

/// The bytes of an arena.
pub const ARENA_BYTES: u64 = 1_048_576;

/// The bytes of a pool, at a multiple of which each pool begins.
pub const POOL_BYTES: u64 = 16_384;

/// The bytes of a pool's header, which stands before its blocks.
pub const HEADER_BYTES: u64 = 48;

/// The greatest request that a pool's block serves.
pub const MAX_SMALL: u64 = 512;

/// The bytes by which the blocks of one class are larger than those of the class before.
pub const ALIGNMENT: u64 = 16;

/// How many classes of blocks there are.
pub const CLASSES: usize = 32;

/// The bytes of a page, at a multiple of which each arena begins.
pub const PAGE_BYTES: u64 = 4096;
