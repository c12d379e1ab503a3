//! The limits of inputs and runs, which are this project's own. `docs/GUIDE.md` lists them for users.
//! Each stands here once; code and specs cite the constant, and [`limits_are_these`] says its number,
//! so that no limit can change unseen.
ghost use Rattle.std.specs.Prelude.{◌≡◌};

/// The greatest size of one request in bytes: the greatest number of the C type `Py_ssize_t`.
pub const MAX_SIZE: u64 = 9_223_372_036_854_775_807;

/// The bytes that the debug hooks put round a block's data: its size, a letter and pads.
pub const HOOK_BYTES: u64 = 24;

/// The most bytes of one input.
pub const MAX_INPUT: u64 = 16_777_216;

/// The most tracks of a trace.
pub const MAX_TRACKS: usize = 64;

/// The most operations of a trace, over all its tracks.
pub const MAX_OPS: usize = 262_144;

/// The greatest sum of all pick counts.
pub const MAX_PICKS: u32 = 4_194_304;

/// The most bytes of the name of a block, a track or a snapshot.
pub const MAX_NAME: usize = 32;

/// The most bytes of a file name or a pattern.
pub const MAX_FILE: usize = 255;

/// The most bytes of one poke or peek.
pub const MAX_REACH: u64 = 1024;

/// The most frames of one track at once.
pub const MAX_FRAMES: u32 = 256;

/// The greatest line number of a frame.
pub const MAX_LINE: u32 = 2_147_483_647;

/// The greatest frame limit of `start`.
pub const MAX_FRAME_LIMIT: u32 = 65_535;

/// The most distinct names that `snapshot` and `keep` write.
pub const MAX_SNAPSHOTS: usize = 16;

/// The most rules of one `keep`.
pub const MAX_RULES: usize = 16;

/// The most operations that print more than a reply: `snapshot`, `keep`, `stats`, `compare`,
/// `dump`, `heap` and `where` together.
pub const MAX_REPORTS: usize = 1024;

/// The most lines of one `stats` or `compare`.
pub const MAX_LINES: u32 = 1_000_000;

/// The most traces of one dump.
pub const MAX_DUMP_ROWS: usize = 262_144;

/// The most arenas that may be out at once.
pub const MAX_ARENAS: u32 = 1024;

/// How many arenas may be out at once where no option says so.
pub const DEFAULT_ARENAS: u32 = 256;

/// The most bytes of raw regions that may be out at once, and how many may where no option says so.
pub const MAX_RAW_BYTES: u64 = 268_435_456;

/// The greatest offset of an arena's base from a mebibyte, in pages of 4,096 bytes.
pub const MAX_SKEW: u8 = 255;

/// The greatest number of a request that is to be refused.
pub const MAX_REFUSAL: u64 = 1_000_000;

/// The most numbers of requests in one list of those to be refused.
pub const MAX_REFUSALS: usize = 1000;

/// The most rounds of a generated trace.
pub const MAX_ROUNDS: u32 = 200_000;

/// The numbers of all limits.
pub fn limits_are_these()
    ensures size { MAX_SIZE ≡ 9223372036854775807 }
    ensures hooks { HOOK_BYTES ≡ 24 }
    ensures input { MAX_INPUT ≡ 16777216 }
    ensures tracks { MAX_TRACKS ≡ 64 }
    ensures ops { MAX_OPS ≡ 262144 }
    ensures picks { MAX_PICKS ≡ 4194304 }
    ensures name { MAX_NAME ≡ 32 }
    ensures file { MAX_FILE ≡ 255 }
    ensures reach { MAX_REACH ≡ 1024 }
    ensures frames { MAX_FRAMES ≡ 256 }
    ensures line { MAX_LINE ≡ 2147483647 }
    ensures frame_limit { MAX_FRAME_LIMIT ≡ 65535 }
    ensures snapshots { MAX_SNAPSHOTS ≡ 16 }
    ensures rules { MAX_RULES ≡ 16 }
    ensures reports { MAX_REPORTS ≡ 1024 }
    ensures lines { MAX_LINES ≡ 1000000 }
    ensures dump_rows { MAX_DUMP_ROWS ≡ 262144 }
    ensures arenas { MAX_ARENAS ≡ 1024 }
    ensures default_arenas { DEFAULT_ARENAS ≡ 256 }
    ensures raw_bytes { MAX_RAW_BYTES ≡ 268435456 }
    ensures skew { MAX_SKEW ≡ 255 }
    ensures refusal { MAX_REFUSAL ≡ 1000000 }
    ensures refusals { MAX_REFUSALS ≡ 1000 }
    ensures rounds { MAX_ROUNDS ≡ 200000 }
{}
