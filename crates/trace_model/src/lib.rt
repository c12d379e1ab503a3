//! What a recorded trace is: its operations with their names written out, its one spelling, and the
//! first fault of bytes that spell none. The definitions stand in `specs/`: `Operands` says how a
//! number, an offset, a name or bytes are spelt and read, `Plain` all that is said of each operation
//! (its keyword, its operands, their ranges, how it is read), `Spelling` and `Reading` what a whole
//! trace is, both ways, and `Causes` for which causes a line is refused, as one table. The functions
//! here are the table of keywords and the laws that tie the definitions together.
//!
//! A trace is lines of words. The first line is `pymtrace 1`. Then comes for each track, of which there
//! are at most 64, a line `track NAME` and a line for each of its operations. Last come the picks: lines
//! `pick NAME NUM`, with the name of a track and how often it is picked in a row. All picks together
//! pick at most 4,194,304 times. The operations are:
//!
//! | Line | Operands |
//! |---|---|
//! | `acquire`, `release` | none |
//! | `malloc D NAME NUM` | domain, block, size |
//! | `calloc D NAME NUM NUM` | domain, block, how many elements, size of each |
//! | `realloc D NAME NUM` | domain, block, size |
//! | `free D NAME` | domain, block |
//! | `poke NAME OFF HEX` | block, offset from -8 on, 1 to 1024 bytes |
//! | `peek NAME OFF NUM` | block, offset from -8 on, 1 to 1024 |
//! | `call FILE NUM` | file, 1 to 255 printing bytes, and line, at most 2,147,483,647; at most 256 frames a track |
//! | `line NUM` | the line that the most recent frame goes on to |
//! | `return` | none; the most recent frame goes |
//! | `start NUM` | how many frames a trace of a block keeps, 1 to 65,535 |
//! | `stop`, `clear`, `reset_peak`, `traced` | none |
//! | `mark NUM NUM NUM` | domain, from 1 to 4,294,967,295, number, size |
//! | `unmark NUM NUM` | domain, number |
//! | `where NAME` | block |
//! | `snapshot NAME` | the name that the snapshot gets |
//! | `keep NAME NAME RULES` | the name that the snapshot gets, the one that it is kept from, and 0 to 16 rules |
//! | `stats NAME KEY MODE NUM` | snapshot, `filename`, `lineno` or `traceback`, `plain` or `cumulative`, 1 to 1,000,000 lines |
//! | `compare NAME NAME KEY MODE NUM` | the new snapshot, the old one, and what `stats` has behind its snapshot |
//! | `dump NAME` | snapshot |
//! | `heap` | none; with `where`, `snapshot`, `keep`, `stats`, `compare` and `dump`, at most 1,024 of them |
//! | `refuse SIDE NUM` | `arena` or `raw`, and which request of that source is refused, 1 (the next one) to 1,000,000 |
//!
//! `snapshot` and `keep` write at most 16 names of snapshots. A rule is one word: `in,SCOPE,LINE,DOMAIN,PATTERN` or
//! `ex,SCOPE,LINE,DOMAIN,PATTERN`, with `top` or `all`, a number or `*` for line and domain, and a pattern of 1 to 255
//! bytes, commas allowed; or `in-domain,DOMAIN` or `ex-domain,DOMAIN`. `traceback` goes with `plain` alone.
#![tactic(auto)]

mod cause;
mod keyword;
mod laws;

pub use cause::TraceCause;
pub use keyword::{Head, Keyword, depth_after, name_of, needs_frame, writes};
pub use laws::{read_where_spelt, refused_at_first_fault, refused_by_first_row, spelt_once};
