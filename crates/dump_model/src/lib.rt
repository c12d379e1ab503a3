//! What a dump is: a snapshot as text, its one spelling, and the first fault of bytes that spell none. The
//! definitions stand in `specs/`: `Spelling` says how a snapshot is spelt and which have a spelling, `Operands` how
//! a word is read, and `Reading` what lines come to, with the causes of a faulty line in their order. The functions
//! here are the laws that tie both together.
//!
//! ```text
//! pysnap 1                      the header
//! limit 2                       how many frames a trace keeps at most, 1 to 65,535
//! trace 0 x 5 1 f.py:9          a block's trace: domain 0, name, size, frames that there were, frames that are kept
//! trace 3 4 6 3 f.py:1 f.py:9   a marked number's: its domain, number, size, frames
//! end
//! ```
//!
//! Traces rise by their domains, in domain 0 by the bytes of the names and in others by the numbers; there are at
//! most 262,144. Frames stand oldest first, and there are as many as there were or as the limit allows. A file of
//! several dumps is one after the other.
#![tactic(auto)]

mod cause;
mod laws;

pub use cause::LoadCause;
pub use laws::{read_where_spelt, spelt_once};
