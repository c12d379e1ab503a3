//! Where memory comes from.
//!
//! An [`ArenaSource`] gives arenas of a mebibyte and a [`RawSource`] regions of any length. Both
//! count what is asked of them and what they refuse, so that whoever is refused can say so. All that
//! a source gives out lies in its window of addresses, and no two of the regions that are out meet.
//!
//! `MemArenas` and `MemRaw` take memory of the process. They refuse the requests that they are told
//! to refuse and those past their capacity, and no other:
//!
//! ```text
//! MemArenas   | slot 0 | slot 1 | slot 2 | ..   a request takes the least free slot
//! MemRaw      | region | region |region| ..     a request takes the place past the last region
//! ```
#![tactic(auto)]

mod arenas;
mod bits;
mod raw;
mod regions;
mod requests;
mod source;
#[cfg(test)]
mod tests;

pub use arenas::MemArenas;
pub use raw::MemRaw;
pub use source::{ArenaSource, AskError, RawSource};
