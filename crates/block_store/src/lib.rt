//! The blocks of a run, by the numbers of their names: which block each name has, and the domains
//! that the blocks belong to.
//!
//! CPython's callers keep their pointers themselves. In a trace a block is a name, and a name is a
//! number in a table of texts, so a store is a slot for each number:
//!
//! ```text
//!     number   0      1      2      3            heap of small blocks    raw regions
//!     slot   [ -  |  block |  -   | block ]      arenas > pools
//!                     |               |              ^                      ^
//!                     +---------------|--------------+                      |
//!                                     +-------------------------------------+
//! ```
//!
//! What always holds: the blocks of the slots are just those that the two heaps have lent, so no two
//! of them meet, and where a block lies (its pool, or a raw region of its own) is told by its address.
//! In `Objects/obmalloc.c` that is `address_in_range`, which finds the arena of an address; here it is
//! a definition alone, and the domains find it.
//!
//! A call first does all that can fail, last of that its request to a source, and then makes its
//! change, which cannot fail; so a call that finds no memory leaves the store as it was.
#![tactic(auto)]

mod answer;
mod slot;
mod spot;
mod store;

pub use answer::{Answer, Call};
pub use spot::Spot;
pub use store::{Store, StoreTotals};
