//! The machine: a trace that is replayed one event at a time, with the history that it makes.
//!
//! A machine has the shape of the state that the definitions of an event speak of. What they hold by
//! name it holds by number, since names are looked up while the trace is read and never again:
//!
//! ```text
//!     definitions                                   machine
//!     held     blocks by name, layout    <------    held     store: a slot for each name's number
//!              owner of the lock                             owner of the lock
//!              frames of each track                          callers: frames, and numbers of tracebacks
//!              traces, and their sums                        tracing: traces by number, their sum, its peak
//!              snapshots by name                             snapshots by number, and the ranks of names
//!     done     operations done by track  <------    progress done, and the tracks with operations left
//!     faulted  whether a fault has come  <------    faulted
//!     history  the events so far         <------    history
//! ```
//!
//! What always holds: the history is legal, and these fields stand for the state that it leads to.
//!
//! An event first does all that can fail, and then makes its change, which cannot fail: its entry is
//! kept, then the reply or the trace of its block takes the memory that it needs, and last of all a source
//! is asked. So an event that finds no memory leaves the machine as it was; at most a list of frames has
//! got a number, or the map of traces has got larger, and nothing that a machine says depends on either.
//! An operation is done in `Held`: `quiet` has those that ask no source, `asking` all others, and what is
//! traced after an operation of `asking` stands in `traces`; what is kept of traces stands in `snapshots`.
#![tactic(auto)]

mod held;
mod machine;
mod picks;
mod progress;
mod schedule;
mod snapshots;
mod traces;

pub use block_store::Spot;
pub use machine::Machine;
