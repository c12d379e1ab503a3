//! Nodes in rising order of a rank, without a walk.
//!
//! A heap lists its arenas in rising order of how many free pools they have. When a pool comes back,
//! its arena has one more and moves behind all others that have fewer. obmalloc.c finds the place by
//! `nfp2lasta`, which has for each number of free pools the last arena with it, and so does a
//! [`Ranks`]:
//!
//! | Field | Holds |
//! |---|---|
//! | `chain` | the nodes, in rising order of rank |
//! | `ranks` | the rank of each node, from 1 to 64 |
//! | `lasts` | for each rank the last node that has it, if there is one |
//!
//! A node whose rank rises by one stays where it is, if it is the last one of its rank, and else goes
//! right behind that one: no other node has a rank between the two. A call touches at most six nodes
//! of the chain, however many there are.
#![tactic(auto)]

mod ranks;
mod table;
#[cfg(test)]
mod tests;

pub use crate::ranks::Ranks;
