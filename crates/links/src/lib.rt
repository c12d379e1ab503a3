//! Doubly linked lists over numbered nodes, with a count of the nodes that each call touches.
//!
//! A [`Chain`] orders nodes that are named by numbers below its room, in one vector of links:
//!
//! | Field of a node | Holds |
//! |---|---|
//! | `prev` | the node before it, none at the front |
//! | `next` | the node behind it, none at the end |
//!
//! A node that is not in the chain has no links. A call touches the node that it names and its
//! neighbours, however long the chain is, and adds one to a [`Steps`] for each of them.
#![tactic(auto)]

mod chain;
mod steps;
mod table;
#[cfg(test)]
mod tests;

pub use chain::Chain;
pub use steps::Steps;
