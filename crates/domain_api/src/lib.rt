//! The three domains of the allocator, raw, mem and object, with the debug hooks on.
#![tactic(auto)]

mod answers;
mod decide;
mod domains;
mod realloc;

pub use answers::{Asked, Freed, Got, Made, MoveMade, Moved};
pub use domains::Domains;

#[cfg(test)]
mod tests;
