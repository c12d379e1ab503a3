//! The command `replay`: it reads a trace, replays it, and writes the report of what happened.
#![tactic(auto)]

mod command;
mod events;
mod input;
mod refusal;
mod status;
#[cfg(test)]
mod tests;
mod words;

pub use command::{Outcome, run};
pub use status::Status;
