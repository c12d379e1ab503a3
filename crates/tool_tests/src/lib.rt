//! Tests of the reader, of the texts and of whole runs. They stand in a crate of their own, over the
//! others, so that the crates that they show are not proved a second time for them.
#![tactic(auto)]

#[cfg(test)]
mod reader;
