//! The types that the crates share: names and lists, traces, histories, replies, and the limits.
#![tactic(auto)]

mod history;
pub mod limits;
mod list;
mod reply;
#[cfg(test)]
mod tests;
mod texts;
mod trace;

pub use history::{Ask, Entry, Grant, History};
pub use list::List;
pub use reply::{
    ArenaLine, BlockReport, ClassLine, Counts, Diff, Fault, Frame, Group, Reply, Step, Totals,
    UsedPool, View,
};
pub use texts::{TextId, Texts};
pub use trace::{KeyKind, Letter, Op, Pick, Rule, Side, Trace, Track, TrackId};
