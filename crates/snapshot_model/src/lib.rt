//! Snapshots of traces, what rules keep of one, its statistics, and comparisons: what `Snapshot` of
//! `Lib/tracemalloc.py` does.
//!
//! A snapshot is the traces that were held once, in order. Each counts for a key once: for the file of its
//! most recent frame, for that frame, or for all its kept frames. Where statistics are cumulative, it counts
//! for each of its kept frames. A group is a key with the sum of the sizes and the number of what counts for
//! it, and the statistics are the groups from the greatest to the least:
//!
//! ```text
//! traces               by line             by file             by file, cumulative
//! 100  a.py:3 b.py:7   b.py:7   130, 2     b.py:0   130, 2     b.py:0   130, 2
//!  30  b.py:7          a.py:4    20, 1     a.py:0    20, 1     a.py:0   120, 2
//!  20  a.py:4
//! ```
//!
//! Unlike there, groups of one size and one count have an order too, by their keys, so that there is one list
//! of statistics. The definitions in `specs/` say this, and the functions here are the laws.
#![tactic(auto)]

ghost use Rattle.snapshot_model.specs.Laws.{SnapshotsHoldAll, SnapshotsAreOne, RulesKeepSnapshots, NoRulesKeepAll};
ghost use Rattle.snapshot_model.specs.Laws.{StatsAreTheirs, StatsAreOne, ChangesAreTheirs, ComparisonsAreOne};
ghost use Rattle.snapshot_model.specs.Laws.{FirstGroupsAreFirst};

/// A snapshot is the traces that are held, in order, and only that list is.
pub fn snapshots_hold_all()
    ensures all { SnapshotsHoldAll }
    ensures one { SnapshotsAreOne }
{}

/// What rules leave of a snapshot is one again, and no rules leave all.
pub fn rules_keep_snapshots()
    ensures snapshot { RulesKeepSnapshots }
    ensures all { NoRulesKeepAll }
{}

/// There is one list of statistics.
pub fn stats_are_one()
    ensures theirs { StatsAreTheirs }
    ensures one { StatsAreOne }
{}

/// There is one comparison.
pub fn comparisons_are_one()
    ensures theirs { ChangesAreTheirs }
    ensures one { ComparisonsAreOne }
{}

/// Groups in order that are above all others are the first of the statistics.
pub fn first_groups_are_first()
    ensures { FirstGroupsAreFirst }
{}
