//! Finite maps from names, as definitions: what blocks, traces and snapshots stand under. The
//! functions here are the laws of them.
#![tactic(auto)]

ghost use Rattle.map_model.specs.Laws.{HoldsWhatItGot, OthersHoldTheirs, StaysDistinct, SumsChangeByOne};

/// A name holds what it was given, each other name holds what it held, no name comes to stand twice,
/// and a sum over the map changes by what the one name held and holds.
pub fn one_name_changes<V>()
    ensures given { HoldsWhatItGot V }
    ensures others { OthersHoldTheirs V }
    ensures distinct { StaysDistinct V }
    ensures sums { SumsChangeByOne V }
{}
