//! Stretches of memory, as contracts speak of them.
//!
//! An extent is a place, a length and a maker. A region that is out at a source and a block that a
//! heap has lent are both seen as one, so the same words serve both. Distinct, disjoint and "adds
//! up" are said by sums over a list: two extents are apart where no address is counted twice.
//!
//! The definitions are in `specs/`. The functions below hold the laws that users rest on most, and
//! do nothing when they are called.
#![tactic(auto)]

ghost use Rattle.std.specs.Prelude.{◌≡◌, ℕ, ◌+◌, ◌≤◌, ◌⊎◌, List};
ghost use Rattle.extents.specs.Sums.{tally, AllIn, Has, Inserted, Removed};
ghost use Rattle.extents.specs.Extent.{Extent, AreApart, MeetsNone};

/// A sum grows by what the new element adds.
pub fn sums_grow_by_what_comes()
    ensures { (f : Extent → ℕ) (e : Extent) (old new : List Extent) → Inserted e old new
        → tally f new ≡ f e + tally f old }
{}

/// What was in a list stays where another element comes, and nothing else comes.
pub fn others_stay()
    ensures kept { (e d : Extent) (old new : List Extent) → Inserted e old new → Has d old → Has d new }
    ensures none { (e d : Extent) (old new : List Extent) → Inserted e old new → Has d new
        → (d ≡ e) ⊎ Has d old }
{}

/// An extent that meets none of a list keeps the list apart, and each one that goes leaves it apart.
pub fn lists_stay_apart()
    ensures comes { (e : Extent) (old new : List Extent)
        → AreApart old → MeetsNone e old → Inserted e old new
        → AreApart new }
    ensures goes { (e : Extent) (old new : List Extent) → AreApart old → Removed e old new
        → AreApart new × MeetsNone e new }
{}

/// What goes from a part of a list and from the list leaves the rest of the part in the list.
pub fn the_rest_stays_in()
    ensures { (e : Extent) (part rest all left : List Extent) → 1 ≤ e.len → AreApart part
        → Removed e part rest → Removed e all left → AllIn part all → AllIn rest left }
{}
