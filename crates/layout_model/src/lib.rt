//! How the heap lays out its pools and arenas, as definitions and laws; nothing here runs.
//!
//! A request of 1 to 512 bytes takes a block of one of 32 classes of sizes. Blocks of a class come
//! from its pools, and pools come from arenas of 63 or 64 pools. A class asks the first of its
//! pools that have free blocks for a block; a class without such a pool asks the first usable arena
//! for a pool; and a heap without a usable arena asks the arena source for one. Usable arenas stand
//! in rising number of free pools, so the fullest is used up first and an emptied one goes back.
//! The definitions in `specs/` say this in the words that the crates above cite.
#![tactic(auto)]

pub mod measures;

ghost use Rattle.layout_model.specs.Sizes.{ClassesAreLeast, PoolsHold};
ghost use Rattle.layout_model.specs.Geometry.{AddressTellsSlot, PoolsAreInArenas};
ghost use Rattle.layout_model.specs.Layout.{empty_layout};
ghost use Rattle.layout_model.specs.Sound.{IsSound};
ghost use Rattle.layout_model.specs.Laws.{PlaceKeepsSound, UnplaceKeepsSound};
ghost use Rattle.layout_model.specs.Laws.{OnlyRefusalsPlaceNothing, RequestsFitTheirClass};
ghost use Rattle.layout_model.specs.Examples.{ArenasAreUsedUp, ArenasRiseInFreePools, TheLastArenaStays};

/// A small request's class is the least whose blocks are large enough.
pub fn classes_are_least()
    ensures { ClassesAreLeast }
{}

/// How many blocks a pool holds, for blocks of nine sizes.
pub fn pools_hold()
    ensures { PoolsHold }
{}

/// Pools begin at multiples of their size, and all of a pool is in its arena.
pub fn pools_are_in_arenas()
    ensures { PoolsAreInArenas }
{}

/// An address and the arena's base tell which of the arena's pools has the address.
pub fn address_tells_slot()
    ensures { AddressTellsSlot }
{}

/// A heap that holds nothing has a sound layout.
pub fn empty_layout_is_sound()
    ensures { IsSound empty_layout }
{}

/// A layout stays sound where a block is placed.
pub fn place_keeps_sound()
    ensures { PlaceKeepsSound }
{}

/// A layout stays sound where a block is freed.
pub fn unplace_keeps_sound()
    ensures { UnplaceKeepsSound }
{}

/// A block gets no pool exactly where an arena was refused.
pub fn only_refusals_place_nothing()
    ensures { OnlyRefusalsPlaceNothing }
{}

/// The arena's answer to a small request fits the request's class.
pub fn requests_fit_their_class()
    ensures { RequestsFitTheirClass }
{}

/// A heap that fills up its one arena and takes a second one.
pub fn arenas_are_used_up()
    ensures { ArenasAreUsedUp }
{}

/// A heap of 3,969 blocks of 512 bytes, of which 93 are freed.
pub fn arenas_rise_in_free_pools()
    ensures { ArenasRiseInFreePools }
{}

/// A heap of two arenas that is emptied.
pub fn the_last_arena_stays()
    ensures { TheLastArenaStays }
{}
