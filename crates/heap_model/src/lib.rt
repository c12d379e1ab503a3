//! A heap's tables of pools and arenas, and the layout that they stand for; nothing here runs.
//!
//! A heap keeps more than its layout tells: which place of its arena each pool has, and where that
//! place begins. It keeps it in another form too:
//!
//! | Layout | Tables |
//! |---|---|
//! | `used`, the pools with free blocks by class | `lists`, the spots of those pools by class |
//! | `full`, the full pools by number | `started`, all pools with blocks in use, in any order |
//! | the length of `full` | `taken`, the number of pools taken so far |
//! | `usable`, `dry`, `given`, `back`, `most` | the same |
//!
//! In `used` a pool has its number, its arena and how many of its blocks are in use. A spot is a place
//! for a pool: an arena, and how many places of that arena stand before it.
//! `layout_of` makes the layout of tables, and `IsKept` says what is true of tables between a heap's
//! calls. The laws below take one case each of a block that is taken or freed. They say that the
//! tables stay kept where they change as that case has it, that their layout becomes the one that
//! `place` or `unplace` gives, and that the other pools keep their places.
#![tactic(auto)]

ghost use Rattle.std.specs.Prelude.{◌≡◌};
ghost use Rattle.layout_model.specs.Layout.{empty_layout};
ghost use Rattle.heap_model.specs.Tables.{empty_tables};
ghost use Rattle.heap_model.specs.View.{layout_of};
ghost use Rattle.heap_model.specs.Kept.{IsKept};
ghost use Rattle.heap_model.specs.Laws.{OneMoreIsPlaced, LastOneIsPlaced, NewPoolIsPlaced, NewArenaIsPlaced};
ghost use Rattle.heap_model.specs.Laws.{RefusedIsNotPlaced, FreedFullIsUnplaced, FreedOneIsUnplaced};
ghost use Rattle.heap_model.specs.Laws.{DryArenaGetsPool, UsableArenaIsPut, WholeArenaGoesBack, PoolComesBack};
ghost use Rattle.heap_model.specs.Laws.{FirstHasRoom, PoolIsListed, PlacesAreOfPools, ListsHaveOpenPools};
ghost use Rattle.heap_model.specs.Laws.{ArenasAreFree, StartedAndLent, MendedAndGone, NewArenaGives};
ghost use Rattle.heap_model.specs.Ground.{AddressFindsPool, PoolsDoNotMeet, PlacesDiffer};

/// Empty tables are kept, and stand for the empty layout.
pub fn empty_tables_are_kept()
    ensures kept { IsKept empty_tables }
    ensures layout { layout_of empty_tables ≡ empty_layout }
{}

/// A block of the first pool of its class, which has a free block after it too.
pub fn one_more_is_placed()
    ensures { OneMoreIsPlaced }
{}

/// The last free block of the first pool of its class.
pub fn last_one_is_placed()
    ensures { LastOneIsPlaced }
{}

/// The first block of a new pool of the first usable arena.
pub fn new_pool_is_placed()
    ensures { NewPoolIsPlaced }
{}

/// The first block of a new pool of an arena that was granted for it.
pub fn new_arena_is_placed()
    ensures { NewArenaIsPlaced }
{}

/// A block for which an arena was refused.
pub fn refused_is_not_placed()
    ensures { RefusedIsNotPlaced }
{}

/// A block of a full pool is freed.
pub fn freed_full_is_unplaced()
    ensures { FreedFullIsUnplaced }
{}

/// A block is freed of a pool that has a free block and keeps others in use.
pub fn freed_one_is_unplaced()
    ensures { FreedOneIsUnplaced }
{}

/// A pool's last block is freed, and its arena had no free pool.
pub fn dry_arena_gets_pool()
    ensures { DryArenaGetsPool }
{}

/// A pool's last block is freed, and its arena, which had free pools, stays.
pub fn usable_arena_is_put()
    ensures { UsableArenaIsPut }
{}

/// A pool's last block is freed, and its arena goes back to the source.
pub fn whole_arena_goes_back()
    ensures { WholeArenaGoesBack }
{}

/// A pool's last block is freed, whatever becomes of its arena.
pub fn pool_comes_back()
    ensures { PoolComesBack }
{}

/// The first pool of a class has a free block to give.
pub fn first_has_room()
    ensures { FirstHasRoom }
{}

/// A pool with a free block stands in one place of the list of its class.
pub fn pool_is_listed()
    ensures { PoolIsListed }
{}

/// The pools that have a place are those of the layout.
pub fn places_are_of_pools()
    ensures { PlacesAreOfPools }
{}

/// An address and the arenas' bases tell the pool that has the address.
pub fn address_finds_pool()
    ensures { AddressFindsPool }
{}

/// Pools have no address in common.
pub fn pools_do_not_meet()
    ensures { PoolsDoNotMeet }
{}

/// Pools with different numbers have different places.
pub fn places_differ()
    ensures { PlacesDiffer }
{}

/// The list of a class has as many pools as the class has with a free block.
pub fn lists_have_open_pools()
    ensures { ListsHaveOpenPools }
{}

/// A heap without blocks in use has only free pools.
pub fn arenas_are_free()
    ensures { ArenasAreFree }
{}

/// A pool is started without a block in use, and then gives its first one.
pub fn started_and_lent()
    ensures { StartedAndLent }
{}

/// A pool gets its last block back, and then is no pool any more.
pub fn mended_and_gone()
    ensures { MendedAndGone }
{}

/// An arena whose pools are all free gives one of them, and keeps free ones.
pub fn new_arena_gives()
    ensures { NewArenaGives }
{}
