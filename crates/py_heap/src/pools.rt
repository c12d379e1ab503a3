//! What a heap keeps, and the steps of its calls.
//!
//! Each step that can fail comes before the arena source is asked, and each change after it.
ghost use Rattle.std.specs.Prelude.{◌≡◌, ℕ, ◌+◌, ◌^◌, ◌<◌, ◌≤◌, []};
ghost use Rattle.std.specs.Prelude.{length, Some, None, replicate, ◌↔◌, IsTrue, IfOk};
ghost use Rattle.std.specs.Prelude.{IfErr, OnOk, OnErr, IfSome, IfNone, IsNone, ◌≢◌};
ghost use Rattle.mem_base.specs.declared.history.Grant.TheVariants.{NotAsked};
ghost use Rattle.extents.specs.Sums.{tally, AllIn};
ghost use Rattle.extents.specs.Extent.{covers};
ghost use Rattle.layout_model.specs.Pool.{new_pool};
ghost use Rattle.sources.specs.Holder.{AskedNothing, Traded};
ghost use Rattle.layout_model.specs.Geometry.{total_at};
ghost use Rattle.arena_set.specs.Set.{loans_of, regions_of, IsSet};
ghost use Rattle.arena_set.specs.Calls.{AllIdle};
ghost use Rattle.py_heap.specs.Heap.{empty_heap, Serves};
ghost use Rattle.py_heap.specs.Kept.{class_at, heap_of, no_pools, IsKeptState};
ghost use Rattle.py_heap.specs.Steps.{CanCome, Comes, HasRoomForArena, IsFailed, IsServed, OnlyRoom};

use crate::HeapGot;
use crate::classes::ClassPools;
use crate::counted::{end_one, take_pool};
use arena_set::{ArenaSet, Lent};
use mem_base::{Counts, Grant};
use radix_map::RadixMap;
use raw_region::{Piece, Region};
use sources::{ArenaSource, AskError};
use std::alloc::{AllocError, Global};

pub(crate) const POOL_BYTES: u64 = 16384;

// How many classes of sizes there are.
pub(crate) const CLASSES: usize = 32;

// What a heap keeps.
pub(crate) struct Pools {
    pub(crate) alloc: Global,
    pub(crate) set: ArenaSet,
    // By class.
    pub(crate) classes: Vec<ClassPools>,
    // By address.
    pub(crate) marks: RadixMap,
    // How many pools were taken.
    taken: u64,
    // How many arenas were granted, given back, and out at most.
    given: u64,
    pub(crate) back: u64,
    most: u64,
    // How many blocks are lent.
    pub(crate) pooled: u64,
}

// How many pools an arena has that begins there.
fn pool_count(base: u64) -> u8
    ensures { result ≡ total_at base }
{
    if base % POOL_BYTES == 0 { 64 } else { 63 }
}

// Classes without pools.
fn no_classes(alloc: Global) -> Result<Vec<ClassPools>, AllocError>
    ensures { IfOk result (λ v. v.items ≡ replicate 32 (record { first = None; count = 0; full = 0 })) }
{
    let mut classes = Vec::with_capacity(alloc, CLASSES)?;
    for _class in 0..CLASSES {
        classes.push(ClassPools::new())?;
    }
    Ok(classes)
}

// Gives all regions of a set back of which no pool is taken.
fn give_all<A: ArenaSource>(mut set: ArenaSet, arenas: &mut A)
    requires idle { AllIdle set }
    requires sound { IsSet set }
    requires held { AllIn (regions_of set.arenas) (A.seen arenas.old).out }
    ensures traded { Traded (regions_of set.arenas) [] (A.seen arenas.old) (A.seen arenas.new) }
    ensures nothing { AskedNothing (A.seen arenas.old) (A.seen arenas.new) }
{
    while let Some(region) = end_one(&mut set) {
        arenas.give(region);
    }
    set.end();
}

impl Pools {
    ghost use Rattle.py_heap.specs.State.{state_of};

    /// No pools. The error is that there was no memory.
    pub(crate) fn new(alloc: Global) -> Result<Pools, AllocError>
        ensures { IfOk result (λ p. IsKeptState (state_of p) × (heap_of (state_of p) ≡ empty_heap)) }
    {
        let classes = no_classes(alloc)?;
        let marks = RadixMap::new(alloc)?;
        Ok(Pools {
            alloc,
            set: ArenaSet::new(alloc)?,
            classes,
            marks,
            taken: 0,
            given: 0,
            back: 0,
            most: 0,
            pooled: 0,
        })
    }

    // A block of the first pool of the class. `None` says that no pool of it has a free block.
    fn lend_first(&mut self, class: u8) -> Option<Piece>
        requires class { class < 32 }
        requires kept { IsKeptState (state_of self.old) }
        ensures none { IfNone result
            ((self.new ≡ self.old) × ((class_at (state_of self.old) class).spots ≡ [])) }
        ensures some { IfSome result (λ piece. IsKeptState (state_of self.new)
            × Serves class NotAsked (Some piece) (heap_of (state_of self.old)) (heap_of (state_of self.new))
            × (regions_of self.new.set.arenas ≡ regions_of self.old.set.arenas)) }
    {
        let pool = match self.classes[class as usize].first {
            Some(pool) => pool,
            None => return None,
        };
        let Lent { piece, now_full } = self.set.lend(pool);
        self.pooled += 1;
        if now_full {
            self.unlink(class, pool);
            self.classes[class as usize].more_full();
        }
        Some(piece)
    }

    // The first block of a new pool of the first usable arena. `None` says that no arena is usable.
    fn lend_new(&mut self, class: u8) -> Option<Piece>
        requires class { class < 32 }
        requires kept { IsKeptState (state_of self.old) }
        requires none { (class_at (state_of self.old) class).spots ≡ [] }
        requires count { self.old.taken < 2 ^ 63 }
        ensures dry { IsNone result ↔ (self.old.set.usable ≡ []) }
        ensures left { IfNone result (self.new ≡ self.old) }
        ensures serves { IfSome result (λ piece. IsKeptState (state_of self.new)
            × Serves class NotAsked (Some piece) (heap_of (state_of self.old)) (heap_of (state_of self.new))
            × (regions_of self.new.set.arenas ≡ regions_of self.old.set.arenas)) }
    {
        let pool = take_pool(&mut self.set)?;
        self.set.start(pool, class, self.taken);
        self.taken += 1;
        let Lent { piece, now_full: _ } = self.set.lend(pool);
        self.pooled += 1;
        self.put_first(class, pool);
        Some(piece)
    }

    // Room for one more arena.
    fn reserve_arena(&mut self) -> Result<(), AllocError>
        requires few { self.old.given + 1 < 2 ^ 32 }
        requires kept { IsKeptState (state_of self.old) }
        ensures same { OnlyRoom (state_of self.old) (state_of self.new) }
        ensures room { OnOk result (HasRoomForArena (state_of self.new)) }
        ensures usable { self.new.set.usable ≡ self.old.set.usable }
    {
        self.set.reserve_one()
    }

    // One more arena, and how many pools it has. Where there is no memory to mark its addresses, the region
    // comes back.
    fn add_arena(&mut self, region: Region) -> Result<u8, Region>
        requires kept { IsKeptState (state_of self.old) }
        requires room { HasRoomForArena (state_of self.old) }
        requires come { CanCome region (state_of self.old) }
        ensures kept { IsKeptState (state_of self.new) }
        ensures added { IfOk result (λ total. Comes total region (state_of self.old) (state_of self.new)
            × (total ≡ total_at region.base) × (self.new.set.usable ≢ [])) }
        ensures given { OnOk result (self.new.given ≡ self.old.given + 1) }
        ensures left { IfErr result (λ back.
            (back ≡ region) × (state_of self.new ≡ state_of self.old)) }
    {
        let base = region.base();
        // All addresses of a region are below 2^48.
        let _len = region.len();
        match self.marks.mark(base, self.given as u32 + 1) {
            Ok(()) => {}
            Err(_) => return Err(region),
        }
        let _arena = self.set.add(region);
        self.given += 1;
        self.most = self.most.max(self.given - self.back);
        Ok(pool_count(base))
    }

    // A block of class `class` in a new arena, with the pool that is to have it.
    fn ask_arena<A: ArenaSource>(
        &mut self,
        class: u8,
        arenas: &mut A,
    ) -> Result<HeapGot, AllocError>
        requires class { class < 32 }
        requires kept { IsKeptState (state_of self.old) }
        requires none { (class_at (state_of self.old) class).spots ≡ [] }
        requires dry { self.old.set.usable ≡ [] }
        requires arena { HasRoomForArena (state_of self.old) }
        requires few { self.old.given + 1 < 2 ^ 32 }
        requires count { self.old.taken < 2 ^ 63 }
        requires asked { (A.seen arenas.old).asked < 2 ^ 63 }
        requires held { AllIn (regions_of self.old.set.arenas) (A.seen arenas.old).out }
        ensures kept { IsKeptState (state_of self.new) }
        ensures served { IfOk result (λ got. IsServed class got.grant got.piece
            (heap_of (state_of self.old)) (heap_of (state_of self.new))
            (A.seen arenas.old) (A.seen arenas.new)) }
        ensures failed { OnErr result (IsFailed
            (heap_of (state_of self.old)) (heap_of (state_of self.new))
            (A.seen arenas.old) (A.seen arenas.new)) }
    {
        match arenas.ask() {
            Ok(region) => {
                let total = match self.add_arena(region) {
                    Ok(total) => total,
                    Err(region) => {
                        arenas.give(region);
                        return Err(AllocError);
                    }
                };
                match self.lend_new(class) {
                    Some(piece) => Ok(HeapGot {
                        piece: Some(piece),
                        grant: Grant::Granted(total),
                    }),
                    None => unreachable!(),
                }
            }
            Err(AskError::Refused) => Ok(HeapGot {
                piece: None,
                grant: Grant::Refused,
            }),
            Err(AskError::OutOfMemory) => Err(AllocError),
        }
    }

    // A block of class `class` in a new arena.
    fn alloc_in_new<A: ArenaSource>(
        &mut self,
        class: u8,
        arenas: &mut A,
    ) -> Result<HeapGot, AllocError>
        requires class { class < 32 }
        requires kept { IsKeptState (state_of self.old) }
        requires none { (class_at (state_of self.old) class).spots ≡ [] }
        requires dry { self.old.set.usable ≡ [] }
        requires few { self.old.given + 1 < 2 ^ 32 }
        requires count { self.old.taken < 2 ^ 63 }
        requires asked { (A.seen arenas.old).asked < 2 ^ 63 }
        requires held { AllIn (regions_of self.old.set.arenas) (A.seen arenas.old).out }
        ensures kept { IsKeptState (state_of self.new) }
        ensures served { IfOk result (λ got. IsServed class got.grant got.piece
            (heap_of (state_of self.old)) (heap_of (state_of self.new))
            (A.seen arenas.old) (A.seen arenas.new)) }
        ensures failed { OnErr result (IsFailed
            (heap_of (state_of self.old)) (heap_of (state_of self.new))
            (A.seen arenas.old) (A.seen arenas.new)) }
    {
        self.reserve_arena()?;
        self.ask_arena(class, arenas)
    }

    // A block of class `class`, of which no pool has a free block.
    fn alloc_new<A: ArenaSource>(
        &mut self,
        class: u8,
        arenas: &mut A,
    ) -> Result<HeapGot, AllocError>
        requires class { class < 32 }
        requires kept { IsKeptState (state_of self.old) }
        requires none { (class_at (state_of self.old) class).spots ≡ [] }
        requires few { self.old.given + 1 < 2 ^ 32 }
        requires count { self.old.taken < 2 ^ 63 }
        requires asked { (A.seen arenas.old).asked < 2 ^ 63 }
        requires held { AllIn (regions_of self.old.set.arenas) (A.seen arenas.old).out }
        ensures kept { IsKeptState (state_of self.new) }
        ensures served { IfOk result (λ got. IsServed class got.grant got.piece
            (heap_of (state_of self.old)) (heap_of (state_of self.new))
            (A.seen arenas.old) (A.seen arenas.new)) }
        ensures failed { OnErr result (IsFailed
            (heap_of (state_of self.old)) (heap_of (state_of self.new))
            (A.seen arenas.old) (A.seen arenas.new)) }
    {
        match self.lend_new(class) {
            Some(piece) => Ok(HeapGot {
                piece: Some(piece),
                grant: Grant::NotAsked,
            }),
            None => self.alloc_in_new(class, arenas),
        }
    }

    /// A block of class `class`. The error is that there was no memory.
    pub(crate) fn alloc<A: ArenaSource>(
        &mut self,
        class: u8,
        arenas: &mut A,
    ) -> Result<HeapGot, AllocError>
        requires class { class < 32 }
        requires kept { IsKeptState (state_of self.old) }
        requires few { self.old.given + 1 < 2 ^ 32 }
        requires count { self.old.taken < 2 ^ 63 }
        requires asked { (A.seen arenas.old).asked < 2 ^ 63 }
        requires held { AllIn (regions_of self.old.set.arenas) (A.seen arenas.old).out }
        ensures kept { IsKeptState (state_of self.new) }
        ensures served { IfOk result (λ got. IsServed class got.grant got.piece
            (heap_of (state_of self.old)) (heap_of (state_of self.new))
            (A.seen arenas.old) (A.seen arenas.new)) }
        ensures failed { OnErr result (IsFailed
            (heap_of (state_of self.old)) (heap_of (state_of self.new))
            (A.seen arenas.old) (A.seen arenas.new)) }
    {
        match self.lend_first(class) {
            Some(piece) => Ok(HeapGot {
                piece: Some(piece),
                grant: Grant::NotAsked,
            }),
            None => self.alloc_new(class, arenas),
        }
    }

    /// Whether some arena has the address.
    pub(crate) fn owns(&self, place: u64) -> bool
        requires { IsKeptState (state_of self.now) }
        ensures { IsTrue result ↔ (tally (covers place) (regions_of self.now.set.arenas) ≡ 1) }
    {
        match self.marks.find(place) {
            Some(_) => true,
            None => false,
        }
    }

    /// How many arenas there were and are, and how many blocks are lent.
    pub(crate) fn counts(&self) -> Counts
        requires { IsKeptState (state_of self.now) }
        ensures arenas { (result.given ≡ self.now.given)
            × (result.back ≡ self.now.back) × (result.most ≡ self.now.most) }
        ensures out { result.out ≡ length (regions_of self.now.set.arenas) }
        ensures pooled { result.pooled ≡ length (loans_of self.now.set.arenas) }
    {
        Counts {
            given: self.given,
            back: self.back,
            out: self.given - self.back,
            most: self.most,
            pooled: self.pooled,
        }
    }

    /// Gives all arenas back.
    pub(crate) fn end<A: ArenaSource>(self, arenas: &mut A)
        requires kept { IsKeptState (state_of self) }
        requires none { loans_of self.set.arenas ≡ [] }
        requires held { AllIn (regions_of self.set.arenas) (A.seen arenas.old).out }
        ensures traded { Traded (regions_of self.set.arenas) [] (A.seen arenas.old) (A.seen arenas.new) }
        ensures nothing { AskedNothing (A.seen arenas.old) (A.seen arenas.new) }
    {
        let Pools {
            alloc: _,
            set,
            classes: _,
            marks: _,
            taken: _,
            given: _,
            back: _,
            most: _,
            pooled: _,
        } = self;
        give_all(set, arenas);
    }
}
