ghost use Rattle.std.specs.Prelude.{◌≡◌, ◌<◌, ◌^◌, List, [], length, sum_by, IfOk, OnErr};
ghost use Rattle.mem_base.specs.Offset.{IsOffset};
ghost use Rattle.block_store.specs.Slots.{blocks_in, data_in};
ghost use Rattle.block_store.specs.Store.{live_in, size_in};

use crate::answer::{Answer, Call};
use crate::slot::{
    answer_to_nothing, drop_slot, empty_slots, keep, keep_moved, peek_slot, poke_slot, put_back,
    put_new,
};
use crate::spot::{Spot, spots_of};
use debug_guard::{Guarded, size};
use domain_api::{Domains, Made, MoveMade};
use mem_base::{Counts, List, Reply, TextId, View};
use sources::{ArenaSource, RawSource};
use std::alloc::{AllocError, Global};
use std::marker::Model;

/// The blocks, by the numbers of their names, and the domains that they belong to. It must be spent
/// by `end`.
pub struct Store {
    slots: Vec<Option<Guarded>>,
    domains: Domains,
}

/// How many blocks there are, and how many bytes of data they have.
#[derive(Clone, Copy, Debug, PartialEq, Eq)]
pub struct StoreTotals {
    pub blocks: u64,
    pub bytes: u128,
}

impl Model for Store {
    ghost use Rattle.block_store.specs.Store.{StoreView, view_of};
    ghost use Rattle.block_store.specs.Slots.{IsStore};

    ghost Value = { StoreView };

    ghost view = { λ s. view_of s.slots.items s.domains };

    ghost invariant = { λ s. IsStore s.slots.items s.domains };
}

// How many blocks are in slots, and how many bytes of data they have.
fn totals_of(slots: &[Option<Guarded>]) -> StoreTotals
    ensures blocks { result.blocks ≡ sum_by blocks_in slots.now }
    ensures bytes { result.bytes ≡ sum_by data_in slots.now }
{
    let mut totals = StoreTotals {
        blocks: 0,
        bytes: 0,
    };
    for slot in slots {
        if let Some(block) = slot {
            totals.blocks += 1;
            totals.bytes += u128::from(size(block));
        }
    }
    totals
}

impl Store {
    ghost use Rattle.event_model.specs.Deeds.{calloc_call, malloc_call, realloc_call};
    ghost use Rattle.event_model.specs.Memory.{free_turn, peek_turn, poke_turn};
    ghost use Rattle.block_store.specs.Sources.{AreHeld, ArenasServe, CanAsk, Fails};
    ghost use Rattle.block_store.specs.Sources.{FailsUnrefused, IsPassedOn, RawsServe, Rests};
    ghost use Rattle.block_store.specs.Spots.{AreSpots, living};
    ghost use Rattle.block_store.specs.Store.{counts_in, empty_store, shape_in};
    ghost use Rattle.block_store.specs.Store.{sized_by, FitsCall, HoldsTheSame, IsTurn};

    /// A store with no block at any of so many numbers. The error is want of memory.
    pub fn new(alloc: Global, count: usize) -> Result<Store, AllocError>
        ensures { IfOk result (λ s. s ≡ empty_store count) }
    {
        let slots = Vec::with_capacity(alloc, count)?;
        match Domains::new(alloc) {
            Ok(domains) => Ok(Store {
                slots: empty_slots(slots, count),
                domains,
            }),
            Err(error) => {
                slots.destroy_empty();
                Err(error)
            }
        }
    }

    /// A block of so many bytes for a name: `busy` where the name has one. The error is want of memory:
    /// then the store is as it was, and all that a source granted has gone back.
    pub fn malloc<A: ArenaSource, R: RawSource>(
        &mut self,
        name: TextId,
        call: Call,
        size: u64,
        arenas: &mut A,
        raws: &mut R,
    ) -> Result<Answer, AllocError>
        requires there { name.0 < length self.old.blocks }
        requires ask { CanAsk self.old (A.seen arenas.old) (R.seen raws.old) }
        requires held { AreHeld self.old (A.seen arenas.old) (R.seen raws.old) }
        ensures turn { IfOk result (λ a.
            IsTurn name.0 (sized_by (malloc_call call.letter size) call.locked a.asked)
            self.old self.new a.reply) }
        ensures fits { IfOk result (λ a.
            FitsCall self.old name.0 (malloc_call call.letter size) call.locked a.asked) }
        ensures arenas { IfOk result (λ a.
            ArenasServe a.asked self.old self.new (A.seen arenas.old) (A.seen arenas.new)) }
        ensures raws { IfOk result (λ a.
            RawsServe a.asked self.old self.new (R.seen raws.old) (R.seen raws.new)) }
        ensures err { OnErr result (self.new ≡ self.old) }
        ensures fails_arenas { OnErr result (Fails self.old.arenas (A.seen arenas.old) (A.seen arenas.new)) }
        ensures fails_raws { OnErr result (FailsUnrefused self.old.raws (R.seen raws.old) (R.seen raws.new)) }
        ensures passed { OnErr result
            (IsPassedOn (A.seen arenas.old) (A.seen arenas.new) (R.seen raws.old) (R.seen raws.new)) }
        ensures held { AreHeld self.new (A.seen arenas.new) (R.seen raws.new) }
    {
        if self.slots[name.0 as usize].is_some() {
            return Ok(Answer::unasked(Reply::Busy));
        }
        let Made { got, asked } = self
            .domains
            .malloc(call.letter, size, call.locked, arenas, raws)?;
        let reply = keep(&mut self.slots, name, got);
        Ok(Answer { reply, asked })
    }

    /// A block of so many elements of so many bytes each for a name, all of them 00: `busy` where the name
    /// has one. The error is want of memory: then the store is as it was, and all that a source granted
    /// has gone back.
    pub fn calloc<A: ArenaSource, R: RawSource>(
        &mut self,
        name: TextId,
        call: Call,
        elements: u64,
        size: u64,
        arenas: &mut A,
        raws: &mut R,
    ) -> Result<Answer, AllocError>
        requires there { name.0 < length self.old.blocks }
        requires ask { CanAsk self.old (A.seen arenas.old) (R.seen raws.old) }
        requires held { AreHeld self.old (A.seen arenas.old) (R.seen raws.old) }
        ensures turn { IfOk result (λ a.
            IsTurn name.0 (sized_by (calloc_call call.letter elements size) call.locked a.asked)
            self.old self.new a.reply) }
        ensures fits { IfOk result (λ a.
            FitsCall self.old name.0 (calloc_call call.letter elements size) call.locked a.asked) }
        ensures arenas { IfOk result (λ a.
            ArenasServe a.asked self.old self.new (A.seen arenas.old) (A.seen arenas.new)) }
        ensures raws { IfOk result (λ a.
            RawsServe a.asked self.old self.new (R.seen raws.old) (R.seen raws.new)) }
        ensures err { OnErr result (self.new ≡ self.old) }
        ensures fails_arenas { OnErr result (Fails self.old.arenas (A.seen arenas.old) (A.seen arenas.new)) }
        ensures fails_raws { OnErr result (FailsUnrefused self.old.raws (R.seen raws.old) (R.seen raws.new)) }
        ensures passed { OnErr result
            (IsPassedOn (A.seen arenas.old) (A.seen arenas.new) (R.seen raws.old) (R.seen raws.new)) }
        ensures held { AreHeld self.new (A.seen arenas.new) (R.seen raws.new) }
    {
        if self.slots[name.0 as usize].is_some() {
            return Ok(Answer::unasked(Reply::Busy));
        }
        let Made { got, asked } = self
            .domains
            .calloc(call.letter, elements, size, call.locked, arenas, raws)?;
        let reply = keep(&mut self.slots, name, got);
        Ok(Answer { reply, asked })
    }

    /// The block of a name with so many bytes: in place, or moved with its data; where the name has none, a
    /// new block. Null and a fault leave the block as it was. The error is want of memory: then the store
    /// is as it was, and all that a source granted has gone back.
    pub fn realloc<A: ArenaSource, R: RawSource>(
        &mut self,
        name: TextId,
        call: Call,
        size: u64,
        arenas: &mut A,
        raws: &mut R,
    ) -> Result<Answer, AllocError>
        requires there { name.0 < length self.old.blocks }
        requires ask { CanAsk self.old (A.seen arenas.old) (R.seen raws.old) }
        requires held { AreHeld self.old (A.seen arenas.old) (R.seen raws.old) }
        ensures turn { IfOk result (λ a.
            IsTurn name.0 (sized_by (realloc_call call.letter size) call.locked a.asked)
            self.old self.new a.reply) }
        ensures fits { IfOk result (λ a.
            FitsCall self.old name.0 (realloc_call call.letter size) call.locked a.asked) }
        ensures arenas { IfOk result (λ a.
            ArenasServe a.asked self.old self.new (A.seen arenas.old) (A.seen arenas.new)) }
        ensures raws { IfOk result (λ a.
            RawsServe a.asked self.old self.new (R.seen raws.old) (R.seen raws.new)) }
        ensures err { OnErr result (self.new ≡ self.old) }
        ensures fails_arenas { OnErr result (Fails self.old.arenas (A.seen arenas.old) (A.seen arenas.new)) }
        ensures fails_raws { OnErr result (FailsUnrefused self.old.raws (R.seen raws.old) (R.seen raws.new)) }
        ensures passed { OnErr result
            (IsPassedOn (A.seen arenas.old) (A.seen arenas.new) (R.seen raws.old) (R.seen raws.new)) }
        ensures held { AreHeld self.new (A.seen arenas.new) (R.seen raws.new) }
    {
        match self.slots[name.0 as usize].take() {
            None => {
                let Made { got, asked } = self
                    .domains
                    .malloc(call.letter, size, call.locked, arenas, raws)?;
                let reply = keep(&mut self.slots, name, got);
                Ok(Answer { reply, asked })
            }
            Some(block) => {
                let came = self
                    .domains
                    .realloc(block, call.letter, size, call.locked, arenas, raws);
                match came {
                    Ok(MoveMade { got, asked }) => {
                        let reply = keep_moved(&mut self.slots, name, got);
                        Ok(Answer { reply, asked })
                    }
                    Err(block) => {
                        put_new(&mut self.slots, name, block);
                        Err(AllocError)
                    }
                }
            }
        }
    }

    /// Gives up the block of a name, where it has one, unless the call is a fault. This takes no memory
    /// and asks no source.
    pub fn free<A: ArenaSource, R: RawSource>(
        &mut self,
        name: TextId,
        call: Call,
        arenas: &mut A,
        raws: &mut R,
    ) -> Reply
        requires there { name.0 < length self.old.blocks }
        requires held { AreHeld self.old (A.seen arenas.old) (R.seen raws.old) }
        ensures turn { IsTurn name.0 (free_turn call.letter call.locked) self.old self.new result }
        ensures arenas { Rests self.old.arenas self.new.arenas (A.seen arenas.old) (A.seen arenas.new) }
        ensures raws { Rests self.old.raws self.new.raws (R.seen raws.old) (R.seen raws.new) }
        ensures held { AreHeld self.new (A.seen arenas.new) (R.seen raws.new) }
    {
        match self.slots[name.0 as usize].take() {
            Some(block) => {
                let freed = self
                    .domains
                    .free(block, call.letter, call.locked, arenas, raws);
                put_back(&mut self.slots, name, freed)
            }
            None => answer_to_nothing(self.domains.need(call.letter, call.locked)),
        }
    }

    /// Writes bytes at an offset from the data of a name's block.
    pub fn poke(&mut self, name: TextId, offset: i64, bytes: &[u8]) -> Reply
        requires there { name.0 < length self.old.blocks }
        requires offset { IsOffset offset }
        ensures turn { IsTurn name.0 (poke_turn offset bytes.now) self.old self.new result }
        ensures same { HoldsTheSame self.old self.new }
    {
        poke_slot(&mut self.slots[name.0 as usize], offset, bytes)
    }

    /// Reads so many bytes at an offset from the data of a name's block. The error is want of memory.
    pub fn peek(
        &self,
        alloc: Global,
        name: TextId,
        offset: i64,
        count: u64,
    ) -> Result<Reply, AllocError>
        requires there { name.0 < length self.now.blocks }
        requires offset { IsOffset offset }
        ensures { IfOk result (λ reply. IsTurn name.0 (peek_turn offset count) self.now self.now reply) }
    {
        peek_slot(alloc, self.slots[name.0 as usize].as_ref(), offset, count)
    }

    /// The heap's shape, and how many blocks are raw regions. The error is want of memory.
    pub fn view(&self) -> Result<View, AllocError>
        ensures { IfOk result (λ view. view ≡ shape_in self.now) }
    {
        self.domains.view()
    }

    /// How many arenas there were and are, and how many blocks lie in them.
    pub fn counts(&self) -> Counts
        ensures { result ≡ counts_in self.now }
    {
        self.domains.counts()
    }

    /// How many blocks there are, and how many bytes of data they have.
    pub fn totals(&self) -> StoreTotals
        ensures blocks { result.blocks ≡ sum_by live_in self.now.blocks }
        ensures bytes { result.bytes ≡ sum_by size_in self.now.blocks }
    {
        totals_of(self.slots.as_slice())
    }

    /// Where the live blocks lie, in the order of the numbers of their names. The error is want of
    /// memory.
    pub fn spots(&self, alloc: Global) -> Result<List<Spot>, AllocError>
        requires { length self.now.blocks < 2 ^ 32 }
        ensures { IfOk result (AreSpots (living self.now)) }
    {
        spots_of(alloc, self.slots.as_slice())
    }

    /// Gives up all blocks. All regions go back to their source.
    pub fn end<A: ArenaSource, R: RawSource>(self, arenas: &mut A, raws: &mut R)
        requires { AreHeld self (A.seen arenas.old) (R.seen raws.old) }
        ensures arenas { Rests self.arenas [] (A.seen arenas.old) (A.seen arenas.new) }
        ensures raws { Rests self.raws [] (R.seen raws.old) (R.seen raws.new) }
    {
        let Store {
            mut slots,
            mut domains,
        } = self;
        while let Some(slot) = slots.pop() {
            drop_slot(slot, &mut domains, arenas, raws);
        }
        slots.destroy_empty();
        domains.end(arenas, raws);
    }
}
