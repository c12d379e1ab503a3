//! Arenas in memory of the process.
//!
//! The arenas stand in slots of a mebibyte, side by side. A request takes the least free slot, and a
//! slot whose arena came back is free again.

ghost use Rattle.std.specs.Prelude.{◌≡◌, ℕ, ◌+◌, ◌^◌, ◌<◌, ◌≤◌};
ghost use Rattle.std.specs.Prelude.{◌↔◌, [], length, get_or, None, Some, IsSome};
ghost use Rattle.std.specs.Prelude.{IfOk, OnOk, OnErr, IsErrOf, MatchBool};
ghost use Rattle.raw_region.specs.Cells.{AllHome};
ghost use Rattle.extents.specs.Extent.{region_extent};
ghost use Rattle.extents.specs.Sums.{Has, Removed};
ghost use Rattle.sources.specs.Kept.{AreTold, IsSlotPlace, TakesSlot, slots_out};
ghost use Rattle.mem_base.specs.Plan.{IsPlanned};
ghost use Rattle.sources.specs.Source.{refusals, Granted, IsArena, shape_after, ArenaShape};
ghost use Rattle.sources.specs.Memory.{ArenasRefuse, IsLeastFreeSlot, ListsAlso, arena_window, is_listed, slot_place};

use crate::bits::{clear_bit, clear_bits, first_clear, set_bit};
use crate::regions::make_region;
use crate::requests::Requests;
use crate::{ArenaSource, AskError};
use mem_base::limits::{DEFAULT_ARENAS, MAX_ARENAS};
use raw_region::{Maker, Region};
use std::alloc::{AllocError, Global};
use std::marker::Model;

// Where the slots begin, but for the skew.
const WINDOW_START: u64 = 0x1000_0000_0000;

const ARENA_BYTES: u64 = 0x10_0000;

const PAGE_BYTES: u64 = 4096;

/// A source of arenas in memory. It refuses the requests that were listed, and those made while as
/// many arenas are out as its shape says.
#[derive(Drop)]
pub struct MemArenas {
    alloc: Global,
    requests: Requests,
    max: u32,
    skew: u8,
    held: u32,
    slots: Vec<Option<Maker>>,
    // A bit for each slot, which is 1 where it is taken.
    taken: Vec<u64>,
}

impl Model for MemArenas {
    ghost use Rattle.sources.specs.Memory.{ArenasView};

    ghost Value = { ArenasView };

    ghost use Rattle.sources.specs.Kept.{slots_out, first_slot, AreSlots, AreTold};

    ghost view = { λ a. record {
      requests = a.requests;
      shape = record { max = a.max; skew = a.skew };
      out = slots_out (first_slot a.skew) a.slots.items;
    } };

    ghost invariant = { λ a. AreSlots a.slots.items a.skew a.held a.max
        × AreTold a.slots.items a.taken.items };
}

// Slots of which none is taken.
fn free_slots(alloc: Global) -> Result<Vec<Option<Maker>>, AllocError>
    ensures { IfOk result (λ v. (length v.items ≡ 1024) × ((b : ℕ) → slots_out b v.items ≡ [])) }
{
    let mut slots = Vec::with_capacity(alloc, MAX_ARENAS as usize)?;
    for _slot in 0..MAX_ARENAS {
        slots.push(None)?;
    }
    Ok(slots)
}

impl MemArenas {
    /// A source of which nothing is out. It has room for 256 arenas, and no skew.
    pub fn new(alloc: Global) -> Result<MemArenas, AllocError>
        ensures { IfOk result (λ s. s ≡ record {
          requests = record { asked = 0; refused = 0; plan = [] };
          shape = record { max = 256; skew = 0 };
          out = [];
        }) }
    {
        Ok(MemArenas {
            alloc,
            requests: Requests::new(alloc),
            max: DEFAULT_ARENAS,
            skew: 0,
            held: 0,
            slots: free_slots(alloc)?,
            taken: clear_bits(alloc, MAX_ARENAS as usize / 64)?,
        })
    }
}

// Whether one more arena may be out.
fn has_room(held: u32, max: u32) -> bool
    ensures { MatchBool result (held < max) (max ≤ held) }
{
    held < max
}

// Where a slot begins.
fn place_of(slot: usize, skew: u8) -> u64
    requires { slot < 1024 }
    ensures place { result ≡ slot_place skew slot }
    ensures shift { skew < 256 }
{
    WINDOW_START + slot as u64 * ARENA_BYTES + u64::from(skew) * PAGE_BYTES
}

// The slot that begins at the place.
fn slot_at(place: u64, skew: u8) -> usize
    requires { IsSlotPlace skew place }
    ensures inside { result < 1024 }
    ensures place { slot_place skew result ≡ place }
{
    ((place - WINDOW_START - u64::from(skew) * PAGE_BYTES) / ARENA_BYTES) as usize
}

// A new arena in the least free slot.
fn make_in_slot(
    alloc: Global,
    slots: &mut Vec<Option<Maker>>,
    taken: &mut Vec<u64>,
    skew: u8,
) -> Result<Region, AllocError>
    requires all { length slots.old.items ≡ 1024 }
    requires told { AreTold slots.old.items taken.old.items }
    requires room { length (slots_out 0 slots.old.items) < 1024 }
    ensures taken { IfOk result (λ r. TakesSlot skew r slots.old.items slots.new.items) }
    ensures left { OnErr result (slots.new.items ≡ slots.old.items) }
    ensures told { AreTold slots.new.items taken.new.items }
{
    let slot = first_clear(taken.as_slice());
    let place = place_of(slot, skew);
    let region = make_region(alloc, place, ARENA_BYTES)?;
    slots[slot] = Some(region.maker());
    set_bit(taken, slot);
    Ok(region)
}

impl ArenaSource for MemArenas {
    ghost seen = { λ s. record {
      asked = s.requests.asked;
      refused = s.requests.refused;
      window = arena_window;
      out = s.out;
      plan = Some (is_listed s.requests.plan);
      shape = Some s.shape;
    } };

    fn asked(&self) -> u64 {
        self.requests.asked()
    }

    fn refused(&self) -> u64 {
        self.requests.refused()
    }

    fn ask(&mut self) -> Result<Region, AskError>
        requires { self.old.requests.asked < 2 ^ 63 }
        ensures asked { self.new.requests.asked ≡ self.old.requests.asked + 1 }
        ensures refused { self.new.requests.refused ≡ self.old.requests.refused + refusals result }
        ensures planned { IsPlanned (Some (is_listed self.old.requests.plan)) (self.old.requests.asked + 1)
            → IsErrOf result AskError.Refused }
        ensures granted { IfOk result (λ r. Granted r arena_window self.old.out self.new.out) }
        ensures arena { IfOk result IsArena }
        ensures none { OnErr result (self.new.out ≡ self.old.out) }
        ensures plan { self.new.requests.plan ≡ self.old.requests.plan }
        ensures shape { self.new.shape ≡ self.old.shape }

        // What is refused, and where an arena stands.
        ensures exactly { IsErrOf result AskError.Refused ↔ ArenasRefuse self.old }
        ensures place { IfOk result (λ r. IsLeastFreeSlot self.old.shape.skew self.old.out r.base) }
    {
        let room = has_room(self.held, self.max);
        if self.requests.refuses_next(room) {
            return Err(AskError::Refused);
        }
        match make_in_slot(self.alloc, &mut self.slots, &mut self.taken, self.skew) {
            Ok(region) => {
                self.held += 1;
                Ok(region)
            }
            Err(_) => Err(AskError::OutOfMemory),
        }
    }

    fn give(&mut self, region: Region)
        requires { Has (region_extent region) self.old.out × AllHome region.cells }
        ensures back { Removed (region_extent region) self.old.out self.new.out }
        ensures requests { self.new.requests ≡ self.old.requests }
        ensures shape { self.new.shape ≡ self.old.shape }
    {
        let slot = slot_at(region.base(), self.skew);
        self.slots[slot] = None;
        clear_bit(&mut self.taken, slot);
        self.held -= 1;
        region.end();
    }

    fn refuse(&mut self, k: u64) -> Result<(), AllocError>
        requires number { (1 ≤ k) × (k ≤ 1000000) }
        requires count { self.old.requests.asked < 2 ^ 63 }
        ensures listed { OnOk result
            (ListsAlso self.old.requests.plan self.new.requests.plan (self.old.requests.asked + k)) }
        ensures left { OnErr result (self.new.requests.plan ≡ self.old.requests.plan) }
        ensures counts { (self.new.requests.asked ≡ self.old.requests.asked)
            × (self.new.requests.refused ≡ self.old.requests.refused) }
        ensures same { (self.new.out ≡ self.old.out) × (self.new.shape ≡ self.old.shape) }
    {
        self.requests.list(k)
    }

    fn shape(&mut self, max: u32, skew: u8)
        requires { max ≤ 1024 }
        ensures shape { Some self.new.shape
            ≡ shape_after self.old.out (record { max = max; skew = skew }) (Some self.old.shape) }
        ensures same { (self.new.requests ≡ self.old.requests) × (self.new.out ≡ self.old.out) }
    {
        if self.held == 0 {
            self.max = max;
            self.skew = skew;
        }
    }
}
