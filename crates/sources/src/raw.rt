//! Raw regions in memory of the process.
//!
//! The regions stand one past the other, each at a multiple of 16, and no address is used twice.

ghost use Rattle.std.specs.Prelude.{◌≡◌, ◌+◌, ◌-◌, ◌^◌, ◌<◌, ◌≤◌, ◌⊎◌};
ghost use Rattle.std.specs.Prelude.{◌↔◌, [], Some, MatchBool, IfOk, OnOk, OnErr, IsErrOf};
ghost use Rattle.raw_region.specs.Cells.{AllHome};
ghost use Rattle.extents.specs.Extent.{begins, region_extent};
ghost use Rattle.extents.specs.Sums.{tally, Has, Inserted, Removed};
ghost use Rattle.sources.specs.Kept.{held_out, IsNew};
ghost use Rattle.mem_base.specs.Plan.{IsPlanned};
ghost use Rattle.sources.specs.Source.{refusals, Granted, IsRawRegion, shape_after};
ghost use Rattle.sources.specs.Memory.{ListsAlso, RawRefuses, aligned_up, is_listed, raw_window};

use crate::regions::make_region;
use crate::requests::Requests;
use crate::{AskError, RawSource};
use mem_base::limits::MAX_RAW_BYTES;
use raw_region::{Maker, Region};
use std::alloc::{AllocError, Global};
use std::collections::BTreeMap;
use std::marker::Model;

// The first address of the window, and the first one past it.
const WINDOW_START: u64 = 0x2000_0000_0000;

const WINDOW_END: u64 = 0xa000_0000_0000;

/// What is kept of a region that is out, by its place.
#[derive(Clone, Copy)]
pub(crate) struct Held {
    len: u64,
    maker: Maker,
}

/// A source of raw regions in memory. It refuses the requests that were listed, those with which
/// more bytes would be out than its shape says, and those for which its window has no room.
#[derive(Drop)]
pub struct MemRaw {
    alloc: Global,
    requests: Requests,
    max_bytes: u64,
    bytes: u64,
    next: u64,
    out: BTreeMap<u64, Held>,
}

impl Model for MemRaw {
    ghost use Rattle.sources.specs.Memory.{RawView};

    ghost Value = { RawView };

    ghost use Rattle.sources.specs.Kept.{held_out, IsRow};

    ghost view = { λ r. record {
      requests = r.requests;
      max_bytes = r.max_bytes;
      next = r.next;
      out = held_out r.out.entries;
    } };

    ghost invariant = { λ r. IsRow (held_out r.out.entries) r.bytes r.max_bytes r.next };
}

impl MemRaw {
    /// A source of which nothing is out. It has room for 268,435,456 bytes.
    pub fn new(alloc: Global) -> Result<MemRaw, AllocError>
        ensures { IfOk result (λ s. s ≡ record {
          requests = record { asked = 0; refused = 0; plan = [] };
          max_bytes = 268435456;
          next = 0x200000000000;
          out = [];
        }) }
    {
        Ok(MemRaw {
            alloc,
            requests: Requests::new(alloc),
            max_bytes: MAX_RAW_BYTES,
            bytes: 0,
            next: WINDOW_START,
            out: BTreeMap::new(alloc),
        })
    }
}

// The least multiple of 16 that is not below `place`.
fn align_up(place: u64) -> u64
    requires { place < 2 ^ 63 }
    ensures { result ≡ aligned_up place }
{
    16 * ((place + 15) / 16)
}

// Whether a request of `len` bytes has room beside the bytes that are out, and in the window.
fn has_room(len: u64, bytes: u64, max_bytes: u64, next: u64) -> bool
    requires { (bytes ≤ max_bytes) × (next ≤ 0xa00000000000) }
    ensures { MatchBool result
        ((bytes + len ≤ max_bytes) × (next + len ≤ 0xa00000000000))
        ((max_bytes < bytes + len) ⊎ (0xa00000000000 < next + len)) }
{
    len <= max_bytes - bytes && len <= WINDOW_END - next
}

// Keeps what names the region, until it comes back. Where there is no memory for that, the region
// ends.
fn keep(out: &mut BTreeMap<u64, Held>, region: Region) -> Result<Region, AllocError>
    requires home { AllHome region.cells }
    requires free { tally (begins region.base) (held_out out.old.entries) ≡ 0 }
    ensures same { IfOk result (λ r. r ≡ region) }
    ensures kept { OnOk result
        (Inserted (region_extent region) (held_out out.old.entries) (held_out out.new.entries)) }
    ensures left { OnErr result (out.new.entries ≡ out.old.entries) }
{
    let held = Held {
        len: region.len(),
        maker: region.maker(),
    };
    match out.insert(region.base(), held) {
        Ok(_) => Ok(region),
        Err(_) => {
            region.end();
            Err(AllocError)
        }
    }
}

// A new region that is kept, at a place where none is out.
fn make_kept(
    alloc: Global,
    out: &mut BTreeMap<u64, Held>,
    base: u64,
    len: u64,
) -> Result<Region, AllocError>
    requires fits { (1 ≤ len) × (base + len ≤ 2 ^ 48) }
    requires free { tally (begins base) (held_out out.old.entries) ≡ 0 }
    ensures new { IfOk result (λ r. IsNew base len r) }
    ensures kept { IfOk result (λ r.
        Inserted (region_extent r) (held_out out.old.entries) (held_out out.new.entries)) }
    ensures left { OnErr result (out.new.entries ≡ out.old.entries) }
{
    let region = make_region(alloc, base, len)?;
    keep(out, region)
}

impl RawSource for MemRaw {
    ghost seen = { λ s. record {
      asked = s.requests.asked;
      refused = s.requests.refused;
      window = raw_window;
      out = s.out;
      plan = Some (is_listed s.requests.plan);
      shape = Some s.max_bytes;
    } };

    fn asked(&self) -> u64 {
        self.requests.asked()
    }

    fn refused(&self) -> u64 {
        self.requests.refused()
    }

    fn ask(&mut self, len: u64) -> Result<Region, AskError>
        requires count { self.old.requests.asked < 2 ^ 63 }
        requires some { 1 ≤ len }
        ensures asked { self.new.requests.asked ≡ self.old.requests.asked + 1 }
        ensures refused { self.new.requests.refused ≡ self.old.requests.refused + refusals result }
        ensures planned { IsPlanned (Some (is_listed self.old.requests.plan)) (self.old.requests.asked + 1)
            → IsErrOf result AskError.Refused }
        ensures granted { IfOk result (λ r. Granted r raw_window self.old.out self.new.out) }
        ensures raw { IfOk result (IsRawRegion len) }
        ensures none { OnErr result (self.new.out ≡ self.old.out) }
        ensures plan { self.new.requests.plan ≡ self.old.requests.plan }
        ensures shape { self.new.max_bytes ≡ self.old.max_bytes }

        // What is refused, and where a region stands.
        ensures exactly { IsErrOf result AskError.Refused ↔ RawRefuses self.old len }
        ensures place { IfOk result (λ r. (r.base ≡ self.old.next)
            × (self.new.next ≡ aligned_up (self.old.next + len))) }
        ensures stays { OnErr result (self.new.next ≡ self.old.next) }
    {
        let room = has_room(len, self.bytes, self.max_bytes, self.next);
        if self.requests.refuses_next(room) {
            return Err(AskError::Refused);
        }
        match make_kept(self.alloc, &mut self.out, self.next, len) {
            Ok(region) => {
                self.bytes += len;
                self.next = align_up(self.next + len);
                Ok(region)
            }
            Err(_) => Err(AskError::OutOfMemory),
        }
    }

    fn give(&mut self, region: Region)
        requires { Has (region_extent region) self.old.out × AllHome region.cells }
        ensures back { Removed (region_extent region) self.old.out self.new.out }
        ensures requests { self.new.requests ≡ self.old.requests }
        ensures shape { self.new.max_bytes ≡ self.old.max_bytes }
        ensures stays { self.new.next ≡ self.old.next }
    {
        self.out.remove(&region.base());
        self.bytes -= region.len();
        region.end();
    }

    fn refuse(&mut self, k: u64) -> Result<(), AllocError>
        requires number { (1 ≤ k) × (k ≤ 1000000) }
        requires count { self.old.requests.asked < 2 ^ 63 }
        ensures listed { OnOk result
            (ListsAlso self.old.requests.plan self.new.requests.plan (self.old.requests.asked + k)) }
        ensures left { OnErr result (self.new.requests.plan ≡ self.old.requests.plan) }
        ensures counts { (self.new.requests.asked ≡ self.old.requests.asked)
            × (self.new.requests.refused ≡ self.old.requests.refused) }
        ensures same { (self.new.out ≡ self.old.out) × (self.new.max_bytes ≡ self.old.max_bytes)
            × (self.new.next ≡ self.old.next) }
    {
        self.requests.list(k)
    }

    fn shape(&mut self, max_bytes: u64)
        ensures shape { Some self.new.max_bytes
            ≡ shape_after self.old.out max_bytes (Some self.old.max_bytes) }
        ensures same { (self.new.requests ≡ self.old.requests) × (self.new.out ≡ self.old.out)
            × (self.new.next ≡ self.old.next) }
    {
        if self.out.is_empty() {
            self.max_bytes = max_bytes;
        }
    }
}
