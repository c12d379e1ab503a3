//! The two kinds of sources, and why a request is not met.
//!
//! A source may tell which requests it will refuse, its plan, and the arguments of the last `shape`
//! that it took. One that tells neither may ignore `refuse` and `shape`.

ghost use Rattle.std.specs.Prelude.{◌≡◌, ℕ, ◌+◌, ◌^◌, ◌<◌, ◌≤◌, IfOk, OnOk, OnErr, IsErrOf};
ghost use Rattle.raw_region.specs.Cells.{AllHome};
ghost use Rattle.extents.specs.Extent.{region_extent};
ghost use Rattle.extents.specs.Sums.{Has, Removed};
ghost use Rattle.mem_base.specs.Plan.{IsPlanned, plan_with};
ghost use Rattle.sources.specs.Source.{refusals, Granted, IsArena, IsRawRegion, shape_after, ArenaShape, SourceView};

use raw_region::Region;
use std::alloc::AllocError;
use thiserror::Error;

/// Why a source gave no region.
#[derive(Clone, Copy, Debug, PartialEq, Eq, Error)]
pub enum AskError {
    #[error("the request was refused")]
    Refused,
    #[error("out of memory")]
    OutOfMemory,
}

/// Where arenas come from: regions of 1,048,576 bytes.
pub trait ArenaSource {
    /// The counts, the window, what is out, and what the source tells of itself.
    ghost seen: { Self → SourceView ArenaShape };

    /// How many requests there were.
    fn asked(&self) -> u64
        ensures { result ≡ (seen self.now).asked };

    /// How many of them were refused.
    fn refused(&self) -> u64
        ensures { result ≡ (seen self.now).refused };

    /// Asks for an arena.
    fn ask(&mut self) -> Result<Region, AskError>
        requires { (seen self.old).asked < 2 ^ 63 }
        ensures asked { (seen self.new).asked ≡ (seen self.old).asked + 1 }
        ensures refused { (seen self.new).refused ≡ (seen self.old).refused + refusals result }
        ensures planned { IsPlanned (seen self.old).plan ((seen self.old).asked + 1)
            → IsErrOf result AskError.Refused }
        ensures granted { IfOk result (λ r.
            Granted r (seen self.old).window (seen self.old).out (seen self.new).out) }
        ensures arena { IfOk result IsArena }
        ensures none { OnErr result ((seen self.new).out ≡ (seen self.old).out) }
        ensures window { (seen self.new).window ≡ (seen self.old).window }
        ensures plan { (seen self.new).plan ≡ (seen self.old).plan }
        ensures shape { (seen self.new).shape ≡ (seen self.old).shape };

    /// Takes an arena back and gives its memory up.
    fn give(&mut self, region: Region)
        requires { Has (region_extent region) (seen self.old).out × AllHome region.cells }
        ensures back { Removed (region_extent region) (seen self.old).out (seen self.new).out }
        ensures asked { (seen self.new).asked ≡ (seen self.old).asked }
        ensures refused { (seen self.new).refused ≡ (seen self.old).refused }
        ensures window { (seen self.new).window ≡ (seen self.old).window }
        ensures plan { (seen self.new).plan ≡ (seen self.old).plan }
        ensures shape { (seen self.new).shape ≡ (seen self.old).shape };

    /// Wants the `k`-th request from now to be refused. The error leaves all as it was.
    fn refuse(&mut self, k: u64) -> Result<(), AllocError>
        requires number { (1 ≤ k) × (k ≤ 1000000) }
        requires count { (seen self.old).asked < 2 ^ 63 }
        ensures listed { OnOk result (seen self.new ≡ record (seen self.old) {
          plan = plan_with ((seen self.old).asked + k) (seen self.old).plan;
        }) }
        ensures left { OnErr result (seen self.new ≡ seen self.old) };

    /// Asks for room for `max` arenas, whose bases are `skew` pages of 4,096 bytes past a mebibyte.
    fn shape(&mut self, max: u32, skew: u8)
        requires { max ≤ 1024 }
        ensures { seen self.new ≡ record (seen self.old) {
          shape = shape_after (seen self.old).out (record { max = max; skew = skew }) (seen self.old).shape;
        } };
}

/// Where raw regions come from: regions of any length.
pub trait RawSource {
    /// The counts, the window, what is out, and what the source tells of itself.
    ghost seen: { Self → SourceView ℕ };

    /// How many requests there were.
    fn asked(&self) -> u64
        ensures { result ≡ (seen self.now).asked };

    /// How many of them were refused.
    fn refused(&self) -> u64
        ensures { result ≡ (seen self.now).refused };

    /// Asks for a region of `len` bytes.
    fn ask(&mut self, len: u64) -> Result<Region, AskError>
        requires count { (seen self.old).asked < 2 ^ 63 }
        requires some { 1 ≤ len }
        ensures asked { (seen self.new).asked ≡ (seen self.old).asked + 1 }
        ensures refused { (seen self.new).refused ≡ (seen self.old).refused + refusals result }
        ensures planned { IsPlanned (seen self.old).plan ((seen self.old).asked + 1)
            → IsErrOf result AskError.Refused }
        ensures granted { IfOk result (λ r.
            Granted r (seen self.old).window (seen self.old).out (seen self.new).out) }
        ensures raw { IfOk result (IsRawRegion len) }
        ensures none { OnErr result ((seen self.new).out ≡ (seen self.old).out) }
        ensures window { (seen self.new).window ≡ (seen self.old).window }
        ensures plan { (seen self.new).plan ≡ (seen self.old).plan }
        ensures shape { (seen self.new).shape ≡ (seen self.old).shape };

    /// Takes a region back and gives its memory up.
    fn give(&mut self, region: Region)
        requires { Has (region_extent region) (seen self.old).out × AllHome region.cells }
        ensures back { Removed (region_extent region) (seen self.old).out (seen self.new).out }
        ensures asked { (seen self.new).asked ≡ (seen self.old).asked }
        ensures refused { (seen self.new).refused ≡ (seen self.old).refused }
        ensures window { (seen self.new).window ≡ (seen self.old).window }
        ensures plan { (seen self.new).plan ≡ (seen self.old).plan }
        ensures shape { (seen self.new).shape ≡ (seen self.old).shape };

    /// Wants the `k`-th request from now to be refused. The error leaves all as it was.
    fn refuse(&mut self, k: u64) -> Result<(), AllocError>
        requires number { (1 ≤ k) × (k ≤ 1000000) }
        requires count { (seen self.old).asked < 2 ^ 63 }
        ensures listed { OnOk result (seen self.new ≡ record (seen self.old) {
          plan = plan_with ((seen self.old).asked + k) (seen self.old).plan;
        }) }
        ensures left { OnErr result (seen self.new ≡ seen self.old) };

    /// Asks for room for `max_bytes` bytes.
    fn shape(&mut self, max_bytes: u64)
        ensures { seen self.new ≡ record (seen self.old) {
          shape = shape_after (seen self.old).out max_bytes (seen self.old).shape;
        } };
}
