//! The raw blocks of one heap.

ghost use Rattle.std.specs.Prelude.{◌≡◌, ◌+◌, ◌^◌, ◌<◌, ◌≤◌, [], length, IfOk, IfErr, OnOk, OnErr};
ghost use Rattle.raw_region.specs.Cells.{AllHome};
ghost use Rattle.extents.specs.Extent.{AreApart, MeetsNone, piece_extent, region_extent};
ghost use Rattle.extents.specs.Sums.{AllIn, Has, Inserted, Removed};
ghost use Rattle.sources.specs.Holder.{Answered, AskedNothing, AskedUnrefused, Traded};
ghost use Rattle.raw_heap.specs.Heap.{IsGot, refusals_of};
ghost use Rattle.raw_heap.specs.Kept.{AreKept, blocks};

use raw_region::{Piece, Region};
use sources::{AskError, RawSource};
use std::alloc::{AllocError, Global};
use std::collections::BTreeMap;
use std::marker::Model;

/// What a request for a block got: no piece where the source refused.
pub struct RawGot {
    pub piece: Option<Piece>,
}

/// Blocks that are lent, each with a region of its own. Contracts see the regions that the heap
/// holds, which are also its loans.
///
/// A heap is spent by `end` alone.
pub struct RawHeap {
    regions: BTreeMap<u64, Region>,
}

impl Model for RawHeap {
    ghost use Rattle.std.specs.Prelude.{List};
    ghost use Rattle.extents.specs.Extent.{Extent};

    ghost Value = { List Extent };

    ghost use Rattle.raw_heap.specs.Kept.{AreKept, blocks};

    ghost view = { λ h. blocks h.regions.entries };

    ghost invariant = { λ h. AreKept h.regions.entries };
}

// Carves the whole region as one piece, and keeps it. Where there is no memory to keep it, the region
// comes back whole.
fn lend(regions: &mut BTreeMap<u64, Region>, mut region: Region) -> Result<Piece, Region>
    requires whole { AllHome region.cells }
    requires kept { AreKept regions.old.entries }
    requires apart { MeetsNone (region_extent region) (blocks regions.old.entries) }
    ensures piece { IfOk result (λ piece. piece_extent piece ≡ region_extent region) }
    ensures added { OnOk result (Inserted (region_extent region)
        (blocks regions.old.entries) (blocks regions.new.entries)) }
    ensures kept { OnOk result (AreKept regions.new.entries) }
    ensures whole { IfErr result (λ back. AllHome back.cells) }
    ensures same { IfErr result (λ back. region_extent back ≡ region_extent region) }
    ensures left { OnErr result (regions.new.entries ≡ regions.old.entries) }
{
    let piece = region.carve(0, region.len());
    match regions.insert(region.base(), region) {
        Ok(None) => Ok(piece),
        Ok(Some(_other)) => unreachable!(),
        Err(failed) => {
            let (_, mut region) = failed.value;
            region.mend(piece);
            Err(region)
        }
    }
}

// The region of a block, whole again.
fn take_back(regions: &mut BTreeMap<u64, Region>, piece: Piece) -> Region
    requires loan { Has (piece_extent piece) (blocks regions.old.entries) }
    requires kept { AreKept regions.old.entries }
    ensures region { region_extent result ≡ piece_extent piece }
    ensures whole { AllHome result.cells }
    ensures back { Removed (piece_extent piece) (blocks regions.old.entries) (blocks regions.new.entries) }
    ensures kept { AreKept regions.new.entries }
{
    let Some(mut region) = regions.remove(&piece.place()) else {
        unreachable!()
    };
    region.mend(piece);
    region
}

impl RawHeap {
    /// A heap of no blocks.
    pub fn new(alloc: Global) -> Result<RawHeap, AllocError>
        ensures { IfOk result (λ h. h ≡ []) }
    {
        Ok(RawHeap {
            regions: BTreeMap::new(alloc),
        })
    }

    /// Asks for a block of `n` bytes, or of 1 byte where `n` is 0. There is none where the source
    /// refuses the request. The error is that there was no memory, and never that the source refused.
    /// It leaves the heap as it was: a region that was granted has gone back.
    pub fn alloc<R: RawSource>(&mut self, n: u64, raws: &mut R) -> Result<RawGot, AllocError>
        requires count { (R.seen raws.old).asked < 2 ^ 63 }
        requires held { AllIn self.old (R.seen raws.old).out }

        // What block there is.
        ensures got { IfOk result (λ got. IsGot n got.piece self.old self.new (R.seen raws.old)) }
        ensures failed { OnErr result (self.new ≡ self.old) }

        // What the source was asked.
        ensures asked { (R.seen raws.new).asked ≡ (R.seen raws.old).asked + 1 }
        ensures answered { IfOk result (λ got. Answered 1 (refusals_of got.piece)
            (R.seen raws.old) (R.seen raws.new)) }
        ensures unrefused { OnErr result (AskedUnrefused (R.seen raws.old) (R.seen raws.new)) }
        ensures plan { (R.seen raws.new).plan ≡ (R.seen raws.old).plan }

        // What the heap holds.
        ensures stay { AllIn self.old self.new }
        ensures traded { Traded self.old self.new (R.seen raws.old) (R.seen raws.new) }
        ensures apart { AreApart self.new }
    {
        match raws.ask(n.max(1)) {
            Ok(region) => match lend(&mut self.regions, region) {
                Ok(piece) => Ok(RawGot { piece: Some(piece) }),
                Err(region) => {
                    raws.give(region);
                    Err(AllocError)
                }
            },
            Err(AskError::Refused) => Ok(RawGot { piece: None }),
            Err(AskError::OutOfMemory) => Err(AllocError),
        }
    }

    /// Takes a block back, and gives its region to the source.
    pub fn free<R: RawSource>(&mut self, piece: Piece, raws: &mut R)
        requires loan { Has (piece_extent piece) self.old }
        requires held { AllIn self.old (R.seen raws.old).out }
        ensures back { Removed (piece_extent piece) self.old self.new }
        ensures traded { Traded self.old self.new (R.seen raws.old) (R.seen raws.new) }
        ensures nothing { AskedNothing (R.seen raws.old) (R.seen raws.new) }
        ensures apart { AreApart self.new }
    {
        let region = take_back(&mut self.regions, piece);
        raws.give(region);
    }

    /// How many blocks are lent.
    pub fn live(&self) -> u64
        ensures { result ≡ length self.now }
    {
        self.regions.len() as u64
    }

    /// Ends a heap of no blocks.
    pub fn end(self)
        requires { self ≡ [] }
    {
        let RawHeap { regions } = self;
        regions.destroy_empty();
    }
}
