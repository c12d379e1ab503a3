//! A part of a region's memory that was lent out.
ghost use Rattle.std.specs.Prelude.{◌≡◌, ℕ, ◌+◌, ◌^◌, ◌<◌, ◌≤◌, All, length};

use crate::maker::Maker;
use crate::memory::{Cells, Start};
use std::marker::Model;

/// Bytes of a region, away from it. A piece is spent by `Region::mend`, which brings them home.
pub struct Piece {
    pub(crate) start: Start,
    pub(crate) cells: Cells,
    pub(crate) base: u64,
    pub(crate) off: u64,
    pub(crate) len: u64,
}

impl Model for Piece {
    ghost use Rattle.std.specs.Prelude.{◌+◌};
    ghost use Rattle.raw_region.specs.Cells.{at_home};
    ghost use Rattle.raw_region.specs.Region.{PieceView};

    ghost Value = { PieceView };

    ghost use Rattle.raw_region.specs.Fields.{IsPiece};

    ghost view = { λ p. record {
      place = p.base + p.off;
      maker = record { start = p.start; base = p.base };
      bytes = at_home p.cells.cells;
    } };

    ghost invariant = { IsPiece };
}

impl Piece {
    ghost use Rattle.std.specs.Borrow.{Lends, Array, sem, u8 as byte};
    ghost use Rattle.raw_region.specs.Region.{with_bytes};
    ghost use Rattle.raw_region.specs.contracts.piece.Piece.{the_row};

    /// The address of the first byte.
    pub fn place(&self) -> u64
        ensures { result ≡ self.now.place }
    {
        self.base + self.off
    }

    /// How many bytes there are.
    pub fn len(&self) -> u64
        ensures len { result ≡ length self.now.bytes }
        ensures within { (1 ≤ result) × (self.now.place + result ≤ 2 ^ 48) }
    {
        self.len
    }

    /// What names the memory of the region that the piece was carved from.
    pub fn maker(&self) -> Maker
        ensures { result ≡ self.now.maker }
    {
        Maker {
            start: self.start,
            base: self.base,
        }
    }

    /// The bytes, to be read.
    pub fn bytes(&self) -> &[u8]
        ensures bytes { result.now ≡ self.now.bytes }
        ensures below { All (λ b. b < 256) result.now }
    {
        // The slice has a name, so that the check sees that its items are bytes.
        let bytes = self
            .cells
            .bytes(self.start.first, self.off as usize, self.len as usize);
        bytes
    }

    /// The bytes, to be written. The piece keeps its place and its length.
    pub fn bytes_mut(&mut self) -> &mut [u8]
        ensures* writes_back { sem 𝓛 (Lends the_row (Array byte 0) self.entry result (with_bytes self.old)) }
        ensures value { result.now ≡ self.old.bytes }
    {
        self.cells
            .bytes_mut(self.start.first, self.off as usize, self.len as usize)
    }
}
