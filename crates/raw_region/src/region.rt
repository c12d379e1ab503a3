//! A block of memory under addresses of its own.
ghost use Rattle.std.specs.Prelude.{◌≡◌, ◌+◌, ◌-◌, ◌^◌, ◌<◌, ◌≤◌};
ghost use Rattle.std.specs.Prelude.{length, map, get_or, slice_set, replicate, Some, None, IfOk};
ghost use Rattle.std.specs.Int.{to_le_bytes, w64};
ghost use Rattle.raw_region.specs.Cells.{IsHome, AtHome, AllHome, AreLent, away, bytes_of, with_run, word_at, zeroed};

use crate::maker::Maker;
use crate::memory::{Cells, Start};
use crate::piece::Piece;
use crate::shell::{Shell, put_together, take_apart};
use std::alloc::{AllocError, Global};
use std::marker::Model;

/// Memory whose bytes are at home or lent. A region is spent by `end` alone.
///
/// Offsets count bytes from the region's first one, and the byte at the offset `off` has the address
/// `base + off`.
pub struct Region {
    start: Start,
    cells: Cells,
    base: u64,
    len: u64,
    shell: Shell,
}

impl Model for Region {
    ghost use Rattle.raw_region.specs.Region.{RegionView};

    ghost Value = { RegionView };

    ghost use Rattle.raw_region.specs.Fields.{IsRegion};

    ghost view = { λ r. record {
      base = r.base;
      maker = record { start = r.start; base = r.base };
      cells = r.cells.cells;
    } };

    ghost invariant = { IsRegion };
}

impl Region {
    /// Takes new memory of `len` bytes, which are all 0 and at home. The error is that there was none.
    pub fn new(alloc: Global, base: u64, len: u64) -> Result<Region, AllocError>
        requires { (1 ≤ len) × (base + len ≤ 2 ^ 48) }
        ensures { IfOk result (λ r. (r.base ≡ base) × (r.cells ≡ zeroed len)) }
    {
        let mut bytes = Vec::from_elem(alloc, 0u8, len as usize)?;
        let start = Start {
            first: bytes.as_mut_ptr(),
        };
        let (cells, shell) = take_apart(bytes);
        Ok(Region {
            start,
            cells,
            base,
            len,
            shell,
        })
    }

    /// Gives the memory up.
    pub fn end(self)
        requires { AllHome self.cells }
    {
        let Region {
            start: _,
            cells,
            base: _,
            len: _,
            shell,
        } = self;
        drop(put_together(cells, shell));
    }

    /// The address of the first byte.
    pub fn base(&self) -> u64
        ensures { result ≡ self.now.base }
    {
        self.base
    }

    /// How many bytes there are, at home and lent.
    pub fn len(&self) -> u64
        ensures len { result ≡ length self.now.cells }
        ensures within { (1 ≤ result) × (self.now.base + result ≤ 2 ^ 48) }
    {
        self.len
    }

    /// What names the memory. Its pieces have the same maker.
    pub fn maker(&self) -> Maker
        ensures { result ≡ self.now.maker }
    {
        Maker {
            start: self.start,
            base: self.base,
        }
    }

    /// Reads the byte at the offset `off`.
    pub fn read_byte(&self, off: u64) -> u8
        requires { IsHome self.now.cells off }
        ensures byte { get_or self.now.cells off None ≡ Some result }
        ensures below { result < 256 }
    {
        self.cells.read(self.start.first, off as usize)
    }

    /// Writes the byte at the offset `off`.
    pub fn write_byte(&mut self, off: u64, b: u8)
        requires { IsHome self.old.cells off }
        ensures same { (self.new.base ≡ self.old.base) × (self.new.maker ≡ self.old.maker) }
        ensures cells { self.new.cells ≡ slice_set self.old.cells off (Some b) }
    {
        self.cells.write(self.start.first, off as usize, b);
    }

    /// Reads eight bytes, the least one first.
    pub fn read_word(&self, off: u64) -> u64
        requires { AtHome self.now.cells off 8 }
        ensures { result ≡ word_at self.now.cells off }
    {
        // The bound on the length is what keeps `off + i` from wrapping.
        let _inside = self.len;
        let mut bytes = [0; 8];
        for i in 0..8 {
            bytes[i as usize] = self.read_byte(off + i);
        }
        u64::from_le_bytes(bytes)
    }

    /// Writes eight bytes, the least one first.
    pub fn write_word(&mut self, off: u64, w: u64)
        requires { AtHome self.old.cells off 8 }
        ensures same { (self.new.base ≡ self.old.base) × (self.new.maker ≡ self.old.maker) }
        ensures cells { self.new.cells ≡ with_run self.old.cells off 8 (map Some (to_le_bytes w64 w)) }
    {
        // As in `read_word`, the length bounds `off + i`.
        let _inside = self.len;
        let bytes = w.to_le_bytes();
        for i in 0..8 {
            self.write_byte(off + i, bytes[i as usize]);
        }
    }

    /// Writes `b` to each of the `len` bytes from `off` on.
    pub fn fill(&mut self, off: u64, len: u64, b: u8)
        requires { AtHome self.old.cells off len }
        ensures same { (self.new.base ≡ self.old.base) × (self.new.maker ≡ self.old.maker) }
        ensures cells { self.new.cells ≡ with_run self.old.cells off len (replicate len (Some b)) }
    {
        // As in `read_word`, the length bounds `off + i`.
        let _inside = self.len;
        for i in 0..len {
            self.write_byte(off + i, b);
        }
    }

    /// Lends the `len` bytes from `off` on as a piece, until `mend` takes it back.
    pub fn carve(&mut self, off: u64, len: u64) -> Piece
        requires { (1 ≤ len) × AtHome self.old.cells off len }
        ensures same { (self.new.base ≡ self.old.base) × (self.new.maker ≡ self.old.maker) }
        ensures cells { self.new.cells ≡ away self.old.cells off len }
        ensures piece { (result.place ≡ self.old.base + off) × (result.maker ≡ self.old.maker)
            × (result.bytes ≡ bytes_of self.old.cells off len) × (length result.bytes ≡ len) }
    {
        let cells = self.cells.cut(off as usize, len as usize);
        Piece {
            start: self.start,
            cells,
            base: self.base,
            off,
            len,
        }
    }

    /// Brings the bytes of a piece home.
    pub fn mend(&mut self, piece: Piece)
        requires { (piece.maker ≡ self.old.maker) × (self.old.base ≤ piece.place)
            × AreLent self.old.cells (piece.place - self.old.base) (length piece.bytes) }
        ensures same { (self.new.base ≡ self.old.base) × (self.new.maker ≡ self.old.maker) }
        ensures cells { self.new.cells
            ≡ with_run self.old.cells (piece.place - self.old.base) (length piece.bytes)
            (map Some piece.bytes) }
    {
        let Piece {
            start: _,
            cells,
            base: _,
            off,
            len,
        } = piece;
        self.cells.join(cells, off as usize, len as usize);
    }
}

fn crosses<T: Send>(_value: &T) {}

// Both types are `Send`, since `crosses` takes no other.
pub(crate) fn both_cross(region: &Region, piece: &Piece) {
    crosses(region);
    crosses(piece);
}
