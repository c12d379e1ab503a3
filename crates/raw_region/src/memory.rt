//! The memory itself, behind a raw pointer. The pointer is passed beside the owner of the bytes, which is
//! all ghost state. So a piece owns its part of the memory at the pointer of its region, and `cut` and
//! `join` move only that ownership.
ghost use Rattle.std.specs.Prelude.{◌≡◌, ℕ, ◌+◌, ◌^◌, ◌<◌, ◌≤◌};
ghost use Rattle.std.specs.Prelude.{List, Option, Some, None, map, length, take};
ghost use Rattle.std.specs.Prelude.{drop, get_or, slice_set};
ghost use Rattle.std.specs.Borrow.{sem};
ghost use denote.RawPtr.{Ptr};
ghost use Rattle.raw_region.specs.Cells.{IsHome, IsHomeRun, away, only, with_run};
ghost use Rattle.raw_region.specs.Ownership.{cells_own, cells_lend};

use std::marker::{Model, Send, Sync};
use std::slice;

/// Where memory begins. It owns nothing.
#[derive(Clone, Copy)]
pub(crate) struct Start {
    pub(crate) first: *mut u8,
}

unsafe impl Send for Start {}

unsafe impl Sync for Start {}

/// The owner of the bytes at home in memory that begins at `at`. It takes no space.
pub(crate) struct Cells {
    ghost at: { Ptr },
    ghost cells: { List (Option ℕ) },
}

impl Model for Cells {
    ghost also_owns = { λ c. cells_own c.at c.cells };

    ghost also_shares = { λ c _ κ. cells_lend c.at c.cells κ };
}

impl Cells {
    ghost use Rattle.raw_region.specs.Lending.{LendsRun};

    pub(crate) fn read(&self, first: *mut u8, off: usize) -> u8
        requires { (first ≡ self.now.at) × IsHome self.now.cells off }
        ensures { get_or self.now.cells off None ≡ Some result }
    {
        unsafe { *first.add(off) }
    }

    pub(crate) fn write(&mut self, first: *mut u8, off: usize, byte: u8)
        requires { (first ≡ self.old.at) × IsHome self.old.cells off }
        ensures { (self.new.at ≡ self.old.at)
            × (self.new.cells ≡ slice_set self.old.cells off (Some byte)) }
    {
        unsafe { *first.add(off) = byte }
    }

    /// The `len` bytes from `off` on.
    pub(crate) fn bytes(&self, first: *mut u8, off: usize, len: usize) -> &[u8]
        requires { (first ≡ self.now.at) × IsHomeRun self.now.cells off len × (len < 2 ^ 63) }
        ensures { take len (drop off self.now.cells) ≡ map Some result.now }
    {
        unsafe { slice::from_raw_parts(first.add(off), len) }
    }

    pub(crate) fn bytes_mut(&mut self, first: *mut u8, off: usize, len: usize) -> &mut [u8]
        requires { (first ≡ self.old.at) × IsHomeRun self.old.cells off len × (len < 2 ^ 63) }
        ensures* writes_back { sem 𝓛 (LendsRun self.entry off len result) }
        ensures value { take len (drop off self.old.cells) ≡ map Some result.now }
    {
        unsafe { slice::from_raw_parts_mut(first.add(off), len) }
    }

    /// Parts the cells: those from `_off` on, `_len` of them, go to the result.
    pub(crate) fn cut(&mut self, _off: usize, _len: usize) -> Cells
        requires { _off + _len ≤ length self.old.cells }
        ensures left { (self.new.at ≡ self.old.at) × (self.new.cells ≡ away self.old.cells _off _len) }
        ensures cut { (result.at ≡ self.old.at) × (result.cells ≡ only self.old.cells _off _len) }
    {
        Cells {}
    }

    /// The cells of `part` from `_off` on, `_len` of them, take the place of those here.
    pub(crate) fn join(&mut self, part: Cells, _off: usize, _len: usize)
        requires { (part.at ≡ self.old.at) × (_off + _len ≤ length self.old.cells)
            × (_off + _len ≤ length part.cells) }
        ensures { (self.new.at ≡ self.old.at)
            × (self.new.cells ≡ with_run self.old.cells _off _len (take _len (drop _off part.cells))) }
    {
        let Cells {} = part;
    }
}
