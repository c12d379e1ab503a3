//! The six words of a pool's header.
ghost use Rattle.std.specs.Prelude.{◌≡◌, ◌+◌, ◌*◌, ◌/◌, ◌%◌, ◌<◌, ◌≤◌, get_or, set};
ghost use Rattle.raw_region.specs.Cells.{AtHome, word_at};
ghost use Rattle.layout_model.specs.declared.measures.TheConstants.{HEADER_BYTES};
ghost use Rattle.layout_model.specs.Plain.{header_of, pair_of};
ghost use Rattle.pool_core.specs.Calls.{InRun, OnlyAt};

use raw_region::Region;

// The words of the header, in order.
pub(crate) const LIVE: u64 = 0;

pub(crate) const HEAD: u64 = 1;

pub(crate) const NEXT: u64 = 2;

pub(crate) const PREV: u64 = 3;

pub(crate) const NAMES: u64 = 4;

pub(crate) const ENDS: u64 = 5;

// A word of two fields of four bytes.
pub(crate) fn pair(low: u32, high: u32) -> u64
    ensures { result ≡ pair_of low high }
{
    u64::from(low) + 4_294_967_296 * u64::from(high)
}

// The first field of a word.
pub(crate) fn low(word: u64) -> u32
    ensures { result ≡ word % 4294967296 }
{
    (word % 4_294_967_296) as u32
}

// The second field of a word.
pub(crate) fn high(word: u64) -> u32
    ensures { result ≡ word / 4294967296 }
{
    (word / 4_294_967_296) as u32
}

// Reads a word of the header at `at`.
pub(crate) fn word(r: &Region, at: u64, k: u64) -> u64
    requires home { AtHome r.now.cells at HEADER_BYTES }
    requires one { k < 6 }
    ensures { result ≡ get_or (header_of r.now.cells at) k 0 }
{
    // The bound on the length keeps the offset from wrapping.
    let _inside = r.len();
    r.read_word(at + 8 * k)
}

// Writes a word of the header at `at`.
pub(crate) fn set_word(r: &mut Region, at: u64, k: u64, w: u64)
    requires home { AtHome r.old.cells at HEADER_BYTES }
    requires one { k < 6 }
    ensures same { (r.new.base ≡ r.old.base) × (r.new.maker ≡ r.old.maker) }
    ensures header { header_of r.new.cells at ≡ set (header_of r.old.cells at) k w }
    ensures only { OnlyAt (InRun (at + 8 * k) 8) r.old.cells r.new.cells }
    ensures within { OnlyAt (InRun at HEADER_BYTES) r.old.cells r.new.cells }
    ensures home { AtHome r.new.cells at HEADER_BYTES }
{
    // The bound on the length keeps the offset from wrapping.
    let _inside = r.len();
    r.write_word(at + 8 * k, w);
}
