//! The two traits, and the fault that their calls may answer.
//!
//! An implementation tells its bytes as an `Option`: `None` where nothing is known of them, as for
//! a file. It counts its faults itself: a call that answers `Failed` counts one, and every other call
//! none. So whoever gets `Failed` can say that the count rose, and whoever gets `Ok` that no call was
//! tried again after a fault.

ghost use Rattle.std.specs.Prelude.{◌≡◌, ◌<◌, List, ℕ, length, IfOk, Option};
ghost use Rattle.std.specs.Io.{ReadsAtMost, WritesAtMost};
ghost use Rattle.std.specs.Io.KnownBytes.{ReadConsumes, WriteAppends};
ghost use Rattle.streams.specs.Faults.{CountsFaults, raised};
ghost use Rattle.streams.specs.Moves.{IsZeroAtEnd};

use thiserror::Error;

/// A fault of a read or a write. What caused it is known to the source or sink alone.
#[derive(Clone, Copy, Debug, PartialEq, Eq, Error)]
#[error("a read or a write failed")]
pub struct Failed;

// Counts a fault, and gives it as an error.
pub(crate) fn count_fault(faults: &mut u64) -> Failed
    ensures { faults.new ≡ raised faults.old }
{
    *faults = faults.saturating_add(1);
    Failed
}

/// Where bytes come from.
pub trait Source {
    /// The bytes that reads will give from here on, where they are known.
    ghost left: { Self → Option (List ℕ) };

    /// How many faults were met. It stands still at the end of its range.
    ghost faults: { Self → ℕ };

    /// Moves the first bytes that are left into the buffer. It gives none only at the end, or where
    /// the buffer has no room. A read that fails takes none.
    fn read(&mut self, buf: &mut [u8]) -> Result<usize, Failed>
        ensures bound { ReadsAtMost result buf.new }
        ensures bytes { ReadConsumes (left self.old) (left self.new) result buf.new }
        ensures end { 0 < length buf.old → IfOk result (IsZeroAtEnd (left self.old)) }
        ensures counted { CountsFaults (faults self.old) (faults self.new) result };
}

/// Where bytes go to.
pub trait Sink {
    /// The bytes that were written, where they are known.
    ghost written: { Self → Option (List ℕ) };

    /// How many faults were met. It stands still at the end of its range.
    ghost faults: { Self → ℕ };

    /// Takes the first bytes of the piece, at least one where it has one, and answers how many. A
    /// write that fails takes none.
    fn write(&mut self, piece: &[u8]) -> Result<usize, Failed>
        ensures bound { WritesAtMost result piece.now }
        ensures some { 0 < length piece.now → IfOk result (λ n. 0 < n) }
        ensures bytes { WriteAppends (written self.old) (written self.new) result piece.now }
        ensures counted { CountsFaults (faults self.old) (faults self.new) result };
}
