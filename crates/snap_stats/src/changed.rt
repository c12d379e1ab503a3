//! A key whose frames stand elsewhere, with its sums in two snapshots.
ghost use Rattle.snap_stats.specs.Sums.{IsSmall};

use crate::sums::Sum;
use mem_base::Frame;

/// A key's frames, the oldest first, and its sums in the new and in the old snapshot, whose differences have
/// numbers.
#[derive(Clone, Copy)]
pub struct Changed<'a> {
    pub key: &'a [Frame],
    pub new: Sum,
    pub old: Sum,
    ghost new_small: { IsSmall new },
    ghost old_small: { IsSmall old },
}
