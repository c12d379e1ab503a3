//! The `Vec` that the memory of a region was taken as. Its bytes leave it as cells, and come back when
//! the region ends.
ghost use Rattle.std.specs.Prelude.{◌≡◌, ℕ, ◌<◌, List, map, length, Some};
ghost use Rattle.std.specs.Vec.{with_items};
ghost use base.Fml.{ftrue, fex, fall, fwand, fsep, feq};
ghost use Rattle.raw_region.specs.Cells.{AllHome, at_home};
ghost use Rattle.raw_region.specs.Ownership.{Awaited, cells_own};

use crate::memory::Cells;
use std::marker::{Move, Owns};

/// A `Vec` without its bytes. It can be dropped once they are back.
pub(crate) struct Shell {
    vec: Vec<u8>,
}

impl Owns for Shell {
    ghost Value = { Awaited };

    ghost shr_at = { λ _ _ _. ftrue };
}

impl Move for Shell {
    ghost own_val = { λ e vs. fex Inside (λ v.
        fsep (feq ℕ v.vec.len e.len) (fall (List ℕ) (λ xs.
        fwand (fsep (feq ℕ (length xs) e.len) (cells_own e.first (map Some xs)))
        (Fields.own_val (record { vec = with_items v.vec xs }) vs)))) };
}

unsafe impl Send for Shell {}

// Behind a `&` no byte can be reached.
unsafe impl Sync for Shell {}

/// Parts a `Vec` into its bytes, which are all at home, and what is left of it.
pub(crate) fn take_apart(vec: Vec<u8>) -> (Cells, Shell)
    requires { 0 < vec.len }
    ensures { (result.0.at ≡ vec.ptr) × (result.0.cells ≡ map Some vec.items)
        × (result.1.first ≡ vec.ptr) × (result.1.len ≡ vec.len) }
{
    (Cells {}, Shell { vec })
}

/// The `Vec` again, with the bytes that the cells hold.
pub(crate) fn put_together(cells: Cells, shell: Shell) -> Vec<u8>
    requires { (cells.at ≡ shell.first) × AllHome cells.cells × (length cells.cells ≡ shell.len) }
    ensures { result.items ≡ at_home cells.cells }
{
    let Cells {} = cells;
    let Shell { vec } = shell;
    vec
}
