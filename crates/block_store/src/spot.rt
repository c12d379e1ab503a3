//! Where the live blocks lie.
ghost use Rattle.std.specs.Prelude.{◌≡◌, ◌<◌, ◌^◌, ◌++◌, ◌∷◌, [], length, IfOk, OnOk};
ghost use Rattle.block_store.specs.Spots.{spots_from};

use debug_guard::{Guarded, piece};
use mem_base::{List, TextId};
use std::alloc::{AllocError, Global};

/// Where a live block lies: its name, the address of the first byte of its memory, and how many
/// bytes that memory has.
#[derive(Clone, Copy, Debug, PartialEq, Eq)]
pub struct Spot {
    pub name: TextId,
    pub place: u64,
    pub len: u64,
}

// Adds the spot of the block in a slot, where there is one.
fn push_spot(spots: &mut List<Spot>, at: u32, slot: &Option<Guarded>) -> Result<(), AllocError>
    ensures { OnOk result (spots.new ≡ spots.old ++ spots_from at (slot.now ∷ [])) }
{
    let Some(block) = slot else {
        return Ok(());
    };
    let piece = piece(block);
    spots.push(Spot {
        name: TextId(at),
        place: piece.place(),
        len: piece.len(),
    })
}

/// The spots of the blocks in slots, by the numbers of the slots.
pub(crate) fn spots_of(alloc: Global, slots: &[Option<Guarded>]) -> Result<List<Spot>, AllocError>
    requires { length slots.now < 2 ^ 32 }
    ensures { IfOk result (λ spots. spots ≡ spots_from 0 slots.now) }
{
    let mut spots = List::new(alloc);
    for (at, slot) in slots.iter().enumerate() {
        push_spot(&mut spots, at as u32, slot)?;
    }
    Ok(spots)
}
