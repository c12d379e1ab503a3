//! The two links of a started pool, as words of its header.
ghost use Rattle.std.specs.Prelude.{◌≡◌, ◌+◌};
ghost use Rattle.layout_model.specs.Plain.{PlainView, StandsFor};
ghost use Rattle.pool_core.specs.Calls.{InRun, IsPoolAt, OnlyAt};
ghost use Rattle.arena_set.specs.Link.{link_offset, plain_with};

use pool_core::{set_next, set_prev};
use raw_region::Region;

/// Which link of a pool: to the next pool of its list, or to the one before it.
#[derive(Clone, Copy)]
pub(crate) enum Link {
    Next,
    Prev,
}

// Writes one link of the pool that begins at an offset, and no other byte.
pub(crate) fn write_link(region: &mut Region, at: u64, link: Link, place: u64)
    requires { IsPoolAt region.old.cells at }
    ensures same { (region.new.base ≡ region.old.base) × (region.new.maker ≡ region.old.maker) }
    ensures stands { (p : PlainView) → StandsFor region.old.cells at p
        → StandsFor region.new.cells at (plain_with link p place) }
    ensures only { OnlyAt (InRun (at + link_offset link) 8) region.old.cells region.new.cells }
{
    match link {
        Link::Next => set_next(region, at, place),
        Link::Prev => set_prev(region, at, place),
    }
}
