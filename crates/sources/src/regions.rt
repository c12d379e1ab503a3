//! New regions, for both sources.
ghost use Rattle.std.specs.Prelude.{◌+◌, ◌^◌, ◌≤◌, IfOk};
ghost use Rattle.sources.specs.Kept.{IsNew};

use raw_region::Region;
use std::alloc::{AllocError, Global};

/// A region with that base and length.
pub(crate) fn make_region(alloc: Global, base: u64, len: u64) -> Result<Region, AllocError>
    requires { (1 ≤ len) × (base + len ≤ 2 ^ 48) }
    ensures { IfOk result (λ r. IsNew base len r) }
{
    let region = Region::new(alloc, base, len)?;
    Ok(region)
}
