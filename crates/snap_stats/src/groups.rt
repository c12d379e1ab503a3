//! Groups whose keys' frames stand elsewhere: a traceback's in the table of the run, and a single frame in the
//! table of sums. So no frame is copied for a group that is not answered.
ghost use Rattle.std.specs.Prelude.{◌≡◌, ◌<◌, ◌∷◌, [], length, map, IfOk};
ghost use Rattle.std.specs.List.{AllByRecursion};
ghost use Rattle.indexmap.specs.IndexMap.{IsUnique};
ghost use Rattle.frame_stack.specs.Tracebacks.{traceback_at};
ghost use Rattle.snap_stats.specs.Groups.{whole};
ghost use Rattle.snap_stats.specs.Sums.{group_by, same_frame, same_id};

use crate::sums::Sum;
use frame_stack::{TbId, Tracebacks};
use indexmap::IndexMap;
use mem_base::Frame;
use std::alloc::{AllocError, Global};
use std::slice;

/// A key's frames, the oldest first, and its sum.
#[derive(Clone, Copy)]
pub struct Summed<'a> {
    pub key: &'a [Frame],
    pub sum: Sum,
}

/// The groups whose keys are tracebacks.
pub fn tracebacks_summed<'a>(
    alloc: Global,
    sums: &IndexMap<TbId, Sum>,
    table: &'a Tracebacks,
) -> Result<Vec<Summed<'a>>, AllocError>
    requires { AllByRecursion (λ s. s.0.0 < length table.now) sums.now.entries }
    ensures apart { IsUnique same_id sums.now }
    ensures groups { IfOk result (λ v. map whole v.items ≡ map (group_by (traceback_at table.now)) sums.now.entries) }
{
    let mut groups = Vec::with_capacity(alloc, sums.len())?;
    for (id, sum) in sums {
        groups.push(Summed {
            key: table.frames(*id),
            sum: *sum,
        })?;
    }
    Ok(groups)
}

/// The groups whose keys are single frames.
pub fn frames_summed(
    alloc: Global,
    sums: &IndexMap<Frame, Sum>,
) -> Result<Vec<Summed<'_>>, AllocError>
    ensures apart { IsUnique same_frame sums.now }
    ensures groups { IfOk result (λ v. map whole v.items ≡ map (group_by (λ f. f ∷ [])) sums.now.entries) }
{
    let mut groups = Vec::with_capacity(alloc, sums.len())?;
    for (frame, sum) in sums {
        groups.push(Summed {
            key: slice::from_ref(frame),
            sum: *sum,
        })?;
    }
    Ok(groups)
}
