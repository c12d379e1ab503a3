//! A table of tracebacks.
ghost use Rattle.std.specs.Prelude.{◌≡◌, ◌<◌, ◌-◌, ◌^◌, [], false, length, slice_get, IfOk, OnOk, OnErr, Some};
ghost use Rattle.frame_stack.specs.Tracebacks.{IsInterned, IsTable};

use indexmap::IndexSet;
use mem_base::Frame;
use smallvec::SmallVec;
use std::alloc::{AllocError, Global};
use std::marker::Model;

/// The number of a traceback in its table, from 0.
#[derive(Clone, Copy, Debug, PartialEq, Eq, PartialOrd, Ord, Hash)]
pub struct TbId(pub u32);

// How many frames stand in the table itself.
const IN_PLACE: usize = 8;

/// A table of distinct lists of frames, seen as their list.
#[derive(Drop)]
pub struct Tracebacks {
    alloc: Global,
    table: IndexSet<SmallVec<Frame, IN_PLACE>>,
}

impl Model for Tracebacks {
    ghost use Rattle.std.specs.Prelude.{List};
    ghost use Rattle.mem_base.specs.declared.reply.Frame.{Frame as PlacedAt};
    ghost use Rattle.frame_stack.specs.Tracebacks.{tracebacks_of, IsTable};

    ghost Value = { List (List PlacedAt) };

    ghost view = { λ t. tracebacks_of t.table.keys };

    ghost invariant = { λ t. IsTable (tracebacks_of t.table.keys) };
}

impl Tracebacks {
    /// A table of no tracebacks.
    pub fn new(alloc: Global) -> Tracebacks
        ensures { result ≡ [] }
    {
        Tracebacks {
            alloc,
            table: IndexSet::new(alloc),
        }
    }

    /// The number of these frames, which are added last where they are new. The error is that there was
    /// no memory, and leaves the table as it was.
    pub fn intern(&mut self, frames: &[Frame]) -> Result<TbId, AllocError>
        requires { length self.old < 2 ^ 32 - 1 }
        ensures number { IfOk result (λ id. slice_get self.new id.0 ≡ Some frames.now) }
        ensures table { OnOk result (IsInterned frames.now self.old self.new) }
        ensures err { OnErr result (self.new ≡ self.old) }
    {
        let owned = SmallVec::from_slice(self.alloc, frames)?;
        let (at, _) = self.table.insert_full(owned)?;
        Ok(TbId(at as u32))
    }

    /// Whether there are as many tracebacks as there are numbers.
    pub fn is_full(&self) -> bool
        ensures { result ≡ false → length self.now < 2 ^ 32 - 1 }
    {
        self.table.len() >= u32::MAX as usize
    }

    /// The frames with that number, the oldest first.
    pub fn frames(&self, id: TbId) -> &[Frame]
        requires { id.0 < length self.now }
        ensures { slice_get self.now id.0 ≡ Some result.now }
    {
        match self.table.get_index(id.0 as usize) {
            Some(frames) => frames.as_slice(),
            None => unreachable!(),
        }
    }

    /// How many tracebacks there are. None stands twice.
    pub fn len(&self) -> usize
        ensures count { result ≡ length self.now }
        ensures table { IsTable self.now }
    {
        self.table.len()
    }
}
