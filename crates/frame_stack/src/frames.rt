//! The frames of a track, as calls come, go on to another line and return.
ghost use Rattle.std.specs.Prelude.{◌≡◌, ◌-◌, ◌^◌, ◌<◌, ◌≤◌, [], length, nat_le, slice_get, IfOk, OnOk};
ghost use Rattle.std.specs.Prelude.{OnErr, Some};
ghost use Rattle.mem_base.specs.declared.reply.Frame.{Frame};
ghost use Rattle.frame_model.specs.Frames.{frames_below, frames_on, frames_with, recent, total};
ghost use Rattle.frame_stack.specs.Tracebacks.{at_line, unknown_frame, IsInterned};

use crate::tracebacks::{TbId, Tracebacks};
use mem_base::{Frame, TextId};
use std::alloc::{AllocError, Global};
use std::marker::Model;

/// The frames of a track, seen as their list, the oldest first.
#[derive(Drop)]
pub struct Frames {
    frames: Vec<Frame>,
}

impl Model for Frames {
    ghost use Rattle.std.specs.Prelude.{◌≤◌, length, List};
    ghost use Rattle.mem_base.specs.declared.reply.Frame.{Frame as PlacedAt};

    ghost Value = { List PlacedAt };

    ghost view = { λ f. f.frames.items };

    ghost invariant = { λ f. length f.frames.items ≤ 65535 };
}

impl Frames {
    /// No frames.
    pub fn new(alloc: Global) -> Frames
        ensures { result ≡ [] }
    {
        Frames {
            frames: Vec::new(alloc),
        }
    }

    /// A call: one more frame, at a line of a file. The error is that there was no memory, and leaves
    /// the frames as they were.
    pub fn enter(&mut self, file: TextId, line: u32) -> Result<(), AllocError>
        requires { length self.old < 65535 }
        ensures entered { OnOk result
            (self.new ≡ frames_with self.old (record { file = file; line = line })) }
        ensures err { OnErr result (self.new ≡ self.old) }
    {
        self.frames.push(Frame { file, line })?;
        Ok(())
    }

    /// Whether there are as many frames as a track can have.
    pub fn is_full(&self) -> bool
        ensures { result ≡ nat_le 65535 (length self.now) }
    {
        self.frames.len() >= 65_535
    }

    /// The most recent frame goes on to another line. Where there is none, nothing changes.
    pub fn line(&mut self, line: u32)
        ensures { self.new ≡ frames_on (at_line line) self.old }
    {
        if self.frames.is_empty() {
            return;
        }
        let last = self.frames.len() - 1;
        self.frames[last].line = line;
    }

    /// A return: the most recent frame goes. Where there is none, nothing changes.
    pub fn leave(&mut self)
        ensures { self.new ≡ frames_below self.old }
    {
        let last = self.frames.len().saturating_sub(1);
        self.frames.truncate(last);
    }

    /// How many frames there are, or 1 where there is none.
    pub fn total(&self) -> u32
        ensures { result ≡ total self.now }
    {
        self.frames.len().max(1) as u32
    }

    /// The frames, the oldest first.
    pub fn as_slice(&self) -> &[Frame]
        ensures { result.now ≡ self.now }
    {
        self.frames.as_slice()
    }
}

/// The frame of a track that has none: the unknown file, whose number is 0, and line 0.
const UNKNOWN: [Frame; 1] = [Frame {
    file: TextId(0),
    line: 0,
}];

/// The number of what a trace keeps of the frames: the n most recent ones, or the unknown frame. The
/// error is that there was no memory, and leaves the table as it was.
pub fn recent(frames: &Frames, n: u32, table: &mut Tracebacks) -> Result<TbId, AllocError>
    requires { length table.old < 2 ^ 32 - 1 }
    ensures number { IfOk result (λ id.
        slice_get table.new id.0 ≡ Some (recent unknown_frame n frames.now)) }
    ensures table { OnOk result (IsInterned (recent unknown_frame n frames.now) table.old table.new) }
    ensures err { OnErr result (table.new ≡ table.old) }
{
    let all = frames.as_slice();
    if all.is_empty() {
        return table.intern(&UNKNOWN);
    }
    let older = all.len().saturating_sub(n as usize);
    table.intern(&all[older..])
}
