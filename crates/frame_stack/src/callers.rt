//! The frames of all tracks, and the numbers of what traces keep of them.
//!
//! A call of the allocator is traced under the frames of its track. Most calls come from the same place as
//! the one before them, so the number of what is kept of a track's frames stays beside its stack until a
//! frame comes, goes on or goes, or another limit is asked for:
//!
//! ```text
//! track   frames                              known
//! 0       0 main.py:3   1 load.py:10          limit 1: traceback 4
//! 1       0 main.py:7                         nothing
//! ```
//!
//! Always, a known number is that of the frames beside it. Tracebacks are only added to the table, so a
//! number means the same frames later.
ghost use Rattle.std.specs.Prelude.{◌≡◌, ◌<◌, ◌≤◌, [], length, replicate, slice_get, All, IfOk, IfSome, OnOk};
ghost use Rattle.std.specs.Prelude.{OnErr, None, Some};
ghost use Rattle.mem_base.specs.declared.reply.Frame.{Frame as PlacedAt};
ghost use Rattle.frame_model.specs.Frames.{frames_below, frames_on, frames_with, recent, total};
ghost use Rattle.frame_stack.specs.Callers.{frames_of, with_frames, AreAmong, IsKnown};
ghost use Rattle.frame_stack.specs.Tracebacks.{at_line, unknown_frame, IsInterned, IsShort};

use crate::frames::{Frames, recent};
use crate::tracebacks::{TbId, Tracebacks};
use mem_base::{Frame, TextId, TrackId};
use std::alloc::{AllocError, Global};
use std::marker::Model;

// The number of what is kept of a track's frames, where at most so many are.
#[derive(Clone, Copy, Debug)]
struct Known {
    limit: u32,
    trace: TbId,
}

// The frames of a track, and what is known of them.
#[derive(Drop)]
struct Stack {
    frames: Frames,
    known: Option<Known>,
}

impl Stack {
    // No frames.
    fn new(alloc: Global) -> Stack
        ensures { result ≡ record { frames = []; known = None } }
    {
        Stack {
            frames: Frames::new(alloc),
            known: None,
        }
    }

    // The frames have changed: nothing is known of them.
    fn forget(&mut self)
        ensures { self.new ≡ record self.old { known = None } }
    {
        self.known = None;
    }

    fn enter(&mut self, file: TextId, line: u32) -> Result<(), AllocError>
        ensures entered { OnOk result (self.new ≡ record {
          frames = frames_with self.old.frames (record { file = file; line = line });
          known = None;
        }) }
        ensures short { OnOk result (IsShort self.new.frames) }
        ensures err { OnErr result (self.new ≡ self.old) }
    {
        if self.frames.is_full() {
            return Err(AllocError);
        }
        self.frames.enter(file, line)?;
        self.forget();
        Ok(())
    }

    fn line(&mut self, line: u32)
        ensures { self.new ≡ record { frames = frames_on (at_line line) self.old.frames; known = None } }
    {
        self.frames.line(line);
        self.forget();
    }

    fn leave(&mut self)
        ensures { self.new ≡ record { frames = frames_below self.old.frames; known = None } }
    {
        self.frames.leave();
        self.forget();
    }

    // The number that is known for this limit.
    fn known_for(&self, limit: u32) -> Option<TbId>
        ensures { IfSome result (λ id. self.now.known ≡ Some (record { limit = limit; trace = id })) }
    {
        match self.known {
            Some(known) => {
                if known.limit == limit {
                    Some(known.trace)
                } else {
                    None
                }
            }
            None => None,
        }
    }

    // The number of what is kept of the frames, which is known from then on.
    fn recent(&mut self, limit: u32, table: &mut Tracebacks) -> Result<TbId, AllocError>
        requires known { IsKnown table.old self.old }
        ensures number { IfOk result (λ id.
            slice_get table.new id.0 ≡ Some (recent unknown_frame limit self.old.frames)) }
        ensures table { OnOk result
            (IsInterned (recent unknown_frame limit self.old.frames) table.old table.new) }
        ensures known { IsKnown table.new self.new }
        ensures frames { self.new.frames ≡ self.old.frames }
        ensures err { OnErr result (table.new ≡ table.old) }
    {
        if let Some(trace) = self.known_for(limit) {
            return Ok(trace);
        }
        if table.is_full() {
            return Err(AllocError);
        }
        let trace = recent(&self.frames, limit, table)?;
        self.known = Some(Known { limit, trace });
        Ok(trace)
    }
}

/// The frames of all tracks, and the table of the tracebacks that were kept of them.
#[derive(Drop)]
pub struct Callers {
    stacks: Vec<Stack>,
    table: Tracebacks,
    files: usize,
}

impl Model for Callers {
    ghost use Rattle.frame_stack.specs.Callers.{frames_in, AreCallers, CallersView};

    ghost Value = { CallersView };

    ghost view = { λ c. record { files = c.files; frames = frames_in c.stacks.items; table = c.table } };

    ghost invariant = { λ c. AreCallers c.files c.stacks.items c.table };
}

// As many stacks without frames.
fn no_frames(alloc: Global, tracks: usize) -> Result<Vec<Stack>, AllocError>
    ensures { IfOk result (λ v. v.items ≡ replicate tracks (record { frames = []; known = None })) }
{
    let mut stacks = Vec::new(alloc);
    for _ in 0..tracks {
        stacks.push(Stack::new(alloc))?;
    }
    Ok(stacks)
}

impl Callers {
    /// So many tracks without frames, and no tracebacks. Frames may be of so many files, of which the
    /// first is the unknown one. The error is that there was no memory.
    pub fn new(alloc: Global, tracks: usize, files: usize) -> Result<Callers, AllocError>
        requires { 1 ≤ files }
        ensures { IfOk result (λ c. c ≡ record { files = files; frames = replicate tracks []; table = [] }) }
    {
        let stacks = no_frames(alloc, tracks)?;
        Ok(Callers {
            stacks,
            table: Tracebacks::new(alloc),
            files,
        })
    }

    /// A call: one more frame of the track, at a line of a file. The error is that there was no memory, or
    /// that the track has 65,535 frames, which a track of a trace never has: it may have 256. Then all is as
    /// it was.
    pub fn enter(&mut self, t: TrackId, file: TextId, line: u32) -> Result<(), AllocError>
        requires track { t < length self.old.frames }
        requires file { file.0 < self.old.files }
        ensures entered { OnOk result (self.new ≡ with_frames self.old t
            (frames_with (frames_of self.old t) (record { file = file; line = line }))) }
        ensures err { OnErr result (self.new ≡ self.old) }
    {
        self.stacks[t as usize].enter(file, line)
    }

    /// The most recent frame of the track goes on to another line. Where there is none, nothing changes.
    pub fn line(&mut self, t: TrackId, line: u32)
        requires { t < length self.old.frames }
        ensures { self.new ≡ with_frames self.old t (frames_on (at_line line) (frames_of self.old t)) }
    {
        self.stacks[t as usize].line(line);
    }

    /// A return: the most recent frame of the track goes. Where there is none, nothing changes.
    pub fn leave(&mut self, t: TrackId)
        requires { t < length self.old.frames }
        ensures { self.new ≡ with_frames self.old t (frames_below (frames_of self.old t)) }
    {
        self.stacks[t as usize].leave();
    }

    /// How many frames the track has, or 1 where it has none.
    pub fn total(&self, t: TrackId) -> u32
        requires { t < length self.now.frames }
        ensures { result ≡ total (frames_of self.now t) }
    {
        self.stacks[t as usize].frames.total()
    }

    /// The number of what a trace keeps of the track's frames: the most recent ones, at most so many, or
    /// the unknown frame. The error is that there was no memory, or that there are 4,294,967,295
    /// tracebacks, which no trace has operations for. Then all is as it was.
    pub fn recent(&mut self, t: TrackId, limit: u32) -> Result<TbId, AllocError>
        requires { t < length self.old.frames }
        ensures number { IfOk result (λ id.
            slice_get self.new.table id.0 ≡ Some (recent unknown_frame limit (frames_of self.old t))) }
        ensures table { OnOk result
            (IsInterned (recent unknown_frame limit (frames_of self.old t)) self.old.table self.new.table) }
        ensures same { self.new ≡ record self.old { table = self.new.table } }
        ensures err { OnErr result (self.new ≡ self.old) }
    {
        self.stacks[t as usize].recent(limit, &mut self.table)
    }

    /// The frames with that number, the oldest first.
    pub fn frames(&self, id: TbId) -> &[Frame]
        requires { id.0 < length self.now.table }
        ensures value { slice_get self.now.table id.0 ≡ Some result.now }
        ensures among { AreAmong self.now.files result.now }
    {
        self.table.frames(id)
    }

    /// The table of the tracebacks that were kept.
    pub fn tracebacks(&self) -> &Tracebacks
        ensures table { result.now ≡ self.now.table }
        ensures among { All (AreAmong self.now.files) self.now.table }
        ensures short { All IsShort self.now.table }
    {
        &self.table
    }
}
