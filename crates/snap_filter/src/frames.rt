//! Which tracebacks of a table have a frame that fits.
ghost use Rattle.std.specs.Prelude.{◌≡◌, ◌<◌, length, All, IfOk};
ghost use Rattle.std.specs.List.{list_any};
ghost use Rattle.frame_model.specs.Frames.{frames_of};
ghost use Rattle.frame_stack.specs.Callers.{AreAmong};
ghost use Rattle.snapshot_model.specs.Rules.{frame_fits, frames_seen, is_or_none};
ghost use Rattle.snap_filter.specs.Questions.{trace_fits};

use crate::known::Known;
use crate::matcher::Matcher;
use frame_stack::{TbId, Tracebacks};
use mem_base::Frame;
use std::alloc::{AllocError, Global};
use std::marker::Model;

/// A pattern and perhaps a line, held against the most recent frame of each traceback or against all its
/// frames, with what was found of them. It is seen as the question and the tables: what was found is always
/// right, and does not show.
#[derive(Drop)]
pub struct FrameTest<'a> {
    files: Matcher<'a>,
    line: Option<u32>,
    all_frames: bool,
    table: &'a Tracebacks,
    known: Known,
}

impl<'a> Model for FrameTest<'a> {
    ghost use Rattle.snap_filter.specs.Questions.{AskedOfTraces, IsFrameTest};

    ghost Value = { AskedOfTraces };

    ghost view = { λ t. record {
      files = t.files;
      line = t.line;
      all_frames = t.all_frames;
      table = t.table.now;
    } };

    ghost invariant = { λ t. IsFrameTest
        (record { files = t.files; line = t.line; all_frames = t.all_frames; table = t.table.now }) t.known };
}

/// Whether it is the number that is asked for, or none is asked for.
pub fn is_or_none(asked: Option<u32>, number: u32) -> bool
    ensures { result ≡ is_or_none asked number }
{
    match asked {
        Some(asked) => asked == number,
        None => true,
    }
}

// The frames that are looked at: all, or the most recent one.
fn frames_seen(all_frames: bool, frames: &[Frame]) -> &[Frame]
    ensures { result.now ≡ frames_seen all_frames frames.now }
{
    if all_frames {
        frames
    } else {
        &frames[frames.len().saturating_sub(1)..]
    }
}

// Whether one of the frames fits.
fn some_fits(files: &mut Matcher<'_>, line: Option<u32>, frames: &[Frame]) -> bool
    requires { AreAmong (length files.old.texts) frames.now }
    ensures answer { result ≡ list_any (frame_fits line files.old.pattern) (frames_of files.old.texts frames.now) }
    ensures same { files.new ≡ files.old }
{
    for frame in frames {
        if is_or_none(line, frame.line) && files.matches(frame.file) {
            return true;
        }
    }
    false
}

impl<'a> FrameTest<'a> {
    /// The test of the traces in the table. The error is that there was no memory.
    pub fn new(
        alloc: Global,
        files: Matcher<'a>,
        line: Option<u32>,
        all_frames: bool,
        table: &'a Tracebacks,
    ) -> Result<FrameTest<'a>, AllocError>
        requires { All (AreAmong (length files.texts)) table.now }
        ensures { IfOk result (λ t. t ≡
            record { files = files.entry; line = line; all_frames = all_frames; table = table.now }) }
    {
        let known = Known::new(alloc, table.len())?;
        Ok(FrameTest {
            files,
            line,
            all_frames,
            table,
            known,
        })
    }

    /// Whether a frame of the traceback that is looked at fits.
    pub fn fits(&mut self, trace: TbId) -> bool
        requires { trace.0 < length self.old.table }
        ensures answer { result ≡ trace_fits self.old trace }
        ensures same { self.new ≡ self.old }
    {
        if let Some(answer) = self.known.get(trace.0) {
            return answer;
        }
        let frames = frames_seen(self.all_frames, self.table.frames(trace));
        let answer = some_fits(&mut self.files, self.line, frames);
        self.known.put(trace.0, answer);
        answer
    }
}
