//! Frames: a file and a line with a colon between.
ghost use Rattle.std.specs.Prelude.{◌≡◌, ◌++◌, OnOk, OnErr};
ghost use Rattle.frame_model.specs.Frames.{frame_of};
ghost use Rattle.trace_model.specs.Known.{IsKnown};
ghost use Rattle.dump_model.specs.Spelling.{frame_word};
ghost use Rattle.line_text.specs.Texts.{StaysInFront};

use crate::numbers::push_number;
use mem_base::{Frame, Texts};
use std::alloc::AllocError;

/// Adds a frame to the end of a text: its file, a colon and its line. The error is that there was no memory, and
/// what stood in the text stands in front of it still.
#[tactic(auto, unfolding(dump_model::specs::Spelling::frame_word))]
pub fn push_frame(text: &mut Vec<u8>, texts: &Texts, frame: Frame) -> Result<(), AllocError>
    requires { IsKnown texts.now frame.file }
    ensures ok { OnOk result (text.new.items ≡ text.old.items ++ frame_word (frame_of texts.now frame)) }
    ensures err { OnErr result (StaysInFront text.old.items text.new.items) }
{
    text.extend_from_slice(texts.get(frame.file))?;
    text.push(b':')?;
    push_number(text, u64::from(frame.line))
}
