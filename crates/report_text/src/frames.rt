//! The lines of the frames that a trace keeps.
ghost use Rattle.std.specs.Prelude.{◌≡◌, ◌<◌, ◌++◌, length, All, OnOk, OnErr};
ghost use Rattle.trace_model.specs.Known.{IsKnown};
ghost use Rattle.event_model.specs.Replies.{frame_of, frames_of};
ghost use Rattle.report_model.specs.Report.{frame_line, frame_lines};
ghost use Rattle.line_text.specs.Texts.{StaysInFront};

use line_text::push_frame;
use mem_base::{Frame, Texts};
use std::alloc::AllocError;

// A line for a frame that a trace keeps.
#[tactic(auto, unfolding(report_model::specs::Report::frame_line))]
fn push_frame_line(text: &mut Vec<u8>, texts: &Texts, frame: Frame) -> Result<(), AllocError>
    requires { IsKnown texts.now frame.file }
    ensures ok { OnOk result (text.new.items ≡ text.old.items ++ frame_line (frame_of texts.now frame)) }
    ensures err { OnErr result (StaysInFront text.old.items text.new.items) }
{
    text.extend_from_slice(b"  ")?;
    push_frame(text, texts, frame)?;
    text.push(b'\n')?;
    Ok(())
}

// A line for each frame, the oldest first.
pub(crate) fn push_frame_lines(
    text: &mut Vec<u8>,
    texts: &Texts,
    kept: &[Frame],
) -> Result<(), AllocError>
    requires { All (λ f. IsKnown texts.now f.file) kept.now }
    ensures ok { OnOk result (text.new.items ≡ text.old.items ++ frame_lines (frames_of texts.now kept.now)) }
    ensures err { OnErr result (StaysInFront text.old.items text.new.items) }
{
    for frame in kept {
        push_frame_line(text, texts, *frame)?;
    }
    Ok(())
}
