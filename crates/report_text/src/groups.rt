//! The groups of statistics: a line for each, with its size in bytes, how often its key occurs, and the key,
//! which is frames with blanks between, the oldest first.
ghost use Rattle.std.specs.Prelude.{◌≡◌, ◌++◌, map, length, All, OnOk, OnErr};
ghost use Rattle.std.specs.List.{join_with_byte};
ghost use Rattle.trace_model.specs.Known.{IsKnown};
ghost use Rattle.trace_model.specs.Spelling.{blank};
ghost use Rattle.snapshot_model.specs.Stats.{plain_group};
ghost use Rattle.event_model.specs.Replies.{frames_of, AreKnownFrames};
ghost use Rattle.dump_model.specs.Spelling.{frame_word};
ghost use Rattle.report_model.specs.Report.{group_line, group_lines};
ghost use Rattle.line_text.specs.Texts.{StaysInFront};

use line_text::{push_frame, push_number, push_wide};
use mem_base::{Frame, Group, Texts};
use std::alloc::AllocError;

// The frames of a key, with blanks between.
pub(crate) fn push_key(text: &mut Vec<u8>, texts: &Texts, key: &[Frame]) -> Result<(), AllocError>
    requires { All (λ f. IsKnown texts.now f.file) key.now }
    ensures ok { OnOk result (text.new.items
        ≡ text.old.items ++ join_with_byte blank (map frame_word (frames_of texts.now key.now))) }
    ensures err { OnErr result (StaysInFront text.old.items text.new.items) }
{
    let Some((first, rest)) = key.split_first() else {
        return Ok(());
    };
    push_frame(text, texts, *first)?;
    for frame in rest {
        text.push(b' ')?;
        push_frame(text, texts, *frame)?;
    }
    Ok(())
}

// The line of a group.
#[tactic(auto, unfolding(report_model::specs::Report::group_line))]
fn push_group_line(text: &mut Vec<u8>, texts: &Texts, group: &Group) -> Result<(), AllocError>
    requires { AreKnownFrames (length texts.now) group.now.key }
    ensures ok { OnOk result (text.new.items ≡ text.old.items ++ group_line (plain_group texts.now group.now)) }
    ensures err { OnErr result (StaysInFront text.old.items text.new.items) }
{
    text.extend_from_slice(b"  ")?;
    push_wide(text, group.size)?;
    text.push(b' ')?;
    push_number(text, group.count)?;
    text.push(b' ')?;
    push_key(text, texts, group.key.as_slice())?;
    text.push(b'\n')?;
    Ok(())
}

// A line for each group, the greatest first.
pub(crate) fn push_group_lines(
    text: &mut Vec<u8>,
    texts: &Texts,
    groups: &[Group],
) -> Result<(), AllocError>
    requires { All (λ g. AreKnownFrames (length texts.now) g.key) groups.now }
    ensures ok { OnOk result (text.new.items
        ≡ text.old.items ++ group_lines (map (plain_group texts.now) groups.now)) }
    ensures err { OnErr result (StaysInFront text.old.items text.new.items) }
{
    for group in groups {
        push_group_line(text, texts, group)?;
    }
    Ok(())
}
