//! The lines of a comparison: a group each, with what it has and by how much that differs.
ghost use Rattle.std.specs.Prelude.{◌≡◌, ◌++◌, length, map, All, OnOk, OnErr};
ghost use Rattle.snapshot_model.specs.Compared.{plain_change};
ghost use Rattle.event_model.specs.Replies.{AreKnownFrames};
ghost use Rattle.report_model.specs.Report.{change_line, change_lines, changed_word, difference_word, sums_word};
ghost use Rattle.line_text.specs.Texts.{StaysInFront};

use crate::groups::push_key;
use itoa::Buffer;
use line_text::push_wide;
use mem_base::{Diff, Texts};
use std::alloc::AllocError;

// A difference, which has its sign always.
fn push_difference(text: &mut Vec<u8>, n: i128) -> Result<(), AllocError>
    ensures ok { OnOk result (text.new.items ≡ text.old.items ++ difference_word n) }
    ensures err { OnErr result (StaysInFront text.old.items text.new.items) }
{
    if n >= 0 {
        text.push(b'+')?;
    }
    let mut buffer = Buffer::new();
    text.extend_from_slice(buffer.format(n).as_bytes())
}

// A number, and by how much it differs.
#[tactic(auto, unfolding(report_model::specs::Report::changed_word))]
fn push_changed(text: &mut Vec<u8>, n: u128, difference: i128) -> Result<(), AllocError>
    ensures ok { OnOk result (text.new.items ≡ text.old.items ++ changed_word n difference) }
    ensures err { OnErr result (StaysInFront text.old.items text.new.items) }
{
    push_wide(text, n)?;
    text.push(b' ')?;
    push_difference(text, difference)
}

// A sum and a count, and by how much each differs.
#[tactic(auto, unfolding(report_model::specs::Report::sums_word))]
fn push_sums(text: &mut Vec<u8>, diff: &Diff) -> Result<(), AllocError>
    ensures ok { OnOk result (text.new.items ≡ text.old.items
        ++ sums_word diff.now.size diff.now.size_diff diff.now.count diff.now.count_diff) }
    ensures err { OnErr result (StaysInFront text.old.items text.new.items) }
{
    push_changed(text, diff.size, diff.size_diff)?;
    text.push(b' ')?;
    push_changed(text, u128::from(diff.count), i128::from(diff.count_diff))
}

// The line of a change.
#[tactic(auto, unfolding(report_model::specs::Report::change_line))]
fn push_change_line(text: &mut Vec<u8>, texts: &Texts, diff: &Diff) -> Result<(), AllocError>
    requires { AreKnownFrames (length texts.now) diff.now.key }
    ensures ok { OnOk result (text.new.items ≡ text.old.items ++ change_line (plain_change texts.now diff.now)) }
    ensures err { OnErr result (StaysInFront text.old.items text.new.items) }
{
    text.extend_from_slice(b"  ")?;
    push_sums(text, diff)?;
    text.push(b' ')?;
    push_key(text, texts, diff.key.as_slice())?;
    text.push(b'\n')?;
    Ok(())
}

// A line for each change, the greatest first.
pub(crate) fn push_change_lines(
    text: &mut Vec<u8>,
    texts: &Texts,
    diffs: &[Diff],
) -> Result<(), AllocError>
    requires { All (λ d. AreKnownFrames (length texts.now) d.key) diffs.now }
    ensures ok { OnOk result (text.new.items
        ≡ text.old.items ++ change_lines (map (plain_change texts.now) diffs.now)) }
    ensures err { OnErr result (StaysInFront text.old.items text.new.items) }
{
    for diff in diffs {
        push_change_line(text, texts, diff)?;
    }
    Ok(())
}
