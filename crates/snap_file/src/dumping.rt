//! The text of a snapshot. What each part adds to the end of the text is spelt by `dump_model`.
ghost use Rattle.std.specs.Prelude.{◌≡◌, ◌<◌, ◌++◌, ◌∷◌, All, length, codes, decimal, IfOk, OnOk};
ghost use Rattle.std.specs.List.{flat_map};
ghost use Rattle.frame_model.specs.Frames.{frames_of};
ghost use Rattle.frame_stack.specs.Callers.{AreAmong};
ghost use Rattle.trace_model.specs.Spelling.{blank, with_end};
ghost use Rattle.trace_table.specs.Plain.{IsHeld, AreTraced, key_of, plain_row, plain_rows};
ghost use Rattle.trace_table.specs.Plain.{plain_snapshot};
ghost use Rattle.dump_model.specs.Spelling.{dump_text, header, limit_line, row_line};
ghost use Rattle.snap_file.specs.Words.{key_words, next_frame};

use frame_stack::Tracebacks;
use line_text::{push_frame, push_number};
use mem_base::{Frame, List, Texts};
use std::alloc::{AllocError, Global};
use trace_table::{Row, Snapshot, TraceKey, text_of};

// A blank and a number.
fn push_operand(text: &mut Vec<u8>, n: u64) -> Result<(), AllocError>
    ensures { OnOk result (text.new.items ≡ text.old.items ++ blank ∷ decimal n) }
{
    text.push(b' ')?;
    push_number(text, n)
}

// The domain of a key, and what it is there.
fn push_key(text: &mut Vec<u8>, texts: &Texts, key: TraceKey) -> Result<(), AllocError>
    ensures { OnOk result (text.new.items ≡ text.old.items ++ key_words (key_of texts.now key)) }
{
    match key {
        TraceKey::Block(name) => {
            push_operand(text, 0)?;
            text.push(b' ')?;
            text.extend_from_slice(text_of(texts, name))
        }
        TraceKey::Number(domain, number) => {
            push_operand(text, u64::from(domain))?;
            push_operand(text, number)
        }
    }
}

// The frames, with a blank before each.
fn push_frames(text: &mut Vec<u8>, texts: &Texts, frames: &[Frame]) -> Result<(), AllocError>
    requires { All (λ f. f.file.0 < length texts.now) frames.now }
    ensures { OnOk result (text.new.items ≡ text.old.items ++ flat_map next_frame (frames_of texts.now frames.now)) }
{
    for frame in frames {
        text.push(b' ')?;
        push_frame(text, texts, *frame)?;
    }
    Ok(())
}

// The line of a trace.
#[tactic(auto, using(crate::proofs::Joins::row_pieces))]
fn push_row(
    text: &mut Vec<u8>,
    texts: &Texts,
    table: &Tracebacks,
    row: &Row,
) -> Result<(), AllocError>
    requires traced { row.now.trace.0 < length table.now }
    requires among { All (AreAmong (length texts.now)) table.now }
    ensures { OnOk result
        (text.new.items ≡ text.old.items ++ with_end (row_line (plain_row texts.now table.now row.now))) }
{
    text.extend_from_slice(b"trace")?;
    push_key(text, texts, row.key)?;
    push_operand(text, row.size)?;
    push_operand(text, u64::from(row.total))?;
    push_frames(text, texts, table.frames(row.trace))?;
    text.push(b'\n')?;
    Ok(())
}

// A line for each trace.
fn push_rows(
    text: &mut Vec<u8>,
    texts: &Texts,
    table: &Tracebacks,
    rows: &[Row],
) -> Result<(), AllocError>
    requires traced { AreTraced table.now rows.now }
    requires among { All (AreAmong (length texts.now)) table.now }
    ensures { OnOk result (text.new.items
        ≡ text.old.items ++ flat_map (λ row. with_end (row_line row)) (plain_rows texts.now table.now rows.now)) }
{
    for row in rows {
        push_row(text, texts, table, row)?;
    }
    Ok(())
}

// The line that says how many frames a trace keeps at most.
#[tactic(auto, unfolding(dump_model::specs::Spelling::limit_line))]
fn push_limit(text: &mut Vec<u8>, limit: u32) -> Result<(), AllocError>
    ensures { OnOk result (text.new.items ≡ text.old.items ++ with_end (limit_line limit)) }
{
    text.extend_from_slice(b"limit")?;
    push_operand(text, u64::from(limit))?;
    text.push(b'\n')?;
    Ok(())
}

/// The text of a snapshot as a dump, with its names and frames from these tables. The error is that there was no
/// memory.
pub fn dump(
    alloc: Global,
    s: &Snapshot,
    texts: &Texts,
    table: &Tracebacks,
) -> Result<List<u8>, AllocError>
    requires held { IsHeld texts.now table.now s.now.rows }
    ensures { IfOk result (λ text. text ≡ dump_text (plain_snapshot texts.now table.now s.now)) }
{
    let mut text = Vec::new(alloc);
    text.extend_from_slice(b"pysnap 1\n")?;
    push_limit(&mut text, s.limit)?;
    push_rows(&mut text, texts, table, s.rows.as_slice())?;
    text.extend_from_slice(b"end\n")?;
    Ok(List::from_vec(text))
}
