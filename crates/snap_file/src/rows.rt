//! A trace of a dump, read from its words. Its frames go into a buffer that is used again for each trace, with
//! their files as numbers of the table of texts; its name is still in the line.
ghost use Rattle.std.specs.Prelude.{◌≡◌, ◌+◌, ◌-◌, ◌^◌, ◌<◌, ◌≤◌, ◌++◌, ◌∷◌, [], length, map, slice_get, Some};
ghost use Rattle.std.specs.Prelude.{IfOk, OnOk};
ghost use Rattle.mem_base.specs.declared.limits.TheConstants.{MAX_FRAME_LIMIT as most_frames};
ghost use Rattle.frame_model.specs.Frames.{frames_of};
ghost use Rattle.frame_stack.specs.Callers.{AreAmong};
ghost use Rattle.dump_model.specs.Operands.{frame_at, frames_in, row_at, row_of_words};
ghost use Rattle.snap_file.specs.Answers.{seen, Gives};
ghost use Rattle.snap_file.specs.Plain.{plain_text, Extends};
ghost use Rattle.snap_file.specs.Steps.{frame_behind};

use crate::error::LineError;
use crate::operands::{KeyText, domain, frame, frame_count, key, number};
use dump_model::LoadCause;
use mem_base::{Frame, TextId, Texts};
use std::alloc::AllocError;

/// A trace but for its frames, with its name still in the line.
#[derive(Clone, Copy, Debug)]
pub struct RowText<'a> {
    pub key: KeyText<'a>,
    pub size: u64,
    pub total: u32,
}

/// The number of the text in the table, which has one more text at most.
pub fn intern(texts: &mut Texts, text: &[u8]) -> Result<TextId, AllocError>
    requires { length texts.old < 2 ^ 32 - 1 }
    ensures text { IfOk result (λ id. slice_get texts.new id.0 ≡ Some text.now) }
    ensures grows { OnOk result (Extends 1 texts.old texts.new) }
{
    texts.intern(text)
}

// Reads one more frame.
fn read_frame(texts: &mut Texts, word: &[u8], frames: &mut Vec<Frame>) -> Result<(), LineError>
    requires room { length texts.old < 2 ^ 32 - 1 }
    requires among { AreAmong (length texts.old) frames.old.items }
    ensures read { Gives (λ _. frames_of texts.new frames.new.items) result
        (frame_behind (frames_of texts.old frames.old.items) (frame_at word.now)) }
    ensures grows { OnOk result (Extends 1 texts.old texts.new) }
    ensures among { OnOk result (AreAmong (length texts.new) frames.new.items) }
{
    let found = frame(word)?;
    let file = intern(texts, found.file)?;
    frames.push(Frame {
        file,
        line: found.line,
    })?;
    Ok(())
}

// Reads frames, from left to right, in place of what the buffer held.
fn read_frames(texts: &mut Texts, words: &[&[u8]], frames: &mut Vec<Frame>) -> Result<(), LineError>
    requires { length texts.old + length words.now < 2 ^ 32 }
    ensures read { Gives (λ _. frames_of texts.new frames.new.items) result (frames_in (map (λ w. w.now) words.now)) }
    ensures grows { OnOk result (Extends (length words.now) texts.old texts.new) }
    ensures among { OnOk result (AreAmong (length texts.new) frames.new.items) }
{
    frames.clear();
    for word in words {
        read_frame(texts, word, frames)?;
    }
    Ok(())
}

// The operands before the frames, from left to right.
#[tactic(auto, unfolding(dump_model::specs::Operands::row_of_words))]
fn read_front<'a>(
    domain_word: &[u8],
    key_word: &'a [u8],
    size_word: &[u8],
    total_word: &[u8],
) -> Result<RowText<'a>, LoadCause>
    ensures value { seen (plain_text []) result
        ≡ row_of_words domain_word.now key_word.now size_word.now total_word.now [] }
    ensures range { IfOk result (λ row. row.total ≤ most_frames) }
{
    let domain = domain(domain_word)?;
    let key = key(domain, key_word)?;
    let size = number(size_word)?;
    let total = frame_count(total_word)?;
    Ok(RowText { key, size, total })
}

/// Reads a trace, from its words behind the first. The buffer then has its frames.
pub fn read_row<'a>(
    texts: &mut Texts,
    words: &[&'a [u8]],
    frames: &mut Vec<Frame>,
) -> Result<RowText<'a>, LineError>
    requires enough { 5 ≤ length words.now }
    requires room { length texts.old + length words.now < 2 ^ 32 }
    ensures read { Gives (plain_text (frames_of texts.new frames.new.items)) result
        (row_at (map (λ w. w.now) words.now)) }
    ensures range { IfOk result (λ row. row.total ≤ most_frames) }
    ensures grows { OnOk result (Extends (length words.now - 4) texts.old texts.new) }
    ensures among { OnOk result (AreAmong (length texts.new) frames.new.items) }
{
    let row = read_front(words[0], words[1], words[2], words[3])?;
    let (_, frame_words) = words.split_at(4);
    read_frames(texts, frame_words, frames)?;
    Ok(row)
}
