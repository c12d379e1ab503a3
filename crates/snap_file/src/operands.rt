//! Each kind of operand of a dump's lines, read from its word: `Ok` of what the word spells, or the cause for
//! which it is refused. Nothing is copied: names and files stay where they are in the line.
ghost use Rattle.std.specs.Prelude.{◌≡◌, ◌≤◌, IfOk};
ghost use Rattle.std.specs.Option.{option_map};
ghost use Rattle.mem_base.specs.declared.limits.TheConstants.{MAX_FRAME_LIMIT as most_frames};
ghost use Rattle.trace_model.specs.Operands.{max_domain, number_in as digits_in};
ghost use Rattle.trace_model.specs.Rules.{if_read};
ghost use Rattle.dump_model.specs.Operands.{cut_last, frame_at, frame_on, frames_at, key_in, number_at, number_in};
ghost use Rattle.snap_file.specs.Answers.{seen};
ghost use Rattle.snap_file.specs.Plain.{plain_frame, plain_key};

use dump_model::LoadCause;
use line_text::{is_file, is_name};
use mem_base::limits::{MAX_FRAME_LIMIT, MAX_LINE};
use memchr::memrchr;

/// A number in decimal.
pub fn number(word: &[u8]) -> Result<u64, LoadCause>
    ensures { result ≡ number_at word.now }
{
    match line_text::number(word) {
        Ok(number) => Ok(number),
        Err(_) => Err(LoadCause::BadNumber),
    }
}

/// A number from `least` to `most`.
#[tactic(auto, unfolding(dump_model::specs::Operands::number_in))]
pub fn number_in(word: &[u8], least: u64, most: u64) -> Result<u64, LoadCause>
    ensures value { result ≡ number_in least most word.now }
    ensures range { IfOk result (λ n. (least ≤ n) × (n ≤ most)) }
{
    let value = number(word)?;
    if value < least || value > most {
        return Err(LoadCause::BadRange);
    }
    Ok(value)
}

/// How many frames are kept, or were there.
pub fn frame_count(word: &[u8]) -> Result<u32, LoadCause>
    ensures value { result ≡ frames_at word.now }
    ensures range { IfOk result (λ n. (1 ≤ n) × (n ≤ most_frames)) }
{
    let value = number_in(word, 1, u64::from(MAX_FRAME_LIMIT))?;
    Ok(value as u32)
}

/// The domain of a trace.
pub fn domain(word: &[u8]) -> Result<u32, LoadCause>
    ensures { result ≡ number_in 0 max_domain word.now }
{
    let value = number_in(word, 0, u64::from(u32::MAX))?;
    Ok(value as u32)
}

/// A key whose name is still in the line: the name of a block, or a domain and a number of it.
#[derive(Clone, Copy, Debug)]
pub enum KeyText<'a> {
    Block(&'a [u8]),
    Number(u32, u64),
}

/// What a key is behind its domain.
pub fn key(domain: u32, word: &[u8]) -> Result<KeyText<'_>, LoadCause>
    ensures { seen plain_key result ≡ key_in domain word.now }
{
    if domain == 0 {
        if !is_name(word) {
            return Err(LoadCause::BadName);
        }
        return Ok(KeyText::Block(word));
    }
    Ok(KeyText::Number(domain, number(word)?))
}

/// A frame whose file is still in the line.
#[derive(Clone, Copy, Debug)]
pub struct FrameText<'a> {
    pub file: &'a [u8],
    pub line: u32,
}

// What stands before the last colon, and what stands behind it.
fn cut_last(word: &[u8]) -> Option<(&[u8], &[u8])>
    ensures { option_map (λ x. record { front = x.0.now; behind = x.1.now }) result ≡ cut_last word.now }
{
    match memrchr(b':', word) {
        Some(at) => Some((&word[..at], &word[at + 1..])),
        None => None,
    }
}

// The number of a line of a file.
#[tactic(auto, unfolding(trace_model::specs::Operands::number_in))]
fn line_number(word: &[u8]) -> Option<u32>
    ensures { result ≡ if_read (digits_in 0 MAX_LINE word.now) }
{
    match line_text::number(word) {
        Ok(number) if number <= u64::from(MAX_LINE) => Some(number as u32),
        Ok(_) | Err(_) => None,
    }
}

// The frame of a file and of the line that a word is.
fn frame_on<'a>(file: &'a [u8], word: &[u8]) -> Option<FrameText<'a>>
    ensures { option_map plain_frame result ≡ frame_on file.now word.now }
{
    if !is_file(file) {
        return None;
    }
    let line = line_number(word)?;
    Some(FrameText { file, line })
}

/// A file, a colon and a line. The last colon is the one between them, so a file may have others.
#[tactic(auto, unfolding(dump_model::specs::Operands::frame_at))]
pub fn frame(word: &[u8]) -> Result<FrameText<'_>, LoadCause>
    ensures { seen plain_frame result ≡ frame_at word.now }
{
    let Some((file, line)) = cut_last(word) else {
        return Err(LoadCause::BadFrame);
    };
    match frame_on(file, line) {
        Some(frame) => Ok(frame),
        None => Err(LoadCause::BadFrame),
    }
}
