//! Each kind of operand of a line, read from its word: `Ok` of what the word spells, or the first
//! cause for which it is refused. Words are bytes, and nothing is copied but the bytes of a poke.
ghost use Rattle.std.specs.Prelude.{◌≡◌, ◌≤◌, length, IfOk};
ghost use Rattle.mem_base.specs.Offset.{IsOffset};
ghost use Rattle.trace_model.specs.Operands.{offset_at};
ghost use Rattle.trace_model.specs.Operands.{forward_at, backward_at, number_in, count_at, refusal_at};
ghost use Rattle.trace_model.specs.Operands.{line_number_at, limit_at, domain_at, file_at};
ghost use Rattle.trace_model.specs.Operands.{key_at, mode_at, most_at};
ghost use Rattle.trace_model.specs.Operands.{times_at, name_at, letter_at, side_at, hex_from, hex_at};
ghost use Rattle.trace_model.specs.Operands.{digit_of};
ghost use Rattle.trace_model.specs.Reading.{head_at};
ghost use Rattle.trace_reader.specs.Answers.{Gives};

use crate::error::LineError;
use line_text::is_name;
pub(crate) use line_text::{is_file, number};
use mem_base::limits::{MAX_FRAME_LIMIT, MAX_LINE, MAX_LINES, MAX_PICKS, MAX_REACH, MAX_REFUSAL};
use mem_base::{KeyKind, Letter, List, Side};
use std::alloc::Global;
use trace_model::{Head, TraceCause};

/// What the first word of a line begins. It is compared only with the words that have its first letter.
pub fn head(word: &[u8]) -> Result<Head, TraceCause>
    ensures { result ≡ head_at word.now }
{
    let Some((letter, _)) = word.split_first() else {
        return Err(TraceCause::UnknownWord);
    };
    let heads = Head::with_letter(*letter);
    for head in heads {
        if word == head.word().as_bytes() {
            return Ok(*head);
        }
    }
    Err(TraceCause::UnknownWord)
}

// An offset from a block's data on.
fn forward(value: u64) -> Result<i64, TraceCause>
    ensures value { result ≡ forward_at value }
    ensures range { IfOk result IsOffset }
{
    if value > i64::MAX as u64 {
        return Err(TraceCause::BadRange);
    }
    Ok(value as i64)
}

// An offset before a block's data.
fn backward(value: u64) -> Result<i64, TraceCause>
    ensures value { result ≡ backward_at value }
    ensures range { IfOk result IsOffset }
{
    match value {
        0 => Err(TraceCause::BadNumber),
        1..=8 => Ok(-(value as i64)),
        _ => Err(TraceCause::BadRange),
    }
}

/// An offset from a block's data.
#[tactic(auto, unfolding(trace_model::specs::Operands::offset_at))]
pub fn offset(word: &[u8]) -> Result<i64, TraceCause>
    ensures value { result ≡ offset_at word.now }
    ensures range { IfOk result IsOffset }
{
    match word.split_first() {
        Some((b'-', digits)) => backward(number(digits)?),
        _ => forward(number(word)?),
    }
}

/// A number from `least` to `most`.
#[tactic(auto, unfolding(trace_model::specs::Operands::number_in))]
pub fn number_in(word: &[u8], least: u64, most: u64) -> Result<u64, TraceCause>
    ensures value { result ≡ number_in least most word.now }
    ensures range { IfOk result (λ n. (least ≤ n) × (n ≤ most)) }
{
    let value = number(word)?;
    if value < least || value > most {
        return Err(TraceCause::BadRange);
    }
    Ok(value)
}

/// How many bytes are read.
pub fn count(word: &[u8]) -> Result<u64, TraceCause>
    ensures value { result ≡ count_at word.now }
    ensures range { IfOk result (λ n. (1 ≤ n) × (n ≤ MAX_REACH)) }
{
    number_in(word, 1, MAX_REACH)
}

/// The number of the request that is refused, counted from the next one on.
pub fn refusal(word: &[u8]) -> Result<u64, TraceCause>
    ensures value { result ≡ refusal_at word.now }
    ensures range { IfOk result (λ n. (1 ≤ n) × (n ≤ MAX_REFUSAL)) }
{
    number_in(word, 1, MAX_REFUSAL)
}

/// The number of a line of a file.
pub fn line_number(word: &[u8]) -> Result<u32, TraceCause>
    ensures value { result ≡ line_number_at word.now }
    ensures range { IfOk result (λ n. n ≤ MAX_LINE) }
{
    let value = number_in(word, 0, MAX_LINE as u64)?;
    Ok(value as u32)
}

/// How many frames the trace of a block keeps at most.
pub fn limit(word: &[u8]) -> Result<u32, TraceCause>
    ensures value { result ≡ limit_at word.now }
    ensures range { IfOk result (λ n. (1 ≤ n) × (n ≤ MAX_FRAME_LIMIT)) }
{
    let value = number_in(word, 1, MAX_FRAME_LIMIT as u64)?;
    Ok(value as u32)
}

/// How many lines of statistics are printed at most.
pub fn most(word: &[u8]) -> Result<u32, TraceCause>
    ensures value { result ≡ most_at word.now }
    ensures range { IfOk result (λ n. (1 ≤ n) × (n ≤ MAX_LINES)) }
{
    let value = number_in(word, 1, MAX_LINES as u64)?;
    Ok(value as u32)
}

/// The domain of a number that a program marks.
pub fn domain(word: &[u8]) -> Result<u32, TraceCause>
    ensures value { result ≡ domain_at word.now }
    ensures range { IfOk result (λ n. 1 ≤ n) }
{
    let value = number_in(word, 1, u32::MAX as u64)?;
    Ok(value as u32)
}

/// How often a track is picked in a row.
pub fn times(word: &[u8]) -> Result<u32, TraceCause>
    ensures value { result ≡ times_at word.now }
    ensures range { IfOk result (λ n. (1 ≤ n) × (n ≤ MAX_PICKS)) }
{
    let value = number_in(word, 1, MAX_PICKS as u64)?;
    Ok(value as u32)
}

/// Whether the word is a name.
pub fn name(word: &[u8]) -> Result<(), TraceCause>
    ensures { result ≡ name_at word.now }
{
    if !is_name(word) {
        return Err(TraceCause::BadName);
    }
    Ok(())
}

/// Whether the word is the name of a file.
pub fn file(word: &[u8]) -> Result<(), TraceCause>
    ensures { result ≡ file_at word.now }
{
    if !is_file(word) {
        return Err(TraceCause::BadName);
    }
    Ok(())
}

/// The letter of a domain.
#[tactic(auto, unfolding(trace_model::specs::Operands::letter_at))]
pub fn letter(word: &[u8]) -> Result<Letter, TraceCause>
    ensures { result ≡ letter_at word.now }
{
    if word == b"r".as_slice() {
        Ok(Letter::Raw)
    } else if word == b"m".as_slice() {
        Ok(Letter::Mem)
    } else if word == b"o".as_slice() {
        Ok(Letter::Obj)
    } else {
        Err(TraceCause::UnknownWord)
    }
}

/// The source that refuses.
#[tactic(auto, unfolding(trace_model::specs::Operands::side_at))]
pub fn side(word: &[u8]) -> Result<Side, TraceCause>
    ensures { result ≡ side_at word.now }
{
    if word == b"arena".as_slice() {
        Ok(Side::Arena)
    } else if word == b"raw".as_slice() {
        Ok(Side::Raw)
    } else {
        Err(TraceCause::UnknownWord)
    }
}

/// By what statistics are grouped.
#[tactic(auto, unfolding(trace_model::specs::Operands::key_at))]
pub fn key(word: &[u8]) -> Result<KeyKind, TraceCause>
    ensures { result ≡ key_at word.now }
{
    if word == b"filename".as_slice() {
        Ok(KeyKind::Filename)
    } else if word == b"lineno".as_slice() {
        Ok(KeyKind::Lineno)
    } else if word == b"traceback".as_slice() {
        Ok(KeyKind::Traceback)
    } else {
        Err(TraceCause::UnknownWord)
    }
}

/// Whether statistics by that key count each kept frame of a trace, and not the most recent one alone.
#[tactic(auto, unfolding(trace_model::specs::Operands::mode_at))]
pub fn mode(key: KeyKind, word: &[u8]) -> Result<bool, TraceCause>
    ensures { result ≡ mode_at key word.now }
{
    if word == b"plain".as_slice() {
        return Ok(false);
    }
    if word != b"cumulative".as_slice() {
        return Err(TraceCause::UnknownWord);
    }
    match key {
        KeyKind::Filename | KeyKind::Lineno => Ok(true),
        KeyKind::Traceback => Err(TraceCause::BadRange),
    }
}

fn digit(byte: u8) -> Option<u8>
    ensures { result ≡ digit_of byte }
{
    match byte {
        b'0'..=b'9' => Some(byte - b'0'),
        b'a'..=b'f' => Some(byte - 87),
        _ => None,
    }
}

// The bytes that the digits spell, two digits for each.
fn hex_bytes(alloc: Global, word: &[u8]) -> Result<Vec<u8>, LineError>
    ensures { Gives (λ v. v.items) result (hex_from word.now) }
{
    let mut bytes = Vec::new(alloc);
    let mut rest = word;
    while let [high, low, after @ ..] = rest {
        match (digit(*high), digit(*low)) {
            (Some(high), Some(low)) => bytes.push(16 * high + low)?,
            _ => return Err(LineError::Wrong(TraceCause::BadHex)),
        }
        rest = after;
    }
    if !rest.is_empty() {
        return Err(LineError::Wrong(TraceCause::BadHex));
    }
    Ok(bytes)
}

/// The bytes of a poke.
#[tactic(auto, unfolding(trace_model::specs::Operands::hex_at))]
pub fn hex(alloc: Global, word: &[u8]) -> Result<List<u8>, LineError>
    ensures value { Gives (λ v. v) result (hex_at word.now) }
    ensures range { IfOk result (λ v. (1 ≤ length v) × (length v ≤ MAX_REACH)) }
{
    let bytes = hex_bytes(alloc, word)?;
    if bytes.is_empty() || bytes.len() as u64 > MAX_REACH {
        return Err(LineError::Wrong(TraceCause::BadRange));
    }
    Ok(List::from_vec(bytes))
}
