//! Offsets, bytes, names, and the words of operations. An operation's line is spelt here as the trace
//! that was read spells it, with keywords from the one table of `trace_model`.
ghost use Rattle.std.specs.Prelude.{◌≡◌, ◌++◌, ◌∷◌, ◌<◌, OnOk, OnErr, decimal};
ghost use Rattle.std.specs.Fmt.{signed_decimal};
ghost use Rattle.trace_model.specs.Operands.{hex_word, key_word, letter_word, mode_word, side_word, glyph};
ghost use Rattle.trace_model.specs.Plain.{action_of, keyword_text, text_at, refuse};
ghost use Rattle.trace_model.specs.Plain.{compare, enter, go_to, mark, snapshot, start_tracing, stats, unmark};
ghost use Rattle.trace_model.specs.Known.{IsKnown, IsKnownOp};
ghost use Rattle.trace_model.specs.Spelling.{line_of, blank};
ghost use Rattle.line_text.specs.Texts.{StaysInFront};

use crate::rules::push_keep;
use itoa::Buffer;
use line_text::push_number;
use mem_base::{KeyKind, Letter, Op, Side, TextId, Texts};
use std::alloc::AllocError;
use trace_model::Keyword;

// ---- offsets and bytes

fn push_offset(text: &mut Vec<u8>, n: &i64) -> Result<(), AllocError>
    ensures ok { OnOk result (text.new.items ≡ text.old.items ++ signed_decimal n.now) }
    ensures err { OnErr result (StaysInFront text.old.items text.new.items) }
{
    let mut buffer = Buffer::new();
    text.extend_from_slice(buffer.format(*n).as_bytes())
}

fn digit(n: u8) -> u8
    requires { n < 16 }
    ensures { result ≡ glyph n }
{
    if n < 10 { b'0' + n } else { 87 + n }
}

pub(crate) fn push_hex(text: &mut Vec<u8>, bytes: &[u8]) -> Result<(), AllocError>
    ensures ok { OnOk result (text.new.items ≡ text.old.items ++ hex_word bytes.now) }
    ensures err { OnErr result (StaysInFront text.old.items text.new.items) }
{
    for byte in bytes {
        text.push(digit(*byte / 16))?;
        text.push(digit(*byte % 16))?;
    }
    Ok(())
}

// ---- operations

// The keyword of an operation, which its line begins with.
#[inline(always)]
pub(crate) fn push_keyword(text: &mut Vec<u8>, keyword: Keyword) -> Result<(), AllocError>
    ensures ok { OnOk result (text.new.items ≡ text.old.items ++ keyword_text keyword) }
    ensures err { OnErr result (StaysInFront text.old.items text.new.items) }
{
    text.extend_from_slice(keyword.word().as_bytes())
}

// A blank and the letter of a domain.
#[inline(always)]
fn push_letter(text: &mut Vec<u8>, letter: Letter) -> Result<(), AllocError>
    ensures ok { OnOk result (text.new.items ≡ text.old.items ++ blank ∷ letter_word letter) }
    ensures err { OnErr result (StaysInFront text.old.items text.new.items) }
{
    text.extend_from_slice(&[b' ', letter.byte()])
}

// A blank and the name.
#[inline(always)]
pub(crate) fn push_name(text: &mut Vec<u8>, texts: &Texts, name: TextId) -> Result<(), AllocError>
    requires { IsKnown texts.now name }
    ensures ok { OnOk result (text.new.items ≡ text.old.items ++ blank ∷ text_at texts.now name) }
    ensures err { OnErr result (StaysInFront text.old.items text.new.items) }
{
    text.push(b' ')?;
    text.extend_from_slice(texts.get(name))
}

// A blank and a number.
#[inline(always)]
fn push_operand(text: &mut Vec<u8>, n: u64) -> Result<(), AllocError>
    ensures ok { OnOk result (text.new.items ≡ text.old.items ++ blank ∷ decimal n) }
    ensures err { OnErr result (StaysInFront text.old.items text.new.items) }
{
    text.push(b' ')?;
    push_number(text, n)
}

// A blank and the word of a source.
fn push_side(text: &mut Vec<u8>, side: Side) -> Result<(), AllocError>
    ensures ok { OnOk result (text.new.items ≡ text.old.items ++ blank ∷ side_word side) }
    ensures err { OnErr result (StaysInFront text.old.items text.new.items) }
{
    match side {
        Side::Arena => text.extend_from_slice(b" arena"),
        Side::Raw => text.extend_from_slice(b" raw"),
    }
}

// The line of a refusal, without its end.
fn push_refusal(text: &mut Vec<u8>, side: Side, number: u64) -> Result<(), AllocError>
    ensures ok { OnOk result (text.new.items ≡ text.old.items ++ line_of (refuse side number)) }
    ensures err { OnErr result (StaysInFront text.old.items text.new.items) }
{
    push_keyword(text, Keyword::Refuse)?;
    push_side(text, side)?;
    text.push(b' ')?;
    push_number(text, number)
}

// The line of a call, without its end.
fn push_call(text: &mut Vec<u8>, texts: &Texts, file: TextId, line: u32) -> Result<(), AllocError>
    requires { IsKnown texts.now file }
    ensures ok { OnOk result (text.new.items ≡ text.old.items ++ line_of (enter (text_at texts.now file) line)) }
    ensures err { OnErr result (StaysInFront text.old.items text.new.items) }
{
    push_keyword(text, Keyword::Call)?;
    push_name(text, texts, file)?;
    push_operand(text, u64::from(line))
}

// The line of a frame that goes on to another line, without its end.
fn push_go_to(text: &mut Vec<u8>, line: u32) -> Result<(), AllocError>
    ensures ok { OnOk result (text.new.items ≡ text.old.items ++ line_of (go_to line)) }
    ensures err { OnErr result (StaysInFront text.old.items text.new.items) }
{
    push_keyword(text, Keyword::Line)?;
    push_operand(text, u64::from(line))
}

// The line of a start of tracing, without its end.
fn push_start(text: &mut Vec<u8>, limit: u32) -> Result<(), AllocError>
    ensures ok { OnOk result (text.new.items ≡ text.old.items ++ line_of (start_tracing limit)) }
    ensures err { OnErr result (StaysInFront text.old.items text.new.items) }
{
    push_keyword(text, Keyword::Start)?;
    push_operand(text, u64::from(limit))
}

// The line of a number that is marked, without its end.
fn push_mark(text: &mut Vec<u8>, domain: u32, number: u64, size: u64) -> Result<(), AllocError>
    ensures ok { OnOk result (text.new.items ≡ text.old.items ++ line_of (mark domain number size)) }
    ensures err { OnErr result (StaysInFront text.old.items text.new.items) }
{
    push_keyword(text, Keyword::Mark)?;
    push_operand(text, u64::from(domain))?;
    push_operand(text, number)?;
    push_operand(text, size)
}

// The line of a number that is no longer marked, without its end.
fn push_unmark(text: &mut Vec<u8>, domain: u32, number: u64) -> Result<(), AllocError>
    ensures ok { OnOk result (text.new.items ≡ text.old.items ++ line_of (unmark domain number)) }
    ensures err { OnErr result (StaysInFront text.old.items text.new.items) }
{
    push_keyword(text, Keyword::Unmark)?;
    push_operand(text, u64::from(domain))?;
    push_operand(text, number)
}

// A blank and the word of what statistics are grouped by.
fn push_key_kind(text: &mut Vec<u8>, key: KeyKind) -> Result<(), AllocError>
    ensures ok { OnOk result (text.new.items ≡ text.old.items ++ blank ∷ key_word key) }
    ensures err { OnErr result (StaysInFront text.old.items text.new.items) }
{
    match key {
        KeyKind::Filename => text.extend_from_slice(b" filename"),
        KeyKind::Lineno => text.extend_from_slice(b" lineno"),
        KeyKind::Traceback => text.extend_from_slice(b" traceback"),
    }
}

// A blank, and whether each kept frame counts or the most recent one alone.
fn push_mode(text: &mut Vec<u8>, cumulative: bool) -> Result<(), AllocError>
    ensures ok { OnOk result (text.new.items ≡ text.old.items ++ blank ∷ mode_word cumulative) }
    ensures err { OnErr result (StaysInFront text.old.items text.new.items) }
{
    match cumulative {
        true => text.extend_from_slice(b" cumulative"),
        false => text.extend_from_slice(b" plain"),
    }
}

// The line of a snapshot, without its end.
fn push_snapshot(text: &mut Vec<u8>, texts: &Texts, name: TextId) -> Result<(), AllocError>
    requires { IsKnown texts.now name }
    ensures ok { OnOk result (text.new.items ≡ text.old.items ++ line_of (snapshot (text_at texts.now name))) }
    ensures err { OnErr result (StaysInFront text.old.items text.new.items) }
{
    push_keyword(text, Keyword::Snapshot)?;
    push_name(text, texts, name)
}

// A blank and by what traces are grouped, whether each kept frame counts, and how many lines there are at most.
fn push_grouping(
    text: &mut Vec<u8>,
    key: KeyKind,
    cumulative: bool,
    most: u32,
) -> Result<(), AllocError>
    ensures ok { OnOk result (text.new.items ≡ text.old.items
        ++ blank ∷ key_word key ++ blank ∷ mode_word cumulative ++ blank ∷ decimal most) }
    ensures err { OnErr result (StaysInFront text.old.items text.new.items) }
{
    push_key_kind(text, key)?;
    push_mode(text, cumulative)?;
    push_operand(text, u64::from(most))
}

// The line of statistics, without its end.
fn push_stats(
    text: &mut Vec<u8>,
    texts: &Texts,
    name: TextId,
    key: KeyKind,
    cumulative: bool,
    most: u32,
) -> Result<(), AllocError>
    requires { IsKnown texts.now name }
    ensures ok { OnOk result (text.new.items
        ≡ text.old.items ++ line_of (stats (text_at texts.now name) key cumulative most)) }
    ensures err { OnErr result (StaysInFront text.old.items text.new.items) }
{
    push_keyword(text, Keyword::Stats)?;
    push_name(text, texts, name)?;
    push_grouping(text, key, cumulative, most)
}

// The line of a comparison, without its end. The names are those of the new snapshot and of the old one.
fn push_compare(
    text: &mut Vec<u8>,
    texts: &Texts,
    names: (TextId, TextId),
    key: KeyKind,
    cumulative: bool,
    most: u32,
) -> Result<(), AllocError>
    requires new { IsKnown texts.now names.0 }
    requires old { IsKnown texts.now names.1 }
    ensures ok { OnOk result (text.new.items ≡ text.old.items
        ++ line_of (compare (text_at texts.now names.0) (text_at texts.now names.1) key cumulative most)) }
    ensures err { OnErr result (StaysInFront text.old.items text.new.items) }
{
    push_keyword(text, Keyword::Compare)?;
    push_name(text, texts, names.0)?;
    push_name(text, texts, names.1)?;
    push_grouping(text, key, cumulative, most)
}

// The line of an operation, without its end.
#[inline(always)]
pub(crate) fn push_op(text: &mut Vec<u8>, texts: &Texts, op: &Op) -> Result<(), AllocError>
    requires { IsKnownOp texts.now op.now }
    ensures ok { OnOk result (text.new.items ≡ text.old.items ++ line_of (action_of texts.now op.now)) }
    ensures err { OnErr result (StaysInFront text.old.items text.new.items) }
{
    match op {
        Op::Acquire => push_keyword(text, Keyword::Acquire),
        Op::Release => push_keyword(text, Keyword::Release),
        Op::Malloc(letter, name, size) => {
            push_keyword(text, Keyword::Malloc)?;
            push_letter(text, *letter)?;
            push_name(text, texts, *name)?;
            text.push(b' ')?;
            push_number(text, *size)
        }
        Op::Calloc(letter, name, elements, size) => {
            push_keyword(text, Keyword::Calloc)?;
            push_letter(text, *letter)?;
            push_name(text, texts, *name)?;
            text.push(b' ')?;
            push_number(text, *elements)?;
            text.push(b' ')?;
            push_number(text, *size)
        }
        Op::Realloc(letter, name, size) => {
            push_keyword(text, Keyword::Realloc)?;
            push_letter(text, *letter)?;
            push_name(text, texts, *name)?;
            text.push(b' ')?;
            push_number(text, *size)
        }
        Op::Free(letter, name) => {
            push_keyword(text, Keyword::Free)?;
            push_letter(text, *letter)?;
            push_name(text, texts, *name)
        }
        Op::Poke(name, offset, bytes) => {
            push_keyword(text, Keyword::Poke)?;
            push_name(text, texts, *name)?;
            text.push(b' ')?;
            push_offset(text, offset)?;
            text.push(b' ')?;
            push_hex(text, bytes.as_slice())
        }
        Op::Peek(name, offset, count) => {
            push_keyword(text, Keyword::Peek)?;
            push_name(text, texts, *name)?;
            text.push(b' ')?;
            push_offset(text, offset)?;
            text.push(b' ')?;
            push_number(text, *count)
        }
        Op::Enter(file, line) => push_call(text, texts, *file, *line),
        Op::Line(line) => push_go_to(text, *line),
        Op::Leave => push_keyword(text, Keyword::Return),
        Op::Start(limit) => push_start(text, *limit),
        Op::Stop => push_keyword(text, Keyword::Stop),
        Op::Clear => push_keyword(text, Keyword::Clear),
        Op::ResetPeak => push_keyword(text, Keyword::ResetPeak),
        Op::Traced => push_keyword(text, Keyword::Traced),
        Op::Mark(domain, number, size) => push_mark(text, *domain, *number, *size),
        Op::Unmark(domain, number) => push_unmark(text, *domain, *number),
        Op::Origin(name) => {
            push_keyword(text, Keyword::Where)?;
            push_name(text, texts, *name)
        }
        Op::Snapshot(name) => push_snapshot(text, texts, *name),
        Op::Keep(new, old, rules) => push_keep(text, texts, *new, *old, rules.as_slice()),
        Op::Stats(name, key, cumulative, most) => push_stats(
            text,
            texts,
            *name,
            *key,
            *cumulative,
            *most,
        ),
        Op::Compare(new, old, key, cumulative, most) => push_compare(
            text,
            texts,
            (*new, *old),
            *key,
            *cumulative,
            *most,
        ),
        Op::Dump(name) => {
            push_keyword(text, Keyword::Dump)?;
            push_name(text, texts, *name)
        }
        Op::Heap => push_keyword(text, Keyword::Heap),
        Op::Refuse(side, number) => push_refusal(text, *side, *number),
    }
}
