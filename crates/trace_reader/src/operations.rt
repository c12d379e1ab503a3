//! Operations, read from the words of their lines. The operands are read from left to right, then what
//! they say together is checked, and the texts that they name go into the table last: the name of a block
//! or a snapshot, or a file. Only a line that keeps traces names two.
ghost use Rattle.std.specs.Prelude.{◌≡◌, ◌+◌, ◌-◌, ◌<◌, ◌≤◌, ◌^◌, [], length, map, IfOk, OnOk, slice_get};
ghost use Rattle.std.specs.Prelude.{Some, Ok, Err, if◌then◌else◌};
ghost use Rattle.mem_base.specs.Name.{Name};
ghost use Rattle.mem_base.specs.Texts.{with_text};
ghost use Rattle.trace_model.specs.Operands.{is_forged};
ghost use Rattle.trace_model.specs.Plain.{action_of, says, malloc_at, calloc_at, realloc_at, free_at};
ghost use Rattle.trace_model.specs.Plain.{poke_at, peek_at, refuse_at, enter_at, go_to_at, start_tracing_at};
ghost use Rattle.trace_model.specs.Plain.{mark_at, unmark_at, origin_at, snapshot_at, keep_at};
ghost use Rattle.trace_model.specs.Plain.{stats_at, compare_at, dump_at, action_at};
ghost use Rattle.trace_model.specs.Known.{IsKnown, IsKnownOp};
ghost use Rattle.trace_model.specs.declared.cause.TraceCause.TheVariants.{ForgedLetter};
ghost use Rattle.trace_reader.specs.Answers.{Gives};
ghost use Rattle.trace_reader.specs.Progress.{AddsTexts, Extends};

use crate::error::LineError;
use crate::operands::{
    count, domain, file, hex, key, letter, limit, line_number, mode, most, name, number, offset,
    refusal, side,
};
use crate::rules::rules;
use mem_base::{List, Op, TextId, Texts};
use std::alloc::{AllocError, Global};
use trace_model::{Keyword, TraceCause};

/// The number of the name in the table.
#[tactic(auto, using(crate::proofs::Growth::interned_extends, crate::proofs::Growth::is_within))]
pub fn intern(texts: &mut Texts, name: &[u8]) -> Result<TextId, AllocError>
    requires { length texts.old < 2 ^ 32 - 1 }
    ensures grows { Extends texts.old texts.new }
    ensures number { IfOk result (λ id. slice_get texts.new id.0 ≡ Some name.now) }
    ensures table { OnOk result (texts.new ≡ with_text texts.old name.now) }
    ensures known { IfOk result (IsKnown texts.new) }
    ensures one { length texts.new ≤ length texts.old + 1 }
{
    texts.intern(name)
}

#[tactic(auto, unfolding(trace_model::specs::Plain::malloc_at))]
fn malloc(texts: &mut Texts, domain: &[u8], block: &[u8], size: &[u8]) -> Result<Op, LineError>
    requires { length texts.old < 2 ^ 32 - 1 }
    ensures grows { Extends texts.old texts.new }
    ensures op { Gives (action_of texts.new) result (malloc_at domain.now block.now size.now) }
    ensures table { IfOk result (AddsTexts texts.old texts.new) }
    ensures known { IfOk result (IsKnownOp texts.new) }
{
    let domain = letter(domain)?;
    name(block)?;
    let size = number(size)?;
    Ok(Op::Malloc(domain, intern(texts, block)?, size))
}

#[tactic(auto, unfolding(trace_model::specs::Plain::calloc_at))]
fn calloc(
    texts: &mut Texts,
    domain: &[u8],
    block: &[u8],
    elements: &[u8],
    size: &[u8],
) -> Result<Op, LineError>
    requires { length texts.old < 2 ^ 32 - 1 }
    ensures grows { Extends texts.old texts.new }
    ensures op { Gives (action_of texts.new) result
        (calloc_at domain.now block.now elements.now size.now) }
    ensures table { IfOk result (AddsTexts texts.old texts.new) }
    ensures known { IfOk result (IsKnownOp texts.new) }
{
    let domain = letter(domain)?;
    name(block)?;
    let elements = number(elements)?;
    let size = number(size)?;
    Ok(Op::Calloc(domain, intern(texts, block)?, elements, size))
}

#[tactic(auto, unfolding(trace_model::specs::Plain::realloc_at))]
fn realloc(texts: &mut Texts, domain: &[u8], block: &[u8], size: &[u8]) -> Result<Op, LineError>
    requires { length texts.old < 2 ^ 32 - 1 }
    ensures grows { Extends texts.old texts.new }
    ensures op { Gives (action_of texts.new) result (realloc_at domain.now block.now size.now) }
    ensures table { IfOk result (AddsTexts texts.old texts.new) }
    ensures known { IfOk result (IsKnownOp texts.new) }
{
    let domain = letter(domain)?;
    name(block)?;
    let size = number(size)?;
    Ok(Op::Realloc(domain, intern(texts, block)?, size))
}

#[tactic(auto, unfolding(trace_model::specs::Plain::free_at))]
fn free(texts: &mut Texts, domain: &[u8], block: &[u8]) -> Result<Op, LineError>
    requires { length texts.old < 2 ^ 32 - 1 }
    ensures grows { Extends texts.old texts.new }
    ensures op { Gives (action_of texts.new) result (free_at domain.now block.now) }
    ensures table { IfOk result (AddsTexts texts.old texts.new) }
    ensures known { IfOk result (IsKnownOp texts.new) }
{
    let domain = letter(domain)?;
    name(block)?;
    Ok(Op::Free(domain, intern(texts, block)?))
}

// Refuses a poke that would write a domain's letter where a block keeps its own.
fn refuse_forged(at: &i64, bytes: &List<u8>) -> Result<(), TraceCause>
    ensures { result ≡ (if is_forged at.now bytes.now then Err ForgedLetter else Ok tt) }
{
    if *at == -8 && matches!(bytes.as_slice().first(), Some(b'r' | b'm' | b'o')) {
        return Err(TraceCause::ForgedLetter);
    }
    Ok(())
}

#[tactic(auto, unfolding(trace_model::specs::Plain::poke_at))]
fn poke(
    alloc: Global,
    texts: &mut Texts,
    block: &[u8],
    at: &[u8],
    digits: &[u8],
) -> Result<Op, LineError>
    requires { length texts.old < 2 ^ 32 - 1 }
    ensures grows { Extends texts.old texts.new }
    ensures op { Gives (action_of texts.new) result (poke_at block.now at.now digits.now) }
    ensures table { IfOk result (AddsTexts texts.old texts.new) }
    ensures known { IfOk result (IsKnownOp texts.new) }
{
    name(block)?;
    let at = offset(at)?;
    let bytes = hex(alloc, digits)?;
    refuse_forged(&at, &bytes)?;
    Ok(Op::Poke(intern(texts, block)?, at, bytes))
}

#[tactic(auto, unfolding(trace_model::specs::Plain::peek_at))]
fn peek(texts: &mut Texts, block: &[u8], at: &[u8], size: &[u8]) -> Result<Op, LineError>
    requires { length texts.old < 2 ^ 32 - 1 }
    ensures grows { Extends texts.old texts.new }
    ensures op { Gives (action_of texts.new) result (peek_at block.now at.now size.now) }
    ensures table { IfOk result (AddsTexts texts.old texts.new) }
    ensures known { IfOk result (IsKnownOp texts.new) }
{
    name(block)?;
    let at = offset(at)?;
    let size = count(size)?;
    Ok(Op::Peek(intern(texts, block)?, at, size))
}

// It names no block, so it is the same with every table.
#[tactic(auto, unfolding(trace_model::specs::Plain::refuse_at))]
fn refuse(source: &[u8], request: &[u8]) -> Result<Op, LineError>
    ensures op { (texts : List Name) → Gives (action_of texts) result (refuse_at source.now request.now) }
    ensures none { IfOk result (λ op. (texts : List Name) → says (action_of texts op) ≡ []) }
    ensures known { IfOk result (λ op. (texts : List Name) → IsKnownOp texts op) }
{
    let source = side(source)?;
    Ok(Op::Refuse(source, refusal(request)?))
}

#[tactic(auto, unfolding(trace_model::specs::Plain::enter_at))]
fn enter(texts: &mut Texts, path: &[u8], line: &[u8]) -> Result<Op, LineError>
    requires { length texts.old < 2 ^ 32 - 1 }
    ensures grows { Extends texts.old texts.new }
    ensures op { Gives (action_of texts.new) result (enter_at path.now line.now) }
    ensures table { IfOk result (AddsTexts texts.old texts.new) }
    ensures known { IfOk result (IsKnownOp texts.new) }
{
    file(path)?;
    let line = line_number(line)?;
    Ok(Op::Enter(intern(texts, path)?, line))
}

#[tactic(auto, unfolding(trace_model::specs::Plain::go_to_at))]
fn go_to(line: &[u8]) -> Result<Op, LineError>
    ensures op { (texts : List Name) → Gives (action_of texts) result (go_to_at line.now) }
    ensures none { IfOk result (λ op. (texts : List Name) → says (action_of texts op) ≡ []) }
    ensures known { IfOk result (λ op. (texts : List Name) → IsKnownOp texts op) }
{
    Ok(Op::Line(line_number(line)?))
}

#[tactic(auto, unfolding(trace_model::specs::Plain::start_tracing_at))]
fn start(frames: &[u8]) -> Result<Op, LineError>
    ensures op { (texts : List Name) → Gives (action_of texts) result (start_tracing_at frames.now) }
    ensures none { IfOk result (λ op. (texts : List Name) → says (action_of texts op) ≡ []) }
    ensures known { IfOk result (λ op. (texts : List Name) → IsKnownOp texts op) }
{
    Ok(Op::Start(limit(frames)?))
}

#[tactic(auto, unfolding(trace_model::specs::Plain::mark_at))]
fn mark(space: &[u8], own: &[u8], size: &[u8]) -> Result<Op, LineError>
    ensures op { (texts : List Name) → Gives (action_of texts) result (mark_at space.now own.now size.now) }
    ensures none { IfOk result (λ op. (texts : List Name) → says (action_of texts op) ≡ []) }
    ensures known { IfOk result (λ op. (texts : List Name) → IsKnownOp texts op) }
{
    let space = domain(space)?;
    let own = number(own)?;
    Ok(Op::Mark(space, own, number(size)?))
}

#[tactic(auto, unfolding(trace_model::specs::Plain::unmark_at))]
fn unmark(space: &[u8], own: &[u8]) -> Result<Op, LineError>
    ensures op { (texts : List Name) → Gives (action_of texts) result (unmark_at space.now own.now) }
    ensures none { IfOk result (λ op. (texts : List Name) → says (action_of texts op) ≡ []) }
    ensures known { IfOk result (λ op. (texts : List Name) → IsKnownOp texts op) }
{
    let space = domain(space)?;
    Ok(Op::Unmark(space, number(own)?))
}

#[tactic(auto, unfolding(trace_model::specs::Plain::origin_at))]
fn origin(texts: &mut Texts, block: &[u8]) -> Result<Op, LineError>
    requires { length texts.old < 2 ^ 32 - 1 }
    ensures grows { Extends texts.old texts.new }
    ensures op { Gives (action_of texts.new) result (origin_at block.now) }
    ensures table { IfOk result (AddsTexts texts.old texts.new) }
    ensures known { IfOk result (IsKnownOp texts.new) }
{
    name(block)?;
    Ok(Op::Origin(intern(texts, block)?))
}

#[tactic(auto, unfolding(trace_model::specs::Plain::snapshot_at))]
fn snapshot(texts: &mut Texts, new: &[u8]) -> Result<Op, LineError>
    requires { length texts.old < 2 ^ 32 - 1 }
    ensures grows { Extends texts.old texts.new }
    ensures op { Gives (action_of texts.new) result (snapshot_at new.now) }
    ensures table { IfOk result (AddsTexts texts.old texts.new) }
    ensures known { IfOk result (IsKnownOp texts.new) }
{
    name(new)?;
    Ok(Op::Snapshot(intern(texts, new)?))
}

#[tactic(auto, unfolding(trace_model::specs::Plain::keep_at))]
fn keep(
    alloc: Global,
    texts: &mut Texts,
    new: &[u8],
    old: &[u8],
    words: &[&[u8]],
) -> Result<Op, LineError>
    requires { length texts.old < 2 ^ 32 - 2 }
    ensures grows { Extends texts.old texts.new }
    ensures op { Gives (action_of texts.new) result (keep_at new.now old.now (map (λ w. w.now) words.now)) }
    ensures table { IfOk result (AddsTexts texts.old texts.new) }
    ensures known { IfOk result (IsKnownOp texts.new) }
{
    name(new)?;
    name(old)?;
    let rules = rules(alloc, words)?;
    let new = intern(texts, new)?;
    let old = intern(texts, old)?;
    Ok(Op::Keep(new, old, rules))
}

#[tactic(auto, unfolding(trace_model::specs::Plain::stats_at))]
fn stats(
    texts: &mut Texts,
    snapshot: &[u8],
    by: &[u8],
    how: &[u8],
    lines: &[u8],
) -> Result<Op, LineError>
    requires { length texts.old < 2 ^ 32 - 1 }
    ensures grows { Extends texts.old texts.new }
    ensures op { Gives (action_of texts.new) result (stats_at snapshot.now by.now how.now lines.now) }
    ensures table { IfOk result (AddsTexts texts.old texts.new) }
    ensures known { IfOk result (IsKnownOp texts.new) }
{
    name(snapshot)?;
    let key = key(by)?;
    let cumulative = mode(key, how)?;
    let most = most(lines)?;
    Ok(Op::Stats(intern(texts, snapshot)?, key, cumulative, most))
}

#[tactic(auto, unfolding(trace_model::specs::Plain::compare_at))]
fn compare(
    texts: &mut Texts,
    new: &[u8],
    old: &[u8],
    by: &[u8],
    how: &[u8],
    lines: &[u8],
) -> Result<Op, LineError>
    requires { length texts.old < 2 ^ 32 - 2 }
    ensures grows { Extends texts.old texts.new }
    ensures op { Gives (action_of texts.new) result (compare_at new.now old.now by.now how.now lines.now) }
    ensures table { IfOk result (AddsTexts texts.old texts.new) }
    ensures known { IfOk result (IsKnownOp texts.new) }
{
    name(new)?;
    name(old)?;
    let key = key(by)?;
    let cumulative = mode(key, how)?;
    let most = most(lines)?;
    let new = intern(texts, new)?;
    let old = intern(texts, old)?;
    Ok(Op::Compare(new, old, key, cumulative, most))
}

#[tactic(auto, unfolding(trace_model::specs::Plain::dump_at))]
fn dump(texts: &mut Texts, snapshot: &[u8]) -> Result<Op, LineError>
    requires { length texts.old < 2 ^ 32 - 1 }
    ensures grows { Extends texts.old texts.new }
    ensures op { Gives (action_of texts.new) result (dump_at snapshot.now) }
    ensures table { IfOk result (AddsTexts texts.old texts.new) }
    ensures known { IfOk result (IsKnownOp texts.new) }
{
    name(snapshot)?;
    Ok(Op::Dump(intern(texts, snapshot)?))
}

/// The operation that the words after the keyword name.
#[tactic(auto, unfolding(trace_model::specs::Plain::action_at))]
pub fn read_op(
    alloc: Global,
    texts: &mut Texts,
    keyword: Keyword,
    words: &[&[u8]],
) -> Result<Op, LineError>
    requires { length texts.old < 2 ^ 32 - 2 }
    ensures grows { Extends texts.old texts.new }
    ensures op { Gives (action_of texts.new) result (action_at keyword (map (λ w. w.now) words.now)) }
    ensures table { IfOk result (AddsTexts texts.old texts.new) }
    ensures known { IfOk result (IsKnownOp texts.new) }
{
    match (keyword, words) {
        (Keyword::Acquire, []) => Ok(Op::Acquire),
        (Keyword::Release, []) => Ok(Op::Release),
        (Keyword::Malloc, [domain, block, size]) => malloc(texts, domain, block, size),
        (Keyword::Calloc, [domain, block, elements, size]) => {
            calloc(texts, domain, block, elements, size)
        }
        (Keyword::Realloc, [domain, block, size]) => realloc(texts, domain, block, size),
        (Keyword::Free, [domain, block]) => free(texts, domain, block),
        (Keyword::Poke, [block, at, digits]) => poke(alloc, texts, block, at, digits),
        (Keyword::Peek, [block, at, size]) => peek(texts, block, at, size),
        (Keyword::Heap, []) => Ok(Op::Heap),
        (Keyword::Refuse, [source, request]) => refuse(source, request),
        (Keyword::Call, [path, line]) => enter(texts, path, line),
        (Keyword::Line, [line]) => go_to(line),
        (Keyword::Return, []) => Ok(Op::Leave),
        (Keyword::Start, [frames]) => start(frames),
        (Keyword::Stop, []) => Ok(Op::Stop),
        (Keyword::Clear, []) => Ok(Op::Clear),
        (Keyword::ResetPeak, []) => Ok(Op::ResetPeak),
        (Keyword::Traced, []) => Ok(Op::Traced),
        (Keyword::Mark, [space, own, size]) => mark(space, own, size),
        (Keyword::Unmark, [space, own]) => unmark(space, own),
        (Keyword::Where, [block]) => origin(texts, block),
        (Keyword::Snapshot, [new]) => snapshot(texts, new),
        (Keyword::Keep, [new, old, words @ ..]) => keep(alloc, texts, new, old, words),
        (Keyword::Stats, [name, key, mode, most]) => stats(texts, name, key, mode, most),
        (Keyword::Compare, [new, old, key, mode, most]) => compare(
            texts, new, old, key, mode, most,
        ),
        (Keyword::Dump, [name]) => dump(texts, name),
        // Another number of operands: of those that have none, one, two, three, four and five, and of the one
        // that has rules behind two.
        (
            Keyword::Acquire
            | Keyword::Release
            | Keyword::Return
            | Keyword::Stop
            | Keyword::Clear
            | Keyword::ResetPeak
            | Keyword::Traced
            | Keyword::Heap,
            _,
        ) => Err(LineError::Wrong(TraceCause::BadWords)),
        (Keyword::Line | Keyword::Start | Keyword::Where | Keyword::Snapshot | Keyword::Dump, _) =>
            Err(LineError::Wrong(TraceCause::BadWords)),
        (Keyword::Free | Keyword::Call | Keyword::Unmark | Keyword::Refuse, _) => {
            Err(LineError::Wrong(TraceCause::BadWords))
        }
        (Keyword::Malloc | Keyword::Realloc | Keyword::Poke | Keyword::Peek | Keyword::Mark, _) =>
            Err(LineError::Wrong(TraceCause::BadWords)),
        (Keyword::Calloc | Keyword::Stats, _) => Err(LineError::Wrong(TraceCause::BadWords)),
        (Keyword::Compare, _) => Err(LineError::Wrong(TraceCause::BadWords)),
        (Keyword::Keep, _) => Err(LineError::Wrong(TraceCause::BadWords)),
    }
}
