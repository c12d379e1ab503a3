//! The rules of an operation that keeps traces, as the trace that was read spells them: the parts of a rule
//! with commas between, and a blank before each rule.
//!
//! ```text
//! in,top,*,*,app*.py         keeps traces whose most recent frame's file matches
//! ex,all,12,7,lib.py         drops traces of domain 7 of which any kept frame is lib.py:12
//! in-domain,0                keeps traces of blocks
//! ```
ghost use Rattle.std.specs.Prelude.{◌≡◌, ◌++◌, ◌∷◌, OnOk, OnErr, decimal};
ghost use Rattle.std.specs.List.{flat_map, join_with_byte};
ghost use Rattle.trace_model.specs.Known.{IsKnown};
ghost use Rattle.trace_model.specs.Plain.{text_at, keep};
ghost use Rattle.trace_model.specs.Rules.{comma, domain_word, file_word, or_star, rule_word, scope_word};
ghost use Rattle.trace_model.specs.Spelling.{line_of, blank};
ghost use Rattle.line_text.specs.Texts.{StaysInFront};
ghost use Rattle.report_text.specs.Texts.{next_rule};

use crate::words::{push_keyword, push_name};
use line_text::push_number;
use mem_base::{Rule, TextId, Texts};
use std::alloc::AllocError;
use trace_model::Keyword;

// Whether a rule that looks at files is for traces to keep or to drop.
fn push_file_word(text: &mut Vec<u8>, inclusive: bool) -> Result<(), AllocError>
    ensures ok { OnOk result (text.new.items ≡ text.old.items ++ file_word inclusive) }
    ensures err { OnErr result (StaysInFront text.old.items text.new.items) }
{
    match inclusive {
        true => text.extend_from_slice(b"in"),
        false => text.extend_from_slice(b"ex"),
    }
}

// The same of a rule that looks at domains.
fn push_domain_word(text: &mut Vec<u8>, inclusive: bool) -> Result<(), AllocError>
    ensures ok { OnOk result (text.new.items ≡ text.old.items ++ domain_word inclusive) }
    ensures err { OnErr result (StaysInFront text.old.items text.new.items) }
{
    match inclusive {
        true => text.extend_from_slice(b"in-domain"),
        false => text.extend_from_slice(b"ex-domain"),
    }
}

// A comma, and whether all kept frames are looked at or the most recent one.
fn push_scope(text: &mut Vec<u8>, all_frames: bool) -> Result<(), AllocError>
    ensures ok { OnOk result (text.new.items ≡ text.old.items ++ comma ∷ scope_word all_frames) }
    ensures err { OnErr result (StaysInFront text.old.items text.new.items) }
{
    match all_frames {
        true => text.extend_from_slice(b",all"),
        false => text.extend_from_slice(b",top"),
    }
}

// A comma, and a number or a star for any.
fn push_or_star(text: &mut Vec<u8>, number: Option<u32>) -> Result<(), AllocError>
    ensures ok { OnOk result (text.new.items ≡ text.old.items ++ comma ∷ or_star number) }
    ensures err { OnErr result (StaysInFront text.old.items text.new.items) }
{
    text.push(b',')?;
    match number {
        Some(n) => push_number(text, u64::from(n)),
        None => text.extend_from_slice(b"*"),
    }
}

// A rule.
fn push_rule(text: &mut Vec<u8>, rule: &Rule) -> Result<(), AllocError>
    ensures ok { OnOk result (text.new.items ≡ text.old.items ++ rule_word rule.now) }
    ensures err { OnErr result (StaysInFront text.old.items text.new.items) }
{
    match rule {
        Rule::File {
            inclusive,
            all_frames,
            line,
            domain,
            pattern,
        } => {
            push_file_word(text, *inclusive)?;
            push_scope(text, *all_frames)?;
            push_or_star(text, *line)?;
            push_or_star(text, *domain)?;
            text.push(b',')?;
            text.extend_from_slice(pattern.as_slice())
        }
        Rule::Domain { inclusive, domain } => {
            push_domain_word(text, *inclusive)?;
            text.push(b',')?;
            push_number(text, u64::from(*domain))
        }
    }
}

// The rules, with a blank before each.
fn push_rules(text: &mut Vec<u8>, rules: &[Rule]) -> Result<(), AllocError>
    ensures ok { OnOk result (text.new.items ≡ text.old.items ++ flat_map next_rule rules.now) }
    ensures err { OnErr result (StaysInFront text.old.items text.new.items) }
{
    for rule in rules {
        text.push(b' ')?;
        push_rule(text, rule)?;
    }
    Ok(())
}

// The line of an operation that keeps under the first name what the rules leave of the second, without its
// end.
pub(crate) fn push_keep(
    text: &mut Vec<u8>,
    texts: &Texts,
    new: TextId,
    old: TextId,
    rules: &[Rule],
) -> Result<(), AllocError>
    requires new { IsKnown texts.now new }
    requires old { IsKnown texts.now old }
    ensures ok { OnOk result (text.new.items
        ≡ text.old.items ++ line_of (keep (text_at texts.now new) (text_at texts.now old) rules.now)) }
    ensures err { OnErr result (StaysInFront text.old.items text.new.items) }
{
    push_keyword(text, Keyword::Keep)?;
    push_name(text, texts, new)?;
    push_name(text, texts, old)?;
    push_rules(text, rules)
}
