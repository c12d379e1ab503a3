//! The rules of an operation that keeps traces. A rule is one word, whose parts stand between commas:
//!
//! ```text
//!  in , SCOPE , LINE , DOMAIN , PATTERN        in-domain , DOMAIN
//!  ex , SCOPE , LINE , DOMAIN , PATTERN        ex-domain , DOMAIN
//! ```
//!
//! A word is cut at one comma after the other, so each of its bytes is looked at once or twice, and its
//! parts stay where they are in the line. Only a pattern is copied, once all other parts are fine. The
//! pattern comes last, so that it may have commas. A word that is no rule has one cause for all faults.
ghost use Rattle.std.specs.Prelude.{◌≡◌, ◌≤◌, ◌-◌, ◌^◌, List, map, Bool, IfOk};
ghost use Rattle.std.specs.Option.{option_map};
ghost use Rattle.trace_model.specs.Operands.{is_file};
ghost use Rattle.trace_model.specs.Rules.{Cut, cut_at, star_or, scope_in, file_rule_in, domain_rule_in};
ghost use Rattle.trace_model.specs.Rules.{or_bad, rule_at, rules_at};
ghost use Rattle.trace_reader.specs.Answers.{Gives};
ghost use Rattle.trace_reader.specs.Rules.{rule_of};

use crate::error::LineError;
use crate::operands::{is_file, number_in};
use mem_base::limits::MAX_LINE;
use mem_base::{List, Rule};
use memchr::memchr;
use std::alloc::{AllocError, Global};
use trace_model::TraceCause;

// A rule that looks at files, whose pattern is still in the line.
#[derive(Clone, Copy, Debug)]
struct FileRule<'a> {
    all_frames: bool,
    line: Option<u32>,
    domain: Option<u32>,
    pattern: &'a [u8],
}

impl FileRule<'_> {
    // The rule with a pattern of its own.
    fn to_rule(&self, alloc: Global, inclusive: bool) -> Result<Rule, AllocError>
        ensures { IfOk result (λ r. r ≡ rule_of inclusive self.now) }
    {
        Ok(Rule::File {
            inclusive,
            all_frames: self.all_frames,
            line: self.line,
            domain: self.domain,
            pattern: List::from_slice(alloc, self.pattern)?,
        })
    }
}

// What stands before the first comma, and what stands behind it.
fn cut(word: &[u8]) -> Option<(&[u8], &[u8])>
    ensures { option_map (λ x. record { front = x.0.now; behind = x.1.now }) result ≡ cut_at word.now }
{
    match memchr(b',', word) {
        Some(at) => Some((&word[..at], &word[at + 1..])),
        None => None,
    }
}

// A number of at most so much, or a star for any.
fn number_or_star(word: &[u8], most: u32) -> Option<Option<u32>>
    ensures { result ≡ star_or most word.now }
{
    if word == b"*".as_slice() {
        return Some(None);
    }
    match number_in(word, 0, u64::from(most)) {
        Ok(number) => Some(Some(number as u32)),
        Err(_) => None,
    }
}

// Whether a rule looks at all frames that are kept, and not at the most recent one alone.
fn scope(word: &[u8]) -> Option<bool>
    ensures { result ≡ scope_in word.now }
{
    if word == b"all".as_slice() {
        Some(true)
    } else if word == b"top".as_slice() {
        Some(false)
    } else {
        None
    }
}

// What a rule that looks at files says behind its first part.
#[tactic(auto, unfolding(trace_model::specs::Rules::file_rule_in))]
fn file_rule(word: &[u8]) -> Option<FileRule<'_>>
    ensures { (inclusive : Bool) → option_map (rule_of inclusive) result ≡ file_rule_in inclusive word.now }
{
    let (front, rest) = cut(word)?;
    let all_frames = scope(front)?;
    let (front, rest) = cut(rest)?;
    let line = number_or_star(front, MAX_LINE)?;
    let (front, pattern) = cut(rest)?;
    let domain = number_or_star(front, u32::MAX)?;
    if !is_file(pattern) {
        return None;
    }
    Some(FileRule {
        all_frames,
        line,
        domain,
        pattern,
    })
}

// A rule that looks at files, from what stands behind its first part.
fn file(alloc: Global, inclusive: bool, word: &[u8]) -> Result<Rule, LineError>
    ensures { Gives (λ r. r) result (or_bad (file_rule_in inclusive word.now)) }
{
    match file_rule(word) {
        Some(found) => Ok(found.to_rule(alloc, inclusive)?),
        None => Err(LineError::Wrong(TraceCause::BadRule)),
    }
}

// A rule that looks at domains, from what stands behind its first part.
#[tactic(auto, unfolding(trace_model::specs::Rules::domain_rule_in))]
fn domain(inclusive: bool, word: &[u8]) -> Result<Rule, LineError>
    ensures { Gives (λ r. r) result (or_bad (domain_rule_in inclusive word.now)) }
{
    match number_in(word, 0, u32::MAX as u64) {
        Ok(number) => Ok(Rule::Domain {
            inclusive,
            domain: number as u32,
        }),
        Err(_) => Err(LineError::Wrong(TraceCause::BadRule)),
    }
}

// The rule that a word spells.
#[tactic(auto, unfolding(trace_model::specs::Rules::rule_at, trace_model::specs::Rules::rule_behind))]
fn rule(alloc: Global, word: &[u8]) -> Result<Rule, LineError>
    ensures { Gives (λ r. r) result (rule_at word.now) }
{
    let Some((front, behind)) = cut(word) else {
        return Err(LineError::Wrong(TraceCause::BadRule));
    };
    if front == b"in".as_slice() {
        file(alloc, true, behind)
    } else if front == b"ex".as_slice() {
        file(alloc, false, behind)
    } else if front == b"in-domain".as_slice() {
        domain(true, behind)
    } else if front == b"ex-domain".as_slice() {
        domain(false, behind)
    } else {
        Err(LineError::Wrong(TraceCause::BadRule))
    }
}

/// The rules that the words spell, one after the other.
pub fn rules(alloc: Global, words: &[&[u8]]) -> Result<List<Rule>, LineError>
    ensures { Gives (λ rs. rs) result (rules_at (map (λ w. w.now) words.now)) }
{
    let mut rules = List::new(alloc);
    for word in words {
        let rule = rule(alloc, word)?;
        rules.push(rule)?;
    }
    Ok(rules)
}
