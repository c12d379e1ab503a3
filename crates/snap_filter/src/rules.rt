//! Rules, as they are held against rows.
ghost use Rattle.std.specs.Prelude.{◌≡◌, ◌<◌, filter, length, map, All, IfOk};
ghost use Rattle.frame_stack.specs.Callers.{AreAmong};
ghost use Rattle.snap_filter.specs.Held.{domain_in, held_rule, is_about, stays, HasTrace};

use crate::frames::{FrameTest, is_or_none};
use crate::matcher::Matcher;
use frame_stack::Tracebacks;
use mem_base::{Rule, Texts};
use std::alloc::{AllocError, Global};
use trace_table::{Row, TraceKey};

/// A rule that was read: whether it is for traces to keep, the domain that it is about or all, and what it
/// asks of the frames, if anything.
#[derive(Drop)]
pub struct HeldRule<'a> {
    inclusive: bool,
    domain: Option<u32>,
    frames: Option<FrameTest<'a>>,
}

// The domain of a key: that of the allocators, 0, or that of a marked number.
fn domain_of(key: TraceKey) -> u32
    ensures { result ≡ domain_in key }
{
    match key {
        TraceKey::Block(_) => 0,
        TraceKey::Number(domain, _) => domain,
    }
}

impl<'a> HeldRule<'a> {
    /// The rule, over the files and tracebacks of these tables. The error is that there was no memory.
    pub fn read(
        alloc: Global,
        rule: &'a Rule,
        texts: &'a Texts,
        table: &'a Tracebacks,
    ) -> Result<HeldRule<'a>, AllocError>
        requires { All (AreAmong (length texts.now)) table.now }
        ensures { IfOk result (λ r. r ≡ held_rule texts.now table.now rule.now) }
    {
        match rule {
            Rule::File {
                inclusive,
                all_frames,
                line,
                domain,
                pattern,
            } => {
                let files = Matcher::new(alloc, pattern.as_slice(), texts)?;
                let frames = FrameTest::new(alloc, files, *line, *all_frames, table)?;
                Ok(HeldRule {
                    inclusive: *inclusive,
                    domain: *domain,
                    frames: Some(frames),
                })
            }
            Rule::Domain { inclusive, domain } => Ok(HeldRule {
                inclusive: *inclusive,
                domain: Some(*domain),
                frames: None,
            }),
        }
    }

    /// Whether the rule is about the row.
    pub fn is_about(&mut self, row: &Row) -> bool
        requires { HasTrace row.now self.old }
        ensures answer { result ≡ is_about self.old row.now }
        ensures same { self.new ≡ self.old }
    {
        if !is_or_none(self.domain, domain_of(row.key)) {
            return false;
        }
        match &mut self.frames {
            Some(frames) => frames.fits(row.trace),
            None => true,
        }
    }
}

/// The rules, over the files and tracebacks of these tables. The error is that there was no memory.
pub fn read_all<'a>(
    alloc: Global,
    rules: &'a [Rule],
    texts: &'a Texts,
    table: &'a Tracebacks,
) -> Result<Vec<HeldRule<'a>>, AllocError>
    requires { All (AreAmong (length texts.now)) table.now }
    ensures { IfOk result (λ v. v.items ≡ map (held_rule texts.now table.now) rules.now) }
{
    let mut held = Vec::new(alloc);
    for rule in rules {
        held.push(HeldRule::read(alloc, rule, texts, table)?)?;
    }
    Ok(held)
}

// Whether the row stays under the rules.
fn stays(rules: &mut [HeldRule<'_>], row: &Row) -> bool
    requires { All (HasTrace row.now) rules.old }
    ensures answer { result ≡ stays rules.old row.now }
    ensures same { rules.new ≡ rules.old }
{
    let mut wanted = false;
    let mut some_inclusive = false;
    for rule in rules.iter_mut() {
        let about = rule.is_about(row);
        if rule.inclusive {
            some_inclusive = true;
            wanted = wanted || about;
        } else if about {
            return false;
        }
    }
    wanted || !some_inclusive
}

/// The rows that stay under the rules, in their order. The error is that there was no memory.
pub fn rows_that_stay(
    alloc: Global,
    rules: &mut [HeldRule<'_>],
    rows: &[Row],
) -> Result<Vec<Row>, AllocError>
    requires { All (λ row. All (HasTrace row) rules.old) rows.now }
    ensures { IfOk result (λ v. v.items ≡ filter (stays rules.old) rows.now) }
{
    let mut kept = Vec::new(alloc);
    for row in rows {
        if stays(rules, row) {
            kept.push(*row)?;
        }
    }
    Ok(kept)
}
