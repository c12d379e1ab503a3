//! How much of what is limited a trace has. An operation is counted once, as it comes, so that no line is
//! read twice to keep the limits:
//!
//! ```text
//!  ops        all operations                     at most MAX_OPS
//!  reports    those that print more than a reply at most MAX_REPORTS
//!  picks      the picks, each as often as it says at most MAX_PICKS
//!  frames     the frames of the last track       at most MAX_FRAMES
//!  snapshots  the names of snapshots, each once  at most MAX_SNAPSHOTS
//! ```
//!
//! The names of snapshots are kept as their numbers in the trace's table. As no text stands there twice, two
//! names are the same where their numbers are.
ghost use Rattle.std.specs.Prelude.{◌≡◌, ◌≤◌, [], OnOk};
ghost use Rattle.std.specs.List.{AllByRecursion};
ghost use Rattle.mem_base.specs.Texts.{text_at, with_text};
ghost use Rattle.mem_base.specs.declared.limits.TheConstants.{MAX_FRAMES as most_frames};
ghost use Rattle.trace_model.specs.Plain.{has_few_rules, is_report};
ghost use Rattle.trace_model.specs.Known.{IsKnown, IsKnownOp};
ghost use Rattle.trace_reader.specs.Answers.{Gives};
ghost use Rattle.trace_reader.specs.Progress.{CountsWith, bare, place_for, snapshots_after, texts_at};

use crate::error::LineError;
use mem_base::limits::{MAX_FRAMES, MAX_OPS, MAX_REPORTS, MAX_RULES, MAX_SNAPSHOTS};
use mem_base::{List, Op, TextId, Texts};
use std::alloc::{AllocError, Global};
use trace_model::{Keyword, TraceCause, depth_after, needs_frame, writes};

/// How much of what is limited a trace has.
#[derive(Debug, Drop)]
pub struct Counts {
    /// The operations over all tracks.
    pub ops: usize,
    /// Those of them that print more than a reply.
    pub reports: usize,
    /// The picks, each as often as it says.
    pub picks: u32,
    /// The frames that the last track has.
    pub frames: u32,
    /// The names of the snapshots that operations write, over all tracks.
    pub snapshots: List<TextId>,
}

// Whether an operation prints more than a reply.
fn is_report(op: &Op) -> bool
    ensures { result ≡ is_report (bare op.now) }
{
    Keyword::of(op).prints_more()
}

// Whether an operation has no more rules than one may have.
fn has_few_rules(op: &Op) -> bool
    ensures { result ≡ has_few_rules (bare op.now) }
{
    match writes(op) {
        Some((_, rules)) => rules.len() <= MAX_RULES,
        None => true,
    }
}

// Adds a name to those with these numbers, where it is not among them.
fn add_name(texts: &Texts, names: &mut List<TextId>, name: TextId) -> Result<(), AllocError>
    requires among { AllByRecursion (IsKnown texts.now) names.old }
    requires is_known { IsKnown texts.now name }
    ensures names { OnOk result
        (texts_at texts.now names.new ≡ with_text (texts_at texts.now names.old) (text_at texts.now name)) }
    ensures known { OnOk result (AllByRecursion (IsKnown texts.now) names.new) }
{
    // Where names have one number they are the same, since no text stands in a table twice.
    let _count = texts.len();
    if names.as_slice().contains(&name) {
        return Ok(());
    }
    names.push(name)
}

impl Counts {
    /// Of a trace that has nothing yet.
    pub fn new(alloc: Global) -> Counts
        ensures { result ≡ record { ops = 0; reports = 0; picks = 0; frames = 0; snapshots = [] } }
    {
        Counts {
            ops: 0,
            reports: 0,
            picks: 0,
            frames: 0,
            snapshots: List::new(alloc),
        }
    }

    // Adds the name of the snapshot that an operation writes, where it writes one.
    fn add_snapshot(&mut self, texts: &Texts, op: &Op) -> Result<(), AllocError>
        requires among { AllByRecursion (IsKnown texts.now) self.old.snapshots }
        requires is_known { IsKnownOp texts.now op.now }
        ensures names { OnOk result
            (texts_at texts.now self.new.snapshots ≡ snapshots_after texts.now self.old.snapshots op.now) }
        ensures known { OnOk result (AllByRecursion (IsKnown texts.now) self.new.snapshots) }
        ensures others { self.new ≡ record self.old { snapshots = self.new.snapshots } }
    {
        match writes(op) {
            Some((name, _)) => add_name(texts, &mut self.snapshots, name),
            None => Ok(()),
        }
    }

    /// Counts one more operation, if it has the frame that it speaks of and there is room for it.
    pub fn add_op(&mut self, texts: &Texts, op: &Op) -> Result<(), LineError>
        requires frames { self.old.frames ≤ most_frames }
        requires among { AllByRecursion (IsKnown texts.now) self.old.snapshots }
        requires is_known { IsKnownOp texts.now op.now }
        ensures room { Gives (λ u. u) result (place_for texts.now self.old op.now) }
        ensures counts { OnOk result (CountsWith texts.now self.old op.now self.new) }
    {
        if needs_frame(op) && self.frames == 0 {
            return Err(LineError::Wrong(TraceCause::NoFrame));
        }
        self.add_snapshot(texts, op)?;
        let report = is_report(op);
        let frames = depth_after(self.frames, op);
        if self.ops >= MAX_OPS
            || report && self.reports >= MAX_REPORTS
            || self.snapshots.len() > MAX_SNAPSHOTS
            || !has_few_rules(op)
            || frames > MAX_FRAMES
        {
            return Err(LineError::Wrong(TraceCause::TooMany));
        }
        self.ops += 1;
        if report {
            self.reports += 1;
        }
        self.frames = frames;
        Ok(())
    }
}
