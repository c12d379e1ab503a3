//! What was read so far, one line more at a time: the trace, and how much it has of what is limited.
//!
//! A line begins a track, is an operation of the last track, or picks a track. Its words are looked at in
//! the order in which their faults count: the first word, its place among the lines, that no word is
//! empty, and then the operands. Whether an operation has the frame that it speaks of, and whether there is
//! room for it, is asked last.
ghost use Rattle.std.specs.Prelude.{◌≡◌, ◌+◌, ◌<◌, ◌≤◌, ◌-◌, ◌^◌, length, map, IfOk, OnOk, Ok, Err, false};
ghost use Rattle.std.specs.Prelude.{if◌then◌else◌};
ghost use Rattle.std.specs.List.{list_any, AllByRecursion};
ghost use Rattle.mem_base.specs.declared.limits.TheConstants.{MAX_TRACKS as most_tracks};
ghost use Rattle.trace_model.specs.Plain.{plain, tracks_of};
ghost use Rattle.trace_model.specs.Reading.{line_at, words_at, item_at, start, start_at, pick_at, index_of};
ghost use Rattle.trace_model.specs.Reading.{is_empty, opening};
ghost use Rattle.trace_model.specs.Reading as Reading;
ghost use Rattle.trace_model.specs.declared.keyword.Head.TheVariants as heads;
ghost use Rattle.trace_reader.specs.Answers.{Gives};
ghost use Rattle.trace_reader.specs.Progress.{IsKnownSoFar, IsKnownTrack, with_op};

use crate::counts::Counts;
use crate::error::LineError;
use crate::operands::{head, name, times};
use crate::operations::{intern, read_op};
use crate::words::cut;
use mem_base::limits::{MAX_PICKS, MAX_TRACKS};
use mem_base::{List, Op, Pick, Texts, Trace, Track, TrackId};
use std::alloc::{AllocError, Global};
use trace_model::{Head, Keyword, TraceCause};

/// What was read so far.
#[derive(Drop)]
pub struct Progress {
    pub trace: Trace,
    pub counts: Counts,
}

// Adds an operation to the last track.
fn push_op(tracks: &mut List<Track>, op: Op) -> Result<(), AllocError>
    requires { 0 < length tracks.old }
    ensures { OnOk result (tracks.new ≡ with_op tracks.old op) }
{
    let Some(mut track) = tracks.pop() else {
        unreachable!()
    };
    track.ops.push(op)?;
    tracks.push(track)
}

// The track of that name.
fn track_named(texts: &Texts, tracks: &List<Track>, name: &[u8]) -> Result<TrackId, TraceCause>
    requires known { AllByRecursion (IsKnownTrack texts.now) tracks.now }
    requires few { length tracks.now ≤ most_tracks }
    ensures { result ≡ index_of (tracks_of texts.now tracks.now) name.now }
{
    let mut at = 0;
    while let Some(track) = tracks.get(at) {
        if texts.get(track.name) == name {
            return Ok(at as TrackId);
        }
        at += 1;
    }
    Err(TraceCause::NoTrack)
}

fn has_empty(words: &[&[u8]]) -> bool
    ensures { result ≡ list_any (λ w. is_empty w.now) words.now }
{
    words.iter().any(|w| w.is_empty())
}

impl Progress {
    /// A trace of which the header alone was read.
    pub fn new(alloc: Global) -> Result<Progress, AllocError>
        ensures known { IfOk result IsKnownSoFar }
        ensures none { IfOk result (λ p. plain p.trace ≡ opening) }
    {
        Ok(Progress {
            trace: Trace {
                texts: Texts::new(alloc)?,
                tracks: List::new(alloc),
                picks: List::new(alloc),
            },
            counts: Counts::new(alloc),
        })
    }

    /// Takes one more line, without its end. Its words go into the buffer, in place of what it held.
    #[tactic(auto, using(crate::proofs::LineSteps::line_is))]
    pub fn line<'a>(
        &mut self,
        alloc: Global,
        line: &'a [u8],
        words: &mut Vec<&'a [u8]>,
    ) -> Result<(), LineError>
        requires { IsKnownSoFar self.old }
        ensures known { OnOk result (IsKnownSoFar self.new) }
        ensures read { Gives (λ _. plain self.new.trace) result (line_at (plain self.old.trace) line.now) }
    {
        cut(line, words)?;
        self.words(alloc, words.as_slice())
    }

    // Takes the words of a line.
    #[tactic(auto, using(crate::proofs::Growth::any_map))]
    fn words(&mut self, alloc: Global, words: &[&[u8]]) -> Result<(), LineError>
        requires { IsKnownSoFar self.old }
        ensures known { OnOk result (IsKnownSoFar self.new) }
        ensures read { Gives (λ _. plain self.new.trace) result
            (words_at (plain self.old.trace) (map (λ w. w.now) words.now)) }
    {
        let Some((first, operands)) = words.split_first() else {
            return Err(LineError::Wrong(TraceCause::UnknownWord));
        };
        let head = head(first)?;
        if self.is_misplaced(head) {
            return Err(LineError::Wrong(TraceCause::Misplaced));
        }
        if has_empty(operands) {
            return Err(LineError::Wrong(TraceCause::BadWords));
        }
        self.item(alloc, head, operands)
    }

    // Whether the lines so far leave no place for a line that begins so.
    fn is_misplaced(&self, head: Head) -> bool
        ensures { result ≡ Reading.is_misplaced (plain self.now.trace) head }
    {
        match head {
            Head::Track => self.trace.picks.len() > 0,
            Head::Pick => false,
            Head::Op(_) => self.trace.tracks.len() == 0 || self.trace.picks.len() > 0,
        }
    }

    // Takes the operands of a line.
    fn item(&mut self, alloc: Global, head: Head, words: &[&[u8]]) -> Result<(), LineError>
        requires known { IsKnownSoFar self.old }
        requires placed { Reading.is_misplaced (plain self.old.trace) head ≡ false }
        ensures known { OnOk result (IsKnownSoFar self.new) }
        ensures read { Gives (λ _. plain self.new.trace) result
            (item_at (plain self.old.trace) head (map (λ w. w.now) words.now)) }
    {
        match head {
            Head::Track => self.start(alloc, words),
            Head::Pick => self.pick(words),
            Head::Op(keyword) => self.action(alloc, keyword, words),
        }
    }

    // Begins a track.
    fn start(&mut self, alloc: Global, words: &[&[u8]]) -> Result<(), LineError>
        requires { IsKnownSoFar self.old }
        ensures known { OnOk result (IsKnownSoFar self.new) }
        ensures read { Gives (λ _. plain self.new.trace) result
            (start_at (plain self.old.trace) (map (λ w. w.now) words.now)) }
    {
        let [text] = words else {
            return Err(LineError::Wrong(TraceCause::BadWords));
        };
        name(text)?;
        self.begin(alloc, text)
    }

    // Begins a track of that name.
    fn begin(&mut self, alloc: Global, text: &[u8]) -> Result<(), LineError>
        requires { IsKnownSoFar self.old }
        ensures known { OnOk result (IsKnownSoFar self.new) }
        ensures read { Gives (λ _. plain self.new.trace) result (start (plain self.old.trace) text.now) }
    {
        if track_named(&self.trace.texts, &self.trace.tracks, text).is_ok() {
            return Err(LineError::Wrong(TraceCause::SameTrack));
        }
        if self.trace.tracks.len() >= MAX_TRACKS {
            return Err(LineError::Wrong(TraceCause::TooMany));
        }
        let name = intern(&mut self.trace.texts, text)?;
        let ops = List::new(alloc);
        self.trace.tracks.push(Track { name, ops })?;
        self.counts.frames = 0;
        Ok(())
    }

    // Takes the operands of a pick.
    #[tactic(auto, unfolding(trace_model::specs::Reading::pick_at))]
    fn pick(&mut self, words: &[&[u8]]) -> Result<(), LineError>
        requires { IsKnownSoFar self.old }
        ensures known { OnOk result (IsKnownSoFar self.new) }
        ensures read { Gives (λ _. plain self.new.trace) result
            (pick_at (plain self.old.trace) (map (λ w. w.now) words.now)) }
    {
        let [text, number] = words else {
            return Err(LineError::Wrong(TraceCause::BadWords));
        };
        name(text)?;
        let times = times(number)?;
        let track = track_named(&self.trace.texts, &self.trace.tracks, text)?;
        if self.counts.picks + times > MAX_PICKS {
            return Err(LineError::Wrong(TraceCause::TooMany));
        }
        self.trace.picks.push(Pick { track, times })?;
        self.counts.picks += times;
        Ok(())
    }

    // Takes the operands of an operation.
    fn action(&mut self, alloc: Global, keyword: Keyword, words: &[&[u8]]) -> Result<(), LineError>
        requires known { IsKnownSoFar self.old }
        requires placed { Reading.is_misplaced (plain self.old.trace) (heads.Op keyword) ≡ false }
        ensures known { OnOk result (IsKnownSoFar self.new) }
        ensures read { Gives (λ _. plain self.new.trace) result
            (item_at (plain self.old.trace) (heads.Op keyword) (map (λ w. w.now) words.now)) }
    {
        let op = read_op(alloc, &mut self.trace.texts, keyword, words)?;
        self.counts.add_op(&self.trace.texts, &op)?;
        push_op(&mut self.trace.tracks, op)?;
        Ok(())
    }
}
