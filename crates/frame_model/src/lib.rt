//! The frames of a track, and what a trace of a block keeps of them: what `traceback_get_frames` of
//! `Modules/_tracemalloc.c` reads.
//!
//! A track's frames stand from the oldest to the most recent one. A trace keeps the most recent ones,
//! as many as tracing was started with, and the number of all frames beside them:
//!
//! ```text
//! frames    main.py:3   load.py:10   read.py:7        three calls deep
//! limit 2               load.py:10   read.py:7        kept, of 3
//! ```
//!
//! A track without frames has the one frame `<unknown>`, line 0, and the number 1. Unlike there, where
//! a frame is read from the interpreter's own, the operations of a trace say when a frame comes, goes on
//! to another line and goes.
//!
//! The definitions in `specs/` say this of frames of any kind, so of file names and of their numbers in a
//! table alike. The functions here are the laws.
#![tactic(auto)]

ghost use Rattle.frame_model.specs.Laws.{CallsCome, KeepsTheLatest, KeepsSoMany, NumbersKeepFrames};

/// A frame that came and goes leaves the frames as they were; another line leaves those below it.
pub fn calls_come_and_go<F>()
    ensures { CallsCome F }
{}

/// What is kept are the last frames, as many as the limit or as there are; of no frames it is the
/// unknown one.
pub fn the_latest_are_kept<F>()
    ensures latest { KeepsTheLatest F }
    ensures count { KeepsSoMany F }
{}

/// Frames that are named in another way keep their order, so the same ones are kept of them.
pub fn names_keep_frames<F, G>()
    ensures { NumbersKeepFrames F G }
{}
