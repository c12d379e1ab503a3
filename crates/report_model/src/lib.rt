//! What is printed of a run: the text of each event, and the summary at its end. The definitions
//! stand in `specs/`, and here a law of them.
//!
//! The text of an event is a line with its number, its track, its line of the trace and its reply. A
//! fault tells below it what was found and, where it lies in a block, the block's name and size and the
//! eight bytes on both sides of its data, as `_PyObject_DebugDumpAddress` does; `heap` tells the usable
//! arenas and the pools of each class, as `_PyObject_DebugMallocStats` does; `where` tells the frames of a
//! block's trace, oldest first, as `tracemalloc.Traceback` has them:
//!
//! ```text
//! 2 main where x = frames 2 of 3
//!   load.py:10
//!   read.py:7
//! 3 main free m x = fault
//!   bad_tail 0
//!   block x size 2
//!   head 6dfdfdfdfdfdfdfd
//!   tail 00fdfdfdfdfdfdfd
//! ```
//!
//! The summary is five lines of totals. What a run prints of an event is a parameter of the texts of a
//! history, so that a run that prints something else of each event keeps the law.
#![tactic(auto)]

ghost use Rattle.report_model.specs.Laws.{OneMoreText};

/// Whatever is printed of each event, that of one more event comes last.
pub fn one_more_text()
    ensures { OneMoreText }
{}
