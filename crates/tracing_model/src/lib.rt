//! What tracemalloc holds while it traces, and what an event leaves of it: `tracemalloc_start`,
//! `_PyTraceMalloc_Stop`, `clear_traces`, `reset_peak`, `PyTraceMalloc_Track` and `PyTraceMalloc_Untrack`
//! of `Modules/_tracemalloc.c`.
//!
//! A trace is a size with the frames of the call that asked for it, under a key: a block's name, or a
//! number that somebody marked in a domain of their own.
//!
//! ```text
//! key        size   frames                  total
//! block x     100   load.py:10 read.py:7       3
//! mark 7 64    20   load.py:10 read.py:7       3
//! ```
//!
//! While nothing is traced there are no traces and no sums. While tracing, the bytes that are traced are
//! summed up after each event, from the start of tracing, a clear or a reset of the peak on, and the peak is
//! the greatest of these sums. So a peak between two events counts, and one before the last reset does not.
//!
//! Unlike there, one table has the traces of all domains, and the sums are told by the events alone: what
//! tracing itself takes is not counted. The definitions stand in `specs/`; the functions are the laws.
#![tactic(auto)]

ghost use Rattle.tracing_model.specs.Laws.{KeysHoldTheirs, OnlyStartsBegin, PeakBegins};
ghost use Rattle.tracing_model.specs.Laws.{PeakRises, StayDistinct, SumsChangeByOne};

/// A key has the trace that it got, each other key has its own, no key comes to have two, and the sum of
/// all sizes changes by what the one key had and has.
pub fn keys_have_their_traces()
    ensures keys { KeysHoldTheirs }
    ensures distinct { StayDistinct }
    ensures sums { SumsChangeByOne }
{}

/// The peak is the greatest sum since tracing began, the traces were cleared or the peak was reset.
pub fn the_peak_follows_the_sums()
    ensures rises { PeakRises }
    ensures begins { PeakBegins }
{}

/// Tracing begins by a start alone.
pub fn only_a_start_begins()
    ensures { OnlyStartsBegin }
{}
