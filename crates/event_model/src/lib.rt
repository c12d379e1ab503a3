//! What the operations of a trace do and answer, which track may go on, and which histories are
//! legal. The definitions stand in `specs/`; the functions here are the laws over histories.
//!
//! Between two events a run has a state, of three parts that change for different reasons:
//!
//! | Part | Holds | Changes |
//! |---|---|---|
//! | `held` | blocks by name, layout of pools and arenas, the lock's owner, frames, what is traced, snapshots | by an operation |
//! | `done` | how many operations each track has done | after each event that is no fault |
//! | `faulted` | whether a fault has come | with the first fault, which is the last event |
//!
//! An event is the next operation of a track, with what the sources answered. It comes in four steps:
//!
//! 1. `deed_of` says what the operation comes to: `malloc`, `calloc` and `realloc`, as an example, are all calls
//!    for a block. All that follows is said of that, so one more call for a block is one line there.
//!    `effect` says what the operation does to `held` and answers. It sees nothing else, so no operation
//!    can change `done` or `faulted`. An operation of a family works on that family's part alone:
//!    - memory (`malloc`, `calloc`, `realloc`, `free`, `poke`, `peek`): the block of one name, and the
//!      layout. This is what `_PyMem_DebugRawMalloc`, `_PyMem_DebugRawCalloc`, `_PyMem_DebugRawRealloc`,
//!      `_PyMem_DebugRawFree` and `_PyMem_DebugCheckAddress` do. `malloc`, `calloc` and `realloc` are one
//!      case, a call for a block: its domain, its size, what new data holds, and whether it goes on from
//!      the block that its name holds;
//!    - the lock (`acquire`, `release`): its owner, as `take_gil` and `drop_gil` do;
//!    - frames (`call`, `line`, `return`): the frames of its track, which are the call stack that
//!      `traceback_get_frames` reads. A line or a return of a track without frames changes nothing;
//!    - tracing (`start`, `stop`, `clear`, `reset_peak`, `traced`, `mark`, `unmark`, `where`): nothing here.
//!      `traced` answers what `_PyTraceMalloc_GetTracedMemory` does, and `where` what is kept under a
//!      block's name, as `_PyTraceMalloc_GetObjectTraceback` does;
//!    - snapshots (`snapshot`, `keep`, `stats`): the snapshot of one name. `snapshot` keeps what is traced then, as
//!      `_PyTraceMalloc_GetTraces` copies it, `keep` what rules leave of a snapshot, and `stats` answers its
//!      statistics, as `filter_traces` and `statistics` of `Lib/tracemalloc.py` do;
//!    - the heap's shape (`heap`): nothing, it reads what `_PyObject_DebugMallocStats` does;
//!    - refusals (`refuse`): nothing, the plan of refusals takes down which requests it lists.
//! 2. `follow` says what is traced then, by the operation, its reply and the frames of its track alone. So
//!    tracing watches the calls of the allocator from outside, as the hooks of tracemalloc do, and none of
//!    the other families knows of it. While anything is traced,
//!    - a call for a block that answers ok gives the block's name a trace of as many bytes as were asked
//!      for, with the most recent frames (`tracemalloc_alloc`, `tracemalloc_realloc`), and a free that
//!      answers ok takes it away (`tracemalloc_free`);
//!    - `mark` gives a number in a domain a trace and `unmark` takes it away, as `PyTraceMalloc_Track` and
//!      `PyTraceMalloc_Untrack` do;
//!    - after each event the bytes that are traced count for the peak.
//!
//!    `start`, `stop`, `clear` and `reset_peak` do what their functions in tracemalloc do.
//! 3. `settle` looks at the answer. A fault leaves all as it was, but that it has come: where the hooks
//!    end the process, the run ends, and what they met can be told.
//! 4. After any other answer `advance` counts the operation as done, and a track that has done its last
//!    one lets go of the lock.
//!
//! `act` is the first two steps. Frames and traces, by an example, where a trace keeps two frames:
//!
//! ```text
//! operation            frames of the track             traces
//! start 2              -                               -
//! call main.py 3       main.py:3                       -
//! call read.py 7       main.py:3 read.py:7             -
//! malloc m x 100       main.py:3 read.py:7             x: 100 bytes, main.py:3 read.py:7
//! return               main.py:3                       x: 100 bytes, main.py:3 read.py:7
//! free m x             main.py:3                       -
//! ```
//!
//! Which track does the next event is the schedule's choice. A trace has picks, a list of tracks, and the
//! schedule passes over those that are not ready and takes the first that is. Where no pick is left, it is
//! the first track that is ready, in the order of the trace. `Takes` says this of one event, and `Follows`
//! of a history. A track is ready unless it has done all its operations, or is to take the lock while
//! another track owns it.
//!
//! An entry of a history may come next where no fault has come, its track is ready, and each source
//! answered exactly where the operation asks it. A history is legal where each entry may come after
//! those before it.
#![tactic(auto)]

ghost use Rattle.event_model.specs.Laws.{OneMoreIsLegal, OneMoreState, OneMoreLeavesLess, LegalIsShort};
ghost use Rattle.event_model.specs.Laws.{FaultsChangeNothing, OthersBringNoFault, FaultIsLast};
ghost use Rattle.event_model.specs.Laws.{OtherNamesKeepTheirs, OnlyOkChangesBlocks, CallsGive};
ghost use Rattle.event_model.specs.Laws.{FreeTakes, OnlyAcquireWaits, OwnersGoOn, NoneReadyIsAllDone};
ghost use Rattle.event_model.specs.Laws.{TakesOne, OneMoreFollows, RunsAreStretches};
ghost use Rattle.event_model.specs.Laws.{LegalFollowsItsRuns, OneMoreIsPlanned, OneMoreHeeds};
ghost use Rattle.event_model.specs.Laws.{NullExactly, LegalIsSound, FewAreTaken, TracesAreOfBlocks};
ghost use Rattle.event_model.specs.Laws.{SnapshotsAreSound};

/// A legal history with one more entry that may come next is legal, leads to that entry's event, and
/// leaves less to do.
pub fn one_more_entry()
    ensures legal { OneMoreIsLegal }
    ensures state { OneMoreState }
    ensures less { OneMoreLeavesLess }
{}

/// A legal history is no longer than its tracks, but for a fault.
pub fn legal_is_short()
    ensures { LegalIsShort }
{}

/// A fault changes nothing but that it has come, and no other event says that one has.
pub fn faults_change_nothing()
    ensures fault { FaultsChangeNothing }
    ensures others { OthersBringNoFault }
{}

/// A fault is the last event of a legal history.
pub fn fault_is_last()
    ensures { FaultIsLast }
{}

/// An event leaves what all names hold but the one that its operation works on, and that one too where
/// it answers anything but ok. Where a call for a block answers ok its name holds a new block, or the one
/// that it held with as many bytes as the call says, and where free does its name holds nothing.
pub fn names_hold_what_they_got()
    ensures others { OtherNamesKeepTheirs }
    ensures only_ok { OnlyOkChangesBlocks }
    ensures calls { CallsGive }
    ensures free { FreeTakes }
{}

/// A track waits only to acquire the lock, and the lock's owner always has an operation left, so no track
/// waits for ever: where no track is ready, every operation of every track is done.
pub fn nothing_waits_for_ever()
    ensures waits { OnlyAcquireWaits }
    ensures owners { OwnersGoOn }
    ensures all { NoneReadyIsAllDone }
{}

/// The schedule takes one track for the next event, and a history with one more entry of that track
/// follows the same picks.
pub fn schedule_takes_one()
    ensures one { TakesOne }
    ensures more { OneMoreFollows }
{}

/// The runs of a history are the tracks of its entries, each as long as it can be; a legal history is the
/// one that they schedule.
pub fn runs_are_a_schedule()
    ensures stretches { RunsAreStretches }
    ensures follows { LegalFollowsItsRuns }
{}

/// What one more entry adds to the requests that a history wants to be refused, and to those that it
/// heeds.
pub fn one_more_request()
    ensures planned { OneMoreIsPlanned }
    ensures heeds { OneMoreHeeds }
{}

/// An event answers null exactly where it is a call for a block that is not busy, and the size is too
/// great or the raw source refused.
pub fn null_exactly()
    ensures { NullExactly }
{}

/// The layout of a legal history's last state is sound.
pub fn legal_layouts_are_sound()
    ensures { LegalIsSound }
{}

/// No more arenas are granted and no more pools taken than there are events.
pub fn few_are_taken()
    ensures { FewAreTaken }
{}

/// A trace under a block's name belongs to a live block of that name, and has as many bytes as its data.
pub fn traces_belong_to_blocks()
    ensures { TracesAreOfBlocks }
{}

/// Where the operations of each track are in their ranges, a snapshot rises by the keys of its traces, no two
/// of which are the same, and each trace keeps as many frames as its limit allows.
pub fn snapshots_are_sound()
    ensures { SnapshotsAreSound }
{}
