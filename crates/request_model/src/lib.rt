//! What a call of a domain asks the memory sources for, and when it asks them: the size that is too
//! great, the interpreter lock, the finding of a check, and the requests that are left. The
//! definitions stand in `specs/`; the functions here are the laws that tie them together.
//!
//! A call for a new block of n bytes, or for another size of a block, comes to one of three things:
//!
//! | First that holds | The call |
//! |---|---|
//! | n is over 9,223,372,036,854,775,807 | is null |
//! | its domain is mem or object, and its track lacks the interpreter lock | is a fault |
//! | the check of its block finds damage | is a fault |
//! | n leaves no room for the 24 bytes of the hooks | is null |
//! | none of these | may ask the sources |
//!
//! A realloc that may ask leaves a block of a pool where it is if its bytes fit there and are more than
//! three quarters of the block. Any other block moves: one of a pool asks as a new block does, one of a
//! raw region asks for a raw region again (`pymalloc_realloc` and `_PyObject_Realloc`).
//!
//! In `Objects/obmalloc.c` the first three rows are `PyMem_Malloc` and its kin (the greatest size), and
//! `_PyMem_DebugCheckGIL`, `_PyMem_DebugCheckAddress` and `_PyMem_DebugRawAlloc` of the debug hooks.
#![tactic(auto)]

ghost use Rattle.request_model.specs.Laws.{TooGreatExactly, FaultsExactly, AsksExactly, FitsInPlaceExactly};
ghost use Rattle.request_model.specs.Laws.{ThreeQuartersMove, OneMoreCounts, FewAreAsked};

/// When a size is too great, when a call comes to its fault, and when a source may be asked.
pub fn sizes_and_faults_decide()
    ensures too_great { TooGreatExactly }
    ensures faults { FaultsExactly }
    ensures asks { AsksExactly }
{}

/// Where a block of a pool may stay for a realloc.
pub fn more_than_three_quarters_stay()
    ensures exactly { FitsInPlaceExactly }
    ensures edge { ThreeQuartersMove }
{}

/// What one more entry adds to the requests of a history.
pub fn one_more_entry_counts()
    ensures counts { OneMoreCounts }
    ensures few { FewAreAsked }
{}
