//! What a request comes to before a source is asked.
//!
//! The first of these that holds decides, as in `Objects/obmalloc.c`: a size over `PY_SSIZE_T_MAX` is
//! null in `PyMem_Malloc` and its kin, a call without the lock ends in `_PyMem_DebugCheckGIL`, damage
//! of its block in `_PyMem_DebugCheckAddress`, and a size that leaves no room for the hooks' bytes is
//! null in `_PyMem_DebugRawAlloc`. Where CPython ends the process, the call answers the fault.
ghost use Rattle.std.specs.Prelude.{◌≡◌};
ghost use Rattle.request_model.specs.Decision.{call_fault, decision};
ghost use Rattle.domain_api.specs.Domains.{plain_decision};

use mem_base::limits::{HOOK_BYTES, MAX_SIZE};
use mem_base::{Fault, Letter};

/// What a request comes to.
#[derive(Clone, Copy, Debug, PartialEq, Eq)]
pub(crate) enum Decision {
    TooGreat,
    Faults(Fault),
    Asks,
}

/// The fault of a call: its domain needs the lock, which its track does not own, or else what the
/// check of its block found, where it has a block.
pub(crate) fn fault_of_call(letter: Letter, locked: bool, found: Option<Fault>) -> Option<Fault>
    ensures { result ≡ call_fault letter locked found }
{
    match letter {
        Letter::Raw => found,
        Letter::Mem | Letter::Obj if locked => found,
        Letter::Mem | Letter::Obj => Some(Fault::Unlocked),
    }
}

/// What a request for n bytes comes to.
pub(crate) fn decide(letter: Letter, n: u64, locked: bool, found: Option<Fault>) -> Decision
    ensures { plain_decision result ≡ decision letter n locked found }
{
    if n > MAX_SIZE {
        return Decision::TooGreat;
    }
    match fault_of_call(letter, locked, found) {
        Some(fault) => Decision::Faults(fault),
        None if n > MAX_SIZE - HOOK_BYTES => Decision::TooGreat,
        None => Decision::Asks,
    }
}
