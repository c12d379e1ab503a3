//! What the calls of a domain answer.
use debug_guard::Guarded;
use mem_base::{Ask, Fault, Grant};

/// What the two sources answered in a call.
#[derive(Clone, Copy, Debug, PartialEq, Eq)]
pub struct Asked {
    pub arena: Grant,
    pub raw: Ask,
}

/// What a request for a block got.
pub enum Got {
    Block(Guarded),
    Null,
    Fault(Fault),
}

/// The answer to a request for a block.
pub struct Made {
    pub got: Got,
    pub asked: Asked,
}

/// The answer to the free of a block. After a fault the block is as it was.
pub enum Freed {
    Done,
    Fault(Guarded, Fault),
}

/// What the realloc of a block came to. Null and a fault leave the block as it was.
pub enum Moved {
    Block(Guarded),
    Null(Guarded),
    Fault(Guarded, Fault),
}

/// The answer to the realloc of a block.
pub struct MoveMade {
    pub got: Moved,
    pub asked: Asked,
}
