//! What is asked of a store, and what it answers.
ghost use Rattle.std.specs.Prelude.{◌≡◌};
ghost use Rattle.domain_api.specs.Domains.{not_asked};

use domain_api::Asked;
use mem_base::{Ask, Grant, Letter, Reply};

/// A call of an allocation domain: the domain, and whether the caller owns the interpreter lock.
#[derive(Clone, Copy, Debug, PartialEq, Eq)]
pub struct Call {
    pub letter: Letter,
    pub locked: bool,
}

/// What an operation answers, and what the sources answered in it.
#[derive(Debug, Drop)]
pub struct Answer {
    pub reply: Reply,
    pub asked: Asked,
}

impl Answer {
    /// The answer of an operation that asked no source.
    pub fn unasked(reply: Reply) -> Answer
        ensures { result ≡ record { reply = reply; asked = not_asked } }
    {
        Answer {
            reply,
            asked: Asked {
                arena: Grant::NotAsked,
                raw: Ask::NotAsked,
            },
        }
    }
}
