//! Answers that are kept by number once they are found.
ghost use Rattle.std.specs.Prelude.{◌≡◌, ◌<◌, length, replicate, slice_index_or, slice_set, IfOk, Some, None};

use std::alloc::{AllocError, Global};
use std::marker::Model;

/// Answers by number, from 0, seen as their list. `None` is an answer that was not found yet.
#[derive(Drop)]
pub struct Known {
    answers: Vec<Option<bool>>,
}

impl Model for Known {
    ghost use Rattle.std.specs.Prelude.{Bool, List, Option};

    ghost Value = { List (Option Bool) };

    ghost view = { λ k. k.answers.items };
}

impl Known {
    /// Room for so many answers, none of which was found yet. The error is that there was no memory.
    pub fn new(alloc: Global, many: usize) -> Result<Known, AllocError>
        ensures { IfOk result (λ k. k ≡ replicate many None) }
    {
        Ok(Known {
            answers: vec![in alloc; None; many]?,
        })
    }

    /// The answer with that number, where it was found.
    pub fn get(&self, number: u32) -> Option<bool>
        ensures { result ≡ slice_index_or self.now number None }
    {
        match self.answers.get(number as usize) {
            Some(answer) => *answer,
            None => None,
        }
    }

    /// Keeps the answer with that number.
    pub fn put(&mut self, number: u32, answer: bool)
        requires { number < length self.old }
        ensures { self.new ≡ slice_set self.old number (Some answer) }
    {
        self.answers[number as usize] = Some(answer);
    }
}
