//! A pattern and its match.
ghost use Rattle.std.specs.Prelude.{◌≡◌, IfOk};
ghost use Rattle.pattern_model.specs.Patterns.{as_source, match_parts, parts_of};

use crate::matching::match_whole;
use crate::piece::{Piece, first_piece};
use std::alloc::{AllocError, Global};
use std::marker::Model;

/// A pattern of file names, seen as the list of its parts.
#[derive(Drop)]
pub struct Pattern {
    pieces: Vec<Piece>,
}

impl Model for Pattern {
    ghost use Rattle.std.specs.Prelude.{List};
    ghost use Rattle.name_match.specs.Pieces.{parts_held};
    ghost use Rattle.pattern_model.specs.Patterns.{Part};

    ghost Value = { List Part };

    ghost view = { λ p. parts_held p.pieces.items };
}

impl Pattern {
    /// The pattern of the text; every text is one. The error is that there was no memory.
    pub fn read(alloc: Global, text: &[u8]) -> Result<Pattern, AllocError>
        ensures { IfOk result (λ p. p ≡ parts_of (as_source text.now)) }
    {
        let mut pieces = Vec::new(alloc);
        let mut rest = as_source(text);
        while let [first, after @ ..] = rest {
            let (piece, behind) = first_piece(alloc, *first, after)?;
            pieces.push(piece)?;
            rest = behind;
        }
        Ok(Pattern { pieces })
    }

    /// Whether the pattern matches the whole name of the file.
    pub fn matches(&self, file: &[u8]) -> bool
        ensures { result ≡ match_parts self.now (as_source file.now) }
    {
        match_whole(self.pieces.as_slice(), as_source(file))
    }
}

// The text as it is compared: a `.pyc` at its end is read as `.py`.
fn as_source(text: &[u8]) -> &[u8]
    ensures { result.now ≡ as_source text.now }
{
    if text.ends_with(b".pyc") {
        &text[..text.len() - 1]
    } else {
        text
    }
}
