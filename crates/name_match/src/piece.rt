//! The pieces of a pattern: a star, or what takes one byte.
ghost use Rattle.std.specs.Prelude.{◌≡◌, IfOk};
ghost use Rattle.name_match.specs.Pieces.{part_of};
ghost use Rattle.name_match.specs.Runs.{takes_byte};
ghost use Rattle.name_match.specs.Sets.{part_read};
ghost use Rattle.pattern_model.specs.Patterns.{bracket_part, first_part, set_after};

use crate::sets::{ByteSet, SetText, ranges, set_behind};
use std::alloc::{AllocError, Global};

/// A piece of a pattern.
#[derive(Drop)]
pub enum Piece {
    /// `*`: any bytes, also none.
    Any,
    /// `?`: any one byte.
    OneByte,
    /// The byte itself.
    Byte(u8),
    /// `[seq]` or `[!seq]`: one byte of the set.
    Set(ByteSet),
}

impl Piece {
    /// Whether the piece takes this one byte. A star takes bytes in another way.
    pub fn takes(&self, byte: u8) -> bool
        ensures { result ≡ takes_byte (part_of self.now) byte }
    {
        match self {
            Piece::Any => false,
            Piece::OneByte => true,
            Piece::Byte(own) => *own == byte,
            Piece::Set(set) => set.has(byte),
        }
    }
}

/// The piece that the byte begins in front of the text, and what stands behind it. The error is that there
/// was no memory.
pub fn first_piece(alloc: Global, first: u8, text: &[u8]) -> Result<(Piece, &[u8]), AllocError>
    ensures { IfOk result (λ p. part_read p ≡ first_part first text.now) }
{
    match first {
        b'*' => Ok((Piece::Any, text)),
        b'?' => Ok((Piece::OneByte, text)),
        b'[' => set_piece(alloc, text),
        _ => Ok((Piece::Byte(first), text)),
    }
}

// The piece that a `[` in front of the text begins.
fn set_piece(alloc: Global, text: &[u8]) -> Result<(Piece, &[u8]), AllocError>
    ensures { IfOk result (λ p. part_read p ≡ bracket_part (set_after text.now) text.now) }
{
    match set_behind(text) {
        Some(
            SetText {
                negated,
                members,
                behind,
            },
        ) => {
            let ranges = ranges(alloc, members)?;
            Ok((Piece::Set(ByteSet { negated, ranges }), behind))
        }
        None => Ok((Piece::Byte(b'['), text)),
    }
}
