//! Sets of bytes, as `[seq]` and `[!seq]` in a pattern say them.
ghost use Rattle.std.specs.Prelude.{◌≡◌, ◌∷◌, ◌≤◌, length, map, option_map, IfOk};
ghost use Rattle.name_match.specs.Pieces.{set_held, stretch_of};
ghost use Rattle.name_match.specs.Sets.{cut_of, set_read};
ghost use Rattle.pattern_model.specs.Patterns.{has_byte, is_listed, is_within};
ghost use Rattle.pattern_model.specs.Patterns.{set_after, stretches, to_set_end};

use std::alloc::{AllocError, Global};

/// The bytes from the least to the greatest, none where the least is the greater.
#[derive(Clone, Copy)]
pub struct ByteRange {
    pub least: u8,
    pub greatest: u8,
}

impl ByteRange {
    /// Whether the byte is in the range.
    pub fn has(&self, byte: u8) -> bool
        ensures { result ≡ is_within (stretch_of self.now) byte }
    {
        self.least <= byte && byte <= self.greatest
    }
}

/// The bytes of some ranges, or where it is negated all other bytes.
#[derive(Drop)]
pub struct ByteSet {
    pub negated: bool,
    pub ranges: Vec<ByteRange>,
}

impl ByteSet {
    /// Whether the byte is in the set.
    pub fn has(&self, byte: u8) -> bool
        ensures { result ≡ has_byte (set_held self.now) byte }
    {
        if self.negated {
            !self.lists(byte)
        } else {
            self.lists(byte)
        }
    }

    // Whether the byte is in one of the ranges.
    fn lists(&self, byte: u8) -> bool
        ensures { result ≡ is_listed (map stretch_of self.now.ranges.items) byte }
    {
        for range in &self.ranges {
            if range.has(byte) {
                return true;
            }
        }
        false
    }
}

/// The text of a set: whether a `!` negates it, its members, and what stands behind its `]`.
pub struct SetText<'a> {
    pub negated: bool,
    pub members: &'a [u8],
    pub behind: &'a [u8],
}

// The members and what stands behind them, cut at the `]` that ends the set, if there is one. A `]` that
// stands first does not end it.
fn cut_at_end(text: &[u8]) -> Option<(&[u8], &[u8])>
    ensures { option_map cut_of result ≡ to_set_end text.now }
{
    for end in 1..text.len() {
        if text[end] == b']' {
            return Some((&text[..end], &text[end + 1..]));
        }
    }
    None
}

/// The set whose text stands behind a `[`, if it ends.
pub fn set_behind(text: &[u8]) -> Option<SetText<'_>>
    ensures { option_map set_read result ≡ set_after text.now }
{
    let (negated, listed) = match text {
        [b'!', listed @ ..] => (true, listed),
        _ => (false, text),
    };
    let (members, behind) = cut_at_end(listed)?;
    Some(SetText {
        negated,
        members,
        behind,
    })
}

// The range that the members begin with, and the members behind it.
fn first_range(first: u8, after: &[u8]) -> (ByteRange, &[u8])
    ensures read { stretches (first ∷ after.now) ≡ stretch_of result.0 ∷ stretches result.1.now }
    ensures within { length result.1.now ≤ length after.now }
{
    match after {
        [b'-', last, behind @ ..] => (
            ByteRange {
                least: first,
                greatest: *last,
            },
            behind,
        ),
        _ => (
            ByteRange {
                least: first,
                greatest: first,
            },
            after,
        ),
    }
}

/// The ranges of the members, from left to right.
pub fn ranges(alloc: Global, members: &[u8]) -> Result<Vec<ByteRange>, AllocError>
    ensures { IfOk result (λ v. map stretch_of v.items ≡ stretches members.now) }
{
    let mut found = Vec::new(alloc);
    let mut rest = members;
    while let [first, after @ ..] = rest {
        let (range, behind) = first_range(*first, after);
        found.push(range)?;
        rest = behind;
    }
    Ok(found)
}
