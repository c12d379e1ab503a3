//! Where lines end, and where words do. A line is cut into its words in one pass over its bytes, into
//! a buffer that is used again for each line, so a line of few words takes no memory.
ghost use Rattle.std.specs.Prelude.{◌≡◌, ◌==◌, ◌+◌, ◌∷◌, [], length, map, true, IfOk, MatchOption};
ghost use Rattle.std.specs.List.{list_all, slice_split};
ghost use Rattle.trace_model.specs.Operands.{is_between};
ghost use Rattle.trace_model.specs.Spelling.{blank, line_end};

use memchr::memchr;
use std::alloc::AllocError;

/// The first line, without its end, and what follows it.
pub fn next_line(bytes: &[u8]) -> Option<(&[u8], &[u8])>
    ensures { MatchOption result
        (slice_split (λ b. b == line_end) bytes.now ≡ bytes.now ∷ [])
        (λ x. (slice_split (λ b. b == line_end) bytes.now
        ≡ x.0.now ∷ slice_split (λ b. b == line_end) x.1.now)
        × (length x.0.now + length x.1.now + 1 ≡ length bytes.now)) }
{
    match memchr(b'\n', bytes) {
        Some(at) => Some((&bytes[..at], &bytes[at + 1..])),
        None => None,
    }
}

/// Whether a byte prints as a sign, which a blank does not.
pub fn is_sign(byte: u8) -> bool
    ensures { result ≡ is_between 33 126 byte }
{
    byte >= 33 && byte <= 126
}

/// The parts of a line between its blanks, in place of what the buffer held, where each byte prints. The answer
/// is whether each does; if not, the buffer is of no use. The error is that there was no memory.
pub fn cut<'a>(line: &'a [u8], words: &mut Vec<&'a [u8]>) -> Result<bool, AllocError>
    ensures prints { IfOk result (λ prints. prints ≡ list_all (is_between 32 126) line.now) }
    ensures words { IfOk result (λ prints.
        prints ≡ true → map (λ w. w.now) words.new.items ≡ slice_split (λ b. b == blank) line.now) }
{
    words.clear();
    let mut start = 0;
    for at in 0..line.len() {
        let byte = line[at];
        if !is_sign(byte) {
            if byte != b' ' {
                return Ok(false);
            }
            words.push(&line[start..at])?;
            start = at + 1;
        }
    }
    words.push(&line[start..])?;
    Ok(true)
}
