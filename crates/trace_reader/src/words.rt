//! The words of a line, and the cause why it has none.
ghost use Rattle.std.specs.Prelude.{map};
ghost use Rattle.trace_reader.specs.Answers.{Gives, words_in};

use crate::error::LineError;
pub(crate) use line_text::next_line;
use trace_model::TraceCause;

/// The parts of a line between its blanks, in place of what the buffer held.
pub fn cut<'a>(line: &'a [u8], words: &mut Vec<&'a [u8]>) -> Result<(), LineError>
    ensures { Gives (λ _. map (λ w. w.now) words.new.items) result (words_in line.now) }
{
    if line_text::cut(line, words)? {
        Ok(())
    } else {
        Err(LineError::Wrong(TraceCause::BadByte))
    }
}
