//! The words of a line, and the cause why it has none.
ghost use Rattle.std.specs.Prelude.{◌≡◌, map};
ghost use Rattle.std.specs.List.{list_any};
ghost use Rattle.trace_model.specs.Reading.{is_empty};
ghost use Rattle.snap_file.specs.Answers.{Gives};
ghost use Rattle.snap_file.specs.Steps.{words_in};

use crate::error::LineError;
use dump_model::LoadCause;

/// The parts of a line between its blanks, in place of what the buffer held.
pub fn cut<'a>(line: &'a [u8], words: &mut Vec<&'a [u8]>) -> Result<(), LineError>
    ensures { Gives (λ _. map (λ w. w.now) words.new.items) result (words_in line.now) }
{
    if line_text::cut(line, words)? {
        Ok(())
    } else {
        Err(LineError::Wrong(LoadCause::BadByte))
    }
}

/// Whether one of the words has no byte, as where two blanks stand side by side.
pub fn has_empty(words: &[&[u8]]) -> bool
    ensures { result ≡ list_any (λ w. is_empty w.now) words.now }
{
    words.iter().any(|w| w.is_empty())
}
