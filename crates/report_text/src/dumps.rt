//! The lines of a dump, as a report has them.
ghost use Rattle.std.specs.Prelude.{◌≡◌, ◌++◌, OnOk, OnErr};
ghost use Rattle.report_model.specs.Report.{indented, indented_lines};
ghost use Rattle.line_text.specs.Texts.{StaysInFront};

use line_text::next_line;
use std::alloc::AllocError;

// A line behind two blanks.
fn push_indented(text: &mut Vec<u8>, line: &[u8]) -> Result<(), AllocError>
    ensures ok { OnOk result (text.new.items ≡ text.old.items ++ indented line.now) }
    ensures err { OnErr result (StaysInFront text.old.items text.new.items) }
{
    text.extend_from_slice(b"  ")?;
    text.extend_from_slice(line)?;
    text.push(b'\n')?;
    Ok(())
}

// The lines of a text, each behind two blanks.
pub(crate) fn push_indented_lines(text: &mut Vec<u8>, dump: &[u8]) -> Result<(), AllocError>
    ensures ok { OnOk result (text.new.items ≡ text.old.items ++ indented_lines dump.now) }
    ensures err { OnErr result (StaysInFront text.old.items text.new.items) }
{
    let mut rest = dump;
    while let Some((line, after)) = next_line(rest) {
        push_indented(text, line)?;
        rest = after;
    }
    Ok(())
}
