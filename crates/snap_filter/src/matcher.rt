//! Which files of a table match a pattern.
ghost use Rattle.std.specs.Prelude.{◌≡◌, ◌<◌, length, IfOk};
ghost use Rattle.snap_filter.specs.Questions.{file_matches};

use crate::known::Known;
use mem_base::{TextId, Texts};
use name_match::Pattern;
use std::alloc::{AllocError, Global};
use std::marker::Model;

/// A pattern over the files of a table of texts, with what was found of them. It is seen as the text of the
/// pattern and the table: what was found is always right, and does not show.
#[derive(Drop)]
pub struct Matcher<'a> {
    text: &'a [u8],
    pattern: Pattern,
    texts: &'a Texts,
    known: Known,
}

impl<'a> Model for Matcher<'a> {
    ghost use Rattle.snap_filter.specs.Questions.{AskedOfFiles, IsMatcher};

    ghost Value = { AskedOfFiles };

    ghost view = { λ m. record { pattern = m.text.now; texts = m.texts.now } };

    ghost invariant = { λ m. IsMatcher (record { pattern = m.text.now; texts = m.texts.now }) m.pattern m.known };
}

impl<'a> Matcher<'a> {
    /// The pattern of the text. The error is that there was no memory.
    pub fn new(alloc: Global, text: &'a [u8], texts: &'a Texts) -> Result<Matcher<'a>, AllocError>
        ensures { IfOk result (λ m. m ≡ record { pattern = text.now; texts = texts.now }) }
    {
        let pattern = Pattern::read(alloc, text)?;
        let known = Known::new(alloc, texts.len())?;
        Ok(Matcher {
            text,
            pattern,
            texts,
            known,
        })
    }

    /// Whether the pattern matches the file.
    pub fn matches(&mut self, file: TextId) -> bool
        requires { file.0 < length self.old.texts }
        ensures answer { result ≡ file_matches self.old file }
        ensures same { self.new ≡ self.old }
    {
        if let Some(answer) = self.known.get(file.0) {
            return answer;
        }
        let answer = self.pattern.matches(self.texts.get(file));
        self.known.put(file.0, answer);
        answer
    }
}
