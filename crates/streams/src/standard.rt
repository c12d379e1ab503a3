//! A source and a sink over std's `Read` and `Write`: the edge to files and pipes.
//!
//! What the inner reader or writer tells of its bytes is what they tell, and each of its errors is
//! one fault. A write to a file or a pipe costs a system call, so a sink may stand over std's
//! `BufWriter`, which takes the pieces and writes them on together:
//!
//! ```text
//!   write_all ---> StdSink ---> BufWriter ---> standard output
//!                 (faults)     (held back)
//! ```
//!
//! Then a fault of the device is met only when the buffer is written on: by a later write, or by
//! `flush`, which whoever ends the output must call.

ghost use Rattle.std.specs.Prelude.{◌≡◌, ◌<◌, [], length, IfOk, OnOk};
ghost use Rattle.std.specs.Io.{ReadsAtMost, WritesAtMost};
ghost use Rattle.std.specs.Io.Buffered.{writer_buffer, writer_contents};
ghost use Rattle.std.specs.Io.KnownBytes.{ReadConsumes, WriteAppends, Keeps};
ghost use Rattle.streams.specs.Faults.{CountsFaults};
ghost use Rattle.streams.specs.Moves.{IsZeroAtEnd};

use crate::stream::count_fault;
use crate::{Failed, Sink, Source};
use std::io::{BufWriter, Read, Write};
use std::marker::Model;

/// A reader or a writer of std, with a count of its errors.
#[derive(Drop)]
pub struct Counted<T> {
    inner: T,
    faults: u64,
}

/// A source over a reader of std. It tells what the reader tells, and counts the reader's errors.
pub type StdSource<R> = Counted<R>;

/// A sink over a writer of std. It tells what the writer tells, and counts the writer's errors. A
/// writer that takes nothing of a piece that has bytes has failed.
pub type StdSink<W> = Counted<W>;

impl<T> Model for Counted<T> {
    ghost use Rattle.streams.specs.Views.{CountedView};

    ghost Value = { CountedView T };

    ghost view = { λ s. record { inner = s.inner; faults = s.faults } };
}

impl<T> Counted<T> {
    /// A source of what the reader gives from here on, or a sink that writes after what the writer
    /// holds.
    pub fn new(inner: T) -> Counted<T>
        ensures inner { result.inner ≡ inner }
        ensures none { result.faults ≡ 0 }
    {
        Counted { inner, faults: 0 }
    }
}

impl<R: Read> Source for StdSource<R> {
    ghost left = { λ s. R.remaining s.inner };

    ghost faults = { λ s. s.faults };

    fn read(&mut self, buf: &mut [u8]) -> Result<usize, Failed>
        ensures bound { ReadsAtMost result buf.new }
        ensures bytes { ReadConsumes
            (R.remaining self.old.inner) (R.remaining self.new.inner) result buf.new }
        ensures end { 0 < length buf.old → IfOk result (IsZeroAtEnd (R.remaining self.old.inner)) }
        ensures counted { CountsFaults self.old.faults self.new.faults result }
    {
        match self.inner.read(buf) {
            Ok(count) => Ok(count),
            Err(_) => Err(count_fault(&mut self.faults)),
        }
    }
}

impl<W: Write> Sink for StdSink<W> {
    ghost written = { λ s. W.contents s.inner };

    ghost faults = { λ s. s.faults };

    fn write(&mut self, piece: &[u8]) -> Result<usize, Failed>
        ensures bound { WritesAtMost result piece.now }
        ensures some { 0 < length piece.now → IfOk result (λ n. 0 < n) }
        ensures bytes { WriteAppends
            (W.contents self.old.inner) (W.contents self.new.inner) result piece.now }
        ensures counted { CountsFaults self.old.faults self.new.faults result }
    {
        match self.inner.write(piece) {
            Ok(count) if count > 0 || piece.is_empty() => Ok(count),
            _ => Err(count_fault(&mut self.faults)),
        }
    }
}

impl<W: Write + Drop> StdSink<BufWriter<W>> {
    /// Writes on what the buffer holds back. Where that fails, what was not written on stays in the
    /// buffer.
    pub fn flush(&mut self) -> Result<(), Failed>
        ensures none_back { OnOk result (writer_buffer self.new.inner ≡ []) }
        ensures bytes { Keeps
            (writer_contents W.contents self.old.inner) (writer_contents W.contents self.new.inner) }
        ensures counted { CountsFaults self.old.faults self.new.faults result }
    {
        match self.inner.flush() {
            Ok(()) => Ok(()),
            Err(_) => Err(count_fault(&mut self.faults)),
        }
    }
}
