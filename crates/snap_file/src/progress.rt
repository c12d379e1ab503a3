//! What was read so far of dumps, and what one more line adds:
//!
//! ```text
//! stands         a line may be        stands then
//! between        pysnap 1             behind a header
//! behind it      limit N              among rows, of which there are none yet
//! among rows     trace ..             among rows, with one more
//! among rows     end                  between, with one more snapshot
//! ```
ghost use Rattle.std.specs.Prelude.{◌≡◌, ◌≢◌, ◌-◌, ◌^◌, ◌<◌, ◌≤◌, ◌++◌, ◌∷◌, [], length, map, IfOk, OnOk};
ghost use Rattle.std.specs.Ordering.{is_lt};
ghost use Rattle.mem_base.specs.declared.limits.TheConstants.{MAX_DUMP_ROWS as most_rows};
ghost use Rattle.mem_base.specs.declared.limits.TheConstants.{MAX_FRAME_LIMIT as most_frames};
ghost use Rattle.frame_model.specs.Frames.{frames_of};
ghost use Rattle.frame_stack.specs.Callers.{AreAmong};
ghost use Rattle.snapshot_model.specs.Snapshots.{trace_cmp};
ghost use Rattle.trace_table.specs.Plain.{IsKnownKey, key_of};
ghost use Rattle.dump_model.specs.Operands.{row_at};
ghost use Rattle.dump_model.specs.Reading.{an_end, first_cause, is_after, line_at, place_after, row_causes, start};
ghost use Rattle.snap_file.specs.Answers.{Gives};
ghost use Rattle.snap_file.specs.Plain.{Extends, Grew, HasRoom, IsKnownSoFar, StaysThere, place_of, plain_key};
ghost use Rattle.snap_file.specs.Plain.{plain_loaded, plain_text, rows_of};
ghost use Rattle.snap_file.specs.Steps.{row_step, words_step};
ghost use Rattle.snap_file.specs.declared.progress.Stand.TheVariants as stands;

use crate::error::LineError;
use crate::operands::{KeyText, frame_count};
use crate::rows::{RowText, intern, read_row};
use crate::words::{cut, has_empty};
use dump_model::LoadCause;
use frame_stack::Tracebacks;
use mem_base::limits::MAX_DUMP_ROWS;
use mem_base::{Frame, List, Texts};
use std::alloc::{AllocError, Global};
use trace_table::{Row, Snapshot, TraceKey};

/// Snapshots that were read, with the tables of their names and of their tracebacks.
#[derive(Drop)]
pub struct Loaded {
    pub texts: Texts,
    pub table: Tracebacks,
    pub snapshots: List<Snapshot>,
}

/// Where reading stands: between two dumps, behind a header, or among the traces of a dump with that limit.
#[derive(Clone, Copy, Debug)]
pub enum Stand {
    Between,
    InHead,
    InRows(u32),
}

/// What was read so far.
#[derive(Drop)]
pub struct Progress {
    pub loaded: Loaded,
    /// How many more dumps are due, with the one that is being read.
    pub left: u8,
    pub at: Stand,
    /// The traces of the dump that is being read.
    pub rows: List<Row>,
    /// A buffer for the frames of a trace.
    pub frames: Vec<Frame>,
}

// Whether a key stands before another one, whose name is still in the line.
fn is_before(texts: &Texts, last: TraceKey, key: KeyText<'_>) -> bool
    requires { IsKnownKey (length texts.now) last }
    ensures { result ≡ is_lt (trace_cmp (key_of texts.now last) (plain_key key.entry)) }
{
    match (last, key) {
        (TraceKey::Block(a), KeyText::Block(b)) => texts.get(a).cmp(b).is_lt(),
        (TraceKey::Block(_), KeyText::Number(_, _)) => true,
        (TraceKey::Number(_, _), KeyText::Block(_)) => false,
        (TraceKey::Number(d, m), KeyText::Number(e, n)) => d.cmp(&e).then(m.cmp(&n)).is_lt(),
    }
}

// The key with its name in the table of texts.
fn intern_key(texts: &mut Texts, key: KeyText<'_>) -> Result<TraceKey, AllocError>
    requires { length texts.old < 2 ^ 32 - 1 }
    ensures key { IfOk result (λ k. key_of texts.new k ≡ plain_key key.entry) }
    ensures known { IfOk result (λ k. IsKnownKey (length texts.new) k) }
    ensures grows { OnOk result (Extends 1 texts.old texts.new) }
{
    match key {
        KeyText::Block(name) => Ok(TraceKey::Block(intern(texts, name)?)),
        KeyText::Number(domain, number) => Ok(TraceKey::Number(domain, number)),
    }
}

impl Progress {
    /// Nothing was read, and so many dumps are due. The error is that there was no memory.
    pub fn new(alloc: Global, count: u8) -> Result<Progress, AllocError>
        ensures known { IfOk result IsKnownSoFar }
        ensures start { IfOk result (λ p. place_of p ≡ start count) }
        ensures texts { IfOk result (λ p. length p.loaded.texts ≤ 1) }
        ensures table { IfOk result (λ p. length p.loaded.table ≤ 0) }
    {
        Ok(Progress {
            loaded: Loaded {
                texts: Texts::new(alloc)?,
                table: Tracebacks::new(alloc),
                snapshots: List::new(alloc),
            },
            left: count,
            at: Stand::Between,
            rows: List::new(alloc),
            frames: Vec::new(alloc),
        })
    }

    /// Takes one more line, without its end. Its words go into the buffer, in place of what it held.
    pub fn line<'a>(
        &mut self,
        alloc: Global,
        line: &'a [u8],
        words: &mut Vec<&'a [u8]>,
    ) -> Result<(), LineError>
        requires known { IsKnownSoFar self.old }
        requires room { HasRoom (length line.now) self.old }
        ensures known { OnOk result (IsKnownSoFar self.new) }
        ensures grew { OnOk result (Grew (length line.now) self.old self.new) }
        ensures read { Gives (λ _. place_of self.new) result (line_at (place_of self.old) line.now) }
    {
        if self.left == 0 {
            return Err(LineError::Wrong(LoadCause::Trailing));
        }
        match self.at {
            Stand::Between => self.begin(line),
            Stand::InHead => {
                cut(line, words)?;
                self.limit(alloc, words.as_slice())
            }
            Stand::InRows(limit) => {
                cut(line, words)?;
                self.row_or_end(alloc, limit, words.as_slice())
            }
        }
    }

    // Takes the header.
    fn begin(&mut self, line: &[u8]) -> Result<(), LineError>
        requires known { IsKnownSoFar self.old }
        requires at { self.old.at ≡ stands.Between }
        requires due { self.old.left ≢ 0 }
        ensures known { OnOk result (IsKnownSoFar self.new) }
        ensures grew { OnOk result (Grew 0 self.old self.new) }
        ensures read { Gives (λ _. place_of self.new) result (line_at (place_of self.old) line.now) }
    {
        if line != b"pysnap 1".as_slice() {
            return Err(LineError::Wrong(LoadCause::BadHeader));
        }
        self.at = Stand::InHead;
        Ok(())
    }

    // Takes the words of the line that says how many frames a trace keeps at most.
    fn limit(&mut self, alloc: Global, words: &[&[u8]]) -> Result<(), LineError>
        requires known { IsKnownSoFar self.old }
        requires at { self.old.at ≡ stands.InHead }
        ensures known { OnOk result (IsKnownSoFar self.new) }
        ensures grew { OnOk result (Grew 0 self.old self.new) }
        ensures read { Gives (λ _. place_of self.new) result
            (words_step (place_of self.old) (map (λ w. w.now) words.now)) }
    {
        let Some((first, operands)) = words.split_first() else {
            return Err(LineError::Wrong(LoadCause::UnknownWord));
        };
        if *first != b"limit".as_slice() {
            return Err(LineError::Wrong(LoadCause::UnknownWord));
        }
        let [operand] = operands else {
            return Err(LineError::Wrong(LoadCause::BadWords));
        };
        if operand.is_empty() {
            return Err(LineError::Wrong(LoadCause::BadWords));
        }
        let limit = frame_count(operand)?;
        self.at = Stand::InRows(limit);
        self.rows = List::new(alloc);
        Ok(())
    }

    // Takes the words of a line that tells a trace, or of the last one of a dump.
    fn row_or_end(&mut self, alloc: Global, limit: u32, words: &[&[u8]]) -> Result<(), LineError>
        requires known { IsKnownSoFar self.old }
        requires at { self.old.at ≡ stands.InRows limit }
        requires due { self.old.left ≢ 0 }
        requires room { HasRoom (length words.now - 1) self.old }
        ensures known { OnOk result (IsKnownSoFar self.new) }
        ensures grew { OnOk result (Grew (length words.now - 1) self.old self.new) }
        ensures read { Gives (λ _. place_of self.new) result
            (words_step (place_of self.old) (map (λ w. w.now) words.now)) }
    {
        let Some((first, operands)) = words.split_first() else {
            return Err(LineError::Wrong(LoadCause::UnknownWord));
        };
        if *first == b"end".as_slice() {
            if !operands.is_empty() {
                return Err(LineError::Wrong(LoadCause::BadWords));
            }
            return Ok(self.end(alloc, limit)?);
        }
        if *first != b"trace".as_slice() {
            return Err(LineError::Wrong(LoadCause::UnknownWord));
        }
        if has_empty(operands) {
            return Err(LineError::Wrong(LoadCause::BadWords));
        }
        if operands.len() < 5 {
            return Err(LineError::Wrong(LoadCause::BadWords));
        }
        self.row(limit, operands)
    }

    // Ends a dump.
    fn end(&mut self, alloc: Global, limit: u32) -> Result<(), AllocError>
        requires known { IsKnownSoFar self.old }
        requires at { self.old.at ≡ stands.InRows limit }
        requires due { self.old.left ≢ 0 }
        ensures known { OnOk result (IsKnownSoFar self.new) }
        ensures grew { OnOk result (Grew 0 self.old self.new) }
        ensures ended { OnOk result (place_of self.new ≡ place_after (place_of self.old) an_end) }
    {
        let rows = std::mem::replace(&mut self.rows, List::new(alloc));
        self.loaded.snapshots.push(Snapshot { limit, rows })?;
        self.left -= 1;
        self.at = Stand::Between;
        Ok(())
    }

    // Takes the words of a trace, behind the first.
    fn row(&mut self, limit: u32, words: &[&[u8]]) -> Result<(), LineError>
        requires known { IsKnownSoFar self.old }
        requires at { self.old.at ≡ stands.InRows limit }
        requires enough { 5 ≤ length words.now }
        requires room { HasRoom (length words.now) self.old }
        ensures known { OnOk result (IsKnownSoFar self.new) }
        ensures grew { OnOk result (Grew (length words.now) self.old self.new) }
        ensures read { Gives (λ _. place_of self.new) result
            (row_step (place_of self.old) limit (rows_of self.old) (row_at (map (λ w. w.now) words.now))) }
    {
        let row = self.read(words)?;
        if let Some(cause) = self.fault(limit, row) {
            return Err(LineError::Wrong(cause));
        }
        self.push(row)?;
        Ok(())
    }

    // Reads a trace, whose frames are then in the buffer.
    fn read<'a>(&mut self, words: &[&'a [u8]]) -> Result<RowText<'a>, LineError>
        requires known { IsKnownSoFar self.old }
        requires enough { 5 ≤ length words.now }
        requires room { HasRoom (length words.now) self.old }
        ensures known { OnOk result (IsKnownSoFar self.new) }
        ensures grew { OnOk result (Grew (length words.now - 4) self.old self.new) }
        ensures read { Gives (plain_text (frames_of self.new.loaded.texts self.new.frames.items)) result
            (row_at (map (λ w. w.now) words.now)) }
        ensures range { IfOk result (λ row. row.total ≤ most_frames) }
        ensures among { OnOk result (AreAmong (length self.new.loaded.texts) self.new.frames.items) }
        ensures same { OnOk result (StaysThere self.old self.new) }
    {
        read_row(&mut self.loaded.texts, words, &mut self.frames)
    }

    // Whether a key stands after the last of the traces that were read.
    fn is_after(&self, key: KeyText<'_>) -> bool
        requires { IsKnownSoFar self.now }
        ensures { result ≡ is_after (rows_of self.now) (plain_key key.entry) }
    {
        match self.rows.as_slice().last() {
            Some(row) => is_before(&self.loaded.texts, row.key, key),
            None => true,
        }
    }

    // Why the trace whose frames are in the buffer may not stand behind those that were read.
    fn fault(&self, limit: u32, row: RowText<'_>) -> Option<LoadCause>
        requires { IsKnownSoFar self.now }
        ensures { result ≡ first_cause (row_causes limit (rows_of self.now)
            (plain_text (frames_of self.now.loaded.texts self.now.frames.items) row.entry)) }
    {
        if self.frames.len() != limit.min(row.total) as usize {
            return Some(LoadCause::BadFrames);
        }
        if !self.is_after(row.key) {
            return Some(LoadCause::OutOfOrder);
        }
        if self.rows.len() >= MAX_DUMP_ROWS {
            return Some(LoadCause::TooMany);
        }
        None
    }

    // Adds the trace whose frames are in the buffer.
    fn push(&mut self, row: RowText<'_>) -> Result<(), AllocError>
        requires known { IsKnownSoFar self.old }
        requires among { AreAmong (length self.old.loaded.texts) self.old.frames.items }
        requires short { length self.old.frames.items ≤ 2 ^ 16 }
        requires few { length self.old.rows < most_rows }
        requires room { HasRoom 1 self.old }
        ensures known { OnOk result (IsKnownSoFar self.new) }
        ensures grew { OnOk result (Grew 1 self.old self.new) }
        ensures done { OnOk result (plain_loaded self.new.loaded ≡ plain_loaded self.old.loaded) }
        ensures rows { OnOk result (rows_of self.new ≡ rows_of self.old
            ++ plain_text (frames_of self.old.loaded.texts self.old.frames.items) row.entry ∷ []) }
        ensures others { (self.new.left ≡ self.old.left) × (self.new.at ≡ self.old.at) }
    {
        let key = intern_key(&mut self.loaded.texts, row.key)?;
        let trace = self.loaded.table.intern(self.frames.as_slice())?;
        self.rows.push(Row {
            key,
            size: row.size,
            trace,
            total: row.total,
        })?;
        Ok(())
    }
}
