//! A source and a sink in memory, for tests and for runs whose input or output is a list.
//!
//! Both say exactly when they fail: the source at one call that it is told when it is made, and the
//! sink where its room is used up.

ghost use Rattle.std.specs.Prelude.{◌≡◌, ◌≤◌, ◌<◌, ◌-◌, [], length};
ghost use Rattle.std.specs.Prelude.{take, min, IfOk, IsErr, IsTrue, ◌↔◌, Some};
ghost use Rattle.std.specs.Io.{ReadsAtMost, WritesAtMost};
ghost use Rattle.std.specs.Io.KnownBytes.{ReadConsumes, WriteAppends};
ghost use Rattle.streams.specs.Faults.{CountsFaults};
ghost use Rattle.streams.specs.Moves.{IsZeroAtEnd};
ghost use Rattle.streams.specs.Views.{fails_after_call};

use crate::stream::count_fault;
use crate::{Failed, Sink, Source};
use mem_base::List;
use std::alloc::{AllocError, Global};
use std::marker::Model;

/// A source of bytes in memory, which may fail once.
#[derive(Drop)]
pub struct MemSource {
    bytes: List<u8>,
    at: usize,
    fails_in: Option<u64>,
    faults: u64,
}

impl Model for MemSource {
    ghost use Rattle.std.specs.Prelude.{◌≤◌, length, drop};
    ghost use Rattle.streams.specs.Views.{MemSourceView};

    ghost Value = { MemSourceView };

    ghost view = { λ s. record { left = drop s.at s.bytes; fails_in = s.fails_in; faults = s.faults } };

    ghost invariant = { λ s. s.at ≤ length s.bytes };
}

impl MemSource {
    /// A source of these bytes, which fails at the call with that number, counted from 1.
    pub fn new(bytes: List<u8>, fail_at: Option<u64>) -> MemSource
        ensures left { result.left ≡ bytes }
        ensures fails { result.fails_in ≡ fail_at }
        ensures none { result.faults ≡ 0 }
    {
        MemSource {
            bytes,
            at: 0,
            fails_in: fail_at,
            faults: 0,
        }
    }
}

// Counts one call, and says whether it is the one that fails.
fn counts_to_failure(fails_in: &mut Option<u64>) -> bool
    ensures failing { IsTrue result ↔ (fails_in.old ≡ Some 1) }
    ensures counted { fails_in.new ≡ fails_after_call fails_in.old }
{
    match *fails_in {
        None => false,
        Some(1) => {
            *fails_in = None;
            true
        }
        Some(calls) => {
            *fails_in = Some(calls.saturating_sub(1));
            false
        }
    }
}

// Moves the front of the bytes into the buffer, as many as fit.
fn move_front(bytes: &[u8], buf: &mut [u8]) -> usize
    ensures count { result ≡ min (length bytes.now) (length buf.old) }
    ensures moved { take result buf.new ≡ take result bytes.now }
{
    let count = bytes.len().min(buf.len());
    buf[..count].copy_from_slice(&bytes[..count]);
    count
}

impl Source for MemSource {
    ghost left = { λ s. Some s.left };

    ghost faults = { λ s. s.faults };

    fn read(&mut self, buf: &mut [u8]) -> Result<usize, Failed>
        ensures bound { ReadsAtMost result buf.new }
        ensures bytes { ReadConsumes (Some self.old.left) (Some self.new.left) result buf.new }
        ensures end { 0 < length buf.old → IfOk result (IsZeroAtEnd (Some self.old.left)) }
        ensures counted { CountsFaults self.old.faults self.new.faults result }

        // It fails exactly at the call that it was made to fail at, and else gives what fits.
        ensures fails { IsErr result ↔ (self.old.fails_in ≡ Some 1) }
        ensures fails_in { self.new.fails_in ≡ fails_after_call self.old.fails_in }
        ensures count { IfOk result (λ n. n ≡ min (length self.old.left) (length buf.old)) }
    {
        if counts_to_failure(&mut self.fails_in) {
            return Err(count_fault(&mut self.faults));
        }
        let count = move_front(&self.bytes.as_slice()[self.at..], buf);
        self.at += count;
        Ok(count)
    }
}

/// A sink in memory that takes as many bytes as it has room for. The room is taken when it is made.
#[derive(Drop)]
pub struct MemSink {
    bytes: Vec<u8>,
    limit: usize,
    faults: u64,
}

impl Model for MemSink {
    ghost use Rattle.std.specs.Prelude.{◌≤◌, vec_len, vec_capacity};
    ghost use Rattle.streams.specs.Views.{MemSinkView};

    ghost Value = { MemSinkView };

    ghost view = { λ s. record { written = s.bytes.items; limit = s.limit; faults = s.faults } };

    ghost invariant = { λ s. (s.limit ≤ vec_capacity s.bytes) × (vec_len s.bytes ≤ s.limit) };
}

impl MemSink {
    /// An empty sink with room for that many bytes.
    pub fn new(alloc: Global, limit: u64) -> Result<MemSink, AllocError>
        ensures written { IfOk result (λ s. s.written ≡ []) }
        ensures limit { IfOk result (λ s. s.limit ≡ limit) }
        ensures none { IfOk result (λ s. s.faults ≡ 0) }
    {
        let limit = limit as usize;
        Ok(MemSink {
            bytes: Vec::with_capacity(alloc, limit)?,
            limit,
            faults: 0,
        })
    }

    /// All bytes that were written.
    pub fn bytes(&self) -> &[u8]
        ensures written { result.now ≡ self.now.written }
        ensures within { length result.now ≤ self.now.limit }
    {
        self.bytes.as_slice()
    }
}

impl Sink for MemSink {
    ghost written = { λ s. Some s.written };

    ghost faults = { λ s. s.faults };

    fn write(&mut self, piece: &[u8]) -> Result<usize, Failed>
        ensures bound { WritesAtMost result piece.now }
        ensures some { 0 < length piece.now → IfOk result (λ n. 0 < n) }
        ensures bytes { WriteAppends (Some self.old.written) (Some self.new.written) result piece.now }
        ensures counted { CountsFaults self.old.faults self.new.faults result }

        // It fails exactly where there is something to take and no room, and else takes what fits.
        ensures fails { IsErr result
            ↔ ((0 < length piece.now) × (self.old.limit ≤ length self.old.written)) }
        ensures count { IfOk result (λ n.
            n ≡ min (length piece.now) (self.old.limit - length self.old.written)) }
        ensures limit { self.new.limit ≡ self.old.limit }
    {
        let count = piece.len().min(self.limit - self.bytes.len());
        if count == 0 && !piece.is_empty() {
            return Err(count_fault(&mut self.faults));
        }
        self.bytes.extend_from_slice(&piece[..count]).unwrap();
        Ok(count)
    }
}
