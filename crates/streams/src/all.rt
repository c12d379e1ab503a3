//! Reading to the end, and writing the whole of a piece.

ghost use Rattle.std.specs.Prelude.{◌≡◌, ◌<◌, ◌≤◌, ◌⊎◌, ℕ, length};
ghost use Rattle.std.specs.Prelude.{Some, MatchResult, IfOk, OnOk, OnErr, IsErrOf};
ghost use Rattle.std.specs.Io.KnownBytes.{Consumes, Appends, IsAtEnd};
ghost use Rattle.streams.specs.declared.all.ReadError.TheVariants.{Failed as ReadFailed, OutOfMemory};
ghost use Rattle.streams.specs.Faults.{CountsFaults, faults_after};
ghost use Rattle.streams.specs.Moves.{GaveWithin, GavePast, IsToldPast, WroteFront};

use crate::{Failed, Sink, Source};
use mem_base::List;
use std::alloc::{AllocError, Global};
use thiserror::Error;

/// Why not all was read.
#[derive(Clone, Copy, Debug, PartialEq, Eq, Error)]
pub enum ReadError {
    #[error("a read failed")]
    Failed,
    #[error("the input is too long")]
    TooLong,
    #[error("out of memory")]
    OutOfMemory,
}

impl From<Failed> for ReadError {
    ghost from_gives = { λ _ e. e ≡ ReadFailed };

    fn from(_failed: Failed) -> ReadError {
        ReadError::Failed
    }
}

impl From<AllocError> for ReadError {
    ghost from_gives = { λ _ e. e ≡ OutOfMemory };

    fn from(_error: AllocError) -> ReadError {
        ReadError::OutOfMemory
    }
}

// How many bytes are asked for at once.
const CHUNK: usize = 16_384;

/// All bytes that are left, where these are at most `max`. What was read is gone from the input,
/// also where the answer is an error.
pub fn read_all<I: Source>(alloc: Global, input: &mut I, max: u64) -> Result<List<u8>, ReadError>
    ensures read { IfOk result (λ bytes. Consumes (I.left input.old) (I.left input.new) bytes) }
    ensures end { OnOk result (IsAtEnd (I.left input.new)) }
    ensures short { IfOk result (λ bytes. length bytes ≤ max) }

    // What an error leaves, and when it comes.
    ensures failed { IsErrOf result ReadError.Failed
        → GaveWithin (I.left input.old) (I.left input.new) max }
    ensures too_long { IsErrOf result ReadError.TooLong
        → GavePast (I.left input.old) (I.left input.new) max }
    ensures no_memory { IsErrOf result ReadError.OutOfMemory
        → GaveWithin (I.left input.old) (I.left input.new) max }
    ensures past { IsToldPast (I.left input.old) (I.left input.new) max → IsErrOf result ReadError.TooLong }

    // The first read that fails ends it, and no other answer comes after a fault.
    ensures counted { I.faults input.new ≡ faults_after result (I.faults input.old) }
{
    let mut bytes = Vec::new(alloc);
    let mut chunk = [0u8; CHUNK];
    loop {
        let count = input.read(&mut chunk)?;
        if count == 0 {
            return Ok(List::from_vec(bytes));
        }
        if (bytes.len() + count) as u64 > max {
            return Err(ReadError::TooLong);
        }
        bytes.extend_from_slice(&chunk[..count])?;
    }
}

/// Writes the whole piece. The first write that fails ends it, after a front of the piece was
/// written.
pub fn write_all<O: Sink>(out: &mut O, piece: &[u8]) -> Result<(), Failed>
    ensures whole { OnOk result (Appends (O.written out.old) (O.written out.new) piece.now) }
    ensures part { OnErr result (WroteFront (O.written out.old) (O.written out.new) piece.now) }
    ensures counted { CountsFaults (O.faults out.old) (O.faults out.new) result }
{
    let mut at = 0;
    while at < piece.len() {
        at += out.write(&piece[at..])?;
    }
    Ok(())
}
