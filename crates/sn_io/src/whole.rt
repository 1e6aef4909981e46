// Whole inputs and whole texts.
ghost use Rattle.std.specs.Prelude.{◌≡◌, ◌+◌, ◌<◌, ◌≤◌, ◌^◌, ℕ, List, length, take, IfOk, OnOk, OnErr, IsErrOf};
ghost use Rattle.std.specs.Io.KnownBytes.{Appends};
ghost use Rattle.sn_io.specs.Causes.{Rose, CountsFailure};
ghost use Rattle.sn_io.specs.Streams.{TakesPart, GivesPart, GivesAtMost, HasGiven};
ghost use Rattle.sn_io.specs.declared.whole.ReadError.TheVariants.{Failed as ReadFailed, Memory};

use crate::{Failed, Sink, Source};
use std::alloc::{AllocError, Global};
use thiserror::Error;

const PIECE: usize = 4096;

/// Why an input was not read to its end.
#[derive(Clone, Copy, Debug, PartialEq, Eq, Error)]
pub enum ReadError {
    #[error("reading failed")]
    Failed,
    #[error("the input is too long")]
    Long,
    #[error("out of memory")]
    Memory,
}

impl From<AllocError> for ReadError {
    ghost from_gives = { λ _ e. e ≡ Memory };

    fn from(_: AllocError) -> ReadError {
        ReadError::Memory
    }
}

impl From<Failed> for ReadError {
    ghost from_gives = { λ _ e. e ≡ ReadFailed };

    fn from(_: Failed) -> ReadError {
        ReadError::Failed
    }
}

/// Reads a source to its end. More than `most` bytes are refused, once one more was read.
pub fn read_all<I: Source>(alloc: Global, source: &mut I, most: usize) -> Result<Vec<u8>, ReadError>
    requires { most < 2 ^ 62 }
    ensures ok { IfOk result (λ bytes. HasGiven most (I.left source.old) (I.left source.new) bytes.items) }
    ensures long { IsErrOf result ReadError.Long → GivesPart (I.left source.old) (I.left source.new) (most + 1) }
    ensures failed { IsErrOf result ReadError.Failed → GivesAtMost (I.left source.old) (I.left source.new) most }
    ensures memory { IsErrOf result ReadError.Memory → GivesAtMost (I.left source.old) (I.left source.new) (most + 1) }
    ensures cause { IsErrOf result ReadError.Failed → Rose (I.fault_count source.old) (I.fault_count source.new) }
    ensures later { I.fault_count source.old ≤ I.fault_count source.new }
{
    let mut taken = Vec::new(alloc);
    let mut piece = [0u8; PIECE];
    'pieces: while taken.len() <= most {
        let room = PIECE.min(most + 1 - taken.len());
        let count = source.read(&mut piece[..room])?;
        if count == 0 {
            return Ok(taken);
        }
        taken.extend_from_slice(&piece[..count])?;
    }
    Err(ReadError::Long)
}

/// Writes all of the bytes, or a front of them where a write fails.
pub fn write_all<O: Sink>(sink: &mut O, bytes: &[u8]) -> Result<(), Failed>
    ensures ok { OnOk result (Appends (O.held sink.old) (O.held sink.new) bytes.now) }
    ensures err { OnErr result (TakesPart (O.held sink.old) (O.held sink.new) bytes.now) }
    ensures cause { CountsFailure (O.fault_count sink.old) (O.fault_count sink.new) result }
{
    let mut at = 0;
    'rest: while at < bytes.len() {
        at += sink.write(&bytes[at..])?;
    }
    Ok(())
}
