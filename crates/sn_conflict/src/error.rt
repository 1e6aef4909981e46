//! Where an answer fails.

ghost use Rattle.std.specs.Prelude.{◌≡◌};
ghost use Rattle.sn_conflict.specs.declared.error.CheckError.TheVariants.{Memory};

use std::alloc::AllocError;
use thiserror::Error;

/// The first place at which an answer to a sync may not be applied; places in lists are counted from 0.
#[derive(Debug, Drop, Error)]
pub enum CheckError {
    #[error("saved item {index} is none that was sent")]
    Saved { index: u64 },
    #[error("conflict {index} is none of what was sent")]
    Conflict { index: u64 },
    #[error("retrieved item {index} is out of order or form")]
    Retrieved { index: u64 },
    /// Something is to be left, and nothing was retrieved.
    #[error("a cursor behind an empty page")]
    Cursor,
    #[error("out of memory")]
    Memory,
}

impl From<AllocError> for CheckError {
    ghost from_gives = { λ _ e. e ≡ Memory };

    fn from(_: AllocError) -> CheckError {
        CheckError::Memory
    }
}
