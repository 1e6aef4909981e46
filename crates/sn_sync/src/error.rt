//! Why a message isn't read.

ghost use Rattle.std.specs.Prelude.{◌≡◌};
ghost use Rattle.sn_sync.specs.declared.error.SyncError.TheVariants.{Memory};

use sn_string::Text;
use std::alloc::AllocError;
use thiserror::Error;

/// Why a text is no message.
#[derive(Debug, Drop, Error)]
pub enum SyncError {
    /// It is no JSON, or no object.
    #[error("no JSON object")]
    NotJson,
    /// The member of this name is out of form, or missing.
    #[error("a member out of form")]
    Member { name: Text },
    /// The member of this name is a whole number out of its range.
    #[error("{number} is out of range")]
    Limit { name: Text, number: u64 },
    #[error("out of memory")]
    Memory,
}

impl From<AllocError> for SyncError {
    ghost from_gives = { λ _ e. e ≡ Memory };

    fn from(_: AllocError) -> SyncError {
        SyncError::Memory
    }
}
