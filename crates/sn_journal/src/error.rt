// Why a journal wasn't loaded.
ghost use Rattle.std.specs.Prelude.{◌≡◌};
ghost use Rattle.sn_journal.specs.declared.error.JournalError.TheVariants.{Memory, DiskFault};

use sn_io::Failed;
use std::alloc::AllocError;
use thiserror::Error;

/// Why a journal wasn't loaded.
#[derive(Clone, Copy, Debug, PartialEq, Eq, Error)]
pub enum JournalError {
    /// The disk holds no journal of this owner. The place is the first that differs from the header.
    #[error("not a journal of this owner from byte {place} on")]
    Foreign { place: u64 },
    /// The gate at this place is missing, or is open before no whole batch.
    #[error("a batch at byte {place} is damaged")]
    Damaged { place: u64 },
    #[error("the disk failed")]
    DiskFault,
    #[error("out of memory")]
    Memory,
}

impl From<AllocError> for JournalError {
    ghost from_gives = { λ _ e. e ≡ Memory };

    fn from(_: AllocError) -> JournalError {
        JournalError::Memory
    }
}

impl From<Failed> for JournalError {
    ghost from_gives = { λ _ e. e ≡ DiskFault };

    fn from(_: Failed) -> JournalError {
        JournalError::DiskFault
    }
}
