//! Why a table wasn't loaded.

ghost use Rattle.std.specs.Prelude.{◌≡◌};
ghost use Rattle.sn_table.specs.Errors.{of_journal};

use sn_journal::JournalError;
use thiserror::Error;

/// Why a table wasn't loaded.
#[derive(Clone, Copy, Debug, PartialEq, Eq, Error)]
pub enum TableError {
    /// The disk holds no journal of this owner. The place is the first that differs from the header.
    #[error("not a table of this owner from byte {place} on")]
    Foreign { place: u64 },
    /// The gate at this place is missing, is open before no whole batch, or before one that spells no changes
    /// of rows of this owner's.
    #[error("a batch at byte {place} is damaged")]
    Damaged { place: u64 },
    #[error("the disk failed")]
    DiskFault,
    #[error("out of memory")]
    Memory,
}

pub(crate) fn of_journal(error: JournalError) -> TableError
    ensures { result ≡ of_journal error }
{
    match error {
        JournalError::Foreign { place } => TableError::Foreign { place },
        JournalError::Damaged { place } => TableError::Damaged { place },
        JournalError::DiskFault => TableError::DiskFault,
        JournalError::Memory => TableError::Memory,
    }
}
