//! Why a commit was refused, and why a device wasn't loaded.

ghost use Rattle.std.specs.Prelude.{◌≡◌};
ghost use Rattle.sn_client.specs.Calls.{of_commit};

use sn_device::ClientError;
use sn_rows::RowKind;
use sn_table::{CommitError, TableError};
use thiserror::Error;

/// The refusal of a call whose commit is refused.
pub(crate) fn of_commit(error: CommitError) -> ClientError
    ensures { result ≡ of_commit error }
{
    match error {
        CommitError::TooLarge { size } => ClientError::TooLarge { size },
        CommitError::Memory => ClientError::Memory,
    }
}

/// Why a device wasn't loaded.
#[derive(Clone, Copy, Debug, PartialEq, Eq, Error)]
pub enum DeviceError {
    /// The disk holds no journal of a device. The place is the first that differs from the header.
    #[error("not a device's store from byte {place} on")]
    Foreign { place: u64 },
    /// The gate at this place is missing, is open before no whole batch, or before one that spells no changes of
    /// rows of a device's.
    #[error("a batch at byte {place} is damaged")]
    Damaged { place: u64 },
    /// The rows of this kind aren't sound, and those of the kinds before it are.
    #[error("rows that aren't sound")]
    Rows { kind: RowKind },
    #[error("the disk failed")]
    DiskFault,
    #[error("out of memory")]
    Memory,
}

impl DeviceError {
    ghost use Rattle.sn_client.specs.Loads.{of_table};

    pub(crate) fn of_table(error: TableError) -> DeviceError
        ensures { result ≡ of_table error }
    {
        match error {
            TableError::Foreign { place } => DeviceError::Foreign { place },
            TableError::Damaged { place } => DeviceError::Damaged { place },
            TableError::DiskFault => DeviceError::DiskFault,
            TableError::Memory => DeviceError::Memory,
        }
    }
}
