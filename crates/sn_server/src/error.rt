//! Why a server wasn't loaded.

ghost use Rattle.std.specs.Prelude.{◌≡◌};

use sn_rows::RowKind;
use sn_table::TableError;
use thiserror::Error;

/// Why a server wasn't loaded.
#[derive(Clone, Copy, Debug, PartialEq, Eq, Error)]
pub enum ServerError {
    /// The disk holds no journal of a server. The place is the first that differs from the header.
    #[error("not a server's store from byte {place} on")]
    Foreign { place: u64 },
    /// The gate at this place is missing, is open before no whole batch, or before one that spells no changes of
    /// rows of a server's.
    #[error("a batch at byte {place} is damaged")]
    Damaged { place: u64 },
    /// The rows of this kind aren't sound, and those of the kinds before it are.
    #[error("rows that aren't sound")]
    Rows { kind: RowKind },
    #[error("the disk failed")]
    DiskFault,
    #[error("out of memory")]
    Memory,
}

impl ServerError {
    ghost use Rattle.sn_server.specs.Loads.{of_table};

    pub(crate) fn of_table(error: TableError) -> ServerError
        ensures { result ≡ of_table error }
    {
        match error {
            TableError::Foreign { place } => ServerError::Foreign { place },
            TableError::Damaged { place } => ServerError::Damaged { place },
            TableError::DiskFault => ServerError::DiskFault,
            TableError::Memory => ServerError::Memory,
        }
    }
}
