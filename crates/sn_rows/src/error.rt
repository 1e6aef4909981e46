//! Why bytes are no list of changes.

ghost use Rattle.std.specs.Prelude.{◌≡◌};
ghost use Rattle.sn_rows.specs.declared.error.RowError.TheVariants.{Memory};

use std::alloc::{AllocError, AllocFailed};
use thiserror::Error;

/// Why bytes are no list of changes: the first fault from the left, with its place in the bytes.
#[derive(Clone, Copy, Debug, PartialEq, Eq, Error)]
pub enum RowError {
    /// The bytes end inside the field that begins at this place.
    #[error("the bytes end inside the field at {place}")]
    Short { place: usize },
    /// The byte at this place is no op, or no kind of rows.
    #[error("no op or kind at {place}")]
    Kind { place: usize },
    /// The field at this place is out of its form or bounds.
    #[error("the field at {place} is out of its form")]
    Range { place: usize },
    /// A key or a value is over, and more bytes of it begin at this place.
    #[error("bytes left from {place} on")]
    Extra { place: usize },
    #[error("out of memory")]
    Memory,
}

impl From<AllocError> for RowError {
    ghost from_gives = { λ _ e. e ≡ Memory };

    fn from(_e: AllocError) -> RowError {
        RowError::Memory
    }
}

impl<T: Drop> From<AllocFailed<T>> for RowError {
    ghost from_gives = { λ _ e. e ≡ Memory };

    fn from(_e: AllocFailed<T>) -> RowError {
        RowError::Memory
    }
}
