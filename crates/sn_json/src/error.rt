//! Why a text isn't read.

ghost use Rattle.std.specs.Prelude.{◌≡◌};
ghost use Rattle.sn_json.specs.declared.error.JsonError.TheVariants.{Memory};
ghost use Rattle.sn_json.specs.Refusals.{refusal_of};

use std::alloc::AllocError;
use thiserror::Error;

/// Why a text isn't read.
#[derive(Clone, Copy, Debug, PartialEq, Eq, Error)]
pub enum JsonError {
    /// It is no JSON.
    #[error("no JSON")]
    NotJson,
    #[error("out of memory")]
    Memory,
}

impl From<AllocError> for JsonError {
    ghost from_gives = { λ _ e. e ≡ Memory };

    fn from(_: AllocError) -> JsonError {
        JsonError::Memory
    }
}

// Reading a tree gives `Invalid` and `OutOfMemory` alone: the others are of other readers.
impl From<json::Error> for JsonError {
    ghost from_gives = { λ from e. e ≡ refusal_of from };

    fn from(refused: json::Error) -> JsonError {
        match refused {
            json::Error::OutOfMemory => JsonError::Memory,
            json::Error::Invalid | json::Error::TooLong | json::Error::DuplicateKey => {
                JsonError::NotJson
            }
        }
    }
}
