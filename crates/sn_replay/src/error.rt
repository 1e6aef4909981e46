//! Why a script isn't replayed to its end.

ghost use Rattle.std.specs.Prelude.{◌≡◌};
ghost use Rattle.sn_replay.specs.declared.error.ReplayError.TheVariants.{Memory};

use std::alloc::AllocError;
use thiserror::Error;

/// Why a script isn't replayed to its end.
#[derive(Clone, Copy, Debug, PartialEq, Eq, Error)]
pub enum ReplayError {
    /// The line of this number, counted from 1, names an item that has no label yet, or a request that its device didn't make.
    #[error("line {number} may not come where it stands")]
    NotAllowed { number: u64 },
    #[error("out of memory")]
    Memory,
}

impl From<AllocError> for ReplayError {
    ghost from_gives = { λ _ e. e ≡ Memory };

    fn from(_: AllocError) -> ReplayError {
        ReplayError::Memory
    }
}
