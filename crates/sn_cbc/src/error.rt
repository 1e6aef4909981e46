// Why a ciphertext doesn't open.
ghost use Rattle.std.specs.Prelude.{◌≡◌};
ghost use Rattle.sn_cbc.specs.declared.error.CbcError.TheVariants.{Memory};

use std::alloc::AllocError;
use thiserror::Error;

/// The cause of a refusal.
#[derive(Clone, Copy, Debug, PartialEq, Eq, Error)]
pub enum CbcError {
    /// The length isn't a positive multiple of 16.
    #[error("{length} bytes are no positive number of whole blocks")]
    Length { length: usize },
    /// The text's last byte n isn't 1 to 16, or its last n bytes aren't all n.
    #[error("the text doesn't end in padding")]
    Padding,
    /// No memory for the plain text.
    #[error("out of memory")]
    Memory,
}

impl From<AllocError> for CbcError {
    ghost from_gives = { λ _ e. e ≡ Memory };

    fn from(_: AllocError) -> CbcError {
        CbcError::Memory
    }
}
