// Why a text or an item doesn't open.
ghost use Rattle.std.specs.Prelude.{◌≡◌};
ghost use Rattle.sn_items.specs.declared.error.ItemError.TheVariants.{Memory};

use sn_string::{StringError, Text};
use std::alloc::AllocError;
use thiserror::Error;
use uuid::Uuid;

#[derive(Debug, Drop, Error)]
pub enum ItemError {
    /// The text is no 003 string.
    #[error("the text is no 003 string")]
    Form(StringError),
    /// The string names another uuid.
    #[error("the string names another uuid")]
    OtherUuid {
        written: Uuid,
    },
    /// The string's hash isn't that of its parts under the authentication key.
    #[error("the hash isn't that of the string's parts")]
    HashMismatch {
        written: [u8; 32],
        computed: [u8; 32],
    },
    /// The ciphertext's text doesn't end in padding.
    #[error("the text doesn't end in padding")]
    Padding,
    /// The opened bytes aren't UTF-8 from this place on.
    #[error("the opened bytes aren't UTF-8 from byte {place} on")]
    NotUtf8 {
        place: usize,
    },
    /// The key string opens to a text that isn't 128 lower-case hex digits.
    #[error("the key string holds no item key")]
    NotItemKey,
    /// The content opens to a text that is no JSON object.
    #[error("the content is no JSON object")]
    NotObject,
    /// The string carries other parameters than the key set's; its nonce.
    #[error("the string carries the parameters of another key set")]
    OtherSet {
        nonce: Text,
    },
    #[error("out of memory")]
    Memory,
}

impl From<AllocError> for ItemError {
    ghost from_gives = { λ _ e. e ≡ Memory };

    fn from(_: AllocError) -> ItemError {
        ItemError::Memory
    }
}
