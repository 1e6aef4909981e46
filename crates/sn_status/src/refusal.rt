// Why a command is refused. None of these is want of memory, which is a status of its own.
ghost use Rattle.std.specs.Prelude.{◌≡◌, MatchOption};
ghost use Rattle.sn_status.specs.Errors.{IsWant, form_error, item_error};

use sn_items::ItemError;
use sn_rekey::RekeyError;
use sn_string::{StringError, Text};
use uuid::Uuid;

#[derive(Debug, Drop)]
pub enum Refusal {
    /// The input has more than 16,777,216 bytes.
    InputLong,
    /// The input isn't UTF-8; the length of its longest prefix that is.
    InputUtf8 { place: usize },
    /// The input is no 003 string.
    Form(FormRefusal),
    /// The string doesn't open.
    Item(ItemRefusal),
    /// The input is no script; its first line that is out of the grammar, counted from 1.
    Line { number: u64 },
    /// The script's line of this number names an item or a request that there isn't yet.
    NotAllowed { number: u64 },
    /// The input's first line, a password, hasn't 1 to 1024 bytes; its length.
    PasswordLine { length: usize },
    /// The device refuses the call.
    Client(ClientRefusal),
}

/// The part of a 003 string that is out of form. A place is the byte at which the part begins.
#[derive(Debug, Drop)]
pub enum FormRefusal {
    Parts { count: usize },
    Version { place: usize },
    Hash { place: usize },
    Uuid { place: usize },
    Iv { place: usize },
    Ciphertext { place: usize },
    Params { place: usize },
}

/// Why a string or an item doesn't open.
#[derive(Debug, Drop)]
pub enum ItemRefusal {
    Form(FormRefusal),
    /// The string names another uuid.
    OtherUuid {
        written: Uuid,
    },
    /// The string's hash isn't that of its parts under the authentication key.
    HashMismatch {
        written: [u8; 32],
        computed: [u8; 32],
    },
    Padding,
    /// The opened bytes aren't UTF-8 from this place on.
    NotUtf8 {
        place: usize,
    },
    NotItemKey,
    NotObject,
    /// The string carries other parameters than the key set's; its nonce.
    OtherSet {
        nonce: Text,
    },
}

/// Why a device refuses a call.
#[derive(Debug, Drop)]
pub enum ClientRefusal {
    NoAccount,
    /// No row has the uuid, or its draft is a deletion.
    NoItem { uuid: Uuid },
    /// The item opens under no set that is held; the nonce of that under which it is sealed.
    Closed { nonce: Text },
    /// The content's length in bytes.
    TooLong { length: u64 },
    NotObject,
    RoundsUsed,
    /// The last of the uuids that were drawn, which are all in the store.
    NoFreshUuid { drawn: Uuid },
    WrongPassword,
    /// The store's account is this one.
    OtherAccount { identifier: Text },
    HasAccount { identifier: Text },
    Cost { cost: u32 },
    NumbersUsed { next: u64 },
    /// No change of password may begin.
    Rekey { error: RekeyError },
    /// A batch is longer than one of the journal may be.
    TooLarge { size: u64 },
}

/// The refusal that an error of the string's reader is. None is want of memory.
pub fn form_refusal(error: StringError) -> Option<FormRefusal>
    ensures { MatchOption result (error ≡ StringError.Memory) (λ refusal. error ≡ form_error refusal) }
{
    match error {
        StringError::Parts { count } => Some(FormRefusal::Parts { count }),
        StringError::Version { place } => Some(FormRefusal::Version { place }),
        StringError::Hash { place } => Some(FormRefusal::Hash { place }),
        StringError::Uuid { place } => Some(FormRefusal::Uuid { place }),
        StringError::Iv { place } => Some(FormRefusal::Iv { place }),
        StringError::Ciphertext { place } => Some(FormRefusal::Ciphertext { place }),
        StringError::Params { place } => Some(FormRefusal::Params { place }),
        StringError::Memory => None,
    }
}

/// The refusal that an error of opening is. None is want of memory.
pub fn item_refusal(error: ItemError) -> Option<ItemRefusal>
    ensures { MatchOption result (IsWant error) (λ refusal. error ≡ item_error refusal) }
{
    match error {
        ItemError::Form(error) => match form_refusal(error) {
            Some(refusal) => Some(ItemRefusal::Form(refusal)),
            None => None,
        },
        ItemError::OtherUuid { written } => Some(ItemRefusal::OtherUuid { written }),
        ItemError::HashMismatch { written, computed } => {
            Some(ItemRefusal::HashMismatch { written, computed })
        }
        ItemError::Padding => Some(ItemRefusal::Padding),
        ItemError::NotUtf8 { place } => Some(ItemRefusal::NotUtf8 { place }),
        ItemError::NotItemKey => Some(ItemRefusal::NotItemKey),
        ItemError::NotObject => Some(ItemRefusal::NotObject),
        ItemError::OtherSet { nonce } => Some(ItemRefusal::OtherSet { nonce }),
        ItemError::Memory => None,
    }
}
