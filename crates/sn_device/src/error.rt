//! Why a call of a device was refused.

ghost use Rattle.std.specs.Prelude.{◌≡◌};
ghost use Rattle.sn_device.specs.declared.error.ClientError.TheVariants.{Memory};

use sn_rekey::RekeyError;
use sn_string::Text;
use std::alloc::AllocError;
use thiserror::Error;
use uuid::Uuid;

/// Where bytes that came as an answer aren't one that may be used. Places in lists are counted from 0.
#[derive(Debug, Drop)]
pub enum Place {
    /// They are no HTTP answer.
    Head,
    /// Its body is no JSON object.
    Json,
    /// The member of this name is out of form, or missing.
    Member { name: Text },
    /// The saved item of this place fails the checks of an answer to a sync.
    Saved { index: u64 },
    /// The conflict of this place does.
    Conflict { index: u64 },
    /// The retrieved item of this place does.
    Retrieved { index: u64 },
    /// Something is to be left, and nothing was retrieved.
    Cursor,
}

/// Why a call was refused. The device is then as at its last commit.
#[derive(Debug, Drop, Error)]
pub enum ClientError {
    #[error("the store has no account")]
    NoAccount,
    /// No row has the uuid, or its draft is a deletion.
    #[error("no such item")]
    NoItem { uuid: Uuid },
    /// The item opens under no set that is held. The nonce is that of the set under which it is sealed.
    #[error("an item of a set that isn't held")]
    Closed { nonce: Text },
    /// The content's length in bytes.
    #[error("a content of {length} bytes is too long")]
    TooLong { length: u64 },
    #[error("the content is no JSON object")]
    NotObject,
    /// The server's refusal.
    #[error("refused by the server with status {status}")]
    Refused { status: u16, tag: Text },
    #[error("no answer that may be used")]
    BadAnswer { place: Place },
    /// As many exchanges were made as a call may make, and one more is due.
    #[error("too many exchanges")]
    RoundsUsed,
    /// All uuids that may be drawn are in the store; this is the last of them.
    #[error("no fresh uuid")]
    NoFreshUuid { drawn: Uuid },
    /// The parameters are those of a set that is held, and the password gives other keys.
    #[error("another password")]
    WrongPassword,
    /// The store's account is this one, and not the one of the call.
    #[error("the store has another account")]
    OtherAccount { identifier: Text },
    #[error("the store has an account")]
    HasAccount { identifier: Text },
    /// The cost is below the least that is taken, or above 10,000,000.
    #[error("a cost of {cost} isn't taken")]
    Cost { cost: u32 },
    /// A new row is due, and the local numbers are used up.
    #[error("no local number is left")]
    NumbersUsed { next: u64 },
    /// A change of password may not begin.
    #[error("no change of password may begin: {error}")]
    Rekey { error: RekeyError },
    /// The changes of a commit are longer than a batch of the journal may be.
    #[error("a batch of {size} bytes is too large")]
    TooLarge { size: u64 },
    #[error("the link failed")]
    LinkFault,
    #[error("out of memory")]
    Memory,
}

impl From<AllocError> for ClientError {
    ghost from_gives = { λ _ e. e ≡ Memory };

    fn from(_: AllocError) -> ClientError {
        ClientError::Memory
    }
}
