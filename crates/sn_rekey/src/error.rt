//! Why no change of password may begin.

use sn_string::Text;
use thiserror::Error;
use uuid::Uuid;

#[derive(Debug, Drop, Error)]
pub enum RekeyError {
    /// A change is under way, as this shows.
    #[error("a change of password is under way")]
    ChangeRunning { by: Running },
    /// The item was sent, and no answer to that was applied.
    #[error("an item was sent and isn't answered")]
    Unsent { uuid: Uuid },
}

/// What shows that a change of password is under way.
#[derive(Debug, Drop)]
pub enum Running {
    /// An older set is held, of this nonce.
    Older { nonce: Text },
    /// A version of the item is sealed under another set than the present one.
    Item { uuid: Uuid },
}
