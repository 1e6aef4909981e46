//! Where an item stands among all items.

use uuid::Uuid;

/// An item's account, its stamp and its uuid. Places are in order by the account, then by the stamp, then by the uuid.
#[derive(Clone, Copy, PartialEq, Eq, PartialOrd, Ord)]
pub(crate) struct Place {
    pub(crate) account: u64,
    pub(crate) stamp: u64,
    pub(crate) uuid: Uuid,
}
