//! What a list of a device's items says of each.

use sn_string::Text;
use uuid::Uuid;

/// How an item stands on the device: the first of these that holds.
#[derive(Clone, Copy, Debug, PartialEq, Eq)]
pub enum Mark {
    /// Its draft is a deletion.
    Deleted,
    /// It has a draft.
    Draft,
    /// It opens under no set that is held.
    Closed,
    Clean,
}

/// A line of the list.
#[derive(Debug, Drop)]
pub struct Listed {
    pub uuid: Uuid,
    pub mark: Mark,
    /// The length of its content in bytes; 0 of a deletion, and of what doesn't open.
    pub length: u64,
    pub kind: Text,
}
