//! What the items of a sync leave, one after another.

ghost use Rattle.std.specs.Prelude.{◌≤◌};
ghost use Rattle.sn_sync.specs.Stamps.{last_stamp};

use sn_rows::Change;
use sn_string::OwnedList;
use sn_sync::{Conflict, Item};

/// What the items that were dealt with leave.
#[derive(Drop)]
pub struct Taken {
    /// The last stamp that was given.
    pub last: u64,
    pub changes: OwnedList<Change>,
    pub saved: OwnedList<Item>,
    pub conflicts: OwnedList<Conflict>,
    /// The bytes of the stored items' strings in the conflicts.
    pub bytes: u64,
    pub ghost last_fits: { last ≤ last_stamp },
}

/// What becomes of one item.
#[derive(Drop)]
pub enum Effect {
    /// It isn't accepted, and is given back.
    Unsaved(Conflict),
    /// It is the stored version, which is given.
    Saved(Item),
    /// Another version is stored, which is given; its strings have so many bytes.
    Other(Item, u64),
    /// It is accepted: the change, the item as it is stored from now on, and its stamp.
    Accepted(Change, Item, u64),
    /// It would be accepted with a stamp past the last.
    PastLast,
}
