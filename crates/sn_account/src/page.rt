//! A page of an account's items.

ghost use Rattle.std.specs.Prelude.{◌≤◌};
ghost use Rattle.sn_sync.specs.Stamps.{last_stamp};

use sn_string::OwnedList;
use sn_sync::Item;

/// The items of a page as an answer gives them.
#[derive(Drop)]
pub struct Page {
    pub items: OwnedList<Item>,
    /// The stamp of the last of them.
    pub last: u64,
    /// Whether something is left.
    pub more: bool,
    /// The greatest stamp of all items of the account, 0 where it has none.
    pub greatest: u64,
    pub ghost last_fits: { last ≤ last_stamp },
    pub ghost greatest_fits: { greatest ≤ last_stamp },
}
