//! What a device did in a commit.

use sn_string::{OwnedList, Text};
use uuid::Uuid;

/// What a device did in a commit, as far as its rows and its changes don't tell it. A change of password isn't among
/// it.
#[derive(Drop)]
pub enum Done {
    /// It took up the account of this identifier, with the account's last set, of this number.
    Begins { identifier: Text, number: u64 },
    /// It took another session token.
    Renews,
    /// It put a new item of this uuid, type and content.
    Puts { uuid: Uuid, kind: Text, text: Text },
    /// It gave an item this content.
    Edits { text: Text },
    /// It deleted an item.
    Deletes,
    /// It kept drafts as they are sent.
    Posts,
    /// It applied the answer to a sync, by which another account has these uuids.
    Applies { foreign: OwnedList<Uuid> },
}
