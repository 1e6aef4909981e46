//! Answers.

use crate::item::Item;
use sn_string::{OwnedList, Params, Text};
use uuid::Uuid;

/// An item of a request that was not accepted.
#[derive(Drop)]
pub enum Conflict {
    /// The account has another version than the one that the sent item replaces.
    Sync { server: Item },
    /// Another account has the uuid.
    Uuid { unsaved: Item },
    /// A string isn't of the account's present set.
    Content { unsaved: Item },
}

/// What a refusal keeps beside its tag.
#[derive(Drop)]
pub enum More {
    Nothing,
    Name(Text),
    Number(u64),
    Uuid(Uuid),
    Both(u64, Uuid),
}

/// An answer.
#[derive(Drop)]
pub enum Answer {
    Account {
        token: Text,
        identifier: Text,
        uuid: Uuid,
    },
    Params(Params),
    /// Stored items are those with stamps: the retrieved, the saved and those of sync conflicts.
    Sync {
        conflicts: OwnedList<Conflict>,
        cursor_token: Option<Text>,
        retrieved: OwnedList<Item>,
        saved: OwnedList<Item>,
        sync_token: Text,
    },
    /// A refusal, whose status isn't 200.
    Refused {
        status: u16,
        tag: Text,
        more: More,
    },
}
