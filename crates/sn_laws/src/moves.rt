//! The moves of the ideal state.

use crate::ideal::Content;
use sn_string::{KeySet, Text};
use uuid::Uuid;

/// A move. It carries what a report prints of it, and what a new draft begins with.
#[derive(Drop)]
pub enum Move {
    /// An account begins, with its first set.
    Register {
        identifier: Text,
        set: KeySet,
    },
    /// A device comes to hold the set of this number of an account.
    Join {
        device: Text,
        identifier: Text,
        number: u64,
    },
    /// A draft's content. The type and the base are the draft's, also where it is new.
    Edit {
        device: Text,
        uuid: Uuid,
        kind: Text,
        base: Option<u64>,
        latest: Content,
    },
    /// A draft ends that no server can have: its item is new, and nothing of it was sent, or it is
    /// deleted and another account has its uuid.
    Drop {
        device: Text,
        uuid: Uuid,
    },
    /// A draft is sent.
    Post {
        device: Text,
        uuid: Uuid,
    },
    /// What was sent of a draft loses the number of its set, where the device has come to hold another.
    Unpost {
        device: Text,
        uuid: Uuid,
    },
    /// What was sent becomes a version with this stamp: a content under the set of this number, or a
    /// deletion, which has none.
    Accept {
        device: Text,
        uuid: Uuid,
        stamp: u64,
        under: Option<u64>,
    },
    /// The last version of an item is sealed again, under the set of this number, and gets this stamp.
    Rewrap {
        uuid: Uuid,
        stamp: u64,
        under: u64,
    },
    /// A draft ends, whose content is the last version's.
    Settle {
        device: Text,
        uuid: Uuid,
    },
    /// What was sent of a draft is the last version's content: the draft now stands on that version,
    /// which has this stamp.
    SettlePosted {
        device: Text,
        uuid: Uuid,
        stamp: u64,
    },
    /// A draft meets another version than the one that it stands on: its copy becomes a new item with
    /// the uuid `other`.
    Fork {
        device: Text,
        uuid: Uuid,
        other: Uuid,
    },
    /// A new item, whose uuid another account has, gets the uuid `other`.
    Rename {
        device: Text,
        uuid: Uuid,
        other: Uuid,
    },
    /// A deletion meets a live version other than the one that it stands on: it ends.
    GiveWay {
        device: Text,
        uuid: Uuid,
    },
    /// An account gets one more set, of this number.
    Change {
        identifier: Text,
        number: u64,
        set: KeySet,
    },
    /// A device holds the set of this number no longer.
    Retire {
        device: Text,
        number: u64,
    },
}
