//! The ideal state: accounts, drafts and devices, in plain text.

use sn_string::{KeySet, OwnedList, Text};
use uuid::Uuid;

/// What a draft holds.
#[derive(Drop)]
pub enum Content {
    Plain(Text),
    Deleted,
}

/// What a version holds: a content under the set of this number, or nothing any more.
#[derive(Drop)]
pub enum Body {
    Under(Text, u64),
    Gone,
}

/// A version of an item.
#[derive(Drop)]
pub struct Version {
    pub uuid: Uuid,
    /// Microseconds since 1970; no two versions have the same.
    pub stamp: u64,
    /// The item's type, as `Note`.
    pub kind: Text,
    pub body: Body,
}

/// An account. Its key sets are numbered from 1, and its versions stand by rising stamp.
#[derive(Drop)]
pub struct Account {
    pub identifier: Text,
    pub sets: OwnedList<KeySet>,
    pub versions: OwnedList<Version>,
}

/// What a draft was sent as, and the number of the set under which it was sent; for a moment
/// without a number, where a device has come to hold another set.
#[derive(Drop)]
pub struct Posted {
    pub content: Content,
    pub set: Option<u64>,
}

/// A draft of an item on a device.
#[derive(Drop)]
pub struct Draft {
    /// The device's name.
    pub device: Text,
    pub uuid: Uuid,
    pub kind: Text,
    /// The stamp of the version that it was made on; none for a new item.
    pub base: Option<u64>,
    pub latest: Content,
    pub posted: Option<Posted>,
}

/// A device that has an account, and the numbers of the sets that it holds, rising.
#[derive(Drop)]
pub struct Device {
    pub name: Text,
    /// The account's identifier.
    pub account: Text,
    pub held: OwnedList<u64>,
}

/// The ideal state.
#[derive(Drop)]
pub struct Ideal {
    pub accounts: OwnedList<Account>,
    pub drafts: OwnedList<Draft>,
    pub devices: OwnedList<Device>,
}
