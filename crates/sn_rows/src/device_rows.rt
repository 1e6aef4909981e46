//! The rows of a device.

ghost use Rattle.std.specs.Prelude.{◌≡◌, ◌↔◌, ◌≤◌, IsSome, IfSome, IsTrue};
ghost use Rattle.std.specs.Option.{ForSome};
ghost use Rattle.sn_rows.specs.Bounds.{HasLength, IsVisible, is_identifier, is_nonce, is_sync_token, is_token, is_type, last_stamp};

use crate::body::RowBody;
use crate::texts::{is_text_within, is_visible};
use sn_string::{LAST_STAMP, Text, TryClone};
use std::alloc::{AllocError, Global};
use uuid::Uuid;

/// The account of a device: its identifier of 1 to 254 bytes, its uuid, and the tokens of its last
/// answers.
#[derive(Drop)]
pub struct OwnerRow {
    pub identifier: Text,
    pub account: Uuid,
    /// The session token: 1 to 1,024 visible ASCII characters.
    pub token: Text,
    /// The sync token as the server gave it, at most 33,554,432 bytes; empty where there is none.
    pub sync_token: Text,
    /// The cursor token as the server gave it, likewise.
    pub cursor_token: Text,
    /// The number of the next item that is put.
    pub next: u64,
    pub ghost identifier_fits: { IsTrue (is_identifier identifier) },
    pub ghost token_fits: { IsTrue (is_token token) },
    pub ghost sync_token_fits: { IsTrue (is_sync_token sync_token) },
    pub ghost cursor_token_fits: { IsTrue (is_sync_token cursor_token) },
}

impl OwnerRow {
    /// The row, where identifier and tokens are within their bounds.
    pub fn new(
        identifier: Text,
        account: Uuid,
        token: Text,
        sync_token: Text,
        cursor_token: Text,
        next: u64,
    ) -> Option<OwnerRow>
        ensures within { IsSome result ↔ (HasLength 1 254 identifier × HasLength 1 1024 token
            × IsVisible token × HasLength 0 33554432 sync_token × HasLength 0 33554432 cursor_token) }
        ensures parts { IfSome result (λ r. (r.identifier ≡ identifier) × (r.account ≡ account)
            × (r.token ≡ token) × (r.sync_token ≡ sync_token) × (r.cursor_token ≡ cursor_token)
            × (r.next ≡ next)) }
    {
        if !is_text_within(&identifier, 1, 254) {
            return None;
        }
        if !is_text_within(&token, 1, 1024) {
            return None;
        }
        if !is_visible(&token) {
            return None;
        }
        if !is_text_within(&sync_token, 0, 33_554_432) {
            return None;
        }
        if !is_text_within(&cursor_token, 0, 33_554_432) {
            return None;
        }
        Some(OwnerRow {
            identifier,
            account,
            token,
            sync_token,
            cursor_token,
            next,
        })
    }
}

impl TryClone for OwnerRow {
    fn try_clone(&self, alloc: Global) -> Result<OwnerRow, AllocError> {
        let identifier = self.identifier.try_clone(alloc)?;
        let token = self.token.try_clone(alloc)?;
        let sync_token = self.sync_token.try_clone(alloc)?;
        let cursor_token = self.cursor_token.try_clone(alloc)?;
        Ok(OwnerRow {
            identifier,
            account: self.account,
            token,
            sync_token,
            cursor_token,
            next: self.next,
        })
    }
}

/// A key set of a device: its parameters beside the identifier, and its keys.
#[derive(Drop)]
pub struct SetRow {
    pub pw_cost: u32,
    pub pw_nonce: Text,
    /// The server's password.
    pub pw: [u8; 32],
    /// The master key.
    pub mk: [u8; 32],
    /// The authentication key.
    pub ak: [u8; 32],
    pub ghost cost_fits: { 1 ≤ pw_cost },
    pub ghost nonce_fits: { IsTrue (is_nonce pw_nonce) },
    pub ghost cost_bounded: { pw_cost ≤ 4294967295 },
}

impl SetRow {
    /// The row, where cost and nonce are within their bounds.
    pub fn new(
        pw_cost: u32,
        pw_nonce: Text,
        pw: [u8; 32],
        mk: [u8; 32],
        ak: [u8; 32],
    ) -> Option<SetRow>
        ensures within { IsSome result ↔ ((1 ≤ pw_cost) × HasLength 1 256 pw_nonce) }
        ensures parts { IfSome result (λ r. (r.pw_cost ≡ pw_cost) × (r.pw_nonce ≡ pw_nonce)
            × (r.pw ≡ pw) × (r.mk ≡ mk) × (r.ak ≡ ak)) }
    {
        if pw_cost == 0 {
            return None;
        }
        if !is_text_within(&pw_nonce, 1, 256) {
            return None;
        }
        Some(SetRow {
            pw_cost,
            pw_nonce,
            pw,
            mk,
            ak,
        })
    }
}

impl TryClone for SetRow {
    fn try_clone(&self, alloc: Global) -> Result<SetRow, AllocError> {
        let pw_nonce = self.pw_nonce.try_clone(alloc)?;
        Ok(SetRow {
            pw_cost: self.pw_cost,
            pw_nonce,
            pw: self.pw,
            mk: self.mk,
            ak: self.ak,
        })
    }
}

/// An item on a device: what the server last had of it, and its draft.
#[derive(Drop)]
pub struct LocalItem {
    pub uuid: Uuid,
    /// The item's type, of 1 to 255 bytes.
    pub kind: Text,
    /// The stamp of the version that the draft rests on.
    pub base: Option<u64>,
    /// Whether that version is to be sent again under other keys.
    pub stale: bool,
    /// That version.
    pub body: Option<RowBody>,
    /// The draft as it is now.
    pub latest: Option<RowBody>,
    /// The draft as it was sent, where no answer has come yet.
    pub posted: Option<RowBody>,
    pub ghost kind_fits: { IsTrue (is_type kind) },
    pub ghost base_fits: { ForSome base (λ stamp. stamp ≤ last_stamp) },
}

impl LocalItem {
    /// The row, where type and stamp are within their bounds.
    pub fn new(
        uuid: Uuid,
        kind: Text,
        base: Option<u64>,
        stale: bool,
        body: Option<RowBody>,
        latest: Option<RowBody>,
        posted: Option<RowBody>,
    ) -> Option<LocalItem>
        ensures within { IsSome result
            ↔ (HasLength 1 255 kind × ForSome base (λ stamp. stamp ≤ last_stamp)) }
        ensures parts { IfSome result (λ r. (r.uuid ≡ uuid) × (r.kind ≡ kind) × (r.base ≡ base)
            × (r.stale ≡ stale) × (r.body ≡ body) × (r.latest ≡ latest) × (r.posted ≡ posted)) }
    {
        if !is_text_within(&kind, 1, 255) {
            return None;
        }
        if !is_base(base) {
            return None;
        }
        Some(LocalItem {
            uuid,
            kind,
            base,
            stale,
            body,
            latest,
            posted,
        })
    }
}

fn is_base(base: Option<u64>) -> bool
    ensures { IsTrue result ↔ ForSome base (λ stamp. stamp ≤ last_stamp) }
{
    match base {
        Some(stamp) => stamp <= LAST_STAMP,
        None => true,
    }
}

impl TryClone for LocalItem {
    fn try_clone(&self, alloc: Global) -> Result<LocalItem, AllocError> {
        let kind = self.kind.try_clone(alloc)?;
        let body = self.body.try_clone(alloc)?;
        let latest = self.latest.try_clone(alloc)?;
        let posted = self.posted.try_clone(alloc)?;
        Ok(LocalItem {
            uuid: self.uuid,
            kind,
            base: self.base,
            stale: self.stale,
            body,
            latest,
            posted,
        })
    }
}
