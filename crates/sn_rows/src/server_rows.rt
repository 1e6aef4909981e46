//! The rows of a server.

ghost use Rattle.std.specs.Prelude.{◌≡◌, ◌↔◌, ◌≤◌, ◌<◌, ◌+◌, ◌++◌, ◌^◌, IsSome, IfSome, IfOk, IsTrue, false, length, string_bytes};
ghost use Rattle.sn_rows.specs.Bounds.{HasLength, is_identifier, is_nonce, is_server_string, is_type_or_empty, last_stamp, most_string};
ghost use Rattle.sn_rows.specs.Packed.{kind_in, content_in, enc_in};

use crate::texts::{is_str_within, is_text_within};
use sn_string::{LAST_STAMP, MOST_STRING, Text, TryClone};
use std::alloc::{AllocError, Global};
use std::marker::Model;

/// What a server keeps once: its secret, the last stamp it gave, and how many accounts it has.
#[derive(Drop)]
pub struct StoreRow {
    pub secret: [u8; 32],
    pub last: u64,
    pub accounts: u64,
    pub ghost last_fits: { last ≤ last_stamp },
}

impl StoreRow {
    /// The row, where the stamp is one.
    pub fn new(secret: [u8; 32], last: u64, accounts: u64) -> Option<StoreRow>
        ensures within { IsSome result ↔ (last ≤ last_stamp) }
        ensures parts { IfSome result (λ r. (r.secret ≡ secret) × (r.last ≡ last)
            × (r.accounts ≡ accounts)) }
    {
        if last > LAST_STAMP {
            return None;
        }
        Some(StoreRow {
            secret,
            last,
            accounts,
        })
    }
}

impl TryClone for StoreRow {
    fn try_clone(&self, _alloc: Global) -> Result<StoreRow, AllocError> {
        Ok(StoreRow {
            secret: self.secret,
            last: self.last,
            accounts: self.accounts,
        })
    }
}

/// An account: its identifier of 1 to 254 bytes, the generation of its keys, and what the server's
/// password is checked by.
#[derive(Drop)]
pub struct AccountRow {
    pub identifier: Text,
    pub generation: u64,
    pub check: [u8; 32],
    pub ghost identifier_fits: { IsTrue (is_identifier identifier) },
}

impl AccountRow {
    /// The row, where the identifier is within its bounds.
    pub fn new(identifier: Text, generation: u64, check: [u8; 32]) -> Option<AccountRow>
        ensures within { IsSome result ↔ HasLength 1 254 identifier }
        ensures parts { IfSome result (λ r. (r.identifier ≡ identifier)
            × (r.generation ≡ generation) × (r.check ≡ check)) }
    {
        if !is_text_within(&identifier, 1, 254) {
            return None;
        }
        Some(AccountRow {
            identifier,
            generation,
            check,
        })
    }
}

impl TryClone for AccountRow {
    fn try_clone(&self, alloc: Global) -> Result<AccountRow, AllocError> {
        let identifier = self.identifier.try_clone(alloc)?;
        Ok(AccountRow {
            identifier,
            generation: self.generation,
            check: self.check,
        })
    }
}

/// A generation's parameters beside the identifier: a cost of at least 1, a nonce of 1 to 256 bytes.
#[derive(Drop)]
pub struct GenerationRow {
    pub pw_cost: u32,
    pub pw_nonce: Text,
    pub ghost cost_fits: { 1 ≤ pw_cost },
    pub ghost nonce_fits: { IsTrue (is_nonce pw_nonce) },
    pub ghost cost_bounded: { pw_cost ≤ 4294967295 },
}

impl GenerationRow {
    /// The row, where cost and nonce are within their bounds.
    pub fn new(pw_cost: u32, pw_nonce: Text) -> Option<GenerationRow>
        ensures within { IsSome result ↔ ((1 ≤ pw_cost) × HasLength 1 256 pw_nonce) }
        ensures parts { IfSome result (λ r. (r.pw_cost ≡ pw_cost) × (r.pw_nonce ≡ pw_nonce)) }
    {
        if pw_cost == 0 {
            return None;
        }
        if !is_text_within(&pw_nonce, 1, 256) {
            return None;
        }
        Some(GenerationRow { pw_cost, pw_nonce })
    }
}

impl TryClone for GenerationRow {
    fn try_clone(&self, alloc: Global) -> Result<GenerationRow, AllocError> {
        let pw_nonce = self.pw_nonce.try_clone(alloc)?;
        Ok(GenerationRow {
            pw_cost: self.pw_cost,
            pw_nonce,
        })
    }
}

/// An item on the server, of the account with this number. A contract sees its columns. The type has 1 to 255 bytes, and
/// may be empty in a deleted item; a string has at most 1,048,576.
#[derive(Drop)]
pub struct ItemRow {
    account: u64,
    created: u64,
    updated: u64,
    // Type, content and item key, one behind the other: they take memory once.
    texts: String,
    content_len: u32,
    kind_len: u8,
    deleted: bool,
    ghost kind_fits: { IsTrue (is_type_or_empty (kind_in kind_len (string_bytes texts))) },
    ghost kind_stands: { deleted ≡ false → 1 ≤ length (kind_in kind_len (string_bytes texts)) },
    ghost created_fits: { created ≤ last_stamp },
    ghost updated_fits: { updated ≤ last_stamp },
    ghost content_fits: { IsTrue (is_server_string (content_in kind_len content_len (string_bytes texts))) },
    ghost enc_fits: { IsTrue (is_server_string (enc_in kind_len content_len (string_bytes texts))) },
    ghost lengths: { kind_len + content_len ≤ length (string_bytes texts) },
}

impl Model for ItemRow {
    ghost use Rattle.std.specs.Prelude.{string_bytes};
    ghost use Rattle.sn_rows.specs.Packed.{kind_in, content_in, enc_in};
    ghost use Rattle.sn_rows.specs.declared.item_columns.ItemColumns.{ItemColumns};

    ghost Value = { ItemColumns };

    ghost view = { λ r. record {
      account = r.account;
      kind = kind_in r.kind_len (string_bytes r.texts);
      created = r.created;
      updated = r.updated;
      deleted = r.deleted;
      content = content_in r.kind_len r.content_len (string_bytes r.texts);
      enc = enc_in r.kind_len r.content_len (string_bytes r.texts);
      kind_fits = r.kind_fits;
      kind_stands = r.kind_stands;
      created_fits = r.created_fits;
      updated_fits = r.updated_fits;
      content_fits = r.content_fits;
      enc_fits = r.enc_fits;
    } };
}

impl ItemRow {
    /// The row, where type, stamps and strings are within their bounds. Takes memory for the three texts at once.
    pub fn new(
        alloc: Global,
        account: u64,
        kind: &str,
        created: u64,
        updated: u64,
        deleted: bool,
        content: &str,
        enc: &str,
    ) -> Result<Option<ItemRow>, AllocError>
        ensures within { IfOk result (λ found. IsSome found ↔ (HasLength 0 255 kind.now × (deleted ≡ false → 1 ≤ length kind.now)
            × (created ≤ last_stamp) × (updated ≤ last_stamp)
            × HasLength 0 most_string content.now × HasLength 0 most_string enc.now)) }
        ensures parts { IfOk result (λ found. IfSome found (λ r. (r.account ≡ account) × (r.kind ≡ kind.now)
            × (r.created ≡ created) × (r.updated ≡ updated) × (r.deleted ≡ deleted)
            × (r.content ≡ content.now) × (r.enc ≡ enc.now))) }
    {
        if !is_str_within(kind, 0, 255) {
            return Ok(None);
        }
        if kind.is_empty() && !deleted {
            return Ok(None);
        }
        if created > LAST_STAMP || updated > LAST_STAMP {
            return Ok(None);
        }
        if !is_str_within(content, 0, MOST_STRING) {
            return Ok(None);
        }
        if !is_str_within(enc, 0, MOST_STRING) {
            return Ok(None);
        }
        let row = ItemRow::packed(
            alloc, account, kind, created, updated, deleted, content, enc,
        )?;
        Ok(Some(row))
    }

    /// The row of columns that are within their bounds.
    pub(crate) fn packed(
        alloc: Global,
        account: u64,
        kind: &str,
        created: u64,
        updated: u64,
        deleted: bool,
        content: &str,
        enc: &str,
    ) -> Result<ItemRow, AllocError>
        requires kind { IsTrue (is_type_or_empty kind.now) }
        requires stands { deleted ≡ false → 1 ≤ length kind.now }
        requires created { created ≤ last_stamp }
        requires updated { updated ≤ last_stamp }
        requires content { IsTrue (is_server_string content.now) }
        requires enc { IsTrue (is_server_string enc.now) }
        ensures account { IfOk result (λ r. r.account ≡ account) }
        ensures kind { IfOk result (λ r. r.kind ≡ kind.now) }
        ensures created { IfOk result (λ r. r.created ≡ created) }
        ensures updated { IfOk result (λ r. r.updated ≡ updated) }
        ensures deleted { IfOk result (λ r. r.deleted ≡ deleted) }
        ensures content { IfOk result (λ r. r.content ≡ content.now) }
        ensures enc { IfOk result (λ r. r.enc ≡ enc.now) }
    {
        let kind_len = kind.len() as u8;
        let content_len = content.len() as u32;
        let texts = joined(alloc, kind, content, enc)?;
        Ok(ItemRow {
            account,
            created,
            updated,
            texts,
            content_len,
            kind_len,
            deleted,
        })
    }

    /// The number of the account.
    pub fn account(&self) -> u64
        ensures { result ≡ self.now.account }
    {
        self.account
    }

    /// The item's type.
    pub fn kind(&self) -> &str
        ensures { result.now ≡ self.now.kind }
    {
        let (kind, _, _) = self.texts();
        kind
    }

    /// The stamp of the first acceptance.
    pub fn created(&self) -> u64
        ensures { result ≡ self.now.created }
    {
        self.created
    }

    /// The stamp of the last acceptance.
    pub fn updated(&self) -> u64
        ensures { result ≡ self.now.updated }
    {
        self.updated
    }

    pub fn is_deleted(&self) -> bool
        ensures { result ≡ self.now.deleted }
    {
        self.deleted
    }

    /// The sealed content.
    pub fn content(&self) -> &str
        ensures { result.now ≡ self.now.content }
    {
        let (_, content, _) = self.texts();
        content
    }

    /// The sealed item key.
    pub fn enc(&self) -> &str
        ensures { result.now ≡ self.now.enc }
    {
        let (_, _, enc) = self.texts();
        enc
    }

    // Type, content and item key.
    fn texts(&self) -> (&str, &str, &str)
        ensures kind { result.0.now ≡ self.now.kind }
        ensures content { result.1.now ≡ self.now.content }
        ensures enc { result.2.now ≡ self.now.enc }
    {
        let texts = self.texts.as_str();
        let (kind, strings) = texts.split_at(self.kind_len as usize);
        let (content, enc) = strings.split_at(self.content_len as usize);
        (kind, content, enc)
    }
}

impl TryClone for ItemRow {
    fn try_clone(&self, alloc: Global) -> Result<ItemRow, AllocError> {
        let (kind, content, enc) = self.texts();
        let row = ItemRow::packed(
            alloc,
            self.account(),
            kind,
            self.created(),
            self.updated(),
            self.is_deleted(),
            content,
            enc,
        )?;
        Ok(row)
    }
}

// The three texts, one behind the other.
fn joined(alloc: Global, kind: &str, content: &str, enc: &str) -> Result<String, AllocError>
    requires { length kind.now + length content.now + length enc.now < 2 ^ 32 }
    ensures { IfOk result (λ texts. string_bytes texts ≡ kind.now ++ (content.now ++ enc.now)) }
{
    let mut texts = String::with_capacity(alloc, kind.len() + content.len() + enc.len())?;
    texts.push_str(kind)?;
    texts.push_str(content)?;
    texts.push_str(enc)?;
    Ok(texts)
}
