//! What a call looks at before it changes or tells anything, and why it is refused there.

ghost use Rattle.std.specs.Prelude.{◌≡◌, ◌≢◌, ◌⊎◌, ◌↔◌, IfErr, IfNone, IfOk, IfSome, IsTrue, OnOk, Some, string_bytes};
ghost use Rattle.sn_row_map.specs.RowMaps.{row_in};
ghost use Rattle.sn_rows.specs.declared.body.RowBody.TheVariants as row;
ghost use Rattle.sn_rows.specs.declared.body.RowStrings.{RowStrings};
ghost use Rattle.sn_rows.specs.declared.device_rows.OwnerRow.{OwnerRow};
ghost use Rattle.sn_string.specs.Grammar.{Is003, Reading};
ghost use Rattle.sn_string.specs.declared.reader.StringError.TheVariants as string;
ghost use Rattle.sn_table.specs.Tables.{table_rows};
ghost use Rattle.sn_drafts.specs.Refusing.{MayRefuse, none_more};
ghost use Rattle.sn_local.specs.Index.{Indexes};
ghost use Rattle.sn_device.specs.Listing.{IsClosed, IsDeleted, SaysNonce, Shows, shown_of};
ghost use Rattle.sn_device.specs.Runs.{IsGone, WithAccount, WithContent};
ghost use Rattle.sn_device.specs.States.{Bytes, HasItem, HasSets, IsSound, IsSoundItem, columns};
ghost use Rattle.sn_device.specs.Steps.{IsContent};
ghost use Rattle.sn_device.specs.declared.error.ClientError.TheVariants as refusal;

use sn_device::ClientError;
use sn_disk::Disk;
use sn_items::is_object;
use sn_local::{Index, find, sets_of};
use sn_rows::{LocalItem, RowBody, RowStrings};
use sn_sets::{Sets, sealed_strings};
use sn_string::{LONGEST_CONTENT, StringError, Text, TryClone, read};
use sn_table::Table;
use std::alloc::{AllocError, Global};
use uuid::Uuid;

/// The key sets of the account.
pub fn held_sets<D: Disk>(alloc: Global, table: &Table<D>) -> Result<Sets, ClientError>
    requires { IsSound (row_in (table_rows table.now)) }
    ensures ok { IfOk result (λ sets. (owner : OwnerRow) × HasSets (row_in (table_rows table.now)) owner sets) }
    ensures err { IfErr result (MayRefuse (WithAccount (row_in (table_rows table.now)) (λ owner sets. none_more))) }
{
    match sets_of(alloc, table)? {
        Some(sets) => Ok(sets),
        None => Err(ClientError::NoAccount),
    }
}

/// Whether a content may be put: at most 700,000 bytes, and a JSON object.
pub(crate) fn check_content(alloc: Global, text: &str) -> Result<(), ClientError>
    ensures ok { OnOk result (IsContent text.now) }
    ensures err { IfErr result (MayRefuse (WithContent text.now none_more)) }
{
    let length = text.len();
    if length > LONGEST_CONTENT {
        return Err(ClientError::TooLong {
            length: length as u64,
        });
    }
    if !is_object(alloc, text)? {
        return Err(ClientError::NotObject);
    }
    Ok(())
}

/// The item of a uuid with its local number, unless its draft is a deletion.
pub fn standing_item<'a, D: Disk>(
    table: &'a Table<D>,
    index: &Index,
    uuid: Uuid,
) -> Result<(u64, &'a LocalItem), ClientError>
    requires indexed { Indexes index.now (row_in (table_rows table.now)) }
    ensures ok { IfOk result (λ found. HasItem (row_in (table_rows table.now)) uuid found.0 found.1.now × ¬ (IsDeleted found.1.now)) }
    ensures err { IfErr result (λ why. IsGone (row_in (table_rows table.now)) uuid × (why ≡ refusal.NoItem uuid)) }
{
    let Some((number, item)) = find(table, index, uuid) else {
        return Err(ClientError::NoItem { uuid });
    };
    if is_deleted(item) {
        return Err(ClientError::NoItem { uuid });
    }
    Ok((number, item))
}

/// Whether an item's draft is a deletion.
pub(crate) fn is_deleted(item: &LocalItem) -> bool
    ensures { IsTrue result ↔ IsDeleted item.now }
{
    match &item.latest {
        Some(version) => is_deletion(version),
        None => false,
    }
}

fn is_deletion(version: &RowBody) -> bool
    ensures { IsTrue result ↔ (version.now ≡ row.Deleted) }
{
    match version {
        RowBody::Deleted => true,
        RowBody::Sealed(_) => false,
    }
}

/// The content of an item.
pub fn shown_text(alloc: Global, sets: &Sets, item: &LocalItem) -> Result<String, ClientError>
    requires sound { IsSoundItem (columns item.now) }
    requires undeleted { ¬ (IsDeleted item.now) }
    ensures ok { IfOk result (λ text. Shows sets.now item.now (string_bytes text)) }
    ensures err { IfErr result (λ why. (why ≡ refusal.Memory) ⊎ ((nonce : Bytes) × IsClosed sets.now item.now nonce × (why ≡ refusal.Closed nonce))) }
{
    let Some(strings) = shown_strings(item) else {
        unreachable!()
    };
    let sealed = sealed_strings(alloc, strings)?;
    if let Some(text) = sets.open(alloc, item.uuid, &sealed)? {
        return Ok(text);
    }
    let nonce = nonce_of(alloc, strings)?;
    Err(ClientError::Closed { nonce })
}

/// The strings of the version that the user sees, if it is sealed.
pub(crate) fn shown_strings(item: &LocalItem) -> Option<&RowStrings>
    ensures some { IfSome result (λ strings. shown_of item.now ≡ Some (row.Sealed strings.now)) }
    ensures none { IfNone result ((strings : RowStrings) → shown_of item.now ≢ Some (row.Sealed strings)) }
{
    let shown = match &item.latest {
        Some(version) => Some(version),
        None => item.body.as_ref(),
    };
    match shown {
        Some(RowBody::Sealed(strings)) => Some(strings),
        _ => None,
    }
}

// The nonce of the set under which strings are sealed.
fn nonce_of(alloc: Global, strings: &RowStrings) -> Result<Text, AllocError>
    requires { (reading : Reading) × Is003 strings.now.enc reading }
    ensures { IfOk result (SaysNonce strings.now) }
{
    match read(alloc, strings.enc.as_str()) {
        Ok(parts) => parts.params.pw_nonce.try_clone(alloc),
        Err(error) => Err(memory_of(error)),
    }
}

// A 003 string is refused in want of memory alone.
fn memory_of(error: StringError) -> AllocError
    requires { error ≡ string.Memory }
{
    match error {
        StringError::Memory => AllocError,
        _ => unreachable!(),
    }
}
