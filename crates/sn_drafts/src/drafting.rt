//! The rows of the user's changes: items are put, edited and deleted.

ghost use Rattle.std.specs.Prelude.{◌≢◌, ◌⊎◌, IfErr, IfOk, OnOk, Some};
ghost use Rattle.rand_chacha.specs.ChaCha.{ChaCha};
ghost use Rattle.sn_rows.specs.Bounds.{HasLength};
ghost use Rattle.sn_rows.specs.Table.{Removes};
ghost use Rattle.sn_rows.specs.declared.body.RowBody.TheVariants as row;
ghost use Rattle.sn_rows.specs.declared.body.RowStrings.{RowStrings};
ghost use Rattle.sn_rows.specs.declared.device_rows.OwnerRow.{OwnerRow};
ghost use Rattle.sn_rows.specs.declared.key.Key.TheVariants as key;
ghost use Rattle.sn_row_map.specs.RowMaps.{row_in};
ghost use Rattle.sn_table.specs.Tables.{table_rows};
ghost use Rattle.sn_drafts.specs.Making.{DrawsNone, MayEdit, PutsBoth, PutsDraft, RefusesEdit};
ghost use Rattle.sn_drafts.specs.Refusing.{MayRefuse, Prepares};
ghost use Rattle.sn_sets.specs.declared.sets.Sets.{Sets};
ghost use Rattle.sn_sets.specs.Seals.{IsLater, Seals};
ghost use Rattle.sn_local.specs.Index.{Indexes};
ghost use Rattle.sn_device.specs.Draws.{DrawsFresh};
ghost use Rattle.sn_device.specs.Listing.{IsDeleted};
ghost use Rattle.sn_device.specs.Runs.{RunsDelete, RunsEdit, RunsPut, nothing};
ghost use Rattle.sn_device.specs.Sending.{PutsColumns};
ghost use Rattle.sn_device.specs.States.{HasSets, IsSound, IsSoundItem, columns};
ghost use Rattle.sn_device.specs.Steps.{Deletes, Edits, IsContent, IsUnknown, PutsNew, deletes, drafted, edits};
ghost use Rattle.sn_device.specs.Taking.{last_number};

use crate::looking::{check_content, held_sets, shown_text, standing_item};
use sn_device::ClientError;
use sn_disk::Disk;
use sn_items::Words;
use sn_local::{
    Index, find, fresh_uuid, one_change, owner, put_draft, put_new, put_next, two_changes,
};
use sn_rows::{Change, Key, LocalItem, OwnerRow, RowBody, RowStrings};
use sn_sets::{Sets, seal_strings};
use sn_string::KeySet;
use sn_table::Table;
use std::alloc::{AllocError, Global};
use uuid::Uuid;

/// The uuid of a new item, and the changes that put it.
pub fn changes_to_put<D: Disk>(
    alloc: Global,
    table: &Table<D>,
    index: &Index,
    words: &mut Words,
    kind: &str,
    text: &str,
) -> Result<(Uuid, Vec<Change>), ClientError>
    requires kind { HasLength 1 255 kind.now }
    requires indexed { Indexes index.now (row_in (table_rows table.now)) }
    requires sound { IsSound (row_in (table_rows table.now)) }
    ensures step { IfOk result (λ made. PutsNew (row_in (table_rows table.now)) words.old made.0 kind.now text.now made.1.items words.new) }
    ensures err { IfErr result (MayRefuse (RunsPut kind.now text.now (row_in (table_rows table.now)) words.old)) }
    ensures words { IsLater words.old words.new }
{
    let sets = held_sets(alloc, table)?;
    put_under(alloc, table, index, words, &sets, kind, text)
}

// The same under the account's sets.
fn put_under<D: Disk>(
    alloc: Global,
    table: &Table<D>,
    index: &Index,
    words: &mut Words,
    sets: &Sets,
    kind: &str,
    text: &str,
) -> Result<(Uuid, Vec<Change>), ClientError>
    requires kind { HasLength 1 255 kind.now }
    requires indexed { Indexes index.now (row_in (table_rows table.now)) }
    requires sound { IsSound (row_in (table_rows table.now)) }
    requires holds { (owner : OwnerRow) × HasSets (row_in (table_rows table.now)) owner sets.now }
    ensures step { IfOk result (λ made. PutsNew (row_in (table_rows table.now)) words.old made.0 kind.now text.now made.1.items words.new) }
    ensures err { IfErr result (MayRefuse (RunsPut kind.now text.now (row_in (table_rows table.now)) words.old)) }
    ensures words { IsLater words.old words.new }
{
    let Some(owner) = owner(table) else {
        return Err(ClientError::NoAccount);
    };
    check_content(alloc, text)?;
    if owner.next == u64::MAX {
        return Err(ClientError::NumbersUsed { next: owner.next });
    }
    let uuid = drawn_uuid(table, index, words)?;
    let changes = new_changes(alloc, words, &sets.present, owner, uuid, kind, text)?;
    Ok((uuid, changes))
}

// A uuid that no item has.
fn drawn_uuid<D: Disk>(
    table: &Table<D>,
    index: &Index,
    words: &mut Words,
) -> Result<Uuid, ClientError>
    requires indexed { Indexes index.now (row_in (table_rows table.now)) }
    requires sound { IsSound (row_in (table_rows table.now)) }
    ensures ok { IfOk result (λ uuid. DrawsFresh (row_in (table_rows table.now)) words.old uuid words.new) }
    ensures err { IfErr result (DrawsNone (row_in (table_rows table.now)) words.old) }
    ensures words { IsLater words.old words.new }
{
    match fresh_uuid(table, index, words) {
        Ok(uuid) => Ok(uuid),
        Err(drawn) => Err(ClientError::NoFreshUuid { drawn }),
    }
}

// The changes that put a new item of this content under the account's next number.
fn new_changes(
    alloc: Global,
    words: &mut Words,
    set: &KeySet,
    owner: &OwnerRow,
    uuid: Uuid,
    kind: &str,
    text: &str,
) -> Result<Vec<Change>, AllocError>
    requires kind { HasLength 1 255 kind.now }
    requires content { IsContent text.now }
    requires room { owner.now.next ≢ last_number }
    ensures made { IfOk result (λ changes. (strings : RowStrings) × Seals words.old set.now uuid text.now strings words.new
        × PutsBoth owner.now uuid kind.now strings changes.items) }
    ensures words { IsLater words.old words.new }
{
    let strings = seal_strings(alloc, words, uuid, set, text)?;
    put_both(alloc, owner, uuid, kind, strings)
}

// The item of these strings, and the account's row with the number behind it.
fn put_both(
    alloc: Global,
    owner: &OwnerRow,
    uuid: Uuid,
    kind: &str,
    strings: RowStrings,
) -> Result<Vec<Change>, AllocError>
    requires kind { HasLength 1 255 kind.now }
    requires room { owner.now.next ≢ last_number }
    ensures { IfOk result (λ changes. PutsBoth owner.now uuid kind.now strings changes.items) }
{
    let number = owner.next;
    let item = put_new(alloc, number, uuid, kind, strings)?;
    let counted = put_next(alloc, owner, number + 1)?;
    two_changes(alloc, item, counted)
}

/// The change that gives an item a new content.
pub fn changes_to_edit<D: Disk>(
    alloc: Global,
    table: &Table<D>,
    index: &Index,
    words: &mut Words,
    uuid: Uuid,
    text: &str,
) -> Result<Vec<Change>, ClientError>
    requires indexed { Indexes index.now (row_in (table_rows table.now)) }
    requires sound { IsSound (row_in (table_rows table.now)) }
    ensures step { IfOk result (λ changes. Edits (row_in (table_rows table.now)) words.old uuid text.now changes.items words.new) }
    ensures runs { IfOk result (λ changes. Prepares (RunsEdit uuid text.now (row_in (table_rows table.now)) words.old) (edits uuid text.now) changes.items nothing words.new) }
    ensures err { IfErr result (MayRefuse (RunsEdit uuid text.now (row_in (table_rows table.now)) words.old)) }
    ensures words { IsLater words.old words.new }
{
    let sets = held_sets(alloc, table)?;
    edit_under(alloc, table, index, words, &sets, uuid, text)
}

// The same under the account's sets.
fn edit_under<D: Disk>(
    alloc: Global,
    table: &Table<D>,
    index: &Index,
    words: &mut Words,
    sets: &Sets,
    uuid: Uuid,
    text: &str,
) -> Result<Vec<Change>, ClientError>
    requires indexed { Indexes index.now (row_in (table_rows table.now)) }
    requires sound { IsSound (row_in (table_rows table.now)) }
    requires holds { (owner : OwnerRow) × HasSets (row_in (table_rows table.now)) owner sets.now }
    ensures step { IfOk result (λ changes. Edits (row_in (table_rows table.now)) words.old uuid text.now changes.items words.new) }
    ensures runs { IfOk result (λ changes. Prepares (RunsEdit uuid text.now (row_in (table_rows table.now)) words.old) (edits uuid text.now) changes.items nothing words.new) }
    ensures err { IfErr result (MayRefuse (RunsEdit uuid text.now (row_in (table_rows table.now)) words.old)) }
    ensures words { IsLater words.old words.new }
{
    let (number, item) = standing_item(table, index, uuid)?;
    check_edit(alloc, sets, item, text)?;
    let changes = draft_changes(alloc, words, &sets.present, number, item, text)?;
    Ok(changes)
}

// Whether an item may have this content in place of the one that is shown.
fn check_edit(alloc: Global, sets: &Sets, item: &LocalItem, text: &str) -> Result<(), ClientError>
    requires sound { IsSoundItem (columns item.now) }
    requires undeleted { ¬ (IsDeleted item.now) }
    ensures ok { OnOk result (MayEdit sets.now item.now text.now) }
    ensures err { IfErr result (RefusesEdit sets.now item.now text.now) }
{
    let _shown = shown_text(alloc, sets, item)?;
    check_content(alloc, text)
}

// The change that gives an item a draft of this content.
fn draft_changes(
    alloc: Global,
    words: &mut Words,
    set: &KeySet,
    number: u64,
    item: &LocalItem,
    text: &str,
) -> Result<Vec<Change>, AllocError>
    requires { IsContent text.now }
    ensures made { IfOk result (λ changes. (strings : RowStrings) × Seals words.old set.now item.now.uuid text.now strings words.new
        × PutsDraft number item.now strings changes.items) }
    ensures words { IsLater words.old words.new }
{
    let strings = seal_strings(alloc, words, item.uuid, set, text)?;
    let change = put_draft(alloc, number, item, RowBody::Sealed(strings))?;
    one_change(alloc, change)
}

/// The change that deletes an item.
pub fn changes_to_delete<D: Disk>(
    alloc: Global,
    table: &Table<D>,
    index: &Index,
    uuid: Uuid,
) -> Result<Vec<Change>, ClientError>
    requires indexed { Indexes index.now (row_in (table_rows table.now)) }
    requires sound { IsSound (row_in (table_rows table.now)) }
    ensures step { IfOk result (λ changes. Deletes (row_in (table_rows table.now)) uuid changes.items) }
    ensures runs { (words : ChaCha) → IfOk result (λ changes. Prepares (RunsDelete uuid (row_in (table_rows table.now)) words) (deletes uuid) changes.items nothing words) }
    ensures err { (words : ChaCha) → IfErr result (MayRefuse (RunsDelete uuid (row_in (table_rows table.now)) words)) }
{
    let _sets = held_sets(alloc, table)?;
    delete_under(alloc, table, index, uuid)
}

// The same on a device that has an account.
fn delete_under<D: Disk>(
    alloc: Global,
    table: &Table<D>,
    index: &Index,
    uuid: Uuid,
) -> Result<Vec<Change>, ClientError>
    requires indexed { Indexes index.now (row_in (table_rows table.now)) }
    requires holds { (owner : OwnerRow) × (sets : Sets) × HasSets (row_in (table_rows table.now)) owner sets }
    ensures step { IfOk result (λ changes. Deletes (row_in (table_rows table.now)) uuid changes.items) }
    ensures runs { (words : ChaCha) → IfOk result (λ changes. Prepares (RunsDelete uuid (row_in (table_rows table.now)) words) (deletes uuid) changes.items nothing words) }
    ensures err { (words : ChaCha) → IfErr result (MayRefuse (RunsDelete uuid (row_in (table_rows table.now)) words)) }
{
    let Some((number, item)) = find(table, index, uuid) else {
        return Err(ClientError::NoItem { uuid });
    };
    let change = deletion_of(alloc, number, item)?;
    let changes = one_change(alloc, change)?;
    Ok(changes)
}

// An item of which no server knows goes. Of each other one the deletion is a draft.
fn deletion_of(alloc: Global, number: u64, item: &LocalItem) -> Result<Change, AllocError>
    ensures { IfOk result (λ change. (IsUnknown item.now × Removes change (key.Local number))
        ⊎ (¬ (IsUnknown item.now) × PutsColumns change number (drafted (Some row.Deleted) (columns item.now)))) }
{
    if item.base.is_none() && item.posted.is_none() {
        return Ok(Change::Remove(Key::Local(number)));
    }
    put_draft(alloc, number, item, RowBody::Deleted)
}
