//! What a device's rows have.

ghost use Rattle.std.specs.Prelude.{◌≡◌, None, Some, IfNone, IfOk, IfSome};
ghost use Rattle.sn_local.specs.Index.{Indexes, IsNextWaiting, NoneWaitsBehind};
ghost use Rattle.sn_device.specs.Sending.{NoneWaits};
ghost use Rattle.sn_device.specs.States.{AreSoundSets, HasItem, HasLocal, HasNoAccount, HasOwner, HasSet, HasSets, IsFree, IsInSlot, IsSetOf};
ghost use Rattle.sn_row_map.specs.RowMaps.{row_in};
ghost use Rattle.sn_rows.specs.declared.device_rows.LocalItem.{LocalItem};
ghost use Rattle.sn_rows.specs.declared.device_rows.OwnerRow.{OwnerRow};
ghost use Rattle.sn_rows.specs.declared.key.Key.TheVariants as key;
ghost use Rattle.sn_table.specs.Logs.{HasKinds};
ghost use Rattle.sn_table.specs.Tables.{table_rows};

use crate::index::{Index, waiting_item};
use sn_disk::Disk;
use sn_row_map::RowMap;
use sn_rows::{Key, LocalItem, OwnerRow, SetRow, Slot, Value};
use sn_sets::Sets;
use sn_string::{KeySet, Params, TryClone};
use sn_table::Table;
use std::alloc::{AllocError, Global};
use uuid::Uuid;

/// The device's own row.
pub fn owner<D: Disk>(table: &Table<D>) -> Option<&OwnerRow>
    ensures some { IfSome result (λ owner. HasOwner (row_in (table_rows table.now)) owner.now) }
    ensures none { IfNone result (HasNoAccount (row_in (table_rows table.now))) }
{
    owner_in(table.rows())
}

/// The key set of a slot.
pub(crate) fn set<D: Disk>(table: &Table<D>, slot: Slot) -> Option<&SetRow>
    ensures some { IfSome result (λ set. HasSet (row_in (table_rows table.now)) slot set.now) }
    ensures none { IfNone result (row_in (table_rows table.now) (key.Set slot) ≡ None) }
{
    set_in(table.rows(), slot)
}

/// The item of a local number.
pub(crate) fn local<D: Disk>(table: &Table<D>, number: u64) -> Option<&LocalItem>
    ensures some { IfSome result (λ item. HasLocal (row_in (table_rows table.now)) number item.now) }
    ensures none { IfNone result (row_in (table_rows table.now) (key.Local number) ≡ None) }
{
    local_in(table.rows(), number)
}

/// The item of a uuid, with its local number. Takes no memory.
pub fn find<'a, D: Disk>(
    table: &'a Table<D>,
    index: &Index,
    uuid: Uuid,
) -> Option<(u64, &'a LocalItem)>
    requires indexed { Indexes index.now (row_in (table_rows table.now)) }
    ensures some { IfSome result (λ found. HasItem (row_in (table_rows table.now)) uuid found.0 found.1.now) }
    ensures none { IfNone result (IsFree (row_in (table_rows table.now)) uuid) }
{
    find_in(table.rows(), index, uuid)
}

/// The item that waits to be sent and has the least number. Takes no memory.
pub fn first_waiting<'a, D: Disk>(
    table: &'a Table<D>,
    index: &Index,
) -> Option<(u64, &'a LocalItem)>
    requires indexed { Indexes index.now (row_in (table_rows table.now)) }
    ensures some { IfSome result (λ found. IsNextWaiting (row_in (table_rows table.now)) None (found.0, found.1.now)) }
    ensures none { IfNone result (NoneWaits (row_in (table_rows table.now))) }
{
    first_waiting_in(table.rows(), index)
}

/// The item that waits to be sent and has the least number behind this one. Takes no memory.
pub fn next_waiting<'a, D: Disk>(
    table: &'a Table<D>,
    index: &Index,
    number: u64,
) -> Option<(u64, &'a LocalItem)>
    requires indexed { Indexes index.now (row_in (table_rows table.now)) }
    ensures some { IfSome result (λ found. IsNextWaiting (row_in (table_rows table.now)) (Some number) (found.0, found.1.now)) }
    ensures none { IfNone result (NoneWaitsBehind (row_in (table_rows table.now)) (Some number)) }
{
    next_waiting_in(table.rows(), index, number)
}

/// The key sets of the account, where there is one.
pub fn sets_of<D: Disk>(alloc: Global, table: &Table<D>) -> Result<Option<Sets>, AllocError>
    requires sound { AreSoundSets (row_in (table_rows table.now)) }
    ensures some { IfOk result (λ found. IfSome found (λ sets. (owner : OwnerRow) × HasSets (row_in (table_rows table.now)) owner sets)) }
    ensures none { IfOk result (λ found. IfNone found (HasNoAccount (row_in (table_rows table.now)))) }
{
    sets_in(alloc, table.rows())
}

// ---- the same of a map of rows

/// The device's own row.
pub fn owner_in(rows: &RowMap) -> Option<&OwnerRow>
    requires kinds { HasKinds rows.now }
    ensures some { IfSome result (λ owner. HasOwner (row_in rows.now) owner.now) }
    ensures none { IfNone result (HasNoAccount (row_in rows.now)) }
{
    match rows.get(&Key::Owner) {
        Some(Value::Owner(owner)) => Some(owner.get()),
        _ => None,
    }
}

/// The key set of a slot.
pub fn set_in(rows: &RowMap, slot: Slot) -> Option<&SetRow>
    requires kinds { HasKinds rows.now }
    ensures some { IfSome result (λ set. HasSet (row_in rows.now) slot set.now) }
    ensures none { IfNone result (row_in rows.now (key.Set slot) ≡ None) }
{
    match rows.get(&Key::Set(slot)) {
        Some(Value::Set(set)) => Some(set.get()),
        _ => None,
    }
}

/// The item of a local number.
pub(crate) fn local_in(rows: &RowMap, number: u64) -> Option<&LocalItem>
    requires kinds { HasKinds rows.now }
    ensures some { IfSome result (λ item. HasLocal (row_in rows.now) number item.now) }
    ensures none { IfNone result (row_in rows.now (key.Local number) ≡ None) }
{
    match rows.get(&Key::Local(number)) {
        Some(Value::Local(item)) => Some(item.get()),
        _ => None,
    }
}

/// The item of a uuid, with its local number. Takes no memory.
pub(crate) fn find_in<'a>(
    rows: &'a RowMap,
    index: &Index,
    uuid: Uuid,
) -> Option<(u64, &'a LocalItem)>
    requires kinds { HasKinds rows.now }
    requires indexed { Indexes index.now (row_in rows.now) }
    ensures some { IfSome result (λ found. HasItem (row_in rows.now) uuid found.0 found.1.now) }
    ensures none { IfNone result (IsFree (row_in rows.now) uuid) }
{
    'numbers: for number in index.numbers(uuid) {
        if let Some(item) = item_named(rows, *number, uuid) {
            return Some((*number, item));
        }
    }
    None
}

// The item of a local number, if it has the uuid.
fn item_named(rows: &RowMap, number: u64, uuid: Uuid) -> Option<&LocalItem>
    requires kinds { HasKinds rows.now }
    ensures some { IfSome result (λ item. HasItem (row_in rows.now) uuid number item.now) }
    ensures none { IfNone result ((item : LocalItem) → ¬ (HasItem (row_in rows.now) uuid number item)) }
{
    let item = local_in(rows, number)?;
    if item.uuid != uuid {
        return None;
    }
    Some(item)
}

/// The item that waits to be sent and has the least number. Takes no memory.
pub(crate) fn first_waiting_in<'a>(rows: &'a RowMap, index: &Index) -> Option<(u64, &'a LocalItem)>
    requires indexed { Indexes index.now (row_in rows.now) }
    ensures some { IfSome result (λ found. IsNextWaiting (row_in rows.now) None (found.0, found.1.now)) }
    ensures none { IfNone result (NoneWaits (row_in rows.now)) }
{
    waiting_behind(rows, index, None)
}

/// The item that waits to be sent and has the least number behind this one. Takes no memory.
pub(crate) fn next_waiting_in<'a>(
    rows: &'a RowMap,
    index: &Index,
    number: u64,
) -> Option<(u64, &'a LocalItem)>
    requires indexed { Indexes index.now (row_in rows.now) }
    ensures some { IfSome result (λ found. IsNextWaiting (row_in rows.now) (Some number) (found.0, found.1.now)) }
    ensures none { IfNone result (NoneWaitsBehind (row_in rows.now) (Some number)) }
{
    waiting_behind(rows, index, Some(number))
}

// The item that waits to be sent and has the least number, behind this one if there is one.
fn waiting_behind<'a>(
    rows: &'a RowMap,
    index: &Index,
    behind: Option<u64>,
) -> Option<(u64, &'a LocalItem)>
    requires indexed { Indexes index.now (row_in rows.now) }
    ensures some { IfSome result (λ found. IsNextWaiting (row_in rows.now) behind (found.0, found.1.now)) }
    ensures none { IfNone result (NoneWaitsBehind (row_in rows.now) behind) }
{
    let mut next = index.next_listed(behind);
    'numbers: while let Some(number) = next {
        if let Some(item) = waiting_item(rows, number) {
            return Some((number, item));
        }
        next = index.next_listed(Some(number));
    }
    None
}

/// The key sets of the account, where there is one.
pub(crate) fn sets_in(alloc: Global, rows: &RowMap) -> Result<Option<Sets>, AllocError>
    requires kinds { HasKinds rows.now }
    requires sound { AreSoundSets (row_in rows.now) }
    ensures some { IfOk result (λ found. IfSome found (λ sets. (owner : OwnerRow) × HasSets (row_in rows.now) owner sets)) }
    ensures none { IfOk result (λ found. IfNone found (HasNoAccount (row_in rows.now))) }
{
    let Some(owner) = owner_in(rows) else {
        return Ok(None);
    };
    let Some(present) = key_set_in(alloc, rows, owner, Slot::Present)? else {
        unreachable!();
    };
    let older = key_set_in(alloc, rows, owner, Slot::Older)?;
    let asked = key_set_in(alloc, rows, owner, Slot::Asked)?;
    Ok(Some(Sets {
        present,
        older,
        asked,
    }))
}

// What a slot has.
fn key_set_in(
    alloc: Global,
    rows: &RowMap,
    owner: &OwnerRow,
    slot: Slot,
) -> Result<Option<KeySet>, AllocError>
    requires kinds { HasKinds rows.now }
    ensures { IfOk result (IsInSlot (row_in rows.now) owner.now.identifier slot) }
{
    match set_in(rows, slot) {
        Some(keys) => Ok(Some(key_set(alloc, owner, keys)?)),
        None => Ok(None),
    }
}

// The key set of a row, for the account.
fn key_set(alloc: Global, owner: &OwnerRow, keys: &SetRow) -> Result<KeySet, AllocError>
    ensures { IfOk result (IsSetOf owner.now.identifier keys.now) }
{
    let identifier = owner.identifier.try_clone(alloc)?;
    let nonce = keys.pw_nonce.try_clone(alloc)?;
    match Params::new(identifier, keys.pw_cost, nonce) {
        Some(params) => Ok(KeySet {
            params,
            pw: keys.pw,
            mk: keys.mk,
            ak: keys.ak,
        }),
        None => unreachable!(),
    }
}
