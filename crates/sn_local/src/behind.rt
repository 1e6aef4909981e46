//! The items behind changes that aren't made yet.

ghost use Rattle.std.specs.Prelude.{◌≡◌, ℕ, IfNone, IfSome};
ghost use Rattle.std.specs.Bool.{MatchBool};
ghost use Rattle.std.specs.Option.{option_copied};
ghost use Rattle.sn_device.specs.States.{HasItem, HasLocal, IsFree, IsUsed};
ghost use Rattle.sn_local.specs.Found.{AreFound, IsGone, PutsNamed};
ghost use Rattle.sn_row_map.specs.RowMaps.{row_in};
ghost use Rattle.sn_rows.specs.Table.{changed, rows_after};
ghost use Rattle.sn_rows.specs.declared.device_rows.LocalItem.{LocalItem};

use crate::index::Index;
use crate::state::find_in;
use sn_row_map::RowMap;
use sn_rows::{Change, Key, LocalItem, Value};
use uuid::Uuid;

/// The item of a uuid behind changes, with its local number. Takes no memory.
pub fn item_at<'a>(
    rows: &'a RowMap,
    index: &Index,
    changes: &'a [Change],
    uuid: Uuid,
) -> Option<(u64, &'a LocalItem)>
    requires { AreFound index.now rows.now }
    ensures some { IfSome result (λ found. HasItem (rows_after (row_in rows.now) changes.now) uuid found.0 found.1.now) }
    ensures none { IfNone result (IsFree (rows_after (row_in rows.now) changes.now) uuid) }
{
    'changes: for change in changes {
        if let Some(found) = item_put(rows, changes, change, uuid) {
            return Some(found);
        }
    }
    let Some((number, _)) = find_in(rows, index, uuid) else {
        return None;
    };
    match item_named(rows, changes, number, uuid) {
        Some(item) => Some((number, item)),
        None => None,
    }
}

/// Whether an item has a uuid behind changes. Takes no memory.
pub(crate) fn is_used(rows: &RowMap, index: &Index, changes: &[Change], uuid: Uuid) -> bool
    requires { AreFound index.now rows.now }
    ensures { MatchBool result (IsUsed (rows_after (row_in rows.now) changes.now) uuid) (IsFree (rows_after (row_in rows.now) changes.now) uuid) }
{
    match item_at(rows, index, changes, uuid) {
        Some(_) => true,
        None => false,
    }
}

// The item of a uuid that one of the changes puts, if it stands behind all of them.
fn item_put<'a>(
    rows: &'a RowMap,
    changes: &'a [Change],
    change: &Change,
    uuid: Uuid,
) -> Option<(u64, &'a LocalItem)>
    ensures some { IfSome result (λ found. HasItem (rows_after (row_in rows.now) changes.now) uuid found.0 found.1.now) }
    ensures none { IfNone result (IsGone (rows_after (row_in rows.now) changes.now) uuid change.now) }
{
    let Some(number) = put_number(change, uuid) else {
        return None;
    };
    match item_named(rows, changes, number, uuid) {
        Some(item) => Some((number, item)),
        None => None,
    }
}

// The local number under which a change puts an item of this uuid.
fn put_number(change: &Change, uuid: Uuid) -> Option<u64>
    ensures some { IfSome result (PutsNamed uuid change.now) }
    ensures none { IfNone result ((number : ℕ) → ¬ (PutsNamed uuid change.now number)) }
{
    let Change::Put(row) = change else {
        return None;
    };
    match (&row.key, &row.value) {
        (Key::Local(number), Value::Local(item)) if item.get().uuid == uuid => Some(*number),
        _ => None,
    }
}

// The item of a local number behind changes, if it has the uuid.
fn item_named<'a>(
    rows: &'a RowMap,
    changes: &'a [Change],
    number: u64,
    uuid: Uuid,
) -> Option<&'a LocalItem>
    ensures some { IfSome result (λ item. HasItem (rows_after (row_in rows.now) changes.now) uuid number item.now) }
    ensures none { IfNone result ((item : LocalItem) → ¬ (HasItem (rows_after (row_in rows.now) changes.now) uuid number item)) }
{
    let Some(Value::Local(item)) = value_after(rows, changes, Key::Local(number)) else {
        return None;
    };
    let item = item.get();
    if item.uuid != uuid {
        return None;
    }
    Some(item)
}

/// The item of a local number behind changes. Takes no memory.
pub fn local_after<'a>(
    rows: &'a RowMap,
    changes: &'a [Change],
    number: u64,
) -> Option<&'a LocalItem>
    ensures some { IfSome result (λ item. HasLocal (rows_after (row_in rows.now) changes.now) number item.now) }
    ensures none { IfNone result ((item : LocalItem) → ¬ (HasLocal (rows_after (row_in rows.now) changes.now) number item)) }
{
    let Some(Value::Local(item)) = value_after(rows, changes, Key::Local(number)) else {
        return None;
    };
    Some(item.get())
}

// The row of a key behind changes.
fn value_after<'a>(rows: &'a RowMap, changes: &'a [Change], key: Key) -> Option<&'a Value>
    ensures { option_copied result ≡ rows_after (row_in rows.now) changes.now key }
{
    let mut found = rows.get(&key);
    'changes: for change in changes {
        found = found_after(found, change, key);
    }
    found
}

// The row of a key after a change, where it was this before.
fn found_after<'a>(found: Option<&'a Value>, change: &'a Change, key: Key) -> Option<&'a Value>
    ensures { option_copied result ≡ changed (option_copied found.entry) key change.now }
{
    if change.key() != key {
        return found;
    }
    match change {
        Change::Put(row) => Some(&row.value),
        Change::Remove(_) => None,
    }
}
