//! When an older set may go.

ghost use Rattle.std.specs.Prelude.{◌≡◌, ◌↔◌, ◌∷◌, [], All, IfNone, IfOk, IfSome, IsTrue, Some};
ghost use Rattle.sn_device.specs.States.{HasLocal};
ghost use Rattle.sn_device.specs.Steps.{AllFinished, IsFinishedAt, Retires};
ghost use Rattle.sn_rekey.specs.Carrying.{IsFinished};
ghost use Rattle.sn_row_map.specs.RowMaps.{row_in};
ghost use Rattle.sn_rows.specs.Kinds.{key_kind};
ghost use Rattle.sn_rows.specs.Table.{key_of, rows_after};
ghost use Rattle.sn_rows.specs.declared.device_rows.LocalItem.{LocalItem};
ghost use Rattle.sn_rows.specs.declared.key.Key.{Key};
ghost use Rattle.sn_rows.specs.declared.kind.RowKind.TheVariants as kind;
ghost use Rattle.sn_rows.specs.declared.value.Value.{Value};

use sn_local::local_after;
use sn_rekey::is_finished;
use sn_row_map::RowMap;
use sn_rows::{Change, Key, RowKind, Slot};
use sn_sets::Sets;
use sn_string::{KeySet, Text};
use std::alloc::{AllocError, Global};

/// The change that retires the older set behind these changes of an answer, where there is one that may go.
pub(crate) fn retired(
    alloc: Global,
    rows: &RowMap,
    changes: &[Change],
    sets: &Sets,
    cursor: &Option<Text>,
) -> Result<Option<Change>, AllocError>
    ensures some { IfOk result (λ found. IfSome found (λ change. Retires (rows_after (row_in rows.now) changes.now) cursor.now sets.now.older (change ∷ []))) }
    ensures none { IfOk result (λ found. IfNone found (Retires (rows_after (row_in rows.now) changes.now) cursor.now sets.now.older [])) }
{
    let Some(older) = &sets.older else {
        return Ok(None);
    };
    if cursor.is_some() {
        return Ok(None);
    }
    if !all_finished(alloc, rows, changes, older)? {
        return Ok(None);
    }
    Ok(Some(Change::Remove(Key::Set(Slot::Older))))
}

// Whether no item behind the changes has anything of a set.
fn all_finished(
    alloc: Global,
    rows: &RowMap,
    changes: &[Change],
    set: &KeySet,
) -> Result<bool, AllocError>
    ensures { IfOk result (λ all. IsTrue all ↔ AllFinished (rows_after (row_in rows.now) changes.now) set.now) }
{
    if !are_put_finished(alloc, rows, changes, set)? {
        return Ok(false);
    }
    are_kept_finished(alloc, rows, changes, set)
}

// Whether it is so of the items of the changes' keys.
fn are_put_finished(
    alloc: Global,
    rows: &RowMap,
    changes: &[Change],
    set: &KeySet,
) -> Result<bool, AllocError>
    ensures { IfOk result (λ all. IsTrue all ↔ All (λ change. IsFinishedAt (rows_after (row_in rows.now) changes.now) set.now (key_of change)) changes.now) }
{
    'changes: for change in changes {
        if !is_finished_at(alloc, rows, changes, change.key(), set)? {
            return Ok(false);
        }
    }
    Ok(true)
}

// Whether it is so of the items of the rows' keys.
fn are_kept_finished(
    alloc: Global,
    rows: &RowMap,
    changes: &[Change],
    set: &KeySet,
) -> Result<bool, AllocError>
    ensures finished { IfOk result (λ all. IsTrue all → (at : Key) (v : Value) → key_kind at ≡ kind.Local → row_in rows.now at ≡ Some v
        → IsFinishedAt (rows_after (row_in rows.now) changes.now) set.now at) }
    ensures whole { IfOk result (λ all. AllFinished (rows_after (row_in rows.now) changes.now) set.now → IsTrue all) }
{
    let mut found = rows.first(RowKind::Local);
    'items: while let Some((key, _)) = found {
        if !is_finished_at(alloc, rows, changes, *key, set)? {
            return Ok(false);
        }
        found = rows.next_after(key);
    }
    Ok(true)
}

// Whether the item of a key, if it is one of an item, has nothing of a set behind the changes.
fn is_finished_at(
    alloc: Global,
    rows: &RowMap,
    changes: &[Change],
    at: Key,
    set: &KeySet,
) -> Result<bool, AllocError>
    ensures { IfOk result (λ finished. IsTrue finished ↔ IsFinishedAt (rows_after (row_in rows.now) changes.now) set.now at) }
{
    match at {
        Key::Local(number) => is_finished_local(alloc, rows, changes, number, set),
        _ => Ok(true),
    }
}

// The same of a local number.
fn is_finished_local(
    alloc: Global,
    rows: &RowMap,
    changes: &[Change],
    number: u64,
    set: &KeySet,
) -> Result<bool, AllocError>
    ensures { IfOk result (λ finished. IsTrue finished ↔ ((local : LocalItem) → HasLocal (rows_after (row_in rows.now) changes.now) number local → IsFinished set.now local)) }
{
    match local_after(rows, changes, number) {
        Some(item) => is_finished(alloc, item, set),
        None => Ok(true),
    }
}
