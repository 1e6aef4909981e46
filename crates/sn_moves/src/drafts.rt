//! What a change of an item's row says of the row's draft.

ghost use Rattle.std.specs.Prelude.{◌≡◌, ◌++◌, IfOk, None, OnOk};
ghost use Rattle.std.specs.List.{list_any};
ghost use Rattle.std.specs.Option.{option_copied, option_to_list};
ghost use Rattle.std.specs.Str.{bytes_eq};
ghost use Rattle.sn_row_map.specs.RowMaps.{row_in};
ghost use Rattle.sn_rows.specs.Table.{changed, rows_after, value_of};
ghost use Rattle.sn_moves.specs.Drafts.{answered, copy_made, draft_move, ended, ended_with_row, item_at, item_found, item_left, item_move, settled_at, stayed};

use sn_laws::Move;
use sn_row_map::RowMap;
use sn_rows::{Change, Key, LocalItem, RowBody, Value};
use sn_string::{OwnedList, Text, TryClone};
use std::alloc::{AllocError, Global};
use uuid::Uuid;

/// What stands at a key, if that is an item's row.
pub(crate) fn item_at<'a>(key: &Key, found: Option<&'a Value>) -> Option<&'a LocalItem>
    ensures { option_copied result ≡ item_at key.now (option_copied found.entry) }
{
    match (key, found) {
        (Key::Local(_), Some(Value::Local(item))) => Some(item.get()),
        _ => None,
    }
}

// What a change leaves of its row.
fn value_left(change: &Change) -> Option<&Value>
    ensures { option_copied result ≡ value_of change.now }
{
    match change {
        Change::Put(row) => Some(&row.value),
        Change::Remove(_) => None,
    }
}

// The row of a key behind changes. Looks at each of them.
fn row_behind<'a>(rows: &'a RowMap, changes: &'a [Change], key: &Key) -> Option<&'a Value>
    ensures { option_copied result ≡ rows_after (row_in rows.now) changes.now key.now }
{
    let mut found = rows.get(key);
    'changes: for change in changes {
        found = changed(found, change, key);
    }
    found
}

// What stands at a key after a change.
fn changed<'a>(found: Option<&'a Value>, change: &'a Change, key: &Key) -> Option<&'a Value>
    ensures { option_copied result ≡ changed (option_copied found.entry) key.now change.now }
{
    if change.key() == *key {
        value_left(change)
    } else {
        found
    }
}

/// The moves of an applied answer by its changes, over the rows before them. Other accounts have the uuids `foreign`.
pub(crate) fn answered<'a>(
    alloc: Global,
    rows: &'a RowMap,
    name: &Text,
    foreign: &[Uuid],
    changes: &'a [Change],
) -> Result<OwnedList<Move>, AllocError>
    ensures { IfOk result (λ moves. moves ≡ answered name.now foreign.now None (row_in rows.now) changes.now) }
{
    let mut moves = OwnedList::new(alloc);
    let mut copy = None;
    'changes: for (place, change) in changes.iter().enumerate() {
        copy = push_change(
            alloc,
            &mut moves,
            rows,
            name,
            foreign,
            copy,
            &changes[..place],
            change,
        )?;
    }
    Ok(moves)
}

// Adds the move of a change that comes behind others, the last of which made this copy, or none. Gives the copy that
// it makes itself.
fn push_change<'a>(
    alloc: Global,
    moves: &mut OwnedList<Move>,
    rows: &'a RowMap,
    name: &Text,
    foreign: &[Uuid],
    copy: Option<Uuid>,
    before: &'a [Change],
    change: &Change,
) -> Result<Option<Uuid>, AllocError>
    ensures moves { let found = item_found (rows_after (row_in rows.now) before.now) change.now in OnOk result
        (moves.new ≡ moves.old ++ option_to_list (item_move name.now foreign.now copy found (item_left change.now))) }
    ensures copy { let found = item_found (rows_after (row_in rows.now) before.now) change.now in IfOk result
        (λ next. next ≡ copy_made found (item_left change.now)) }
{
    let key = change.key();
    let was = item_at(&key, row_behind(rows, before, &key));
    let now = item_at(&key, value_left(change));
    let said = item_move(alloc, name, foreign, copy, was, now)?;
    push_said(moves, said)?;
    Ok(copy_made(was, now))
}

/// Adds a move, if there is one.
pub(crate) fn push_said(moves: &mut OwnedList<Move>, said: Option<Move>) -> Result<(), AllocError>
    ensures { OnOk result (moves.new ≡ moves.old ++ option_to_list said) }
{
    match said {
        Some(said) => moves.push(said),
        None => Ok(()),
    }
}

// The uuid of the copy that a change puts.
fn copy_made(was: Option<&LocalItem>, now: Option<&LocalItem>) -> Option<Uuid>
    ensures { result ≡ copy_made (option_copied was.entry) (option_copied now.entry) }
{
    match (was, now) {
        (None, Some(now)) if now.latest.is_some() => Some(now.uuid),
        _ => None,
    }
}

// The move of a change of an item's row, behind a change that made this copy, or none.
fn item_move(
    alloc: Global,
    name: &Text,
    foreign: &[Uuid],
    copy: Option<Uuid>,
    was: Option<&LocalItem>,
    now: Option<&LocalItem>,
) -> Result<Option<Move>, AllocError>
    ensures { IfOk result (λ said. said ≡ item_move name.now foreign.now copy (option_copied was.entry) (option_copied now.entry)) }
{
    let Some(was) = was else {
        return Ok(None);
    };
    let Some(latest) = &was.latest else {
        return Ok(None);
    };
    draft_move(alloc, name, foreign, copy, was, latest, now)
}

// The move of a change of a row that had a draft.
fn draft_move(
    alloc: Global,
    name: &Text,
    foreign: &[Uuid],
    copy: Option<Uuid>,
    was: &LocalItem,
    latest: &RowBody,
    now: Option<&LocalItem>,
) -> Result<Option<Move>, AllocError>
    ensures { IfOk result (λ said. said ≡ draft_move name.now foreign.now copy was.now latest.now (option_copied now.entry)) }
{
    let Some(now) = now else {
        let said = ended_with_row(alloc, name, foreign, was.uuid, copy)?;
        return Ok(Some(said));
    };
    if now.latest.is_some() {
        return stayed(alloc, name, was, now);
    }
    let said = ended(alloc, name, was.uuid, copy, latest)?;
    Ok(Some(said))
}

// A draft ends, and its row stays.
fn ended(
    alloc: Global,
    name: &Text,
    uuid: Uuid,
    copy: Option<Uuid>,
    latest: &RowBody,
) -> Result<Move, AllocError>
    ensures { IfOk result (λ said. said ≡ ended name.now uuid copy latest.now) }
{
    let device = name.try_clone(alloc)?;
    match (copy, latest) {
        (Some(other), _) => Ok(Move::Fork {
            device,
            uuid,
            other,
        }),
        (None, RowBody::Deleted) => Ok(Move::GiveWay { device, uuid }),
        (None, RowBody::Sealed(_)) => Ok(Move::Settle { device, uuid }),
    }
}

// A draft ends with its row.
fn ended_with_row(
    alloc: Global,
    name: &Text,
    foreign: &[Uuid],
    uuid: Uuid,
    copy: Option<Uuid>,
) -> Result<Move, AllocError>
    ensures { IfOk result (λ said. said ≡ ended_with_row name.now foreign.now uuid copy) }
{
    let device = name.try_clone(alloc)?;
    if let Some(other) = copy {
        return Ok(Move::Fork {
            device,
            uuid,
            other,
        });
    }
    if is_among(foreign, uuid) {
        return Ok(Move::Drop { device, uuid });
    }
    Ok(Move::Settle { device, uuid })
}

fn is_among(uuids: &[Uuid], uuid: Uuid) -> bool
    ensures { result ≡ list_any (bytes_eq uuid) uuids.now }
{
    uuids.iter().any(|other| uuid == *other)
}

// A draft stays in its row.
fn stayed(
    alloc: Global,
    name: &Text,
    was: &LocalItem,
    now: &LocalItem,
) -> Result<Option<Move>, AllocError>
    ensures { IfOk result (λ said. said ≡ stayed name.now was.now now.now) }
{
    let device = name.try_clone(alloc)?;
    if was.uuid != now.uuid {
        return Ok(Some(Move::Rename {
            device,
            uuid: was.uuid,
            other: now.uuid,
        }));
    }
    match now.base {
        Some(stamp) => Ok(Some(Move::SettlePosted {
            device,
            uuid: now.uuid,
            stamp,
        })),
        None => Ok(None),
    }
}
