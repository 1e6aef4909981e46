//! The moves of a batch of the server.

ghost use Rattle.std.specs.Prelude.{◌≡◌, ◌↔◌, ◌∷◌, ◌++◌, [], IfOk, IsTrue, OnOk, Option};
ghost use Rattle.std.specs.Option.{option_copied, option_to_list};
ghost use Rattle.sn_row_map.specs.RowMaps.{row_in};
ghost use Rattle.sn_rows.specs.Table.{rows_after};
ghost use Rattle.sn_rows.specs.declared.key.Key.TheVariants as key;
ghost use Rattle.sn_rows.specs.declared.value.Value.TheVariants as value;
ghost use Rattle.sn_string.specs.declared.params.KeySet.{KeySet};
ghost use Rattle.sn_sync.specs.Requests.{route_of};
ghost use Rattle.sn_sync.specs.declared.request.Request.{Request};
ghost use Rattle.sn_sync.specs.declared.request.Route.TheVariants as route;
ghost use Rattle.sn_world.specs.Serving.{IsSentRow, SaysChange, SaysChanges, SaysItem, change_of, changes_in, generation_of, number_of};
ghost use Rattle.sn_saying.specs.Lone.{LoneChange, LoneChanges, LoneRow};
ghost use Rattle.sn_saying.specs.Served.{IsServing};

use crate::sent::is_sent;
use sn_laws::Move;
use sn_moves::registers_in;
use sn_row_map::RowMap;
use sn_rows::{Change, ItemRow, Key, Row, Value};
use sn_string::{KeySet, OwnedList, Text, TryClone};
use sn_sync::Request;
use std::alloc::{AllocError, Global};
use uuid::Uuid;

/// The moves of a batch by which a server answers a request of the device of this name, which is applied to the server's
/// rows: `begins` is the set that the request would begin, and `device` are the rows of the device as they are now, which
/// are looked at for an item only where its account has more sets than one. After an error some changes may be applied.
pub fn served(
    alloc: Global,
    server: &mut RowMap,
    device: &RowMap,
    name: &Text,
    begins: Option<&KeySet>,
    request: &Request,
    changes: OwnedList<Change>,
) -> Result<OwnedList<Move>, AllocError>
    ensures moves { IfOk result (IsServing (row_in server.old) (row_in device.now) name.now (option_copied begins.entry) request.now changes) }
    ensures rows { OnOk result (row_in server.new ≡ rows_after (row_in server.old) changes) }
{
    match request {
        Request::Sync { .. } => items_served(alloc, server, device, name, changes),
        Request::Register { params, .. } => {
            let moves = registers_in(alloc, &params.identifier, begins, changes.as_slice())?;
            apply_all(server, changes)?;
            Ok(moves)
        }
        Request::ChangePw { .. } => {
            let moves = changes_in(alloc, begins, changes.as_slice())?;
            apply_all(server, changes)?;
            Ok(moves)
        }
        Request::Params { .. } | Request::SignIn { .. } => {
            apply_all(server, changes)?;
            Ok(OwnedList::new(alloc))
        }
    }
}

/// The same of a sync, whatever it sends: no move depends on that, nor on a set that it would begin.
pub fn sync_served(
    alloc: Global,
    server: &mut RowMap,
    device: &RowMap,
    name: &Text,
    changes: OwnedList<Change>,
) -> Result<OwnedList<Move>, AllocError>
    ensures moves { IfOk result (λ moves. (begins : Option KeySet) (request : Request) → route_of request ≡ route.Sync
        → IsServing (row_in server.old) (row_in device.now) name.now begins request changes moves) }
    ensures rows { OnOk result (row_in server.new ≡ rows_after (row_in server.old) changes) }
{
    items_served(alloc, server, device, name, changes)
}

// Applies changes.
fn apply_all(server: &mut RowMap, changes: OwnedList<Change>) -> Result<(), AllocError>
    ensures { OnOk result (row_in server.new ≡ rows_after (row_in server.old) changes) }
{
    server.add_all(changes.into_vec())
}

// Applies a change.
fn apply(alloc: Global, server: &mut RowMap, change: Change) -> Result<(), AllocError>
    ensures { OnOk result (row_in server.new ≡ rows_after (row_in server.old) (change ∷ [])) }
{
    let mut changes = Vec::new(alloc);
    changes.push(change)?;
    server.add_all(changes)
}

// The move of a batch that answers a change of password: the account has this set more.
fn changes_in(
    alloc: Global,
    begins: Option<&KeySet>,
    changes: &[Change],
) -> Result<OwnedList<Move>, AllocError>
    ensures { IfOk result (λ moves. moves ≡ changes_in (option_copied begins.entry) changes.now) }
{
    let mut moves = OwnedList::new(alloc);
    let Some(set) = begins else {
        return Ok(moves);
    };
    let Some(Change::Put(row)) = changes.first() else {
        return Ok(moves);
    };
    let said = change_of(alloc, set, row)?;
    push_said(&mut moves, said)?;
    Ok(moves)
}

// The row of an account gives it the set.
fn change_of(alloc: Global, set: &KeySet, row: &Row) -> Result<Option<Move>, AllocError>
    ensures { IfOk result (λ said. option_to_list said ≡ change_of set.now row.now.key row.now.value) }
{
    match (&row.key, &row.value) {
        (Key::Account(_), Value::Account(account)) => {
            let account = account.get();
            Ok(Some(Move::Change {
                identifier: account.identifier.try_clone(alloc)?,
                number: account.generation,
                set: set.try_clone(alloc)?,
            }))
        }
        _ => Ok(None),
    }
}

// The moves of a batch that answers a sync, which is applied.
fn items_served(
    alloc: Global,
    server: &mut RowMap,
    device: &RowMap,
    name: &Text,
    changes: OwnedList<Change>,
) -> Result<OwnedList<Move>, AllocError>
    ensures moves { IfOk result (λ moves. LoneChanges (row_in server.old) (row_in device.now) changes
        → SaysChanges (row_in server.old) (row_in device.now) name.now changes moves) }
    ensures rows { OnOk result (row_in server.new ≡ rows_after (row_in server.old) changes) }
{
    let mut moves = OwnedList::new(alloc);
    'changes: for change in changes.into_vec() {
        let said = change_said(alloc, server, device, name, &change)?;
        push_said(&mut moves, said)?;
        apply(alloc, server, change)?;
    }
    Ok(moves)
}

// The move of a change, if it has one.
fn change_said(
    alloc: Global,
    server: &RowMap,
    device: &RowMap,
    name: &Text,
    change: &Change,
) -> Result<Option<Move>, AllocError>
    ensures { IfOk result (λ said. LoneChange (row_in server.now) (row_in device.now) change.now
        → SaysChange (row_in server.now) (row_in device.now) name.now change.now (option_to_list said)) }
{
    let Change::Put(row) = change else {
        return Ok(None);
    };
    match (&row.key, &row.value) {
        (Key::Item(uuid), Value::Item(item)) => {
            let said = item_said(alloc, server, device, name, *uuid, item)?;
            Ok(Some(said))
        }
        _ => Ok(None),
    }
}

// An item is accepted, or sealed again, both under the last set of the account.
fn item_said(
    alloc: Global,
    server: &RowMap,
    device: &RowMap,
    name: &Text,
    uuid: Uuid,
    item: &ItemRow,
) -> Result<Move, AllocError>
    ensures { IfOk result (λ said. LoneRow (row_in server.now) (row_in device.now) (key.Item uuid) (value.Item item.now)
        → SaysItem (row_in server.now) (row_in device.now) name.now uuid item.now (said ∷ [])) }
{
    let generation = generation_of(server.get(&Key::Account(item.account())));
    let stamp = item.updated();
    if is_accepted(server, device, generation, uuid, item) {
        return Ok(Move::Accept {
            device: name.try_clone(alloc)?,
            uuid,
            stamp,
            under: number_of(item.is_deleted(), generation),
        });
    }
    Ok(Move::Rewrap {
        uuid,
        stamp,
        under: generation,
    })
}

// Whether an item of an account of this generation is one that the device has sent. Where the account has one set there is
// none to seal again, so each item is.
fn is_accepted(
    server: &RowMap,
    device: &RowMap,
    generation: u64,
    uuid: Uuid,
    item: &ItemRow,
) -> bool
    ensures { (generation ≡ 1 → IsSentRow (row_in server.now (key.Item uuid)) (row_in device.now) uuid item.now)
        → (IsTrue result ↔ IsSentRow (row_in server.now (key.Item uuid)) (row_in device.now) uuid item.now) }
{
    generation == 1 || is_sent(device, server.get(&Key::Item(uuid)), uuid, item)
}

// The number of an account's last set, by its row.
fn generation_of(found: Option<&Value>) -> u64
    ensures { result ≡ generation_of (option_copied found.entry) }
{
    match found {
        Some(Value::Account(account)) => account.get().generation,
        _ => 0,
    }
}

// The number of the set that a version is under.
fn number_of(deleted: bool, number: u64) -> Option<u64>
    ensures { result ≡ number_of deleted number }
{
    if deleted { None } else { Some(number) }
}

// Adds a move, if there is one.
fn push_said(moves: &mut OwnedList<Move>, said: Option<Move>) -> Result<(), AllocError>
    ensures { OnOk result (moves.new ≡ moves.old ++ option_to_list said) }
{
    match said {
        Some(said) => moves.push(said),
        None => Ok(()),
    }
}
