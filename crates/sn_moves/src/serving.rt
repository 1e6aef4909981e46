//! The moves of a batch of the server.

ghost use Rattle.std.specs.Prelude.{◌≡◌, ◌∷◌, ◌++◌, [], IfOk, OnOk};
ghost use Rattle.std.specs.Option.{option_copied};
ghost use Rattle.sn_row_map.specs.RowMaps.{row_in};
ghost use Rattle.sn_rows.specs.declared.key.Key.TheVariants as key;
ghost use Rattle.sn_rows.specs.declared.value.Value.TheVariants as value;
ghost use Rattle.sn_world.specs.Plain.{accept_of, accepts_in, move_of, moves_for};
ghost use Rattle.sn_world.specs.Serving.{generation_of, number_of, registers_in};

use sn_laws::Move;
use sn_row_map::RowMap;
use sn_rows::{Change, ItemRow, Key, Value};
use sn_string::{KeySet, OwnedList, Text, TryClone};
use sn_sync::Request;
use std::alloc::{AllocError, Global};
use uuid::Uuid;

/// The moves of a batch by which a server answers a request of the device of this name: `begins` is the set that a
/// registration would begin, and `rows` are the server's before the batch.
pub fn moves_for(
    alloc: Global,
    rows: &RowMap,
    name: &Text,
    begins: Option<&KeySet>,
    request: &Request,
    changes: &[Change],
) -> Result<OwnedList<Move>, AllocError>
    ensures { IfOk result (λ moves. moves ≡ moves_for (row_in rows.now) name.now (option_copied begins.entry) request.now changes.now) }
{
    match request {
        Request::Register { params, .. } => {
            registers_in(alloc, &params.identifier, begins, changes)
        }
        Request::Sync { .. } => accepts_in(alloc, rows, name, changes),
        Request::Params { .. } | Request::SignIn { .. } | Request::ChangePw { .. } => {
            Ok(OwnedList::new(alloc))
        }
    }
}

/// The move of a batch that answers a registration: an account of this identifier was begun, with this set.
pub fn registers_in(
    alloc: Global,
    identifier: &Text,
    begins: Option<&KeySet>,
    changes: &[Change],
) -> Result<OwnedList<Move>, AllocError>
    ensures { IfOk result (λ moves. moves ≡ registers_in identifier.now (option_copied begins.entry) changes.now) }
{
    let mut moves = OwnedList::new(alloc);
    let Some(set) = begins else {
        return Ok(moves);
    };
    if changes.is_empty() {
        return Ok(moves);
    }
    moves.push(Move::Register {
        identifier: identifier.try_clone(alloc)?,
        set: set.try_clone(alloc)?,
    })?;
    Ok(moves)
}

/// The moves of a batch that answers a sync of the device of this name: the items that were accepted.
pub fn accepts_in(
    alloc: Global,
    rows: &RowMap,
    name: &Text,
    changes: &[Change],
) -> Result<OwnedList<Move>, AllocError>
    ensures { IfOk result (λ moves. moves ≡ accepts_in (row_in rows.now) name.now changes.now) }
{
    let mut moves = OwnedList::new(alloc);
    'changes: for change in changes {
        push_accept(alloc, &mut moves, rows, name, change)?;
    }
    Ok(moves)
}

// Adds the accept of the item that a change puts, if it puts one.
fn push_accept(
    alloc: Global,
    moves: &mut OwnedList<Move>,
    rows: &RowMap,
    name: &Text,
    change: &Change,
) -> Result<(), AllocError>
    ensures { OnOk result (moves.new ≡ moves.old ++ move_of (row_in rows.now) name.now change.now) }
{
    let Change::Put(row) = change else {
        return Ok(());
    };
    match (&row.key, &row.value) {
        (Key::Item(uuid), Value::Item(item)) => {
            moves.push(accept_of(alloc, rows, name, *uuid, item)?)
        }
        _ => Ok(()),
    }
}

// The item is accepted under the last set of its account.
fn accept_of(
    alloc: Global,
    rows: &RowMap,
    name: &Text,
    uuid: Uuid,
    item: &ItemRow,
) -> Result<Move, AllocError>
    ensures { IfOk result (λ said. said ∷ [] ≡ accept_of (row_in rows.now) name.now (key.Item uuid) (value.Item item.now)) }
{
    let generation = generation_of(rows.get(&Key::Account(item.account())));
    Ok(Move::Accept {
        device: name.try_clone(alloc)?,
        uuid,
        stamp: item.updated(),
        under: number_of(item.is_deleted(), generation),
    })
}

// The number of an account's last set, by its row.
fn generation_of(found: Option<&Value>) -> u64
    ensures { result ≡ generation_of (option_copied found.entry) }
{
    match found {
        Some(Value::Account(account)) => account.get().generation,
        _ => 0,
    }
}

// The number of the set that a version is under.
fn number_of(deleted: bool, number: u64) -> Option<u64>
    ensures { result ≡ number_of deleted number }
{
    if deleted { None } else { Some(number) }
}
