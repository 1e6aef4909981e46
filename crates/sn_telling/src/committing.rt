//! The moves of a device's batches.

ghost use Rattle.std.specs.Prelude.{◌≡◌, ◌++◌, IfOk, List, OnOk};
ghost use Rattle.std.specs.List.{list_any};
ghost use Rattle.std.specs.Option.{option_copied};
ghost use Rattle.sn_laws.specs.declared.moves.Move.{Move};
ghost use Rattle.sn_moves.specs.Commits.{moves_of};
ghost use Rattle.sn_moves.specs.Drafts.{item_left};
ghost use Rattle.sn_moves.specs.declared.done.Done.TheVariants.{Applies};
ghost use Rattle.sn_row_map.specs.RowMaps.{row_in};
ghost use Rattle.sn_saying.specs.Retired.{IsRetirement};
ghost use Rattle.sn_telling.specs.Walking.{IsDoing, IsForeign, IsSynced, SaysBatch, SaysBatches, SaysDoing, first_item, put_done, rows_behind_all, signed_in, takes_item};

use crate::calling::Calling;
use crate::doing::Doing;
use crate::reading::foreign_told;
use crate::steps::{change_rows, push_all};
use sn_laws::Move;
use sn_moves::{Done, moves_of};
use sn_order::{Kind, kind_of};
use sn_row_map::RowMap;
use sn_rows::{Change, Key, LocalItem, Value};
use sn_saying::{adopted, joined, retired};
use sn_string::{OwnedList, Text, TryClone};
use std::alloc::{AllocError, Global};
use uuid::Uuid;

/// The moves of the batches of a call of the device of this name that follow its last answer. The device's rows become those
/// behind the batches; the server does nothing between them.
pub(crate) fn committed(
    alloc: Global,
    server: &RowMap,
    device: &mut RowMap,
    name: &Text,
    calling: &Calling,
    answer: &Option<OwnedList<u8>>,
    batches: Vec<OwnedList<Change>>,
) -> Result<OwnedList<Move>, AllocError>
    ensures moves { IfOk result (SaysBatches calling.now (row_in server.now) (row_in device.old) name.now answer.now batches.items) }
    ensures rows { OnOk result (row_in device.new ≡ rows_behind_all (row_in device.old) batches.items) }
{
    let mut moves = OwnedList::new(alloc);
    'batches: for batch in batches {
        let changes = batch.as_slice();
        let said = batch_moves(alloc, server, device, name, calling, answer, changes)?;
        push_all(&mut moves, said)?;
        change_rows(device, batch)?;
    }
    Ok(moves)
}

// The moves of one batch.
fn batch_moves(
    alloc: Global,
    server: &RowMap,
    device: &RowMap,
    name: &Text,
    calling: &Calling,
    answer: &Option<OwnedList<u8>>,
    changes: &[Change],
) -> Result<OwnedList<Move>, AllocError>
    ensures { IfOk result (SaysBatch calling.now (row_in server.now) (row_in device.now) name.now answer.now changes.now) }
{
    let did = doing_by(alloc, device, calling, answer, changes)?;
    doing_moves(alloc, server, device, name, did, changes)
}

// ---- what a device did

// By the call, the last answer before the commit, the device's rows and the changes.
fn doing_by(
    alloc: Global,
    device: &RowMap,
    calling: &Calling,
    answer: &Option<OwnedList<u8>>,
    changes: &[Change],
) -> Result<Doing, AllocError>
    ensures { IfOk result (IsDoing calling.now answer.now (row_in device.now) changes.now) }
{
    match calling {
        Calling::Register { identifier, .. } => begun(alloc, identifier),
        Calling::SignIn { identifier } => {
            signed_in(alloc, identifier, kind_of(changes), device.get(&Key::Owner))
        }
        Calling::Put { kind, text } => put(alloc, kind, text, first_item(changes)),
        Calling::Edit { text } => Ok(Doing::Other(Done::Edits {
            text: text.try_clone(alloc)?,
        })),
        Calling::Delete => Ok(Doing::Other(Done::Deletes)),
        Calling::Sync => synced(alloc, kind_of(changes), answer, changes),
        Calling::Passwd => synced(alloc, kind_of(changes), answer, changes),
    }
}

// A device that takes up an account.
fn begun(alloc: Global, identifier: &Text) -> Result<Doing, AllocError>
    ensures { IfOk result (λ did. did ≡ Doing.Begins identifier.now) }
{
    Ok(Doing::Begins {
        identifier: identifier.try_clone(alloc)?,
    })
}

// A device that signs in, by what it did and its own row.
fn signed_in(
    alloc: Global,
    identifier: &Text,
    kind: Kind,
    owner: Option<&Value>,
) -> Result<Doing, AllocError>
    ensures { IfOk result (λ did. did ≡ signed_in identifier.now kind (option_copied owner.entry)) }
{
    if owner.is_none() {
        return begun(alloc, identifier);
    }
    match kind {
        Kind::Joins => Ok(Doing::Adopts),
        Kind::Asks | Kind::Forgets | Kind::Counts | Kind::Drafts => Ok(Doing::Other(Done::Renews)),
    }
}

// A new item, by the row that it has.
fn put(
    alloc: Global,
    kind: &Text,
    text: &Text,
    item: Option<&LocalItem>,
) -> Result<Doing, AllocError>
    ensures { IfOk result (λ did. did ≡ Doing.Other (put_done kind.now text.now (option_copied item.entry))) }
{
    match item {
        Some(item) => Ok(Doing::Other(Done::Puts {
            uuid: item.uuid,
            kind: kind.try_clone(alloc)?,
            text: text.try_clone(alloc)?,
        })),
        None => Ok(Doing::Other(Done::Renews)),
    }
}

// In a sync or a change of password, behind this answer.
fn synced(
    alloc: Global,
    kind: Kind,
    answer: &Option<OwnedList<u8>>,
    changes: &[Change],
) -> Result<Doing, AllocError>
    ensures { IfOk result (IsSynced kind answer.now changes.now) }
{
    match kind {
        Kind::Joins => Ok(Doing::Adopts),
        Kind::Counts => Ok(Doing::Applies {
            foreign: foreign_asked(alloc, answer, changes)?,
        }),
        Kind::Drafts => Ok(Doing::Other(Done::Posts)),
        Kind::Asks => Ok(Doing::Other(Done::Renews)),
        Kind::Forgets => Ok(Doing::Other(Done::Renews)),
    }
}

// The uuids that another account has. Only the move of an item's row that goes depends on them, so most answers needn't be read again.
fn foreign_asked(
    alloc: Global,
    answer: &Option<OwnedList<u8>>,
    changes: &[Change],
) -> Result<OwnedList<Uuid>, AllocError>
    ensures { IfOk result (IsForeign answer.now changes.now) }
{
    if any_takes_item(changes) {
        foreign_told(alloc, answer)
    } else {
        Ok(OwnedList::new(alloc))
    }
}

// One of the changes takes an item's row away.
fn any_takes_item(changes: &[Change]) -> bool
    ensures { result ≡ list_any takes_item changes.now }
{
    changes.iter().any(takes_item)
}

fn takes_item(change: &Change) -> bool
    ensures { result ≡ takes_item change.now }
{
    matches!(change, Change::Remove(Key::Local(_)))
}

// The item that the first change leaves.
fn first_item(changes: &[Change]) -> Option<&LocalItem>
    ensures { option_copied result ≡ first_item changes.now }
{
    match changes.first() {
        Some(change) => item_left(change),
        None => None,
    }
}

// The item that a change leaves.
fn item_left(change: &Change) -> Option<&LocalItem>
    ensures { option_copied result ≡ item_left change.now }
{
    let Change::Put(row) = change else {
        return None;
    };
    match (&row.key, &row.value) {
        (Key::Local(_), Value::Local(item)) => Some(item.get()),
        _ => None,
    }
}

// ---- what it says

// The moves of what was done, over the rows of both ends before it.
fn doing_moves(
    alloc: Global,
    server: &RowMap,
    device: &RowMap,
    name: &Text,
    did: Doing,
    changes: &[Change],
) -> Result<OwnedList<Move>, AllocError>
    ensures { IfOk result (SaysDoing (row_in server.now) (row_in device.now) name.now did changes.now) }
{
    match did {
        Doing::Begins { identifier } => joined(alloc, server, name, &identifier),
        Doing::Adopts => adopted(alloc, server, device, name),
        Doing::Applies { foreign } => applied(alloc, server, device, name, foreign, changes),
        Doing::Other(done) => moves_of(alloc, device, name, &done, changes),
    }
}

// Those of an answer that is applied: of its items, and then of the older set.
fn applied(
    alloc: Global,
    server: &RowMap,
    device: &RowMap,
    name: &Text,
    foreign: OwnedList<Uuid>,
    changes: &[Change],
) -> Result<OwnedList<Move>, AllocError>
    ensures { IfOk result (λ moves. (later : List Move) × IsRetirement (row_in server.now) (row_in device.now) name.now changes.now later
        × (moves ≡ moves_of (row_in device.now) name.now (Applies foreign) changes.now ++ later)) }
{
    let mut moves = moves_of(alloc, device, name, &Done::Applies { foreign }, changes)?;
    let later = retired(alloc, server, device, name, changes)?;
    push_all(&mut moves, later)?;
    Ok(moves)
}
