//! The moves of a commit of a device.

ghost use Rattle.std.specs.Prelude.{◌≡◌, ◌++◌, ◌∷◌, [], IfOk, None, OnOk};
ghost use Rattle.std.specs.List.{flat_map};
ghost use Rattle.sn_laws.specs.declared.ideal.Content.TheVariants as content;
ghost use Rattle.sn_laws.specs.declared.moves.Move.TheVariants.{Edit, Join};
ghost use Rattle.sn_row_map.specs.RowMaps.{row_in};
ghost use Rattle.sn_moves.specs.Commits.{change_moved, deletion_of, edit_of, is_unknown, item_moved, moves_of};

use crate::done::Done;
use crate::drafts::{answered, item_at, push_said};
use sn_laws::{Content, Move};
use sn_row_map::RowMap;
use sn_rows::{Change, LocalItem};
use sn_string::{OwnedList, Text, TryClone};
use std::alloc::{AllocError, Global};
use uuid::Uuid;

/// The moves of a commit of the device of this name: `rows` are those before it, and `changes` its batch.
pub fn moves_of(
    alloc: Global,
    rows: &RowMap,
    name: &Text,
    done: &Done,
    changes: &[Change],
) -> Result<OwnedList<Move>, AllocError>
    ensures { IfOk result (λ moves. moves ≡ moves_of (row_in rows.now) name.now done.now changes.now) }
{
    match done {
        Done::Begins { identifier, number } => joined(alloc, name, identifier, *number),
        Done::Renews => Ok(OwnedList::new(alloc)),
        Done::Puts { uuid, kind, text } => put(alloc, name, *uuid, kind, text),
        Done::Edits { .. } | Done::Deletes | Done::Posts => {
            items_moved(alloc, rows, name, done, changes)
        }
        Done::Applies { foreign } => answered(alloc, rows, name, foreign.as_slice(), changes),
    }
}

// The device took up its account, with the set of this number.
fn joined(
    alloc: Global,
    name: &Text,
    identifier: &Text,
    number: u64,
) -> Result<OwnedList<Move>, AllocError>
    ensures { IfOk result (λ moves. moves ≡ Join name.now identifier.now number ∷ []) }
{
    let mut moves = OwnedList::new(alloc);
    moves.push(Move::Join {
        device: name.try_clone(alloc)?,
        identifier: identifier.try_clone(alloc)?,
        number,
    })?;
    Ok(moves)
}

// A new item.
fn put(
    alloc: Global,
    name: &Text,
    uuid: Uuid,
    kind: &Text,
    text: &Text,
) -> Result<OwnedList<Move>, AllocError>
    ensures { IfOk result (λ moves. moves ≡ Edit name.now uuid kind.now None (content.Plain text.now) ∷ []) }
{
    let mut moves = OwnedList::new(alloc);
    moves.push(Move::Edit {
        device: name.try_clone(alloc)?,
        uuid,
        kind: kind.try_clone(alloc)?,
        base: None,
        latest: Content::Plain(text.try_clone(alloc)?),
    })?;
    Ok(moves)
}

// The moves of items whose rows are changed.
fn items_moved(
    alloc: Global,
    rows: &RowMap,
    name: &Text,
    done: &Done,
    changes: &[Change],
) -> Result<OwnedList<Move>, AllocError>
    ensures { IfOk result (λ moves. moves ≡ flat_map (change_moved (row_in rows.now) name.now done.now) changes.now) }
{
    let mut moves = OwnedList::new(alloc);
    'changes: for change in changes {
        push_change(alloc, &mut moves, rows, name, done, change)?;
    }
    Ok(moves)
}

// Adds the move of a change, if it has one.
fn push_change(
    alloc: Global,
    moves: &mut OwnedList<Move>,
    rows: &RowMap,
    name: &Text,
    done: &Done,
    change: &Change,
) -> Result<(), AllocError>
    ensures { OnOk result (moves.new ≡ moves.old ++ change_moved (row_in rows.now) name.now done.now change.now) }
{
    let key = change.key();
    let Some(item) = item_at(&key, rows.get(&key)) else {
        return Ok(());
    };
    let said = item_moved(alloc, name, done, item)?;
    push_said(moves, said)
}

// The move of an item, by its row before.
fn item_moved(
    alloc: Global,
    name: &Text,
    done: &Done,
    item: &LocalItem,
) -> Result<Option<Move>, AllocError>
    ensures { IfOk result (λ said. said ≡ item_moved name.now done.now item.now) }
{
    match done {
        Done::Edits { text } => {
            let latest = Content::Plain(text.try_clone(alloc)?);
            Ok(Some(edit_of(alloc, name, latest, item)?))
        }
        Done::Deletes => Ok(Some(deletion_of(alloc, name, item)?)),
        Done::Posts => Ok(Some(Move::Post {
            device: name.try_clone(alloc)?,
            uuid: item.uuid,
        })),
        _ => Ok(None),
    }
}

fn edit_of(
    alloc: Global,
    name: &Text,
    latest: Content,
    item: &LocalItem,
) -> Result<Move, AllocError>
    ensures { IfOk result (λ said. said ≡ edit_of name.now latest item.now) }
{
    Ok(Move::Edit {
        device: name.try_clone(alloc)?,
        uuid: item.uuid,
        kind: item.kind.try_clone(alloc)?,
        base: item.base,
        latest,
    })
}

fn deletion_of(alloc: Global, name: &Text, item: &LocalItem) -> Result<Move, AllocError>
    ensures { IfOk result (λ said. said ≡ deletion_of name.now item.now) }
{
    if !is_unknown(item) {
        return edit_of(alloc, name, Content::Deleted, item);
    }
    Ok(Move::Drop {
        device: name.try_clone(alloc)?,
        uuid: item.uuid,
    })
}

// Whether no server knows of the item.
fn is_unknown(item: &LocalItem) -> bool
    ensures { result ≡ is_unknown item.now }
{
    item.base.is_none() && item.posted.is_none()
}
