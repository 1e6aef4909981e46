//! The moves of the server's batches.

ghost use Rattle.std.specs.Prelude.{◌≡◌, IfOk, OnOk, Some};
ghost use Rattle.std.specs.Option.{option_copied};
ghost use Rattle.sn_row_map.specs.RowMaps.{row_in};
ghost use Rattle.sn_rows.specs.Table.{rows_after};
ghost use Rattle.sn_telling.specs.Walking.{IsServingKnown, SaysGained, rows_behind_all};

use crate::known::Known;
use crate::steps::{change_rows, push_all};
use sn_laws::Move;
use sn_row_map::RowMap;
use sn_rows::Change;
use sn_saying::{served, sync_served};
use sn_string::{KeySet, OwnedList, Text};
use std::alloc::{AllocError, Global};

/// The moves of the batches that the server's store gained by a request of the device of this name, which would begin this
/// set. The server's rows become those behind the batches.
pub(crate) fn gained(
    alloc: Global,
    server: &mut RowMap,
    device: &RowMap,
    name: &Text,
    begins: Option<&KeySet>,
    request: &Option<Known>,
    batches: OwnedList<OwnedList<Change>>,
) -> Result<OwnedList<Move>, AllocError>
    ensures moves { IfOk result (SaysGained (row_in server.old) (row_in device.now) name.now (option_copied begins.entry) request.now batches) }
    ensures rows { OnOk result (row_in server.new ≡ rows_behind_all (row_in server.old) batches) }
{
    match request {
        Some(request) => all_served(alloc, server, device, name, begins, request, batches),
        None => {
            change_all(server, batches)?;
            Ok(OwnedList::new(alloc))
        }
    }
}

// The same where something is known of the request.
fn all_served(
    alloc: Global,
    server: &mut RowMap,
    device: &RowMap,
    name: &Text,
    begins: Option<&KeySet>,
    request: &Known,
    batches: OwnedList<OwnedList<Change>>,
) -> Result<OwnedList<Move>, AllocError>
    ensures moves { IfOk result (SaysGained (row_in server.old) (row_in device.now) name.now (option_copied begins.entry) (Some request.now) batches) }
    ensures rows { OnOk result (row_in server.new ≡ rows_behind_all (row_in server.old) batches) }
{
    let mut moves = OwnedList::new(alloc);
    'batches: for batch in batches.into_vec() {
        let said = batch_served(alloc, server, device, name, begins, request, batch)?;
        push_all(&mut moves, said)?;
    }
    Ok(moves)
}

// The moves of one of the batches, which changes the server's rows.
fn batch_served(
    alloc: Global,
    server: &mut RowMap,
    device: &RowMap,
    name: &Text,
    begins: Option<&KeySet>,
    request: &Known,
    batch: OwnedList<Change>,
) -> Result<OwnedList<Move>, AllocError>
    ensures moves { IfOk result (IsServingKnown (row_in server.old) (row_in device.now) name.now (option_copied begins.entry) request.now batch) }
    ensures rows { OnOk result (row_in server.new ≡ rows_after (row_in server.old) batch) }
{
    match request {
        Known::Sync => sync_served(alloc, server, device, name, batch),
        Known::Other(request) => served(alloc, server, device, name, begins, request, batch),
    }
}

// Changes rows by batches.
fn change_all(rows: &mut RowMap, batches: OwnedList<OwnedList<Change>>) -> Result<(), AllocError>
    ensures { OnOk result (row_in rows.new ≡ rows_behind_all (row_in rows.old) batches) }
{
    'batches: for batch in batches.into_vec() {
        change_rows(rows, batch)?;
    }
    Ok(())
}
