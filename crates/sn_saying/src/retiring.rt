//! The end of an older set, with an applied answer.

ghost use Rattle.std.specs.Prelude.{◌≡◌, IfOk};
ghost use Rattle.sn_row_map.specs.RowMaps.{row_in};
ghost use Rattle.sn_saying.specs.Retired.{IsOlderHeld, IsRetirement, gives_up, removes_older, retiring};

use crate::accounts::{account_in, identifier_in, older_in};
use sn_laws::Move;
use sn_row_map::RowMap;
use sn_rows::{Change, Key, Slot};
use sn_string::{OwnedList, Text, TryClone};
use std::alloc::{AllocError, Global};

/// The moves that an applied answer says behind those of its items: the older set of the device of this name ends, if the
/// changes give it up. `rows` are the device's before the answer, and `server` are those of the server at that moment.
pub fn retired(
    alloc: Global,
    server: &RowMap,
    rows: &RowMap,
    name: &Text,
    changes: &[Change],
) -> Result<OwnedList<Move>, AllocError>
    ensures { IfOk result (IsRetirement (row_in server.now) (row_in rows.now) name.now changes.now) }
{
    if !gives_up(changes) {
        return Ok(OwnedList::new(alloc));
    }
    let moves = retiring(alloc, name, older_held(server, rows))?;
    Ok(moves)
}

// Whether the last change takes the row of the older set away.
fn gives_up(changes: &[Change]) -> bool
    ensures { result ≡ gives_up changes.now }
{
    match changes.last() {
        Some(change) => removes_older(change),
        None => false,
    }
}

fn removes_older(change: &Change) -> bool
    ensures { result ≡ removes_older change.now }
{
    match change {
        Change::Put(_) => false,
        Change::Remove(at) => *at == Key::Set(Slot::Older),
    }
}

// The number of the older set that a device holds, if it holds one.
fn older_held(server: &RowMap, rows: &RowMap) -> Option<u64>
    ensures { IsOlderHeld (row_in server.now) (row_in rows.now) result }
{
    let Some(identifier) = identifier_in(rows) else {
        return None;
    };
    let Some((number, generation)) = account_in(server, identifier) else {
        return None;
    };
    older_in(server, rows, number, generation)
}

// The set of this number ends, if there is one.
fn retiring(alloc: Global, name: &Text, older: Option<u64>) -> Result<OwnedList<Move>, AllocError>
    ensures { IfOk result (λ moves. moves ≡ retiring name.now older) }
{
    let mut moves = OwnedList::new(alloc);
    let Some(older) = older else {
        return Ok(moves);
    };
    moves.push(Move::Retire {
        device: name.try_clone(alloc)?,
        number: older,
    })?;
    Ok(moves)
}
