//! The moves of an adoption.

ghost use Rattle.std.specs.Prelude.{IfOk};
ghost use Rattle.sn_row_map.specs.RowMaps.{row_in};
ghost use Rattle.sn_saying.specs.Adopted.{IsAdoption};

use crate::accounts::{account_in, identifier_in, older_in};
use crate::joining::joining;
use crate::reposting::{push_reposting, reposted};
use sn_laws::Move;
use sn_row_map::RowMap;
use sn_string::{OwnedList, Text};
use std::alloc::{AllocError, Global};

/// The moves of the commit by which the device of this name adopts the last set of its account: `rows` are the device's
/// before it, and `server` are those of the server at that moment.
pub fn adopted(
    alloc: Global,
    server: &RowMap,
    rows: &RowMap,
    name: &Text,
) -> Result<OwnedList<Move>, AllocError>
    ensures { IfOk result (IsAdoption (row_in server.now) (row_in rows.now) name.now) }
{
    let Some(identifier) = identifier_in(rows) else {
        return Ok(OwnedList::new(alloc));
    };
    let Some((number, generation)) = account_in(server, identifier) else {
        return Ok(OwnedList::new(alloc));
    };
    let older = older_in(server, rows, number, generation);
    let mut moves = joining(alloc, name, identifier, older, generation)?;
    let uuids = reposted(alloc, server, rows, number)?;
    push_reposting(alloc, &mut moves, name, uuids.as_slice())?;
    Ok(moves)
}
