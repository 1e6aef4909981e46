//! The moves of a device that takes up an account, and of the sets that it joins.

ghost use Rattle.std.specs.Prelude.{◌≡◌, IfOk};
ghost use Rattle.sn_row_map.specs.RowMaps.{row_in};
ghost use Rattle.sn_saying.specs.Adopted.{joining};
ghost use Rattle.sn_saying.specs.Joined.{IsJoining};

use crate::accounts::account_in;
use sn_laws::Move;
use sn_row_map::RowMap;
use sn_string::{OwnedList, Text, TryClone};
use std::alloc::{AllocError, Global};

/// The moves of the commit by which the device of this name takes up the account of an identifier, as a registration or a
/// sign-in gives it: `server` are the server's rows at that moment.
pub fn joined(
    alloc: Global,
    server: &RowMap,
    name: &Text,
    identifier: &Text,
) -> Result<OwnedList<Move>, AllocError>
    ensures { IfOk result (IsJoining (row_in server.now) name.now identifier.now) }
{
    let Some((_, generation)) = account_in(server, identifier) else {
        return Ok(OwnedList::new(alloc));
    };
    joining(alloc, name, identifier, None, generation)
}

/// The older set, if there is one, ends, and the one of this number is joined.
pub(crate) fn joining(
    alloc: Global,
    name: &Text,
    identifier: &Text,
    older: Option<u64>,
    number: u64,
) -> Result<OwnedList<Move>, AllocError>
    ensures { IfOk result (λ moves. moves ≡ joining name.now identifier.now older number) }
{
    let mut moves = OwnedList::new(alloc);
    if let Some(older) = older {
        moves.push(Move::Retire {
            device: name.try_clone(alloc)?,
            number: older,
        })?;
    }
    moves.push(Move::Join {
        device: name.try_clone(alloc)?,
        identifier: identifier.try_clone(alloc)?,
        number,
    })?;
    Ok(moves)
}
