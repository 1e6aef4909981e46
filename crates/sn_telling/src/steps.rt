//! One step of a walk: moves behind others, rows behind a batch.

ghost use Rattle.std.specs.Prelude.{◌≡◌, ◌++◌, OnOk};
ghost use Rattle.sn_row_map.specs.RowMaps.{row_in};
ghost use Rattle.sn_rows.specs.Table.{rows_after};

use sn_laws::Move;
use sn_row_map::RowMap;
use sn_rows::Change;
use sn_string::OwnedList;
use std::alloc::AllocError;

/// Adds moves behind others.
pub(crate) fn push_all(moves: &mut OwnedList<Move>, said: OwnedList<Move>) -> Result<(), AllocError>
    ensures { OnOk result (moves.new ≡ moves.old ++ said) }
{
    if moves.is_empty() {
        *moves = said;
        return Ok(());
    }
    'said: for one in said.into_vec() {
        moves.push(one)?;
    }
    Ok(())
}

/// Changes rows by a batch.
pub(crate) fn change_rows(rows: &mut RowMap, batch: OwnedList<Change>) -> Result<(), AllocError>
    ensures { OnOk result (row_in rows.new ≡ rows_after (row_in rows.old) batch) }
{
    rows.add_all(batch.into_vec())
}
