//! Fresh uuids.

ghost use Rattle.std.specs.Prelude.{IfErr, IfOk};
ghost use Rattle.sn_device.specs.Draws.{DrawsFresh, DrawsNoFresh};
ghost use Rattle.sn_local.specs.Found.{AreFound};
ghost use Rattle.sn_row_map.specs.RowMaps.{row_in};
ghost use Rattle.sn_rows.specs.Table.{rows_after};
ghost use Rattle.sn_sets.specs.Seals.{IsLater};
ghost use Rattle.sn_local.specs.Index.{Indexes};
ghost use Rattle.sn_device.specs.States.{IsSound};
ghost use Rattle.sn_table.specs.Tables.{table_rows};

use crate::behind::is_used;
use crate::index::Index;
use sn_disk::Disk;
use sn_items::Words;
use sn_row_map::RowMap;
use sn_rows::Change;
use sn_table::Table;
use uuid::Uuid;

// So many uuids are drawn at most for a fresh one.
const MOST_DRAWS: usize = 16;

/// The first of the drawn uuids that no item has behind the changes; else the last of as many as may be
/// drawn. Takes no memory.
pub fn draw_fresh(
    rows: &RowMap,
    index: &Index,
    changes: &[Change],
    words: &mut Words,
) -> Result<Uuid, Uuid>
    requires { AreFound index.now rows.now }
    ensures ok { IfOk result (λ uuid. DrawsFresh (rows_after (row_in rows.now) changes.now) words.old uuid words.new) }
    ensures err { IfErr result (DrawsNoFresh (rows_after (row_in rows.now) changes.now) words.old) }
    ensures words { IsLater words.old words.new }
{
    let mut drawn = words.uuid();
    let mut draws = 1;
    'draws: while is_used(rows, index, changes, drawn) {
        if draws == MOST_DRAWS {
            return Err(drawn);
        }
        drawn = words.uuid();
        draws += 1;
    }
    Ok(drawn)
}

/// The same with no changes behind the rows of a table.
pub fn fresh_uuid<D: Disk>(table: &Table<D>, index: &Index, words: &mut Words) -> Result<Uuid, Uuid>
    requires indexed { Indexes index.now (row_in (table_rows table.now)) }
    requires sound { IsSound (row_in (table_rows table.now)) }
    ensures ok { IfOk result (λ uuid. DrawsFresh (row_in (table_rows table.now)) words.old uuid words.new) }
    ensures err { IfErr result (DrawsNoFresh (row_in (table_rows table.now)) words.old) }
    ensures words { IsLater words.old words.new }
{
    draw_fresh(table.rows(), index, &[], words)
}
