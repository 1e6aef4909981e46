// The table, and its one change.

ghost use Rattle.std.specs.Prelude.{◌≡◌, ◌⊎◌, ◌+◌, ◌<◌, ◌≤◌, ◌++◌, [], ◌∷◌, List, ℕ, All, length, IfOk, OnOk, IfSome, Some};
ghost use Rattle.std.specs.Option.{option_copied};
ghost use Rattle.sn_journal.specs.Image.{most_payload};
ghost use Rattle.sn_rows.specs.Kinds.{key_kind, value_kind};
ghost use Rattle.sn_rows.specs.Spelling.{spelled};
ghost use Rattle.sn_rows.specs.Table.{row_after};
ghost use Rattle.sn_rows.specs.declared.change.Change.{Change};
ghost use Rattle.sn_rows.specs.declared.key.Key.{Key};
ghost use Rattle.sn_rows.specs.declared.value.Value.{Value};
ghost use Rattle.sn_row_map.specs.Ranges.{AreRowsOf};
ghost use Rattle.sn_row_map.specs.RowMaps.{row_in, IsTidy};

use crate::log::Log;
use crate::{CommitError, Committed};
use sn_disk::{Disk, MemDisk, Stop};
use sn_row_map::RowMap;
use sn_rows::{Change, Key, RowKind, Value};
use sn_string::OwnedList;
use std::alloc::{AllocError, Global};
use std::mem;

/// An open table: its log, and the rows that the log's batches leave.
#[derive(Drop)]
pub struct Table<D: Disk> {
    alloc: Global,
    log: Log<D>,
    rows: RowMap,
    ghost kinds: { (key : Key) (value : Value) → row_in rows key ≡ Some value → key_kind key ≡ value_kind value },
}

impl<D: Disk> Table<D> {
    ghost use Rattle.sn_disk.specs.Disk.{LeavesOnly};
    ghost use Rattle.sn_io.specs.Causes.{Rose};
    ghost use Rattle.sn_table.specs.Batches.{IsOf, IsAllOrNothing};
    ghost use Rattle.sn_table.specs.Committing.{IsCause, IsRefused, IfDone, IfRefused, IfBroken, disk_after};
    ghost use Rattle.sn_table.specs.Logs.{HasKinds};
    ghost use Rattle.sn_table.specs.Tables.{IsOpen, IsUntouched, table_disk, table_owner, table_rows};

    pub(crate) fn opened(alloc: Global, log: Log<D>, rows: RowMap) -> Table<D>
        requires { HasKinds rows }
        ensures log { result.log ≡ log }
        ensures rows { result.rows ≡ rows }
    {
        Table { alloc, log, rows }
    }

    /// Its disk.
    pub fn disk(&self) -> &D
        ensures { result.now ≡ table_disk self.now }
    {
        self.log.disk()
    }

    /// Gives the disk back. Nothing is in flight. The memory of the rows is left to the end of the process: to give
    /// each row's back takes a while where there are many, and who closes a table is about to end.
    pub fn close(self) -> D
        ensures { result ≡ table_disk self }
    {
        let Table { log, rows, .. } = self;
        mem::forget(rows);
        log.close()
    }

    /// How many batches it has.
    pub fn count(&self) -> u64
        ensures { (batches : List (List Change)) → IsOpen self.now batches → result ≡ length batches }
    {
        self.log.count()
    }

    /// Its rows.
    pub fn rows(&self) -> &RowMap
        ensures rows { result.now ≡ table_rows self.now }
        ensures kinds { HasKinds result.now }
    {
        &self.rows
    }

    /// The row of a key. Takes no memory, and the time is logarithmic.
    pub fn get(&self, key: &Key) -> Option<&Value>
        ensures row { option_copied result ≡ row_in (table_rows self.now) key.now }
        ensures kind { IfSome result (λ value. key_kind key.now ≡ value_kind value.now) }
    {
        self.rows.get(key)
    }

    /// The rows of a kind, in the order of their keys. The values are copied; beside that the time is logarithmic.
    pub fn range(&self, kind: RowKind) -> Result<OwnedList<(Key, Value)>, AllocError>
        ensures rows { IfOk result (AreRowsOf (table_rows self.now) kind) }
        ensures kind { IfOk result (λ rows. All (λ row. (key_kind row.0 ≡ kind) × (value_kind row.1 ≡ kind)) rows) }
    {
        self.rows.range(self.alloc, kind)
    }

    /// Makes changes, all of them or none, also in a crash. They are of rows of the owner's.
    pub fn commit(self, changes: Vec<Change>) -> Committed<Table<D>, D>
        requires { All (IsOf (table_owner self)) changes.items }
        // At `Done` each crash leaves the batches with the new one, and the rows are those that it leaves.
        ensures done { D.told → (batches : List (List Change)) → IsOpen self batches → IfDone result (λ table. IsOpen table (batches ++ changes.items ∷ [])) }
        ensures rows { IfDone result (λ table. (key : Key) → row_in (table_rows table) key ≡ row_after (row_in (table_rows self) key) key changes.items) }
        ensures owner { IfDone result (λ table. table_owner table ≡ table_owner self) }

        // No key is left with room and without a row.
        ensures tidy { IsTidy (table_rows self) → IfDone result (λ table. IsTidy (table_rows table)) × IfRefused result (λ table error. IsTidy (table_rows table)) }

        // A crash at any moment leaves the batches from before, or those with the whole new one, and so does one now.
        ensures any_moment { D.told → (batches : List (List Change)) → IsOpen self batches →
            LeavesOnly D.moment D.left_since (table_disk self) (disk_after table_disk result) (IsAllOrNothing (table_owner self) batches changes.items) }
        ensures crash { D.told → (batches : List (List Change)) → IsOpen self batches →
            (c : List ℕ) → D.may_leave (disk_after table_disk result) c → IsAllOrNothing (table_owner self) batches changes.items c }

        // A refused batch leaves all as it was.
        ensures refused { IfRefused result (λ table error. IsUntouched self table × IsCause changes.items error) }
        ensures stays { (batches : List (List Change)) → IsOpen self batches → IfRefused result (λ table error. IsOpen table batches) }
        ensures large { most_payload < length (spelled changes.items) → IsRefused result }

        // Four changing calls.
        ensures four { D.told → IfDone result (λ table. D.moment (table_disk table) ≡ D.moment (table_disk self) + 4) }
        ensures most { D.told → D.moment (disk_after table_disk result) ≤ D.moment (table_disk self) + 4 }

        ensures broken { IfBroken result (λ disk. Rose (D.fault_count (table_disk self)) (D.fault_count disk)) }
        ensures grows { D.grows (table_disk self) (disk_after table_disk result) }
        ensures later { D.fault_count (table_disk self) ≤ D.fault_count (disk_after table_disk result) }
        ensures quiet { IfDone result (λ table. D.fault_count (table_disk table) ≡ D.fault_count (table_disk self)) }
    {
        let Table {
            alloc,
            log,
            mut rows,
        } = self;
        let Ok(()) = rows.make_room_for(&changes) else {
            rows.sweep_for(&changes);
            return Committed::Refused(Table::opened(alloc, log, rows), CommitError::Memory);
        };
        match log.commit(&changes) {
            Committed::Done(log) => {
                rows.set_all(changes);
                Committed::Done(Table::opened(alloc, log, rows))
            }
            Committed::Refused(log, error) => {
                rows.sweep_for(&changes);
                Committed::Refused(Table::opened(alloc, log, rows), error)
            }
            Committed::Broken(disk) => Committed::Broken(disk),
        }
    }
}

impl Table<MemDisk> {
    ghost use Rattle.sn_disk.specs.MemDisk.{HasStopSet};
    ghost use Rattle.sn_table.specs.Tables.{IsOpen, table_disk, table_owner, table_rows};

    /// Sets whether and when its disk is to stop. Bytes, record, batches and rows stay as they are.
    pub fn set_stop(&mut self, stop: Stop)
        ensures set { HasStopSet stop (table_disk self.old) (table_disk self.new) }
        ensures owner { table_owner self.new ≡ table_owner self.old }
        ensures rows { table_rows self.new ≡ table_rows self.old }
        ensures stays { (batches : List (List Change)) → IsOpen self.old batches → IsOpen self.new batches }
    {
        self.log.set_stop(stop);
    }
}
