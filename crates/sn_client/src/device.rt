//! A device: its table, and the one way in which it changes.

ghost use Rattle.std.specs.Prelude.{◌≡◌};
ghost use Rattle.sn_journal.specs.declared.owner.Owner.TheVariants.{Device as DeviceOwner};
ghost use Rattle.sn_row_map.specs.RowMaps.{row_in};
ghost use Rattle.sn_table.specs.Tables.{table_owner, table_rows};
ghost use Rattle.sn_local.specs.Index.{Indexes, indexes-prop};

use crate::called::Called;
use crate::error::of_commit;
use sn_disk::{Disk, MemDisk, Stop};
use sn_local::{Index, changed_numbers};
use sn_rows::Change;
use sn_table::{CommitError, Committed, Table};
use std::alloc::Global;
use std::mem;

/// A device on a disk: one account's items, or none yet. Each of its rows stands in memory once.
#[derive(Drop)]
pub struct Device<D: Disk> {
    pub(crate) alloc: Global,
    pub(crate) table: Table<D>,
    pub(crate) index: Index,
    pub(crate) least_cost: u32,
    pub(crate) ghost owner: { table_owner table ≡ DeviceOwner },
    pub(crate) ghost indexed: { Indexes index (row_in (table_rows table)) } by { indexes-prop index (row_in (table_rows table)) },
}

impl<D: Disk> Device<D> {
    ghost use Rattle.std.specs.Prelude.{◌+◌, ◌<◌, ◌≤◌, ℕ, List, All, length};
    ghost use Rattle.sn_disk.specs.Disk.{LeavesOnly};
    ghost use Rattle.sn_io.specs.Causes.{Rose};
    ghost use Rattle.sn_rows.specs.Table.{rows_after};
    ghost use Rattle.sn_table.specs.Batches.{IsAllOrNothing, IsOf};
    ghost use Rattle.sn_table.specs.Committing.{IfBroken, IfDone, IfRefused, IsCause, disk_after};
    ghost use Rattle.sn_table.specs.Kept.{Kept, with_batch};
    ghost use Rattle.sn_client.specs.Calls.{IsOpen, MayHave, device_disk, device_rows};
    ghost use Rattle.sn_device.specs.Runs.{IsBatch};

    /// Its disk.
    pub fn disk(&self) -> &D
        ensures { result.now ≡ device_disk self.now }
    {
        self.table.disk()
    }

    /// Gives the disk back. Nothing is in flight. The memory of the rows and their index is left to the end of the
    /// process.
    pub fn close(self) -> D
        ensures { result ≡ device_disk self }
    {
        let Device { table, index, .. } = self;
        mem::forget(index);
        table.close()
    }

    // Makes changes in one batch, all of them or none, also in a crash.
    pub(crate) fn commit(self, changes: Vec<Change>) -> Committed<Device<D>, D>
        requires { All (IsOf DeviceOwner) changes.items }
        ensures done { (kept : Kept) → IsOpen self kept → IfDone result (λ device. IsOpen device (with_batch kept changes.items)) }
        ensures rows { IfDone result (λ device. device_rows device ≡ rows_after (device_rows self) changes.items) }
        ensures fits { IfDone result (λ device. IsBatch changes.items) × IfBroken result (λ disk. IsBatch changes.items) }

        // A refused batch leaves all as it was, and its disk isn't called.
        ensures stays { (kept : Kept) → IsOpen self kept → IfRefused result (λ device error. IsOpen device kept) }
        ensures same { IfRefused result (λ device error. device_rows device ≡ device_rows self) }
        ensures still { IfRefused result (λ device error. device_disk device ≡ device_disk self) }
        ensures cause { IfRefused result (λ device error. IsCause changes.items error) }
        ensures least { IfDone result (λ device. device.least_cost ≡ self.least_cost) × IfRefused result (λ device error. device.least_cost ≡ self.least_cost) }

        // A crash at any moment leaves the batches from before, or those with the whole new one.
        ensures any_moment { D.told → (kept : Kept) → IsOpen self kept →
            LeavesOnly D.moment D.left_since (device_disk self) (disk_after device_disk result) (IsAllOrNothing DeviceOwner kept.batches changes.items) }
        ensures broken { (kept : Kept) → IsOpen self kept → IfBroken result (λ disk. MayHave D.told D.may_leave disk kept changes.items) }
        ensures fault { IfBroken result (λ disk. Rose (D.fault_count (device_disk self)) (D.fault_count disk)) }
        ensures most { D.told → D.moment (disk_after device_disk result) ≤ D.moment (device_disk self) + 4 }
        ensures grows { D.grows (device_disk self) (disk_after device_disk result) }
        ensures later { D.fault_count (device_disk self) ≤ D.fault_count (disk_after device_disk result) }
    {
        let Device {
            alloc,
            table,
            mut index,
            least_cost,
        } = self;
        let (Ok(()), Ok(numbers)) = (index.add_all(&changes), changed_numbers(alloc, &changes))
        else {
            let device = Device {
                alloc,
                table,
                index,
                least_cost,
            };
            return Committed::Refused(device, CommitError::Memory);
        };
        match table.commit(changes) {
            Committed::Done(table) => {
                index.settle(table.rows(), &numbers);
                Committed::Done(Device {
                    alloc,
                    table,
                    index,
                    least_cost,
                })
            }
            Committed::Refused(table, error) => {
                let device = Device {
                    alloc,
                    table,
                    index,
                    least_cost,
                };
                Committed::Refused(device, error)
            }
            Committed::Broken(disk) => Committed::Broken(disk),
        }
    }
}

impl<D: Disk> Device<D> {
    ghost use Rattle.std.specs.Prelude.{◌≤◌, ◌⊎◌, List, All};
    ghost use Rattle.sn_disk.specs.Disk.{LeavesOnly};
    ghost use Rattle.sn_io.specs.Causes.{Rose};
    ghost use Rattle.sn_rows.specs.Table.{rows_after};
    ghost use Rattle.sn_table.specs.Batches.{IsAllOrNothing, IsOf};
    ghost use Rattle.sn_table.specs.Kept.{Kept};
    ghost use Rattle.rand_chacha.specs.ChaCha.{ChaCha};
    ghost use Rattle.sn_client.specs.Calls.{Ends, IfBroken, IfRefused, IfStands, IsOpen, MayHave, called_disk, device_disk, device_rows, of_commit};
    ghost use Rattle.sn_table.specs.Committing.{IsCause};
    ghost use Rattle.sn_table.specs.declared.committed.CommitError.{CommitError};
    ghost use Rattle.sn_device.specs.Runs.{Act, EndsCommit, Given, Halt};
    ghost use Rattle.sn_device.specs.States.{IsSound};
    ghost use Rattle.sn_device.specs.Steps.{What};

    // Makes a call's last commit, behind which it is answered with what is given.
    pub(crate) fn answer<T: Drop>(self, changes: Vec<Change>, given: T) -> Called<Device<D>, D, T>
        requires owned { All (IsOf DeviceOwner) changes.items }
        requires sound { IsSound (device_rows self) }
        requires stays { IsSound (rows_after (device_rows self) changes.items) }
        ensures ends { (kept : Kept) (what : What) (left : ChaCha) (gives : T → Given) → IsOpen self kept → (acts : List Act) × (halt : Halt)
            × EndsCommit what changes.items (gives given) left acts halt × Ends IsOpen (MayHave D.told D.may_leave) gives kept acts halt left result }
        ensures sound { IfStands result (λ device. IsSound (device_rows device)) }
        ensures least { IfStands result (λ device. device.least_cost ≡ self.least_cost) }
        ensures cause { IfRefused result (λ why. (error : CommitError) × IsCause changes.items error × (why ≡ of_commit error)) }
        ensures rows { IfStands result (λ device. (device_rows device ≡ device_rows self) ⊎ (device_rows device ≡ rows_after (device_rows self) changes.items)) }
        ensures any_moment { D.told → (kept : Kept) → IsOpen self kept →
            LeavesOnly D.moment D.left_since (device_disk self) (called_disk device_disk result) (IsAllOrNothing DeviceOwner kept.batches changes.items) }
        ensures fault { IfBroken result (λ disk. Rose (D.fault_count (device_disk self)) (D.fault_count disk)) }
        ensures grows { D.grows (device_disk self) (called_disk device_disk result) }
        ensures later { D.fault_count (device_disk self) ≤ D.fault_count (called_disk device_disk result) }
    {
        match self.commit(changes) {
            Committed::Done(device) => Called::Done(device, given),
            Committed::Refused(device, error) => Called::Refused(device, of_commit(error)),
            Committed::Broken(disk) => Called::Broken(disk),
        }
    }
}

impl Device<MemDisk> {
    ghost use Rattle.sn_disk.specs.MemDisk.{HasStopSet};
    ghost use Rattle.sn_table.specs.Kept.{Kept};
    ghost use Rattle.sn_client.specs.Calls.{IsOpen, device_disk, device_rows};

    /// Sets whether and when its disk is to stop. Bytes, record, batches and rows stay as they are.
    pub fn set_stop(&mut self, stop: Stop)
        ensures set { HasStopSet stop (device_disk self.old) (device_disk self.new) }
        ensures rows { device_rows self.new ≡ device_rows self.old }
        ensures stays { (kept : Kept) → IsOpen self.old kept → IsOpen self.new kept }
        ensures least { self.new.least_cost ≡ self.old.least_cost }
    {
        self.table.set_stop(stop);
    }
}
