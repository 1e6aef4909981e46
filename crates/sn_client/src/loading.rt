//! Loading a device from what a crash may have left.

use crate::device::Device;
use crate::error::DeviceError;
use sn_disk::Disk;
use sn_journal::Owner;
use sn_local::Index;
use sn_soundness::first_unsound;
use sn_table::Table;
use std::alloc::Global;

impl<D: Disk> Device<D> {
    ghost use Rattle.std.specs.Prelude.{◌≡◌, ◌⊎◌, ◌+◌, ◌*◌, ◌≤◌, ◌++◌, ◌∷◌, [], List, ℕ, IfErr, IfOk, OnOk};
    ghost use Rattle.sn_disk.specs.Disk.{Counts, LeavesOnly};
    ghost use Rattle.sn_journal.specs.Image.{SameBatches, missing_writes};
    ghost use Rattle.sn_journal.specs.declared.owner.Owner.TheVariants.{Device as DeviceOwner};
    ghost use Rattle.sn_row_map.specs.RowMaps.{row_in};
    ghost use Rattle.sn_rows.specs.declared.change.Change.{Change};
    ghost use Rattle.sn_table.specs.Batches.{IsAllOrNothing, IsStore};
    ghost use Rattle.sn_table.specs.Kept.{kept_of};
    ghost use Rattle.sn_table.specs.Logs.{HasOwned};
    ghost use Rattle.sn_table.specs.Tables.{table_disk, table_owner, table_rows};
    ghost use Rattle.sn_client.specs.Calls.{IsOpen, device_disk, device_rows};
    ghost use Rattle.sn_client.specs.Loads.{IsDeviceError, IsLoaded, IsOpenError, given_disk};
    ghost use Rattle.sn_device.specs.States.{IsSound};

    /// Loads the device of a disk, or makes it where it was never begun or finished. It takes no set of a lower cost than
    /// this one.
    ///
    /// After an error the disk may be loaded again.
    pub fn load(alloc: Global, disk: D, least_cost: u32) -> Result<Device<D>, (D, DeviceError)>
        requires { 1 ≤ least_cost }
        // It is open with the batches that the disk's bytes stand for.
        ensures loaded { D.told → IfOk result (IsLoaded IsOpen (D.seen disk)) }

        // A crash at any moment leaves what it might have left before, or the same batches.
        ensures any_moment { D.told → LeavesOnly D.moment D.left_since disk (given_disk device_disk result)
            (λ c. D.may_leave disk c ⊎ SameBatches DeviceOwner (D.seen disk) c) }

        // Where each outcome of a crash stands for the same batches, the device is open with these, and each
        // further outcome stands for them.
        ensures same { D.told → (batches : List (List Change)) → ((c : List ℕ) → D.may_leave disk c → IsStore DeviceOwner c batches) →
            IfOk result (λ device. IsOpen device (kept_of batches))
            × LeavesOnly D.moment D.left_since disk (given_disk device_disk result) (λ c. IsStore DeviceOwner c batches) }

        // Where each outcome has a last batch whole or not at all, so has the device, and each further outcome.
        ensures either { D.told → (batches : List (List Change)) (changes : List Change) → ((c : List ℕ) → D.may_leave disk c → IsAllOrNothing DeviceOwner batches changes c) →
            IfOk result (λ device. IsOpen device (kept_of batches) ⊎ IsOpen device (kept_of (batches ++ changes ∷ [])))
            × LeavesOnly D.moment D.left_since disk (given_disk device_disk result) (IsAllOrNothing DeviceOwner batches changes) }

        // A sync, and two calls for each write of a start that is missing.
        ensures calls { D.told → Counts (1 + 2 * missing_writes (D.seen disk)) (D.moment disk) (D.moment (given_disk device_disk result)) result }

        ensures sound { IfOk result (λ device. IsSound (device_rows device)) }
        ensures least { IfOk result (λ device. device.least_cost ≡ least_cost) }
        ensures refused { IfErr result (λ refusal. IsDeviceError D.told (D.seen disk) (D.fault_count disk) (D.fault_count refusal.0) refusal.1) }
        ensures grows { D.grows disk (given_disk device_disk result) }
        ensures later { D.fault_count disk ≤ D.fault_count (given_disk device_disk result) }
        ensures quiet { OnOk result (D.fault_count (given_disk device_disk result) ≡ D.fault_count disk) }
    {
        match sn_table::load(alloc, disk, Owner::Device) {
            Ok(table) => Device::opened(alloc, table, least_cost),
            Err((disk, error)) => Err((disk, DeviceError::of_table(error))),
        }
    }

    // Opens a table whose rows are sound.
    fn opened(
        alloc: Global,
        table: Table<D>,
        least_cost: u32,
    ) -> Result<Device<D>, (D, DeviceError)>
        requires owner { table_owner table ≡ DeviceOwner }
        requires owned { HasOwned DeviceOwner (table_rows table) }
        ensures opens { IfOk result (λ device. device.table ≡ table) }
        ensures still { IfErr result (λ refusal. refusal.0 ≡ table_disk table) }
        ensures sound { IfOk result (λ device. IsSound (device_rows device)) }
        ensures least { IfOk result (λ device. device.least_cost ≡ least_cost) }
        ensures refused { IfErr result (λ refusal. IsOpenError (row_in (table_rows table)) refusal.1) }
    {
        let rows = table.rows();
        let Ok(index) = Index::of_rows(alloc, rows) else {
            return Err((table.close(), DeviceError::Memory));
        };
        match first_unsound(alloc, rows) {
            Ok(None) => Ok(Device {
                alloc,
                table,
                index,
                least_cost,
            }),
            Ok(Some(kind)) => Err((table.close(), DeviceError::Rows { kind })),
            Err(_) => Err((table.close(), DeviceError::Memory)),
        }
    }
}
