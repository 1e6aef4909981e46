//! Devices in memory, by their names.

ghost use Rattle.std.specs.Prelude.{◌≡◌, [], IfOk};
ghost use Rattle.sn_client.specs.Calls.{IsOpen, device_disk};
ghost use Rattle.sn_events.specs.Growing.{IsFreshDisk};
ghost use Rattle.sn_events.specs.Steadies.{IsSteady};
ghost use Rattle.sn_table.specs.Kept.{kept_of};

use crate::marks::device_mark;
use crate::shelving::put_disk;
use crate::steady::Steady;
use sn_client::Device;
use sn_disk::{MemDisk, MemShelf};
use sn_tail::first_place;
use std::alloc::{AllocError, Global};
use std::collections::BTreeMap;

/// The least cost of a set that a device takes.
const LEAST_COST: u32 = 1;

/// Devices by their names, each with the place of the gate behind the batches of its store. A name that has none yet gets a fresh
/// one with its first call.
#[derive(Drop)]
pub struct Devices {
    alloc: Global,
    named: BTreeMap<String, Steady>,
}

impl Devices {
    ghost use Rattle.std.specs.Prelude.{◌≢◌, ℕ, List, None, Some, OnOk};
    ghost use Rattle.sn_disk.specs.MemShelf.{shelf_slot};
    ghost use Rattle.sn_disk.specs.Shelf.{unknown};
    ghost use Rattle.sn_events.specs.Devices.{DeviceHas, HasRows, device_of};
    ghost use Rattle.sn_events.specs.Growing.{ComesFrom};
    ghost use Rattle.sn_events.specs.Slots.{device_key, slot_mark, slot_of_device};
    ghost use Rattle.sn_events.specs.declared.steady.Holding.TheVariants as held;
    ghost use Rattle.sn_journal.specs.declared.owner.Owner.TheVariants.{Device as DeviceOwner};
    ghost use Rattle.sn_rows.specs.Table.{Rows};
    ghost use Rattle.sn_tail.specs.Shelves.{SlotReads};

    #[tactic(auto, unfolding(crate::specs::Devices::device_of))]
    pub(crate) fn new(alloc: Global) -> Devices
        ensures { (name : List ℕ) → device_of result name ≡ None }
    {
        Devices {
            alloc,
            named: BTreeMap::new(alloc),
        }
    }

    /// Takes the device of a name out, with its place, or begins one on a fresh disk.
    #[tactic(auto, unfolding(crate::specs::Devices::device_of))]
    pub(crate) fn take(&mut self, name: &str) -> Result<(Device<MemDisk>, u64), AllocError>
        ensures rows { (rows : Rows) → HasRows (device_of self.old name.now) rows → IfOk result (λ taken. DeviceHas taken.0 taken.1 rows) }
        ensures from { IfOk result (λ taken. ComesFrom (device_of self.old name.now) (held.Device taken.0 taken.1)) }
        ensures steady { IfOk result (λ taken. IsSteady taken.0) }
        ensures others { (other : List ℕ) → other ≢ name.now → device_of self.new other ≡ device_of self.old other }
    {
        match self.named.remove(name) {
            Some(steady) => Ok(steady.into_parts()),
            None => Ok((fresh_device(self.alloc)?, first_place())),
        }
    }

    /// Puts a device back under its name, with its place.
    #[tactic(auto, unfolding(crate::specs::Devices::device_of))]
    pub(crate) fn put(
        &mut self,
        name: &str,
        device: Device<MemDisk>,
        place: u64,
    ) -> Result<(), AllocError>
        requires { IsSteady device }
        ensures own { OnOk result (device_of self.new name.now ≡ Some (held.Device device place)) }
        ensures others { (other : List ℕ) → other ≢ name.now → device_of self.new other ≡ device_of self.old other }
    {
        let key = name.to_string(self.alloc)?;
        match self.named.insert(key, Steady::new(device, place)) {
            Ok(_) => Ok(()),
            Err(_) => Err(AllocError),
        }
    }

    /// The present mark of the disk of the device of this name; 0 where it has none.
    #[tactic(auto, unfolding(crate::specs::Devices::device_of))]
    pub(crate) fn mark(&self, name: &str) -> u64
        ensures { (rows : Rows) → HasRows (device_of self.now name.now) rows
            → (result ≡ slot_mark (slot_of_device (device_of self.now name.now))) × SlotReads (slot_of_device (device_of self.now name.now)) DeviceOwner result rows }
    {
        match self.named.get(name) {
            Some(steady) => device_mark(steady.device()),
            None => 0,
        }
    }

    /// Puts each device's disk on a shelf.
    #[tactic(auto, unfolding(crate::specs::Devices::device_of))]
    pub(crate) fn put_away(self, shelf: &mut MemShelf) -> Result<(), AllocError>
        requires fresh { (name : List ℕ) → shelf_slot shelf.old (device_key name) ≡ unknown }
        ensures put { OnOk result ((name : List ℕ) → shelf_slot shelf.new (device_key name) ≡ slot_of_device (device_of self name)) }
        ensures others { OnOk result ((other : List ℕ) → ((name : List ℕ) → other ≢ device_key name) → shelf_slot shelf.new other ≡ shelf_slot shelf.old other) }
    {
        let Devices { alloc, mut named } = self;
        'devices: while let Some((name, steady)) = named.pop_first() {
            put_disk(alloc, shelf, name.as_str(), steady.into_disk())?;
        }
        Ok(())
    }
}

// A device on a fresh disk.
fn fresh_device(alloc: Global) -> Result<Device<MemDisk>, AllocError>
    ensures fresh { IfOk result (λ device. IsOpen device (kept_of [])) }
    ensures disk { IfOk result (λ device. IsFreshDisk (device_disk device)) }
    ensures steady { IfOk result IsSteady }
{
    let disk = MemDisk::new(alloc, Vec::new(alloc), Vec::new(alloc))?;
    match Device::load(alloc, disk, LEAST_COST) {
        Ok(device) => Ok(device),
        Err(_) => Err(AllocError),
    }
}
