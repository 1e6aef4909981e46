// A shelf of disks in memory.
ghost use Rattle.std.specs.Prelude.{◌≡◌, ◌≢◌, List, ℕ, map, string_bytes, IfSome, OnSome, IfNone, IfOk, OnOk, OnErr};
ghost use Rattle.sn_io.specs.Causes.{CountsFailure};
ghost use Rattle.sn_io.specs.FaultPlan.{fresh};
ghost use Rattle.sn_disk.specs.Shelf.{unknown, out, holds, HoldsNone};

use crate::{MemDisk, Shelf};
use sn_io::{Failed, FaultPlan};
use std::alloc::{AllocError, Global};
use std::collections::BTreeMap;

/// Disks in memory by name. Taking fails just where the call is listed, and where no disk stands under the name.
#[derive(Debug, Drop)]
pub struct MemShelf {
    disks: BTreeMap<String, Option<MemDisk>>,
    plan: FaultPlan,
}

impl MemShelf {
    ghost use Rattle.sn_disk.specs.MemShelf.{shelf_slot, shelf_plan, AreNames};

    /// A shelf without disks. The calls of `take` of the numbers in `failing`, from 0, fail.
    #[tactic(auto, unfolding(crate::specs::MemShelf::shelf_slot))]
    pub fn new(alloc: Global, failing: Vec<u64>) -> MemShelf
        ensures slots { (name : List ℕ) → shelf_slot result name ≡ unknown }
        ensures plan { shelf_plan result ≡ fresh failing.items }
    {
        MemShelf {
            disks: BTreeMap::new(alloc),
            plan: FaultPlan::new(failing),
        }
    }

    /// Puts a disk under a name that is new.
    #[tactic(auto, unfolding(crate::specs::MemShelf::shelf_slot))]
    pub fn put(&mut self, name: String, disk: MemDisk) -> Result<(), AllocError>
        requires { shelf_slot self.old (string_bytes name) ≡ unknown }
        ensures put { OnOk result (shelf_slot self.new (string_bytes name) ≡ holds disk) }
        ensures others { (other : List ℕ) → other ≢ string_bytes name → shelf_slot self.new other ≡ shelf_slot self.old other }
        ensures stays { OnErr result (shelf_slot self.new (string_bytes name) ≡ unknown) }
        ensures plan { shelf_plan self.new ≡ shelf_plan self.old }
    {
        match self.disks.insert(name, Some(disk)) {
            Ok(_) => Ok(()),
            Err(_) => Err(AllocError),
        }
    }

    /// The names under which disks were put, in the order of their bytes.
    pub fn names(&self, alloc: Global) -> Result<Vec<String>, AllocError>
        ensures { IfOk result (λ names. AreNames self.now (map string_bytes names.items)) }
    {
        let mut names = Vec::with_capacity(alloc, self.disks.len())?;
        'names: for name in self.disks.keys() {
            names.push(name.as_str().to_string(alloc)?)?;
        }
        Ok(names)
    }

    // Takes the disk of this name out, where one stands there.
    #[tactic(auto, unfolding(crate::specs::MemShelf::shelf_slot))]
    fn take_out(&mut self, name: &str) -> Option<MemDisk>
        ensures taken { IfSome result (λ disk. shelf_slot self.old name.now ≡ holds disk) }
        ensures out { OnSome result (shelf_slot self.new name.now ≡ out) }
        ensures none { IfNone result (HoldsNone (shelf_slot self.old name.now)) }
        ensures stays { IfNone result (shelf_slot self.new name.now ≡ shelf_slot self.old name.now) }
        ensures others { (other : List ℕ) → other ≢ name.now → shelf_slot self.new other ≡ shelf_slot self.old other }
        ensures plan { shelf_plan self.new ≡ shelf_plan self.old }
    {
        match self.disks.get_mut(name) {
            Some(place) => place.take(),
            None => None,
        }
    }
}

impl Shelf for MemShelf {
    ghost use Rattle.sn_disk.specs.MemShelf.{shelf_slot, TakeEnds};

    type D = MemDisk;

    ghost told = { Unit {0} };

    ghost slot = { shelf_slot };

    ghost fault_count = { λ s. s.plan.faults };

    ghost disks_tell = { λ told. told };

    fn faults(&self) -> u64 {
        self.plan.faults()
    }

    #[tactic(auto, unfolding(crate::specs::MemShelf::shelf_slot))]
    fn take(&mut self, name: &str) -> Result<MemDisk, Failed>
        ensures taken { Unit {0} → IfOk result (λ disk. shelf_slot self.old name.now ≡ holds disk) }
        ensures out { Unit {0} → OnOk result (shelf_slot self.new name.now ≡ out) }
        ensures others { Unit {0} → (other : List ℕ) → other ≢ name.now → shelf_slot self.new other ≡ shelf_slot self.old other }
        ensures stays { Unit {0} → OnErr result (shelf_slot self.new name.now ≡ shelf_slot self.old name.now) }
        ensures cause { CountsFailure self.old.plan.faults self.new.plan.faults result }
        ensures ends { TakeEnds name.now self.old self.new result }
    {
        self.plan.begin()?;
        match self.take_out(name) {
            Some(disk) => Ok(disk),
            None => Err(self.plan.fail()),
        }
    }

    #[tactic(auto, unfolding(crate::specs::MemShelf::shelf_slot))]
    fn give(&mut self, name: &str, disk: MemDisk) {
        if let Some(place) = self.disks.get_mut(name) {
            *place = Some(disk);
        }
    }
}
