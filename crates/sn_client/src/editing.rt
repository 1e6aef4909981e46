//! The user's changes: items are put, edited and deleted, each in one commit.

ghost use Rattle.rand_chacha.specs.ChaCha.{ChaCha};
ghost use Rattle.sn_rows.specs.Bounds.{HasLength};
ghost use Rattle.sn_sets.specs.Seals.{IsLater};
ghost use Rattle.sn_device.specs.Runs.{nothing};
ghost use Rattle.sn_device.specs.States.{IsSound};
ghost use Rattle.sn_device.specs.Steps.{Deletes, Edits, PutsNew};

use crate::called::Called;
use crate::device::Device;
use sn_disk::Disk;
use sn_drafts::{changes_to_delete, changes_to_edit, changes_to_put};
use sn_items::Words;
use uuid::Uuid;

impl<D: Disk> Device<D> {
    ghost use Rattle.std.specs.Prelude.{◌≡◌, ◌≤◌};
    ghost use Rattle.sn_disk.specs.Disk.{LeavesOnly};
    ghost use Rattle.sn_io.specs.Causes.{Rose};
    ghost use Rattle.sn_table.specs.Kept.{Kept};
    ghost use Rattle.sn_client.specs.Calls.{Calls, IfBroken, IfStands, IsOpen, MayHave, StandsOrHas, called_disk, device_disk, device_rows};
    ghost use Rattle.sn_device.specs.Runs.{a_uuid, delete, edit, put};
    ghost use Rattle.sn_device.specs.States.{Bytes};

    /// Puts a new item of this type and content, and gives its uuid. The type has 1 to 255 bytes.
    pub fn put(self, words: &mut Words, kind: &str, text: &str) -> Called<Device<D>, D, Uuid>
        requires kind { HasLength 1 255 kind.now }
        requires sound { IsSound (device_rows self) }
        ensures runs { (kept : Kept) → IsOpen self kept →
            Calls IsOpen (MayHave D.told D.may_leave) a_uuid self.least_cost (put kind.now text.now) kept words.old words.new result }
        ensures any_moment { D.told → (kept : Kept) → IsOpen self kept →
            LeavesOnly D.moment D.left_since (device_disk self) (called_disk device_disk result)
            (StandsOrHas kept.batches (λ changes. (uuid : Bytes) × PutsNew kept.rows words.old uuid kind.now text.now changes words.new)) }
        ensures words { IsLater words.old words.new }
        ensures sound { IfStands result (λ device. IsSound (device_rows device)) }
        ensures least { IfStands result (λ device. device.least_cost ≡ self.least_cost) }
        ensures fault { IfBroken result (λ disk. Rose (D.fault_count (device_disk self)) (D.fault_count disk)) }
        ensures grows { D.grows (device_disk self) (called_disk device_disk result) }
        ensures later { D.fault_count (device_disk self) ≤ D.fault_count (called_disk device_disk result) }
    {
        match changes_to_put(self.alloc, &self.table, &self.index, words, kind, text) {
            Ok(made) => {
                let (uuid, changes) = made;
                self.answer(changes, uuid)
            }
            Err(why) => Called::Refused(self, why),
        }
    }

    /// Gives an item a new content.
    pub fn edit(self, words: &mut Words, uuid: Uuid, text: &str) -> Called<Device<D>, D, ()>
        requires { IsSound (device_rows self) }
        ensures runs { (kept : Kept) → IsOpen self kept →
            Calls IsOpen (MayHave D.told D.may_leave) (λ given. nothing) self.least_cost (edit uuid text.now) kept words.old words.new result }
        ensures any_moment { D.told → (kept : Kept) → IsOpen self kept →
            LeavesOnly D.moment D.left_since (device_disk self) (called_disk device_disk result)
            (StandsOrHas kept.batches (λ changes. Edits kept.rows words.old uuid text.now changes words.new)) }
        ensures words { IsLater words.old words.new }
        ensures sound { IfStands result (λ device. IsSound (device_rows device)) }
        ensures least { IfStands result (λ device. device.least_cost ≡ self.least_cost) }
        ensures fault { IfBroken result (λ disk. Rose (D.fault_count (device_disk self)) (D.fault_count disk)) }
        ensures grows { D.grows (device_disk self) (called_disk device_disk result) }
        ensures later { D.fault_count (device_disk self) ≤ D.fault_count (called_disk device_disk result) }
    {
        match changes_to_edit(self.alloc, &self.table, &self.index, words, uuid, text) {
            Ok(changes) => self.answer(changes, ()),
            Err(why) => Called::Refused(self, why),
        }
    }

    /// Deletes an item, also one that is deleted already or doesn't open.
    pub fn delete(self, uuid: Uuid) -> Called<Device<D>, D, ()>
        requires { IsSound (device_rows self) }
        ensures runs { (words : ChaCha) (kept : Kept) → IsOpen self kept →
            Calls IsOpen (MayHave D.told D.may_leave) (λ given. nothing) self.least_cost (delete uuid) kept words words result }
        ensures any_moment { D.told → (kept : Kept) → IsOpen self kept →
            LeavesOnly D.moment D.left_since (device_disk self) (called_disk device_disk result)
            (StandsOrHas kept.batches (Deletes kept.rows uuid)) }
        ensures sound { IfStands result (λ device. IsSound (device_rows device)) }
        ensures least { IfStands result (λ device. device.least_cost ≡ self.least_cost) }
        ensures fault { IfBroken result (λ disk. Rose (D.fault_count (device_disk self)) (D.fault_count disk)) }
        ensures grows { D.grows (device_disk self) (called_disk device_disk result) }
        ensures later { D.fault_count (device_disk self) ≤ D.fault_count (called_disk device_disk result) }
    {
        match changes_to_delete(self.alloc, &self.table, &self.index, uuid) {
            Ok(changes) => self.answer(changes, ()),
            Err(why) => Called::Refused(self, why),
        }
    }
}
