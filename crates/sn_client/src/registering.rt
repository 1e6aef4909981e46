//! Registration: an account's set is made of a password, and its first rows are kept.

ghost use Rattle.std.specs.Prelude.{◌≡◌, ◌≤◌};
ghost use Rattle.sn_device.specs.Runs.{IsNewSet};
ghost use Rattle.sn_sets.specs.Seals.{IsLater};
ghost use Rattle.sn_string.specs.Bounds.{IsIdentifier};
ghost use Rattle.sn_sync.specs.declared.request.Request.TheVariants as request;

use crate::called::Called;
use crate::device::Device;
use sn_device::ClientError;
use sn_disk::Disk;
use sn_items::Words;
use sn_joining::{registration, registration_refusal};
use sn_net::Link;
use sn_string::KeySet;

impl<D: Disk> Device<D> {
    ghost use Rattle.std.specs.Prelude.{ℕ, List};
    ghost use Rattle.sn_disk.specs.Disk.{LeavesOnly};
    ghost use Rattle.sn_io.specs.Causes.{Rose};
    ghost use Rattle.sn_string.specs.declared.params.KeySet.{KeySet};
    ghost use Rattle.sn_table.specs.Kept.{Kept};
    ghost use Rattle.sn_client.specs.Calls.{CallsOver, IfBroken, IfRefused, IfStands, IsOpen, MayHave, StandsOrHas, called_disk, device_disk, device_rows};
    ghost use Rattle.sn_device.specs.Runs.{nothing, register};
    ghost use Rattle.sn_device.specs.States.{IsSound};
    ghost use Rattle.sn_device.specs.Steps.{BeginsDevice};

    /// Registers an account at the link's host. Its identifier has 1 to 254 bytes. The time goes with the cost.
    pub fn register<L: Link>(
        self,
        link: &mut L,
        words: &mut Words,
        identifier: &str,
        password: &str,
        cost: u32,
    ) -> Called<Device<D>, D, ()>
        requires sound { IsSound (device_rows self) }
        requires identifier { IsIdentifier identifier.now }
        ensures runs { (kept : Kept) → IsOpen self kept →
            CallsOver IsOpen (MayHave D.told D.may_leave) (λ given. nothing) self.least_cost (register identifier.now password.now cost)
            (L.asks link.old link.new) (L.aimed link.old) kept words.old words.new result }
        ensures any_moment { D.told → (kept : Kept) → IsOpen self kept →
            LeavesOnly D.moment D.left_since (device_disk self) (called_disk device_disk result)
            (StandsOrHas kept.batches (λ changes. (set : KeySet) × (uuid : List ℕ) × (token : List ℕ)
            × IsNewSet words.old identifier.now password.now cost set words.new × BeginsDevice set uuid token changes)) }
        ensures words { IsLater words.old words.new }
        ensures sound { IfStands result (λ device. IsSound (device_rows device)) }
        ensures least { IfStands result (λ device. device.least_cost ≡ self.least_cost) }
        ensures fault { IfBroken result (λ disk. Rose (D.fault_count (device_disk self)) (D.fault_count disk)) }
        ensures grows { D.grows (device_disk self) (called_disk device_disk result) }
        ensures later { D.fault_count (device_disk self) ≤ D.fault_count (called_disk device_disk result) }
        ensures aimed { L.aimed link.new ≡ L.aimed link.old }
        ensures link_fault { IfRefused result (λ why. why ≡ ClientError.LinkFault → Rose (L.fault_count link.old) (L.fault_count link.new)) }
        ensures link_later { L.fault_count link.old ≤ L.fault_count link.new }
    {
        if let Some(why) = registration_refusal(self.alloc, &self.table, self.least_cost, cost) {
            return Called::Refused(self, why);
        }
        let nonce = words.nonce();
        let Ok((set, request)) = registration(self.alloc, &nonce, identifier, password, cost) else {
            return Called::Refused(self, ClientError::Memory);
        };
        self.begin(link, request, set)
    }
}
