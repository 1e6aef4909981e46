//! Signing in: the parameters of an account are asked for, and a password's keys under them tell what the store takes.

ghost use Rattle.std.specs.Prelude.{◌≡◌, ◌⊎◌, ◌≤◌, ℕ, List, Err};
ghost use Rattle.sn_device.specs.Runs.{IsOrMayBe};
ghost use Rattle.sn_io.specs.Causes.{Rose};
ghost use Rattle.sn_sync.specs.declared.request.Request.TheVariants as request;

use crate::called::Called;
use crate::device::Device;
use sn_device::ClientError;
use sn_disk::Disk;
use sn_items::Words;
use sn_joining::{Joining, ask_keys, joins_by, other_account, sign_in_request};
use sn_net::Link;
use sn_string::KeySet;

impl<D: Disk> Device<D> {
    ghost use Rattle.sn_disk.specs.Disk.{LeavesOnly};
    ghost use Rattle.sn_table.specs.Kept.{Kept};
    ghost use Rattle.sn_client.specs.Calls.{CallsOver, IfBroken, IfRefused, IfStands, IsOpen, MayHave, StandsOrHas, called_disk, device_disk, device_rows};
    ghost use Rattle.sn_client.specs.Going.{GoesOver, MayWant};
    ghost use Rattle.sn_device.specs.Runs.{SignsInWith, nothing, sign_in};
    ghost use Rattle.sn_client.specs.Signing.{MadeBySignIn};
    ghost use Rattle.sn_device.specs.States.{IsSound};
    ghost use Rattle.sn_sets.specs.Seals.{IsLater};
    ghost use Rattle.sn_device.specs.Steps.{Adopts, BeginsDevice, Renews};

    /// Signs in to an account at the link's host. Its identifier has 1 to 254 bytes. The time goes with the account's cost.
    pub fn sign_in<L: Link>(
        self,
        link: &mut L,
        words: &mut Words,
        identifier: &str,
        password: &str,
    ) -> Called<Device<D>, D, ()>
        requires sound { IsSound (device_rows self) }
        ensures runs { (kept : Kept) → IsOpen self kept →
            CallsOver IsOpen (MayHave D.told D.may_leave) (λ given. nothing) self.least_cost (sign_in identifier.now password.now)
            (L.asks link.old link.new) (L.aimed link.old) kept words.old words.new result }
        ensures any_moment { D.told → (kept : Kept) → IsOpen self kept →
            LeavesOnly D.moment D.left_since (device_disk self) (called_disk device_disk result)
            (StandsOrHas kept.batches (λ changes. MadeBySignIn kept.rows words.old identifier.now password.now changes words.new)) }
        ensures words { IsLater words.old words.new }
        ensures sound { IfStands result (λ device. IsSound (device_rows device)) }
        ensures least { IfStands result (λ device. device.least_cost ≡ self.least_cost) }
        ensures fault { IfBroken result (λ disk. Rose (D.fault_count (device_disk self)) (D.fault_count disk)) }
        ensures grows { D.grows (device_disk self) (called_disk device_disk result) }
        ensures later { D.fault_count (device_disk self) ≤ D.fault_count (called_disk device_disk result) }
        ensures aimed { L.aimed link.new ≡ L.aimed link.old }
        ensures link_fault { IfRefused result (λ why. why ≡ ClientError.LinkFault → Rose (L.fault_count link.old) (L.fault_count link.new)) }
        ensures link_later { L.fault_count link.old ≤ L.fault_count link.new }
    {
        if let Some(why) = other_account(self.alloc, &self.table, identifier) {
            return Called::Refused(self, why);
        }
        match ask_keys(self.alloc, link, self.least_cost, identifier, password) {
            Ok(set) => self.sign_in_with(link, words, set),
            Err(why) => Called::Refused(self, why),
        }
    }

    // Signs in with the keys of a password.
    fn sign_in_with<L: Link>(
        self,
        link: &mut L,
        words: &mut Words,
        set: KeySet,
    ) -> Called<Device<D>, D, ()>
        requires sound { IsSound (device_rows self) }
        requires named { IsOrMayBe (device_rows self) set.params.identifier }
        ensures runs { (kept : Kept) → IsOpen self kept →
            GoesOver IsOpen (MayHave D.told D.may_leave) (λ given. nothing) (MayWant (SignsInWith kept.rows words.old set.params.identifier set))
            (L.asks link.old link.new) (L.aimed link.old) kept words.new result }
        ensures any_moment { D.told → (kept : Kept) → IsOpen self kept →
            LeavesOnly D.moment D.left_since (device_disk self) (called_disk device_disk result)
            (StandsOrHas kept.batches (λ changes. (uuid : List ℕ) × (token : List ℕ)
            × (BeginsDevice set uuid token changes ⊎ (Renews kept.rows token changes ⊎ Adopts kept.rows words.old set token changes words.new)))) }
        ensures words { IsLater words.old words.new }
        ensures sound { IfStands result (λ device. IsSound (device_rows device)) }
        ensures least { IfStands result (λ device. device.least_cost ≡ self.least_cost) }
        ensures fault { IfBroken result (λ disk. Rose (D.fault_count (device_disk self)) (D.fault_count disk)) }
        ensures grows { D.grows (device_disk self) (called_disk device_disk result) }
        ensures later { D.fault_count (device_disk self) ≤ D.fault_count (called_disk device_disk result) }
        ensures aimed { L.aimed link.new ≡ L.aimed link.old }
        ensures link_fault { IfRefused result (λ why. why ≡ ClientError.LinkFault → Rose (L.fault_count link.old) (L.fault_count link.new)) }
        ensures link_later { L.fault_count link.old ≤ L.fault_count link.new }
    {
        let joining = match joins_by(self.alloc, &self.table, &set) {
            Ok(joining) => joining,
            Err(why) => return Called::Refused(self, why),
        };
        let Ok(request) = sign_in_request(self.alloc, &set) else {
            return Called::Refused(self, ClientError::Memory);
        };
        match joining {
            Joining::Begins => self.begin(link, request, set),
            Joining::Renews => self.renew(link, request),
            Joining::Adopts => self.adopt_account(link, words, request, &set),
        }
    }
}
