//! Accounts over a link: asked for, and kept as the first rows of a device.

ghost use Rattle.std.specs.Prelude.{◌≡◌, ◌≤◌, List, ℕ, Ok, Err};
ghost use Rattle.sn_joining.specs.Accounts.{IsForAccount};
ghost use Rattle.sn_device.specs.States.{HasOwner};
ghost use Rattle.sn_device.specs.Steps.{BeginsDevice, Renews};
ghost use Rattle.sn_io.specs.Causes.{Rose};
ghost use Rattle.sn_rows.specs.declared.device_rows.OwnerRow.{OwnerRow};

use crate::called::Called;
use crate::device::Device;
use sn_device::ClientError;
use sn_disk::Disk;
use sn_items::Words;
use sn_joining::{ask_account, first_rows, renewed_row};
use sn_local::owner;
use sn_net::Link;
use sn_rows::OwnerRow;
use sn_string::KeySet;
use sn_sync::Request;

impl<D: Disk> Device<D> {
    ghost use Rattle.std.specs.Prelude.{List};
    ghost use Rattle.rand_chacha.specs.ChaCha.{ChaCha};
    ghost use Rattle.sn_disk.specs.Disk.{LeavesOnly};
    ghost use Rattle.sn_table.specs.Kept.{Kept};
    ghost use Rattle.sn_client.specs.Calls.{IfBroken, IfRefused, IfStands, IsOpen, MayHave, StandsOrHas, called_disk, device_disk, device_rows};
    ghost use Rattle.sn_client.specs.Going.{GoesOver, MayWant};
    ghost use Rattle.sn_device.specs.Runs.{AsksAccount, nothing};
    ghost use Rattle.sn_device.specs.States.{HasNoAccount, IsSound};
    ghost use Rattle.sn_device.specs.Steps.{Adopts, adopts, begins, renews};
    ghost use Rattle.sn_sets.specs.Seals.{IsLater};

    /// Asks for an account, and begins with it and its set.
    pub(crate) fn begin<L: Link>(
        self,
        link: &mut L,
        request: Request,
        set: KeySet,
    ) -> Called<Device<D>, D, ()>
        requires request { IsForAccount request }
        requires sound { IsSound (device_rows self) }
        requires none { HasNoAccount (device_rows self) }
        ensures runs { (kept : Kept) (words : ChaCha) → IsOpen self kept →
            GoesOver IsOpen (MayHave D.told D.may_leave) (λ given. nothing) (MayWant (AsksAccount kept.rows words request (begins set)))
            (L.asks link.old link.new) (L.aimed link.old) kept words result }
        ensures any_moment { D.told → (kept : Kept) → IsOpen self kept →
            LeavesOnly D.moment D.left_since (device_disk self) (called_disk device_disk result)
            (StandsOrHas kept.batches (λ changes. (uuid : List ℕ) × (token : List ℕ) × BeginsDevice set uuid token changes)) }
        ensures sound { IfStands result (λ device. IsSound (device_rows device)) }
        ensures least { IfStands result (λ device. device.least_cost ≡ self.least_cost) }
        ensures fault { IfBroken result (λ disk. Rose (D.fault_count (device_disk self)) (D.fault_count disk)) }
        ensures grows { D.grows (device_disk self) (called_disk device_disk result) }
        ensures later { D.fault_count (device_disk self) ≤ D.fault_count (called_disk device_disk result) }
        ensures aimed { L.aimed link.new ≡ L.aimed link.old }
        ensures link_fault { IfRefused result (λ why. why ≡ ClientError.LinkFault → Rose (L.fault_count link.old) (L.fault_count link.new)) }
        ensures link_later { L.fault_count link.old ≤ L.fault_count link.new }
    {
        match first_rows(self.alloc, link, request, set) {
            Ok(changes) => self.answer(changes, ()),
            Err(why) => Called::Refused(self, why),
        }
    }

    /// Asks for the account anew, and keeps its session token.
    pub(crate) fn renew<L: Link>(self, link: &mut L, request: Request) -> Called<Device<D>, D, ()>
        requires request { IsForAccount request }
        requires sound { IsSound (device_rows self) }
        requires owned { (owner : OwnerRow) × HasOwner (device_rows self) owner }
        ensures runs { (kept : Kept) (words : ChaCha) → IsOpen self kept →
            GoesOver IsOpen (MayHave D.told D.may_leave) (λ given. nothing) (MayWant (AsksAccount kept.rows words request (λ uuid token. renews token)))
            (L.asks link.old link.new) (L.aimed link.old) kept words result }
        ensures any_moment { D.told → (kept : Kept) → IsOpen self kept →
            LeavesOnly D.moment D.left_since (device_disk self) (called_disk device_disk result)
            (StandsOrHas kept.batches (λ changes. (token : List ℕ) × Renews kept.rows token changes)) }
        ensures sound { IfStands result (λ device. IsSound (device_rows device)) }
        ensures least { IfStands result (λ device. device.least_cost ≡ self.least_cost) }
        ensures fault { IfBroken result (λ disk. Rose (D.fault_count (device_disk self)) (D.fault_count disk)) }
        ensures grows { D.grows (device_disk self) (called_disk device_disk result) }
        ensures later { D.fault_count (device_disk self) ≤ D.fault_count (called_disk device_disk result) }
        ensures aimed { L.aimed link.new ≡ L.aimed link.old }
        ensures link_fault { IfRefused result (λ why. why ≡ ClientError.LinkFault → Rose (L.fault_count link.old) (L.fault_count link.new)) }
        ensures link_later { L.fault_count link.old ≤ L.fault_count link.new }
    {
        match renewed_row(self.alloc, &self.table, link, request) {
            Ok(changes) => self.answer(changes, ()),
            Err(why) => Called::Refused(self, why),
        }
    }

    /// Asks for the account with keys of its that aren't held, and adopts their set.
    pub(crate) fn adopt_account<L: Link>(
        self,
        link: &mut L,
        words: &mut Words,
        request: Request,
        set: &KeySet,
    ) -> Called<Device<D>, D, ()>
        requires request { IsForAccount request }
        requires sound { IsSound (device_rows self) }
        requires owned { (owner : OwnerRow) × HasOwner (device_rows self) owner × (set.now.params.identifier ≡ owner.identifier) }
        ensures runs { (kept : Kept) → IsOpen self kept →
            GoesOver IsOpen (MayHave D.told D.may_leave) (λ given. nothing) (MayWant (AsksAccount kept.rows words.old request (λ uuid token. adopts set.now token)))
            (L.asks link.old link.new) (L.aimed link.old) kept words.new result }
        ensures any_moment { D.told → (kept : Kept) → IsOpen self kept →
            LeavesOnly D.moment D.left_since (device_disk self) (called_disk device_disk result)
            (StandsOrHas kept.batches (λ changes. (token : List ℕ) × Adopts kept.rows words.old set.now token changes words.new)) }
        ensures words { IsLater words.old words.new }
        ensures sound { IfStands result (λ device. IsSound (device_rows device)) }
        ensures least { IfStands result (λ device. device.least_cost ≡ self.least_cost) }
        ensures fault { IfBroken result (λ disk. Rose (D.fault_count (device_disk self)) (D.fault_count disk)) }
        ensures grows { D.grows (device_disk self) (called_disk device_disk result) }
        ensures later { D.fault_count (device_disk self) ≤ D.fault_count (called_disk device_disk result) }
        ensures aimed { L.aimed link.new ≡ L.aimed link.old }
        ensures link_fault { IfRefused result (λ why. why ≡ ClientError.LinkFault → Rose (L.fault_count link.old) (L.fault_count link.new)) }
        ensures link_later { L.fault_count link.old ≤ L.fault_count link.new }
    {
        let account = match ask_account(self.alloc, link, request) {
            Ok(account) => account,
            Err(why) => return Called::Refused(self, why),
        };
        let Ok(changes) = self.adoption(words, set, account.token) else {
            return Called::Refused(self, ClientError::Memory);
        };
        self.answer(changes, ())
    }
}
