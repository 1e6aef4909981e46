//! What became of a change of password that was asked for and isn't answered.

ghost use Rattle.std.specs.Prelude.{◌≡◌, IfOk};
ghost use Rattle.sn_device.specs.Runs.{change_to};
ghost use Rattle.sn_sync.specs.declared.request.Request.TheVariants as request;

use crate::called::Called;
use crate::device::Device;
use crate::error::of_commit;
use crate::piece_end::PieceEnd;
use sn_adopting::{adopting, forgetting};
use sn_device::ClientError;
use sn_disk::Disk;
use sn_exchange::hear_behind;
use sn_items::Words;
use sn_joining::{bad_auth, sign_in_request};
use sn_local::{owner, sets_of};
use sn_net::Link;
use sn_rows::{Change, OwnerRow};
use sn_string::{KeySet, Params, Text, TryClone};
use sn_sync::{Answer, Request};
use sn_table::Committed;
use std::alloc::{AllocError, Global};

impl<D: Disk> Device<D> {
    ghost use Rattle.std.specs.Prelude.{◌≢◌, ◌≤◌, ℕ, List, [], All, Some};
    ghost use Rattle.rand_chacha.specs.ChaCha.{ChaCha};
    ghost use Rattle.sn_rows.specs.declared.device_rows.SetRow.{SetRow};
    ghost use Rattle.sn_rows.specs.declared.key.Slot.TheVariants.{Asked};
    ghost use Rattle.sn_io.specs.Causes.{Rose};
    ghost use Rattle.sn_journal.specs.declared.owner.Owner.TheVariants.{Device as DeviceOwner};
    ghost use Rattle.sn_rows.specs.declared.device_rows.OwnerRow.{OwnerRow};
    ghost use Rattle.sn_sets.specs.Seals.{IsLater};
    ghost use Rattle.sn_sync.specs.Fits.{FitsAnswer};
    ghost use Rattle.sn_sync.specs.Members.{IsSessionToken};
    ghost use Rattle.sn_sync.specs.declared.request.Route.TheVariants as route;
    ghost use Rattle.sn_table.specs.Batches.{IsOf};
    ghost use Rattle.sn_table.specs.Kept.{Kept};
    ghost use Rattle.sn_exchange.specs.Asked.{IsGranted};
    ghost use Rattle.sn_client.specs.Calls.{IfRefused, IsOpen, device_rows};
    ghost use Rattle.sn_device.specs.Changing.{HoldsAsked};
    ghost use Rattle.sn_device.specs.Runs.{AdoptsOrDrops, AdoptsOrKeeps, AsksHost, CommitsStep, Drops, DropsOrKeeps, Finds, FindsParams, Resolves, most_exchanges};
    ghost use Rattle.sn_device.specs.States.{HasOwner, HasSet, IsInSlot, IsSound, HasNoneAsked};
    ghost use Rattle.sn_device.specs.Steps.{Adopts, adopts};
    ghost use Rattle.sn_client.specs.Syncing.{IfOn, MadeAtMost, IsOpenSince, KeepsDevice, MayHaveSince, WentBy, called_past, none_asked};
    ghost use Rattle.sn_device.specs.declared.error.ClientError.TheVariants as refusal;

    /// Finds out what became of the change from the present set to one that is asked for: the set is adopted where the
    /// change was made, or is made now. Behind so many exchanges of the call.
    pub(crate) fn resolve<L: Link>(
        self,
        link: &mut L,
        words: &mut Words,
        present: &KeySet,
        set: &KeySet,
        made: u64,
    ) -> PieceEnd<Device<D>, D, ()>
        requires sound { IsSound (device_rows self) }
        requires few { made ≤ most_exchanges }
        requires holds { (owner : OwnerRow) × HoldsAsked (device_rows self) owner present.now set.now }
        ensures went { (kept : Kept) (owner : OwnerRow) → IsOpen self kept → HasOwner kept.rows owner →
            WentBy (IsOpenSince self kept) (MayHaveSince self kept) (Resolves owner present.now set.now) (record { made = made; rows = kept.rows; words = words.old }) kept (L.aimed link.old) (L.asks link.old link.new) words.new result }
        ensures device { KeepsDevice self (called_past result) }
        ensures owned { IfOn result (λ device. (owner : OwnerRow) × HasOwner (device_rows device) owner) }
        ensures none_asked { IfOn result (λ device. HasNoneAsked (device_rows device)) }
        ensures few { MadeAtMost result }
        ensures words { IsLater words.old words.new }
        ensures aimed { L.aimed link.new ≡ L.aimed link.old }
        ensures link_fault { IfRefused (called_past result) (λ why. why ≡ refusal.LinkFault → Rose (L.fault_count link.old) (L.fault_count link.new)) }
        ensures link_later { L.fault_count link.old ≤ L.fault_count link.new }
    {
        let Ok(request) = self.params_request() else {
            return PieceEnd::Over(Called::Refused(self, ClientError::Memory));
        };
        match hear_behind(self.alloc, link, made, &request) {
            Ok(answer) => self.find(link, words, present, set, made + 1, answer),
            Err(why) => PieceEnd::Over(Called::Refused(self, why)),
        }
    }

    // What the answer to the request for parameters tells.
    fn find<L: Link>(
        self,
        link: &mut L,
        words: &mut Words,
        present: &KeySet,
        set: &KeySet,
        made: u64,
        answer: Answer,
    ) -> PieceEnd<Device<D>, D, ()>
        requires sound { IsSound (device_rows self) }
        requires few { made ≤ most_exchanges }
        requires holds { (owner : OwnerRow) × HoldsAsked (device_rows self) owner present.now set.now }
        requires fits { IsGranted answer → FitsAnswer route.Params 200 answer }
        ensures went { (kept : Kept) (owner : OwnerRow) → IsOpen self kept → HasOwner kept.rows owner →
            WentBy (IsOpenSince self kept) (MayHaveSince self kept) (Finds owner present.now set.now answer) (record { made = made; rows = kept.rows; words = words.old }) kept (L.aimed link.old) (L.asks link.old link.new) words.new result }
        ensures device { KeepsDevice self (called_past result) }
        ensures owned { IfOn result (λ device. (owner : OwnerRow) × HasOwner (device_rows device) owner) }
        ensures none_asked { IfOn result (λ device. HasNoneAsked (device_rows device)) }
        ensures few { MadeAtMost result }
        ensures words { IsLater words.old words.new }
        ensures aimed { L.aimed link.new ≡ L.aimed link.old }
        ensures link_fault { IfRefused (called_past result) (λ why. why ≡ refusal.LinkFault → Rose (L.fault_count link.old) (L.fault_count link.new)) }
        ensures link_later { L.fault_count link.old ≤ L.fault_count link.new }
    {
        match answer {
            Answer::Params(params) => self.find_params(link, words, present, set, made, &params),
            Answer::Refused { status, tag, .. } => self.drop_or_keep(status, tag),
            _ => unreachable!(),
        }
    }

    // What the account's parameters tell.
    fn find_params<L: Link>(
        self,
        link: &mut L,
        words: &mut Words,
        present: &KeySet,
        set: &KeySet,
        made: u64,
        params: &Params,
    ) -> PieceEnd<Device<D>, D, ()>
        requires sound { IsSound (device_rows self) }
        requires few { made ≤ most_exchanges }
        requires holds { (owner : OwnerRow) × HoldsAsked (device_rows self) owner present.now set.now }
        ensures went { (kept : Kept) (owner : OwnerRow) → IsOpen self kept → HasOwner kept.rows owner →
            WentBy (IsOpenSince self kept) (MayHaveSince self kept) (FindsParams owner present.now set.now params.now) (record { made = made; rows = kept.rows; words = words.old }) kept (L.aimed link.old) (L.asks link.old link.new) words.new result }
        ensures device { KeepsDevice self (called_past result) }
        ensures owned { IfOn result (λ device. (owner : OwnerRow) × HasOwner (device_rows device) owner) }
        ensures none_asked { IfOn result (λ device. HasNoneAsked (device_rows device)) }
        ensures few { MadeAtMost result }
        ensures words { IsLater words.old words.new }
        ensures aimed { L.aimed link.new ≡ L.aimed link.old }
        ensures link_fault { IfRefused (called_past result) (λ why. why ≡ refusal.LinkFault → Rose (L.fault_count link.old) (L.fault_count link.new)) }
        ensures link_later { L.fault_count link.old ≤ L.fault_count link.new }
    {
        if params.same(&present.params) {
            return self.change_again(link, words, present, set, made);
        }
        if params.same(&set.params) {
            return self.join(link, words, set, made);
        }
        self.drop_asked(bad_auth())
    }

    // Sends the change again.
    fn change_again<L: Link>(
        self,
        link: &mut L,
        words: &mut Words,
        present: &KeySet,
        set: &KeySet,
        made: u64,
    ) -> PieceEnd<Device<D>, D, ()>
        requires sound { IsSound (device_rows self) }
        requires few { made ≤ most_exchanges }
        requires holds { (owner : OwnerRow) × HoldsAsked (device_rows self) owner present.now set.now }
        ensures went { (kept : Kept) (owner : OwnerRow) → IsOpen self kept → HasOwner kept.rows owner →
            WentBy (IsOpenSince self kept) (MayHaveSince self kept) (AsksHost (change_to owner present.now set.now) (AdoptsOrDrops set.now)) (record { made = made; rows = kept.rows; words = words.old }) kept (L.aimed link.old) (L.asks link.old link.new) words.new result }
        ensures device { KeepsDevice self (called_past result) }
        ensures owned { IfOn result (λ device. (owner : OwnerRow) × HasOwner (device_rows device) owner) }
        ensures none_asked { IfOn result (λ device. HasNoneAsked (device_rows device)) }
        ensures few { MadeAtMost result }
        ensures words { IsLater words.old words.new }
        ensures aimed { L.aimed link.new ≡ L.aimed link.old }
        ensures link_fault { IfRefused (called_past result) (λ why. why ≡ refusal.LinkFault → Rose (L.fault_count link.old) (L.fault_count link.new)) }
        ensures link_later { L.fault_count link.old ≤ L.fault_count link.new }
    {
        let Ok(request) = self.change_request(present, set) else {
            return PieceEnd::Over(Called::Refused(self, ClientError::Memory));
        };
        match hear_behind(self.alloc, link, made, &request) {
            Ok(Answer::Account { token, .. }) => self.adopt(words, set, token, made + 1),
            Ok(Answer::Refused { status, tag, .. }) => {
                self.drop_asked(ClientError::Refused { status, tag })
            }
            Ok(_) => unreachable!(),
            Err(why) => PieceEnd::Over(Called::Refused(self, why)),
        }
    }

    // Signs in with the set that is asked for.
    fn join<L: Link>(
        self,
        link: &mut L,
        words: &mut Words,
        set: &KeySet,
        made: u64,
    ) -> PieceEnd<Device<D>, D, ()>
        requires sound { IsSound (device_rows self) }
        requires few { made ≤ most_exchanges }
        requires asked { (owner : OwnerRow) × HasOwner (device_rows self) owner × IsInSlot (device_rows self) owner.identifier Asked (Some set.now) }
        ensures went { (kept : Kept) (owner : OwnerRow) → IsOpen self kept → HasOwner kept.rows owner →
            WentBy (IsOpenSince self kept) (MayHaveSince self kept) (AsksHost (request.SignIn owner.identifier set.now.pw) (AdoptsOrKeeps set.now)) (record { made = made; rows = kept.rows; words = words.old }) kept (L.aimed link.old) (L.asks link.old link.new) words.new result }
        ensures device { KeepsDevice self (called_past result) }
        ensures owned { IfOn result (λ device. (owner : OwnerRow) × HasOwner (device_rows device) owner) }
        ensures none_asked { IfOn result (λ device. HasNoneAsked (device_rows device)) }
        ensures few { MadeAtMost result }
        ensures words { IsLater words.old words.new }
        ensures aimed { L.aimed link.new ≡ L.aimed link.old }
        ensures link_fault { IfRefused (called_past result) (λ why. why ≡ refusal.LinkFault → Rose (L.fault_count link.old) (L.fault_count link.new)) }
        ensures link_later { L.fault_count link.old ≤ L.fault_count link.new }
    {
        let Ok(request) = sign_in_request(self.alloc, set) else {
            return PieceEnd::Over(Called::Refused(self, ClientError::Memory));
        };
        match hear_behind(self.alloc, link, made, &request) {
            Ok(Answer::Account { token, .. }) => self.adopt(words, set, token, made + 1),
            Ok(Answer::Refused { status, tag, .. }) => self.drop_or_keep(status, tag),
            Ok(_) => unreachable!(),
            Err(why) => PieceEnd::Over(Called::Refused(self, why)),
        }
    }

    // Drops the set that is asked for where the status is 401, and refuses the call.
    fn drop_or_keep(self, status: u16, tag: Text) -> PieceEnd<Device<D>, D, ()>
        requires sound { IsSound (device_rows self) }
        requires asked { (asked : SetRow) × HasSet (device_rows self) Asked asked }
        ensures went { (kept : Kept) (host : List ℕ) (words : ChaCha) (made : ℕ) → IsOpen self kept →
            WentBy (IsOpenSince self kept) (MayHaveSince self kept) (DropsOrKeeps status tag) (record { made = made; rows = kept.rows; words = words }) kept host none_asked words result }
        ensures device { KeepsDevice self (called_past result) }
        ensures over { IfOn result (λ device. ⊥) }
        ensures no_link { IfRefused (called_past result) (λ why. why ≢ refusal.LinkFault) }
    {
        let why = ClientError::Refused { status, tag };
        if status == 401 {
            return self.drop_asked(why);
        }
        PieceEnd::Over(Called::Refused(self, why))
    }

    /// Drops the set that is asked for, in one commit, and refuses the call.
    pub(crate) fn drop_asked(self, why: ClientError) -> PieceEnd<Device<D>, D, ()>
        requires sound { IsSound (device_rows self) }
        requires asked { (asked : SetRow) × HasSet (device_rows self) Asked asked }
        requires no_link { why ≢ refusal.LinkFault }
        ensures went { (kept : Kept) (host : List ℕ) (words : ChaCha) (made : ℕ) → IsOpen self kept →
            WentBy (IsOpenSince self kept) (MayHaveSince self kept) (Drops why) (record { made = made; rows = kept.rows; words = words }) kept host none_asked words result }
        ensures device { KeepsDevice self (called_past result) }
        ensures over { IfOn result (λ device. ⊥) }
        ensures no_link { IfRefused (called_past result) (λ why. why ≢ refusal.LinkFault) }
    {
        let Ok(changes) = forgetting(self.alloc) else {
            return PieceEnd::Over(Called::Refused(self, ClientError::Memory));
        };
        match self.commit(changes) {
            Committed::Done(device) => PieceEnd::Over(Called::Refused(device, why)),
            Committed::Refused(device, error) => {
                PieceEnd::Over(Called::Refused(device, of_commit(error)))
            }
            Committed::Broken(disk) => PieceEnd::Over(Called::Broken(disk)),
        }
    }

    /// Adopts a set with its session token, in one commit. So many exchanges were made in the call.
    pub(crate) fn adopt(
        self,
        words: &mut Words,
        set: &KeySet,
        token: Text,
        made: u64,
    ) -> PieceEnd<Device<D>, D, ()>
        requires sound { IsSound (device_rows self) }
        requires owned { (owner : OwnerRow) × HasOwner (device_rows self) owner × (set.now.params.identifier ≡ owner.identifier) }
        requires token { IsSessionToken token }
        ensures went { (kept : Kept) (host : List ℕ) → IsOpen self kept →
            WentBy (IsOpenSince self kept) (MayHaveSince self kept) (CommitsStep (adopts set.now token)) (record { made = made; rows = kept.rows; words = words.old }) kept host none_asked words.new result }
        ensures device { KeepsDevice self (called_past result) }
        ensures owned { IfOn result (λ device. (owner : OwnerRow) × HasOwner (device_rows device) owner) }
        ensures none_asked { IfOn result (λ device. HasNoneAsked (device_rows device)) }
        ensures few { made ≤ most_exchanges → MadeAtMost result }
        ensures words { IsLater words.old words.new }
        ensures no_link { IfRefused (called_past result) (λ why. why ≢ refusal.LinkFault) }
    {
        let Ok(changes) = self.adoption(words, set, token) else {
            return PieceEnd::Over(Called::Refused(self, ClientError::Memory));
        };
        match self.commit(changes) {
            Committed::Done(device) => PieceEnd::On(device, made),
            Committed::Refused(device, error) => {
                PieceEnd::Over(Called::Refused(device, of_commit(error)))
            }
            Committed::Broken(disk) => PieceEnd::Over(Called::Broken(disk)),
        }
    }

    /// The changes that adopt a set.
    pub(crate) fn adoption(
        &self,
        words: &mut Words,
        set: &KeySet,
        token: Text,
    ) -> Result<Vec<Change>, AllocError>
        requires sound { IsSound (device_rows self.now) }
        requires owned { (owner : OwnerRow) × HasOwner (device_rows self.now) owner × (set.now.params.identifier ≡ owner.identifier) }
        requires token { IsSessionToken token }
        ensures adopts { IfOk result (λ changes. Adopts (device_rows self.now) words.old set.now token changes.items words.new) }
        ensures owned { IfOk result (λ changes. All (IsOf DeviceOwner) changes.items) }
        ensures words { IsLater words.old words.new }
    {
        let Some(account) = owner(&self.table) else {
            unreachable!();
        };
        let Some(sets) = sets_of(self.alloc, &self.table)? else {
            unreachable!();
        };
        adopting(
            self.alloc,
            self.table.rows(),
            account,
            &sets,
            words,
            set,
            token,
        )
    }

    // The request for the account's parameters.
    fn params_request(&self) -> Result<Request, AllocError>
        requires owned { (owner : OwnerRow) × HasOwner (device_rows self.now) owner }
        ensures { IfOk result (λ r. (owner : OwnerRow) → HasOwner (device_rows self.now) owner → r ≡ request.Params owner.identifier) }
    {
        let Some(account) = owner(&self.table) else {
            unreachable!();
        };
        let identifier = account.identifier.try_clone(self.alloc)?;
        Ok(Request::Params { identifier })
    }

    /// The request that changes the account's password from the present set to this one.
    pub(crate) fn change_request(
        &self,
        present: &KeySet,
        set: &KeySet,
    ) -> Result<Request, AllocError>
        requires owned { (owner : OwnerRow) × HasOwner (device_rows self.now) owner }
        ensures { IfOk result (λ r. (owner : OwnerRow) → HasOwner (device_rows self.now) owner → r ≡ change_to owner present.now set.now) }
    {
        let Some(account) = owner(&self.table) else {
            unreachable!();
        };
        change_of(self.alloc, account, present, set)
    }
}

// The request that changes an account's password from the one set to the other.
fn change_of(
    alloc: Global,
    owner: &OwnerRow,
    present: &KeySet,
    set: &KeySet,
) -> Result<Request, AllocError>
    ensures { IfOk result (λ r. r ≡ change_to owner.now present.now set.now) }
{
    let token = owner.token.try_clone(alloc)?;
    let nonce = set.params.pw_nonce.try_clone(alloc)?;
    Ok(Request::ChangePw {
        token,
        current: present.pw,
        pw: set.pw,
        cost: set.params.pw_cost,
        nonce,
    })
}
