//! Changing the password of a device's account.

ghost use Rattle.std.specs.Prelude.{◌≡◌, ◌≢◌, ◌≤◌, [], IfErr, IfOk};
ghost use Rattle.sn_client.specs.Going.{IsToAsk};
ghost use Rattle.sn_device.specs.Runs.{AsksFor, is_over, most_exchanges, refused};
ghost use Rattle.sn_device.specs.States.{HasNoneAsked, HasOwner, IsSound};
ghost use Rattle.sn_device.specs.declared.error.ClientError.TheVariants as refusal;
ghost use Rattle.sn_row_map.specs.RowMaps.{row_in};
ghost use Rattle.sn_rows.specs.declared.device_rows.OwnerRow.{OwnerRow};
ghost use Rattle.sn_sets.specs.Seals.{IsLater};
ghost use Rattle.sn_table.specs.Tables.{table_rows};

use crate::called::Called;
use crate::device::Device;
use crate::error::of_commit;
use crate::piece_end::PieceEnd;
use sn_adopting::{asking, may_begin};
use sn_device::ClientError;
use sn_disk::Disk;
use sn_drafts::held_sets;
use sn_exchange::{MOST_EXCHANGES, hear_behind};
use sn_items::Words;
use sn_joining::{is_bad_cost, new_set};
use sn_net::Link;
use sn_sets::Sets;
use sn_string::{KeySet, Text};
use sn_sync::Answer;
use sn_table::{Committed, Table};
use std::alloc::Global;

impl<D: Disk> Device<D> {
    ghost use Rattle.std.specs.Prelude.{◌<◌};
    ghost use Rattle.sn_disk.specs.Disk.{LeavesOnly};
    ghost use Rattle.sn_io.specs.Causes.{Rose};
    ghost use Rattle.sn_sets.specs.declared.sets.Sets.{Sets};
    ghost use Rattle.sn_sync.specs.Fits.{FitsAnswer};
    ghost use Rattle.sn_sync.specs.declared.answer.Answer.TheVariants.{Refused as RefusedAnswer};
    ghost use Rattle.sn_sync.specs.declared.answer.More.{More};
    ghost use Rattle.sn_sync.specs.declared.request.Route.TheVariants as route;
    ghost use Rattle.sn_table.specs.Kept.{Kept};
    ghost use Rattle.sn_client.specs.Calls.{CallsOver, HasFront, IfBroken, IfRefused, IfStands, IsOpen, MayHave, called_disk, device_disk, device_rows, tried};
    ghost use Rattle.sn_exchange.specs.Asked.{IsGranted};
    ghost use Rattle.sn_device.specs.Changing.{HoldsAsked, MayAsk};
    ghost use Rattle.sn_device.specs.Runs.{AnswersChange, AsksHost, ChangesTo, CommitsStep, Exchanges, IsBadCost, Then, begun, change_to, passwd};
    ghost use Rattle.sn_device.specs.States.{HasSets};
    ghost use Rattle.sn_device.specs.Steps.{asks};
    ghost use Rattle.sn_client.specs.Syncing.{IfOn, MadeAtMost, IsOpenSince, KeepsDevice, MayHaveSince, WentBy, called_past, gives_nothing};

    /// Changes the account's password: brings the device and its server together, keeps a new set as asked for, asks for
    /// it, adopts it, and brings them together again. The link's host is asked. A set that is asked for already, since
    /// the answer to a change got lost, is resolved first. The time goes with the cost.
    pub fn passwd<L: Link>(
        self,
        link: &mut L,
        words: &mut Words,
        password: &str,
        cost: u32,
    ) -> Called<Device<D>, D, ()>
        requires sound { IsSound (device_rows self) }
        ensures runs { (kept : Kept) → IsOpen self kept → CallsOver IsOpen (MayHave D.told D.may_leave) gives_nothing self.least_cost (passwd password.now cost) (L.asks link.old link.new) (L.aimed link.old) kept words.old words.new result }

        // A crash at any moment leaves what a front of the call's commits leaves, or all of the one in which the disk failed.
        ensures any_moment { D.told → (kept : Kept) → IsOpen self kept →
            (calls : CallsOver IsOpen (MayHave D.told D.may_leave) gives_nothing self.least_cost (passwd password.now cost) (L.asks link.old link.new) (L.aimed link.old) kept words.old words.new result)
            × LeavesOnly D.moment D.left_since (device_disk self) (called_disk device_disk result) (HasFront kept (tried calls.acts calls.halt)) }
        ensures sound { IfStands result (λ device. IsSound (device_rows device)) }
        ensures words { IsLater words.old words.new }
        ensures least { IfStands result (λ device. device.least_cost ≡ self.least_cost) }
        ensures fault { IfBroken result (λ disk. Rose (D.fault_count (device_disk self)) (D.fault_count disk)) }
        ensures grows { D.grows (device_disk self) (called_disk device_disk result) }
        ensures later { D.fault_count (device_disk self) ≤ D.fault_count (called_disk device_disk result) }
        ensures aimed { L.aimed link.new ≡ L.aimed link.old }
        ensures link_fault { IfRefused result (λ why. why ≡ refusal.LinkFault → Rose (L.fault_count link.old) (L.fault_count link.new)) }
        ensures link_later { L.fault_count link.old ≤ L.fault_count link.new }
    {
        let sets = match held_sets(self.alloc, &self.table) {
            Ok(sets) => sets,
            Err(why) => return Called::Refused(self, why),
        };
        if is_bad_cost(self.least_cost, cost) {
            return Called::Refused(self, ClientError::Cost { cost });
        }
        match self.change_to(link, words, &sets, password, cost) {
            PieceEnd::On(device, _) => Called::Done(device, ()),
            PieceEnd::Over(called) => called,
        }
    }

    // The same with a cost that is taken.
    fn change_to<L: Link>(
        self,
        link: &mut L,
        words: &mut Words,
        sets: &Sets,
        password: &str,
        cost: u32,
    ) -> PieceEnd<Device<D>, D, ()>
        requires sound { IsSound (device_rows self) }
        requires holds { (owner : OwnerRow) × HasSets (device_rows self) owner sets.now }
        requires cost { ¬ (IsBadCost self.least_cost cost) }
        ensures went { (kept : Kept) (owner : OwnerRow) → IsOpen self kept → HasSets kept.rows owner sets.now →
            WentBy (IsOpenSince self kept) (MayHaveSince self kept) (ChangesTo password.now cost owner sets.now) (begun kept.rows words.old) kept (L.aimed link.old) (L.asks link.old link.new) words.new result }
        ensures device { KeepsDevice self (called_past result) }
        ensures owned { IfOn result (λ device. (owner : OwnerRow) × HasOwner (device_rows device) owner) }
        ensures none_asked { IfOn result (λ device. HasNoneAsked (device_rows device)) }
        ensures few { MadeAtMost result }
        ensures words { IsLater words.old words.new }
        ensures aimed { L.aimed link.new ≡ L.aimed link.old }
        ensures link_fault { IfRefused (called_past result) (λ why. why ≡ refusal.LinkFault → Rose (L.fault_count link.old) (L.fault_count link.new)) }
        ensures link_later { L.fault_count link.old ≤ L.fault_count link.new }
    {
        match self.bring_together(link, words, sets) {
            PieceEnd::On(device, made) => device.change(link, words, password, cost, made),
            PieceEnd::Over(called) => PieceEnd::Over(called),
        }
    }

    // Behind the first sync.
    fn change<L: Link>(
        self,
        link: &mut L,
        words: &mut Words,
        password: &str,
        cost: u32,
        made: u64,
    ) -> PieceEnd<Device<D>, D, ()>
        requires sound { IsSound (device_rows self) }
        requires few { made ≤ most_exchanges }
        requires owned { (owner : OwnerRow) × HasOwner (device_rows self) owner }
        requires none_asked { HasNoneAsked (device_rows self) }
        requires cost { 1 ≤ cost }
        ensures went { (kept : Kept) → IsOpen self kept →
            WentBy (IsOpenSince self kept) (MayHaveSince self kept) (Then (AsksFor password.now cost) Exchanges) (record { made = made; rows = kept.rows; words = words.old }) kept (L.aimed link.old) (L.asks link.old link.new) words.new result }
        ensures device { KeepsDevice self (called_past result) }
        ensures owned { IfOn result (λ device. (owner : OwnerRow) × HasOwner (device_rows device) owner) }
        ensures none_asked { IfOn result (λ device. HasNoneAsked (device_rows device)) }
        ensures few { MadeAtMost result }
        ensures words { IsLater words.old words.new }
        ensures aimed { L.aimed link.new ≡ L.aimed link.old }
        ensures link_fault { IfRefused (called_past result) (λ why. why ≡ refusal.LinkFault → Rose (L.fault_count link.old) (L.fault_count link.new)) }
        ensures link_later { L.fault_count link.old ≤ L.fault_count link.new }
    {
        match self.ask_for(link, words, password, cost, made) {
            PieceEnd::On(device, made) => device.exchanges(link, words, made),
            PieceEnd::Over(called) => PieceEnd::Over(called),
        }
    }

    // Asks for a new set, and adopts it where the change is made.
    fn ask_for<L: Link>(
        self,
        link: &mut L,
        words: &mut Words,
        password: &str,
        cost: u32,
        made: u64,
    ) -> PieceEnd<Device<D>, D, ()>
        requires sound { IsSound (device_rows self) }
        requires few { made ≤ most_exchanges }
        requires owned { (owner : OwnerRow) × HasOwner (device_rows self) owner }
        requires none_asked { HasNoneAsked (device_rows self) }
        requires cost { 1 ≤ cost }
        ensures went { (kept : Kept) → IsOpen self kept →
            WentBy (IsOpenSince self kept) (MayHaveSince self kept) (AsksFor password.now cost) (record { made = made; rows = kept.rows; words = words.old }) kept (L.aimed link.old) (L.asks link.old link.new) words.new result }
        ensures device { KeepsDevice self (called_past result) }
        ensures owned { IfOn result (λ device. (owner : OwnerRow) × HasOwner (device_rows device) owner) }
        ensures none_asked { IfOn result (λ device. HasNoneAsked (device_rows device)) }
        ensures few { MadeAtMost result }
        ensures words { IsLater words.old words.new }
        ensures aimed { L.aimed link.new ≡ L.aimed link.old }
        ensures link_fault { IfRefused (called_past result) (λ why. why ≡ refusal.LinkFault → Rose (L.fault_count link.old) (L.fault_count link.new)) }
        ensures link_later { L.fault_count link.old ≤ L.fault_count link.new }
    {
        match set_to_ask(self.alloc, &self.table, words, password, cost, made) {
            Ok(found) => {
                let (sets, set) = found;
                self.ask_for_set(link, words, &sets.present, &set, made)
            }
            Err(why) => PieceEnd::Over(Called::Refused(self, why)),
        }
    }

    // Keeps a set as asked for, and asks for it.
    fn ask_for_set<L: Link>(
        self,
        link: &mut L,
        words: &mut Words,
        present: &KeySet,
        set: &KeySet,
        made: u64,
    ) -> PieceEnd<Device<D>, D, ()>
        requires sound { IsSound (device_rows self) }
        requires few { made < most_exchanges }
        requires may { (owner : OwnerRow) × (sets : Sets) × HasSets (device_rows self) owner sets × MayAsk (device_rows self) sets × (sets.present ≡ present.now) × (set.now.params.identifier ≡ owner.identifier) }
        ensures went { (kept : Kept) (owner : OwnerRow) → IsOpen self kept → HasOwner kept.rows owner →
            WentBy (IsOpenSince self kept) (MayHaveSince self kept) (Then (CommitsStep (asks set.now)) (AsksHost (change_to owner present.now set.now) (AnswersChange owner present.now set.now))) (record { made = made; rows = kept.rows; words = words.old }) kept (L.aimed link.old) (L.asks link.old link.new) words.new result }
        ensures device { KeepsDevice self (called_past result) }
        ensures owned { IfOn result (λ device. (owner : OwnerRow) × HasOwner (device_rows device) owner) }
        ensures none_asked { IfOn result (λ device. HasNoneAsked (device_rows device)) }
        ensures few { MadeAtMost result }
        ensures words { IsLater words.old words.new }
        ensures aimed { L.aimed link.new ≡ L.aimed link.old }
        ensures link_fault { IfRefused (called_past result) (λ why. why ≡ refusal.LinkFault → Rose (L.fault_count link.old) (L.fault_count link.new)) }
        ensures link_later { L.fault_count link.old ≤ L.fault_count link.new }
    {
        let Ok(changes) = asking(self.alloc, set) else {
            return PieceEnd::Over(Called::Refused(self, ClientError::Memory));
        };
        match self.commit(changes) {
            Committed::Done(device) => device.send_change(link, words, present, set, made),
            Committed::Refused(device, error) => {
                PieceEnd::Over(Called::Refused(device, of_commit(error)))
            }
            Committed::Broken(disk) => PieceEnd::Over(Called::Broken(disk)),
        }
    }

    // Asks for the set that is kept as asked for.
    fn send_change<L: Link>(
        self,
        link: &mut L,
        words: &mut Words,
        present: &KeySet,
        set: &KeySet,
        made: u64,
    ) -> PieceEnd<Device<D>, D, ()>
        requires sound { IsSound (device_rows self) }
        requires few { made ≤ most_exchanges }
        requires holds { (owner : OwnerRow) × HoldsAsked (device_rows self) owner present.now set.now }
        ensures went { (kept : Kept) (owner : OwnerRow) → IsOpen self kept → HasOwner kept.rows owner →
            WentBy (IsOpenSince self kept) (MayHaveSince self kept) (AsksHost (change_to owner present.now set.now) (AnswersChange owner present.now set.now)) (record { made = made; rows = kept.rows; words = words.old }) kept (L.aimed link.old) (L.asks link.old link.new) words.new result }
        ensures device { KeepsDevice self (called_past result) }
        ensures owned { IfOn result (λ device. (owner : OwnerRow) × HasOwner (device_rows device) owner) }
        ensures none_asked { IfOn result (λ device. HasNoneAsked (device_rows device)) }
        ensures few { MadeAtMost result }
        ensures words { IsLater words.old words.new }
        ensures aimed { L.aimed link.new ≡ L.aimed link.old }
        ensures link_fault { IfRefused (called_past result) (λ why. why ≡ refusal.LinkFault → Rose (L.fault_count link.old) (L.fault_count link.new)) }
        ensures link_later { L.fault_count link.old ≤ L.fault_count link.new }
    {
        let Ok(request) = self.change_request(present, set) else {
            return PieceEnd::Over(Called::Refused(self, ClientError::Memory));
        };
        match hear_behind(self.alloc, link, made, &request) {
            Ok(answer) => self.take_change(link, words, present, set, made + 1, answer),
            Err(why) => PieceEnd::Over(Called::Refused(self, why)),
        }
    }

    // What the answer to the change makes of it.
    fn take_change<L: Link>(
        self,
        link: &mut L,
        words: &mut Words,
        present: &KeySet,
        set: &KeySet,
        made: u64,
        answer: Answer,
    ) -> PieceEnd<Device<D>, D, ()>
        requires sound { IsSound (device_rows self) }
        requires few { made ≤ most_exchanges }
        requires holds { (owner : OwnerRow) × HoldsAsked (device_rows self) owner present.now set.now }
        requires fits { IsGranted answer → FitsAnswer route.ChangePw 200 answer }
        ensures went { (kept : Kept) (owner : OwnerRow) → IsOpen self kept → HasOwner kept.rows owner →
            WentBy (IsOpenSince self kept) (MayHaveSince self kept) (AnswersChange owner present.now set.now answer) (record { made = made; rows = kept.rows; words = words.old }) kept (L.aimed link.old) (L.asks link.old link.new) words.new result }
        ensures device { KeepsDevice self (called_past result) }
        ensures owned { IfOn result (λ device. (owner : OwnerRow) × HasOwner (device_rows device) owner) }
        ensures none_asked { IfOn result (λ device. HasNoneAsked (device_rows device)) }
        ensures few { MadeAtMost result }
        ensures words { IsLater words.old words.new }
        ensures aimed { L.aimed link.new ≡ L.aimed link.old }
        ensures link_fault { IfRefused (called_past result) (λ why. why ≡ refusal.LinkFault → Rose (L.fault_count link.old) (L.fault_count link.new)) }
        ensures link_later { L.fault_count link.old ≤ L.fault_count link.new }
    {
        match answer {
            Answer::Account { token, .. } => self.adopt(words, set, token, made),
            Answer::Refused { status, tag, .. } => {
                self.after_refusal(link, words, present, set, made, status, tag)
            }
            _ => unreachable!(),
        }
    }

    // What becomes of a change that is refused.
    fn after_refusal<L: Link>(
        self,
        link: &mut L,
        words: &mut Words,
        present: &KeySet,
        set: &KeySet,
        made: u64,
        status: u16,
        tag: Text,
    ) -> PieceEnd<Device<D>, D, ()>
        requires sound { IsSound (device_rows self) }
        requires few { made ≤ most_exchanges }
        requires holds { (owner : OwnerRow) × HoldsAsked (device_rows self) owner present.now set.now }
        ensures went { (kept : Kept) (owner : OwnerRow) (more : More) → IsOpen self kept → HasOwner kept.rows owner →
            WentBy (IsOpenSince self kept) (MayHaveSince self kept) (AnswersChange owner present.now set.now (RefusedAnswer status tag more)) (record { made = made; rows = kept.rows; words = words.old }) kept (L.aimed link.old) (L.asks link.old link.new) words.new result }
        ensures device { KeepsDevice self (called_past result) }
        ensures owned { IfOn result (λ device. (owner : OwnerRow) × HasOwner (device_rows device) owner) }
        ensures none_asked { IfOn result (λ device. HasNoneAsked (device_rows device)) }
        ensures few { MadeAtMost result }
        ensures words { IsLater words.old words.new }
        ensures aimed { L.aimed link.new ≡ L.aimed link.old }
        ensures link_fault { IfRefused (called_past result) (λ why. why ≡ refusal.LinkFault → Rose (L.fault_count link.old) (L.fault_count link.new)) }
        ensures link_later { L.fault_count link.old ≤ L.fault_count link.new }
    {
        if status == 401 {
            return self.resolve(link, words, present, set, made);
        }
        self.drop_asked(ClientError::Refused { status, tag })
    }
}

// The sets that are held, and a new one of the password that may be asked for.
fn set_to_ask<D: Disk>(
    alloc: Global,
    table: &Table<D>,
    words: &mut Words,
    password: &str,
    cost: u32,
    made: u64,
) -> Result<(Sets, KeySet), ClientError>
    requires sound { IsSound (row_in (table_rows table.now)) }
    requires few { made ≤ most_exchanges }
    requires owned { (owner : OwnerRow) × HasOwner (row_in (table_rows table.now)) owner }
    requires none_asked { HasNoneAsked (row_in (table_rows table.now)) }
    requires cost { 1 ≤ cost }
    ensures ok { IfOk result (λ found. IsToAsk (row_in (table_rows table.now)) words.old password.now cost made found.0 found.1 words.new) }
    ensures err { IfErr result (λ why. AsksFor password.now cost (record { made = made; rows = row_in (table_rows table.now); words = words.old }) [] (is_over (refused why))) }
    ensures link { IfErr result (λ why. why ≢ refusal.LinkFault) }
    ensures words { IsLater words.old words.new }
{
    let sets = match held_sets(alloc, table) {
        Ok(sets) => sets,
        Err(why) => return Err(why),
    };
    if let Err(why) = may_begin(alloc, table.rows(), &sets) {
        return Err(why);
    }
    if made >= MOST_EXCHANGES {
        return Err(ClientError::RoundsUsed);
    }
    let nonce = words.nonce();
    let identifier = sets.present.params.identifier.as_str();
    let Ok(set) = new_set(alloc, &nonce, identifier, password, cost) else {
        return Err(ClientError::Memory);
    };
    Ok((sets, set))
}
