//! Syncing with a server: exchanges, one after another, until nothing is left.

ghost use Rattle.std.specs.Prelude.{◌≡◌, ◌↔◌, IfNone, IfSome, IsTrue};
ghost use Rattle.sn_device.specs.Runs.{HasCursor, HasLongToken};
ghost use Rattle.sn_taking.specs.Taken.{FitsTokens};
ghost use Rattle.sn_device.specs.declared.error.ClientError.TheVariants as refusal;
ghost use Rattle.sn_device.specs.declared.error.Place.TheVariants as place;
ghost use Rattle.sn_client.specs.Syncing.{IsCheckRefusal};

use crate::called::Called;
use crate::device::Device;
use crate::error::of_commit;
use crate::piece_end::PieceEnd;
use sn_conflict::{CheckError, check};
use sn_device::{ClientError, Place};
use sn_disk::Disk;
use sn_exchange::{MOST_EXCHANGES, ask};
use sn_items::Words;
use sn_local::{owner, sets_of};
use sn_net::Link;
use sn_rows::Change;
use sn_sending::{Sending, is_left, next_sending};
use sn_sets::Sets;
use sn_string::Text;
use sn_sync::{Answer, Request};
use sn_table::Committed;
use sn_taking::applied;
use std::alloc::AllocError;

/// The most bytes of a sync or cursor token in a device's row.
const LONGEST_TOKEN: usize = 33_554_432;

/// What became of one exchange.
#[derive(Drop)]
pub(crate) enum Exchanged<S, D, T> {
    /// Its answer is applied. Whether another exchange is due.
    Applied(S, bool),
    /// It ends the call.
    Ended(Called<S, D, T>),
}

impl<D: Disk> Device<D> {
    ghost use Rattle.std.specs.Prelude.{◌≢◌, ◌⊎◌, ◌≤◌, All};
    ghost use Rattle.sn_disk.specs.Disk.{LeavesOnly};
    ghost use Rattle.sn_io.specs.Causes.{Rose};
    ghost use Rattle.sn_journal.specs.declared.owner.Owner.TheVariants.{Device as DeviceOwner};
    ghost use Rattle.sn_rows.specs.Table.{Rows};
    ghost use Rattle.sn_rows.specs.declared.device_rows.OwnerRow.{OwnerRow};
    ghost use Rattle.sn_sets.specs.Seals.{IsLater};
    ghost use Rattle.sn_sync.specs.Fits.{FitsAnswer};
    ghost use Rattle.sn_sync.specs.declared.answer.Answer.{Answer};
    ghost use Rattle.sn_sync.specs.declared.request.Route.TheVariants as route;
    ghost use Rattle.sn_table.specs.Batches.{IsOf};
    ghost use Rattle.sn_table.specs.Kept.{Kept};
    ghost use Rattle.std.specs.Prelude.{Option, IfErr, IfOk};
    ghost use Rattle.sn_client.specs.Calls.{CallsOver, HasFront, IfBroken, IfRefused, IfStands, IsOpen, MayHave, called_disk, device_disk, device_rows, tried};
    ghost use Rattle.sn_device.specs.Runs.{Exchanges, IsDue, IsUnapplied, Sends, SyncsUnder, begun, items_of, most_exchanges, sync};
    ghost use Rattle.sn_device.specs.States.{HasOwner, HasSets, IsSound, HasNoneAsked};
    ghost use Rattle.sn_device.specs.Steps.{AppliesTo};
    ghost use Rattle.sn_client.specs.Syncing.{IfOn, MadeAtMost, IsApplied, IsAskedAndApplied, IsExchanged, IsOpenSince, IsSyncFrom, KeepsDevice, MayHaveSince, WentBy, called_of, called_past, gives_nothing};
    ghost use Rattle.sn_device.specs.declared.error.ClientError.TheVariants as refusal;

    /// Brings the device and its server together: sends what waits, and takes what the server has, in as many
    /// exchanges as that needs. The link's host is asked.
    pub fn sync<L: Link>(self, link: &mut L, words: &mut Words) -> Called<Device<D>, D, ()>
        requires sound { IsSound (device_rows self) }
        ensures runs { (kept : Kept) → IsOpen self kept → CallsOver IsOpen (MayHave D.told D.may_leave) gives_nothing self.least_cost sync (L.asks link.old link.new) (L.aimed link.old) kept words.old words.new result }

        // A crash at any moment leaves what a front of the call's commits leaves, or all of the one in which the disk failed.
        ensures any_moment { D.told → (kept : Kept) → IsOpen self kept →
            (calls : CallsOver IsOpen (MayHave D.told D.may_leave) gives_nothing self.least_cost sync (L.asks link.old link.new) (L.aimed link.old) kept words.old words.new result)
            × LeavesOnly D.moment D.left_since (device_disk self) (called_disk device_disk result) (HasFront kept (tried calls.acts calls.halt)) }
        ensures sound { IfStands result (λ device. IsSound (device_rows device)) }
        ensures words { IsLater words.old words.new }
        ensures least { IfStands result (λ device. device.least_cost ≡ self.least_cost) }
        ensures fault { IfBroken result (λ disk. Rose (D.fault_count (device_disk self)) (D.fault_count disk)) }
        ensures grows { D.grows (device_disk self) (called_disk device_disk result) }
        ensures later { D.fault_count (device_disk self) ≤ D.fault_count (called_disk device_disk result) }
        ensures aimed { L.aimed link.new ≡ L.aimed link.old }
        ensures link_fault { IfRefused result (λ why. why ≡ refusal.LinkFault → Rose (L.fault_count link.old) (L.fault_count link.new)) }
        ensures link_later { L.fault_count link.old ≤ L.fault_count link.new }
    {
        match sets_of(self.alloc, &self.table) {
            Ok(Some(sets)) => match self.bring_together(link, words, &sets) {
                PieceEnd::On(device, _) => Called::Done(device, ()),
                PieceEnd::Over(called) => called,
            },
            Ok(None) => Called::Refused(self, ClientError::NoAccount),
            Err(_) => Called::Refused(self, ClientError::Memory),
        }
    }

    /// Brings the device and its server together, as the first thing that a call does: a set that is asked for is
    /// resolved, and then exchanges are made until nothing is left. The sets are the device's.
    pub(crate) fn bring_together<L: Link>(
        self,
        link: &mut L,
        words: &mut Words,
        sets: &Sets,
    ) -> PieceEnd<Device<D>, D, ()>
        requires sound { IsSound (device_rows self) }
        requires holds { (owner : OwnerRow) × HasSets (device_rows self) owner sets.now }
        ensures went { (kept : Kept) (owner : OwnerRow) → IsOpen self kept → HasSets kept.rows owner sets.now →
            WentBy (IsOpenSince self kept) (MayHaveSince self kept) (SyncsUnder owner sets.now) (begun kept.rows words.old) kept (L.aimed link.old) (L.asks link.old link.new) words.new result }
        ensures device { KeepsDevice self (called_past result) }
        ensures owned { IfOn result (λ device. (owner : OwnerRow) × HasOwner (device_rows device) owner) }
        ensures none_asked { IfOn result (λ device. HasNoneAsked (device_rows device)) }
        ensures few { MadeAtMost result }
        ensures words { IsLater words.old words.new }
        ensures aimed { L.aimed link.new ≡ L.aimed link.old }
        ensures link_fault { IfRefused (called_past result) (λ why. why ≡ refusal.LinkFault → Rose (L.fault_count link.old) (L.fault_count link.new)) }
        ensures link_later { L.fault_count link.old ≤ L.fault_count link.new }
    {
        let Some(set) = &sets.asked else {
            return self.exchanges(link, words, 0);
        };
        match self.resolve(link, words, &sets.present, set, 0) {
            PieceEnd::On(device, made) => device.exchanges(link, words, made),
            PieceEnd::Over(called) => PieceEnd::Over(called),
        }
    }

    /// Exchanges until nothing is left, or as many as may be, behind those that the call made before.
    pub(crate) fn exchanges<L: Link>(
        self,
        link: &mut L,
        words: &mut Words,
        made: u64,
    ) -> PieceEnd<Device<D>, D, ()>
        requires sound { IsSound (device_rows self) }
        requires owned { (owner : OwnerRow) × HasOwner (device_rows self) owner }
        requires none_asked { HasNoneAsked (device_rows self) }
        requires few { made ≤ most_exchanges }
        ensures went { (kept : Kept) → IsOpen self kept →
            WentBy (IsOpenSince self kept) (MayHaveSince self kept) Exchanges (record { made = made; rows = kept.rows; words = words.old }) kept (L.aimed link.old) (L.asks link.old link.new) words.new result }
        ensures device { KeepsDevice self (called_past result) }
        ensures owned { IfOn result (λ device. (owner : OwnerRow) × HasOwner (device_rows device) owner) }
        ensures none_asked { IfOn result (λ device. HasNoneAsked (device_rows device)) }
        ensures few { MadeAtMost result }
        ensures words { IsLater words.old words.new }
        ensures aimed { L.aimed link.new ≡ L.aimed link.old }
        ensures link_fault { IfRefused (called_past result) (λ why. why ≡ refusal.LinkFault → Rose (L.fault_count link.old) (L.fault_count link.new)) }
        ensures link_later { L.fault_count link.old ≤ L.fault_count link.new }
    {
        let mut device = self;
        let mut count = made;
        'exchanges: while count < MOST_EXCHANGES {
            match device.exchange(link, words) {
                Exchanged::Applied(next, true) => {
                    device = next;
                    count += 1;
                }
                Exchanged::Applied(next, false) => return PieceEnd::On(next, count + 1),
                Exchanged::Ended(called) => return PieceEnd::Over(called),
            }
        }
        PieceEnd::Over(Called::Refused(device, ClientError::RoundsUsed))
    }

    // One exchange: posts the drafts that weren't sent before, asks, and applies the answer.
    fn exchange<L: Link>(self, link: &mut L, words: &mut Words) -> Exchanged<Device<D>, D, ()>
        requires sound { IsSound (device_rows self) }
        requires owned { (owner : OwnerRow) × HasOwner (device_rows self) owner }
        ensures exchanged { (kept : Kept) (last : Option Answer) → IsOpen self kept → IsDue kept.rows last →
            IsExchanged (IsOpenSince self kept) (MayHaveSince self kept) kept (record { rows = kept.rows; words = words.old; last = last }) (L.aimed link.old) (L.asks link.old link.new) words.new result }
        ensures device { KeepsDevice self (called_of result) }
        ensures owned { IfStands (called_of result) (λ device. (owner : OwnerRow) × HasOwner (device_rows device) owner) }
        ensures none_asked { HasNoneAsked (device_rows self) → IfStands (called_of result) (λ device. HasNoneAsked (device_rows device)) }
        ensures words { IsLater words.old words.new }
        ensures aimed { L.aimed link.new ≡ L.aimed link.old }
        ensures link_fault { IfRefused (called_of result) (λ why. why ≡ refusal.LinkFault → Rose (L.fault_count link.old) (L.fault_count link.new)) }
        ensures link_later { L.fault_count link.old ≤ L.fault_count link.new }
    {
        let Ok(sending) = self.sending() else {
            return Exchanged::Ended(Called::Refused(self, ClientError::Memory));
        };
        let Sending {
            numbers,
            changes,
            request,
        } = sending;
        if numbers.is_empty() {
            return self.ask_and_apply(link, words, &request);
        }
        match self.commit(changes) {
            Committed::Done(device) => device.ask_and_apply(link, words, &request),
            Committed::Refused(device, error) => {
                Exchanged::Ended(Called::Refused(device, of_commit(error)))
            }
            Committed::Broken(disk) => Exchanged::Ended(Called::Broken(disk)),
        }
    }

    // What is to be sent.
    fn sending(&self) -> Result<Sending, AllocError>
        requires sound { IsSound (device_rows self.now) }
        requires owned { (owner : OwnerRow) × HasOwner (device_rows self.now) owner }
        ensures sends { IfOk result (λ s. (ready : Rows) × Sends (device_rows self.now) s.numbers.items s.changes.items s.request ready) }
        ensures owned { IfOk result (λ s. All (IsOf DeviceOwner) s.changes.items) }
    {
        let Some(account) = owner(&self.table) else {
            unreachable!();
        };
        next_sending(self.alloc, &self.table, &self.index, account)
    }

    // Asks, and applies the answer.
    fn ask_and_apply<L: Link>(
        self,
        link: &mut L,
        words: &mut Words,
        request: &Request,
    ) -> Exchanged<Device<D>, D, ()>
        requires sound { IsSound (device_rows self) }
        requires owned { (owner : OwnerRow) × HasOwner (device_rows self) owner }
        requires sent { IsSyncFrom (device_rows self) request.now }
        ensures asked { (kept : Kept) → IsOpen self kept → IsAskedAndApplied (IsOpenSince self kept) (MayHaveSince self kept) kept words.old request.now (L.aimed link.old) (L.asks link.old link.new) words.new result }
        ensures device { KeepsDevice self (called_of result) }
        ensures owned { IfStands (called_of result) (λ device. (owner : OwnerRow) × HasOwner (device_rows device) owner) }
        ensures none_asked { HasNoneAsked (device_rows self) → IfStands (called_of result) (λ device. HasNoneAsked (device_rows device)) }
        ensures words { IsLater words.old words.new }
        ensures aimed { L.aimed link.new ≡ L.aimed link.old }
        ensures link_fault { IfRefused (called_of result) (λ why. why ≡ refusal.LinkFault → Rose (L.fault_count link.old) (L.fault_count link.new)) }
        ensures link_later { L.fault_count link.old ≤ L.fault_count link.new }
    {
        match ask(self.alloc, link, request) {
            Ok(answer) => self.apply(words, request, &answer),
            Err(why) => Exchanged::Ended(Called::Refused(self, why)),
        }
    }

    // Applies the answer to a request, in one commit.
    fn apply(
        self,
        words: &mut Words,
        request: &Request,
        answer: &Answer,
    ) -> Exchanged<Device<D>, D, ()>
        requires sound { IsSound (device_rows self) }
        requires owned { (owner : OwnerRow) × HasOwner (device_rows self) owner }
        requires sent { IsSyncFrom (device_rows self) request.now }
        requires fits { FitsAnswer route.Sync 200 answer.now }
        ensures applied { (kept : Kept) → IsOpen self kept → IsApplied (IsOpenSince self kept) (MayHaveSince self kept) kept words.old request.now answer.now words.new result }
        ensures device { KeepsDevice self (called_of result) }
        ensures owned { IfStands (called_of result) (λ device. (owner : OwnerRow) × HasOwner (device_rows device) owner) }
        ensures none_asked { HasNoneAsked (device_rows self) → IfStands (called_of result) (λ device. HasNoneAsked (device_rows device)) }
        ensures no_link { IfRefused (called_of result) (λ why. why ≢ refusal.LinkFault) }
        ensures words { IsLater words.old words.new }
    {
        let changes = match self.changes_of(words, request, answer) {
            Ok(changes) => changes,
            Err(why) => return Exchanged::Ended(Called::Refused(self, why)),
        };
        match self.commit(changes) {
            Committed::Done(device) => {
                let more = has_cursor(answer) || is_left(&device.table, &device.index);
                Exchanged::Applied(device, more)
            }
            Committed::Refused(device, error) => {
                Exchanged::Ended(Called::Refused(device, of_commit(error)))
            }
            Committed::Broken(disk) => Exchanged::Ended(Called::Broken(disk)),
        }
    }

    // What the answer to a request changes, where it passes the checks.
    fn changes_of(
        &self,
        words: &mut Words,
        request: &Request,
        answer: &Answer,
    ) -> Result<Vec<Change>, ClientError>
        requires sound { IsSound (device_rows self.now) }
        requires owned { (owner : OwnerRow) × HasOwner (device_rows self.now) owner }
        requires sent { IsSyncFrom (device_rows self.now) request.now }
        requires fits { FitsAnswer route.Sync 200 answer.now }
        ensures ok { IfOk result (λ changes. AppliesTo (device_rows self.now) words.old request.now answer.now changes.items words.new) }
        ensures owned { IfOk result (λ changes. All (IsOf DeviceOwner) changes.items) }
        ensures err { IfErr result (λ why. (why ≡ refusal.Memory) ⊎ IsUnapplied (device_rows self.now) words.old (items_of request.now) answer.now why) }
        ensures no_link { IfErr result (λ why. why ≢ refusal.LinkFault) }
        ensures words { IsLater words.old words.new }
    {
        let Request::Sync { items, .. } = request else {
            unreachable!();
        };
        let Answer::Sync {
            conflicts,
            cursor_token,
            retrieved,
            saved,
            sync_token,
        } = answer
        else {
            unreachable!();
        };
        if let Some(name) = long_token(cursor_token, sync_token) {
            return Err(bad_member(name));
        }
        let (sent, saved, conflicts, retrieved) = (
            items.as_slice(),
            saved.as_slice(),
            conflicts.as_slice(),
            retrieved.as_slice(),
        );
        if let Err(error) = check(self.alloc, sent, saved, conflicts, retrieved, cursor_token) {
            return Err(of_check(error));
        }
        let Some(account) = owner(&self.table) else {
            unreachable!();
        };
        let Some(sets) = sets_of(self.alloc, &self.table)? else {
            unreachable!();
        };
        match applied(
            self.alloc,
            self.table.rows(),
            &self.index,
            account,
            &sets,
            sent,
            saved,
            conflicts,
            retrieved,
            cursor_token,
            sync_token,
            words,
        ) {
            Ok(changes) => Ok(changes),
            Err(stop) => Err(stop.refusal()),
        }
    }
}

// Whether a page is left behind this answer.
fn has_cursor(answer: &Answer) -> bool
    ensures { IsTrue result ↔ HasCursor answer.now }
{
    match answer {
        Answer::Sync { cursor_token, .. } => cursor_token.is_some(),
        _ => false,
    }
}

// The member of the first token that is longer than a row may keep.
fn long_token(cursor: &Option<Text>, token: &Text) -> Option<&'static str>
    ensures some { IfSome result (λ name. HasLongToken cursor.now token.now name.now) }
    ensures none { IfNone result (FitsTokens token.now cursor.now) }
{
    if let Some(cursor) = cursor
        && cursor.len() > LONGEST_TOKEN
    {
        return Some("cursor_token");
    }
    if token.len() > LONGEST_TOKEN {
        return Some("sync_token");
    }
    None
}

// The refusal for a member that is out of its bounds.
fn bad_member(name: &'static str) -> ClientError
    ensures { result ≡ refusal.BadAnswer (place.Member name.now) }
{
    let name = Text::fixed(name);
    ClientError::BadAnswer {
        place: Place::Member { name },
    }
}

// The refusal for a check that fails.
fn of_check(error: CheckError) -> ClientError
    ensures { IsCheckRefusal error result }
{
    let place = match error {
        CheckError::Saved { index } => Place::Saved { index },
        CheckError::Conflict { index } => Place::Conflict { index },
        CheckError::Retrieved { index } => Place::Retrieved { index },
        CheckError::Cursor => Place::Cursor,
        CheckError::Memory => return ClientError::Memory,
    };
    ClientError::BadAnswer { place }
}
