// Where the moves of accounts and their sets are allowed.

ghost use Rattle.std.specs.Prelude.{◌≡◌, ◌+◌, ◌&&◌, ◌==◌, Option, Some, None, length, not, nat_lt, nat_le, true};
ghost use Rattle.std.specs.Option.{option_copied};
ghost use Rattle.std.specs.List.{list_all, list_any};
ghost use Rattle.std.specs.Str.{bytes_eq};
ghost use Rattle.sn_laws.specs.Lookups.{held_by, last_of};
ghost use Rattle.sn_laws.specs.Moves.{allows, is_based, is_behind, is_carrier, is_rekeying, is_sent_before, is_under, may_change, may_join, may_retire, may_rewrap, may_unpost, none_behind, none_carries};

use crate::allowed::{is_live, is_new, same};
use crate::ideal::{Account, Body, Device, Draft, Ideal, Posted, Version};
use crate::lookups::{
    account_named, account_with, device_of, draft_of, is_holding, is_holding_above, is_taken,
    last_version, owner,
};
use crate::moves::Move;
use sn_string::KeySet;
use uuid::Uuid;

// An account has at most so many sets.
const MOST_SETS: usize = 1_000_000;

fn may_join(account: Option<&Account>, device: Option<&Device>, number: u64) -> bool
    ensures { result ≡ may_join (option_copied account.entry) (option_copied device.entry) number }
{
    match (account, device) {
        (None, _) => false,
        (Some(account), None) => number == account.sets.as_slice().len() as u64,
        (Some(account), Some(device)) => {
            same(&device.account, &account.identifier)
                && number == account.sets.as_slice().len() as u64
                && device.held.as_slice().len() <= 1
                && device.held.as_slice().iter().all(|&held| held < number)
        }
    }
}

fn is_sent_before(number: u64, posted: &Option<Posted>) -> bool
    ensures { result ≡ is_sent_before number posted.now }
{
    match posted {
        None => false,
        Some(posted) => match posted.set {
            None => false,
            Some(set) => set != number,
        },
    }
}

fn is_based(base: Option<u64>, last: Option<&Version>) -> bool
    ensures { result ≡ is_based base (option_copied last.entry) }
{
    match (base, last) {
        (None, last) => last.is_none(),
        (Some(_), None) => false,
        (Some(stamp), Some(last)) => last.stamp == stamp,
    }
}

// Whether what was sent has the number of another set, and the draft stands on its item's last version.
fn may_unpost(account: Option<&Account>, draft: Option<&Draft>, uuid: &Uuid) -> bool
    ensures { result ≡ may_unpost (option_copied account.entry) (option_copied draft.entry) uuid.now }
{
    match (account, draft) {
        (Some(account), Some(draft)) => {
            is_sent_before(account.sets.as_slice().len() as u64, &draft.posted)
                && is_based(draft.base, last_version(account.versions.as_slice(), uuid))
        }
        _ => false,
    }
}

fn is_under(number: u64, body: &Body) -> bool
    ensures { result ≡ is_under number body.now }
{
    match body {
        Body::Under(_, set) => *set == number,
        Body::Gone => false,
    }
}

fn is_behind(number: u64, last: Option<&Version>) -> bool
    ensures { result ≡ is_behind number (option_copied last.entry) }
{
    match last {
        None => false,
        Some(last) => is_live(&last.body) && !is_under(number, &last.body),
    }
}

fn is_carrier(number: u64, last: Option<&Version>) -> bool
    ensures { result ≡ is_carrier number (option_copied last.entry) }
{
    match last {
        None => false,
        Some(last) => is_under(number, &last.body),
    }
}

// Whether the item's last version carries another set than its account's last, and the stamp is new.
fn may_rewrap(
    accounts: &[Account],
    account: Option<&Account>,
    uuid: &Uuid,
    stamp: u64,
    under: u64,
) -> bool
    ensures { result ≡ may_rewrap accounts.now (option_copied account.entry) uuid.now stamp under }
{
    match account {
        None => false,
        Some(account) => {
            let number = account.sets.as_slice().len() as u64;
            is_behind(number, last_version(account.versions.as_slice(), uuid))
                && under == number
                && is_new(accounts, stamp)
        }
    }
}

fn is_in_step(number: u64, versions: &[Version], version: &Version) -> bool
    ensures { result ≡ not (is_behind number (last_of version.now.uuid versions.now)) }
{
    !is_behind(number, last_version(versions, &version.uuid))
}

fn none_behind(number: u64, versions: &[Version]) -> bool
    ensures { result ≡ none_behind number versions.now }
{
    versions.iter().all(|v| is_in_step(number, versions, v))
}

fn is_nonce_of(set: &KeySet, other: &KeySet) -> bool
    ensures { result ≡ bytes_eq set.now.params.pw_nonce other.now.params.pw_nonce }
{
    set.params.pw_nonce.as_str() == other.params.pw_nonce.as_str()
}

fn is_used(sets: &[KeySet], set: &KeySet) -> bool
    ensures { result ≡ list_any (λ k. bytes_eq k.params.pw_nonce set.now.params.pw_nonce) sets.now }
{
    sets.iter().any(|k| is_nonce_of(k, set))
}

// Whether the nonce is fresh in the account, whose last versions carry its last set, and the number
// is that of one more set.
fn may_change(account: Option<&Account>, number: u64, set: &KeySet) -> bool
    ensures { result ≡ may_change (option_copied account.entry) number set.now }
{
    match account {
        None => false,
        Some(account) => {
            let sets = account.sets.as_slice();
            !is_used(sets, set)
                && sets.len() < MOST_SETS
                && none_behind(sets.len() as u64, account.versions.as_slice())
                && number == sets.len() as u64 + 1
        }
    }
}

fn is_spared(number: u64, versions: &[Version], version: &Version) -> bool
    ensures { result ≡ not (is_carrier number (last_of version.now.uuid versions.now)) }
{
    !is_carrier(number, last_version(versions, &version.uuid))
}

fn none_carries(number: u64, versions: &[Version]) -> bool
    ensures { result ≡ none_carries number versions.now }
{
    versions.iter().all(|v| is_spared(number, versions, v))
}

// Whether the device holds the set and a greater one, and no last version carries it.
fn may_retire(account: Option<&Account>, device: Option<&Device>, number: u64) -> bool
    ensures { result ≡ may_retire (option_copied account.entry) (held_by (option_copied device.entry)) number }
{
    match account {
        None => false,
        Some(account) => {
            is_holding(device, number)
                && is_holding_above(device, number)
                && none_carries(number, account.versions.as_slice())
        }
    }
}

/// Whether a move of accounts and their sets is allowed in this state.
pub fn is_rekeying_allowed(state: &Ideal, next: &Move) -> bool
    ensures { is_rekeying next.now ≡ true → result ≡ allows state.now next.now }
{
    let accounts = state.accounts.as_slice();
    match next {
        Move::Register { identifier, .. } => !is_taken(accounts, identifier),
        Move::Join {
            device,
            identifier,
            number,
        } => {
            let account = account_named(accounts, identifier);
            may_join(account, device_of(state, device), *number)
        }
        Move::Unpost { device, uuid } => {
            may_unpost(owner(state, device), draft_of(state, device, uuid), uuid)
        }
        Move::Rewrap { uuid, stamp, under } => {
            may_rewrap(accounts, account_with(accounts, uuid), uuid, *stamp, *under)
        }
        Move::Change {
            identifier,
            number,
            set,
        } => may_change(account_named(accounts, identifier), *number, set),
        Move::Retire { device, number } => {
            may_retire(owner(state, device), device_of(state, device), *number)
        }
        _ => false,
    }
}
