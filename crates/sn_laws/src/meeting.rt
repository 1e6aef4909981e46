// Where a draft may end, move or stay when it meets its item's last version, or another account's item.

ghost use Rattle.std.specs.Prelude.{◌≡◌, ◌&&◌, ◌||◌, ◌==◌, Option, Some, None, not, is_none, true};
ghost use Rattle.std.specs.Option.{option_copied};
ghost use Rattle.std.specs.List.{list_any};
ghost use Rattle.sn_laws.specs.Lookups.{has_item, held_by, is_account};
ghost use Rattle.sn_laws.specs.Moves.{allows, is_content_of, is_elsewhere, is_last, is_live, is_meeting, is_other, is_passed, is_sent_as, is_unseen, may_drop, may_fork, may_give_way, may_rename, may_settle, may_settle_posted};

use crate::allowed::{is_content_of, is_live, is_plain, is_same_content};
use crate::ideal::{Account, Body, Device, Draft, Ideal, Version};
use crate::lookups::{
    device_of, draft_of, has_version, is_holding, is_same_account, last_version, owner,
};
use crate::moves::Move;
use uuid::Uuid;

fn is_passed(base: Option<u64>, version: &Version) -> bool
    ensures { result ≡ is_passed base version.now }
{
    match base {
        None => true,
        Some(stamp) => stamp != version.stamp,
    }
}

fn is_unseen(device: Option<&Device>, version: &Version) -> bool
    ensures { result ≡ is_unseen (held_by (option_copied device.entry)) version.now.body }
{
    match &version.body {
        Body::Under(_, set) => !is_holding(device, *set),
        Body::Gone => false,
    }
}

fn is_sent_as(draft: &Draft, version: &Version) -> bool
    ensures { result ≡ is_sent_as draft.now.kind draft.now.posted version.now }
{
    match &draft.posted {
        None => false,
        Some(posted) => is_same_content(&draft.kind, &posted.content, version),
    }
}

fn is_other(device: Option<&Device>, draft: &Draft, version: &Version) -> bool
    ensures { result ≡ is_other (held_by (option_copied device.entry)) draft.now version.now }
{
    is_unseen(device, version) || (!is_content_of(draft, version) && !is_sent_as(draft, version))
}

fn may_settle(account: Option<&Account>, draft: Option<&Draft>, uuid: &Uuid) -> bool
    ensures { result ≡ may_settle (option_copied account.entry) (option_copied draft.entry) uuid.now }
{
    match (account, draft) {
        (Some(account), Some(draft)) => match last_version(account.versions.as_slice(), uuid) {
            Some(last) => is_content_of(draft, last),
            None => false,
        },
        _ => false,
    }
}

// Whether what was sent is the last version's content, and this its stamp.
fn may_settle_posted(
    account: Option<&Account>,
    draft: Option<&Draft>,
    uuid: &Uuid,
    stamp: u64,
) -> bool
    ensures { result ≡ may_settle_posted (option_copied account.entry) (option_copied draft.entry) uuid.now stamp }
{
    match (account, draft) {
        (Some(account), Some(draft)) => match last_version(account.versions.as_slice(), uuid) {
            Some(last) => is_sent_as(draft, last) && last.stamp == stamp,
            None => false,
        },
        _ => false,
    }
}

// Whether a content meets another version than the one that it stands on.
fn may_fork(
    account: Option<&Account>,
    device: Option<&Device>,
    draft: Option<&Draft>,
    other: Option<&Draft>,
    uuid: &Uuid,
) -> bool
    ensures { result ≡ may_fork (option_copied account.entry) (held_by (option_copied device.entry)) (option_copied draft.entry)
        (option_copied other.entry) uuid.now }
{
    match (account, draft) {
        (Some(account), Some(draft)) => {
            is_plain(&draft.latest)
                && other.is_none()
                && match last_version(account.versions.as_slice(), uuid) {
                    Some(last) => is_passed(draft.base, last) && is_other(device, draft, last),
                    None => false,
                }
        }
        _ => false,
    }
}

fn gives_way(device: Option<&Device>, draft: &Draft, last: &Version) -> bool
    ensures { result ≡ (is_live last.now.body && is_passed draft.now.base last.now
        && (is_unseen (held_by (option_copied device.entry)) last.now.body || not (is_sent_as draft.now.kind draft.now.posted last.now))) }
{
    is_live(&last.body)
        && is_passed(draft.base, last)
        && (is_unseen(device, last) || !is_sent_as(draft, last))
}

// Whether a deletion meets a live version that it doesn't stand on.
fn may_give_way(
    account: Option<&Account>,
    device: Option<&Device>,
    draft: Option<&Draft>,
    uuid: &Uuid,
) -> bool
    ensures { result ≡ may_give_way (option_copied account.entry) (held_by (option_copied device.entry)) (option_copied draft.entry) uuid.now }
{
    match (account, draft) {
        (Some(account), Some(draft)) => {
            !is_plain(&draft.latest)
                && match last_version(account.versions.as_slice(), uuid) {
                    Some(last) => gives_way(device, draft, last),
                    None => false,
                }
        }
        _ => false,
    }
}

fn has_elsewhere(other: &Account, account: &Account, uuid: &Uuid) -> bool
    ensures { result ≡ (not (is_account account.now.identifier other.now) && has_item uuid.now other.now) }
{
    !is_same_account(other, account) && has_version(other, uuid)
}

fn is_elsewhere(accounts: &[Account], account: &Account, uuid: &Uuid) -> bool
    ensures { result ≡ is_elsewhere accounts.now account.now uuid.now }
{
    accounts.iter().any(|a| has_elsewhere(a, account, uuid))
}

// Whether a new item's uuid is another account's.
fn may_rename(
    accounts: &[Account],
    account: Option<&Account>,
    draft: Option<&Draft>,
    other: Option<&Draft>,
    uuid: &Uuid,
) -> bool
    ensures { result ≡ may_rename accounts.now (option_copied account.entry) (option_copied draft.entry) (option_copied other.entry) uuid.now }
{
    match (account, draft) {
        (Some(account), Some(draft)) => {
            draft.base.is_none() && other.is_none() && is_elsewhere(accounts, account, uuid)
        }
        _ => false,
    }
}

/// Whether no server can have the item.
pub fn may_drop(
    accounts: &[Account],
    account: Option<&Account>,
    draft: Option<&Draft>,
    uuid: &Uuid,
) -> bool
    ensures { result ≡ may_drop accounts.now (option_copied account.entry) (option_copied draft.entry) uuid.now }
{
    match (account, draft) {
        (Some(account), Some(draft)) => {
            draft.base.is_none()
                && (draft.posted.is_none()
                    || (!is_plain(&draft.latest) && is_elsewhere(accounts, account, uuid)))
        }
        _ => false,
    }
}

/// Whether a move of a draft that meets a version, or another account's item, is allowed in this state.
pub fn is_meeting_allowed(state: &Ideal, next: &Move) -> bool
    ensures { is_meeting next.now ≡ true → result ≡ allows state.now next.now }
{
    match next {
        Move::Settle { device, uuid } => {
            may_settle(owner(state, device), draft_of(state, device, uuid), uuid)
        }
        Move::SettlePosted {
            device,
            uuid,
            stamp,
        } => {
            let draft = draft_of(state, device, uuid);
            may_settle_posted(owner(state, device), draft, uuid, *stamp)
        }
        Move::Fork {
            device,
            uuid,
            other,
        } => {
            let named = device_of(state, device);
            let draft = draft_of(state, device, uuid);
            let taken = draft_of(state, device, other);
            may_fork(owner(state, device), named, draft, taken, uuid)
        }
        Move::Rename {
            device,
            uuid,
            other,
        } => {
            let account = owner(state, device);
            let draft = draft_of(state, device, uuid);
            let taken = draft_of(state, device, other);
            may_rename(state.accounts.as_slice(), account, draft, taken, uuid)
        }
        Move::GiveWay { device, uuid } => {
            let draft = draft_of(state, device, uuid);
            may_give_way(owner(state, device), device_of(state, device), draft, uuid)
        }
        _ => false,
    }
}
