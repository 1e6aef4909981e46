// What each move does.

ghost use Rattle.std.specs.Prelude.{◌≡◌, List, [], ◌∷◌, ◌++◌, Option, Some, None, IfOk, OnOk, find};
ghost use Rattle.std.specs.Option.{option_copied};
ghost use Rattle.sn_laws.specs.Lookups.{account_for, greatest, held_by, is_account, is_device, is_draft};
ghost use Rattle.sn_laws.specs.Moves.{accepted, after, changed_where, edited, joined, posted_under, registered, sent_content, version_of, without};

use crate::clones::{copies, push_copy};
use crate::ideal::{Account, Body, Content, Device, Draft, Ideal, Posted, Version};
use crate::lookups::{
    account_of, account_with, device_named, draft_at, greatest_held, is_at, is_called,
    is_same_account,
};
use crate::moves::Move;
use crate::redrafted::{with_fork, with_renamed, with_settled};
use crate::rekeyed::{rewrapped, with_another_set, with_retired, with_unposted};
use sn_string::{KeySet, OwnedList, Text, TryClone};
use std::alloc::{AllocError, Global};
use uuid::Uuid;

fn registered(
    alloc: Global,
    accounts: &[Account],
    identifier: &Text,
    set: &KeySet,
) -> Result<OwnedList<Account>, AllocError>
    ensures { IfOk result (λ next. next ≡ registered accounts.now identifier.now set.now) }
{
    let mut sets = OwnedList::new(alloc);
    push_copy(alloc, &mut sets, set)?;
    let mut next = copies(alloc, accounts)?;
    next.push(Account {
        identifier: identifier.try_clone(alloc)?,
        sets,
        versions: OwnedList::new(alloc),
    })?;
    Ok(next)
}

fn with_set(
    alloc: Global,
    devices: &[Device],
    name: &Text,
    number: u64,
) -> Result<OwnedList<Device>, AllocError>
    ensures { IfOk result (λ next. next
        ≡ changed_where (is_device name.now) (λ e. record e { held = e.held ++ number ∷ [] }) devices.now) }
{
    let mut next = OwnedList::new(alloc);
    for device in devices {
        let mut changed = device.try_clone(alloc)?;
        if is_called(device, name) {
            changed.held.push(number)?;
        }
        next.push(changed)?;
    }
    Ok(next)
}

fn joined(
    alloc: Global,
    devices: &[Device],
    name: &Text,
    identifier: &Text,
    number: u64,
) -> Result<OwnedList<Device>, AllocError>
    ensures { IfOk result (λ next. next
        ≡ joined devices.now name.now identifier.now number (find (is_device name.now) devices.now)) }
{
    if device_named(devices, name).is_some() {
        return with_set(alloc, devices, name, number);
    }
    let mut next = copies(alloc, devices)?;
    let mut held = OwnedList::new(alloc);
    held.push(number)?;
    next.push(Device {
        name: name.try_clone(alloc)?,
        account: identifier.try_clone(alloc)?,
        held,
    })?;
    Ok(next)
}

fn with_latest(
    alloc: Global,
    drafts: &[Draft],
    device: &Text,
    uuid: &Uuid,
    latest: &Content,
) -> Result<OwnedList<Draft>, AllocError>
    ensures { IfOk result (λ next. next
        ≡ changed_where (is_draft device.now uuid.now) (λ e. record e { latest = latest.now }) drafts.now) }
{
    let mut next = OwnedList::new(alloc);
    for draft in drafts {
        let mut changed = draft.try_clone(alloc)?;
        if is_at(draft, device, uuid) {
            changed.latest = latest.try_clone(alloc)?;
        }
        next.push(changed)?;
    }
    Ok(next)
}

fn edited(
    alloc: Global,
    drafts: &[Draft],
    device: &Text,
    uuid: &Uuid,
    kind: &Text,
    base: Option<u64>,
    latest: &Content,
) -> Result<OwnedList<Draft>, AllocError>
    ensures { IfOk result (λ next. next ≡ edited drafts.now device.now uuid.now kind.now base latest.now
        (find (is_draft device.now uuid.now) drafts.now)) }
{
    if draft_at(drafts, device, uuid).is_some() {
        return with_latest(alloc, drafts, device, uuid, latest);
    }
    let mut next = copies(alloc, drafts)?;
    next.push(Draft {
        device: device.try_clone(alloc)?,
        uuid: *uuid,
        kind: kind.try_clone(alloc)?,
        base,
        latest: latest.try_clone(alloc)?,
        posted: None,
    })?;
    Ok(next)
}

fn sent(alloc: Global, draft: &Draft) -> Result<Content, AllocError>
    ensures { IfOk result (λ content. content ≡ sent_content draft.now.latest draft.now.posted) }
{
    match &draft.posted {
        None => draft.latest.try_clone(alloc),
        Some(posted) => posted.content.try_clone(alloc),
    }
}

fn posted(alloc: Global, draft: &Draft, number: u64) -> Result<Draft, AllocError>
    ensures { IfOk result (λ next. next ≡ posted_under number draft.now) }
{
    let content = sent(alloc, draft)?;
    let mut next = draft.try_clone(alloc)?;
    next.posted = Some(Posted {
        content,
        set: Some(number),
    });
    Ok(next)
}

fn with_posted(
    alloc: Global,
    drafts: &[Draft],
    device: &Text,
    uuid: &Uuid,
    number: u64,
) -> Result<OwnedList<Draft>, AllocError>
    ensures { IfOk result (λ next. next
        ≡ changed_where (is_draft device.now uuid.now) (posted_under number) drafts.now) }
{
    let mut next = OwnedList::new(alloc);
    for draft in drafts {
        if is_at(draft, device, uuid) {
            next.push(posted(alloc, draft, number)?)?;
        } else {
            push_copy(alloc, &mut next, draft)?;
        }
    }
    Ok(next)
}

fn posted_drafts(
    alloc: Global,
    devices: &[Device],
    drafts: &[Draft],
    device: &Text,
    uuid: &Uuid,
) -> Result<OwnedList<Draft>, AllocError>
    ensures { IfOk result (λ next. next ≡ changed_where (is_draft device.now uuid.now)
        (posted_under (greatest 0 (held_by (find (is_device device.now) devices.now)))) drafts.now) }
{
    let number = greatest_held(device_named(devices, device));
    with_posted(alloc, drafts, device, uuid, number)
}

fn version(alloc: Global, draft: &Draft, stamp: u64, number: u64) -> Result<Version, AllocError>
    ensures { IfOk result (λ next. next ≡ version_of stamp number draft.now) }
{
    let body = match sent(alloc, draft)? {
        Content::Plain(text) => Body::Under(text, number),
        Content::Deleted => Body::Gone,
    };
    Ok(Version {
        uuid: draft.uuid,
        stamp,
        kind: draft.kind.try_clone(alloc)?,
        body,
    })
}

fn push_version(
    alloc: Global,
    versions: &mut OwnedList<Version>,
    draft: &Draft,
    stamp: u64,
    number: u64,
) -> Result<(), AllocError>
    ensures { OnOk result (versions.new ≡ versions.old ++ version_of stamp number draft.now ∷ []) }
{
    versions.push(version(alloc, draft, stamp, number)?)
}

fn with_version(
    alloc: Global,
    accounts: &[Account],
    account: &Account,
    draft: &Draft,
    stamp: u64,
) -> Result<OwnedList<Account>, AllocError>
    ensures { IfOk result (λ next. next ≡ accepted accounts.now (Some account.now) (Some draft.now) stamp) }
{
    let number = account.sets.as_slice().len() as u64;
    let mut next = OwnedList::new(alloc);
    for other in accounts {
        let mut changed = other.try_clone(alloc)?;
        if is_same_account(other, account) {
            push_version(alloc, &mut changed.versions, draft, stamp, number)?;
        }
        next.push(changed)?;
    }
    Ok(next)
}

fn accepted(
    alloc: Global,
    accounts: &[Account],
    account: Option<&Account>,
    draft: Option<&Draft>,
    stamp: u64,
) -> Result<OwnedList<Account>, AllocError>
    ensures { IfOk result (λ next. next
        ≡ accepted accounts.now (option_copied account.entry) (option_copied draft.entry) stamp) }
{
    match (account, draft) {
        (Some(account), Some(draft)) => with_version(alloc, accounts, account, draft, stamp),
        _ => copies(alloc, accounts),
    }
}

fn without_draft(
    alloc: Global,
    drafts: &[Draft],
    device: &Text,
    uuid: &Uuid,
) -> Result<OwnedList<Draft>, AllocError>
    ensures { IfOk result (λ next. next ≡ without (is_draft device.now uuid.now) drafts.now) }
{
    let mut next = OwnedList::new(alloc);
    for draft in drafts {
        if !is_at(draft, device, uuid) {
            push_copy(alloc, &mut next, draft)?;
        }
    }
    Ok(next)
}

fn accounts_after(
    alloc: Global,
    state: &Ideal,
    next: &Move,
) -> Result<OwnedList<Account>, AllocError>
    ensures { IfOk result (λ changed. changed ≡ (after state.now next.now).accounts) }
{
    let accounts = state.accounts.as_slice();
    match next {
        Move::Register { identifier, set } => registered(alloc, accounts, identifier, set),
        Move::Accept {
            device,
            uuid,
            stamp,
            ..
        } => {
            let account = account_of(accounts, device_named(state.devices.as_slice(), device));
            let draft = draft_at(state.drafts.as_slice(), device, uuid);
            accepted(alloc, accounts, account, draft, *stamp)
        }
        Move::Rewrap { uuid, stamp, .. } => {
            rewrapped(alloc, accounts, account_with(accounts, uuid), uuid, *stamp)
        }
        Move::Change {
            identifier,
            set,
            ..
        } => with_another_set(alloc, accounts, identifier, set),
        _ => copies(alloc, accounts),
    }
}

fn drafts_after(alloc: Global, state: &Ideal, next: &Move) -> Result<OwnedList<Draft>, AllocError>
    ensures { IfOk result (λ changed. changed ≡ (after state.now next.now).drafts) }
{
    let drafts = state.drafts.as_slice();
    match next {
        Move::Edit {
            device,
            uuid,
            kind,
            base,
            latest,
        } => edited(alloc, drafts, device, uuid, kind, *base, latest),
        Move::Drop { device, uuid }
        | Move::Settle { device, uuid }
        | Move::GiveWay { device, uuid } => without_draft(alloc, drafts, device, uuid),
        Move::Post { device, uuid } => {
            posted_drafts(alloc, state.devices.as_slice(), drafts, device, uuid)
        }
        Move::Unpost { device, uuid } => with_unposted(alloc, drafts, device, uuid),
        Move::SettlePosted {
            device,
            uuid,
            stamp,
        } => with_settled(alloc, drafts, device, uuid, *stamp),
        Move::Fork {
            device,
            uuid,
            other,
        } => with_fork(alloc, drafts, device, uuid, other),
        Move::Rename {
            device,
            uuid,
            other,
        } => with_renamed(alloc, drafts, device, uuid, other),
        _ => copies(alloc, drafts),
    }
}

fn devices_after(alloc: Global, state: &Ideal, next: &Move) -> Result<OwnedList<Device>, AllocError>
    ensures { IfOk result (λ changed. changed ≡ (after state.now next.now).devices) }
{
    let devices = state.devices.as_slice();
    match next {
        Move::Join {
            device,
            identifier,
            number,
        } => joined(alloc, devices, device, identifier, *number),
        Move::Retire { device, number } => with_retired(alloc, devices, device, *number),
        _ => copies(alloc, devices),
    }
}

/// The state after a move.
pub fn apply(alloc: Global, state: &Ideal, next: &Move) -> Result<Ideal, AllocError>
    ensures { IfOk result (λ changed. changed ≡ after state.now next.now) }
{
    Ok(Ideal {
        accounts: accounts_after(alloc, state, next)?,
        drafts: drafts_after(alloc, state, next)?,
        devices: devices_after(alloc, state, next)?,
    })
}
