// What the moves of a change of password do.

ghost use Rattle.std.specs.Prelude.{◌≡◌, ◌==◌, List, [], ◌∷◌, ◌++◌, Option, Some, None, IfOk, OnOk, length};
ghost use Rattle.std.specs.Option.{option_copied};
ghost use Rattle.sn_laws.specs.Lookups.{is_account, is_device, is_draft, last_of};
ghost use Rattle.sn_laws.specs.Moves.{again, changed_where, resealed, rewrapped, unposted, without, without_number};

use crate::clones::{copies, push_copy};
use crate::ideal::{Account, Body, Device, Draft, Posted, Version};
use crate::lookups::{is_at, is_called, is_named, is_same_account, last_version};
use sn_string::{KeySet, OwnedList, Text, TryClone};
use std::alloc::{AllocError, Global};
use uuid::Uuid;

fn without_number(alloc: Global, posted: &Option<Posted>) -> Result<Option<Posted>, AllocError>
    ensures { IfOk result (λ next. next ≡ without_number posted.now) }
{
    match posted {
        None => Ok(None),
        Some(posted) => Ok(Some(Posted {
            content: posted.content.try_clone(alloc)?,
            set: None,
        })),
    }
}

/// What was sent of the draft, without the number of its set.
pub fn with_unposted(
    alloc: Global,
    drafts: &[Draft],
    device: &Text,
    uuid: &Uuid,
) -> Result<OwnedList<Draft>, AllocError>
    ensures { IfOk result (λ next. next ≡ changed_where (is_draft device.now uuid.now) unposted drafts.now) }
{
    let mut next = OwnedList::new(alloc);
    for draft in drafts {
        let mut changed = draft.try_clone(alloc)?;
        if is_at(draft, device, uuid) {
            changed.posted = without_number(alloc, &draft.posted)?;
        }
        next.push(changed)?;
    }
    Ok(next)
}

fn resealed(alloc: Global, body: &Body, number: u64) -> Result<Body, AllocError>
    ensures { IfOk result (λ next. next ≡ resealed number body.now) }
{
    match body {
        Body::Under(text, _) => Ok(Body::Under(text.try_clone(alloc)?, number)),
        Body::Gone => Ok(Body::Gone),
    }
}

fn sealed_again(
    alloc: Global,
    last: &Version,
    stamp: u64,
    number: u64,
) -> Result<Version, AllocError>
    ensures { IfOk result (λ next. next ≡ record last.now { stamp = stamp; body = resealed number last.now.body }) }
{
    Ok(Version {
        uuid: last.uuid,
        stamp,
        kind: last.kind.try_clone(alloc)?,
        body: resealed(alloc, &last.body, number)?,
    })
}

fn push_again(
    alloc: Global,
    versions: &mut OwnedList<Version>,
    account: &Account,
    uuid: &Uuid,
    stamp: u64,
) -> Result<(), AllocError>
    ensures { OnOk result (versions.new
        ≡ versions.old ++ again stamp (length account.now.sets) (last_of uuid.now account.now.versions)) }
{
    let number = account.sets.as_slice().len() as u64;
    match last_version(account.versions.as_slice(), uuid) {
        None => Ok(()),
        Some(last) => versions.push(sealed_again(alloc, last, stamp, number)?),
    }
}

fn with_rewrap(
    alloc: Global,
    accounts: &[Account],
    account: &Account,
    uuid: &Uuid,
    stamp: u64,
) -> Result<OwnedList<Account>, AllocError>
    ensures { IfOk result (λ next. next ≡ rewrapped accounts.now (Some account.now) uuid.now stamp) }
{
    let mut next = OwnedList::new(alloc);
    for other in accounts {
        let mut changed = other.try_clone(alloc)?;
        if is_same_account(other, account) {
            push_again(alloc, &mut changed.versions, account, uuid, stamp)?;
        }
        next.push(changed)?;
    }
    Ok(next)
}

/// The last version of the item again, under the last set of the account that has it.
pub fn rewrapped(
    alloc: Global,
    accounts: &[Account],
    account: Option<&Account>,
    uuid: &Uuid,
    stamp: u64,
) -> Result<OwnedList<Account>, AllocError>
    ensures { IfOk result (λ next. next ≡ rewrapped accounts.now (option_copied account.entry) uuid.now stamp) }
{
    match account {
        Some(account) => with_rewrap(alloc, accounts, account, uuid, stamp),
        None => copies(alloc, accounts),
    }
}

/// The account with one more set.
pub fn with_another_set(
    alloc: Global,
    accounts: &[Account],
    identifier: &Text,
    set: &KeySet,
) -> Result<OwnedList<Account>, AllocError>
    ensures { IfOk result (λ next. next
        ≡ changed_where (is_account identifier.now) (λ a. record a { sets = a.sets ++ set.now ∷ [] }) accounts.now) }
{
    let mut next = OwnedList::new(alloc);
    for account in accounts {
        let mut changed = account.try_clone(alloc)?;
        if is_named(account, identifier) {
            push_copy(alloc, &mut changed.sets, set)?;
        }
        next.push(changed)?;
    }
    Ok(next)
}

fn without_set(alloc: Global, held: &[u64], number: u64) -> Result<OwnedList<u64>, AllocError>
    ensures { IfOk result (λ next. next ≡ without (λ m. m == number) held.now) }
{
    let mut next = OwnedList::new(alloc);
    for &other in held {
        if other != number {
            next.push(other)?;
        }
    }
    Ok(next)
}

/// The device without the set of this number.
pub fn with_retired(
    alloc: Global,
    devices: &[Device],
    name: &Text,
    number: u64,
) -> Result<OwnedList<Device>, AllocError>
    ensures { IfOk result (λ next. next
        ≡ changed_where (is_device name.now) (λ d. record d { held = without (λ m. m == number) d.held }) devices.now) }
{
    let mut next = OwnedList::new(alloc);
    for device in devices {
        let mut changed = device.try_clone(alloc)?;
        if is_called(device, name) {
            changed.held = without_set(alloc, device.held.as_slice(), number)?;
        }
        next.push(changed)?;
    }
    Ok(next)
}
