// Who is who in an ideal state.

ghost use Rattle.std.specs.Prelude.{◌≡◌, ◌==◌, Option, Some, None, find, nat_lt};
ghost use Rattle.std.specs.List.{list_any};
ghost use Rattle.std.specs.Option.{option_copied};
ghost use Rattle.sn_laws.specs.Lookups.{is_account, is_device, is_draft, is_of, account_for, account_of, device_named, draft_at, last_of, has_item, greatest, held_by};

use crate::ideal::{Account, Device, Draft, Ideal, Version};
use sn_string::Text;
use uuid::Uuid;

/// Whether the account has this identifier.
pub fn is_named(account: &Account, identifier: &Text) -> bool
    ensures { result ≡ is_account identifier.now account.now }
{
    account.identifier.as_str() == identifier.as_str()
}

/// The account with this identifier.
pub fn account_named<'a>(accounts: &'a [Account], identifier: &Text) -> Option<&'a Account>
    ensures { option_copied result ≡ find (is_account identifier.now) accounts.now }
{
    accounts.iter().find(|a| is_named(a, identifier))
}

/// Whether an account has this identifier.
pub fn is_taken(accounts: &[Account], identifier: &Text) -> bool
    ensures { result ≡ list_any (is_account identifier.now) accounts.now }
{
    accounts.iter().any(|a| is_named(a, identifier))
}

/// Whether the account is that of another one's identifier.
pub fn is_same_account(account: &Account, other: &Account) -> bool
    ensures { result ≡ is_account other.now.identifier account.now }
{
    is_named(account, &other.identifier)
}

/// Whether the device has this name.
pub fn is_called(device: &Device, name: &Text) -> bool
    ensures { result ≡ is_device name.now device.now }
{
    device.name.as_str() == name.as_str()
}

/// The device of this name, if it has an account.
pub fn device_named<'a>(devices: &'a [Device], name: &Text) -> Option<&'a Device>
    ensures { option_copied result ≡ find (is_device name.now) devices.now }
{
    devices.iter().find(|d| is_called(d, name))
}

/// Whether the draft is that of this item on this device.
pub fn is_at(draft: &Draft, device: &Text, uuid: &Uuid) -> bool
    ensures { result ≡ is_draft device.now uuid.now draft.now }
{
    draft.device.as_str() == device.as_str() && draft.uuid == *uuid
}

/// A device's draft of an item.
pub fn draft_at<'a>(drafts: &'a [Draft], device: &Text, uuid: &Uuid) -> Option<&'a Draft>
    ensures { option_copied result ≡ find (is_draft device.now uuid.now) drafts.now }
{
    drafts.iter().find(|d| is_at(d, device, uuid))
}

/// The account of a device.
pub fn account_of<'a>(accounts: &'a [Account], device: Option<&Device>) -> Option<&'a Account>
    ensures { option_copied result ≡ account_for accounts.now (option_copied device.entry) }
{
    match device {
        None => None,
        Some(device) => account_named(accounts, &device.account),
    }
}

/// The device of this name in a state.
pub fn device_of<'a>(state: &'a Ideal, name: &Text) -> Option<&'a Device>
    ensures { option_copied result ≡ device_named state.now name.now }
{
    device_named(state.devices.as_slice(), name)
}

/// The account of the device of this name in a state.
pub fn owner<'a>(state: &'a Ideal, device: &Text) -> Option<&'a Account>
    ensures { option_copied result ≡ account_of state.now device.now }
{
    account_of(state.accounts.as_slice(), device_of(state, device))
}

/// A device's draft of an item in a state.
pub fn draft_of<'a>(state: &'a Ideal, device: &Text, uuid: &Uuid) -> Option<&'a Draft>
    ensures { option_copied result ≡ draft_at state.now device.now uuid.now }
{
    draft_at(state.drafts.as_slice(), device, uuid)
}

fn is_version_of(version: &Version, uuid: &Uuid) -> bool
    ensures { result ≡ is_of uuid.now version.now }
{
    version.uuid == *uuid
}

/// An item's last version.
pub fn last_version<'a>(versions: &'a [Version], uuid: &Uuid) -> Option<&'a Version>
    ensures { option_copied result ≡ last_of uuid.now versions.now }
{
    versions.iter().rev().find(|v| is_version_of(v, uuid))
}

fn holds(versions: &[Version], uuid: &Uuid) -> bool
    ensures { result ≡ list_any (is_of uuid.now) versions.now }
{
    versions.iter().any(|v| is_version_of(v, uuid))
}

/// Whether the account has versions of the item.
pub fn has_version(account: &Account, uuid: &Uuid) -> bool
    ensures { result ≡ has_item uuid.now account.now }
{
    holds(account.versions.as_slice(), uuid)
}

/// Whether an account has versions of the item.
pub fn is_held(accounts: &[Account], uuid: &Uuid) -> bool
    ensures { result ≡ list_any (has_item uuid.now) accounts.now }
{
    accounts.iter().any(|a| has_version(a, uuid))
}

/// The account that has versions of the item.
pub fn account_with<'a>(accounts: &'a [Account], uuid: &Uuid) -> Option<&'a Account>
    ensures { option_copied result ≡ find (has_item uuid.now) accounts.now }
{
    accounts.iter().find(|a| has_version(a, uuid))
}

/// Whether a device holds the set of this number.
pub fn is_holding(device: Option<&Device>, number: u64) -> bool
    ensures { result ≡ list_any (λ m. m == number) (held_by (option_copied device.entry)) }
{
    match device {
        Some(device) => device.held.as_slice().iter().any(|&held| held == number),
        None => false,
    }
}

/// Whether a device holds a set above that of this number.
pub fn is_holding_above(device: Option<&Device>, number: u64) -> bool
    ensures { result ≡ list_any (λ m. nat_lt number m) (held_by (option_copied device.entry)) }
{
    match device {
        Some(device) => device.held.as_slice().iter().any(|&held| number < held),
        None => false,
    }
}

/// The greatest number, 0 where there is none.
pub fn greatest_of(numbers: &[u64]) -> u64
    ensures { result ≡ greatest 0 numbers.now }
{
    let mut most = 0;
    for &number in numbers {
        if most < number {
            most = number;
        }
    }
    most
}

/// The greatest number of the sets that a device holds.
pub fn greatest_held(device: Option<&Device>) -> u64
    ensures { result ≡ greatest 0 (held_by (option_copied device.entry)) }
{
    match device {
        Some(device) => greatest_of(device.held.as_slice()),
        None => 0,
    }
}
