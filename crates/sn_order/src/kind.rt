//! What a batch of a device is.

ghost use Rattle.std.specs.Prelude.{◌≡◌};
ghost use Rattle.std.specs.List.{list_any};
ghost use Rattle.sn_order.specs.Kinds.{drops_set, kind_of, puts_owner, puts_set};

use sn_rows::{Change, Key, Slot};

/// What a batch of a device is, by its changes.
#[derive(Clone, Copy, Debug, PartialEq, Eq)]
pub enum Kind {
    /// A set is kept as asked for.
    Asks,
    /// A set is the present one: the device begins, or adopts it.
    Joins,
    /// The set that was asked for goes.
    Forgets,
    /// The device's own row changes: another token, another local number, an answer that is applied.
    Counts,
    /// Rows of items alone.
    Drafts,
}

/// What these changes are.
pub fn kind_of(changes: &[Change]) -> Kind
    ensures { result ≡ kind_of changes.now }
{
    if any_puts_set(Slot::Asked, changes) {
        Kind::Asks
    } else if any_puts_set(Slot::Present, changes) {
        Kind::Joins
    } else if any_drops_set(Slot::Asked, changes) {
        Kind::Forgets
    } else if any_puts_owner(changes) {
        Kind::Counts
    } else {
        Kind::Drafts
    }
}

// One of the changes puts a set into the slot.
fn any_puts_set(slot: Slot, changes: &[Change]) -> bool
    ensures { result ≡ list_any (puts_set slot) changes.now }
{
    changes.iter().any(|change| puts_set(slot, change))
}

// One of them takes the set of the slot away.
fn any_drops_set(slot: Slot, changes: &[Change]) -> bool
    ensures { result ≡ list_any (drops_set slot) changes.now }
{
    changes.iter().any(|change| drops_set(slot, change))
}

// One of them puts the device's own row.
fn any_puts_owner(changes: &[Change]) -> bool
    ensures { result ≡ list_any puts_owner changes.now }
{
    changes.iter().any(puts_owner)
}

// The change puts a set into the slot.
fn puts_set(slot: Slot, change: &Change) -> bool
    ensures { result ≡ puts_set slot change.now }
{
    match change {
        Change::Put(row) => row.key == Key::Set(slot),
        Change::Remove(_) => false,
    }
}

// It takes the set of the slot away.
fn drops_set(slot: Slot, change: &Change) -> bool
    ensures { result ≡ drops_set slot change.now }
{
    match change {
        Change::Put(_) => false,
        Change::Remove(at) => *at == Key::Set(slot),
    }
}

// It puts the device's own row.
fn puts_owner(change: &Change) -> bool
    ensures { result ≡ puts_owner change.now }
{
    match change {
        Change::Put(row) => row.key == Key::Owner,
        Change::Remove(_) => false,
    }
}
