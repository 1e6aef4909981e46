//! The changes of commits, row by row.

ghost use Rattle.std.specs.Prelude.{◌≡◌, ◌∷◌, [], None, Some, IfOk, Ok};
ghost use Rattle.sn_rows.specs.Bounds.{HasLength};
ghost use Rattle.sn_rows.specs.Table.{Puts};
ghost use Rattle.sn_rows.specs.declared.key.Key.TheVariants as key;
ghost use Rattle.sn_rows.specs.declared.value.Value.TheVariants as value;
ghost use Rattle.sn_device.specs.Sending.{PutsColumns};
ghost use Rattle.sn_device.specs.States.{columns, owner_columns};
ghost use Rattle.sn_device.specs.Steps.{PutsOwner, PutsSet, drafted, with_next, with_token};
ghost use Rattle.sn_device.specs.Taking.{new_columns};
ghost use Rattle.sn_rows.specs.declared.device_rows.OwnerRow.{OwnerRow};
ghost use Rattle.sn_sync.specs.Members.{IsSessionToken};

use crate::state::owner;
use sn_rows::{
    Boxed, Change, Key, LocalItem, OwnerRow, Row, RowBody, RowStrings, SetRow, Slot, Value,
};
use sn_string::{KeySet, Text, TryClone};
use std::alloc::{AllocError, Global};
use uuid::Uuid;

/// The change that puts the device's own row.
pub fn put_owner(alloc: Global, owner: OwnerRow) -> Result<Change, AllocError>
    ensures { IfOk result (λ change. Puts change key.Owner (value.Owner owner)) }
{
    let owner = Boxed::of(alloc, owner)?;
    Ok(Change::Put(Row {
        key: Key::Owner,
        value: Value::Owner(owner),
    }))
}

/// The change that puts a key set into a slot.
pub fn put_set(alloc: Global, slot: Slot, set: &KeySet) -> Result<Change, AllocError>
    ensures { IfOk result (λ change. PutsSet change slot set.now.params.identifier set.now) }
{
    let nonce = set.params.pw_nonce.try_clone(alloc)?;
    let Some(keys) = SetRow::new(set.params.pw_cost, nonce, set.pw, set.mk, set.ak) else {
        unreachable!();
    };
    let keys = Boxed::of(alloc, keys)?;
    Ok(Change::Put(Row {
        key: Key::Set(slot),
        value: Value::Set(keys),
    }))
}

/// The change that puts the item of a local number.
pub fn put_local(alloc: Global, number: u64, item: LocalItem) -> Result<Change, AllocError>
    ensures { IfOk result (λ change. Puts change (key.Local number) (value.Local item)) }
{
    let item = Boxed::of(alloc, item)?;
    Ok(Change::Put(Row {
        key: Key::Local(number),
        value: Value::Local(item),
    }))
}

/// The device's own row with another next local number.
pub fn put_next(alloc: Global, owner: &OwnerRow, next: u64) -> Result<Change, AllocError>
    ensures { IfOk result (λ change. PutsOwner change (with_next next (owner_columns owner.now))) }
{
    let mut counted = owner.try_clone(alloc)?;
    counted.next = next;
    put_owner(alloc, counted)
}

/// A new item of this uuid and type, with a draft and nothing that it stands on.
pub fn put_new(
    alloc: Global,
    number: u64,
    uuid: Uuid,
    kind: &str,
    strings: RowStrings,
) -> Result<Change, AllocError>
    requires { HasLength 1 255 kind.now }
    ensures { IfOk result (λ change. PutsColumns change number (new_columns uuid kind.now strings)) }
{
    let kind = Text::of(alloc, kind)?;
    let latest = Some(RowBody::Sealed(strings));
    let Some(item) = LocalItem::new(uuid, kind, None, false, None, latest, None) else {
        unreachable!()
    };
    put_local(alloc, number, item)
}

/// The item with another draft. What was sent of it stays.
pub fn put_draft(
    alloc: Global,
    number: u64,
    item: &LocalItem,
    draft: RowBody,
) -> Result<Change, AllocError>
    ensures { IfOk result (λ change. PutsColumns change number (drafted (Some draft) (columns item.now))) }
{
    let kind = item.kind.try_clone(alloc)?;
    let body = item.body.try_clone(alloc)?;
    let posted = item.posted.try_clone(alloc)?;
    let again = LocalItem {
        uuid: item.uuid,
        kind,
        base: item.base,
        stale: item.stale,
        body,
        latest: Some(draft),
        posted,
    };
    put_local(alloc, number, again)
}

/// One change.
pub fn one_change(alloc: Global, change: Change) -> Result<Vec<Change>, AllocError>
    ensures { IfOk result (λ changes. changes.items ≡ change ∷ []) }
{
    let mut changes = Vec::new(alloc);
    changes.push(change)?;
    Ok(changes)
}

/// Two changes, in order.
pub fn two_changes(alloc: Global, first: Change, second: Change) -> Result<Vec<Change>, AllocError>
    ensures { IfOk result (λ changes. changes.items ≡ first ∷ second ∷ []) }
{
    let mut changes = one_change(alloc, first)?;
    changes.push(second)?;
    Ok(changes)
}

/// An account's row with another session token.
pub fn renewed_owner(alloc: Global, owner: &OwnerRow, token: Text) -> Result<OwnerRow, AllocError>
    requires { IsSessionToken token }
    ensures { IfOk result (λ row. owner_columns row ≡ with_token token (owner_columns owner.now)) }
{
    let identifier = owner.identifier.try_clone(alloc)?;
    let sync_token = owner.sync_token.try_clone(alloc)?;
    let cursor_token = owner.cursor_token.try_clone(alloc)?;
    let Some(row) = OwnerRow::new(
        identifier,
        owner.account,
        token,
        sync_token,
        cursor_token,
        owner.next,
    ) else {
        unreachable!();
    };
    Ok(row)
}
