//! Whether the rows of a device are sound, and else the first kind of which some aren't.

ghost use Rattle.std.specs.Prelude.{◌≡◌, ◌≢◌, ◌⊎◌, ◌↔◌, Some, IfOk, IsSome, IsTrue, true};
ghost use Rattle.sn_device.specs.States.{AreOfDevice, AreSoundLocals, AreSoundSets, HasNoAccount, HasOwner, IsFirstUnsound, IsSoundItem, NamesVersion, columns};
ghost use Rattle.sn_soundness.specs.Unsound.{HasOwnStrings, HasSoundParts, IsApart, IsSoundBeside, IsSoundRow, Names, SeesMore, SeesRow};
ghost use Rattle.sn_row_map.specs.RowMaps.{row_in};
ghost use Rattle.sn_rows.specs.declared.body.RowBody.TheVariants.{Deleted};
ghost use Rattle.sn_rows.specs.declared.device_rows.OwnerRow.{OwnerRow};
ghost use Rattle.sn_table.specs.Logs.{HasKinds};

use sn_conflict::names_item;
use sn_local::{owner_in, set_in};
use sn_row_map::RowMap;
use sn_rows::{Key, LocalItem, OwnerRow, RowBody, RowKind, RowStrings, Slot, Value};
use std::alloc::{AllocError, Global};
use std::collections::BTreeMap;
use uuid::Uuid;

/// The first kind, in the order of their numbers, of which some row isn't sound; none where all are sound.
pub fn first_unsound(alloc: Global, rows: &RowMap) -> Result<Option<RowKind>, AllocError>
    requires device { AreOfDevice (row_in rows.now) }
    ensures { IfOk result (IsFirstUnsound (row_in rows.now)) }
{
    let Some(owner) = owner_in(rows) else {
        return Ok(without_owner(rows));
    };
    if !are_sets_sound(rows) {
        return Ok(Some(RowKind::Set));
    }
    if !are_locals_sound(alloc, rows, owner)? {
        return Ok(Some(RowKind::Local));
    }
    Ok(None)
}

// Without an account, no row may stand.
fn without_owner(rows: &RowMap) -> Option<RowKind>
    requires device { AreOfDevice (row_in rows.now) }
    requires none { HasNoAccount (row_in rows.now) }
    ensures { IsFirstUnsound (row_in rows.now) result }
{
    if rows.first(RowKind::Set).is_some() || rows.first(RowKind::Local).is_some() {
        return Some(RowKind::Owner);
    }
    None
}

// Whether a present set stands, and an asked one only without an older one.
fn are_sets_sound(rows: &RowMap) -> bool
    requires kinds { HasKinds rows.now }
    requires owned { (owner : OwnerRow) × HasOwner (row_in rows.now) owner }
    ensures { IsTrue result ↔ AreSoundSets (row_in rows.now) }
{
    if set_in(rows, Slot::Present).is_none() {
        return false;
    }
    set_in(rows, Slot::Asked).is_none() || set_in(rows, Slot::Older).is_none()
}

// Whether the items are sound, with numbers below the next one, and with uuids that differ.
fn are_locals_sound(alloc: Global, rows: &RowMap, owner: &OwnerRow) -> Result<bool, AllocError>
    requires kinds { HasKinds rows.now }
    requires owned { HasOwner (row_in rows.now) owner.now }
    ensures { IfOk result (λ sound. IsTrue sound ↔ AreSoundLocals (row_in rows.now)) }
{
    let mut seen = BTreeMap::new(alloc);
    let mut found = rows.first(RowKind::Local);
    'items: while let Some((key, value)) = found {
        if !is_sound_row(alloc, &mut seen, owner.next, key, value)? {
            return Ok(false);
        }
        found = rows.next_after(key);
    }
    Ok(true)
}

// Whether the item of a row is sound beside those that were seen. Then it is seen too.
fn is_sound_row(
    alloc: Global,
    seen: &mut BTreeMap<Uuid, u64>,
    next: u64,
    key: &Key,
    value: &Value,
) -> Result<bool, AllocError>
    ensures sound { IfOk result (λ sound. IsTrue sound ↔ IsSoundRow seen.old next key.now value.now) }
    ensures sees { IfOk result (λ sound. IsTrue sound → SeesRow seen.old seen.new key.now value.now) }
{
    match (key, value) {
        (Key::Local(number), Value::Local(item)) => {
            is_sound_beside(alloc, seen, next, *number, item.get())
        }
        _ => Ok(true),
    }
}

// The same of an item.
fn is_sound_beside(
    alloc: Global,
    seen: &mut BTreeMap<Uuid, u64>,
    next: u64,
    number: u64,
    item: &LocalItem,
) -> Result<bool, AllocError>
    ensures sound { IfOk result (λ sound. IsTrue sound ↔ IsSoundBeside seen.old next number item.now) }
    ensures sees { IfOk result (λ sound. IsTrue sound → SeesMore seen.old seen.new item.now.uuid number) }
{
    if number >= next {
        return Ok(false);
    }
    if !is_sound_item(alloc, item)? {
        return Ok(false);
    }
    is_apart(seen, item.uuid, number)
}

// Whether no item of another number has the uuid. Then this one is seen.
fn is_apart(seen: &mut BTreeMap<Uuid, u64>, uuid: Uuid, number: u64) -> Result<bool, AllocError>
    ensures apart { IfOk result (λ apart. IsTrue apart ↔ IsApart seen.old uuid number) }
    ensures sees { IfOk result (λ apart. IsTrue apart → SeesMore seen.old seen.new uuid number) }
{
    match seen.insert(uuid, number) {
        Ok(Some(other)) => Ok(other == number),
        Ok(None) => Ok(true),
        Err(_) => Err(AllocError),
    }
}

// ---- one item

// Whether the parts of an item go together, and its strings name it.
fn is_sound_item(alloc: Global, item: &LocalItem) -> Result<bool, AllocError>
    ensures { IfOk result (λ sound. IsTrue sound ↔ IsSoundItem (columns item.now)) }
{
    if !has_sound_parts(item) {
        return Ok(false);
    }
    has_own_strings(alloc, item)
}

fn has_sound_parts(item: &LocalItem) -> bool
    ensures { IsTrue result ↔ HasSoundParts (columns item.now) }
{
    is_based(item) && is_left(item) && is_draft_of(item)
}

// The version that the item stands on has a stamp and strings, or neither.
fn is_based(item: &LocalItem) -> bool
    ensures { IsTrue result ↔ ((IsSome item.now.base ↔ IsSome item.now.body) × (item.now.body ≢ Some Deleted)) }
{
    match &item.body {
        Some(RowBody::Sealed(_)) => item.base.is_some(),
        Some(RowBody::Deleted) => false,
        None => item.base.is_none(),
    }
}

// An item has a version or a draft, and only a version is sent again.
fn is_left(item: &LocalItem) -> bool
    ensures { IsTrue result ↔ ((IsSome item.now.base ⊎ IsSome item.now.latest) × (item.now.stale ≡ true → IsSome item.now.base)) }
{
    item.base.is_some() || (item.latest.is_some() && !item.stale)
}

// What was sent is of a draft.
fn is_draft_of(item: &LocalItem) -> bool
    ensures { IsTrue result ↔ (IsSome item.now.posted → IsSome item.now.latest) }
{
    item.posted.is_none() || item.latest.is_some()
}

fn has_own_strings(alloc: Global, item: &LocalItem) -> Result<bool, AllocError>
    ensures { IfOk result (λ own. IsTrue own ↔ HasOwnStrings (columns item.now)) }
{
    if !names_version(alloc, item.uuid, &item.body)? {
        return Ok(false);
    }
    if !names_version(alloc, item.uuid, &item.latest)? {
        return Ok(false);
    }
    names_version(alloc, item.uuid, &item.posted)
}

fn names_version(alloc: Global, uuid: Uuid, version: &Option<RowBody>) -> Result<bool, AllocError>
    ensures { IfOk result (λ named. IsTrue named ↔ NamesVersion uuid version.now) }
{
    match version {
        Some(body) => names_body(alloc, uuid, body),
        None => Ok(true),
    }
}

fn names_body(alloc: Global, uuid: Uuid, body: &RowBody) -> Result<bool, AllocError>
    ensures { IfOk result (λ named. IsTrue named ↔ NamesVersion uuid (Some body.now)) }
{
    match body {
        RowBody::Sealed(strings) => names_both(alloc, uuid, strings),
        RowBody::Deleted => Ok(true),
    }
}

fn names_both(alloc: Global, uuid: Uuid, strings: &RowStrings) -> Result<bool, AllocError>
    ensures { IfOk result (λ named. IsTrue named ↔ (Names uuid strings.now.content × Names uuid strings.now.enc)) }
{
    if !names_item(alloc, uuid, strings.content.as_str())? {
        return Ok(false);
    }
    names_item(alloc, uuid, strings.enc.as_str())
}
