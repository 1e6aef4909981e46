//! The commits of a change of password: a set is asked for, adopted, or dropped.

ghost use Rattle.std.specs.Prelude.{◌≡◌, ◌++◌, ◌∷◌, [], List, All, IfOk, OnOk};
ghost use Rattle.sn_adopting.specs.Adopting.{RekeysOne, RekeysRow};
ghost use Rattle.sn_device.specs.Changing.{MayAsk, RekeysAll};
ghost use Rattle.sn_device.specs.Listing.{AreItems};
ghost use Rattle.sn_device.specs.Sending.{Numbered};
ghost use Rattle.sn_device.specs.States.{HasSet, HasSets};
ghost use Rattle.sn_device.specs.Steps.{Adopts, Asks, DropsAsked, Forgets};
ghost use Rattle.sn_journal.specs.declared.owner.Owner.TheVariants.{Device as DeviceOwner};
ghost use Rattle.sn_row_map.specs.RowMaps.{row_in};
ghost use Rattle.sn_rows.specs.Table.{Puts, Rows};
ghost use Rattle.sn_rows.specs.declared.change.Change.{Change};
ghost use Rattle.sn_rows.specs.declared.device_rows.OwnerRow.{OwnerRow};
ghost use Rattle.sn_rows.specs.declared.device_rows.SetRow.{SetRow};
ghost use Rattle.sn_rows.specs.declared.key.Slot.TheVariants.{Asked};
ghost use Rattle.sn_sets.specs.Seals.{IsLater};
ghost use Rattle.sn_sets.specs.declared.sets.Sets.{Sets};
ghost use Rattle.sn_sync.specs.Members.{IsSessionToken};
ghost use Rattle.sn_table.specs.Batches.{IsOf};
ghost use Rattle.sn_table.specs.Logs.{HasKinds};

use sn_items::Words;
use sn_local::{one_change, put_local, put_owner, put_set, renewed_owner};
use sn_rekey::rekey_item;
use sn_row_map::RowMap;
use sn_rows::{Change, Key, LocalItem, OwnerRow, RowKind, Slot, Value};
use sn_sets::Sets;
use sn_string::{KeySet, OwnedList, Text};
use std::alloc::{AllocError, Global};

/// The changes that keep a set as asked for.
pub fn asking(alloc: Global, set: &KeySet) -> Result<Vec<Change>, AllocError>
    ensures asks { IfOk result (λ changes. (rows : Rows) (owner : OwnerRow) (sets : Sets) → HasSets rows owner sets → MayAsk rows sets
        → set.now.params.identifier ≡ owner.identifier → Asks rows set.now changes.items) }
    ensures owned { IfOk result (λ changes. All (IsOf DeviceOwner) changes.items) }
{
    let change = put_set(alloc, Slot::Asked, set)?;
    one_change(alloc, change)
}

/// The changes that drop the set that is asked for.
pub fn forgetting(alloc: Global) -> Result<Vec<Change>, AllocError>
    ensures forgets { IfOk result (λ changes. (rows : Rows) (asked : SetRow) → HasSet rows Asked asked → Forgets rows changes.items) }
    ensures owned { IfOk result (λ changes. All (IsOf DeviceOwner) changes.items) }
{
    one_change(alloc, Change::Remove(Key::Set(Slot::Asked)))
}

/// The changes that adopt a set, with its session token.
pub fn adopting(
    alloc: Global,
    rows: &RowMap,
    owner: &OwnerRow,
    sets: &Sets,
    words: &mut Words,
    set: &KeySet,
    token: Text,
) -> Result<Vec<Change>, AllocError>
    requires kinds { HasKinds rows.now }
    requires holds { HasSets (row_in rows.now) owner.now sets.now }
    requires named { set.now.params.identifier ≡ owner.now.identifier }
    requires token { IsSessionToken token }
    ensures adopts { IfOk result (λ changes. Adopts (row_in rows.now) words.old set.now token changes.items words.new) }
    ensures owned { IfOk result (λ changes. All (IsOf DeviceOwner) changes.items) }
    ensures words { IsLater words.old words.new }
{
    let mut changes = rekeyed(alloc, rows, sets, words, set)?;
    let renewed = renewed_owner(alloc, owner, token)?;
    let counted = put_owner(alloc, renewed)?;
    let present = put_set(alloc, Slot::Present, set)?;
    let older = put_set(alloc, Slot::Older, &sets.present)?;
    changes.push(counted)?;
    changes.push(present)?;
    changes.push(older)?;
    drop_asked(sets, &mut changes)?;
    Ok(changes.into_vec())
}

// Adds the change that drops the set that is asked for, where there is one.
fn drop_asked(sets: &Sets, changes: &mut OwnedList<Change>) -> Result<(), AllocError>
    ensures { OnOk result ((more : List Change) × DropsAsked sets.now.asked more × (changes.new ≡ changes.old ++ more)) }
{
    match &sets.asked {
        Some(_) => changes.push(Change::Remove(Key::Set(Slot::Asked))),
        None => Ok(()),
    }
}

// The changes of the items of which a version opens: it is sealed again under a set.
fn rekeyed(
    alloc: Global,
    rows: &RowMap,
    sets: &Sets,
    words: &mut Words,
    set: &KeySet,
) -> Result<OwnedList<Change>, AllocError>
    requires kinds { HasKinds rows.now }
    ensures rekeys { IfOk result (λ changes. (items : List Numbered) × AreItems (row_in rows.now) items
        × RekeysAll sets.now set.now words.old items changes words.new) }
    ensures owned { IfOk result (λ changes. All (IsOf DeviceOwner) changes) }
    ensures words { IsLater words.old words.new }
{
    let mut changes = OwnedList::new(alloc);
    let mut found = rows.first(RowKind::Local);
    'items: while let Some((key, value)) = found {
        rekey_row(alloc, sets, words, set, key, value, &mut changes)?;
        found = rows.next_after(key);
    }
    Ok(changes)
}

// Adds the change of a row's item, if it is one of an item and a version of it opens.
fn rekey_row(
    alloc: Global,
    sets: &Sets,
    words: &mut Words,
    set: &KeySet,
    key: &Key,
    value: &Value,
    changes: &mut OwnedList<Change>,
) -> Result<(), AllocError>
    ensures added { OnOk result (RekeysRow sets.now set.now words.old key.now value.now changes.old changes.new words.new) }
    ensures words { IsLater words.old words.new }
{
    match (key, value) {
        (Key::Local(number), Value::Local(item)) => {
            rekey_local(alloc, sets, words, set, *number, item.get(), changes)
        }
        _ => Ok(()),
    }
}

// The same of an item.
fn rekey_local(
    alloc: Global,
    sets: &Sets,
    words: &mut Words,
    set: &KeySet,
    number: u64,
    item: &LocalItem,
    changes: &mut OwnedList<Change>,
) -> Result<(), AllocError>
    ensures added { OnOk result (RekeysOne sets.now set.now words.old number item.now changes.old changes.new words.new) }
    ensures words { IsLater words.old words.new }
{
    let found = rekey_item(alloc, words, item, sets, set)?;
    match found {
        Some(again) => push_local(alloc, number, again, changes),
        None => Ok(()),
    }
}

// Adds the change that puts the item of a local number.
fn push_local(
    alloc: Global,
    number: u64,
    item: LocalItem,
    changes: &mut OwnedList<Change>,
) -> Result<(), AllocError>
    ensures { OnOk result ((change : Change) × Puts change (Key.Local number) (Value.Local item) × (changes.new ≡ changes.old ++ change ∷ [])) }
{
    let change = put_local(alloc, number, item)?;
    changes.push(change)
}
