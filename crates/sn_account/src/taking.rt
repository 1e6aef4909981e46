//! The items that were dealt with, and one more.

ghost use Rattle.std.specs.Prelude.{◌≡◌, ◌↔◌, ◌≤◌, [], Option, IfNone, IfSome, IsTrue, OnOk};
ghost use Rattle.std.specs.Option.{option_copied};
ghost use Rattle.sn_rows.specs.Table.{Rows, changed, key_of, rows_after};
ghost use Rattle.sn_rows.specs.declared.key.Key.TheVariants as key;
ghost use Rattle.sn_rows.specs.declared.value.Value.{Value};
ghost use Rattle.sn_account.specs.Incoming.{IsAbsent};
ghost use Rattle.sn_account.specs.Lookups.{HasItem};
ghost use Rattle.sn_account.specs.Pages.{most_bytes};
ghost use Rattle.sn_account.specs.States.{IsUnmarked, state_rows};
ghost use Rattle.sn_account.specs.Taking.{IsBounded, after, item_in, progress};
ghost use Rattle.sn_sync.specs.Stamps.{last_stamp};

use crate::state::State;
use crate::taken::{Effect, Taken};
use sn_rows::{Change, ItemRow, Key, Value};
use sn_string::OwnedList;
use sn_sync::Conflict;
use std::alloc::{AllocError, Global};
use uuid::Uuid;

/// Before the first item. Takes no memory.
pub(crate) fn none_taken(alloc: Global, last: u64) -> Taken
    requires { last ≤ last_stamp }
    ensures last { result.last ≡ last }
    ensures changes { result.changes ≡ [] }
    ensures saved { result.saved ≡ [] }
    ensures conflicts { result.conflicts ≡ [] }
    ensures bytes { result.bytes ≡ 0 }
{
    Taken {
        last,
        changes: OwnedList::new(alloc),
        saved: OwnedList::new(alloc),
        conflicts: OwnedList::new(alloc),
        bytes: 0,
    }
}

/// Adds what became of one item.
pub(crate) fn add(taken: &mut Taken, effect: Effect) -> Result<(), AllocError>
    requires looked { taken.old.bytes ≤ most_bytes }
    requires bounded { IsBounded effect }
    ensures { OnOk result ((rows : Rows) → progress rows taken.new ≡ after (progress rows taken.old) effect) }
{
    match effect {
        Effect::Unsaved(conflict) => taken.conflicts.push(conflict),
        Effect::Saved(item) => taken.saved.push(item),
        Effect::Other(server, bytes) => {
            taken.conflicts.push(Conflict::Sync { server })?;
            taken.bytes += bytes;
            Ok(())
        }
        Effect::Accepted(change, item, stamp) => {
            taken.changes.push(change)?;
            taken.saved.push(item)?;
            taken.last = stamp;
            Ok(())
        }
        Effect::PastLast => Ok(()),
    }
}

/// The stored item of a uuid, with the changes so far.
pub(crate) fn stored<'a>(state: &'a State, taken: &'a Taken, uuid: Uuid) -> Option<&'a ItemRow>
    requires { IsUnmarked state.now }
    ensures some { IfSome result (λ row. HasItem (rows_after (state_rows state.now) taken.now.changes) uuid row.now) }
    ensures none { IfNone result (IsAbsent (rows_after (state_rows state.now) taken.now.changes) uuid) }
{
    let mut found = state.item(uuid);
    'changes: for change in taken.changes.as_slice() {
        found = item_after(found, change, uuid);
    }
    found
}

// The item of a row that is found.
fn item_of(found: Option<&Value>) -> Option<&ItemRow>
    ensures { option_copied result ≡ item_in (option_copied found.entry) }
{
    match found {
        Some(Value::Item(row)) => Some(row),
        _ => None,
    }
}

// The item of a uuid after a change, where it was this before.
fn item_after<'a>(found: Option<&'a ItemRow>, change: &'a Change, uuid: Uuid) -> Option<&'a ItemRow>
    ensures { (before : Option Value) → option_copied found.entry ≡ item_in before
        → option_copied result ≡ item_in (changed before (key.Item uuid) change.now) }
{
    if !is_of(change, uuid) {
        return found;
    }
    match change {
        Change::Put(row) => item_of(Some(&row.value)),
        Change::Remove(_) => None,
    }
}

// Whether the change is of the item of this uuid.
fn is_of(change: &Change, uuid: Uuid) -> bool
    ensures { IsTrue result ↔ (key_of change.now ≡ key.Item uuid) }
{
    let key = match change {
        Change::Put(row) => row.key,
        Change::Remove(key) => *key,
    };
    key == Key::Item(uuid)
}
