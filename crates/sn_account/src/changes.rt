//! Changes that put one row.

ghost use Rattle.std.specs.Prelude.{◌≡◌, ◌∷◌, [], IfOk};
ghost use Rattle.sn_rows.specs.declared.key.Key.TheVariants as key;
ghost use Rattle.sn_rows.specs.declared.value.Value.TheVariants as value;
ghost use Rattle.sn_rows.specs.Table.{Puts};

use sn_rows::{AccountRow, Boxed, Change, GenerationRow, ItemRow, Key, Row, StoreRow, Value};
use sn_string::OwnedList;
use std::alloc::{AllocError, Global};
use uuid::Uuid;

pub(crate) fn put_store(row: StoreRow) -> Change
    ensures { Puts result key.Store (value.Store row) }
{
    Change::Put(Row {
        key: Key::Store,
        value: Value::Store(row),
    })
}

pub(crate) fn put_account(alloc: Global, number: u64, row: AccountRow) -> Result<Change, AllocError>
    ensures { IfOk result (λ change. Puts change (key.Account number) (value.Account row)) }
{
    let value = Value::Account(Boxed::of(alloc, row)?);
    Ok(Change::Put(Row {
        key: Key::Account(number),
        value,
    }))
}

pub(crate) fn put_generation(number: u64, generation: u64, row: GenerationRow) -> Change
    ensures { Puts result (key.Generation number generation) (value.Generation row) }
{
    Change::Put(Row {
        key: Key::Generation(number, generation),
        value: Value::Generation(row),
    })
}

pub(crate) fn put_item(uuid: Uuid, row: ItemRow) -> Change
    ensures { Puts result (key.Item uuid) (value.Item row) }
{
    Change::Put(Row {
        key: Key::Item(uuid),
        value: Value::Item(row),
    })
}

// Two changes, in order.
pub(crate) fn two_changes(
    alloc: Global,
    first: Change,
    second: Change,
) -> Result<OwnedList<Change>, AllocError>
    ensures { IfOk result (λ changes. changes ≡ first ∷ second ∷ []) }
{
    let mut changes = OwnedList::new(alloc);
    changes.push(first)?;
    changes.push(second)?;
    Ok(changes)
}
