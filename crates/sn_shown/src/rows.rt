//! Rows by their kinds.

ghost use Rattle.std.specs.Prelude.{◌≡◌};
ghost use Rattle.std.specs.Option.{option_copied};
ghost use Rattle.sn_row_map.specs.RowMaps.{row_in};
ghost use Rattle.sn_rows.specs.declared.key.Key.TheVariants as key;
ghost use Rattle.sn_shown.specs.Rows.{account_in, count_in, generation_in, item_in, owner_in, set_in, strings_in};

use sn_row_map::RowMap;
use sn_rows::{
    AccountRow, GenerationRow, ItemRow, Key, OwnerRow, RowBody, RowStrings, SetRow, Slot, Value,
};
use uuid::Uuid;

/// How many accounts the store's row counts; none before it stands.
pub(crate) fn account_count(rows: &RowMap) -> u64
    ensures { result ≡ count_in (row_in rows.now key.Store) }
{
    match rows.get(&Key::Store) {
        Some(Value::Store(row)) => row.accounts,
        _ => 0,
    }
}

/// The row of an account.
pub(crate) fn account_row(rows: &RowMap, number: u64) -> Option<&AccountRow>
    ensures { option_copied result ≡ account_in (row_in rows.now (key.Account number)) }
{
    match rows.get(&Key::Account(number)) {
        Some(Value::Account(row)) => Some(row.get()),
        _ => None,
    }
}

/// The row of a set of an account.
pub(crate) fn generation_row(rows: &RowMap, account: u64, number: u64) -> Option<&GenerationRow>
    ensures { option_copied result ≡ generation_in (row_in rows.now (key.Generation account number)) }
{
    match rows.get(&Key::Generation(account, number)) {
        Some(Value::Generation(row)) => Some(row),
        _ => None,
    }
}

/// The row of an item on the server.
pub(crate) fn item_row<'r>(rows: &'r RowMap, uuid: &Uuid) -> Option<&'r ItemRow>
    ensures { option_copied result ≡ item_in (row_in rows.now (key.Item uuid.now)) }
{
    match rows.get(&Key::Item(*uuid)) {
        Some(Value::Item(row)) => Some(row),
        _ => None,
    }
}

/// A device's own row.
pub(crate) fn owner_row(rows: &RowMap) -> Option<&OwnerRow>
    ensures { option_copied result ≡ owner_in (row_in rows.now key.Owner) }
{
    match rows.get(&Key::Owner) {
        Some(Value::Owner(row)) => Some(row.get()),
        _ => None,
    }
}

/// The row of a key set of a device.
pub(crate) fn set_row(rows: &RowMap, slot: Slot) -> Option<&SetRow>
    ensures { option_copied result ≡ set_in (row_in rows.now (key.Set slot)) }
{
    match rows.get(&Key::Set(slot)) {
        Some(Value::Set(row)) => Some(row.get()),
        _ => None,
    }
}

/// The two strings of what a device's row has; none of a deletion.
pub(crate) fn strings_of(body: &Option<RowBody>) -> Option<&RowStrings>
    ensures { option_copied result ≡ strings_in body.now }
{
    match body {
        Some(RowBody::Sealed(strings)) => Some(strings),
        _ => None,
    }
}
