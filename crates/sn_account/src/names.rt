//! Under which identifiers accounts are looked for.

ghost use Rattle.std.specs.Prelude.{◌≡◌, ◌↔◌, ◌++◌, ◌∷◌, [], All, IfOk, IsTrue, OnOk};
ghost use Rattle.sn_account.specs.Names.{KeepsListed, Lists, ListsChange, ListsRow, ListsRows, numbers_at};
ghost use Rattle.sn_row_map.specs.RowMaps.{row_in};
ghost use Rattle.sn_rows.specs.declared.key.Key.TheVariants as key;
ghost use Rattle.sn_rows.specs.declared.server_rows.AccountRow.{AccountRow};
ghost use Rattle.sn_rows.specs.declared.value.Value.TheVariants as value;

use sn_row_map::RowMap;
use sn_rows::{Change, Key, RowKind, Value};
use sn_string::OwnedList;
use std::alloc::{AllocError, Global};
use std::collections::BTreeMap;

/// The numbers of accounts by their identifiers. At an identifier may stand accounts that have it no more, or do
/// not have it yet.
#[derive(Drop)]
pub(crate) struct Names {
    alloc: Global,
    entries: BTreeMap<String, OwnedList<u64>>,
}

impl Names {
    /// Those of no accounts. Takes no memory.
    pub(crate) fn new(alloc: Global) -> Names {
        Names {
            alloc,
            entries: BTreeMap::new(alloc),
        }
    }

    /// Those of the accounts of rows.
    pub(crate) fn of_rows(alloc: Global, rows: &RowMap) -> Result<Names, AllocError>
        ensures { IfOk result (λ names. ListsRows names rows.now) }
    {
        let mut names = Names::new(alloc);
        let mut found = rows.first(RowKind::Account);
        'accounts: while let Some((key, value)) = found {
            names.add_row(key, value)?;
            found = rows.next_after(key);
        }
        Ok(names)
    }

    /// The numbers that stand at an identifier. Takes no memory.
    pub(crate) fn numbers(&self, identifier: &str) -> &[u64]
        ensures { result.now ≡ numbers_at self.now.entries identifier.now }
    {
        match self.entries.get(identifier) {
            Some(numbers) => numbers.as_slice(),
            None => &[],
        }
    }

    /// Adds the accounts that changes put. After an error some may be added.
    pub(crate) fn add_all(&mut self, changes: &[Change]) -> Result<(), AllocError>
        ensures listed { OnOk result (All (ListsChange self.new) changes.now) }
        ensures kept { KeepsListed self.old self.new }
    {
        'changes: for change in changes {
            self.add_change(change)?;
        }
        Ok(())
    }

    // Adds the account that a change puts.
    fn add_change(&mut self, change: &Change) -> Result<(), AllocError>
        ensures listed { OnOk result (ListsChange self.new change.now) }
        ensures kept { KeepsListed self.old self.new }
    {
        let Change::Put(row) = change else {
            return Ok(());
        };
        self.add_row(&row.key, &row.value)
    }

    // Adds the account of a row, if it is one of an account.
    fn add_row(&mut self, key: &Key, value: &Value) -> Result<(), AllocError>
        ensures listed { OnOk result (ListsRow self.new key.now value.now) }
        ensures kept { KeepsListed self.old self.new }
    {
        match (key, value) {
            (Key::Account(number), Value::Account(account)) => {
                self.add(account.get().identifier.as_str(), *number)
            }
            _ => Ok(()),
        }
    }

    // Adds a number at an identifier.
    fn add(&mut self, identifier: &str, number: u64) -> Result<(), AllocError>
        ensures listed { OnOk result (Lists self.new identifier.now number) }
        ensures kept { KeepsListed self.old self.new }
    {
        if self.numbers(identifier).contains(&number) {
            return Ok(());
        }
        let numbers = with_number(self.alloc, self.numbers(identifier), number)?;
        let key = identifier.to_string(self.alloc)?;
        match self.entries.insert(key, numbers) {
            Ok(_) => Ok(()),
            Err(_) => Err(AllocError),
        }
    }

    /// Takes the accounts out that changes put and that the rows don't have so. Takes no memory.
    pub(crate) fn remove_all(&mut self, rows: &RowMap, changes: &[Change])
        ensures { ListsRows self.old rows.now → ListsRows self.new rows.now }
    {
        'changes: for change in changes {
            self.remove_change(rows, change);
        }
    }

    // Takes the account out that a change puts, if the rows don't have it so.
    fn remove_change(&mut self, rows: &RowMap, change: &Change)
        ensures { ListsRows self.old rows.now → ListsRows self.new rows.now }
    {
        let Change::Put(row) = change else {
            return;
        };
        if let (Key::Account(number), Value::Account(account)) = (&row.key, &row.value) {
            self.remove(rows, account.get().identifier.as_str(), *number);
        }
    }

    // Takes an identifier out at which this number stands alone, if the rows have no such account.
    fn remove(&mut self, rows: &RowMap, identifier: &str, number: u64)
        ensures { ListsRows self.old rows.now → ListsRows self.new rows.now }
    {
        if has_name(rows, number, identifier) || !is_alone(self.numbers(identifier), number) {
            return;
        }
        self.entries.remove(identifier);
    }
}

// The numbers, and one more.
fn with_number(alloc: Global, numbers: &[u64], number: u64) -> Result<OwnedList<u64>, AllocError>
    ensures { IfOk result (λ more. more ≡ numbers.now ++ number ∷ []) }
{
    let mut more = Vec::new(alloc);
    more.extend_from_slice(numbers)?;
    more.push(number)?;
    Ok(OwnedList::of_vec(more))
}

// Whether the number is the only one.
fn is_alone(numbers: &[u64], number: u64) -> bool
    ensures { IsTrue result → numbers.now ≡ number ∷ [] }
{
    numbers.len() == 1 && numbers[0] == number
}

// Whether the rows have an account of this number with the identifier.
fn has_name(rows: &RowMap, number: u64, identifier: &str) -> bool
    ensures { IsTrue result ↔ ((a : AccountRow) × (row_in rows.now (key.Account number) ≡ Some (value.Account a)) × (a.identifier ≡ identifier.now)) }
{
    match rows.get(&Key::Account(number)) {
        Some(Value::Account(row)) => row.get().identifier.as_str() == identifier,
        _ => false,
    }
}
