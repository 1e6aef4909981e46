//! The numbers of accounts and of their sets, from a server's rows.

ghost use Rattle.std.specs.Prelude.{◌≡◌, ◌+◌, ℕ, List, Some, IfOk, OnOk, slice_get};
ghost use Rattle.std.specs.BTreeMap.{get_by_text};
ghost use Rattle.std.specs.Option.{option_copied};
ghost use Rattle.sn_laws.specs.declared.ideal.Account.{Account};
ghost use Rattle.sn_laws.specs.declared.ideal.Ideal.{Ideal};
ghost use Rattle.sn_row_map.specs.RowMaps.{row_in};
ghost use Rattle.sn_rows.specs.declared.key.Key.TheVariants as key;
ghost use Rattle.sn_shows.specs.Servers.{account_at};
ghost use Rattle.sn_shows.specs.Sets.{set_at};
ghost use Rattle.sn_string.specs.declared.params.KeySet.{KeySet};
ghost use Rattle.sn_shown.specs.Held.{AddsNumber, AreAccountNumbers, AreNumbers, AreSetNumbers, HaveSetNumbers, IsServed};
ghost use Rattle.sn_shown.specs.Rows.{account_in, last_set_in};

use crate::rows::{account_count, account_row, generation_row};
use sn_row_map::RowMap;
use std::alloc::{AllocError, Global};
use std::collections::BTreeMap;

/// The numbers of accounts by their identifiers, and for each account, in order, those of its sets
/// by their nonces.
#[derive(Drop)]
pub(crate) struct Numbers {
    pub accounts: BTreeMap<String, u64>,
    pub sets: Vec<BTreeMap<String, u64>>,
}

impl Numbers {
    /// Those of a server's accounts.
    pub(crate) fn of_rows(alloc: Global, server: &RowMap) -> Result<Numbers, AllocError>
        ensures { (s : Ideal) → IsServed (row_in server.now) s → IfOk result (λ numbers. AreNumbers numbers s.accounts) }
    {
        let accounts = account_numbers(alloc, server)?;
        let sets = set_numbers(alloc, server)?;
        Ok(Numbers { accounts, sets })
    }

    /// The number of the account of this identifier.
    pub(crate) fn account(&self, identifier: &str) -> Option<u64>
        ensures { result ≡ get_by_text self.now.accounts identifier.now }
    {
        self.accounts.get(identifier).copied()
    }

    /// The number of the set of an account that has this nonce.
    pub(crate) fn set(&self, account: u64, nonce: &str) -> Option<u64>
        ensures { (accounts : List Account) (a : Account) (number : ℕ) (set : KeySet) → AreNumbers self.now accounts → account_at account accounts ≡ Some a
            → set_at number a.sets ≡ Some set → nonce.now ≡ set.params.pw_nonce → result ≡ Some number }
    {
        let Some(numbers) = self.sets_of(account) else {
            return None;
        };
        numbers.get(nonce).copied()
    }

    // The numbers of an account's sets.
    fn sets_of(&self, account: u64) -> Option<&BTreeMap<String, u64>>
        ensures { (index : ℕ) → account ≡ index + 1 → option_copied result ≡ slice_get self.now.sets.items index }
    {
        if account == 0 {
            return None;
        }
        self.sets.get((account - 1) as usize)
    }
}

// The numbers of the accounts by their identifiers.
fn account_numbers(alloc: Global, server: &RowMap) -> Result<BTreeMap<String, u64>, AllocError>
    ensures { (s : Ideal) → IsServed (row_in server.now) s → IfOk result (λ numbers. AreAccountNumbers (get_by_text numbers) s.accounts) }
{
    let mut numbers = BTreeMap::new(alloc);
    'accounts: for index in 0..account_count(server) {
        add_number(alloc, &mut numbers, server, index + 1)?;
    }
    Ok(numbers)
}

// Adds the number of an account.
fn add_number(
    alloc: Global,
    numbers: &mut BTreeMap<String, u64>,
    server: &RowMap,
    number: u64,
) -> Result<(), AllocError>
    ensures { (s : Ideal) (a : Account) → IsServed (row_in server.now) s → account_at number s.accounts ≡ Some a
        → OnOk result (AddsNumber (get_by_text numbers.old) (get_by_text numbers.new) a.identifier number) }
{
    let Some(row) = account_row(server, number) else {
        return Ok(());
    };
    let identifier = row.identifier.as_str().to_string(alloc)?;
    numbers.insert(identifier, number)?;
    Ok(())
}

// For each account, in order, the numbers of its sets by their nonces.
fn set_numbers(alloc: Global, server: &RowMap) -> Result<Vec<BTreeMap<String, u64>>, AllocError>
    ensures { (s : Ideal) → IsServed (row_in server.now) s → IfOk result (λ sets. HaveSetNumbers sets.items s.accounts) }
{
    let mut sets = Vec::new(alloc);
    'accounts: for index in 0..account_count(server) {
        let numbers = nonce_numbers(alloc, server, index + 1)?;
        sets.push(numbers)?;
    }
    Ok(sets)
}

// The numbers of an account's sets by their nonces.
fn nonce_numbers(
    alloc: Global,
    server: &RowMap,
    account: u64,
) -> Result<BTreeMap<String, u64>, AllocError>
    ensures { (s : Ideal) (a : Account) → IsServed (row_in server.now) s → account_at account s.accounts ≡ Some a
        → IfOk result (λ numbers. AreSetNumbers (get_by_text numbers) a) }
{
    let mut numbers = BTreeMap::new(alloc);
    'sets: for index in 0..set_count(server, account) {
        add_nonce(alloc, &mut numbers, server, account, index + 1)?;
    }
    Ok(numbers)
}

// How many sets an account has.
fn set_count(server: &RowMap, account: u64) -> u64
    ensures { result ≡ last_set_in (account_in (row_in server.now (key.Account account))) }
{
    match account_row(server, account) {
        Some(row) => row.generation,
        None => 0,
    }
}

// Adds the number of a set of an account.
fn add_nonce(
    alloc: Global,
    numbers: &mut BTreeMap<String, u64>,
    server: &RowMap,
    account: u64,
    number: u64,
) -> Result<(), AllocError>
    ensures { (s : Ideal) (a : Account) (set : KeySet) → IsServed (row_in server.now) s → account_at account s.accounts ≡ Some a
        → set_at number a.sets ≡ Some set → OnOk result (AddsNumber (get_by_text numbers.old) (get_by_text numbers.new) set.params.pw_nonce number) }
{
    let Some(row) = generation_row(server, account, number) else {
        return Ok(());
    };
    let nonce = row.pw_nonce.as_str().to_string(alloc)?;
    numbers.insert(nonce, number)?;
    Ok(())
}
