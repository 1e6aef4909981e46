//! What a device holds, from its rows.

ghost use Rattle.std.specs.Prelude.{◌≡◌, ◌↔◌, List, Some, IfOk, IsTrue};
ghost use Rattle.std.specs.Option.{option_copied};
ghost use Rattle.sn_laws.specs.Each.{One};
ghost use Rattle.sn_laws.specs.Lookups.{Bytes};
ghost use Rattle.sn_laws.specs.declared.ideal.Account.{Account};
ghost use Rattle.sn_laws.specs.declared.ideal.Ideal.{Ideal};
ghost use Rattle.sn_row_map.specs.RowMaps.{row_in};
ghost use Rattle.sn_shows.specs.Devices.{ShowsDevice};
ghost use Rattle.sn_shows.specs.Servers.{account_at};
ghost use Rattle.sn_shown.specs.Held.{AreNumbers, IsHoldingOf, IsOfSlot, IsSetOf, number_of, numbers_of};
ghost use Rattle.sn_shown.specs.Shown.{IsRegular};

use crate::numbers::Numbers;
use crate::rows::{owner_row, set_row};
use sn_row_map::RowMap;
use sn_rows::{OwnerRow, SetRow, Slot};
use sn_string::{KeySet, Params, TryClone};
use std::alloc::{AllocError, Global};

/// A set of an account, with its number.
#[derive(Drop)]
pub(crate) struct HeldSet {
    pub number: u64,
    pub set: KeySet,
}

/// What a device holds of its account, which has this number: the present set, and maybe the one
/// before.
#[derive(Drop)]
pub(crate) struct Holding {
    pub account: u64,
    pub present: HeldSet,
    pub older: Option<HeldSet>,
}

impl Holding {
    /// The numbers of the sets, rising.
    pub(crate) fn numbers(&self, alloc: Global) -> Result<Vec<u64>, AllocError>
        ensures { IfOk result (λ numbers. numbers.items ≡ numbers_of self.now) }
    {
        let mut numbers = Vec::new(alloc);
        if let Some(older) = &self.older {
            numbers.push(older.number)?;
        }
        numbers.push(self.present.number)?;
        Ok(numbers)
    }

    /// Whether it holds the set of this number.
    pub(crate) fn holds(&self, number: u64) -> bool
        ensures { IsTrue result ↔ One (λ n. n ≡ number) (numbers_of self.now) }
    {
        if self.holds_older(number) {
            return true;
        }
        self.present.number == number
    }

    fn holds_older(&self, number: u64) -> bool
        ensures { IsTrue result ↔ One (λ n. n ≡ number) (number_of self.now.older) }
    {
        match &self.older {
            Some(older) => older.number == number,
            None => false,
        }
    }
}

/// What the device of these rows holds, where it has an account. The numbers are those of the
/// server's accounts.
pub(crate) fn holding_of(
    alloc: Global,
    numbers: &Numbers,
    rows: &RowMap,
) -> Result<Option<Holding>, AllocError>
    ensures { (s : Ideal) (name : Bytes) → IsRegular s → AreNumbers numbers.now s.accounts
        → ShowsDevice (row_in rows.now) s name → IfOk result (IsHoldingOf s name) }
{
    let Some(owner) = owner_row(rows) else {
        return Ok(None);
    };
    let Some(account) = numbers.account(owner.identifier.as_str()) else {
        return Ok(None);
    };
    let Some(present) = held_set(alloc, numbers, account, owner, set_row(rows, Slot::Present))?
    else {
        return Ok(None);
    };
    let older = held_set(alloc, numbers, account, owner, set_row(rows, Slot::Older))?;
    Ok(Some(Holding {
        account,
        present,
        older,
    }))
}

// The set that stands in a slot, with its number in the account.
fn held_set(
    alloc: Global,
    numbers: &Numbers,
    account: u64,
    owner: &OwnerRow,
    row: Option<&SetRow>,
) -> Result<Option<HeldSet>, AllocError>
    ensures { (accounts : List Account) (a : Account) → AreNumbers numbers.now accounts → account_at account accounts ≡ Some a
        → owner.now.identifier ≡ a.identifier → IfOk result (IsOfSlot a (option_copied row.entry)) }
{
    let Some(row) = row else {
        return Ok(None);
    };
    let Some(number) = numbers.set(account, row.pw_nonce.as_str()) else {
        return Ok(None);
    };
    let set = key_set(alloc, owner, row)?;
    Ok(Some(HeldSet { number, set }))
}

// The key set that a device's rows stand for.
fn key_set(alloc: Global, owner: &OwnerRow, row: &SetRow) -> Result<KeySet, AllocError>
    ensures { IfOk result (IsSetOf owner.now row.now) }
{
    let identifier = owner.identifier.try_clone(alloc)?;
    let nonce = row.pw_nonce.try_clone(alloc)?;
    let cost = row.pw_cost;
    match Params::new(identifier, cost, nonce) {
        Some(params) => Ok(KeySet {
            params,
            pw: row.pw,
            mk: row.mk,
            ak: row.ak,
        }),
        None => unreachable!(),
    }
}
