//! Whether identifiers, nonces and stamps differ.

ghost use Rattle.std.specs.Prelude.{◌≡◌, ◌↔◌, ◌⊎◌, ◌≤◌, ◌<◌, ℕ, IfOk, IsTrue, OnOk};
ghost use Rattle.sn_account.specs.Lookups.{Bytes};
ghost use Rattle.sn_account.specs.States.{IsUnmarked, state_rows};
ghost use Rattle.sn_account.specs.Unsound.{HasSoundAccount};
ghost use Rattle.sn_account.specs.Walks.{HasGenerations, HasStamp, HasText, IdentifiersDiffer, MeetsStamp, StampsDiffer};

use crate::state::State;
use sn_rows::{RowKind, Value};
use std::alloc::{AllocError, Global};
use std::collections::BTreeMap;

/// Whether the accounts with the numbers up to this one, which are all there, have identifiers that differ.
pub(crate) fn identifiers_differ(
    alloc: Global,
    state: &State,
    count: u64,
) -> Result<bool, AllocError>
    requires unmarked { IsUnmarked state.now }
    requires there { (n : ℕ) → 1 ≤ n → n ≤ count → HasSoundAccount (state_rows state.now) n }
    ensures { IfOk result (λ differ. IsTrue differ ↔ IdentifiersDiffer (state_rows state.now) count) }
{
    let mut seen = BTreeMap::new(alloc);
    'accounts: for earlier in 0..count {
        let Some(account) = state.account(earlier + 1) else {
            unreachable!();
        };
        if !is_first(&mut seen, account.identifier.as_str())? {
            return Ok(false);
        }
    }
    Ok(true)
}

// Whether a text wasn't seen before. It is seen from then on.
fn is_first<'a>(seen: &mut BTreeMap<&'a str, ()>, text: &'a str) -> Result<bool, AllocError>
    ensures first { IfOk result (λ first. IsTrue first ↔ ¬ (HasText seen.old text.now)) }
    ensures seen { OnOk result ((other : Bytes) → HasText seen.new other ↔ (HasText seen.old other ⊎ (other ≡ text.now))) }
{
    match seen.insert(text, ()) {
        Ok(earlier) => Ok(earlier.is_none()),
        Err(_) => Err(AllocError),
    }
}

/// Whether an account, which is there, has all generations up to its present one, with nonces that differ.
pub(crate) fn has_generations(
    alloc: Global,
    state: &State,
    number: u64,
    count: u64,
) -> Result<bool, AllocError>
    requires { IsUnmarked state.now }
    ensures { IfOk result (λ whole. IsTrue whole ↔ HasGenerations (state_rows state.now) number count) }
{
    let mut seen = BTreeMap::new(alloc);
    'generations: for earlier in 0..count {
        let Some(row) = state.generation(number, earlier + 1) else {
            return Ok(false);
        };
        if !is_first(&mut seen, row.pw_nonce.as_str())? {
            return Ok(false);
        }
    }
    Ok(true)
}

/// Whether the items have stamps that differ.
pub(crate) fn stamps_differ(alloc: Global, state: &State) -> Result<bool, AllocError>
    requires { IsUnmarked state.now }
    ensures { IfOk result (λ differ. IsTrue differ ↔ StampsDiffer (state_rows state.now)) }
{
    let mut seen = BTreeMap::new(alloc);
    let mut found = state.rows.first(RowKind::Item);
    'rows: while let Some((key, value)) = found {
        if !meet(&mut seen, value)? {
            return Ok(false);
        }
        found = state.rows.next_after(key);
    }
    Ok(true)
}

// Meets the stamp of a row, if it is an item's. Whether it is new.
fn meet(seen: &mut BTreeMap<u64, ()>, value: &Value) -> Result<bool, AllocError>
    ensures { IfOk result (MeetsStamp seen.old seen.new value.now) }
{
    match value {
        Value::Item(row) => is_first_stamp(seen, row.updated()),
        _ => Ok(true),
    }
}

// Whether a stamp wasn't met before. It is from then on.
fn is_first_stamp(seen: &mut BTreeMap<u64, ()>, stamp: u64) -> Result<bool, AllocError>
    ensures first { IfOk result (λ first. IsTrue first ↔ ¬ (HasStamp seen.old stamp)) }
    ensures seen { OnOk result ((other : ℕ) → HasStamp seen.new other ↔ (HasStamp seen.old other ⊎ (other ≡ stamp))) }
{
    match seen.insert(stamp, ()) {
        Ok(earlier) => Ok(earlier.is_none()),
        Err(_) => Err(AllocError),
    }
}
