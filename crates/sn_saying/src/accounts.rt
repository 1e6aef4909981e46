//! Accounts and their sets, by the rows of both ends.

ghost use Rattle.std.specs.Prelude.{◌≡◌, ◌≢◌, ◌↔◌, ◌+◌, ◌<◌, ℕ, IfNone, IfSome, IsTrue, List, Some, length};
ghost use Rattle.std.specs.Option.{option_copied};
ghost use Rattle.sn_laws.specs.Reached.{NoncesApart};
ghost use Rattle.sn_laws.specs.declared.ideal.Account.{Account};
ghost use Rattle.sn_row_map.specs.RowMaps.{row_in};
ghost use Rattle.sn_rows.specs.declared.key.Key.TheVariants as key;
ghost use Rattle.sn_rows.specs.declared.key.Slot.TheVariants.{Older};
ghost use Rattle.sn_shows.specs.Devices.{ShowsOlder};
ghost use Rattle.sn_shows.specs.Servers.{ShowsAccounts, account_at};
ghost use Rattle.sn_saying.specs.Adopted.{HasNoAccountOf, HasNonce, IsAccount, IsAccountAt, IsAccountRow, identifier_in, nonce_in, older_of};

use sn_row_map::RowMap;
use sn_rows::{Key, RowKind, Slot, Value};
use sn_string::Text;

/// The identifier of a device's account.
pub(crate) fn identifier_in(rows: &RowMap) -> Option<&Text>
    ensures { option_copied result ≡ identifier_in (row_in rows.now key.Owner) }
{
    match rows.get(&Key::Owner) {
        Some(Value::Owner(owner)) => Some(&owner.get().identifier),
        _ => None,
    }
}

/// The number of the account of an identifier, and how many sets it has. Looks at each account.
pub(crate) fn account_in(server: &RowMap, identifier: &Text) -> Option<(u64, u64)>
    ensures some { IfSome result (λ found. IsAccount (row_in server.now) identifier.now found.0 found.1) }
    ensures none { IfNone result (HasNoAccountOf (row_in server.now) identifier.now) }
{
    let mut found = server.first(RowKind::Account);
    'accounts: while let Some((at, value)) = found {
        if let Some(account) = account_of(at, value, identifier) {
            return Some(account);
        }
        found = server.next_after(at);
    }
    None
}

// The same of a row, if it is that of an account of the identifier.
fn account_of(at: &Key, value: &Value, identifier: &Text) -> Option<(u64, u64)>
    ensures some { IfSome result (IsAccountRow identifier.now at.now value.now) }
    ensures none { IfNone result (¬ (IsAccountAt identifier.now at.now value.now)) }
{
    match (at, value) {
        (Key::Account(number), Value::Account(row)) => {
            let row = row.get();
            if !row.identifier.same(identifier) {
                return None;
            }
            Some((*number, row.generation))
        }
        _ => None,
    }
}

/// The number of the older set that a device holds, if it holds one: `number` is that of its account, which has so many
/// sets.
pub(crate) fn older_in(server: &RowMap, rows: &RowMap, number: u64, generations: u64) -> Option<u64>
    ensures { (accounts : List Account) (a : Account) (held : List ℕ) → ShowsAccounts (row_in server.now) accounts → account_at number accounts ≡ Some a
        → generations ≡ length a.sets → NoncesApart a → ShowsOlder a (row_in rows.now (key.Set Older)) held → result ≡ older_of held }
{
    let Some(nonce) = older_nonce(rows) else {
        return None;
    };
    number_of(server, number, generations, nonce)
}

// The nonce of the older set.
fn older_nonce(rows: &RowMap) -> Option<&Text>
    ensures { option_copied result ≡ nonce_in (row_in rows.now (key.Set Older)) }
{
    match rows.get(&Key::Set(Slot::Older)) {
        Some(Value::Set(set)) => Some(&set.get().pw_nonce),
        _ => None,
    }
}

// The number of the set of an account that has this nonce.
fn number_of(server: &RowMap, number: u64, generations: u64, nonce: &Text) -> Option<u64>
    ensures some { IfSome result (λ generation. HasNonce (row_in server.now) number generation nonce.now) }
    ensures none { IfNone result ((before : ℕ) → before < generations → ¬ (HasNonce (row_in server.now) number (before + 1) nonce.now)) }
{
    'generations: for before in 0..generations {
        let generation = before + 1;
        if has_nonce(server, number, generation, nonce) {
            return Some(generation);
        }
    }
    None
}

fn has_nonce(server: &RowMap, number: u64, generation: u64, nonce: &Text) -> bool
    ensures { IsTrue result ↔ HasNonce (row_in server.now) number generation nonce.now }
{
    match server.get(&Key::Generation(number, generation)) {
        Some(Value::Generation(row)) => row.pw_nonce.same(nonce),
        _ => false,
    }
}
