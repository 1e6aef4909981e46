//! Whether the rows that a store has are sound, and else the first kind of which some aren't.

ghost use Rattle.std.specs.Prelude.{◌≡◌, ◌↔◌, ◌≤◌, ℕ, IfOk, IsTrue};
ghost use Rattle.sn_account.specs.Sound.{most_accounts};
ghost use Rattle.sn_account.specs.States.{IsUnmarked, state_rows};
ghost use Rattle.sn_account.specs.Unsound.{AreSoundAccounts, AreSoundGenerations, AreSoundItems, HasKinds, HasSoundAccount, IsFirstUnsound, TellsSoundness};

use crate::all_rows::all_pass;
use crate::apart::{has_generations, identifiers_differ, stamps_differ};
use crate::passwords::MOST_GENERATIONS;
use crate::row_tests::{AccountTest, GenerationTest, ItemTest, is_between};
use crate::state::State;
use sn_rows::RowKind;
use sn_string::MOST_ACCOUNTS;
use std::alloc::{AllocError, Global};

/// The first kind, in the order of their numbers, of which some row isn't sound; none where all are sound. What is asked of
/// each kind stands in docs/FORMATS.md.
pub fn first_unsound(alloc: Global, state: &State) -> Result<Option<RowKind>, AllocError>
    requires unmarked { IsUnmarked state.now }
    requires kinds { HasKinds (state_rows state.now) }
    ensures { IfOk result (IsFirstUnsound (state_rows state.now)) }
{
    let Some(store) = state.store() else {
        return Ok(Some(RowKind::Store));
    };
    if store.accounts > MOST_ACCOUNTS {
        return Ok(Some(RowKind::Store));
    }
    if !are_accounts_sound(alloc, state, store.accounts)? {
        return Ok(Some(RowKind::Account));
    }
    if !are_generations_sound(alloc, state, store.accounts)? {
        return Ok(Some(RowKind::Generation));
    }
    if !are_items_sound(alloc, state, store.last)? {
        return Ok(Some(RowKind::Item));
    }
    Ok(None)
}

/// No kind is told just of sound rows. The function does nothing; its contract is a law, by the definitions alone.
pub fn tells_soundness()
    ensures { TellsSoundness }
{}

// Whether the accounts are those with the numbers up to this one, with generations within their bounds, and identifiers that
// differ.
fn are_accounts_sound(alloc: Global, state: &State, count: u64) -> Result<bool, AllocError>
    requires { IsUnmarked state.now }
    ensures { IfOk result (λ sound. IsTrue sound ↔ AreSoundAccounts (state_rows state.now) count) }
{
    if !all_pass(&state.rows, RowKind::Account, &AccountTest { count })? {
        return Ok(false);
    }
    if !are_there(state, count) {
        return Ok(false);
    }
    identifiers_differ(alloc, state, count)
}

fn are_there(state: &State, count: u64) -> bool
    requires { IsUnmarked state.now }
    ensures { IsTrue result ↔ ((n : ℕ) → 1 ≤ n → n ≤ count → HasSoundAccount (state_rows state.now) n) }
{
    'accounts: for number in 1..=count {
        if !is_there(state, number) {
            return false;
        }
    }
    true
}

fn is_there(state: &State, number: u64) -> bool
    requires { IsUnmarked state.now }
    ensures { IsTrue result ↔ HasSoundAccount (state_rows state.now) number }
{
    match state.account(number) {
        Some(account) => is_between(account.generation, 1, MOST_GENERATIONS),
        None => false,
    }
}

// Whether each account has just its generations, with nonces that differ.
fn are_generations_sound(alloc: Global, state: &State, count: u64) -> Result<bool, AllocError>
    requires unmarked { IsUnmarked state.now }
    requires accounts { AreSoundAccounts (state_rows state.now) count }
    ensures { IfOk result (λ sound. IsTrue sound ↔ AreSoundGenerations (state_rows state.now)) }
{
    if !all_pass(&state.rows, RowKind::Generation, &GenerationTest { state })? {
        return Ok(false);
    }
    'accounts: for earlier in 0..count {
        let number = earlier + 1;
        let Some(account) = state.account(number) else {
            unreachable!();
        };
        if !has_generations(alloc, state, number, account.generation)? {
            return Ok(false);
        }
    }
    Ok(true)
}

// Whether each item is sound, and their stamps differ.
fn are_items_sound(alloc: Global, state: &State, last: u64) -> Result<bool, AllocError>
    requires { IsUnmarked state.now }
    ensures { IfOk result (λ sound. IsTrue sound ↔ AreSoundItems (state_rows state.now) last) }
{
    if !all_pass(&state.rows, RowKind::Item, &ItemTest { alloc, state, last })? {
        return Ok(false);
    }
    stamps_differ(alloc, state)
}
