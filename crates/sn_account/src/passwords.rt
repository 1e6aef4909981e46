//! The change of a password.

ghost use Rattle.std.specs.Prelude.{◌≡◌, ◌≢◌, ◌<◌, ◌≤◌, ◌↔◌, ◌∷◌, ℕ, [], codes, false, IfNone, IfOk, IfSome, IsTrue, Some};
ghost use Rattle.sn_account.specs.Lookups.{Bytes, HasAccount, HasGeneration, HasStore};
ghost use Rattle.sn_account.specs.Rules.{Carries, CarriesText, ChangesKeys, ChangesPassword, IsBehind, IsLeastBehind, IsPresent, IsUsed, NoneBehind, PutsAccount, PutsGeneration, Replaces};
ghost use Rattle.sn_account.specs.Sound.{IsSound, most_generations};
ghost use Rattle.sn_account.specs.States.{IsUnmarked, state_rows};
ghost use Rattle.sn_keys.specs.Keys.{check_value};
ghost use Rattle.sn_rows.specs.Table.{Rows};
ghost use Rattle.sn_rows.specs.declared.change.Change.{Change};
ghost use Rattle.sn_rows.specs.declared.key.Key.TheVariants.{Item};
ghost use Rattle.sn_rows.specs.declared.server_rows.GenerationRow.{GenerationRow};
ghost use Rattle.sn_rows.specs.declared.server_rows.StoreRow.{StoreRow};
ghost use Rattle.sn_string.specs.Bounds.{IsCost, IsNonce};
ghost use Rattle.sn_string.specs.declared.params.Params.{Params};
ghost use Rattle.sn_sync.specs.declared.answer.Answer.TheVariants as answer;
ghost use Rattle.sn_sync.specs.declared.answer.More.TheVariants as more;
ghost use Rattle.sn_string.specs.declared.reader.StringError.TheVariants.{Memory};

use crate::accounts::{Ruled, admitted, has_password, present_params};
use crate::changes::{put_account, put_generation, two_changes};
use crate::refusals::refused;
use crate::sessions::session;
use crate::state::State;
use sn_keys::check_of;
use sn_rows::{AccountRow, Change, GenerationRow, ItemRow, Key, RowKind, Value};
use sn_string::{OwnedList, Params, StringError, Text, TryClone, read};
use sn_sync::{Answer, More};
use std::alloc::{AllocError, Global};
use uuid::Uuid;

/// The most generations of an account's keys.
pub(crate) const MOST_GENERATIONS: u64 = 1_000_000;

/// Gives an account its next keys.
pub fn change_password(
    alloc: Global,
    state: &State,
    token: &str,
    current: &[u8; 32],
    pw: &[u8; 32],
    cost: u32,
    nonce: &Text,
) -> Result<Ruled, AllocError>
    requires unmarked { IsUnmarked state.now }
    requires sound { IsSound (state_rows state.now) }
    requires cost { IsCost cost }
    requires nonce { IsNonce nonce.now }
    ensures { (store : StoreRow) → HasStore (state_rows state.now) store
        → IfOk result (λ ruled. ChangesPassword (state_rows state.now) store token.now current.now pw.now cost nonce.now
        ruled.changes ruled.answer) }
{
    let Some(number) = session(alloc, state, token)? else {
        return Ok(unchanged(alloc, refused(401, "bad-auth", More::Nothing)));
    };
    let Some(account) = state.account(number) else {
        unreachable!();
    };
    if !has_password(account, current) {
        return Ok(unchanged(alloc, refused(401, "bad-auth", More::Nothing)));
    }
    change_keys(alloc, state, number, account, pw, cost, nonce)
}

/// The answer alone.
pub(crate) fn unchanged(alloc: Global, answer: Answer) -> Ruled
    ensures changes { result.changes ≡ [] }
    ensures answer { result.answer ≡ answer }
{
    Ruled {
        changes: OwnedList::new(alloc),
        answer,
    }
}

// Gives the account its next keys, unless there is a cause not to.
fn change_keys(
    alloc: Global,
    state: &State,
    number: u64,
    account: &AccountRow,
    pw: &[u8; 32],
    cost: u32,
    nonce: &Text,
) -> Result<Ruled, AllocError>
    requires unmarked { IsUnmarked state.now }
    requires sound { IsSound (state_rows state.now) }
    requires there { HasAccount (state_rows state.now) number account.now }
    requires cost { IsCost cost }
    requires nonce { IsNonce nonce.now }
    ensures { (store : StoreRow) → HasStore (state_rows state.now) store
        → IfOk result (λ ruled. (present : Params) × IsPresent (state_rows state.now) number present
        × ChangesKeys (state_rows state.now) store number account.now present pw.now cost nonce.now ruled.changes ruled.answer) }
{
    let present = present_params(alloc, state, number)?;
    if let Some(answer) = change_cause(alloc, state, number, account, &present, nonce)? {
        return Ok(unchanged(alloc, answer));
    }
    replace_keys(alloc, state, number, account, pw, cost, nonce)
}

// The refusal of an account's next keys, where there is a cause.
fn change_cause(
    alloc: Global,
    state: &State,
    number: u64,
    account: &AccountRow,
    present: &Params,
    nonce: &Text,
) -> Result<Option<Answer>, AllocError>
    requires unmarked { IsUnmarked state.now }
    requires sound { IsSound (state_rows state.now) }
    requires there { HasAccount (state_rows state.now) number account.now }
    ensures some { IfOk result (λ found. IfSome found (λ answer. (store : StoreRow) (pw : Bytes) (cost : ℕ)
        → ChangesKeys (state_rows state.now) store number account.now present.now pw cost nonce.now [] answer)) }
    ensures none { IfOk result (λ found. IfNone found (NoneBehind (state_rows state.now) number present.now
        × ¬ (IsUsed (state_rows state.now) number nonce.now) × (account.now.generation < most_generations))) }
{
    if let Some(uuid) = least_behind(alloc, state, number, present)? {
        return Ok(Some(refused(409, "rekey-running", More::Uuid(uuid))));
    }
    if is_used(state, number, account, nonce) {
        return Ok(Some(refused(409, "nonce-used", More::Nothing)));
    }
    Ok(used_cause(account))
}

// The refusal of one generation more.
pub(crate) fn used_cause(account: &AccountRow) -> Option<Answer>
    ensures some { IfSome result (λ given. (most_generations ≤ account.now.generation)
        × (given ≡ answer.Refused 409 (codes "changes-used") (more.Number most_generations))) }
    ensures none { IfNone result (account.now.generation < most_generations) }
{
    if account.generation >= MOST_GENERATIONS {
        let more = More::Number(MOST_GENERATIONS);
        return Some(refused(409, "changes-used", more));
    }
    None
}

// The least uuid of an item of the account that still carries other parameters.
fn least_behind(
    alloc: Global,
    state: &State,
    number: u64,
    present: &Params,
) -> Result<Option<Uuid>, AllocError>
    requires { IsUnmarked state.now }
    ensures some { IfOk result (λ found. IfSome found (IsLeastBehind (state_rows state.now) number present.now)) }
    ensures none { IfOk result (λ found. IfNone found (NoneBehind (state_rows state.now) number present.now)) }
{
    let mut found = state.rows.first(RowKind::Item);
    'rows: while let Some((key, value)) = found {
        if let Some(uuid) = uuid_behind(alloc, key, value, number, present)? {
            return Ok(Some(uuid));
        }
        found = state.rows.next_after(key);
    }
    Ok(None)
}

// The uuid of a row's item, if it is the account's and still carries other parameters.
fn uuid_behind(
    alloc: Global,
    key: &Key,
    value: &Value,
    number: u64,
    present: &Params,
) -> Result<Option<Uuid>, AllocError>
    ensures some { IfOk result (λ found. IfSome found (λ uuid. (key.now ≡ Item uuid)
        × ((rows : Rows) → rows key.now ≡ Some value.now → IsBehind rows number present.now uuid))) }
    ensures none { IfOk result (λ found. IfNone found ((rows : Rows) (uuid : Bytes)
        → rows key.now ≡ Some value.now → key.now ≡ Item uuid → ¬ (IsBehind rows number present.now uuid))) }
{
    let (Key::Item(uuid), Value::Item(item)) = (key, value) else {
        return Ok(None);
    };
    if is_behind(alloc, item, number, present)? {
        Ok(Some(*uuid))
    } else {
        Ok(None)
    }
}

// Whether an item is the account's and still carries other parameters.
fn is_behind(
    alloc: Global,
    item: &ItemRow,
    number: u64,
    present: &Params,
) -> Result<bool, AllocError>
    ensures { IfOk result (λ behind. IsTrue behind
        ↔ ((item.now.account ≡ number) × (item.now.deleted ≡ false) × ¬ (Carries item.now present.now))) }
{
    if item.account() != number || item.is_deleted() {
        return Ok(false);
    }
    let carried = carries(alloc, item, present)?;
    Ok(!carried)
}

// Whether both strings of an item carry these parameters.
fn carries(alloc: Global, item: &ItemRow, params: &Params) -> Result<bool, AllocError>
    ensures { IfOk result (λ carried. IsTrue carried ↔ Carries item.now params.now) }
{
    if !carries_text(alloc, item.content(), params)? {
        return Ok(false);
    }
    carries_text(alloc, item.enc(), params)
}

// Whether a text is a 003 string with these parameters.
fn carries_text(alloc: Global, text: &str, params: &Params) -> Result<bool, AllocError>
    ensures { IfOk result (λ carried. IsTrue carried ↔ CarriesText text.now params.now) }
{
    match read(alloc, text) {
        Ok(parts) => Ok(parts.params.same(params)),
        Err(error) => carries_none(error),
    }
}

// A refused text carries no parameters, unless memory was wanting.
fn carries_none(error: StringError) -> Result<bool, AllocError>
    ensures { IfOk result (λ carried. (carried ≡ false) × (error ≢ Memory)) }
{
    match error {
        StringError::Memory => Err(AllocError),
        _ => Ok(false),
    }
}

// Whether some generation of the account's keys had the nonce.
fn is_used(state: &State, number: u64, account: &AccountRow, nonce: &Text) -> bool
    requires unmarked { IsUnmarked state.now }
    requires sound { IsSound (state_rows state.now) }
    requires there { HasAccount (state_rows state.now) number account.now }
    ensures { IsTrue result ↔ IsUsed (state_rows state.now) number nonce.now }
{
    'generations: for generation in 1..=account.generation {
        if had_nonce(state, number, generation, nonce) {
            return true;
        }
    }
    false
}

// Whether this generation of the account's keys had the nonce.
fn had_nonce(state: &State, number: u64, generation: u64, nonce: &Text) -> bool
    requires { IsUnmarked state.now }
    ensures { IsTrue result ↔ ((row : GenerationRow)
        × HasGeneration (state_rows state.now) number generation row × (row.pw_nonce ≡ nonce.now)) }
{
    match state.generation(number, generation) {
        Some(row) => row.pw_nonce.same(nonce),
        None => false,
    }
}

// Gives the account its next keys.
fn replace_keys(
    alloc: Global,
    state: &State,
    number: u64,
    account: &AccountRow,
    pw: &[u8; 32],
    cost: u32,
    nonce: &Text,
) -> Result<Ruled, AllocError>
    requires unmarked { IsUnmarked state.now }
    requires sound { IsSound (state_rows state.now) }
    requires there { HasAccount (state_rows state.now) number account.now }
    requires room { account.now.generation < most_generations }
    requires cost { IsCost cost }
    requires nonce { IsNonce nonce.now }
    ensures { (store : StoreRow) → HasStore (state_rows state.now) store
        → IfOk result (λ ruled. Replaces store number account.now pw.now cost nonce.now ruled.changes ruled.answer) }
{
    let Some(store) = state.store() else {
        unreachable!();
    };
    let generation = account.generation + 1;
    let changes = key_changes(alloc, number, account, generation, pw, cost, nonce)?;
    let answer = admitted(
        alloc,
        &store.secret,
        number,
        generation,
        &account.identifier,
    )?;
    Ok(Ruled { changes, answer })
}

// The changes that put an account's keys of a generation.
fn key_changes(
    alloc: Global,
    number: u64,
    account: &AccountRow,
    generation: u64,
    pw: &[u8; 32],
    cost: u32,
    nonce: &Text,
) -> Result<OwnedList<Change>, AllocError>
    requires cost { IsCost cost }
    requires nonce { IsNonce nonce.now }
    ensures { IfOk result (λ changes. (first second : Change)
        × PutsAccount first number account.now.identifier generation (check_value pw.now)
        × PutsGeneration second number generation cost nonce.now
        × (changes ≡ first ∷ second ∷ [])) }
{
    let first = next_account(alloc, number, account, generation, pw)?;
    let second = next_generation(alloc, number, generation, cost, nonce)?;
    two_changes(alloc, first, second)
}

// The change that puts the account's row with these keys.
fn next_account(
    alloc: Global,
    number: u64,
    account: &AccountRow,
    generation: u64,
    pw: &[u8; 32],
) -> Result<Change, AllocError>
    ensures { IfOk result (λ change. PutsAccount change number account.now.identifier generation (check_value pw.now)) }
{
    let identifier = account.identifier.try_clone(alloc)?;
    let check = check_of(pw);
    let row = AccountRow {
        identifier,
        generation,
        check,
    };
    put_account(alloc, number, row)
}

// The change that puts a generation with these parameters.
fn next_generation(
    alloc: Global,
    number: u64,
    generation: u64,
    cost: u32,
    nonce: &Text,
) -> Result<Change, AllocError>
    requires cost { IsCost cost }
    requires nonce { IsNonce nonce.now }
    ensures { IfOk result (λ change. PutsGeneration change number generation cost nonce.now) }
{
    let nonce = nonce.try_clone(alloc)?;
    match GenerationRow::new(cost, nonce) {
        Some(row) => Ok(put_generation(number, generation, row)),
        None => unreachable!(),
    }
}
