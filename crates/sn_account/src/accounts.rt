//! Registration, parameters and sign-in.

ghost use Rattle.std.specs.Prelude.{◌≡◌, ◌↔◌, ◌<◌, ◌≤◌, ◌^◌, ◌∷◌, [], codes, IfNone, IfOk, IfSome, IsTrue, MatchOption};
ghost use Rattle.sn_account.specs.Lookups.{Bytes, HasAccount, HasStore, IsNamed, IsUnknown};
ghost use Rattle.sn_account.specs.Rules.{BeginsAccount, IsPresent, PutsAccount, PutsCount, PutsGeneration, Registers, SignsIn, TellsParams};
ghost use Rattle.sn_account.specs.Sessions.{account_uuid, session_token};
ghost use Rattle.sn_account.specs.Sound.{IsSound, most_accounts};
ghost use Rattle.sn_account.specs.States.{IsUnmarked, state_rows};
ghost use Rattle.sn_keys.specs.Keys.{check_value};
ghost use Rattle.sn_rows.specs.declared.change.Change.{Change};
ghost use Rattle.sn_rows.specs.declared.server_rows.AccountRow.{AccountRow};
ghost use Rattle.sn_rows.specs.declared.server_rows.StoreRow.{StoreRow};
ghost use Rattle.sn_sync.specs.declared.answer.Answer.TheVariants as answer;
ghost use Rattle.sn_sync.specs.declared.answer.More.TheVariants as more;

use crate::changes::{put_account, put_generation, put_store, two_changes};
use crate::refusals::refused;
use crate::sessions::{account_uuid, session_token};
use crate::state::State;
use sn_keys::check_of;
use sn_rows::{AccountRow, Change, GenerationRow, StoreRow};
use sn_string::{MOST_ACCOUNTS, OwnedList, Params, Text, TryClone};
use sn_sync::{Answer, More};
use std::alloc::{AllocError, Global};

/// What a request changes, and what is answered to it.
#[derive(Drop)]
pub struct Ruled {
    pub changes: OwnedList<Change>,
    pub answer: Answer,
}

/// Begins an account.
pub fn register(
    alloc: Global,
    state: &State,
    params: &Params,
    pw: &[u8; 32],
) -> Result<Ruled, AllocError>
    requires unmarked { IsUnmarked state.now }
    requires sound { IsSound (state_rows state.now) }
    ensures { (store : StoreRow) → HasStore (state_rows state.now) store
        → IfOk result (λ ruled. Registers (state_rows state.now) store params.now pw.now ruled.changes ruled.answer) }
{
    if let Some(answer) = register_cause(state, params) {
        let changes = OwnedList::new(alloc);
        return Ok(Ruled { changes, answer });
    }
    begin(alloc, store_of(state), params, pw)
}

// The refusal of a registration with these parameters.
fn register_cause(state: &State, params: &Params) -> Option<Answer>
    requires unmarked { IsUnmarked state.now }
    requires sound { IsSound (state_rows state.now) }
    ensures { (store : StoreRow) → HasStore (state_rows state.now) store
        → MatchOption result
        (IsUnknown (state_rows state.now) params.now.identifier × (store.accounts < most_accounts))
        (λ given. (pw : Bytes) → Registers (state_rows state.now) store params.now pw [] given) }
{
    if number_of(state, params.identifier.as_str()).is_some() {
        return Some(refused(409, "taken", More::Nothing));
    }
    full_cause(store_of(state))
}

// The refusal of one account more.
pub(crate) fn full_cause(store: &StoreRow) -> Option<Answer>
    ensures some { IfSome result (λ given. (most_accounts ≤ store.now.accounts)
        × (given ≡ answer.Refused 409 (codes "full") (more.Number most_accounts))) }
    ensures none { IfNone result (store.now.accounts < most_accounts) }
{
    if store.accounts >= MOST_ACCOUNTS {
        return Some(refused(409, "full", More::Number(MOST_ACCOUNTS)));
    }
    None
}

// The next account's rows and its token.
fn begin(
    alloc: Global,
    store: &StoreRow,
    params: &Params,
    pw: &[u8; 32],
) -> Result<Ruled, AllocError>
    requires { store.now.accounts < most_accounts }
    ensures { IfOk result (λ ruled. BeginsAccount store.now params.now pw.now ruled.changes ruled.answer) }
{
    let number = store.accounts + 1;
    let changes = first_changes(alloc, store, number, params, pw)?;
    let answer = admitted(alloc, &store.secret, number, 1, &params.identifier)?;
    Ok(Ruled { changes, answer })
}

// The changes that put a new account.
fn first_changes(
    alloc: Global,
    store: &StoreRow,
    number: u64,
    params: &Params,
    pw: &[u8; 32],
) -> Result<OwnedList<Change>, AllocError>
    requires { store.now.accounts < most_accounts }
    ensures { IfOk result (λ changes. (account generation count : Change)
        × PutsAccount account number params.now.identifier 1 (check_value pw.now)
        × PutsGeneration generation number 1 params.now.pw_cost params.now.pw_nonce
        × PutsCount count store.now
        × (changes ≡ account ∷ generation ∷ count ∷ [])) }
{
    let account = first_account(alloc, number, params, pw)?;
    let generation = first_generation(alloc, number, params)?;
    let mut changes = two_changes(alloc, account, generation)?;
    changes.push(count_change(store))?;
    Ok(changes)
}

// The change that puts a new account.
fn first_account(
    alloc: Global,
    number: u64,
    params: &Params,
    pw: &[u8; 32],
) -> Result<Change, AllocError>
    ensures { IfOk result (λ change. PutsAccount change number params.now.identifier 1 (check_value pw.now)) }
{
    let identifier = params.identifier.try_clone(alloc)?;
    match AccountRow::new(identifier, 1, check_of(pw)) {
        Some(row) => {
            let change = put_account(alloc, number, row)?;
            Ok(change)
        }
        None => unreachable!(),
    }
}

// The change that puts the parameters of a new account's first keys.
fn first_generation(alloc: Global, number: u64, params: &Params) -> Result<Change, AllocError>
    ensures { IfOk result (λ change. PutsGeneration change number 1 params.now.pw_cost params.now.pw_nonce) }
{
    let nonce = params.pw_nonce.try_clone(alloc)?;
    match GenerationRow::new(params.pw_cost, nonce) {
        Some(row) => Ok(put_generation(number, 1, row)),
        None => unreachable!(),
    }
}

// The change that counts one account more.
fn count_change(store: &StoreRow) -> Change
    requires { store.now.accounts < most_accounts }
    ensures { PutsCount result store.now }
{
    match StoreRow::new(store.secret, store.last, store.accounts + 1) {
        Some(row) => put_store(row),
        None => unreachable!(),
    }
}

/// Tells the parameters of an account's present keys.
pub fn parameters(alloc: Global, state: &State, identifier: &str) -> Result<Answer, AllocError>
    requires unmarked { IsUnmarked state.now }
    requires sound { IsSound (state_rows state.now) }
    ensures { IfOk result (TellsParams (state_rows state.now) identifier.now) }
{
    let Some(number) = number_of(state, identifier) else {
        return Ok(refused(404, "unknown", More::Nothing));
    };
    let params = present_params(alloc, state, number)?;
    Ok(Answer::Params(params))
}

/// The parameters of the present keys of the account of this number.
pub(crate) fn present_params(
    alloc: Global,
    state: &State,
    number: u64,
) -> Result<Params, AllocError>
    requires unmarked { IsUnmarked state.now }
    requires sound { IsSound (state_rows state.now) }
    requires there { (account : AccountRow) × HasAccount (state_rows state.now) number account }
    ensures { IfOk result (IsPresent (state_rows state.now) number) }
{
    let account = account_of(state, number);
    match state.generation(number, account.generation) {
        Some(generation) => params_of(alloc, account, generation),
        None => unreachable!(),
    }
}

// The parameters of an account with those of a generation of its keys.
fn params_of(
    alloc: Global,
    account: &AccountRow,
    generation: &GenerationRow,
) -> Result<Params, AllocError>
    ensures { IfOk result (λ params. (params.identifier ≡ account.now.identifier)
        × (params.pw_cost ≡ generation.now.pw_cost) × (params.pw_nonce ≡ generation.now.pw_nonce)) }
{
    let identifier = account.identifier.try_clone(alloc)?;
    let cost = generation.pw_cost;
    let nonce = generation.pw_nonce.try_clone(alloc)?;
    match Params::new(identifier, cost, nonce) {
        Some(params) => Ok(params),
        None => unreachable!(),
    }
}

/// Admits to an account with the server's password.
pub fn sign_in(
    alloc: Global,
    state: &State,
    identifier: &str,
    pw: &[u8; 32],
) -> Result<Answer, AllocError>
    requires unmarked { IsUnmarked state.now }
    requires sound { IsSound (state_rows state.now) }
    ensures { (store : StoreRow) → HasStore (state_rows state.now) store
        → IfOk result (SignsIn (state_rows state.now) store identifier.now pw.now) }
{
    let Some(number) = number_of(state, identifier) else {
        return Ok(refused(404, "unknown", More::Nothing));
    };
    let account = account_of(state, number);
    if !has_password(account, pw) {
        return Ok(refused(401, "bad-auth", More::Nothing));
    }
    let secret = &store_of(state).secret;
    admitted(
        alloc,
        secret,
        number,
        account.generation,
        &account.identifier,
    )
}

/// Whether the account's check value is that of the server's password.
pub(crate) fn has_password(account: &AccountRow, pw: &[u8; 32]) -> bool
    ensures { IsTrue result ↔ (account.now.check ≡ check_value pw.now) }
{
    account.check.as_slice() == check_of(pw).as_slice()
}

/// The answer that admits to an account.
pub(crate) fn admitted(
    alloc: Global,
    secret: &[u8; 32],
    number: u64,
    generation: u64,
    identifier: &Text,
) -> Result<Answer, AllocError>
    requires { number < 2 ^ 48 }
    ensures { IfOk result (λ given. given ≡ answer.Account (session_token secret.now number generation)
        identifier.now (account_uuid number)) }
{
    let token = session_token(alloc, secret, number, generation)?;
    let identifier = identifier.try_clone(alloc)?;
    let uuid = account_uuid(number);
    Ok(Answer::Account {
        token,
        identifier,
        uuid,
    })
}

// The number of the account that has the identifier.
fn number_of(state: &State, identifier: &str) -> Option<u64>
    requires { IsUnmarked state.now }
    ensures some { IfSome result (IsNamed (state_rows state.now) identifier.now) }
    ensures none { IfNone result (IsUnknown (state_rows state.now) identifier.now) }
{
    'accounts: for number in state.names.numbers(identifier) {
        if is_named(state, *number, identifier) {
            return Some(*number);
        }
    }
    None
}

// Whether the account of this number has the identifier.
fn is_named(state: &State, number: u64, identifier: &str) -> bool
    requires { IsUnmarked state.now }
    ensures { IsTrue result ↔ IsNamed (state_rows state.now) identifier.now number }
{
    match state.account(number) {
        Some(account) => account.identifier.as_str() == identifier,
        None => false,
    }
}

// The account of this number, which there is.
fn account_of(state: &State, number: u64) -> &AccountRow
    requires unmarked { IsUnmarked state.now }
    requires there { (account : AccountRow) × HasAccount (state_rows state.now) number account }
    ensures { HasAccount (state_rows state.now) number result.now }
{
    match state.account(number) {
        Some(account) => account,
        None => unreachable!(),
    }
}

/// The store's own row, which a sound state has.
pub(crate) fn store_of(state: &State) -> &StoreRow
    requires unmarked { IsUnmarked state.now }
    requires sound { IsSound (state_rows state.now) }
    ensures { HasStore (state_rows state.now) result.now }
{
    match state.store() {
        Some(store) => store,
        None => unreachable!(),
    }
}
