//! The answer to any request.

ghost use Rattle.std.specs.Prelude.{◌≡◌, ◌≢◌, ℕ, IfOk, length};
ghost use Rattle.sn_account.specs.Rule.{Rule};
ghost use Rattle.sn_account.specs.RuleBatch.{IsServerBatch};
ghost use Rattle.sn_account.specs.RuleLaws.{ActsFor, SparesAccount, status_of};
ghost use Rattle.sn_account.specs.Sound.{IsSound};
ghost use Rattle.sn_account.specs.States.{IsUnmarked, state_rows};
ghost use Rattle.sn_rows.specs.Table.{rows_after};
ghost use Rattle.sn_sync.specs.Laws.{FitsAnswer, FitsRequest};
ghost use Rattle.sn_sync.specs.Requests.{route_of};

use crate::accounts::{Ruled, parameters, register, sign_in, store_of};
use crate::passwords::{change_password, unchanged};
use crate::state::State;
use crate::sync::sync;
use sn_rows::StoreRow;
use sn_sync::Request;
use std::alloc::{AllocError, Global};

/// What a server changes for a request, and what it answers, at a moment in microseconds since 1970. It changes nothing itself.
pub fn answer(
    alloc: Global,
    state: &State,
    request: &Request,
    now: u64,
) -> Result<Ruled, AllocError>
    requires unmarked { IsUnmarked state.now }
    requires sound { IsSound (state_rows state.now) }
    requires within { FitsRequest request.now }
    ensures rule { IfOk result (λ ruled. Rule (state_rows state.now) request.now now ruled.changes ruled.answer) }
    ensures sound { IfOk result (λ ruled. IsSound (rows_after (state_rows state.now) ruled.changes)) }
    ensures spares { IfOk result (λ ruled. (m : ℕ) → ((n : ℕ) → ActsFor (state_rows state.now) request.now n → m ≢ n)
        → SparesAccount (state_rows state.now) (rows_after (state_rows state.now) ruled.changes) m) }
    ensures within { IfOk result (λ ruled. FitsAnswer (route_of request.now) (status_of ruled.answer) ruled.answer) }
    ensures batch { IfOk result (λ ruled. IsServerBatch ruled.changes) }
{
    let _secret = secret_of(store_of(state));
    by_route(alloc, state, request, now)
}

// The secret, which has its 32 bytes; so the row that is put of it is as short as it may be.
fn secret_of(store: &StoreRow) -> &[u8]
    ensures is { result.now ≡ store.now.secret }
    ensures size { length result.now ≡ 32 }
{
    &store.secret
}

// The rule of the request's route.
fn by_route(alloc: Global, state: &State, request: &Request, now: u64) -> Result<Ruled, AllocError>
    requires unmarked { IsUnmarked state.now }
    requires sound { IsSound (state_rows state.now) }
    requires within { FitsRequest request.now }
    ensures { IfOk result (λ ruled. Rule (state_rows state.now) request.now now ruled.changes ruled.answer) }
{
    match request {
        Request::Register { params, pw } => register(alloc, state, params, pw),
        Request::Params { identifier } => {
            let answer = parameters(alloc, state, identifier.as_str())?;
            Ok(unchanged(alloc, answer))
        }
        Request::SignIn { identifier, pw } => {
            let answer = sign_in(alloc, state, identifier.as_str(), pw)?;
            Ok(unchanged(alloc, answer))
        }
        Request::ChangePw {
            token,
            current,
            pw,
            cost,
            nonce,
        } => change_password(alloc, state, token.as_str(), current, pw, *cost, nonce),
        Request::Sync {
            token,
            items,
            limit,
            sync_token,
            cursor_token,
        } => sync(
            alloc,
            state,
            token.as_str(),
            items.as_slice(),
            *limit,
            sync_token,
            cursor_token,
            now,
        ),
    }
}
