//! The server's rules: requests that are answered one after another.
//!
//! A request is spelled by the number of its route, the moment in 8 bytes, its session token and its text, each text behind its
//! length in 4 bytes. Numbers begin with their highest byte.

ghost use Rattle.std.specs.Prelude.{IfOk, IfSome, OnOk};
ghost use Rattle.sn_account.specs.Sound.{IsSound};
ghost use Rattle.sn_account.specs.States.{IsUnmarked, state_rows};
ghost use Rattle.sn_sync.specs.Laws.{FitsRequest};

use crate::setting::text_of;
use sn_account::{State, answer, first_state};
use sn_sync::{Request, Route, read_request};
use std::alloc::{AllocError, Global};

/// Answers requests one after another, from a server without accounts that has this secret, and makes their changes; and then
/// one more so many times, without its changes. Answers how many changes it had in all, and 2^64 - 1 where a request isn't
/// spelled or isn't read, or memory was wanting.
#[unsafe(no_mangle)]
pub extern "C" fn sn_bench_answer_again(
    alloc: Global,
    secret: &[u8; 32],
    requests: &[u8],
    asked: &[u8],
    rounds: u64,
) -> u64 {
    let Some((asked, _behind)) = first_of(alloc, asked) else {
        return u64::MAX;
    };
    match served(alloc, secret, requests) {
        Ok(state) => changes_in(alloc, &state, &asked, rounds),
        Err(_) => u64::MAX,
    }
}

// A request, and the moment at which it is answered.
#[derive(Drop)]
struct Asked {
    request: Request,
    now: u64,
}

// The first request of some bytes, and the bytes behind it.
fn first_of(alloc: Global, bytes: &[u8]) -> Option<(Asked, &[u8])>
    ensures { IfSome result (λ found. FitsRequest found.0.request) }
{
    let (route, rest) = bytes.split_first()?;
    let (now, rest) = rest.split_first_chunk::<8>()?;
    let (token, rest) = counted_in(rest)?;
    let (text, behind) = counted_in(rest)?;
    let request = request_of(alloc, route_of(*route)?, text_of(token)?, text)?;
    let now = u64::from_be_bytes(*now);
    Some((Asked { request, now }, behind))
}

fn request_of(alloc: Global, route: Route, token: &str, text: &[u8]) -> Option<Request>
    ensures { IfSome result FitsRequest }
{
    match read_request(alloc, route, token, text) {
        Ok(request) => Some(request),
        Err(_) => None,
    }
}

fn route_of(number: u8) -> Option<Route> {
    match number {
        0 => Some(Route::Register),
        1 => Some(Route::Params),
        2 => Some(Route::SignIn),
        3 => Some(Route::ChangePw),
        4 => Some(Route::Sync),
        _ => None,
    }
}

// So many bytes as their front says, and the bytes behind them.
fn counted_in(bytes: &[u8]) -> Option<(&[u8], &[u8])> {
    let (length, rest) = bytes.split_first_chunk::<4>()?;
    rest.split_at_checked(u32::from_be_bytes(*length) as usize)
}

// The state after these requests.
fn served(alloc: Global, secret: &[u8; 32], requests: &[u8]) -> Result<Box<State>, AllocError>
    ensures unmarked { IfOk result (λ state. IsUnmarked state.value) }
    ensures sound { IfOk result (λ state. IsSound (state_rows state.value)) }
{
    let mut state = Box::new(alloc, first_state(alloc, *secret)?)?;
    let mut left = requests;
    'requests: for _ in 0..requests.len() {
        if left.is_empty() {
            break;
        }
        let Some((asked, behind)) = first_of(alloc, left) else {
            return Err(AllocError);
        };
        serve(alloc, &mut *state, &asked)?;
        left = behind;
    }
    Ok(state)
}

// Answers one request, and makes its changes.
fn serve(alloc: Global, state: &mut State, asked: &Asked) -> Result<(), AllocError>
    requires unmarked { IsUnmarked state.old }
    requires sound { IsSound (state_rows state.old) }
    requires within { FitsRequest asked.now.request }
    ensures unmarked { OnOk result (IsUnmarked state.new) }
    ensures sound { OnOk result (IsSound (state_rows state.new)) }
{
    let ruled = answer(alloc, state, &asked.request, asked.now)?;
    state.apply(ruled.changes.as_slice())?;
    state.keep();
    Ok(())
}

fn changes_in(alloc: Global, state: &State, asked: &Asked, rounds: u64) -> u64
    requires unmarked { IsUnmarked state.now }
    requires sound { IsSound (state_rows state.now) }
    requires within { FitsRequest asked.now.request }
{
    let mut found = 0u64;
    'rounds: for _ in 0..rounds {
        match answer(alloc, state, &asked.request, asked.now) {
            Ok(ruled) => found = found.saturating_add(ruled.changes.len() as u64),
            Err(_) => return u64::MAX,
        }
    }
    found
}
