//! From a message to what is known of the request that it is.

ghost use Rattle.std.specs.Prelude.{◌≡◌, ◌+◌, ◌≤◌, length, take, drop, IfOk, Some};
ghost use Rattle.std.specs.Str.{IsUtf8};
ghost use Rattle.sn_server.specs.Routing.{AsksFor, path_of, query_of, route_at, text_of};
ghost use Rattle.sn_sync.specs.Requests.{IsRequest};
ghost use Rattle.sn_sync.specs.declared.request.Request.{Request};
ghost use Rattle.sn_telling.specs.Walking.{known_of};

use crate::known::Known;
use sn_http::Message;
use sn_sync::request_laws::{one_request, requests_not_refused};
use sn_sync::{Request, Route, SyncError, read_request};
use std::alloc::{AllocError, Global};

/// What is known of the request that a server takes the message for. Of a message that is no request it may be nothing. The text
/// of a sync isn't read.
pub(crate) fn request_in(alloc: Global, message: &Message) -> Result<Option<Known>, AllocError>
    requires { IsUtf8 message.now.token }
    ensures { IfOk result (λ found. (r : Request) → AsksFor message.now r → found ≡ Some (known_of r)) }
{
    match route_at(path_of(message.target.as_slice())) {
        None => Ok(None),
        Some(Route::Sync) => Ok(Some(Known::Sync)),
        Some(route) => known_on(alloc, message, route),
    }
}

// The same on this route, by the text.
fn known_on(alloc: Global, message: &Message, route: Route) -> Result<Option<Known>, AllocError>
    requires { IsUtf8 message.now.token }
    ensures { IfOk result (λ found. (r : Request) → IsRequest route message.now.token (text_of route message.now) r → found ≡ Some (known_of r)) }
{
    let Ok(token) = str::from_utf8(message.token.as_slice()) else {
        unreachable!()
    };
    let Some(request) = text_read(alloc, route, token, text_of(route, message))? else {
        return Ok(None);
    };
    Ok(Some(known_of(request)))
}

// What is known of it.
fn known_of(request: Request) -> Known
    ensures { result ≡ known_of request }
{
    match request {
        Request::Sync { .. } => Known::Sync,
        Request::Register { .. }
        | Request::Params { .. }
        | Request::SignIn { .. }
        | Request::ChangePw { .. } => Known::Other(request),
    }
}

// The request that a text is on a route.
fn text_read(
    alloc: Global,
    route: Route,
    token: &str,
    text: &[u8],
) -> Result<Option<Request>, AllocError>
    ensures { IfOk result (λ found. (r : Request) → IsRequest route token.now text.now r → found ≡ Some r) }
{
    one_request();
    requests_not_refused();
    match read_request(alloc, route, token, text) {
        Ok(request) => Ok(Some(request)),
        Err(SyncError::Memory) => Err(AllocError),
        Err(_) => Ok(None),
    }
}

fn route_at(path: &[u8]) -> Option<Route>
    ensures { result ≡ route_at path.now }
{
    if path == Route::Register.path().as_bytes() {
        Some(Route::Register)
    } else if path == Route::Params.path().as_bytes() {
        Some(Route::Params)
    } else if path == Route::SignIn.path().as_bytes() {
        Some(Route::SignIn)
    } else if path == Route::ChangePw.path().as_bytes() {
        Some(Route::ChangePw)
    } else if path == Route::Sync.path().as_bytes() {
        Some(Route::Sync)
    } else {
        None
    }
}

// The text that a route reads: for parameters the query, else the body.
fn text_of(route: Route, message: &Message) -> &[u8]
    ensures { result.now ≡ text_of route message.now }
{
    match route {
        Route::Params => query_of(message.target.as_slice()),
        Route::Register | Route::SignIn | Route::ChangePw | Route::Sync => message.body.as_slice(),
    }
}

// What stands before the first question mark.
fn path_of(target: &[u8]) -> &[u8]
    ensures { result.now ≡ path_of target.now }
{
    &target[..mark_in(target)]
}

// What stands behind it.
fn query_of(target: &[u8]) -> &[u8]
    ensures { result.now ≡ query_of target.now }
{
    let mark = mark_in(target);
    if mark < target.len() {
        &target[mark + 1..]
    } else {
        &[]
    }
}

// Where the first question mark stands, or the end.
fn mark_in(target: &[u8]) -> usize
    ensures within { result ≤ length target.now }
    ensures path { path_of target.now ≡ take result target.now }
    ensures query { query_of target.now ≡ drop (result + 1) target.now }
{
    let mut at = 0;
    'bytes: while at < target.len() && target[at] != b'?' {
        at += 1;
    }
    at
}
