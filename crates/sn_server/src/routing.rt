//! From a message to the request that it is.

ghost use Rattle.std.specs.Prelude.{◌≡◌, ◌+◌, ◌≤◌, [], length, take, drop, IfErr, IfOk};
ghost use Rattle.std.specs.Str.{IsUtf8};
ghost use Rattle.sn_server.specs.Routing.{AsksFor, path_of, query_of, route_at, text_of};
ghost use Rattle.sn_server.specs.Turning.{IsTurned, IsUnreadFor};
ghost use Rattle.sn_sync.specs.Laws.{FitsRequest};
ghost use Rattle.sn_server.specs.declared.routing.Turned.TheVariants.{Away};

use sn_http::Message;
use sn_string::Text;
use sn_sync::{Answer, More, Request, Route, SyncError, read_request};
use std::alloc::Global;

/// Why a message is no request.
#[derive(Drop)]
pub(crate) enum Turned {
    /// It is answered so; the text is the method that a 405 allows, and else empty.
    Away { given: Answer, allow: Text },
    Memory,
}

/// The request that a message is.
pub(crate) fn request_of(alloc: Global, message: &Message) -> Result<Request, Turned>
    requires { IsUtf8 message.now.token }
    ensures ok { IfOk result (AsksFor message.now) }
    ensures within { IfOk result FitsRequest }
    ensures err { IfErr result (IsTurned message.now) }
{
    let Some(route) = route_at(path_of(message.target.as_slice())) else {
        return Err(refused(404, "no-route", ""));
    };
    if message.method.as_slice() != route.method().as_bytes() {
        return Err(refused(405, "method", route.method()));
    }
    let Ok(token) = str::from_utf8(message.token.as_slice()) else {
        unreachable!()
    };
    match read_request(alloc, route, token, text_of(route, message)) {
        Ok(request) => Ok(request),
        Err(error) => Err(unread(error)),
    }
}

fn refused(status: u16, tag: &'static str, allow: &'static str) -> Turned
    ensures { result ≡ Away (Answer.Refused status tag.now More.Nothing) allow.now }
{
    let given = Answer::Refused {
        status,
        tag: Text::fixed(tag),
        more: More::Nothing,
    };
    Turned::Away {
        given,
        allow: Text::fixed(allow),
    }
}

// The answer to a text that isn't read.
fn unread(error: SyncError) -> Turned
    ensures { IsUnreadFor error result }
{
    match error {
        SyncError::NotJson => refused(400, "not-json", ""),
        SyncError::Member { name } => bad(400, "member", More::Name(name)),
        SyncError::Limit { number, .. } => bad(400, "limit", More::Number(number)),
        SyncError::Memory => Turned::Memory,
    }
}

fn bad(status: u16, tag: &'static str, more: More) -> Turned
    ensures { result ≡ Away (Answer.Refused status tag.now more) [] }
{
    let given = Answer::Refused {
        status,
        tag: Text::fixed(tag),
        more,
    };
    Turned::Away {
        given,
        allow: Text::fixed(""),
    }
}

fn route_at(path: &[u8]) -> Option<Route>
    ensures { result ≡ route_at path.now }
{
    if path == Route::Register.path().as_bytes() {
        Some(Route::Register)
    } else if path == Route::Params.path().as_bytes() {
        Some(Route::Params)
    } else if path == Route::SignIn.path().as_bytes() {
        Some(Route::SignIn)
    } else if path == Route::ChangePw.path().as_bytes() {
        Some(Route::ChangePw)
    } else if path == Route::Sync.path().as_bytes() {
        Some(Route::Sync)
    } else {
        None
    }
}

// The text that a route reads.
fn text_of(route: Route, message: &Message) -> &[u8]
    ensures { result.now ≡ text_of route message.now }
{
    match route {
        Route::Params => query_of(message.target.as_slice()),
        Route::Register | Route::SignIn | Route::ChangePw | Route::Sync => message.body.as_slice(),
    }
}

// What stands before the first question mark.
fn path_of(target: &[u8]) -> &[u8]
    ensures { result.now ≡ path_of target.now }
{
    &target[..mark_in(target)]
}

// What stands behind it.
fn query_of(target: &[u8]) -> &[u8]
    ensures { result.now ≡ query_of target.now }
{
    let mark = mark_in(target);
    if mark < target.len() {
        &target[mark + 1..]
    } else {
        &[]
    }
}

// Where the first question mark stands, or the end.
fn mark_in(target: &[u8]) -> usize
    ensures within { result ≤ length target.now }
    ensures path { path_of target.now ≡ take result target.now }
    ensures query { query_of target.now ≡ drop (result + 1) target.now }
{
    let mut at = 0;
    'bytes: while at < target.len() && target[at] != b'?' {
        at += 1;
    }
    at
}
