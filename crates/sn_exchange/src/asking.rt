//! Asking a server over a link: the bytes of a request, and what those that come back come to.

ghost use Rattle.std.specs.Prelude.{◌≡◌, ◌≤◌, IfErr, IfOk, IsErrOf, string_bytes};
ghost use Rattle.sn_exchange.specs.Asked.{HeardAs, IsAsked, IsGranted, IsHeard, IsHeardBehind, IsRefusalFor, IsUnreadBody};
ghost use Rattle.sn_device.specs.Asking.{Fails, IsReply, IsRequestBytes, Reply, body_of, said, session_of, target_of};
ghost use Rattle.sn_device.specs.Runs.{most_exchanges};
ghost use Rattle.sn_io.specs.Causes.{Rose};
ghost use Rattle.sn_net.specs.Exchanges.{answer_of};
ghost use Rattle.sn_sync.specs.Answers.{IsAnswer};
ghost use Rattle.sn_sync.specs.Fits.{FitsAnswer};
ghost use Rattle.sn_sync.specs.Requests.{route_of};

use sn_device::{ClientError, Place};
use sn_net::{AskError, Link};
use sn_sync::{Answer, Request, Route, SyncError};
use std::alloc::{AllocError, Global};

/// How many exchanges a call makes at most.
pub const MOST_EXCHANGES: u64 = 10_000;

/// The most bytes of an answer: a head of 16,384 bytes and a body of 33,554,432.
const LONGEST_ANSWER: usize = 33_570_816;

/// Asks the link's host, and gives its answer. A refusal of the server is none: it ends the call.
pub fn ask<L: Link>(alloc: Global, link: &mut L, request: &Request) -> Result<Answer, ClientError>
    ensures asked { IsAsked (L.asks link.old link.new) (L.aimed link.old) request.now result }
    ensures fits { IfOk result (FitsAnswer (route_of request.now) 200) }
    ensures aimed { L.aimed link.new ≡ L.aimed link.old }
    ensures link_fault { IsErrOf result ClientError.LinkFault → Rose (L.fault_count link.old) (L.fault_count link.new) }
    ensures link_later { L.fault_count link.old ≤ L.fault_count link.new }
{
    match hear(alloc, link, request) {
        Ok(answer) => granted(answer),
        Err(why) => Err(why),
    }
}

// The answer, if it is no refusal.
fn granted(answer: Answer) -> Result<Answer, ClientError>
    ensures ok { IfOk result (λ given. (given ≡ answer) × IsGranted answer) }
    ensures err { IfErr result (Fails (said answer)) }
    ensures link { IsErrOf result ClientError.LinkFault → ⊥ }
{
    match answer {
        Answer::Refused { status, tag, .. } => Err(ClientError::Refused { status, tag }),
        answer => Ok(answer),
    }
}

/// Asks the link's host, and gives its answer, which may be a refusal.
pub(crate) fn hear<L: Link>(
    alloc: Global,
    link: &mut L,
    request: &Request,
) -> Result<Answer, ClientError>
    ensures heard { IsHeard (L.asks link.old link.new) (L.aimed link.old) request.now result }
    ensures fits { IfOk result (λ given. IsGranted given → FitsAnswer (route_of request.now) 200 given) }
    ensures aimed { L.aimed link.new ≡ L.aimed link.old }
    ensures link_fault { IsErrOf result ClientError.LinkFault → Rose (L.fault_count link.old) (L.fault_count link.new) }
    ensures link_later { L.fault_count link.old ≤ L.fault_count link.new }
{
    let Ok((route, bytes)) = request_bytes(alloc, link.host(), request) else {
        return Err(ClientError::Memory);
    };
    let answered = link.ask(alloc, &bytes, LONGEST_ANSWER);
    reply(alloc, route, answered)
}

/// The same behind so many exchanges of a call.
pub fn hear_behind<L: Link>(
    alloc: Global,
    link: &mut L,
    made: u64,
    request: &Request,
) -> Result<Answer, ClientError>
    requires few { made ≤ most_exchanges }
    ensures heard { IsHeardBehind made (L.asks link.old link.new) (L.aimed link.old) request.now result }
    ensures fits { IfOk result (λ given. IsGranted given → FitsAnswer (route_of request.now) 200 given) }
    ensures aimed { L.aimed link.new ≡ L.aimed link.old }
    ensures link_fault { IsErrOf result ClientError.LinkFault → Rose (L.fault_count link.old) (L.fault_count link.new) }
    ensures link_later { L.fault_count link.old ≤ L.fault_count link.new }
{
    let used = made >= MOST_EXCHANGES;
    if used {
        return Err(ClientError::RoundsUsed);
    }
    hear(alloc, link, request)
}

/// The same with a request that isn't needed behind it.
pub fn ask_with<L: Link>(
    alloc: Global,
    link: &mut L,
    request: Request,
) -> Result<Answer, ClientError>
    ensures asked { IsAsked (L.asks link.old link.new) (L.aimed link.old) request result }
    ensures fits { IfOk result (FitsAnswer (route_of request) 200) }
    ensures aimed { L.aimed link.new ≡ L.aimed link.old }
    ensures link_fault { IsErrOf result ClientError.LinkFault → Rose (L.fault_count link.old) (L.fault_count link.new) }
    ensures link_later { L.fault_count link.old ≤ L.fault_count link.new }
{
    ask(alloc, link, &request)
}

// The bytes of a request to a host, and its route.
fn request_bytes(
    alloc: Global,
    host: &str,
    request: &Request,
) -> Result<(Route, Vec<u8>), AllocError>
    ensures route { IfOk result (λ written. written.0 ≡ route_of request.now) }
    ensures bytes { IfOk result (λ written. IsRequestBytes host.now request.now written.1.items) }
{
    let (route, text) = sn_sync::write_request(alloc, request)?;
    let target = target(alloc, route, &text)?;
    let bytes = sn_http::write_request(
        alloc,
        route.method(),
        &target,
        host,
        session(request),
        body(route, &text),
    )?;
    Ok((route, bytes))
}

// Where a request goes at its host.
fn target(alloc: Global, route: Route, text: &str) -> Result<String, AllocError>
    ensures { IfOk result (λ target. string_bytes target ≡ target_of route text.now) }
{
    match route {
        Route::Params => format!(in alloc; "{}?{text}", route.path()),
        _ => route.path().to_string(alloc),
    }
}

// The body of a request.
fn body(route: Route, text: &str) -> &[u8]
    ensures { result.now ≡ body_of route text.now }
{
    match route {
        Route::Params => &[],
        _ => text.as_bytes(),
    }
}

// The session token that goes with a request; none is empty.
fn session(request: &Request) -> &[u8]
    ensures { result.now ≡ session_of request.now }
{
    match request {
        Request::ChangePw { token, .. } | Request::Sync { token, .. } => token.as_str().as_bytes(),
        Request::Register { .. } | Request::Params { .. } | Request::SignIn { .. } => &[],
    }
}

// What comes of a request on this route.
fn reply(
    alloc: Global,
    route: Route,
    answered: Result<Vec<u8>, AskError>,
) -> Result<Answer, ClientError>
    ensures reply { (reply : Reply) × IsReply route (answer_of answered) reply × HeardAs reply result }
    ensures fits { IfOk result (λ given. IsGranted given → FitsAnswer route 200 given) }
    ensures link { IsErrOf result ClientError.LinkFault → IsErrOf answered AskError.Failed }
{
    match answered {
        Ok(bytes) => read(alloc, route, &bytes),
        Err(AskError::Failed) => Err(ClientError::LinkFault),
        Err(AskError::Memory) => Err(ClientError::Memory),
    }
}

// What the bytes come to that came back.
fn read(alloc: Global, route: Route, bytes: &[u8]) -> Result<Answer, ClientError>
    ensures reply { (reply : Reply) × IsReply route (Some bytes.now) reply × HeardAs reply result }
    ensures fits { IfOk result (λ given. IsGranted given → FitsAnswer route 200 given) }
    ensures link { IsErrOf result ClientError.LinkFault → ⊥ }
{
    let Ok((status, body)) = sn_http::read_answer(bytes) else {
        return Err(ClientError::BadAnswer { place: Place::Head });
    };
    read_body(alloc, route, status, body)
}

// What an answer's body comes to.
fn read_body(alloc: Global, route: Route, status: u16, body: &[u8]) -> Result<Answer, ClientError>
    ensures ok { IfOk result (IsAnswer route status body.now) }
    ensures fits { IfOk result (λ given. IsGranted given → FitsAnswer route 200 given) }
    ensures err { IfErr result (IsUnreadBody route status body.now) }
    ensures link { IsErrOf result ClientError.LinkFault → ⊥ }
{
    match sn_sync::read_answer(alloc, route, status, body) {
        Ok(answer) => Ok(answer),
        Err(error) => Err(unread(error)),
    }
}

// The refusal for a body that isn't read.
fn unread(error: SyncError) -> ClientError
    ensures { IsRefusalFor error result }
{
    match error {
        SyncError::NotJson => ClientError::BadAnswer { place: Place::Json },
        SyncError::Member { name } | SyncError::Limit { name, .. } => ClientError::BadAnswer {
            place: Place::Member { name },
        },
        SyncError::Memory => ClientError::Memory,
    }
}
