//! Messages of the sync API, read and written again.

ghost use Rattle.std.specs.Prelude.{◌≡◌, ◌<◌, ◌-◌, ◌^◌, take, string_bytes, IfSome};
ghost use Rattle.sn_bench.specs.Messages.{IsRefusalLine, TellsAnswer, TellsRequest, number_of};
ghost use Rattle.sn_sync.specs.Written.{WritesAnswer, WritesRequest};
ghost use Rattle.sn_sync.specs.declared.request.Route.{Route};

use crate::keys::text_of;
use sn_sync::{
    Answer, Request, Route, SyncError, read_answer, read_request, write_answer, write_request,
};
use std::alloc::Global;

/// Reads a request's text on the route of this number, and writes what it says, or the line of its refusal. Answers the
/// length of what was written, and 2^64 - 1 where there is no such route, the session token isn't UTF-8, `room` is too
/// small or memory was wanting.
#[unsafe(no_mangle)]
pub extern "C" fn sn_bench_request(
    alloc: Global,
    route: u8,
    token: &[u8],
    text: &[u8],
    room: &mut [u8],
) -> u64
    ensures { result < 2 ^ 64 - 1 → (on : Route) × (number_of on ≡ route) × TellsRequest on token.now text.now (take result room.new) }
{
    match request_line(alloc, route, token, text) {
        Some(line) => placed(&line, room),
        None => u64::MAX,
    }
}

/// Reads an answer's text of this status on the route of this number, and writes what it says, or the line of its
/// refusal. Answers as above.
#[unsafe(no_mangle)]
pub extern "C" fn sn_bench_answer(
    alloc: Global,
    route: u8,
    status: u16,
    text: &[u8],
    room: &mut [u8],
) -> u64
    ensures { result < 2 ^ 64 - 1 → (on : Route) × (number_of on ≡ route) × TellsAnswer on status text.now (take result room.new) }
{
    match answer_line(alloc, route, status, text) {
        Some(line) => placed(&line, room),
        None => u64::MAX,
    }
}

fn request_line(alloc: Global, route: u8, token: &[u8], text: &[u8]) -> Option<String>
    ensures { IfSome result (λ line. (on : Route) × (number_of on ≡ route) × TellsRequest on token.now text.now (string_bytes line)) }
{
    let route = route_of(route)?;
    let token = text_of(token)?;
    request_told(alloc, route, token, text)
}

fn request_told(alloc: Global, route: Route, token: &str, text: &[u8]) -> Option<String>
    ensures { IfSome result (λ line. TellsRequest route token.now text.now (string_bytes line)) }
{
    match read_request(alloc, route, token, text) {
        Ok(request) => written_request(alloc, &request),
        Err(error) => refusal_line(alloc, &error),
    }
}

fn written_request(alloc: Global, request: &Request) -> Option<String>
    ensures { IfSome result (λ line. WritesRequest request.now (string_bytes line)) }
{
    match write_request(alloc, request) {
        Ok((_route, line)) => Some(line),
        Err(_) => None,
    }
}

fn answer_line(alloc: Global, route: u8, status: u16, text: &[u8]) -> Option<String>
    ensures { IfSome result (λ line. (on : Route) × (number_of on ≡ route) × TellsAnswer on status text.now (string_bytes line)) }
{
    let route = route_of(route)?;
    answer_told(alloc, route, status, text)
}

fn answer_told(alloc: Global, route: Route, status: u16, text: &[u8]) -> Option<String>
    ensures { IfSome result (λ line. TellsAnswer route status text.now (string_bytes line)) }
{
    match read_answer(alloc, route, status, text) {
        Ok(answer) => written_answer(alloc, &answer),
        Err(error) => refusal_line(alloc, &error),
    }
}

fn written_answer(alloc: Global, answer: &Answer) -> Option<String>
    ensures { IfSome result (λ line. WritesAnswer answer.now (string_bytes line)) }
{
    match write_answer(alloc, answer) {
        Ok(line) => Some(line),
        Err(_) => None,
    }
}

pub(crate) fn route_of(number: u8) -> Option<Route>
    ensures { IfSome result (λ on. number_of on ≡ number) }
{
    match number {
        0 => Some(Route::Register),
        1 => Some(Route::Params),
        2 => Some(Route::SignIn),
        3 => Some(Route::ChangePw),
        4 => Some(Route::Sync),
        _ => None,
    }
}

fn refusal_line(alloc: Global, error: &SyncError) -> Option<String>
    ensures { IfSome result (λ line. IsRefusalLine error.now (string_bytes line)) }
{
    match error {
        SyncError::NotJson => format!(in alloc; "!json").ok(),
        SyncError::Member { name } => format!(in alloc; "!member {}", name.as_str()).ok(),
        SyncError::Limit { name, number } => {
            format!(in alloc; "!limit {} {number}", name.as_str()).ok()
        }
        SyncError::Memory => None,
    }
}

/// Writes a line in front of the room. Answers its length, and 2^64 - 1 where it has no place.
pub(crate) fn placed(line: &str, room: &mut [u8]) -> u64
    ensures { result < 2 ^ 64 - 1 → take result room.new ≡ line.now }
{
    if room.len() < line.len() {
        return u64::MAX;
    }
    room[..line.len()].copy_from_slice(line.as_bytes());
    line.len() as u64
}
