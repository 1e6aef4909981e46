//! Reading requests.

ghost use Rattle.std.specs.Prelude.{◌≡◌, IfErr, IfOk, codes, option_map, string_bytes};
ghost use Rattle.serde_json.specs.Find.{get};
ghost use Rattle.sn_json.specs.Views.{document_view, view};
ghost use Rattle.sn_sync.specs.Fits.{FitsRequest};
ghost use Rattle.sn_sync.specs.Members.{SaysCost, SaysNonce, SaysWord};
ghost use Rattle.sn_sync.specs.Query.{first_value};
ghost use Rattle.sn_sync.specs.Refusals.{Caused};
ghost use Rattle.sn_sync.specs.Requests.{HasBody, HasToken, IsRequest, RefusesBody, RefusesChange, RefusesCostOn, RefusesLimit, RefusesQuery, RefusesRegistration, RefusesRequest, RefusesSignIn, RefusesSync, Says, SaysLimit, SaysQuery, route_of};
ghost use Rattle.sn_sync.specs.declared.request.Route.TheVariants as route;

use crate::error::SyncError;
use crate::item_reader::sent_items;
use crate::members::{
    cost_in, hash_in, identifier_in, is_left_out, lacks, nonce_in, number_of, optional_in, word_in,
};
use crate::request::{Request, Route};
use sn_json::{Document, JsonError, Node, Scratch};
use sn_string::{Params, Text};
use std::alloc::{AllocError, Global};

// How many items an answer may give, and how many it gives where the request says nothing.
const MOST_ITEMS: u32 = 500;

/// Reads a request: the text is the body, for parameters the query. The session token is the one of the
/// request's head, and is empty where it has none.
pub fn read_request(
    alloc: Global,
    route: Route,
    token: &str,
    text: &[u8],
) -> Result<Request, SyncError>
    ensures ok { IfOk result (IsRequest route token.now text.now) }
    ensures fits { IfOk result FitsRequest }
    ensures err { IfErr result (Caused (RefusesRequest route text.now)) }
{
    if let Route::Params = route {
        return question(alloc, text);
    }
    let mut scratch = Scratch::new(alloc);
    let document = body_of(alloc, text, &mut scratch)?;
    let body = document.root();
    match route {
        Route::Params => unreachable!(),
        Route::Register => registration(alloc, body),
        Route::SignIn => sign_in(alloc, body),
        Route::ChangePw => change(alloc, token, body),
        Route::Sync => sync(alloc, token, body),
    }
}

// The account whose parameters are asked for.
fn question(alloc: Global, query: &[u8]) -> Result<Request, SyncError>
    ensures ok { IfOk result (SaysQuery query.now) }
    ensures err { IfErr result (Caused (RefusesQuery query.now)) }
{
    match email_of(alloc, query)? {
        Some(email) if 1 <= email.len() && email.len() <= 254 => Ok(Request::Params {
            identifier: Text::of_string(email),
        }),
        _ => Err(lacks("email")),
    }
}

// The first value of this name.
fn email_of(alloc: Global, query: &[u8]) -> Result<Option<String>, AllocError>
    ensures { IfOk result (λ email. option_map string_bytes email ≡ first_value (codes "email") query.now) }
{
    for pair in form_urlencoded::parse(alloc, query) {
        let (name, value) = pair?;
        if &*name == "email" {
            return Ok(Some(value.into_owned(alloc)?));
        }
    }
    Ok(None)
}

// An object's text, as it is read. The scratch is lent for as long.
pub(crate) fn body_of<'a>(
    alloc: Global,
    text: &'a [u8],
    scratch: &'a mut Scratch,
) -> Result<Document<'a>, SyncError>
    ensures ok { IfOk result (λ document. HasBody text.now (document_view document)) }
    ensures err { IfErr result (Caused (RefusesBody (λ d e. ⊥) text.now)) }
{
    match Document::from_slice(alloc, text, scratch) {
        Ok(document) => {
            if document.root().is_object() {
                Ok(document)
            } else {
                Err(SyncError::NotJson)
            }
        }
        Err(JsonError::NotJson) => Err(SyncError::NotJson),
        Err(JsonError::Memory) => Err(SyncError::Memory),
    }
}

fn registration(alloc: Global, body: Node<'_, '_>) -> Result<Request, SyncError>
    ensures ok { IfOk result (λ r. (route_of r ≡ route.Register) × Says (view body.entry) r) }
    ensures err { IfErr result (Caused (RefusesRegistration (view body.entry))) }
{
    let identifier = identifier_in(alloc, body, "email")?;
    let pw = hash_in(body, "password")?;
    let (cost, nonce) = cost_on(alloc, body)?;
    let Some(params) = Params::new(identifier, cost, nonce) else {
        unreachable!();
    };
    Ok(Request::Register { params, pw })
}

fn sign_in(alloc: Global, body: Node<'_, '_>) -> Result<Request, SyncError>
    ensures ok { IfOk result (λ r. (route_of r ≡ route.SignIn) × Says (view body.entry) r) }
    ensures err { IfErr result (Caused (RefusesSignIn (view body.entry))) }
{
    let identifier = identifier_in(alloc, body, "email")?;
    let pw = hash_in(body, "password")?;
    Ok(Request::SignIn { identifier, pw })
}

fn change(alloc: Global, token: &str, body: Node<'_, '_>) -> Result<Request, SyncError>
    ensures ok { IfOk result (λ r. (route_of r ≡ route.ChangePw) × Says (view body.entry) r × HasToken token.now r) }
    ensures err { IfErr result (Caused (RefusesChange (view body.entry))) }
{
    let current = hash_in(body, "current_password")?;
    let pw = hash_in(body, "new_password")?;
    let (cost, nonce) = cost_on(alloc, body)?;
    let token = Text::of(alloc, token)?;
    Ok(Request::ChangePw {
        token,
        current,
        pw,
        cost,
        nonce,
    })
}

// The cost and the nonce of a password, where the version is the one that is served.
fn cost_on(alloc: Global, body: Node<'_, '_>) -> Result<(u32, Text), SyncError>
    ensures ok { IfOk result (λ both. SaysCost (get (codes "pw_cost") (view body.entry)) both.0
        × SaysNonce (get (codes "pw_nonce") (view body.entry)) both.1
        × SaysWord (codes "003") (get (codes "version") (view body.entry)) (codes "003")) }
    ensures err { IfErr result (Caused (RefusesCostOn (view body.entry))) }
{
    let cost = cost_in(body, "pw_cost")?;
    let nonce = nonce_in(alloc, body, "pw_nonce")?;
    word_in(body, "version", "003")?;
    Ok((cost, nonce))
}

fn sync(alloc: Global, token: &str, body: Node<'_, '_>) -> Result<Request, SyncError>
    ensures ok { IfOk result (λ r. (route_of r ≡ route.Sync) × Says (view body.entry) r × HasToken token.now r) }
    ensures err { IfErr result (Caused (RefusesSync (view body.entry))) }
{
    word_in(body, "api", "20190520")?;
    let cursor_token = optional_in(alloc, body, "cursor_token")?;
    let items = sent_items(alloc, body, "items")?;
    let limit = limit_in(body)?;
    let sync_token = optional_in(alloc, body, "sync_token")?;
    let token = Text::of(alloc, token)?;
    Ok(Request::Sync {
        token,
        items,
        limit,
        sync_token,
        cursor_token,
    })
}

// How many items the answer may give.
fn limit_in(body: Node<'_, '_>) -> Result<u32, SyncError>
    ensures ok { IfOk result (SaysLimit (get (codes "limit") (view body.entry))) }
    ensures err { IfErr result (Caused (RefusesLimit (get (codes "limit") (view body.entry)))) }
{
    match number_of(body, "limit") {
        Some(number) if 1 <= number && number <= u64::from(MOST_ITEMS) => Ok(number as u32),
        Some(number) => Err(SyncError::Limit {
            name: Text::fixed("limit"),
            number,
        }),
        None if is_left_out(body, "limit") => Ok(MOST_ITEMS),
        None => Err(lacks("limit")),
    }
}
