//! Writing requests.

ghost use Rattle.std.specs.Prelude.{◌≡◌, ℕ, All, IfOk, List, OnOk, string_bytes};
ghost use Rattle.serde_json.specs.Data.{Items};
ghost use Rattle.serde_json.specs.View.{view};
ghost use Rattle.sn_sync.specs.Appended.{AppendsValue};
ghost use Rattle.sn_sync.specs.Query.{query_text};
ghost use Rattle.sn_sync.specs.Requests.{route_of};
ghost use Rattle.sn_sync.specs.Written.{AreItemsData, IsJsonOf, IsRequestData, WritesRequest, sync_data};

use crate::item::Item;
use crate::item_writer::{items_room, write_items};
use crate::json_texts::{json_text, written_text};
use crate::member_writer::optional_member;
use crate::request::{Request, Route};
use form_urlencoded::Serializer;
use json::Writer;
use serde_json::{Value, json};
use sn_string::{Params, Text, hex_text};
use std::alloc::{AllocError, Global};

// What stands around a sync's items takes some 150 bytes.
const ROOM_OF_SYNC: usize = 200;

/// The text of a request, and where it goes: the body, for parameters the query.
pub fn write_request(alloc: Global, request: &Request) -> Result<(Route, String), AllocError>
    ensures route { IfOk result (λ written. written.0 ≡ route_of request.now) }
    ensures text { IfOk result (λ written. WritesRequest request.now (string_bytes written.1)) }
{
    let text = request_text(alloc, request)?;
    Ok((route_of(request), text))
}

fn route_of(request: &Request) -> Route
    ensures { result ≡ route_of request.now }
{
    match request {
        Request::Register { .. } => Route::Register,
        Request::Params { .. } => Route::Params,
        Request::SignIn { .. } => Route::SignIn,
        Request::ChangePw { .. } => Route::ChangePw,
        Request::Sync { .. } => Route::Sync,
    }
}

fn request_text(alloc: Global, request: &Request) -> Result<String, AllocError>
    ensures { IfOk result (λ text. WritesRequest request.now (string_bytes text)) }
{
    let value = match request {
        Request::Params { identifier } => return query_text(alloc, identifier),
        Request::Sync {
            items,
            limit,
            sync_token,
            cursor_token,
            ..
        } => return sync_text(alloc, items.as_slice(), *limit, sync_token, cursor_token),
        Request::Register { params, pw } => registration_value(alloc, params, pw)?,
        Request::SignIn { identifier, pw } => sign_in_value(alloc, identifier, pw)?,
        Request::ChangePw {
            current,
            pw,
            cost,
            nonce,
            ..
        } => change_value(alloc, current, pw, *cost, nonce)?,
    };
    json_text(alloc, &value)
}

fn query_text(alloc: Global, identifier: &Text) -> Result<String, AllocError>
    ensures { IfOk result (λ text. string_bytes text ≡ query_text identifier.now) }
{
    let mut query = Serializer::new(String::new(alloc));
    query.append_pair("email", identifier.as_str())?;
    Ok(query.finish())
}

fn registration_value(alloc: Global, params: &Params, pw: &[u8; 32]) -> Result<Value, AllocError>
    ensures { IfOk result (λ value. IsRequestData (Request.Register params.now pw.now) (view value)) }
{
    let pw = hex_text(alloc, pw)?;
    json!(in alloc; {
        "email": params.identifier.as_str(),
        "password": pw,
        "pw_cost": params.pw_cost,
        "pw_nonce": params.pw_nonce.as_str(),
        "version": "003"
    })
}

fn sign_in_value(alloc: Global, identifier: &Text, pw: &[u8; 32]) -> Result<Value, AllocError>
    ensures { IfOk result (λ value. IsRequestData (Request.SignIn identifier.now pw.now) (view value)) }
{
    let pw = hex_text(alloc, pw)?;
    json!(in alloc; {
        "email": identifier.as_str(),
        "password": pw
    })
}

fn change_value(
    alloc: Global,
    current: &[u8; 32],
    pw: &[u8; 32],
    cost: u32,
    nonce: &Text,
) -> Result<Value, AllocError>
    ensures { IfOk result (λ value. (token : List ℕ)
        → IsRequestData (Request.ChangePw token current.now pw.now cost nonce.now) (view value)) }
{
    let current = hex_text(alloc, current)?;
    let pw = hex_text(alloc, pw)?;
    json!(in alloc; {
        "current_password": current,
        "new_password": pw,
        "pw_cost": cost,
        "pw_nonce": nonce.as_str(),
        "version": "003"
    })
}

fn sync_text(
    alloc: Global,
    items: &[Item],
    limit: u32,
    sync_token: &Option<Text>,
    cursor_token: &Option<Text>,
) -> Result<String, AllocError>
    ensures { IfOk result (λ text. (ds : Items) × AreItemsData items.now ds
        × IsJsonOf (sync_data ds limit sync_token.now cursor_token.now) (string_bytes text)) }
{
    let room = items_room(items).saturating_add(ROOM_OF_SYNC);
    let mut out = Writer::new(Vec::with_capacity(alloc, room)?);
    write_sync(&mut out, items, limit, sync_token, cursor_token)?;
    Ok(written_text(out))
}

fn write_sync(
    out: &mut Writer,
    items: &[Item],
    limit: u32,
    sync_token: &Option<Text>,
    cursor_token: &Option<Text>,
) -> Result<(), AllocError>
    ensures { OnOk result ((ds : Items) × AreItemsData items.now ds
        × AppendsValue out.old out.new
        (sync_data ds limit sync_token.now cursor_token.now)) }
{
    out.begin_object()?;
    out.key("api")?;
    out.string("20190520")?;
    optional_member(out, "cursor_token", cursor_token)?;
    out.key("items")?;
    write_items(out, items)?;
    out.key("limit")?;
    out.u64(u64::from(limit))?;
    optional_member(out, "sync_token", sync_token)?;
    out.end_object()
}
