//! Reading answers.

ghost use Rattle.std.specs.Prelude.{◌≡◌, ℕ, List, IfErr, IfNone, IfOk, IfSome, codes};
ghost use Rattle.serde_json.specs.Data.{Data};
ghost use Rattle.serde_json.specs.Find.{get};
ghost use Rattle.sn_json.specs.Views.{items_view, view};
ghost use Rattle.sn_sync.specs.Answers.{AreConflicts, HasNoNumber, HasNoUuid, IsAnswer, IsConflict, IsUser, RefusesAnswer, RefusesConflict, RefusesConflictList, RefusesConflicts, RefusesMember, RefusesOn, RefusesRefused, RefusesUser, RefusesUserOf, SaysConflicts, SaysItem, SaysMore, SaysOn, SaysRefused, SaysUser};
ghost use Rattle.sn_sync.specs.Fits.{FitsAnswer};
ghost use Rattle.sn_sync.specs.Items.{sent, stored};
ghost use Rattle.sn_sync.specs.Members.{IsObject, SaysNumber, SaysText, SaysUuid};
ghost use Rattle.sn_sync.specs.Refusals.{Caused};
ghost use Rattle.sn_sync.specs.declared.request.Route.TheVariants as route;

use crate::answer::{Answer, Conflict, More};
use crate::error::SyncError;
use crate::item::Item;
use crate::item_reader::{sent_item, stored_item, stored_items, values_in};
use crate::members::{
    cost_in, identifier_in, lacks, named_uuid, nonce_in, nullable_in, number_of, session_token_in,
    text_in, text_of, uuid_in, word_in,
};
use crate::request::Route;
use crate::request_reader::body_of;
use sn_json::{Node, Nodes, Scratch};
use sn_string::{OwnedList, Params, Text, uuid_of};
use std::alloc::{AllocError, Global};
use uuid::Uuid;

/// Reads the body of an answer to a request on this route.
pub fn read_answer(
    alloc: Global,
    route: Route,
    status: u16,
    text: &[u8],
) -> Result<Answer, SyncError>
    ensures ok { IfOk result (IsAnswer route status text.now) }
    ensures fits { IfOk result (FitsAnswer route status) }
    ensures err { IfErr result (Caused (RefusesAnswer route status text.now)) }
{
    let mut scratch = Scratch::new(alloc);
    let document = body_of(alloc, text, &mut scratch)?;
    if status == 200 {
        accepted(alloc, route, document.root())
    } else {
        refused(alloc, status, document.root())
    }
}

fn accepted(alloc: Global, route: Route, body: Node<'_, '_>) -> Result<Answer, SyncError>
    ensures ok { IfOk result (SaysOn route (view body.entry)) }
    ensures err { IfErr result (Caused (RefusesOn route (view body.entry))) }
{
    match route {
        Route::Params => params(alloc, body),
        Route::Sync => synced(alloc, body),
        Route::Register | Route::SignIn | Route::ChangePw => account(alloc, body),
    }
}

// ---- an account

// The user that an account's answer names.
#[derive(Drop)]
struct User {
    identifier: Text,
    uuid: Uuid,
}

fn account(alloc: Global, body: Node<'_, '_>) -> Result<Answer, SyncError>
    ensures ok { IfOk result (SaysOn route.Register (view body.entry)) }
    ensures err { IfErr result (Caused (RefusesOn route.Register (view body.entry))) }
{
    let token = session_token_in(alloc, body, "token")?;
    let user = user_in(alloc, body)?;
    Ok(Answer::Account {
        token,
        identifier: user.identifier,
        uuid: user.uuid,
    })
}

fn user_in(alloc: Global, body: Node<'_, '_>) -> Result<User, SyncError>
    ensures ok { IfOk result (λ user. SaysUser (get (codes "user") (view body.entry)) user.identifier user.uuid) }
    ensures err { IfErr result (Caused (RefusesUser (get (codes "user") (view body.entry)))) }
{
    match object_in(body, "user") {
        Some(value) => user_of(alloc, value),
        None => Err(lacks("user")),
    }
}

fn user_of(alloc: Global, value: Node<'_, '_>) -> Result<User, SyncError>
    requires { IsObject (view value) }
    ensures ok { IfOk result (λ user. IsUser (view value.entry) user.identifier user.uuid) }
    ensures err { IfErr result (Caused (RefusesUserOf (view value.entry))) }
{
    let identifier = identifier_in(alloc, value, "email")?;
    let uuid = uuid_in(value, "uuid")?;
    Ok(User { identifier, uuid })
}

fn object_in<'v, 'a>(body: Node<'v, 'a>, name: &str) -> Option<Node<'v, 'a>>
    ensures some { IfSome result (λ value. (get name.now (view body.entry) ≡ Some (view value)) × IsObject (view value)) }
    ensures none { IfNone result ((d : Data) → get name.now (view body.entry) ≡ Some d → ¬ (IsObject d)) }
{
    match body.get(name) {
        Some(value) if value.is_object() => Some(value),
        _ => None,
    }
}

// ---- parameters

fn params(alloc: Global, body: Node<'_, '_>) -> Result<Answer, SyncError>
    ensures ok { IfOk result (SaysOn route.Params (view body.entry)) }
    ensures err { IfErr result (Caused (RefusesOn route.Params (view body.entry))) }
{
    let identifier = identifier_in(alloc, body, "identifier")?;
    let pw_cost = cost_in(body, "pw_cost")?;
    let pw_nonce = nonce_in(alloc, body, "pw_nonce")?;
    word_in(body, "version", "003")?;
    Ok(Answer::Params(Params {
        identifier,
        pw_cost,
        pw_nonce,
    }))
}

// ---- a sync

fn synced(alloc: Global, body: Node<'_, '_>) -> Result<Answer, SyncError>
    ensures ok { IfOk result (SaysOn route.Sync (view body.entry)) }
    ensures err { IfErr result (Caused (RefusesOn route.Sync (view body.entry))) }
{
    let conflicts = conflicts(alloc, body)?;
    let cursor_token = nullable_in(alloc, body, "cursor_token")?;
    let retrieved = stored_items(alloc, body, "retrieved_items")?;
    let saved = stored_items(alloc, body, "saved_items")?;
    let sync_token = text_in(alloc, body, "sync_token")?;
    Ok(Answer::Sync {
        conflicts,
        cursor_token,
        retrieved,
        saved,
        sync_token,
    })
}

fn conflicts(alloc: Global, body: Node<'_, '_>) -> Result<OwnedList<Conflict>, SyncError>
    ensures ok { IfOk result (SaysConflicts (get (codes "conflicts") (view body.entry))) }
    ensures err { IfErr result (Caused (RefusesConflictList (get (codes "conflicts") (view body.entry)))) }
{
    match values_in(body, "conflicts") {
        Some(values) => conflicts_of(alloc, values),
        None => Err(lacks("conflicts")),
    }
}

fn conflicts_of(alloc: Global, values: Nodes<'_, '_>) -> Result<OwnedList<Conflict>, SyncError>
    ensures ok { IfOk result (AreConflicts (items_view values.entry)) }
    ensures err { IfErr result (Caused (RefusesConflicts (items_view values.entry))) }
{
    let mut conflicts = OwnedList::new(alloc);
    let mut left = values;
    'values: while let Some((value, rest)) = left.split_first() {
        conflicts.push(conflict(alloc, value)?)?;
        left = rest;
    }
    Ok(conflicts)
}

fn conflict(alloc: Global, value: Node<'_, '_>) -> Result<Conflict, SyncError>
    ensures ok { IfOk result (IsConflict (view value.entry)) }
    ensures err { IfErr result (Caused (RefusesConflict (view value.entry))) }
{
    if !value.is_object() {
        return Err(lacks("conflicts"));
    }
    match text_of(value, "type") {
        Some("sync_conflict") => Ok(Conflict::Sync {
            server: server_item(alloc, value)?,
        }),
        Some("uuid_conflict") => Ok(Conflict::Uuid {
            unsaved: unsaved_item(alloc, value)?,
        }),
        Some("content_error") => Ok(Conflict::Content {
            unsaved: unsaved_item(alloc, value)?,
        }),
        _ => Err(lacks("type")),
    }
}

fn server_item(alloc: Global, value: Node<'_, '_>) -> Result<Item, SyncError>
    ensures ok { IfOk result (SaysItem stored (get (codes "server_item") (view value.entry))) }
    ensures err { IfErr result (Caused (RefusesMember stored (codes "server_item") (get (codes "server_item") (view value.entry)))) }
{
    match value.get("server_item") {
        Some(item) => stored_item(alloc, "server_item", item),
        None => Err(lacks("server_item")),
    }
}

fn unsaved_item(alloc: Global, value: Node<'_, '_>) -> Result<Item, SyncError>
    ensures ok { IfOk result (SaysItem sent (get (codes "unsaved_item") (view value.entry))) }
    ensures err { IfErr result (Caused (RefusesMember sent (codes "unsaved_item") (get (codes "unsaved_item") (view value.entry)))) }
{
    match value.get("unsaved_item") {
        Some(item) => sent_item(alloc, "unsaved_item", item),
        None => Err(lacks("unsaved_item")),
    }
}

// ---- a refusal

fn refused(alloc: Global, status: u16, body: Node<'_, '_>) -> Result<Answer, SyncError>
    ensures ok { IfOk result (SaysRefused status (view body.entry)) }
    ensures err { IfErr result (Caused (RefusesRefused (view body.entry))) }
{
    let Some(error) = body.get("error") else {
        return Err(lacks("error"));
    };
    let Some(tag) = text_of(error, "tag") else {
        return Err(lacks("error"));
    };
    let tag = Text::of(alloc, tag)?;
    let more = more_of(alloc, error)?;
    Ok(Answer::Refused { status, tag, more })
}

// The members beside the tag that have their kind.
fn more_of(alloc: Global, error: Node<'_, '_>) -> Result<More, AllocError>
    ensures { IfOk result (SaysMore (view error.entry)) }
{
    match (number_of(error, "number"), named_uuid(error, "uuid")) {
        (Some(number), Some(uuid)) => Ok(More::Both(number, uuid)),
        (Some(number), None) => Ok(More::Number(number)),
        (None, Some(uuid)) => Ok(More::Uuid(uuid)),
        (None, None) => match text_of(error, "name") {
            Some(name) => Ok(More::Name(Text::of(alloc, name)?)),
            None => Ok(More::Nothing),
        },
    }
}
