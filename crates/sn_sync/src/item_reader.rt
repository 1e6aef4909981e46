//! Reading items.

ghost use Rattle.std.specs.Prelude.{◌≡◌, ◌↔◌, ◌≢◌, IfErr, IfOk, IfNone, IfSome, IsTrue, codes, false};
ghost use Rattle.serde_json.specs.Data.{Items, array};
ghost use Rattle.serde_json.specs.Find.{get};
ghost use Rattle.sn_json.specs.Views.{items_view, view};
ghost use Rattle.sn_sync.specs.Items.{AreItems, IsDeleted, IsItem, RefusesCreated, RefusesDeleted, RefusesItem, RefusesItems, RefusesKept, RefusesList, RefusesPlace, SaysCreated, SaysItems, SaysKind, SaysUpdated, sent, stored};
ghost use Rattle.sn_sync.specs.Members.{IsObject, SaysFlag, SaysTextOrEmpty};
ghost use Rattle.sn_sync.specs.Refusals.{Caused, Lacks};
ghost use Rattle.sn_sync.specs.Stamps.{IsStampOrNone};
ghost use Rattle.sn_sync.specs.Standings.{IsPlace, RefusesRest, standing_of};

use crate::error::SyncError;
use crate::item::{Body, Item};
use crate::members::{
    flag_in, kind_in, lacks, optional_in, stamp_in, stamp_text_in, text_or_empty_in, uuid_in,
};
use sn_json::{Node, Nodes};
use sn_string::{OwnedList, Text};
use std::alloc::Global;
use uuid::Uuid;

// Where an item stands: in a request, and given back unsaved, or among the account's versions.
#[derive(Clone, Copy)]
enum Standing {
    Sent,
    Stored,
}

// The version that an item names, and its uuid.
#[derive(Drop)]
struct Place {
    updated_at: Option<Text>,
    uuid: Uuid,
}

/// An item of a request, or one that an answer gives back unsaved. `outer` is the member in which it stands.
pub(crate) fn sent_item(
    alloc: Global,
    outer: &'static str,
    value: Node<'_, '_>,
) -> Result<Item, SyncError>
    ensures ok { IfOk result (IsItem sent (view value.entry)) }
    ensures err { IfErr result (Caused (RefusesItem sent outer.now (view value.entry))) }
{
    item(alloc, Standing::Sent, outer, value)
}

/// An item that the account has.
pub(crate) fn stored_item(
    alloc: Global,
    outer: &'static str,
    value: Node<'_, '_>,
) -> Result<Item, SyncError>
    ensures ok { IfOk result (IsItem stored (view value.entry)) }
    ensures err { IfErr result (Caused (RefusesItem stored outer.now (view value.entry))) }
{
    item(alloc, Standing::Stored, outer, value)
}

/// The items in the member of this name.
pub(crate) fn sent_items(
    alloc: Global,
    body: Node<'_, '_>,
    name: &'static str,
) -> Result<OwnedList<Item>, SyncError>
    ensures ok { IfOk result (SaysItems sent (get name.now (view body.entry))) }
    ensures err { IfErr result (Caused (RefusesList sent name.now (get name.now (view body.entry)))) }
{
    list(alloc, Standing::Sent, body, name)
}

/// The account's items in the member of this name.
pub(crate) fn stored_items(
    alloc: Global,
    body: Node<'_, '_>,
    name: &'static str,
) -> Result<OwnedList<Item>, SyncError>
    ensures ok { IfOk result (SaysItems stored (get name.now (view body.entry))) }
    ensures err { IfErr result (Caused (RefusesList stored name.now (get name.now (view body.entry)))) }
{
    list(alloc, Standing::Stored, body, name)
}

fn list(
    alloc: Global,
    standing: Standing,
    body: Node<'_, '_>,
    name: &'static str,
) -> Result<OwnedList<Item>, SyncError>
    ensures ok { IfOk result (SaysItems (standing_of standing) (get name.now (view body.entry))) }
    ensures err { IfErr result (Caused (RefusesList (standing_of standing) name.now (get name.now (view body.entry)))) }
{
    match values_in(body, name) {
        Some(values) => items(alloc, standing, name, values),
        None => Err(lacks(name)),
    }
}

fn items(
    alloc: Global,
    standing: Standing,
    outer: &'static str,
    values: Nodes<'_, '_>,
) -> Result<OwnedList<Item>, SyncError>
    ensures ok { IfOk result (AreItems (standing_of standing) (items_view values.entry)) }
    ensures err { IfErr result (Caused (RefusesItems (standing_of standing) outer.now (items_view values.entry))) }
{
    let mut items = OwnedList::new(alloc);
    let mut left = values;
    'values: while let Some((value, rest)) = left.split_first() {
        items.push(item(alloc, standing, outer, value)?)?;
        left = rest;
    }
    Ok(items)
}

fn item(
    alloc: Global,
    standing: Standing,
    outer: &'static str,
    value: Node<'_, '_>,
) -> Result<Item, SyncError>
    ensures ok { IfOk result (IsItem (standing_of standing) (view value.entry)) }
    ensures err { IfErr result (Caused (RefusesItem (standing_of standing) outer.now (view value.entry))) }
{
    if !value.is_object() {
        return Err(lacks(outer));
    }
    if is_deleted(value) {
        deleted_item(alloc, standing, value)
    } else {
        kept_item(alloc, standing, value)
    }
}

fn deleted_item(alloc: Global, standing: Standing, value: Node<'_, '_>) -> Result<Item, SyncError>
    requires object { IsObject (view value) }
    requires deleted { IsDeleted (view value) }
    ensures ok { IfOk result (IsItem (standing_of standing) (view value.entry)) }
    ensures err { IfErr result (Caused (RefusesDeleted (standing_of standing) (view value.entry))) }
{
    let kind = kind_in(alloc, value, 0)?;
    let created = created_in(alloc, standing, value)?;
    let Place { updated_at, uuid } = place_in(alloc, standing, value)?;
    Ok(Item {
        uuid,
        kind,
        created,
        updated_at,
        body: Body::Deleted,
    })
}

fn kept_item(alloc: Global, standing: Standing, value: Node<'_, '_>) -> Result<Item, SyncError>
    requires object { IsObject (view value) }
    requires kept { ¬ (IsDeleted (view value)) }
    ensures ok { IfOk result (IsItem (standing_of standing) (view value.entry)) }
    ensures err { IfErr result (Caused (RefusesKept (standing_of standing) (view value.entry))) }
{
    let content = text_or_empty_in(alloc, value, "content")?;
    let kind = kind_in(alloc, value, 1)?;
    kept_with(alloc, standing, value, content, kind)
}

// The item of this content and this type.
fn kept_with(
    alloc: Global,
    standing: Standing,
    value: Node<'_, '_>,
    content: Text,
    kind: Text,
) -> Result<Item, SyncError>
    requires object { IsObject (view value) }
    requires kept { ¬ (IsDeleted (view value)) }
    requires content { SaysTextOrEmpty (get (codes "content") (view value)) content }
    requires kind { SaysKind 1 (get (codes "content_type") (view value)) kind }
    ensures ok { IfOk result (IsItem (standing_of standing) (view value.entry)) }
    ensures err { IfErr result (Caused (RefusesCreated (standing_of standing) (view value.entry)
        (RefusesRest (standing_of standing) (view value.entry)))) }
{
    let created = created_in(alloc, standing, value)?;
    let (enc, place) = rest_in(alloc, standing, value)?;
    Ok(Item {
        uuid: place.uuid,
        kind,
        created,
        updated_at: place.updated_at,
        body: Body::Strings { content, enc },
    })
}

// The item key, and where the item stands.
fn rest_in(
    alloc: Global,
    standing: Standing,
    value: Node<'_, '_>,
) -> Result<(Text, Place), SyncError>
    requires kept { ¬ (IsDeleted (view value)) }
    ensures ok { IfOk result (λ rest. SaysFlag (get (codes "deleted") (view value.entry)) false
        × SaysTextOrEmpty (get (codes "enc_item_key") (view value.entry)) rest.0
        × IsPlace (standing_of standing) (view value.entry) rest.1) }
    ensures err { IfErr result (Caused (RefusesRest (standing_of standing) (view value.entry))) }
{
    // It is known not to be true, and still may be no flag.
    flag_in(value, "deleted")?;
    let enc = text_or_empty_in(alloc, value, "enc_item_key")?;
    let place = place_in(alloc, standing, value)?;
    Ok((enc, place))
}

fn place_in(alloc: Global, standing: Standing, value: Node<'_, '_>) -> Result<Place, SyncError>
    ensures ok { IfOk result (IsPlace (standing_of standing) (view value.entry)) }
    ensures err { IfErr result (Caused (RefusesPlace (standing_of standing) (view value.entry))) }
{
    let updated_at = updated_in(alloc, standing, value)?;
    let uuid = uuid_in(value, "uuid")?;
    Ok(Place { updated_at, uuid })
}

// Only the account's items have a first acceptance.
fn created_in(
    alloc: Global,
    standing: Standing,
    value: Node<'_, '_>,
) -> Result<Option<u64>, SyncError>
    ensures ok { IfOk result (SaysCreated (standing_of standing) (get (codes "created_at") (view value.entry))) }
    ensures bound { IfOk result IsStampOrNone }
    ensures err { IfErr result (Caused (Lacks
        (SaysCreated (standing_of standing) (get (codes "created_at") (view value.entry))) (codes "created_at"))) }
{
    match standing {
        Standing::Sent => Ok(None),
        Standing::Stored => Ok(Some(stamp_in(value, "created_at")?)),
    }
}

fn updated_in(
    alloc: Global,
    standing: Standing,
    value: Node<'_, '_>,
) -> Result<Option<Text>, SyncError>
    ensures ok { IfOk result (SaysUpdated (standing_of standing) (get (codes "updated_at") (view value.entry))) }
    ensures err { IfErr result (Caused (Lacks
        (SaysUpdated (standing_of standing) (get (codes "updated_at") (view value.entry))) (codes "updated_at"))) }
{
    match standing {
        Standing::Sent => optional_in(alloc, value, "updated_at"),
        Standing::Stored => Ok(Some(stamp_text_in(alloc, value, "updated_at")?)),
    }
}

fn is_deleted(value: Node<'_, '_>) -> bool
    ensures { IsTrue result ↔ IsDeleted (view value.entry) }
{
    value
        .get("deleted")
        .and_then(Node::as_bool)
        .unwrap_or(false)
}

/// The values of a list in the member of this name.
pub(crate) fn values_in<'v, 'a>(body: Node<'v, 'a>, name: &str) -> Option<Nodes<'v, 'a>>
    ensures some { IfSome result (λ values. get name.now (view body.entry) ≡ Some (array (items_view values))) }
    ensures none { IfNone result ((ds : Items) → get name.now (view body.entry) ≢ Some (array ds)) }
{
    body.get(name).and_then(Node::as_array)
}
