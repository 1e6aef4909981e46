//! The items of a sync.

ghost use Rattle.std.specs.Prelude.{◌≡◌, ◌↔◌, ◌≤◌, ◌<◌, ℕ, length, All, IfNone, IfOk, IfSome, IsTrue, Option};
ghost use Rattle.sn_account.specs.Incoming.{IsNews, IsOwnBody, IsOwnString, Progress, RunsOut, TakesAll, stamp_of};
ghost use Rattle.sn_account.specs.Lookups.{HasItem, HasStore};
ghost use Rattle.sn_account.specs.Pages.{most_bytes};
ghost use Rattle.sn_account.specs.States.{IsUnmarked, state_rows};
ghost use Rattle.sn_account.specs.Syncs.{AreShort, NoneLong, start, strings_in};
ghost use Rattle.sn_account.specs.Taking.{IsAcceptance, IsAcceptedRow, IsBounded, IsEffect, IsFirstStamp, content_in, enc_in, is_deleted, progress};
ghost use Rattle.sn_rows.specs.Table.{Rows};
ghost use Rattle.sn_rows.specs.declared.server_rows.StoreRow.{StoreRow};
ghost use Rattle.sn_sync.specs.Laws.{AreBytes, FitsSent};
ghost use Rattle.sn_sync.specs.Stamps.{IsStampOrNone, last_stamp};

use crate::changes::put_item;
use crate::state::State;
use crate::stored::{copy_of, given, is_same, names, weight};
use crate::taken::{Effect, Taken};
use crate::taking::{add, none_taken, stored};
use sn_rows::ItemRow;
use sn_string::{LAST_STAMP, MOST_BYTES, Params, names_uuid_under};
use sn_sync::{Body, Conflict, Item};
use std::alloc::{AllocError, Global};
use uuid::Uuid;

/// Deals with the items in order. Gives none where one of them would be accepted with a stamp past the last.
pub(crate) fn take_all(
    alloc: Global,
    state: &State,
    last: u64,
    number: u64,
    present: &Params,
    now: u64,
    items: &[Item],
) -> Result<Option<Taken>, AllocError>
    requires unmarked { IsUnmarked state.now }
    requires last { last ≤ last_stamp }
    requires within { All FitsSent items.now }
    requires short { NoneLong items.now }
    ensures some { (store : StoreRow) → store.last ≡ last → IfOk result (λ found. IfSome found (λ taken.
        TakesAll present.now now number (start (state_rows state.now) store) items.now (progress (state_rows state.now) taken))) }
    ensures none { (store : StoreRow) → store.last ≡ last → IfOk result (λ found. IfNone found
        (RunsOut present.now now number (start (state_rows state.now) store) items.now)) }
{
    let mut taken = none_taken(alloc, last);
    'items: for item in items {
        if taken.bytes > MOST_BYTES {
            return Ok(Some(taken));
        }
        let effect = effect_of(alloc, state, &taken, number, present, now, item)?;
        if let Effect::PastLast = effect {
            return Ok(None);
        }
        add(&mut taken, effect)?;
    }
    Ok(Some(taken))
}

// What becomes of one item.
fn effect_of(
    alloc: Global,
    state: &State,
    taken: &Taken,
    number: u64,
    present: &Params,
    now: u64,
    item: &Item,
) -> Result<Effect, AllocError>
    requires unmarked { IsUnmarked state.now }
    requires within { FitsSent item.now }
    requires short { AreShort (strings_in item.now.body) }
    ensures effect { IfOk result (IsEffect present.now now number (progress (state_rows state.now) taken.now) item.now) }
    ensures bounded { IfOk result IsBounded }
{
    let stamp = now.max(taken.last + 1);
    match stored(state, taken, item.uuid) {
        Some(row) => effect_on(alloc, row, number, present, stamp, item),
        None => effect_of_news(alloc, None, number, present, stamp, item),
    }
}

// What becomes of an item whose uuid is stored.
fn effect_on(
    alloc: Global,
    row: &ItemRow,
    number: u64,
    present: &Params,
    stamp: u64,
    item: &Item,
) -> Result<Effect, AllocError>
    requires within { FitsSent item.now }
    requires short { AreShort (strings_in item.now.body) }
    ensures effect { (p : Progress) (now : ℕ) → stamp ≡ stamp_of now p.last → HasItem p.rows item.now.uuid row.now
        → IfOk result (IsEffect present.now now number p item.now) }
    ensures bounded { IfOk result IsBounded }
{
    if row.account() != number {
        let unsaved = copy_of(alloc, item)?;
        return Ok(Effect::Unsaved(Conflict::Uuid { unsaved }));
    }
    if is_same(row, item) {
        let saved = given(alloc, item.uuid, row)?;
        return Ok(Effect::Saved(saved));
    }
    if !names(item, row) {
        let server = given(alloc, item.uuid, row)?;
        return Ok(Effect::Other(server, weight(row)));
    }
    effect_of_news(alloc, Some(row.created()), number, present, stamp, item)
}

// What becomes of a new item, or of another version than the stored one, which was first accepted at this stamp.
fn effect_of_news(
    alloc: Global,
    created: Option<u64>,
    number: u64,
    present: &Params,
    stamp: u64,
    item: &Item,
) -> Result<Effect, AllocError>
    requires within { FitsSent item.now }
    requires short { AreShort (strings_in item.now.body) }
    requires created { IsStampOrNone created }
    ensures effect { (p : Progress) (now : ℕ) → stamp ≡ stamp_of now p.last → IsNews p number item.now → IsFirstStamp p.rows item.now.uuid created
        → IfOk result (IsEffect present.now now number p item.now) }
    ensures bounded { IfOk result IsBounded }
{
    if !is_own_body(alloc, item, present)? {
        let unsaved = copy_of(alloc, item)?;
        return Ok(Effect::Unsaved(Conflict::Content { unsaved }));
    }
    if stamp > LAST_STAMP {
        return Ok(Effect::PastLast);
    }
    accept(alloc, created.unwrap_or(stamp), number, stamp, item)
}

// Accepts an item.
fn accept(
    alloc: Global,
    created: u64,
    number: u64,
    stamp: u64,
    item: &Item,
) -> Result<Effect, AllocError>
    requires within { FitsSent item.now }
    requires short { AreShort (strings_in item.now.body) }
    requires created { created ≤ last_stamp }
    requires stamp { stamp ≤ last_stamp }
    ensures effect { IfOk result (IsAcceptance number created stamp item.now) }
    ensures bounded { IfOk result IsBounded }
{
    let row = accepted_row(alloc, created, number, stamp, item)?;
    let saved = given(alloc, item.uuid, &row)?;
    Ok(Effect::Accepted(put_item(item.uuid, row), saved, stamp))
}

// The row of an accepted item.
fn accepted_row(
    alloc: Global,
    created: u64,
    number: u64,
    stamp: u64,
    item: &Item,
) -> Result<ItemRow, AllocError>
    requires within { FitsSent item.now }
    requires short { AreShort (strings_in item.now.body) }
    requires created { created ≤ last_stamp }
    requires stamp { stamp ≤ last_stamp }
    ensures { IfOk result (IsAcceptedRow number created stamp item.now) }
{
    let kind = item.kind.as_str();
    let deleted = is_deleted(&item.body);
    let content = content_of(&item.body);
    let enc = enc_of(&item.body);
    let found = ItemRow::new(alloc, number, kind, created, stamp, deleted, content, enc)?;
    match found {
        Some(row) => Ok(row),
        None => unreachable!(),
    }
}

fn is_deleted(body: &Body) -> bool
    ensures { result ≡ is_deleted body.now }
{
    match body {
        Body::Deleted => true,
        Body::Strings { content: _, enc: _ } => false,
    }
}

// The content of a body, empty where it is deleted.
fn content_of(body: &Body) -> &str
    ensures { result.now ≡ content_in body.now }
{
    match body {
        Body::Deleted => "",
        Body::Strings { content, enc: _ } => content.as_str(),
    }
}

// The item key of a body, empty where it is deleted.
fn enc_of(body: &Body) -> &str
    ensures { result.now ≡ enc_in body.now }
{
    match body {
        Body::Deleted => "",
        Body::Strings { content: _, enc } => enc.as_str(),
    }
}

// Whether a sent item's strings are of its uuid, under these parameters. A deleted one has none.
fn is_own_body(alloc: Global, item: &Item, present: &Params) -> Result<bool, AllocError>
    requires { FitsSent item.now }
    ensures { IfOk result (λ own. IsTrue own ↔ IsOwnBody item.now.uuid present.now item.now.body) }
{
    let Body::Strings { content, enc } = &item.body else {
        return Ok(true);
    };
    if !is_own_string(alloc, content.as_str(), item.uuid, present)? {
        return Ok(false);
    }
    is_own_string(alloc, enc.as_str(), item.uuid, present)
}

// Whether a text is a 003 string that names the uuid and carries the parameters.
fn is_own_string(
    alloc: Global,
    text: &str,
    uuid: Uuid,
    present: &Params,
) -> Result<bool, AllocError>
    requires { AreBytes 16 uuid }
    ensures { IfOk result (λ own. IsTrue own ↔ IsOwnString uuid present.now text.now) }
{
    names_uuid_under(alloc, text, uuid, present)
}
