//! The rule of a sync.

ghost use Rattle.std.specs.Prelude.{◌≡◌, ◌≤◌, All, IfNone, IfOk, IfSome, codes};
ghost use Rattle.sn_account.specs.Incoming.{RunsOut, TakesAll};
ghost use Rattle.sn_account.specs.Lookups.{HasAccount, HasStore};
ghost use Rattle.sn_account.specs.Rules.{IsPresent, Refuses};
ghost use Rattle.sn_account.specs.Sound.{IsSound};
ghost use Rattle.sn_account.specs.States.{IsUnmarked, state_rows};
ghost use Rattle.sn_account.specs.Syncs.{NoneLong, Serves, ServesBounded, Syncs, start};
ghost use Rattle.sn_account.specs.Taking.{progress};
ghost use Rattle.sn_rows.specs.declared.server_rows.AccountRow.{AccountRow};
ghost use Rattle.sn_rows.specs.declared.server_rows.StoreRow.{StoreRow};
ghost use Rattle.sn_string.specs.Bounds.{last_stamp};
ghost use Rattle.sn_string.specs.declared.params.Params.{Params};
ghost use Rattle.sn_sync.specs.Laws.{FitsSent};
ghost use Rattle.sn_sync.specs.declared.answer.More.TheVariants as more;

use crate::accounts::{Ruled, present_params, store_of};
use crate::bounds::{MOST_ITEMS, first_long};
use crate::incoming::take_all;
use crate::pages::next_page;
use crate::passwords::unchanged;
use crate::refusals::refused;
use crate::replies::reply;
use crate::sessions::session;
use crate::state::State;
use crate::taken::Taken;
use crate::tokens::{above, is_first, stamp_of};
use sn_string::Text;
use sn_sync::{Item, More};
use std::alloc::{AllocError, Global};

/// Takes the items of an account, and gives its next page.
pub(crate) fn sync(
    alloc: Global,
    state: &State,
    token: &str,
    items: &[Item],
    limit: u32,
    sync_token: &Option<Text>,
    cursor_token: &Option<Text>,
    now: u64,
) -> Result<Ruled, AllocError>
    requires unmarked { IsUnmarked state.now }
    requires sound { IsSound (state_rows state.now) }
    requires within { All FitsSent items.now }
    ensures { (store : StoreRow) → HasStore (state_rows state.now) store
        → IfOk result (λ ruled. Syncs (state_rows state.now) store token.now items.now limit sync_token.now cursor_token.now now
        ruled.changes ruled.answer) }
{
    let Some(number) = session(alloc, state, token)? else {
        return Ok(unchanged(alloc, refused(401, "bad-auth", More::Nothing)));
    };
    let Ok(sync) = stamp_of(sync_token) else {
        return Ok(bad_token(alloc, "sync_token"));
    };
    let Ok(cursor) = stamp_of(cursor_token) else {
        return Ok(bad_token(alloc, "cursor_token"));
    };
    serve_bounded(alloc, state, number, items, limit, sync, cursor, now)
}

// Refuses a token.
fn bad_token(alloc: Global, name: &'static str) -> Ruled
    ensures { Refuses 400 (codes "bad-token") (more.Name name.now) result.changes result.answer }
{
    let more = More::Name(Text::fixed(name));
    unchanged(alloc, refused(400, "bad-token", more))
}

// Serves a sync, unless its items are too many or one of their strings is too long.
fn serve_bounded(
    alloc: Global,
    state: &State,
    number: u64,
    items: &[Item],
    limit: u32,
    sync: Option<u64>,
    cursor: Option<u64>,
    now: u64,
) -> Result<Ruled, AllocError>
    requires unmarked { IsUnmarked state.now }
    requires sound { IsSound (state_rows state.now) }
    requires there { (account : AccountRow) × HasAccount (state_rows state.now) number account }
    requires within { All FitsSent items.now }
    ensures { (store : StoreRow) → HasStore (state_rows state.now) store
        → IfOk result (λ ruled. ServesBounded (state_rows state.now) store number items.now limit sync cursor now
        ruled.changes ruled.answer) }
{
    if items.len() > MOST_ITEMS {
        let more = More::Number(items.len() as u64);
        return Ok(unchanged(alloc, refused(413, "wide", more)));
    }
    if let Some((uuid, size)) = first_long(items) {
        let more = More::Both(size, uuid);
        return Ok(unchanged(alloc, refused(413, "long", more)));
    }
    serve(alloc, state, number, items, limit, sync, cursor, now)
}

// Serves a sync, unless the stamps are used up.
fn serve(
    alloc: Global,
    state: &State,
    number: u64,
    items: &[Item],
    limit: u32,
    sync: Option<u64>,
    cursor: Option<u64>,
    now: u64,
) -> Result<Ruled, AllocError>
    requires unmarked { IsUnmarked state.now }
    requires sound { IsSound (state_rows state.now) }
    requires there { (account : AccountRow) × HasAccount (state_rows state.now) number account }
    requires within { All FitsSent items.now }
    requires short { NoneLong items.now }
    ensures { (store : StoreRow) → HasStore (state_rows state.now) store
        → IfOk result (λ ruled. Serves (state_rows state.now) store number items.now limit sync cursor now
        ruled.changes ruled.answer) }
{
    let store = store_of(state);
    let Some(taken) = taken_of(alloc, state, store.last, number, now, items)? else {
        let more = More::Number(store.last);
        return Ok(unchanged(alloc, refused(409, "stamps-used", more)));
    };
    let page = next_page(
        alloc,
        state,
        number,
        above(sync, cursor),
        is_first(sync, cursor),
        limit,
    )?;
    reply(alloc, store, taken, page)
}

// Takes the items, under the parameters of the account's present keys.
fn taken_of(
    alloc: Global,
    state: &State,
    last: u64,
    number: u64,
    now: u64,
    items: &[Item],
) -> Result<Option<Taken>, AllocError>
    requires unmarked { IsUnmarked state.now }
    requires sound { IsSound (state_rows state.now) }
    requires last { last ≤ last_stamp }
    requires there { (account : AccountRow) × HasAccount (state_rows state.now) number account }
    requires within { All FitsSent items.now }
    requires short { NoneLong items.now }
    ensures some { (store : StoreRow) → store.last ≡ last → IfOk result (λ found. IfSome found (λ taken.
        (present : Params) × IsPresent (state_rows state.now) number present
        × TakesAll present now number (start (state_rows state.now) store) items.now (progress (state_rows state.now) taken))) }
    ensures none { (store : StoreRow) → store.last ≡ last → IfOk result (λ found. IfNone found
        ((present : Params) × IsPresent (state_rows state.now) number present
        × RunsOut present now number (start (state_rows state.now) store) items.now)) }
{
    let present = present_params(alloc, state, number)?;
    take_all(alloc, state, last, number, &present, now, items)
}
