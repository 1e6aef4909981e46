//! A device's row at the adoption of a key set.

ghost use Rattle.std.specs.Prelude.{◌≡◌, ◌||◌, IfNone, IfOk, IfSome, is_some};
ghost use Rattle.sn_rekey.specs.Rekeying.{HasNoneOpen, HasOpen, HasStrings, Rekeys, RewrapsPlace, with_strings};
ghost use Rattle.sn_sets.specs.Seals.{IsLater};

use crate::rewrapping::rewrap_held;
use sn_items::Words;
use sn_rows::{LocalItem, RowBody, RowStrings};
use sn_sets::Sets;
use sn_string::{KeySet, TryClone};
use std::alloc::{AllocError, Global};
use uuid::Uuid;

/// The item with each of its versions that opens under a set that is held sealed again under the new
/// one: the server's version, the draft, and what was sent of it, in this order. Where none opens
/// nothing is drawn.
pub fn rekey_item(
    alloc: Global,
    words: &mut Words,
    local: &LocalItem,
    sets: &Sets,
    set: &KeySet,
) -> Result<Option<LocalItem>, AllocError>
    ensures some { IfOk result (λ found. IfSome found (λ after. HasOpen sets.now local.now × Rekeys sets.now set.now words.old local.now after words.new)) }
    ensures none { IfOk result (λ found. IfNone found (HasNoneOpen sets.now local.now × (words.new ≡ words.old))) }
    ensures words { IsLater words.old words.new }
{
    let body = rewrap_place(alloc, words, &local.body, local.uuid, sets, set)?;
    let latest = rewrap_place(alloc, words, &local.latest, local.uuid, sets, set)?;
    let posted = rewrap_place(alloc, words, &local.posted, local.uuid, sets, set)?;
    if !any(&body, &latest, &posted) {
        return Ok(None);
    }
    let item = item_with(alloc, local, body, latest, posted)?;
    Ok(Some(item))
}

fn any(body: &Option<RowStrings>, latest: &Option<RowStrings>, posted: &Option<RowStrings>) -> bool
    ensures { result ≡ (is_some body.now || is_some latest.now || is_some posted.now) }
{
    body.is_some() || latest.is_some() || posted.is_some()
}

// The strings of a version sealed again, where it opens.
fn rewrap_place(
    alloc: Global,
    words: &mut Words,
    place: &Option<RowBody>,
    uuid: Uuid,
    sets: &Sets,
    set: &KeySet,
) -> Result<Option<RowStrings>, AllocError>
    ensures ok { IfOk result (λ found. RewrapsPlace sets.now set.now words.old uuid (is_some found) place.now (with_strings found place.now) words.new) }
    ensures words { IsLater words.old words.new }
{
    match place {
        Some(RowBody::Sealed(strings)) => rewrap_held(alloc, words, strings, uuid, sets, set),
        Some(RowBody::Deleted) => Ok(None),
        None => Ok(None),
    }
}

// The item with these strings in its places, where there are some.
fn item_with(
    alloc: Global,
    local: &LocalItem,
    body: Option<RowStrings>,
    latest: Option<RowStrings>,
    posted: Option<RowStrings>,
) -> Result<LocalItem, AllocError>
    ensures { IfOk result (λ after. HasStrings local.now body latest posted after) }
{
    let stale = body.is_some() || local.stale;
    let kind = local.kind.try_clone(alloc)?;
    let body = place_with(alloc, body, &local.body)?;
    let latest = place_with(alloc, latest, &local.latest)?;
    let posted = place_with(alloc, posted, &local.posted)?;
    Ok(LocalItem {
        uuid: local.uuid,
        kind,
        base: local.base,
        stale,
        body,
        latest,
        posted,
    })
}

fn place_with(
    alloc: Global,
    strings: Option<RowStrings>,
    before: &Option<RowBody>,
) -> Result<Option<RowBody>, AllocError>
    ensures { IfOk result (λ place. place ≡ with_strings strings before.now) }
{
    match strings {
        Some(strings) => Ok(Some(RowBody::Sealed(strings))),
        None => before.try_clone(alloc),
    }
}
