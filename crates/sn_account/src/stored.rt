//! Stored items, as they are compared with sent ones and as an answer gives them.

ghost use Rattle.std.specs.Prelude.{◌≡◌, ◌↔◌, ◌≤◌, ◌<◌, IfOk, IsTrue};
ghost use Rattle.sn_account.specs.Incoming.{Names, SameVersion};
ghost use Rattle.sn_account.specs.Pages.{weight};
ghost use Rattle.sn_account.specs.Stored.{IsGiven, body_of};
ghost use Rattle.sn_account.specs.Taking.{most_weight};

use sn_rows::ItemRow;
use sn_string::{Text, TryClone};
use sn_sync::{Body, Item, Stamp};
use std::alloc::{AllocError, Global};
use uuid::Uuid;

/// Whether the sent item is the stored version: both are deleted, or type and strings are the same.
pub(crate) fn is_same(row: &ItemRow, item: &Item) -> bool
    ensures { IsTrue result ↔ SameVersion row.now item.now }
{
    match &item.body {
        Body::Deleted => row.is_deleted(),
        Body::Strings { content, enc } => {
            !row.is_deleted()
                && row.kind() == item.kind.as_str()
                && row.content() == content.as_str()
                && row.enc() == enc.as_str()
        }
    }
}

/// Whether the sent item names the stored version.
pub(crate) fn names(item: &Item, row: &ItemRow) -> bool
    ensures { IsTrue result ↔ Names item.now row.now }
{
    let Some(text) = &item.updated_at else {
        return false;
    };
    match Stamp::read(text.as_str()) {
        Ok(stamp) => stamp == row.updated(),
        Err(_) => false,
    }
}

/// The bytes of a stored item's strings.
pub(crate) fn weight(row: &ItemRow) -> u64
    ensures is { result ≡ weight row.now }
    ensures bound { result ≤ most_weight }
{
    row.content().len() as u64 + row.enc().len() as u64
}

/// A stored item as an answer gives it.
pub(crate) fn given(alloc: Global, uuid: Uuid, row: &ItemRow) -> Result<Item, AllocError>
    ensures { IfOk result (IsGiven uuid row.now) }
{
    let kind = Text::of(alloc, row.kind())?;
    let stamp = Stamp::text(alloc, row.updated())?;
    let body = body_of(alloc, row)?;
    Ok(Item {
        uuid,
        kind,
        created: Some(row.created()),
        updated_at: Some(Text::of_string(stamp)),
        body,
    })
}

fn body_of(alloc: Global, row: &ItemRow) -> Result<Body, AllocError>
    ensures { IfOk result (λ body. body ≡ body_of row.now) }
{
    if row.is_deleted() {
        return Ok(Body::Deleted);
    }
    let content = Text::of(alloc, row.content())?;
    let enc = Text::of(alloc, row.enc())?;
    Ok(Body::Strings { content, enc })
}

/// The sent item once more.
pub(crate) fn copy_of(alloc: Global, item: &Item) -> Result<Item, AllocError>
    ensures { IfOk result (λ copy. copy ≡ item.now) }
{
    let kind = item.kind.try_clone(alloc)?;
    let updated_at = item.updated_at.try_clone(alloc)?;
    let body = copy_of_body(alloc, &item.body)?;
    Ok(Item {
        uuid: item.uuid,
        kind,
        created: item.created,
        updated_at,
        body,
    })
}

fn copy_of_body(alloc: Global, body: &Body) -> Result<Body, AllocError>
    ensures { IfOk result (λ copy. copy ≡ body.now) }
{
    match body {
        Body::Deleted => Ok(Body::Deleted),
        Body::Strings { content, enc } => {
            let content = content.try_clone(alloc)?;
            let enc = enc.try_clone(alloc)?;
            Ok(Body::Strings { content, enc })
        }
    }
}
