//! The answer to a sync, and its changes.

ghost use Rattle.std.specs.Prelude.{◌≡◌, ◌≤◌, Some, None, IfOk, if◌then◌else◌};
ghost use Rattle.sn_account.specs.Replies.{IsReply, stamp_told};
ghost use Rattle.sn_account.specs.Syncs.{AreChanges};
ghost use Rattle.sn_sync.specs.Stamps.{last_stamp};
ghost use Rattle.sn_sync.specs.Tokens.{IsToken};

use crate::accounts::Ruled;
use crate::changes::put_store;
use crate::page::Page;
use crate::taken::Taken;
use sn_rows::{Change, StoreRow};
use sn_string::{OwnedList, Text, TryClone};
use sn_sync::{Answer, token_text};
use std::alloc::{AllocError, Global};

/// The answer to items that were dealt with, with a page.
pub(crate) fn reply(
    alloc: Global,
    store: &StoreRow,
    taken: Taken,
    page: Page,
) -> Result<Ruled, AllocError>
    ensures { IfOk result (IsReply store.now taken page) }
{
    let sync_token = token_of(alloc, stamp_told(&taken, &page))?;
    let cursor_token = cursor_of(alloc, page.more, &sync_token)?;
    let Taken {
        last,
        changes,
        saved,
        conflicts,
        bytes: _,
    } = taken;
    let changes = with_last(changes, store, last)?;
    let answer = Answer::Sync {
        conflicts,
        cursor_token,
        retrieved: page.items,
        saved,
        sync_token,
    };
    Ok(Ruled { changes, answer })
}

// The stamp that the token tells.
fn stamp_told(taken: &Taken, page: &Page) -> u64
    ensures is { result ≡ stamp_told taken.now page.now }
    ensures bound { result ≤ last_stamp }
{
    if page.more {
        page.last
    } else if taken.changes.is_empty() {
        page.greatest
    } else {
        taken.last
    }
}

// The token of a stamp.
fn token_of(alloc: Global, stamp: u64) -> Result<Text, AllocError>
    requires { stamp ≤ last_stamp }
    ensures { IfOk result (λ token. IsToken token stamp) }
{
    let token = token_text(alloc, stamp)?;
    Ok(Text::of_string(token))
}

// The token once more where something is left.
fn cursor_of(alloc: Global, more: bool, token: &Text) -> Result<Option<Text>, AllocError>
    ensures { IfOk result (λ cursor. cursor ≡ (if more then Some token.now else None)) }
{
    if !more {
        return Ok(None);
    }
    let cursor = token.try_clone(alloc)?;
    Ok(Some(cursor))
}

// The changes, with the store's row at their end where there are some.
fn with_last(
    mut changes: OwnedList<Change>,
    store: &StoreRow,
    last: u64,
) -> Result<OwnedList<Change>, AllocError>
    requires { last ≤ last_stamp }
    ensures { IfOk result (AreChanges store.now changes last) }
{
    if changes.is_empty() {
        return Ok(changes);
    }
    let Some(row) = StoreRow::new(store.secret, last, store.accounts) else {
        unreachable!();
    };
    changes.push(put_store(row))?;
    Ok(changes)
}
