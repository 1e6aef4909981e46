// Where each move is allowed.

ghost use Rattle.std.specs.Prelude.{◌≡◌, ◌&&◌, ◌||◌, ◌==◌, Option, Some, None, IfOk, find, length, nat_lt, nat_le, not, is_some, is_none};
ghost use Rattle.std.specs.Option.{option_copied};
ghost use Rattle.std.specs.List.{list_all, list_any};
ghost use Rattle.std.specs.Str.{bytes_eq};
ghost use Rattle.sn_laws.specs.Lookups.{has_item, last_of};
ghost use Rattle.sn_laws.specs.Moves.{all_below, allows, has_live, is_as, is_content_of, is_live, is_live_at, is_new_stamp, is_on_last, is_plain, is_said, is_sent_under, is_unsent, is_writable, may_accept, may_delete, may_edit, may_post, may_stand, may_write, same_base, sent_content};

use crate::ideal::{Account, Body, Content, Draft, Ideal, Posted, Version};
use crate::lookups::{draft_of, is_held, last_version, owner};
use crate::meeting::{is_meeting_allowed, may_drop};
use crate::moves::Move;
use crate::rekeying::is_rekeying_allowed;
use sn_items::is_object;
use sn_string::{LAST_STAMP, LONGEST_CONTENT, Text};
use std::alloc::{AllocError, Global};
use uuid::Uuid;

fn is_writable(alloc: Global, text: &Text) -> Result<bool, AllocError>
    ensures { IfOk result (λ found. found ≡ is_writable text.now) }
{
    if text.as_str().len() <= LONGEST_CONTENT {
        is_object(alloc, text.as_str())
    } else {
        Ok(false)
    }
}

/// Whether it is a content, not a deletion.
pub fn is_plain(content: &Content) -> bool
    ensures { result ≡ is_plain content.now }
{
    match content {
        Content::Plain(_) => true,
        Content::Deleted => false,
    }
}

/// Whether it is a content, not a deletion.
pub fn is_live(body: &Body) -> bool
    ensures { result ≡ is_live body.now }
{
    match body {
        Body::Under(_, _) => true,
        Body::Gone => false,
    }
}

/// Whether the texts are the same.
pub fn same(text: &Text, other: &Text) -> bool
    ensures { result ≡ bytes_eq text.now other.now }
{
    text.as_str() == other.as_str()
}

/// Whether the content, as of a type, is the version's.
pub fn is_same_content(kind: &Text, content: &Content, version: &Version) -> bool
    ensures { result ≡ is_content_of kind.now content.now version.now.kind version.now.body }
{
    match (content, &version.body) {
        (Content::Plain(text), Body::Under(other, _)) => {
            same(kind, &version.kind) && same(text, other)
        }
        (Content::Plain(_), Body::Gone) => false,
        (Content::Deleted, Body::Under(_, _)) => false,
        (Content::Deleted, Body::Gone) => true,
    }
}

/// Whether the draft's content is the version's.
pub fn is_content_of(draft: &Draft, version: &Version) -> bool
    ensures { result ≡ is_content_of draft.now.kind draft.now.latest version.now.kind version.now.body }
{
    is_same_content(&draft.kind, &draft.latest, version)
}

fn is_sent_under(number: u64, posted: &Option<Posted>) -> bool
    ensures { result ≡ is_sent_under number posted.now }
{
    match posted {
        None => false,
        Some(posted) => match posted.set {
            None => false,
            Some(set) => set == number,
        },
    }
}

fn is_unsent(posted: &Option<Posted>) -> bool
    ensures { result ≡ is_unsent posted.now }
{
    match posted {
        None => true,
        Some(posted) => posted.set.is_none(),
    }
}

fn is_older(version: &Version, stamp: u64) -> bool
    ensures { result ≡ nat_lt version.now.stamp stamp }
{
    version.stamp < stamp
}

fn are_older(versions: &[Version], stamp: u64) -> bool
    ensures { result ≡ list_all (λ v. nat_lt v.stamp stamp) versions.now }
{
    versions.iter().all(|v| is_older(v, stamp))
}

fn is_below(account: &Account, stamp: u64) -> bool
    ensures { result ≡ all_below stamp account.now }
{
    are_older(account.versions.as_slice(), stamp)
}

fn is_above(accounts: &[Account], stamp: u64) -> bool
    ensures { result ≡ list_all (all_below stamp) accounts.now }
{
    accounts.iter().all(|a| is_below(a, stamp))
}

/// Whether the stamp is above all stamps of all accounts, and none after the last.
pub fn is_new(accounts: &[Account], stamp: u64) -> bool
    ensures { result ≡ is_new_stamp accounts.now stamp }
{
    is_above(accounts, stamp) && stamp <= LAST_STAMP
}

fn is_live_at(version: &Version, uuid: &Uuid, kind: &Text, stamp: u64) -> bool
    ensures { result ≡ is_live_at uuid.now kind.now stamp version.now }
{
    version.uuid == *uuid
        && same(&version.kind, kind)
        && version.stamp == stamp
        && is_live(&version.body)
}

fn is_among(versions: &[Version], uuid: &Uuid, kind: &Text, stamp: u64) -> bool
    ensures { result ≡ list_any (is_live_at uuid.now kind.now stamp) versions.now }
{
    versions.iter().any(|v| is_live_at(v, uuid, kind, stamp))
}

fn may_stand(account: &Account, uuid: &Uuid, kind: &Text, base: Option<u64>) -> bool
    ensures { result ≡ may_stand account.now uuid.now kind.now base }
{
    match base {
        None => true,
        Some(stamp) => is_among(account.versions.as_slice(), uuid, kind, stamp),
    }
}

fn same_base(base: Option<u64>, other: Option<u64>) -> bool
    ensures { result ≡ same_base base other }
{
    match (base, other) {
        (None, other) => other.is_none(),
        (Some(_), None) => false,
        (Some(stamp), Some(other)) => other == stamp,
    }
}

fn is_as(draft: &Draft, kind: &Text, base: Option<u64>) -> bool
    ensures { result ≡ is_as draft.now kind.now base }
{
    same(&draft.kind, kind) && same_base(draft.base, base)
}

fn may_write(
    alloc: Global,
    account: &Account,
    draft: Option<&Draft>,
    uuid: &Uuid,
    kind: &Text,
    base: Option<u64>,
    text: &Text,
) -> Result<bool, AllocError>
    ensures { IfOk result (λ may. may ≡ may_write account.now (option_copied draft.entry) uuid.now kind.now base text.now) }
{
    let may = match draft {
        None => may_stand(account, uuid, kind, base),
        Some(draft) => is_as(draft, kind, base) && is_plain(&draft.latest),
    };
    if may {
        is_writable(alloc, text)
    } else {
        Ok(false)
    }
}

fn may_delete(
    account: &Account,
    draft: Option<&Draft>,
    uuid: &Uuid,
    kind: &Text,
    base: Option<u64>,
) -> bool
    ensures { result ≡ may_delete account.now (option_copied draft.entry) uuid.now kind.now base }
{
    match draft {
        None => base.is_some() && may_stand(account, uuid, kind, base),
        Some(draft) => {
            is_as(draft, kind, base) && (draft.base.is_some() || draft.posted.is_some())
        }
    }
}

fn may_edit(
    alloc: Global,
    account: Option<&Account>,
    draft: Option<&Draft>,
    uuid: &Uuid,
    kind: &Text,
    base: Option<u64>,
    latest: &Content,
) -> Result<bool, AllocError>
    ensures { IfOk result (λ may. may
        ≡ may_edit (option_copied account.entry) (option_copied draft.entry) uuid.now kind.now base latest.now) }
{
    match (account, latest) {
        (None, _) => Ok(false),
        (Some(account), Content::Plain(text)) => {
            may_write(alloc, account, draft, uuid, kind, base, text)
        }
        (Some(account), Content::Deleted) => Ok(may_delete(account, draft, uuid, kind, base)),
    }
}

fn may_post(account: Option<&Account>, draft: Option<&Draft>) -> bool
    ensures { result ≡ may_post (option_copied account.entry) (option_copied draft.entry) }
{
    match (account, draft) {
        (Some(_), Some(draft)) => is_unsent(&draft.posted),
        _ => false,
    }
}

fn is_free(accounts: &[Account], uuid: &Uuid) -> bool
    ensures { result ≡ not (list_any (has_item uuid.now) accounts.now) }
{
    !is_held(accounts, uuid)
}

fn is_on_last(accounts: &[Account], uuid: &Uuid, base: Option<u64>, last: Option<&Version>) -> bool
    ensures { result ≡ is_on_last accounts.now uuid.now base (option_copied last.entry) }
{
    match (base, last) {
        (None, _) => is_free(accounts, uuid),
        (Some(_), None) => false,
        (Some(stamp), Some(last)) => last.stamp == stamp,
    }
}

fn is_said_of(number: u64, content: &Content, under: Option<u64>) -> bool
    ensures { result ≡ is_said number content.now under }
{
    match (content, under) {
        (Content::Plain(_), Some(set)) => set == number,
        (Content::Plain(_), None) => false,
        (Content::Deleted, under) => under.is_none(),
    }
}

fn is_said(number: u64, draft: &Draft, under: Option<u64>) -> bool
    ensures { result ≡ is_said number (sent_content draft.now.latest draft.now.posted) under }
{
    match &draft.posted {
        None => is_said_of(number, &draft.latest, under),
        Some(posted) => is_said_of(number, &posted.content, under),
    }
}

fn may_accept(
    accounts: &[Account],
    account: Option<&Account>,
    draft: Option<&Draft>,
    uuid: &Uuid,
    stamp: u64,
    under: Option<u64>,
) -> bool
    ensures { result ≡ may_accept accounts.now (option_copied account.entry) (option_copied draft.entry) uuid.now stamp under }
{
    match (account, draft) {
        (Some(account), Some(draft)) => {
            let last = last_version(account.versions.as_slice(), uuid);
            is_sent_under(account.sets.as_slice().len() as u64, &draft.posted)
                && is_said(account.sets.as_slice().len() as u64, draft, under)
                && is_on_last(accounts, uuid, draft.base, last)
                && is_new(accounts, stamp)
        }
        _ => false,
    }
}

/// Whether the move is allowed in this state.
pub fn is_allowed(alloc: Global, state: &Ideal, next: &Move) -> Result<bool, AllocError>
    ensures { IfOk result (λ may. may ≡ allows state.now next.now) }
{
    match next {
        Move::Edit {
            device,
            uuid,
            kind,
            base,
            latest,
        } => {
            let account = owner(state, device);
            let draft = draft_of(state, device, uuid);
            may_edit(alloc, account, draft, uuid, kind, *base, latest)
        }
        Move::Drop { device, uuid } => {
            let draft = draft_of(state, device, uuid);
            Ok(may_drop(state.accounts.as_slice(), owner(state, device), draft, uuid))
        }
        Move::Post { device, uuid } => {
            Ok(may_post(owner(state, device), draft_of(state, device, uuid)))
        }
        Move::Accept {
            device,
            uuid,
            stamp,
            under,
        } => {
            let accounts = state.accounts.as_slice();
            let draft = draft_of(state, device, uuid);
            Ok(may_accept(accounts, owner(state, device), draft, uuid, *stamp, *under))
        }
        Move::Settle { .. }
        | Move::SettlePosted { .. }
        | Move::Fork { .. }
        | Move::Rename { .. }
        | Move::GiveWay { .. } => Ok(is_meeting_allowed(state, next)),
        _ => Ok(is_rekeying_allowed(state, next)),
    }
}
