// What the moves do to drafts that meet a version, or another account's item.

ghost use Rattle.std.specs.Prelude.{◌≡◌, IfOk};
ghost use Rattle.sn_laws.specs.Lookups.{is_draft};
ghost use Rattle.sn_laws.specs.Moves.{changed_where, copied, forked, renamed, settled_at};

use crate::clones::push_copy;
use crate::ideal::{Content, Draft};
use crate::lookups::is_at;
use sn_notes::conflict_copy;
use sn_string::{OwnedList, Text, TryClone};
use std::alloc::{AllocError, Global};
use uuid::Uuid;

/// The draft stands on the version with this stamp, and nothing of it is sent.
pub fn with_settled(
    alloc: Global,
    drafts: &[Draft],
    device: &Text,
    uuid: &Uuid,
    stamp: u64,
) -> Result<OwnedList<Draft>, AllocError>
    ensures { IfOk result (λ next. next ≡ changed_where (is_draft device.now uuid.now) (settled_at stamp) drafts.now) }
{
    let mut next = OwnedList::new(alloc);
    for draft in drafts {
        let mut changed = draft.try_clone(alloc)?;
        if is_at(draft, device, uuid) {
            changed.base = Some(stamp);
            changed.posted = None;
        }
        next.push(changed)?;
    }
    Ok(next)
}

fn copied(alloc: Global, content: &Content, uuid: Uuid) -> Result<Content, AllocError>
    ensures { IfOk result (λ copy. copy ≡ copied content.now uuid) }
{
    match content {
        Content::Plain(text) => {
            let copy = conflict_copy(alloc, text.as_str(), uuid)?;
            Ok(Content::Plain(Text::of_string(copy)))
        }
        Content::Deleted => Ok(Content::Deleted),
    }
}

fn forked(alloc: Global, draft: &Draft, other: &Uuid) -> Result<Draft, AllocError>
    ensures { IfOk result (λ next. next ≡ forked other.now draft.now) }
{
    Ok(Draft {
        device: draft.device.try_clone(alloc)?,
        uuid: *other,
        kind: draft.kind.try_clone(alloc)?,
        base: None,
        latest: copied(alloc, &draft.latest, draft.uuid)?,
        posted: None,
    })
}

/// The draft's copy, under another uuid.
pub fn with_fork(
    alloc: Global,
    drafts: &[Draft],
    device: &Text,
    uuid: &Uuid,
    other: &Uuid,
) -> Result<OwnedList<Draft>, AllocError>
    ensures { IfOk result (λ next. next ≡ changed_where (is_draft device.now uuid.now) (forked other.now) drafts.now) }
{
    let mut next = OwnedList::new(alloc);
    for draft in drafts {
        if is_at(draft, device, uuid) {
            next.push(forked(alloc, draft, other)?)?;
        } else {
            push_copy(alloc, &mut next, draft)?;
        }
    }
    Ok(next)
}

/// The draft under another uuid.
pub fn with_renamed(
    alloc: Global,
    drafts: &[Draft],
    device: &Text,
    uuid: &Uuid,
    other: &Uuid,
) -> Result<OwnedList<Draft>, AllocError>
    ensures { IfOk result (λ next. next ≡ changed_where (is_draft device.now uuid.now) (renamed other.now) drafts.now) }
{
    let mut next = OwnedList::new(alloc);
    for draft in drafts {
        let mut changed = draft.try_clone(alloc)?;
        if is_at(draft, device, uuid) {
            changed.uuid = *other;
            changed.posted = None;
        }
        next.push(changed)?;
    }
    Ok(next)
}
