//! A device's row and the server's version of its item.

ghost use Rattle.std.specs.Prelude.{◌≡◌, ◌↔◌, ◌≤◌, ℕ, Some, None, IfOk, IsTrue};
ghost use Rattle.sn_conflict.specs.Meetings.{HasContent, IsKnown, MeetsAs, MeetsDraft, OpenAlike, PostedHasContent, SameStrings};
ghost use Rattle.sn_rows.specs.declared.body.RowBody.TheVariants as body;
ghost use Rattle.sn_sets.specs.Sets.{OpensHeld, sealed_of};
ghost use Rattle.sn_sync.specs.declared.item.Body.TheVariants.{Deleted};

use crate::checking::stamp_of;
use sn_items::Sealed;
use sn_rows::{LocalItem, RowBody, RowStrings};
use sn_sets::{Sets, sealed_strings};
use sn_string::{Text, TryClone};
use sn_sync::{Body, Item};
use std::alloc::{AllocError, Global};
use uuid::Uuid;

/// What becomes of a row that meets the server's version of its item.
#[derive(Clone, Copy, Debug, PartialEq, Eq)]
pub enum Meeting {
    /// The row stays as it is.
    Same,
    /// The row stands on the server's version. It has no draft.
    Take,
    /// What was sent, or the draft itself, has the content of the server's version, on which the row
    /// stands from then on. `ends`: the draft itself does, and ends.
    Own { ends: bool },
    /// The draft is a deletion of a version that isn't the last, and gives way.
    GiveWay,
    /// The draft is kept as a copy of its own.
    Fork,
}

/// The first of the cases that holds of a row, the server's version of its item, and whether the answer
/// saved it.
pub fn meet(
    alloc: Global,
    local: &LocalItem,
    server: &Item,
    saved: bool,
    sets: &Sets,
) -> Result<Meeting, AllocError>
    ensures { IfOk result (λ meeting. MeetsAs sets.now local.now server.now saved meeting) }
{
    if is_known(local, server, saved) {
        return Ok(Meeting::Same);
    }
    match &local.latest {
        Some(latest) => meet_draft(alloc, local, latest, server, saved, sets),
        None => Ok(Meeting::Take),
    }
}

fn meet_draft(
    alloc: Global,
    local: &LocalItem,
    latest: &RowBody,
    server: &Item,
    saved: bool,
    sets: &Sets,
) -> Result<Meeting, AllocError>
    requires { MeetsDraft local.now server.now saved latest.now }
    ensures { IfOk result (λ meeting. MeetsAs sets.now local.now server.now saved meeting) }
{
    if has_content(alloc, sets, local, latest, server)? {
        return Ok(Meeting::Own { ends: true });
    }
    if was_posted(alloc, sets, local, server)? {
        return Ok(Meeting::Own { ends: false });
    }
    let RowBody::Sealed(strings) = latest else {
        return Ok(Meeting::GiveWay);
    };
    let sealed = sealed_strings(alloc, strings)?;
    match sets.open(alloc, local.uuid, &sealed)? {
        Some(_) => Ok(Meeting::Fork),
        None => Ok(Meeting::Same),
    }
}

fn is_known(local: &LocalItem, server: &Item, saved: bool) -> bool
    ensures { IsTrue result ↔ IsKnown local.now server.now saved }
{
    if saved {
        return false;
    }
    let Some(base) = local.base else {
        return false;
    };
    match stamp_of(server) {
        Some(stamp) => stamp <= base,
        None => false,
    }
}

// Whether what was sent of a row has the content of the server's version.
fn was_posted(
    alloc: Global,
    sets: &Sets,
    local: &LocalItem,
    server: &Item,
) -> Result<bool, AllocError>
    ensures { IfOk result (λ own. IsTrue own ↔ PostedHasContent sets.now local.now server.now) }
{
    match &local.posted {
        Some(posted) => has_content(alloc, sets, local, posted, server),
        None => Ok(false),
    }
}

fn has_content(
    alloc: Global,
    sets: &Sets,
    local: &LocalItem,
    version: &RowBody,
    server: &Item,
) -> Result<bool, AllocError>
    ensures { IfOk result (λ has. IsTrue has ↔ HasContent sets.now local.now version.now server.now) }
{
    match version {
        RowBody::Deleted => Ok(is_deletion(&server.body)),
        RowBody::Sealed(strings) => sealed_has_content(alloc, sets, local, strings, server),
    }
}

fn is_deletion(body: &Body) -> bool
    ensures { IsTrue result ↔ (body.now ≡ Deleted) }
{
    match body {
        Body::Deleted => true,
        Body::Strings { .. } => false,
    }
}

fn sealed_has_content(
    alloc: Global,
    sets: &Sets,
    local: &LocalItem,
    strings: &RowStrings,
    server: &Item,
) -> Result<bool, AllocError>
    ensures { IfOk result (λ has. IsTrue has ↔ HasContent sets.now local.now (body.Sealed strings.now) server.now) }
{
    let Body::Strings { content, enc } = &server.body else {
        return Ok(false);
    };
    if !local.kind.same(&server.kind) {
        return Ok(false);
    }
    let other = strings_twin(alloc, content, enc)?;
    same_strings(alloc, sets, local.uuid, strings, server.uuid, &other)
}

fn strings_twin(alloc: Global, content: &Text, enc: &Text) -> Result<Sealed, AllocError>
    ensures { IfOk result (λ sealed. (sealed.content ≡ content.now) × (sealed.enc ≡ enc.now)) }
{
    let content = content.try_clone(alloc)?;
    let enc = enc.try_clone(alloc)?;
    Ok(Sealed { content, enc })
}

fn same_strings(
    alloc: Global,
    sets: &Sets,
    uuid: Uuid,
    strings: &RowStrings,
    other_uuid: Uuid,
    other: &Sealed,
) -> Result<bool, AllocError>
    ensures { IfOk result (λ same. IsTrue same ↔ SameStrings sets.now uuid (sealed_of strings.now) other_uuid other.now) }
{
    if are_equal(strings, other) {
        return Ok(true);
    }
    let sealed = sealed_strings(alloc, strings)?;
    open_alike(alloc, sets, uuid, &sealed, other_uuid, other)
}

fn are_equal(strings: &RowStrings, other: &Sealed) -> bool
    ensures { IsTrue result ↔ (sealed_of strings.now ≡ other.now) }
{
    strings.content.same(&other.content) && strings.enc.same(&other.enc)
}

fn open_alike(
    alloc: Global,
    sets: &Sets,
    uuid: Uuid,
    sealed: &Sealed,
    other_uuid: Uuid,
    other: &Sealed,
) -> Result<bool, AllocError>
    ensures { IfOk result (λ alike. IsTrue alike ↔ OpenAlike sets.now uuid sealed.now other_uuid other.now) }
{
    match sets.open(alloc, uuid, sealed)? {
        Some(text) => opens_to(alloc, sets, other_uuid, other, text.as_str()),
        None => Ok(false),
    }
}

fn opens_to(
    alloc: Global,
    sets: &Sets,
    uuid: Uuid,
    sealed: &Sealed,
    text: &str,
) -> Result<bool, AllocError>
    ensures { IfOk result (λ opens. IsTrue opens ↔ OpensHeld sets.now uuid sealed.now text.now) }
{
    match sets.open(alloc, uuid, sealed)? {
        Some(own) => Ok(own.as_str() == text),
        None => Ok(false),
    }
}
