//! Checks of an answer to a sync.

ghost use Rattle.std.specs.Prelude.{◌≡◌, ◌↔◌, ◌<◌, ◌≤◌, ℕ, IfErr, IfNone, IfOk, IfSome, IsTrue};
ghost use Rattle.std.specs.List.{Contains};
ghost use Rattle.sn_conflict.specs.Checks.{AreBelow, FailsAt, HasConflictOf, IsAbove, IsAt, IsConflict, IsConflictOf, IsNew, IsRetrieved, IsSaved, Passes, Saves, SavesOne};
ghost use Rattle.sn_conflict.specs.Lists.{AllRight, IsFirstWrong};
ghost use Rattle.sn_conflict.specs.declared.error.CheckError.TheVariants as wrong;
ghost use Rattle.sn_sync.specs.Stamps.{IsStampText};
ghost use Rattle.sn_sync.specs.Versions.{NamesStamp, conflict_uuids, item_of, uuids};

use crate::error::CheckError;
use crate::strings::has_its_strings;
use sn_string::Text;
use sn_sync::{Body, Conflict, Item, Stamp};
use std::alloc::{AllocError, Global};
use uuid::Uuid;

// How many items an answer may retrieve.
const MOST_RETRIEVED: usize = 150;

/// Whether the answer to what was sent may be applied, or the first check that fails: of the saved
/// items in their order, of the conflicts, of the retrieved items, and of the cursor.
pub fn check(
    alloc: Global,
    sent: &[Item],
    saved: &[Item],
    conflicts: &[Conflict],
    retrieved: &[Item],
    cursor: &Option<Text>,
) -> Result<(), CheckError>
    ensures ok { IfOk result (λ _. Passes sent.now saved.now conflicts.now retrieved.now cursor.now) }
    ensures err { IfErr result (FailsAt sent.now saved.now conflicts.now retrieved.now cursor.now) }
{
    check_saved(alloc, sent, saved)?;
    check_conflicts(alloc, sent, saved, conflicts)?;
    check_retrieved(alloc, retrieved)?;
    if cursor.is_some() && retrieved.is_empty() {
        return Err(CheckError::Cursor);
    }
    Ok(())
}

fn check_saved(alloc: Global, sent: &[Item], saved: &[Item]) -> Result<(), CheckError>
    ensures ok { IfOk result (λ _. AllRight (IsSaved sent.now) saved.now) }
    ensures err { IfErr result (IsAt wrong.Saved (IsFirstWrong (IsSaved sent.now) saved.now)) }
{
    for index in 0..saved.len() {
        if !is_saved(alloc, sent, &saved[..index], &saved[index])? {
            return Err(CheckError::Saved {
                index: index as u64,
            });
        }
    }
    Ok(())
}

fn check_conflicts(
    alloc: Global,
    sent: &[Item],
    saved: &[Item],
    conflicts: &[Conflict],
) -> Result<(), CheckError>
    ensures ok { IfOk result (λ _. AllRight (IsConflict sent.now saved.now) conflicts.now) }
    ensures err { IfErr result (IsAt wrong.Conflict (IsFirstWrong (IsConflict sent.now saved.now) conflicts.now)) }
{
    for index in 0..conflicts.len() {
        if !is_conflict(alloc, sent, saved, &conflicts[..index], &conflicts[index])? {
            return Err(CheckError::Conflict {
                index: index as u64,
            });
        }
    }
    Ok(())
}

fn check_retrieved(alloc: Global, retrieved: &[Item]) -> Result<(), CheckError>
    ensures ok { IfOk result (λ _. AllRight IsRetrieved retrieved.now) }
    ensures err { IfErr result (IsAt wrong.Retrieved (IsFirstWrong IsRetrieved retrieved.now)) }
{
    for index in 0..retrieved.len() {
        if !is_retrieved(alloc, &retrieved[..index], &retrieved[index])? {
            return Err(CheckError::Retrieved {
                index: index as u64,
            });
        }
    }
    Ok(())
}

fn is_saved(alloc: Global, sent: &[Item], before: &[Item], item: &Item) -> Result<bool, AllocError>
    ensures { IfOk result (λ is. IsTrue is ↔ IsSaved sent.now before.now item.now) }
{
    if has_uuid(before, item.uuid) || !saves_one(sent, item) {
        return Ok(false);
    }
    has_its_strings(alloc, item)
}

fn is_conflict(
    alloc: Global,
    sent: &[Item],
    saved: &[Item],
    before: &[Conflict],
    conflict: &Conflict,
) -> Result<bool, AllocError>
    ensures { IfOk result (λ is. IsTrue is ↔ IsConflict sent.now saved.now before.now conflict.now) }
{
    let item = item_of(conflict);
    if has_uuid(saved, item.uuid) || has_conflict(before, item.uuid) {
        return Ok(false);
    }
    if !is_conflict_of_one(sent, conflict) {
        return Ok(false);
    }
    has_its_strings(alloc, item)
}

// Those before it have passed, so their stamps rise.
fn is_retrieved(alloc: Global, before: &[Item], item: &Item) -> Result<bool, AllocError>
    requires { AllRight IsRetrieved before.now }
    ensures { IfOk result (λ is. IsTrue is ↔ IsRetrieved before.now item.now) }
{
    if before.len() >= MOST_RETRIEVED || !is_above(before, item) {
        return Ok(false);
    }
    has_its_strings(alloc, item)
}

fn is_above(before: &[Item], item: &Item) -> bool
    requires { AllRight IsRetrieved before.now }
    ensures { IsTrue result ↔ IsAbove before.now item.now }
{
    match stamp_of(item) {
        Some(stamp) => are_below(before, stamp),
        None => false,
    }
}

// The last of them has the greatest stamp.
fn are_below(before: &[Item], stamp: u64) -> bool
    requires { AllRight IsRetrieved before.now }
    ensures { IsTrue result ↔ AreBelow before.now stamp }
{
    match before.last() {
        Some(last) => is_below(last, stamp),
        None => true,
    }
}

fn is_below(item: &Item, stamp: u64) -> bool
    ensures { IsTrue result ↔ ((other : ℕ) → NamesStamp item.now other → other < stamp) }
{
    match stamp_of(item) {
        Some(other) => other < stamp,
        None => true,
    }
}

fn item_of(conflict: &Conflict) -> &Item
    ensures { result.now ≡ item_of conflict.now }
{
    match conflict {
        Conflict::Sync { server } => server,
        Conflict::Uuid { unsaved } | Conflict::Content { unsaved } => unsaved,
    }
}

fn has_uuid(items: &[Item], uuid: Uuid) -> bool
    ensures { IsTrue result ↔ Contains (uuids items.now) uuid }
{
    for item in items {
        if item.uuid == uuid {
            return true;
        }
    }
    false
}

fn has_conflict(conflicts: &[Conflict], uuid: Uuid) -> bool
    ensures { IsTrue result ↔ Contains (conflict_uuids conflicts.now) uuid }
{
    for conflict in conflicts {
        if item_of(conflict).uuid == uuid {
            return true;
        }
    }
    false
}

fn saves_one(sent: &[Item], item: &Item) -> bool
    ensures { IsTrue result ↔ SavesOne sent.now item.now }
{
    for posted in sent {
        if saves(posted, item) {
            return true;
        }
    }
    false
}

fn saves(posted: &Item, item: &Item) -> bool
    ensures { IsTrue result ↔ Saves posted.now item.now }
{
    if posted.uuid != item.uuid || !same_body(&item.body, &posted.body) {
        return false;
    }
    match stamp_of(item) {
        Some(stamp) => is_not_above(posted, stamp),
        None => false,
    }
}

fn is_not_above(item: &Item, stamp: u64) -> bool
    ensures { IsTrue result ↔ ((other : ℕ) → NamesStamp item.now other → other ≤ stamp) }
{
    match stamp_of(item) {
        Some(other) => other <= stamp,
        None => true,
    }
}

fn is_conflict_of_one(sent: &[Item], conflict: &Conflict) -> bool
    ensures { IsTrue result ↔ HasConflictOf sent.now conflict.now }
{
    for posted in sent {
        if is_conflict_of(posted, conflict) {
            return true;
        }
    }
    false
}

fn is_conflict_of(posted: &Item, conflict: &Conflict) -> bool
    ensures { IsTrue result ↔ IsConflictOf posted.now conflict.now }
{
    if posted.uuid != item_of(conflict).uuid {
        return false;
    }
    match conflict {
        Conflict::Uuid { .. } => is_new(posted),
        Conflict::Sync { .. } | Conflict::Content { .. } => true,
    }
}

fn is_new(item: &Item) -> bool
    ensures { IsTrue result ↔ IsNew item.now }
{
    match stamp_of(item) {
        Some(_) => false,
        None => true,
    }
}

fn same_body(body: &Body, other: &Body) -> bool
    ensures { IsTrue result ↔ (body.now ≡ other.now) }
{
    match (body, other) {
        (Body::Deleted, Body::Deleted) => true,
        (
            Body::Strings { content, enc },
            Body::Strings {
                content: other_content,
                enc: other_enc,
            },
        ) => content.same(other_content) && enc.same(other_enc),
        _ => false,
    }
}

/// The stamp that an item names: as its own where it is stored, as that of the version which it replaces
/// where it is sent. None where its text is none of a stamp.
pub(crate) fn stamp_of(item: &Item) -> Option<u64>
    ensures some { IfSome result (λ stamp. NamesStamp item.now stamp) }
    ensures one { IfSome result (λ stamp. (other : ℕ) → NamesStamp item.now other → other ≡ stamp) }
    ensures none { IfNone result ((stamp : ℕ) → ¬ (NamesStamp item.now stamp)) }
{
    match &item.updated_at {
        Some(text) => read_stamp(text.as_str()),
        None => None,
    }
}

fn read_stamp(text: &str) -> Option<u64>
    ensures some { IfSome result (λ stamp. IsStampText text.now stamp) }
    ensures none { IfNone result ((stamp : ℕ) → ¬ (IsStampText text.now stamp)) }
{
    match Stamp::read(text) {
        Ok(stamp) => Some(stamp),
        Err(_) => None,
    }
}
