//! Drafts that go on under fresh uuids, and drafts that are no longer sent.

ghost use Rattle.std.specs.Prelude.{◌≡◌, ◌↔◌, ◌≤◌, ℕ, List, Some, IfErr, IfNone, IfOk, IfSome, IsTrue, length, string_bytes};
ghost use Rattle.sn_device.specs.Sending.{PutsColumns};
ghost use Rattle.sn_device.specs.States.{columns};
ghost use Rattle.sn_local.specs.Found.{AreFound};
ghost use Rattle.sn_taking.specs.Taken.{FindsNoFresh, HasNumber, HasText, IsReadable, PutsAnew, StopsBy, StopsCopy, after, so_far};
ghost use Rattle.sn_device.specs.Taking.{Copies, Renames, made, unposted, with_words};
ghost use Rattle.sn_device.specs.Draws.{DrawsNoFresh};
ghost use Rattle.sn_device.specs.declared.error.ClientError.TheVariants as refusal;
ghost use Rattle.sn_taking.specs.declared.taken.Effect.TheVariants as effect;
ghost use Rattle.sn_items.specs.Objects.{is_object};
ghost use Rattle.sn_row_map.specs.RowMaps.{row_in};
ghost use Rattle.sn_rows.specs.Bounds.{HasLength};
ghost use Rattle.sn_rows.specs.Table.{rows_after};
ghost use Rattle.sn_rows.specs.declared.body.RowBody.TheVariants as body;
ghost use Rattle.sn_sets.specs.Seals.{IsLater, longest_sealed};
ghost use Rattle.sn_sets.specs.Sets.{OpensHeld, OpensNowhere, sealed_of};

use crate::taken::{Effect, NotTaken, Taken};
use sn_items::Words;
use sn_local::{Index, draw_fresh, put_local, put_new};
use sn_notes::conflict_copy;
use sn_row_map::RowMap;
use sn_rows::{Change, Key, LocalItem, RowBody, RowStrings};
use sn_sets::{Sets, seal_strings, sealed_strings};
use sn_string::{KeySet, Text, TryClone};
use std::alloc::{AllocError, Global};
use uuid::Uuid;

/// The change that puts the copy of a draft's content, as a new item under the next local number. The
/// draft is one that can be read.
pub(crate) fn copy_draft(
    alloc: Global,
    rows: &RowMap,
    index: &Index,
    sets: &Sets,
    taken: &Taken,
    local: &LocalItem,
    words: &mut Words,
) -> Result<Change, NotTaken>
    requires found { AreFound index.now rows.now }
    requires readable { IsReadable sets.now local.now }
    ensures ok { let p = so_far (row_in rows.now) taken.now words.old in IfOk result (λ change. Copies sets.now p local.now (with_words (made p change) words.new)) }
    ensures number { IfOk result (λ change. HasNumber taken.now.next (effect.Made change)) }
    ensures err { IfErr result (StopsBy (StopsCopy (so_far (row_in rows.now) taken.now words.old))) }
    ensures words { IsLater words.old words.new }
{
    if taken.next == u64::MAX {
        return Err(NotTaken::NumbersUsed { next: taken.next });
    }
    let Some(text) = draft_text(alloc, sets, local)? else {
        unreachable!();
    };
    let copy = conflict_copy(alloc, &text, local.uuid)?;
    let changes = taken.changes.as_slice();
    put_anew(
        alloc,
        rows,
        index,
        changes,
        &sets.present,
        taken.next,
        &local.kind,
        &copy,
        words,
    )
}

/// What becomes of an item whose uuid another account has: its row is that of a new one under a fresh
/// uuid, with the same content. A deletion goes, and what can't be read stays as it is.
pub(crate) fn rename(
    alloc: Global,
    rows: &RowMap,
    index: &Index,
    sets: &Sets,
    taken: &Taken,
    number: u64,
    local: &LocalItem,
    words: &mut Words,
) -> Result<Effect, NotTaken>
    requires found { AreFound index.now rows.now }
    ensures ok { let p = so_far (row_in rows.now) taken.now words.old in IfOk result (λ effect. Renames sets.now p number local.now local.now.latest (after p effect words.new)) }
    ensures number { IfOk result (HasNumber taken.now.next) }
    ensures err { IfErr result (StopsBy (λ why. IsReadable sets.now local.now × FindsNoFresh (so_far (row_in rows.now) taken.now words.old) why)) }
    ensures words { IsLater words.old words.new }
{
    if is_deletion(&local.latest) {
        return Ok(Effect::Changed(Change::Remove(Key::Local(number))));
    }
    let Some(text) = draft_text(alloc, sets, local)? else {
        return Ok(Effect::Nothing);
    };
    let changes = taken.changes.as_slice();
    let change = put_anew(
        alloc,
        rows,
        index,
        changes,
        &sets.present,
        number,
        &local.kind,
        &text,
        words,
    )?;
    Ok(Effect::Changed(change))
}

/// The change after which nothing that was sent of an item waits for its answer. The draft stays.
pub(crate) fn unpost(alloc: Global, number: u64, local: &LocalItem) -> Result<Change, AllocError>
    ensures { IfOk result (λ change. PutsColumns change number (unposted (columns local.now))) }
{
    let kind = local.kind.try_clone(alloc)?;
    let body = local.body.try_clone(alloc)?;
    let latest = local.latest.try_clone(alloc)?;
    let answered = LocalItem {
        uuid: local.uuid,
        kind,
        base: local.base,
        stale: local.stale,
        body,
        latest,
        posted: None,
    };
    put_local(alloc, number, answered)
}

// The change that puts a content as the draft of a new item under a fresh uuid.
fn put_anew(
    alloc: Global,
    rows: &RowMap,
    index: &Index,
    changes: &[Change],
    present: &KeySet,
    number: u64,
    kind: &Text,
    content: &str,
    words: &mut Words,
) -> Result<Change, NotTaken>
    requires found { AreFound index.now rows.now }
    requires kind { HasLength 1 255 kind.now }
    requires object { IsTrue (is_object content.now) }
    requires short { length content.now ≤ longest_sealed }
    ensures ok { IfOk result (λ change. PutsAnew present.now (rows_after (row_in rows.now) changes.now) words.old number kind.now content.now change words.new) }
    ensures err { IfErr result (StopsBy (λ why. (drawn : List ℕ) × DrawsNoFresh (rows_after (row_in rows.now) changes.now) words.old drawn × (why ≡ refusal.NoFreshUuid drawn))) }
    ensures words { IsLater words.old words.new }
{
    let uuid = match draw_fresh(rows, index, changes, words) {
        Ok(uuid) => uuid,
        Err(drawn) => return Err(NotTaken::NoFreshUuid { drawn }),
    };
    let strings = seal_strings(alloc, words, uuid, present, content)?;
    Ok(put_new(alloc, number, uuid, kind.as_str(), strings)?)
}

// Whether a draft is a deletion.
fn is_deletion(latest: &Option<RowBody>) -> bool
    ensures { IsTrue result ↔ (latest.now ≡ Some body.Deleted) }
{
    let Some(version) = latest else {
        return false;
    };
    match version {
        RowBody::Deleted => true,
        RowBody::Sealed(_) => false,
    }
}

// The content of a row's draft; none where there is no draft, or it is a deletion or can't be read.
fn draft_text(alloc: Global, sets: &Sets, local: &LocalItem) -> Result<Option<String>, AllocError>
    ensures some { IfOk result (λ found. IfSome found (λ text. HasText sets.now local.now (string_bytes text))) }
    ensures none { IfOk result (λ found. IfNone found (¬ (IsReadable sets.now local.now))) }
{
    let Some(version) = &local.latest else {
        return Ok(None);
    };
    match version {
        RowBody::Deleted => Ok(None),
        RowBody::Sealed(strings) => opened(alloc, sets, local.uuid, strings),
    }
}

// The content that the strings of a row open to, or none.
fn opened(
    alloc: Global,
    sets: &Sets,
    uuid: Uuid,
    strings: &RowStrings,
) -> Result<Option<String>, AllocError>
    ensures some { IfOk result (λ found. IfSome found (λ text. OpensHeld sets.now uuid (sealed_of strings.now) (string_bytes text))) }
    ensures none { IfOk result (λ found. IfNone found (OpensNowhere sets.now uuid (sealed_of strings.now))) }
{
    let sealed = sealed_strings(alloc, strings)?;
    sets.open(alloc, uuid, &sealed)
}
