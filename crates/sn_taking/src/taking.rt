//! What an answer to a sync makes of a device's items, one version after another.

ghost use Rattle.std.specs.Prelude.{◌≡◌, ◌↔◌, List, [], All, map, IfErr, IfOk, IsTrue, OnOk};
ghost use Rattle.std.specs.List.{Contains};
ghost use Rattle.sn_device.specs.States.{HasItem};
ghost use Rattle.sn_local.specs.Found.{AreFound};
ghost use Rattle.sn_taking.specs.Taken.{HasNumber, HasVersion, IsVersion, StopsBy, StopsServer, after, left_by, so_far};
ghost use Rattle.rand_chacha.specs.ChaCha.{ChaCha};
ghost use Rattle.sn_taking.specs.declared.taken.NotTaken.TheVariants as stop;
ghost use Rattle.sn_sets.specs.declared.sets.Sets.{Sets};
ghost use Rattle.sn_sync.specs.declared.answer.Conflict.TheVariants as conflict;
ghost use Rattle.sn_device.specs.Taking.{RunsOut, RunsOutAt, Takes, TakesAll, TakesConflict, TakesServer, is_conflict, is_retrieved, is_saved, told_by};
ghost use Rattle.sn_row_map.specs.RowMaps.{row_in};
ghost use Rattle.sn_rows.specs.Table.{rows_after};
ghost use Rattle.sn_sets.specs.Seals.{IsLater};
ghost use Rattle.sn_sync.specs.Versions.{uuids};
ghost use Rattle.sn_sync.specs.declared.item.Item.{Item};

use crate::renaming::{copy_draft, rename, unpost};
use crate::taken::{Effect, NotTaken, Taken};
use crate::versions::{make_row, take_version};
use sn_conflict::{Meeting, meet};
use sn_items::Words;
use sn_local::{Index, item_at};
use sn_row_map::RowMap;
use sn_rows::{LocalItem, RowBody};
use sn_sets::Sets;
use sn_string::TryClone;
use sn_sync::{Conflict, Item};
use std::alloc::{AllocError, Global};
use uuid::Uuid;

/// What an answer to a sync makes of the items: the saved versions, then the conflicts, then the retrieved
/// versions, each in order.
pub(crate) fn take_answer(
    alloc: Global,
    rows: &RowMap,
    index: &Index,
    sets: &Sets,
    saved: &[Item],
    conflicts: &[Conflict],
    retrieved: &[Item],
    next: u64,
    words: &mut Words,
) -> Result<Taken, NotTaken>
    requires found { AreFound index.now rows.now }
    requires saved { All IsVersion saved.now }
    requires conflicts { All HasVersion conflicts.now }
    requires retrieved { All IsVersion retrieved.now }
    ensures ok { IfOk result (λ taken. TakesAll sets.now saved.now (record { rows = row_in rows.now; changes = []; next = next; words = words.old }) (told_by saved.now conflicts.now retrieved.now) (so_far (row_in rows.now) taken words.new)) }
    ensures err { IfErr result (StopsBy (RunsOut sets.now saved.now (record { rows = row_in rows.now; changes = []; next = next; words = words.old }) (told_by saved.now conflicts.now retrieved.now))) }
    ensures words { IsLater words.old words.new }
{
    let mut taken = Taken::none(alloc, next);
    take_saved(alloc, rows, index, sets, saved, &mut taken, words)?;
    take_conflicts(
        alloc, rows, index, sets, saved, conflicts, &mut taken, words,
    )?;
    take_retrieved(
        alloc, rows, index, sets, saved, retrieved, &mut taken, words,
    )?;
    Ok(taken)
}

fn take_saved(
    alloc: Global,
    rows: &RowMap,
    index: &Index,
    sets: &Sets,
    saved: &[Item],
    taken: &mut Taken,
    words: &mut Words,
) -> Result<(), NotTaken>
    requires found { AreFound index.now rows.now }
    requires versions { All IsVersion saved.now }
    ensures ok { OnOk result (TakesAll sets.now saved.now (so_far (row_in rows.now) taken.old words.old) (map is_saved saved.now) (so_far (row_in rows.now) taken.new words.new)) }
    ensures err { IfErr result (StopsBy (RunsOut sets.now saved.now (so_far (row_in rows.now) taken.old words.old) (map is_saved saved.now))) }
    ensures words { IsLater words.old words.new }
{
    'saved: for item in saved {
        let effect = take_server(alloc, rows, index, sets, taken, item, true, words)?;
        taken.add(effect)?;
    }
    Ok(())
}

fn take_conflicts(
    alloc: Global,
    rows: &RowMap,
    index: &Index,
    sets: &Sets,
    saved: &[Item],
    conflicts: &[Conflict],
    taken: &mut Taken,
    words: &mut Words,
) -> Result<(), NotTaken>
    requires found { AreFound index.now rows.now }
    requires versions { All HasVersion conflicts.now }
    ensures ok { OnOk result (TakesAll sets.now saved.now (so_far (row_in rows.now) taken.old words.old) (map is_conflict conflicts.now) (so_far (row_in rows.now) taken.new words.new)) }
    ensures err { IfErr result (StopsBy (RunsOut sets.now saved.now (so_far (row_in rows.now) taken.old words.old) (map is_conflict conflicts.now))) }
    ensures words { IsLater words.old words.new }
{
    'conflicts: for conflict in conflicts {
        let effect = take_conflict(alloc, rows, index, sets, taken, conflict, words)?;
        taken.add(effect)?;
    }
    Ok(())
}

fn take_retrieved(
    alloc: Global,
    rows: &RowMap,
    index: &Index,
    sets: &Sets,
    saved: &[Item],
    retrieved: &[Item],
    taken: &mut Taken,
    words: &mut Words,
) -> Result<(), NotTaken>
    requires found { AreFound index.now rows.now }
    requires versions { All IsVersion retrieved.now }
    ensures ok { OnOk result (TakesAll sets.now saved.now (so_far (row_in rows.now) taken.old words.old) (map is_retrieved retrieved.now) (so_far (row_in rows.now) taken.new words.new)) }
    ensures err { IfErr result (StopsBy (RunsOut sets.now saved.now (so_far (row_in rows.now) taken.old words.old) (map is_retrieved retrieved.now))) }
    ensures words { IsLater words.old words.new }
{
    'retrieved: for item in retrieved {
        let effect = take_unless_saved(alloc, rows, index, sets, saved, taken, item, words)?;
        taken.add(effect)?;
    }
    Ok(())
}

// What becomes of the item of a retrieved version. One that the same answer saves was retrieved before it
// was saved, and is passed over.
fn take_unless_saved(
    alloc: Global,
    rows: &RowMap,
    index: &Index,
    sets: &Sets,
    saved: &[Item],
    taken: &Taken,
    item: &Item,
    words: &mut Words,
) -> Result<Effect, NotTaken>
    requires found { AreFound index.now rows.now }
    requires version { IsVersion item.now }
    ensures ok { let p = so_far (row_in rows.now) taken.now words.old in IfOk result (λ effect. Takes sets.now saved.now p (is_retrieved item.now) (after p effect words.new)) }
    ensures number { IfOk result (HasNumber taken.now.next) }
    ensures err { IfErr result (StopsBy (RunsOutAt sets.now saved.now (so_far (row_in rows.now) taken.now words.old) (is_retrieved item.now))) }
    ensures words { IsLater words.old words.new }
{
    if has_uuid(saved, item.uuid) {
        return Ok(Effect::Nothing);
    }
    take_server(alloc, rows, index, sets, taken, item, false, words)
}

// Whether one of these versions has the uuid.
fn has_uuid(items: &[Item], uuid: Uuid) -> bool
    ensures { IsTrue result ↔ Contains (uuids items.now) uuid }
{
    'items: for item in items {
        if item.uuid == uuid {
            return true;
        }
    }
    false
}

// What becomes of an item that was sent and isn't saved.
fn take_conflict(
    alloc: Global,
    rows: &RowMap,
    index: &Index,
    sets: &Sets,
    taken: &Taken,
    conflict: &Conflict,
    words: &mut Words,
) -> Result<Effect, NotTaken>
    requires found { AreFound index.now rows.now }
    requires version { HasVersion conflict.now }
    ensures ok { let p = so_far (row_in rows.now) taken.now words.old in (saved : List Item) → IfOk result (λ effect. Takes sets.now saved p (is_conflict conflict.now) (after p effect words.new)) }
    ensures number { IfOk result (HasNumber taken.now.next) }
    ensures err { (saved : List Item) → IfErr result (StopsBy (RunsOutAt sets.now saved (so_far (row_in rows.now) taken.now words.old) (is_conflict conflict.now))) }
    ensures words { IsLater words.old words.new }
{
    match conflict {
        Conflict::Sync { server } => {
            take_server(alloc, rows, index, sets, taken, server, false, words)
        }
        Conflict::Uuid { unsaved } => {
            take_renamed(alloc, rows, index, sets, taken, unsaved.uuid, words)
        }
        Conflict::Content { unsaved } => take_unposted(alloc, rows, index, taken, unsaved.uuid),
    }
}

// What becomes of an item that was sent and whose uuid another account has.
fn take_renamed(
    alloc: Global,
    rows: &RowMap,
    index: &Index,
    sets: &Sets,
    taken: &Taken,
    uuid: Uuid,
    words: &mut Words,
) -> Result<Effect, NotTaken>
    requires found { AreFound index.now rows.now }
    ensures ok { let p = so_far (row_in rows.now) taken.now words.old in (unsaved : Item) → unsaved.uuid ≡ uuid → IfOk result (λ effect. TakesConflict sets.now p (conflict.Uuid unsaved) (after p effect words.new)) }
    ensures number { IfOk result (HasNumber taken.now.next) }
    ensures err { (saved : List Item) (unsaved : Item) → unsaved.uuid ≡ uuid → IfErr result (StopsBy (RunsOutAt sets.now saved (so_far (row_in rows.now) taken.now words.old) (is_conflict (conflict.Uuid unsaved)))) }
    ensures words { IsLater words.old words.new }
{
    let changes = taken.changes.as_slice();
    match item_at(rows, index, changes, uuid) {
        Some((number, local)) => rename(alloc, rows, index, sets, taken, number, local, words),
        None => Ok(Effect::Nothing),
    }
}

// What becomes of an item that was sent with a string that isn't of the account's present set.
fn take_unposted(
    alloc: Global,
    rows: &RowMap,
    index: &Index,
    taken: &Taken,
    uuid: Uuid,
) -> Result<Effect, NotTaken>
    requires found { AreFound index.now rows.now }
    ensures ok { IfOk result (λ effect. (sets : Sets) (words : ChaCha) (unsaved : Item) → unsaved.uuid ≡ uuid
        → TakesConflict sets (so_far (row_in rows.now) taken.now words) (conflict.Content unsaved) (after (so_far (row_in rows.now) taken.now words) effect words)) }
    ensures number { IfOk result (HasNumber taken.now.next) }
    ensures err { IfErr result (λ e. e ≡ stop.Memory) }
{
    let changes = taken.changes.as_slice();
    match item_at(rows, index, changes, uuid) {
        Some((number, local)) => Ok(Effect::Changed(unpost(alloc, number, local)?)),
        None => Ok(Effect::Nothing),
    }
}

// What becomes of the item of a version of the server's, which the answer saved or not.
fn take_server(
    alloc: Global,
    rows: &RowMap,
    index: &Index,
    sets: &Sets,
    taken: &Taken,
    item: &Item,
    saved: bool,
    words: &mut Words,
) -> Result<Effect, NotTaken>
    requires found { AreFound index.now rows.now }
    requires version { IsVersion item.now }
    ensures ok { let p = so_far (row_in rows.now) taken.now words.old in IfOk result (λ effect. TakesServer sets.now p item.now saved (after p effect words.new)) }
    ensures number { IfOk result (HasNumber taken.now.next) }
    ensures err { IfErr result (StopsBy (StopsServer sets.now (so_far (row_in rows.now) taken.now words.old) item.now saved)) }
    ensures words { IsLater words.old words.new }
{
    let changes = taken.changes.as_slice();
    let Some((number, local)) = item_at(rows, index, changes, item.uuid) else {
        return make_row(alloc, sets, taken, item, words);
    };
    let meeting = meet(alloc, local, item, saved, sets)?;
    match meeting {
        Meeting::Same => Ok(Effect::Nothing),
        Meeting::Fork => {
            let copy = copy_draft(alloc, rows, index, sets, taken, local, words)?;
            let change = take_version(alloc, sets, number, item, None, words)?;
            Ok(Effect::Forked(copy, change))
        }
        _ => {
            let latest = left_by(alloc, local, meeting)?;
            let change = take_version(alloc, sets, number, item, latest, words)?;
            Ok(Effect::Changed(change))
        }
    }
}

// What a row's draft leaves to the row where that takes the version it meets: the draft stays where what
// was sent of it is answered.
fn left_by(
    alloc: Global,
    local: &LocalItem,
    meeting: Meeting,
) -> Result<Option<RowBody>, AllocError>
    ensures { IfOk result (λ latest. latest ≡ left_by local.now meeting) }
{
    match meeting {
        Meeting::Own { ends: false } => local.latest.try_clone(alloc),
        _ => Ok(None),
    }
}
