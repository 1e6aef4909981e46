//! Rows that stand on versions of the server's.

ghost use Rattle.std.specs.Prelude.{◌≡◌, ◌≢◌, ◌≤◌, None, IfErr, IfOk};
ghost use Rattle.rand_chacha.specs.ChaCha.{ChaCha};
ghost use Rattle.sn_device.specs.States.{columns};
ghost use Rattle.sn_taking.specs.Taken.{HasNumber, IsUsedUp, IsVersion, StopsBy, after, so_far};
ghost use Rattle.sn_device.specs.Taking.{IsKeptAs, MakesRow, Progress, StandsOn, TakesVersion, changed, with_words};
ghost use Rattle.sn_rows.specs.Bounds.{HasDeviceLengths, last_stamp};
ghost use Rattle.sn_rows.specs.Table.{Rows};
ghost use Rattle.sn_sets.specs.Seals.{IsLater};
ghost use Rattle.sn_sets.specs.Sets.{sealed_of};
ghost use Rattle.sn_sync.specs.Fits.{FitsStored};
ghost use Rattle.sn_sync.specs.Versions.{NamesStamp};
ghost use Rattle.sn_sync.specs.declared.item.Body.TheVariants as body;

use crate::taken::{Effect, NotTaken, Taken};
use sn_items::Words;
use sn_local::put_local;
use sn_rekey::rewrap_older;
use sn_rows::{Change, Key, LocalItem, RowBody, RowStrings};
use sn_sets::Sets;
use sn_string::{Text, TryClone};
use sn_sync::{Body, Item, Stamp};
use std::alloc::{AllocError, Global};
use uuid::Uuid;

/// The change after which the row of a local number stands on a version, with this draft left to it. On a
/// deletion no row stands.
pub(crate) fn take_version(
    alloc: Global,
    sets: &Sets,
    number: u64,
    item: &Item,
    latest: Option<RowBody>,
    words: &mut Words,
) -> Result<Change, AllocError>
    requires { IsVersion item.now }
    ensures ok { IfOk result (λ change. (p : Progress) → p.words ≡ words.old → TakesVersion sets.now p number item.now latest None (with_words (changed p change) words.new)) }
    ensures words { IsLater words.old words.new }
{
    match &item.body {
        Body::Deleted => Ok(Change::Remove(Key::Local(number))),
        Body::Strings { content, enc } => {
            let local = row_of(alloc, sets, item, content, enc, latest, words)?;
            put_local(alloc, number, local)
        }
    }
}

/// What a version makes of an item that has no row: an undeleted one makes it.
pub(crate) fn make_row(
    alloc: Global,
    sets: &Sets,
    taken: &Taken,
    item: &Item,
    words: &mut Words,
) -> Result<Effect, NotTaken>
    requires { IsVersion item.now }
    ensures ok { IfOk result (λ effect. (rows : Rows) → MakesRow sets.now (so_far rows taken.now words.old) item.now item.now.body (after (so_far rows taken.now words.old) effect words.new)) }
    ensures number { IfOk result (HasNumber taken.now.next) }
    ensures err { IfErr result (StopsBy (λ why. (item.now.body ≢ body.Deleted) × ((rows : Rows) (at : ChaCha) → IsUsedUp (so_far rows taken.now at) why))) }
    ensures words { IsLater words.old words.new }
{
    match &item.body {
        Body::Deleted => Ok(Effect::Nothing),
        Body::Strings { content, enc } => {
            if taken.next == u64::MAX {
                return Err(NotTaken::NumbersUsed { next: taken.next });
            }
            let local = row_of(alloc, sets, item, content, enc, None, words)?;
            Ok(Effect::Made(put_local(alloc, taken.next, local)?))
        }
    }
}

// The row that stands on an undeleted version, with this draft.
fn row_of(
    alloc: Global,
    sets: &Sets,
    item: &Item,
    content: &Text,
    enc: &Text,
    latest: Option<RowBody>,
    words: &mut Words,
) -> Result<LocalItem, AllocError>
    requires version { IsVersion item.now }
    requires body { item.now.body ≡ body.Strings content.now enc.now }
    ensures ok { IfOk result (λ local. StandsOn sets.now words.old item.now content.now enc.now latest None (columns local) words.new) }
    ensures words { IsLater words.old words.new }
{
    let stamp = stamp_of(item);
    let given = row_strings(alloc, content, enc)?;
    let kind = item.kind.try_clone(alloc)?;
    let (strings, stale) = kept_strings(alloc, sets, item.uuid, given, words)?;
    let body = Some(RowBody::Sealed(strings));
    match LocalItem::new(item.uuid, kind, Some(stamp), stale, body, latest, None) {
        Some(local) => Ok(local),
        None => unreachable!(),
    }
}

// The strings of a version as they are kept, and whether they are to be sent again: those that open under the older
// set alone are sealed again under the present one.
fn kept_strings(
    alloc: Global,
    sets: &Sets,
    uuid: Uuid,
    given: RowStrings,
    words: &mut Words,
) -> Result<(RowStrings, bool), AllocError>
    ensures ok { IfOk result (λ kept. IsKeptAs sets.now words.old uuid (sealed_of given) kept.0 kept.1 words.new) }
    ensures words { IsLater words.old words.new }
{
    match rewrap_older(alloc, words, &given, uuid, sets)? {
        Some(again) => Ok((again, true)),
        None => Ok((given, false)),
    }
}

// The strings of a version, as a row has them.
fn row_strings(alloc: Global, content: &Text, enc: &Text) -> Result<RowStrings, AllocError>
    requires { HasDeviceLengths content.now × HasDeviceLengths enc.now }
    ensures { IfOk result (λ strings. (strings.content ≡ content.now) × (strings.enc ≡ enc.now)) }
{
    let content = content.try_clone(alloc)?;
    let enc = enc.try_clone(alloc)?;
    match RowStrings::new(content, enc) {
        Some(strings) => Ok(strings),
        None => unreachable!(),
    }
}

// The stamp of a stored version.
fn stamp_of(item: &Item) -> u64
    requires { FitsStored item.now }
    ensures stamped { NamesStamp item.now result }
    ensures fits { result ≤ last_stamp }
{
    let Some(text) = &item.updated_at else {
        unreachable!();
    };
    match Stamp::read(text.as_str()) {
        Ok(stamp) => stamp,
        Err(_) => unreachable!(),
    }
}
