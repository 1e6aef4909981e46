//! The commit that applies an answer to a sync.

ghost use Rattle.std.specs.Prelude.{◌≡◌, ◌++◌, ◌∷◌, [], All, IfErr, IfOk, OnOk};
ghost use Rattle.sn_taking.specs.declared.taken.NotTaken.TheVariants as stop;
ghost use Rattle.sn_rows.specs.declared.change.Change.{Change};
ghost use Rattle.sn_device.specs.Sending.{AreOfRows};
ghost use Rattle.sn_device.specs.States.{HasSets, owner_columns, text_of_token};
ghost use Rattle.sn_device.specs.Steps.{Applies, PutsOwner, start, with_tokens};
ghost use Rattle.sn_local.specs.Found.{AreFound};
ghost use Rattle.sn_taking.specs.Taken.{FitsTokens, StopsBy, option_list};
ghost use Rattle.sn_device.specs.Taking.{RunsOut, told_by};
ghost use Rattle.sn_conflict.specs.Checks.{Passes};
ghost use Rattle.sn_journal.specs.declared.owner.Owner.TheVariants.{Device as DeviceOwner};
ghost use Rattle.sn_row_map.specs.RowMaps.{row_in};
ghost use Rattle.sn_sets.specs.Seals.{IsLater};
ghost use Rattle.sn_sync.specs.Fits.{FitsConflict, FitsStored};
ghost use Rattle.sn_table.specs.Batches.{IsOf};

use crate::retiring::retired;
use crate::taken::{NotTaken, Taken};
use crate::taking::take_answer;
use sn_items::Words;
use sn_local::{Index, put_owner};
use sn_row_map::RowMap;
use sn_rows::{Change, OwnerRow};
use sn_sets::Sets;
use sn_string::{OwnedList, Text, TryClone};
use sn_sync::{Conflict, Item};
use std::alloc::{AllocError, Global};

/// The changes that apply an answer to what was sent, which passes the checks: what each of its versions
/// makes of the items, then the tokens and the next local number, and then the older set, where that may go.
pub fn applied(
    alloc: Global,
    rows: &RowMap,
    index: &Index,
    owner: &OwnerRow,
    sets: &Sets,
    sent: &[Item],
    saved: &[Item],
    conflicts: &[Conflict],
    retrieved: &[Item],
    cursor: &Option<Text>,
    token: &Text,
    words: &mut Words,
) -> Result<Vec<Change>, NotTaken>
    requires found { AreFound index.now rows.now }
    requires holds { HasSets (row_in rows.now) owner.now sets.now }
    requires sent_of_rows { AreOfRows (row_in rows.now) sent.now }
    requires passes { Passes sent.now saved.now conflicts.now retrieved.now cursor.now }
    requires saved { All FitsStored saved.now }
    requires conflicts { All FitsConflict conflicts.now }
    requires retrieved { All FitsStored retrieved.now }
    requires tokens { FitsTokens token.now cursor.now }
    ensures ok { IfOk result (λ changes. Applies (row_in rows.now) words.old sent.now conflicts.now cursor.now retrieved.now saved.now token.now changes.items words.new) }
    ensures owned { IfOk result (λ changes. All (IsOf DeviceOwner) changes.items) }
    ensures err { IfErr result (StopsBy (RunsOut sets.now saved.now (start (row_in rows.now) owner.now words.old) (told_by saved.now conflicts.now retrieved.now))) }
    ensures words { IsLater words.old words.new }
{
    let next = owner.next;
    let taken = take_answer(
        alloc, rows, index, sets, saved, conflicts, retrieved, next, words,
    )?;
    let gone = retired(alloc, rows, taken.changes.as_slice(), sets, cursor)?;
    and_tokens(alloc, owner, taken, token, cursor, gone)
}

// The taken changes, that of the device's own row behind them, and one more, if there is one.
fn and_tokens(
    alloc: Global,
    owner: &OwnerRow,
    taken: Taken,
    token: &Text,
    cursor: &Option<Text>,
    gone: Option<Change>,
) -> Result<Vec<Change>, NotTaken>
    requires { FitsTokens token.now cursor.now }
    ensures ok { IfOk result (λ changes. (change : Change) × PutsOwner change (with_tokens taken.next token.now cursor.now (owner_columns owner.now)) × (changes.items ≡ taken.changes ++ change ∷ option_list gone)) }
    ensures err { IfErr result (λ e. e ≡ stop.Memory) }
{
    let Taken { mut changes, next } = taken;
    let counted = put_tokens(alloc, owner, next, token, cursor)?;
    changes.push(counted)?;
    push_some(&mut changes, gone)?;
    Ok(changes.into_vec())
}

// Adds one change more, if there is one.
fn push_some(changes: &mut OwnedList<Change>, found: Option<Change>) -> Result<(), AllocError>
    ensures { OnOk result (changes.new ≡ changes.old ++ option_list found) }
{
    match found {
        Some(change) => changes.push(change),
        None => Ok(()),
    }
}

// The device's own row with the tokens of an answer and another next local number.
fn put_tokens(
    alloc: Global,
    owner: &OwnerRow,
    next: u64,
    token: &Text,
    cursor: &Option<Text>,
) -> Result<Change, AllocError>
    requires { FitsTokens token.now cursor.now }
    ensures { IfOk result (λ change. PutsOwner change (with_tokens next token.now cursor.now (owner_columns owner.now))) }
{
    let identifier = owner.identifier.try_clone(alloc)?;
    let session = owner.token.try_clone(alloc)?;
    let token = token.try_clone(alloc)?;
    let cursor = token_text(alloc, cursor)?;
    match OwnerRow::new(identifier, owner.account, session, token, cursor, next) {
        Some(row) => put_owner(alloc, row),
        None => unreachable!(),
    }
}

// A cursor token as the row has it: the empty text is none.
fn token_text(alloc: Global, token: &Option<Text>) -> Result<Text, AllocError>
    ensures { IfOk result (λ text. text ≡ text_of_token token.now) }
{
    match token {
        Some(text) => text.try_clone(alloc),
        None => Ok(Text::fixed("")),
    }
}
