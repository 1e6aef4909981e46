//! The lines of items, each in the list of its account.

ghost use Rattle.std.specs.Prelude.{◌≡◌, ◌+◌, ◌++◌, [], ◌∷◌, ◌<◌, List, ℕ, Some, IfOk, OnOk, length, map, slice_index_or, slice_set};
ghost use Rattle.std.specs.BTreeMap.{get};
ghost use Rattle.sn_items.specs.Items.{OpensItem};
ghost use Rattle.sn_laws.specs.Lookups.{Bytes, last_of};
ghost use Rattle.sn_laws.specs.declared.ideal.Account.{Account};
ghost use Rattle.sn_laws.specs.declared.ideal.Ideal.{Ideal};
ghost use Rattle.sn_laws.specs.declared.ideal.Version.{Version};
ghost use Rattle.sn_row_map.specs.Keys.{key_cmp};
ghost use Rattle.sn_row_map.specs.RowMaps.{row_in};
ghost use Rattle.sn_shows.specs.Servers.{ShowsStrings, account_at};
ghost use Rattle.sn_shows.specs.Sets.{set_at};
ghost use Rattle.sn_string.specs.declared.params.KeySet.{KeySet};
ghost use Rattle.sn_shown.specs.Held.{AreNumbers, AreSets, IsServed};
ghost use Rattle.sn_shown.specs.Lines.{lines_so_far};
ghost use Rattle.sn_shown.specs.Rows.{sealed_in};

use crate::numbers::Numbers;
use crate::opening::{carried_nonce, opened};
use crate::rows::item_row;
use sn_laws::Body;
use sn_report::{Labels, item_line};
use sn_row_map::RowMap;
use sn_rows::{ItemRow, Key};
use sn_string::{KeySet, OwnedList, Text};
use std::alloc::{AllocError, Global};
use std::collections::BTreeMap;
use uuid::Uuid;

/// Adds the line of an item to the list of its account.
pub(crate) fn add_item(
    alloc: Global,
    server: &RowMap,
    numbers: &Numbers,
    sets: &BTreeMap<Key, KeySet>,
    labels: &Labels,
    lists: &mut Vec<OwnedList<Text>>,
    uuid: &Uuid,
) -> Result<(), AllocError>
    ensures { (s : Ideal) (front : List Bytes) → IsServed (row_in server.now) s → AreNumbers numbers.now s.accounts
        → AreSets (get key_cmp sets.now) s.accounts → lists.old.items ≡ map (lines_so_far labels.now front) s.accounts
        → OnOk result (lists.new.items ≡ map (lines_so_far labels.now (front ++ uuid.now ∷ [])) s.accounts) }
{
    let Some(row) = item_row(server, uuid) else {
        return Ok(());
    };
    let Some(body) = body_of(alloc, numbers, sets, row, uuid)? else {
        return Ok(());
    };
    let line = item_line(alloc, labels, uuid, row.updated(), &body)?;
    add_line(lists, row.account(), line)
}

// Adds a line to the list of the account of this number; where there is none, to no list.
fn add_line(lists: &mut Vec<OwnedList<Text>>, number: u64, line: Text) -> Result<(), AllocError>
    ensures { (index : ℕ) → number ≡ index + 1 → index < length lists.old.items
        → OnOk result (lists.new.items ≡ slice_set lists.old.items index (slice_index_or lists.old.items index [] ++ line ∷ [])) }
{
    if number == 0 || number > lists.len() as u64 {
        return Ok(());
    }
    lists[(number - 1) as usize].push(line)
}

// What the last version of an item holds: its row's strings are opened once, under the set whose
// parameters they carry. Strings that don't open, or that carry a set that isn't held, hold nothing.
fn body_of(
    alloc: Global,
    numbers: &Numbers,
    sets: &BTreeMap<Key, KeySet>,
    row: &ItemRow,
    uuid: &Uuid,
) -> Result<Option<Body>, AllocError>
    ensures { (accounts : List Account) (a : Account) (v : Version) → AreNumbers numbers.now accounts → AreSets (get key_cmp sets.now) accounts
        → account_at row.now.account accounts ≡ Some a → last_of uuid.now a.versions ≡ Some v → ShowsStrings a.sets uuid.now row.now v.body
        → IfOk result (λ found. found ≡ Some v.body) }
{
    if row.is_deleted() {
        return Ok(Some(Body::Gone));
    }
    let Some(number) = carried_number(alloc, numbers, row)? else {
        return Ok(None);
    };
    let Some(set) = sets.get(&Key::Generation(row.account(), number)) else {
        return Ok(None);
    };
    match opened(alloc, row.content(), row.enc(), uuid, set)? {
        Some(text) => Ok(Some(Body::Under(text, number))),
        None => Ok(None),
    }
}

// The number of the set whose parameters the strings of an item carry.
fn carried_number(
    alloc: Global,
    numbers: &Numbers,
    row: &ItemRow,
) -> Result<Option<u64>, AllocError>
    ensures { (accounts : List Account) (a : Account) (number : ℕ) (set : KeySet) (uuid text : Bytes) → AreNumbers numbers.now accounts
        → account_at row.now.account accounts ≡ Some a → set_at number a.sets ≡ Some set → OpensItem (sealed_in row.now) uuid set text
        → IfOk result (λ found. found ≡ Some number) }
{
    let Some(nonce) = carried_nonce(alloc, row.enc())? else {
        return Ok(None);
    };
    Ok(numbers.set(row.account(), nonce.as_str()))
}
