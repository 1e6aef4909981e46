//! What was sent under a former set and is sent again under another.

ghost use Rattle.std.specs.Prelude.{◌≡◌, ◌↔◌, ◌++◌, IfOk, IsTrue, List, OnOk, Some};
ghost use Rattle.std.specs.Option.{option_copied, option_to_list};
ghost use Rattle.sn_adopted.specs.Moves.{reposting};
ghost use Rattle.sn_laws.specs.declared.ideal.Account.{Account};
ghost use Rattle.sn_row_map.specs.RowMaps.{row_in};
ghost use Rattle.sn_shows.specs.Servers.{ShowsAccounts, account_at};
ghost use Rattle.sn_world.specs.Committing.{AreRepostedUuids};
ghost use Rattle.sn_saying.specs.Adopted.{AreRepostedIn, IsUuidOf, StandsOn, numbered, stamp_for};

use crate::sent::is_same;
use sn_laws::Move;
use sn_row_map::RowMap;
use sn_rows::{Key, LocalItem, RowKind, Value};
use sn_string::{OwnedList, Text, TryClone};
use std::alloc::{AllocError, Global};
use uuid::Uuid;

/// The uuids of a device's items of which what was sent is sent again, in local order: `number` is that of the device's
/// account.
pub(crate) fn reposted(
    alloc: Global,
    server: &RowMap,
    rows: &RowMap,
    number: u64,
) -> Result<OwnedList<Uuid>, AllocError>
    ensures { IfOk result (λ uuids. (accounts : List Account) (a : Account) → ShowsAccounts (row_in server.now) accounts
        → account_at number accounts ≡ Some a → AreRepostedIn (row_in rows.now) a uuids) }
{
    let mut uuids = OwnedList::new(alloc);
    let mut found = rows.first(RowKind::Local);
    'items: while let Some((at, value)) = found {
        push_uuid(&mut uuids, reposted_uuid(server, number, at, value))?;
        found = rows.next_after(at);
    }
    Ok(uuids)
}

// Adds a uuid, if there is one.
fn push_uuid(uuids: &mut OwnedList<Uuid>, uuid: Option<Uuid>) -> Result<(), AllocError>
    ensures { OnOk result (uuids.new ≡ uuids.old ++ option_to_list uuid) }
{
    match uuid {
        Some(uuid) => uuids.push(uuid),
        None => Ok(()),
    }
}

// The uuid of a row's item, if what was sent of it is sent again.
fn reposted_uuid(server: &RowMap, number: u64, at: &Key, value: &Value) -> Option<Uuid>
    ensures { (accounts : List Account) (a : Account) → ShowsAccounts (row_in server.now) accounts → account_at number accounts ≡ Some a
        → AreRepostedUuids a (numbered at.now value.now) (option_to_list result) }
{
    match (at, value) {
        (Key::Local(_), Value::Local(item)) => uuid_of(server, number, item.get()),
        _ => None,
    }
}

// The same of an item.
fn uuid_of(server: &RowMap, number: u64, item: &LocalItem) -> Option<Uuid>
    ensures { IsUuidOf (row_in server.now) number item.now result }
{
    if !stands_on(server, number, item) {
        return None;
    }
    Some(item.uuid)
}

// Whether something was sent of an item that stands on what the server has of it in the account.
fn stands_on(server: &RowMap, number: u64, item: &LocalItem) -> bool
    ensures { IsTrue result ↔ StandsOn (row_in server.now) number item.now }
{
    if item.posted.is_none() {
        return false;
    }
    is_same(
        item.base,
        stamp_for(number, server.get(&Key::Item(item.uuid))),
    )
}

// The stamp of an item's row, where that is of the account.
fn stamp_for(number: u64, found: Option<&Value>) -> Option<u64>
    ensures { result ≡ stamp_for number (option_copied found.entry) }
{
    match found {
        Some(Value::Item(row)) if row.account() == number => Some(row.updated()),
        _ => None,
    }
}

/// Adds the moves by which what was sent of these items is sent again.
pub(crate) fn push_reposting(
    alloc: Global,
    moves: &mut OwnedList<Move>,
    name: &Text,
    uuids: &[Uuid],
) -> Result<(), AllocError>
    ensures { OnOk result (moves.new ≡ moves.old ++ reposting name.now uuids.now) }
{
    'uuids: for uuid in uuids {
        moves.push(Move::Unpost {
            device: name.try_clone(alloc)?,
            uuid: *uuid,
        })?;
        moves.push(Move::Post {
            device: name.try_clone(alloc)?,
            uuid: *uuid,
        })?;
    }
    Ok(())
}
