//! The lines that show the server's accounts.

ghost use Rattle.std.specs.Prelude.{◌≡◌, ◌++◌, [], ◌∷◌, IfOk, OnOk, Some, map};
ghost use Rattle.std.specs.BTreeMap.{get};
ghost use Rattle.std.specs.List.{flat_map};
ghost use Rattle.sn_laws.specs.declared.ideal.Account.{Account};
ghost use Rattle.sn_laws.specs.declared.ideal.Ideal.{Ideal};
ghost use Rattle.sn_report.specs.Showing.{account_lines, account_text};
ghost use Rattle.sn_row_map.specs.Keys.{key_cmp};
ghost use Rattle.sn_row_map.specs.RowMaps.{row_in};
ghost use Rattle.sn_shows.specs.Servers.{account_at};
ghost use Rattle.sn_shown.specs.Held.{AreNumbers, AreSets, IsServed};
ghost use Rattle.sn_shown.specs.Lines.{lines_so_far};

use crate::item_lines::add_item;
use crate::numbers::Numbers;
use crate::rows::{account_count, account_row};
use sn_report::{Labels, account_line};
use sn_row_map::RowMap;
use sn_rows::Key;
use sn_string::{KeySet, OwnedList, Text};
use std::alloc::{AllocError, Global};
use std::collections::BTreeMap;

/// Adds the lines of each account, in the order in which they began: the account, and its items in
/// order of label. The sets are by the keys of the server's rows of them.
pub(crate) fn add_accounts(
    alloc: Global,
    lines: &mut OwnedList<Text>,
    labels: &Labels,
    server: &RowMap,
    numbers: &Numbers,
    sets: &BTreeMap<Key, KeySet>,
) -> Result<(), AllocError>
    ensures { (s : Ideal) → IsServed (row_in server.now) s → AreNumbers numbers.now s.accounts → AreSets (get key_cmp sets.now) s.accounts
        → OnOk result (lines.new ≡ lines.old ++ flat_map (account_lines labels.now) s.accounts) }
{
    let mut lists = first_lists(alloc, server)?;
    let labelled = labels.items(alloc)?;
    'items: for uuid in labelled.as_slice() {
        add_item(alloc, server, numbers, sets, labels, &mut lists, uuid)?;
    }
    add_lists(lines, lists)
}

// For each account, in order, a list of its own line alone.
fn first_lists(alloc: Global, server: &RowMap) -> Result<Vec<OwnedList<Text>>, AllocError>
    ensures { (s : Ideal) → IsServed (row_in server.now) s → IfOk result (λ lists. lists.items ≡ map (lines_so_far [] []) s.accounts) }
{
    let mut lists = Vec::new(alloc);
    'accounts: for index in 0..account_count(server) {
        let list = first_list(alloc, server, index + 1)?;
        lists.push(list)?;
    }
    Ok(lists)
}

fn first_list(alloc: Global, server: &RowMap, number: u64) -> Result<OwnedList<Text>, AllocError>
    ensures { (s : Ideal) (a : Account) → IsServed (row_in server.now) s → account_at number s.accounts ≡ Some a
        → IfOk result (λ list. list ≡ account_text a ∷ []) }
{
    let mut list = OwnedList::new(alloc);
    let Some(row) = account_row(server, number) else {
        return Ok(list);
    };
    let line = account_line(alloc, row.identifier.as_str(), row.generation)?;
    list.push(line)?;
    Ok(list)
}

// Adds the lines of all lists, in order.
fn add_lists(lines: &mut OwnedList<Text>, lists: Vec<OwnedList<Text>>) -> Result<(), AllocError>
    ensures { OnOk result (lines.new ≡ lines.old ++ flat_map (λ list. list) lists.items) }
{
    'lists: for list in lists {
        add_list(lines, list)?;
    }
    Ok(())
}

fn add_list(lines: &mut OwnedList<Text>, list: OwnedList<Text>) -> Result<(), AllocError>
    ensures { OnOk result (lines.new ≡ lines.old ++ list) }
{
    'texts: for line in list.into_vec() {
        lines.push(line)?;
    }
    Ok(())
}
