//! The lines that show what is closed to a device.

ghost use Rattle.std.specs.Prelude.{◌≡◌, ◌++◌, ℕ, IfOk, OnOk, Option, Some, None};
ghost use Rattle.std.specs.BTreeMap.{values};
ghost use Rattle.std.specs.List.{flat_map};
ghost use Rattle.sn_laws.specs.Lookups.{Bytes};
ghost use Rattle.sn_report.specs.Labels.{items_of, label_from};
ghost use Rattle.sn_report.specs.Showing.{closed_lines};
ghost use Rattle.sn_row_map.specs.RowMaps.{row_in};
ghost use Rattle.sn_rows.specs.declared.device_rows.LocalItem.{LocalItem};
ghost use Rattle.sn_rows.specs.declared.value.Value.TheVariants as value;
ghost use Rattle.sn_shown.specs.ByLabel.{AddsLine, labelled_line};
ghost use Rattle.sn_shown.specs.Closed.{ShowsClosed, ShowsClosedItem, closed_line};
ghost use Rattle.sn_shown.specs.Rows.{local_in};

use crate::by_label::add_values;
use crate::holding::Holding;
use crate::numbers::Numbers;
use crate::opening::carried_nonce;
use crate::rows::strings_of;
use sn_report::{Labels, closed_line};
use sn_row_map::RowMap;
use sn_rows::{LocalItem, RowKind, Value};
use sn_string::{OwnedList, Text};
use std::alloc::{AllocError, Global};
use std::collections::BTreeMap;

/// Adds a line for each item that has a label and is closed to a device, in order of label. The
/// numbers are those of the server's sets.
pub(crate) fn add_closed(
    alloc: Global,
    lines: &mut OwnedList<Text>,
    labels: &Labels,
    rows: &RowMap,
    numbers: &Numbers,
    holding: &Holding,
    name: &str,
) -> Result<(), AllocError>
    ensures { (closed : Bytes → Option ℕ) → ShowsClosed (row_in rows.now) numbers.now holding.now closed
        → OnOk result (lines.new ≡ lines.old ++ flat_map (λ uuid. closed_lines labels.now name.now uuid (closed uuid)) (items_of labels.now)) }
{
    let closed = closed_by_label(alloc, labels, rows, numbers, holding, name)?;
    add_values(lines, closed)
}

// The lines of what is closed, by label.
fn closed_by_label(
    alloc: Global,
    labels: &Labels,
    rows: &RowMap,
    numbers: &Numbers,
    holding: &Holding,
    name: &str,
) -> Result<BTreeMap<u64, Text>, AllocError>
    ensures { (closed : Bytes → Option ℕ) → ShowsClosed (row_in rows.now) numbers.now holding.now closed
        → IfOk result (λ by_label. values by_label ≡ flat_map (λ uuid. closed_lines labels.now name.now uuid (closed uuid)) (items_of labels.now)) }
{
    let mut by_label = BTreeMap::new(alloc);
    let mut found = rows.first(RowKind::Local);
    'items: while let Some((key, row)) = found {
        add_row(alloc, &mut by_label, labels, row, numbers, holding, name)?;
        found = rows.next_after(key);
    }
    Ok(by_label)
}

// Adds the line of an item's row, where it is closed.
fn add_row(
    alloc: Global,
    by_label: &mut BTreeMap<u64, Text>,
    labels: &Labels,
    row: &Value,
    numbers: &Numbers,
    holding: &Holding,
    name: &str,
) -> Result<(), AllocError>
    ensures item { (item : LocalItem) (under : Option ℕ) → row.now ≡ value.Local item → ShowsClosedItem numbers.now holding.now item under
        → OnOk result (AddsLine by_label.old by_label.new (label_from 1 labels.now item.uuid) (labelled_line labels.now item.uuid (closed_line labels.now name.now item.uuid under))) }
    ensures other { local_in (Some row.now) ≡ None → by_label.new ≡ by_label.old }
{
    match row {
        Value::Local(item) => {
            add_item(alloc, by_label, labels, item.get(), numbers, holding, name)
        }
        _ => Ok(()),
    }
}

// Adds the line of an item, where it has a label and is closed.
fn add_item(
    alloc: Global,
    by_label: &mut BTreeMap<u64, Text>,
    labels: &Labels,
    item: &LocalItem,
    numbers: &Numbers,
    holding: &Holding,
    name: &str,
) -> Result<(), AllocError>
    ensures { (under : Option ℕ) → ShowsClosedItem numbers.now holding.now item.now under
        → OnOk result (AddsLine by_label.old by_label.new (label_from 1 labels.now item.now.uuid) (labelled_line labels.now item.now.uuid (closed_line labels.now name.now item.now.uuid under))) }
{
    if !labels.is_labelled(&item.uuid) {
        return Ok(());
    }
    let Some(number) = closed_under(alloc, item, numbers, holding)? else {
        return Ok(());
    };
    let line = closed_line(alloc, labels, name, &item.uuid, number)?;
    by_label.insert(labels.label(&item.uuid), line)?;
    Ok(())
}

// The number of the set under which an item without a draft is closed: the one whose parameters its
// strings carry, where that isn't held.
fn closed_under(
    alloc: Global,
    item: &LocalItem,
    numbers: &Numbers,
    holding: &Holding,
) -> Result<Option<u64>, AllocError>
    ensures { (under : Option ℕ) → ShowsClosedItem numbers.now holding.now item.now under → IfOk result (λ found. found ≡ under) }
{
    if item.latest.is_some() {
        return Ok(None);
    }
    let Some(strings) = strings_of(&item.body) else {
        return Ok(None);
    };
    let Some(nonce) = carried_nonce(alloc, strings.enc.as_str())? else {
        return Ok(None);
    };
    let Some(number) = numbers.set(holding.account, nonce.as_str()) else {
        return Ok(None);
    };
    if holding.holds(number) {
        return Ok(None);
    }
    Ok(Some(number))
}
