//! The lines that show a device's drafts.

ghost use Rattle.std.specs.Prelude.{◌≡◌, ◌++◌, List, ℕ, IfOk, OnOk, Option, Some, None};
ghost use Rattle.std.specs.BTreeMap.{values};
ghost use Rattle.std.specs.List.{flat_map};
ghost use Rattle.sn_laws.specs.Lookups.{draft_at};
ghost use Rattle.sn_laws.specs.declared.ideal.Content.{Content};
ghost use Rattle.sn_laws.specs.declared.ideal.Draft.{Draft};
ghost use Rattle.sn_laws.specs.declared.ideal.Ideal.{Ideal};
ghost use Rattle.sn_report.specs.Labels.{items_of, label_from};
ghost use Rattle.sn_report.specs.Showing.{draft_lines};
ghost use Rattle.sn_row_map.specs.RowMaps.{row_in};
ghost use Rattle.sn_rows.specs.declared.device_rows.LocalItem.{LocalItem};
ghost use Rattle.sn_rows.specs.declared.value.Value.TheVariants as value;
ghost use Rattle.sn_shows.specs.Devices.{ShowsContent, ShowsDrafted};
ghost use Rattle.sn_shows.specs.Sets.{set_at};
ghost use Rattle.sn_string.specs.declared.params.KeySet.{KeySet};
ghost use Rattle.sn_shown.specs.ByLabel.{AddsLine, labelled_line};
ghost use Rattle.sn_shown.specs.Drafts.{ShowsDrafts, line_of};
ghost use Rattle.sn_shown.specs.Rows.{local_in};

use crate::by_label::add_values;
use crate::opening::opened;
use sn_laws::Content;
use sn_report::{Labels, draft_line};
use sn_row_map::RowMap;
use sn_rows::{LocalItem, RowBody, RowKind, Value};
use sn_string::{KeySet, OwnedList, Text};
use std::alloc::{AllocError, Global};
use std::collections::BTreeMap;
use uuid::Uuid;

/// Adds a line for each draft of a device that has a label, in order of label, opened under the set.
pub(crate) fn add_drafts(
    alloc: Global,
    lines: &mut OwnedList<Text>,
    labels: &Labels,
    rows: &RowMap,
    set: &KeySet,
    name: &str,
) -> Result<(), AllocError>
    ensures { (s : Ideal) → ShowsDrafts (row_in rows.now) set.now s name.now
        → OnOk result (lines.new ≡ lines.old ++ flat_map (λ uuid. draft_lines labels.now (draft_at s name.now uuid)) (items_of labels.now)) }
{
    let drafts = drafts_by_label(alloc, labels, rows, set, name)?;
    add_values(lines, drafts)
}

// The lines of the drafts, by label.
fn drafts_by_label(
    alloc: Global,
    labels: &Labels,
    rows: &RowMap,
    set: &KeySet,
    name: &str,
) -> Result<BTreeMap<u64, Text>, AllocError>
    ensures { (s : Ideal) → ShowsDrafts (row_in rows.now) set.now s name.now
        → IfOk result (λ drafts. values drafts ≡ flat_map (λ uuid. draft_lines labels.now (draft_at s name.now uuid)) (items_of labels.now)) }
{
    let mut drafts = BTreeMap::new(alloc);
    let mut found = rows.first(RowKind::Local);
    'items: while let Some((key, row)) = found {
        add_row(alloc, &mut drafts, labels, row, set, name)?;
        found = rows.next_after(key);
    }
    Ok(drafts)
}

// Adds the line of the draft of an item's row.
fn add_row(
    alloc: Global,
    drafts: &mut BTreeMap<u64, Text>,
    labels: &Labels,
    row: &Value,
    set: &KeySet,
    name: &str,
) -> Result<(), AllocError>
    ensures item { (item : LocalItem) (sets : List KeySet) (number : ℕ) (draft : Option Draft) → row.now ≡ value.Local item
        → set_at number sets ≡ Some set.now → ShowsDrafted sets number item draft
        → OnOk result (AddsLine drafts.old drafts.new (label_from 1 labels.now item.uuid) (labelled_line labels.now item.uuid (line_of labels.now name.now item.uuid draft))) }
    ensures other { local_in (Some row.now) ≡ None → drafts.new ≡ drafts.old }
{
    match row {
        Value::Local(item) => add_draft(alloc, drafts, labels, item.get(), set, name),
        _ => Ok(()),
    }
}

// Adds the line of an item's draft, where it has one and a label.
fn add_draft(
    alloc: Global,
    drafts: &mut BTreeMap<u64, Text>,
    labels: &Labels,
    item: &LocalItem,
    set: &KeySet,
    name: &str,
) -> Result<(), AllocError>
    ensures { (sets : List KeySet) (number : ℕ) (draft : Option Draft) → set_at number sets ≡ Some set.now → ShowsDrafted sets number item.now draft
        → OnOk result (AddsLine drafts.old drafts.new (label_from 1 labels.now item.now.uuid) (labelled_line labels.now item.now.uuid (line_of labels.now name.now item.now.uuid draft))) }
{
    let Some(latest) = &item.latest else {
        return Ok(());
    };
    if !labels.is_labelled(&item.uuid) {
        return Ok(());
    }
    let Some(content) = content_of(alloc, latest, &item.uuid, set)? else {
        return Ok(());
    };
    let line = draft_line(alloc, labels, name, &item.uuid, &content)?;
    drafts.insert(labels.label(&item.uuid), line)?;
    Ok(())
}

// What a draft's row holds under the set.
fn content_of(
    alloc: Global,
    latest: &RowBody,
    uuid: &Uuid,
    set: &KeySet,
) -> Result<Option<Content>, AllocError>
    ensures { (sets : List KeySet) (number : ℕ) (content : Content) → set_at number sets ≡ Some set.now
        → ShowsContent sets number uuid.now latest.now content → IfOk result (λ found. found ≡ Some content) }
{
    match latest {
        RowBody::Deleted => Ok(Some(Content::Deleted)),
        RowBody::Sealed(strings) => match opened(
            alloc,
            strings.content.as_str(),
            strings.enc.as_str(),
            uuid,
            set,
        )? {
            Some(text) => Ok(Some(Content::Plain(text))),
            None => Ok(None),
        },
    }
}
