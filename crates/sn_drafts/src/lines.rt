//! The lines of a list of items.

ghost use Rattle.std.specs.Prelude.{◌≡◌, ◌++◌, ◌∷◌, [], None, Some, length, IfNone, IfOk, IfSome, OnOk};
ghost use Rattle.sn_device.specs.Listing.{AreListed, IsListed, IsMarked};
ghost use Rattle.sn_device.specs.States.{AreSoundLocals, Bytes, IsSoundItem, columns};
ghost use Rattle.sn_device.specs.declared.listed.Listed.{Listed};
ghost use Rattle.sn_row_map.specs.RowMaps.{row_in};
ghost use Rattle.sn_rows.specs.declared.device_rows.LocalItem.{LocalItem};
ghost use Rattle.sn_rows.specs.declared.value.Value.TheVariants.{Local};
ghost use Rattle.sn_sets.specs.Sets.{OpensHeld, OpensNowhere, sealed_of};
ghost use Rattle.sn_table.specs.Logs.{HasKinds};

use sn_device::{Listed, Mark};
use sn_row_map::RowMap;
use sn_rows::{LocalItem, RowBody, RowKind, RowStrings, Value};
use sn_sets::{Sets, sealed_strings};
use sn_string::{OwnedList, TryClone};
use std::alloc::{AllocError, Global};
use uuid::Uuid;

/// A line of each item, by rising local number.
pub fn lines_of(alloc: Global, sets: &Sets, rows: &RowMap) -> Result<OwnedList<Listed>, AllocError>
    requires kinds { HasKinds rows.now }
    requires sound { AreSoundLocals (row_in rows.now) }
    ensures { IfOk result (AreListed (row_in rows.now) sets.now) }
{
    let mut lines = OwnedList::new(alloc);
    let mut found = rows.first(RowKind::Local);
    'items: while let Some((key, value)) = found {
        push_line(alloc, sets, &mut lines, value)?;
        found = rows.next_after(key);
    }
    Ok(lines)
}

// Adds the line of an item's row.
fn push_line(
    alloc: Global,
    sets: &Sets,
    lines: &mut OwnedList<Listed>,
    value: &Value,
) -> Result<(), AllocError>
    requires { (local : LocalItem) × (value.now ≡ Local local) × IsSoundItem (columns local) }
    ensures { OnOk result ((local : LocalItem) × (line : Listed) × (value.now ≡ Local local) × IsListed sets.now local line × (lines.new ≡ lines.old ++ line ∷ [])) }
{
    let Value::Local(item) = value else {
        unreachable!()
    };
    let line = line_of(alloc, sets, item.get())?;
    lines.push(line)
}

// The line of an item.
fn line_of(alloc: Global, sets: &Sets, item: &LocalItem) -> Result<Listed, AllocError>
    requires sound { IsSoundItem (columns item.now) }
    ensures { IfOk result (IsListed sets.now item.now) }
{
    let kind = item.kind.try_clone(alloc)?;
    let (mark, length) = marked(alloc, sets, item)?;
    Ok(Listed {
        uuid: item.uuid,
        mark,
        length,
        kind,
    })
}

// How an item stands, and the length of its content.
fn marked(alloc: Global, sets: &Sets, item: &LocalItem) -> Result<(Mark, u64), AllocError>
    requires sound { IsSoundItem (columns item.now) }
    ensures { IfOk result (λ found. IsMarked sets.now item.now item.now.latest item.now.body found.0 found.1) }
{
    match &item.latest {
        Some(draft) => marked_by_draft(alloc, sets, item, draft),
        None => marked_by_body(alloc, sets, item),
    }
}

// The same of an item with this draft.
fn marked_by_draft(
    alloc: Global,
    sets: &Sets,
    item: &LocalItem,
    draft: &RowBody,
) -> Result<(Mark, u64), AllocError>
    ensures { IfOk result (λ found. IsMarked sets.now item.now (Some draft.now) item.now.body found.0 found.1) }
{
    match draft {
        RowBody::Deleted => Ok((Mark::Deleted, 0)),
        RowBody::Sealed(strings) => {
            let length = length_of(alloc, sets, item.uuid, strings)?;
            Ok((Mark::Draft, length.unwrap_or(0)))
        }
    }
}

// The same of an item without a draft.
fn marked_by_body(alloc: Global, sets: &Sets, item: &LocalItem) -> Result<(Mark, u64), AllocError>
    requires sound { IsSoundItem (columns item.now) }
    requires undrafted { item.now.latest ≡ None }
    ensures { IfOk result (λ found. IsMarked sets.now item.now None item.now.body found.0 found.1) }
{
    let Some(RowBody::Sealed(strings)) = &item.body else {
        unreachable!()
    };
    match length_of(alloc, sets, item.uuid, strings)? {
        Some(length) => Ok((Mark::Clean, length)),
        None => Ok((Mark::Closed, 0)),
    }
}

// The length of the content to which strings open, if they do.
fn length_of(
    alloc: Global,
    sets: &Sets,
    uuid: Uuid,
    strings: &RowStrings,
) -> Result<Option<u64>, AllocError>
    ensures some { IfOk result (λ found. IfSome found (λ size. (text : Bytes) × OpensHeld sets.now uuid (sealed_of strings.now) text × (size ≡ length text))) }
    ensures none { IfOk result (λ found. IfNone found (OpensNowhere sets.now uuid (sealed_of strings.now))) }
{
    let sealed = sealed_strings(alloc, strings)?;
    match sets.open(alloc, uuid, &sealed)? {
        Some(text) => Ok(Some(text.len() as u64)),
        None => Ok(None),
    }
}
