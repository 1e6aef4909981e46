//! Whether an item that a server puts is what a device has sent.

ghost use Rattle.std.specs.Prelude.{◌≡◌, ◌↔◌, IsTrue};
ghost use Rattle.std.specs.Option.{option_copied};
ghost use Rattle.sn_account.specs.Stored.{body_of};
ghost use Rattle.sn_device.specs.Sending.{message_body};
ghost use Rattle.sn_row_map.specs.RowMaps.{row_in};
ghost use Rattle.sn_world.specs.Serving.{IsSentRow, stamp_in};
ghost use Rattle.sn_saying.specs.Sent.{HasSent, HasStrings, IsSentAt};

use sn_row_map::RowMap;
use sn_rows::{ItemRow, Key, LocalItem, RowBody, RowKind, RowStrings, Value};
use uuid::Uuid;

/// Whether a row of the device stands on what was found of the item, and has the item's new row as what was sent. Looks
/// at each item of the device.
pub(crate) fn is_sent(device: &RowMap, found: Option<&Value>, uuid: Uuid, row: &ItemRow) -> bool
    ensures { IsTrue result ↔ IsSentRow (option_copied found.entry) (row_in device.now) uuid row.now }
{
    let base = stamp_in(found);
    let mut local = device.first(RowKind::Local);
    'items: while let Some((key, value)) = local {
        if is_sent_at(key, value, base, uuid, row) {
            return true;
        }
        local = device.next_after(key);
    }
    false
}

// The stamp of an item's row, where there is one.
fn stamp_in(found: Option<&Value>) -> Option<u64>
    ensures { result ≡ stamp_in (option_copied found.entry) }
{
    match found {
        Some(Value::Item(row)) => Some(row.updated()),
        _ => None,
    }
}

// Whether a row of the device is one of an item of which that is so.
fn is_sent_at(key: &Key, value: &Value, base: Option<u64>, uuid: Uuid, row: &ItemRow) -> bool
    ensures { IsTrue result ↔ IsSentAt base uuid row.now key.now value.now }
{
    match (key, value) {
        (Key::Local(_), Value::Local(local)) => has_sent(local.get(), base, uuid, row),
        _ => false,
    }
}

// Whether it is so of an item of the device.
fn has_sent(local: &LocalItem, base: Option<u64>, uuid: Uuid, row: &ItemRow) -> bool
    ensures { IsTrue result ↔ HasSent base uuid row.now local.now }
{
    if local.uuid != uuid || !is_same(local.base, base) {
        return false;
    }
    if local.kind.as_str() != row.kind() {
        return false;
    }
    match &local.posted {
        Some(posted) => has_body(row, posted),
        None => false,
    }
}

/// Whether both are none, or the same.
pub(crate) fn is_same(a: Option<u64>, b: Option<u64>) -> bool
    ensures { IsTrue result ↔ (a ≡ b) }
{
    match (a, b) {
        (Some(a), Some(b)) => a == b,
        (None, None) => true,
        _ => false,
    }
}

// Whether the server's row has what was sent.
fn has_body(row: &ItemRow, posted: &RowBody) -> bool
    ensures { IsTrue result ↔ (body_of row.now ≡ message_body posted.now) }
{
    match posted {
        RowBody::Deleted => row.is_deleted(),
        RowBody::Sealed(strings) => has_strings(row, strings),
    }
}

// Whether it has these strings.
fn has_strings(row: &ItemRow, strings: &RowStrings) -> bool
    ensures { IsTrue result ↔ HasStrings row.now strings.now }
{
    if row.is_deleted() {
        return false;
    }
    row.content() == strings.content.as_str() && row.enc() == strings.enc.as_str()
}
