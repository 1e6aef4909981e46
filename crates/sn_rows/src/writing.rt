//! Writing a payload: the one spelling of a list of changes.

ghost use Rattle.std.specs.Prelude.{◌≡◌, ◌<◌, ◌≤◌, ◌^◌, ◌++◌, ◌∷◌, [], length, OnOk, IfOk};
ghost use Rattle.sn_rows.specs.Kinds.{key_kind, value_kind};
ghost use Rattle.std.specs.Int.{w32, w64, to_be_bytes};
ghost use Rattle.sn_rows.specs.Cells.{counted, cells_bytes, base_bytes, body_bytes, flag_byte, slot_byte};
ghost use Rattle.sn_rows.specs.Columns.{key_columns, value_columns, key_cells, value_cells, body_of};
ghost use Rattle.sn_rows.specs.Spelling.{Framed, EntryInForm, entry_of, entry_bytes, spelled, AreInForm};
ghost use Rattle.sn_rows.specs.declared.kind.RowKind.TheVariants as kind;
ghost use Rattle.sn_rows.specs.declared.value.Value.TheVariants as value;

use crate::body::{RowBody, RowStrings};
use crate::change::Change;
use crate::device_rows::{LocalItem, OwnerRow, SetRow};
use crate::key::{Key, Slot};
use crate::server_rows::{AccountRow, GenerationRow, ItemRow, StoreRow};
use crate::value::Value;
use std::alloc::{AllocError, Global};

// The room that is made at the start for a change, and for the columns: most need less.
const ROOM: usize = 1024;

// Room is made for at most so many changes, since a long list may be of short ones.
const MOST_ROOMS: usize = 64;

// A text, behind its length.
fn put_counted(out: &mut Vec<u8>, bytes: &[u8]) -> Result<(), AllocError>
    requires { length bytes.now < 2 ^ 32 }
    ensures { OnOk result (out.new.items ≡ out.old.items ++ counted bytes.now) }
{
    out.extend_from_slice(&(bytes.len() as u32).to_be_bytes())?;
    out.extend_from_slice(bytes)?;
    Ok(())
}

// A number of eight bytes.
fn put_u64(out: &mut Vec<u8>, number: u64) -> Result<(), AllocError>
    ensures { OnOk result (out.new.items ≡ out.old.items ++ to_be_bytes w64 number) }
{
    out.extend_from_slice(&number.to_be_bytes())
}

// A number of four bytes.
fn put_u32(out: &mut Vec<u8>, number: u32) -> Result<(), AllocError>
    ensures { OnOk result (out.new.items ≡ out.old.items ++ to_be_bytes w32 number) }
{
    out.extend_from_slice(&number.to_be_bytes())
}

// A byte.
fn put_byte(out: &mut Vec<u8>, byte: u8) -> Result<(), AllocError>
    ensures { OnOk result (out.new.items ≡ out.old.items ++ byte ∷ []) }
{
    out.push(byte)?;
    Ok(())
}

// The columns of a key.
fn put_key(out: &mut Vec<u8>, key: &Key) -> Result<(), AllocError>
    ensures ok { OnOk result (out.new.items ≡ out.old.items ++ cells_bytes (key_cells key.now)) }
    ensures form { OnOk result (Framed (key_columns (key_kind key.now)) (key_cells key.now)) }
{
    match key {
        Key::Store => Ok(()),
        Key::Account(account) => put_u64(out, *account),
        Key::Generation(account, generation) => {
            put_u64(out, *account)?;
            put_u64(out, *generation)
        }
        Key::Item(uuid) => out.extend_from_slice(uuid.as_bytes()),
        Key::Owner => Ok(()),
        Key::Set(slot) => put_byte(out, slot_byte(*slot)),
        Key::Local(number) => put_u64(out, *number),
    }
}

fn slot_byte(slot: Slot) -> u8
    ensures { result ≡ slot_byte slot }
{
    match slot {
        Slot::Present => 0,
        Slot::Older => 1,
        Slot::Asked => 2,
    }
}

fn flag_byte(flag: bool) -> u8
    ensures { result ≡ flag_byte flag }
{
    if flag { 1 } else { 0 }
}

fn put_store(out: &mut Vec<u8>, row: &StoreRow) -> Result<(), AllocError>
    ensures ok { OnOk result (out.new.items ≡ out.old.items ++ cells_bytes (value_cells (value.Store row.now))) }
    ensures form { OnOk result (Framed (value_columns kind.Store) (value_cells (value.Store row.now))) }
{
    out.extend_from_slice(&row.secret)?;
    put_u64(out, row.last)?;
    put_u64(out, row.accounts)?;
    Ok(())
}

fn put_account(out: &mut Vec<u8>, row: &AccountRow) -> Result<(), AllocError>
    ensures ok { OnOk result (out.new.items ≡ out.old.items ++ cells_bytes (value_cells (value.Account row.now))) }
    ensures form { OnOk result (Framed (value_columns kind.Account) (value_cells (value.Account row.now))) }
{
    put_counted(out, row.identifier.as_str().as_bytes())?;
    put_u64(out, row.generation)?;
    out.extend_from_slice(&row.check)?;
    Ok(())
}

fn put_generation(out: &mut Vec<u8>, row: &GenerationRow) -> Result<(), AllocError>
    ensures ok { OnOk result (out.new.items ≡ out.old.items ++ cells_bytes (value_cells (value.Generation row.now))) }
    ensures form { OnOk result (Framed (value_columns kind.Generation) (value_cells (value.Generation row.now))) }
{
    put_u32(out, row.pw_cost)?;
    put_counted(out, row.pw_nonce.as_str().as_bytes())?;
    Ok(())
}

fn put_item(out: &mut Vec<u8>, row: &ItemRow) -> Result<(), AllocError>
    ensures ok { OnOk result (out.new.items ≡ out.old.items ++ cells_bytes (value_cells (value.Item row.now))) }
    ensures form { OnOk result (Framed (value_columns kind.Item) (value_cells (value.Item row.now))) }
{
    put_u64(out, row.account())?;
    put_counted(out, row.kind().as_bytes())?;
    put_u64(out, row.created())?;
    put_u64(out, row.updated())?;
    put_byte(out, flag_byte(row.is_deleted()))?;
    put_counted(out, row.content().as_bytes())?;
    put_counted(out, row.enc().as_bytes())?;
    Ok(())
}

fn put_owner(out: &mut Vec<u8>, row: &OwnerRow) -> Result<(), AllocError>
    ensures ok { OnOk result (out.new.items ≡ out.old.items ++ cells_bytes (value_cells (value.Owner row.now))) }
    ensures form { OnOk result (Framed (value_columns kind.Owner) (value_cells (value.Owner row.now))) }
{
    put_counted(out, row.identifier.as_str().as_bytes())?;
    out.extend_from_slice(row.account.as_bytes())?;
    put_counted(out, row.token.as_str().as_bytes())?;
    put_counted(out, row.sync_token.as_str().as_bytes())?;
    put_counted(out, row.cursor_token.as_str().as_bytes())?;
    put_u64(out, row.next)?;
    Ok(())
}

fn put_set(out: &mut Vec<u8>, row: &SetRow) -> Result<(), AllocError>
    ensures ok { OnOk result (out.new.items ≡ out.old.items ++ cells_bytes (value_cells (value.Set row.now))) }
    ensures form { OnOk result (Framed (value_columns kind.Set) (value_cells (value.Set row.now))) }
{
    put_u32(out, row.pw_cost)?;
    put_counted(out, row.pw_nonce.as_str().as_bytes())?;
    out.extend_from_slice(&row.pw)?;
    out.extend_from_slice(&row.mk)?;
    out.extend_from_slice(&row.ak)?;
    Ok(())
}

fn put_base(out: &mut Vec<u8>, base: Option<u64>) -> Result<(), AllocError>
    ensures { OnOk result (out.new.items ≡ out.old.items ++ base_bytes base) }
{
    match base {
        None => {
            put_byte(out, 0)?;
            put_u64(out, 0)
        }
        Some(stamp) => {
            put_byte(out, 1)?;
            put_u64(out, stamp)
        }
    }
}

fn put_body(out: &mut Vec<u8>, body: &Option<RowBody>) -> Result<(), AllocError>
    ensures { OnOk result (out.new.items ≡ out.old.items ++ body_bytes (body_of body.now)) }
{
    match body {
        None => put_byte(out, 0),
        Some(RowBody::Deleted) => put_byte(out, 1),
        Some(RowBody::Sealed(strings)) => {
            put_byte(out, 2)?;
            put_strings(out, strings)
        }
    }
}

fn put_strings(out: &mut Vec<u8>, strings: &RowStrings) -> Result<(), AllocError>
    ensures { OnOk result (out.new.items ≡ out.old.items ++ (counted strings.now.content ++ counted strings.now.enc)) }
{
    put_counted(out, strings.content.as_str().as_bytes())?;
    put_counted(out, strings.enc.as_str().as_bytes())
}

fn put_local(out: &mut Vec<u8>, row: &LocalItem) -> Result<(), AllocError>
    ensures ok { OnOk result (out.new.items ≡ out.old.items ++ cells_bytes (value_cells (value.Local row.now))) }
    ensures form { OnOk result (Framed (value_columns kind.Local) (value_cells (value.Local row.now))) }
{
    out.extend_from_slice(row.uuid.as_bytes())?;
    put_counted(out, row.kind.as_str().as_bytes())?;
    put_base(out, row.base)?;
    put_byte(out, flag_byte(row.stale))?;
    put_body(out, &row.body)?;
    put_body(out, &row.latest)?;
    put_body(out, &row.posted)?;
    Ok(())
}

// The columns of a value.
fn put_value(out: &mut Vec<u8>, value: &Value) -> Result<(), AllocError>
    ensures ok { OnOk result (out.new.items ≡ out.old.items ++ cells_bytes (value_cells value.now)) }
    ensures form { OnOk result (Framed (value_columns (value_kind value.now)) (value_cells value.now)) }
{
    match value {
        Value::Store(row) => put_store(out, row),
        Value::Account(row) => put_account(out, row.get()),
        Value::Generation(row) => put_generation(out, row),
        Value::Item(row) => put_item(out, row),
        Value::Owner(row) => put_owner(out, row.get()),
        Value::Set(row) => put_set(out, row.get()),
        Value::Local(row) => put_local(out, row.get()),
    }
}

// A key behind its length. The second buffer is for the columns.
fn put_framed_key(out: &mut Vec<u8>, columns: &mut Vec<u8>, key: &Key) -> Result<(), AllocError>
    ensures ok { OnOk result (out.new.items ≡ out.old.items ++ counted (cells_bytes (key_cells key.now))) }
    ensures form { OnOk result (Framed (key_columns (key_kind key.now)) (key_cells key.now)) }
{
    columns.clear();
    put_key(columns, key)?;
    put_counted(out, columns.as_slice())?;
    Ok(())
}

// A value behind its length.
fn put_framed_value(
    out: &mut Vec<u8>,
    columns: &mut Vec<u8>,
    value: &Value,
) -> Result<(), AllocError>
    ensures ok { OnOk result (out.new.items ≡ out.old.items ++ counted (cells_bytes (value_cells value.now))) }
    ensures form { OnOk result (Framed (value_columns (value_kind value.now)) (value_cells value.now)) }
{
    columns.clear();
    put_value(columns, value)?;
    put_counted(out, columns.as_slice())?;
    Ok(())
}

// One change.
fn put_change(out: &mut Vec<u8>, columns: &mut Vec<u8>, change: &Change) -> Result<(), AllocError>
    ensures ok { OnOk result (out.new.items ≡ out.old.items ++ entry_bytes (entry_of change.now)) }
    ensures form { OnOk result (EntryInForm (entry_of change.now)) }
{
    match change {
        Change::Put(row) => {
            put_byte(out, 1)?;
            put_byte(out, row.key.kind().number())?;
            put_framed_key(out, columns, &row.key)?;
            put_framed_value(out, columns, &row.value)?;
            Ok(())
        }
        Change::Remove(key) => {
            put_byte(out, 0)?;
            put_byte(out, key.kind().number())?;
            put_framed_key(out, columns, key)?;
            Ok(())
        }
    }
}

/// The bytes of the changes, one after the other: their one spelling.
pub fn write(alloc: Global, changes: &[Change]) -> Result<Vec<u8>, AllocError>
    ensures spelled { IfOk result (λ bytes. bytes.items ≡ spelled changes.now) }
    // So what is written is read back.
    ensures form { IfOk result (λ _. AreInForm changes.now) }
{
    let mut out = Vec::with_capacity(alloc, changes.len().min(MOST_ROOMS) * ROOM)?;
    let mut columns = Vec::with_capacity(alloc, ROOM)?;
    for change in changes {
        put_change(&mut out, &mut columns, change)?;
    }
    Ok(out)
}
