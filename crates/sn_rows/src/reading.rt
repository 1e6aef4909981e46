//! Reading a payload: a list of changes, from the left.

ghost use Rattle.std.specs.Prelude.{◌≡◌, ◌<◌, ◌≤◌, List, length, IfOk, IfErr, MatchResult};
ghost use Rattle.sn_rows.specs.declared.change.Change.{Change};
ghost use Rattle.sn_rows.specs.declared.error.RowError.TheVariants.{Memory};
ghost use Rattle.sn_rows.specs.Kinds.{key_kind, value_kind};
ghost use Rattle.sn_rows.specs.Columns.{key_columns, value_columns, key_cells, value_cells};
ghost use Rattle.sn_rows.specs.Spelling.{entry_of, entries_of, spelled, AreInForm};
ghost use Rattle.sn_rows.specs.Faults.{IsRefusal};
ghost use Rattle.sn_rows.specs.Reading.{Gives, spot, columns_at, window_at, framed_at, op_at, kind_at, entry_at, payload_at};

use crate::at::At;
use crate::change::{Change, Row};
use crate::error::RowError;
use crate::fields::{array_of, byte_of, bytes_of, slot_of, u32_of, u64_of};
use crate::key::Key;
use crate::kind::RowKind;
use crate::read_values::value_of;
use crate::value::Value;
use sn_string::OwnedList;
use std::alloc::Global;
use uuid::Uuid;

/// The columns of a key of this kind.
fn key_of<'a>(kind: RowKind, at: At<'a>) -> Result<(Key, At<'a>), RowError>
    ensures gives { Gives (λ x. (key_cells x.0, spot x.1.place x.1.rest.now)) result (columns_at (key_columns kind) (spot at.entry.place at.entry.rest.now)) }
    ensures kind { IfOk result (λ x. key_kind x.0 ≡ kind) }
{
    match kind {
        RowKind::Store => Ok((Key::Store, at)),
        RowKind::Account => {
            let (account, at) = u64_of(at)?;
            Ok((Key::Account(account), at))
        }
        RowKind::Generation => {
            let (account, at) = u64_of(at)?;
            let (generation, at) = u64_of(at)?;
            Ok((Key::Generation(account, generation), at))
        }
        RowKind::Item => {
            let (uuid, at) = array_of::<16>(at)?;
            Ok((Key::Item(Uuid::from_bytes(uuid)), at))
        }
        RowKind::Owner => Ok((Key::Owner, at)),
        RowKind::Set => {
            let (slot, at) = slot_of(at)?;
            Ok((Key::Set(slot), at))
        }
        RowKind::Local => {
            let (number, at) = u64_of(at)?;
            Ok((Key::Local(number), at))
        }
    }
}

// The bytes that a length counts, and what stands behind them.
#[tactic(auto, unfolding(crate::specs::Reading::window_at))]
fn window_of<'a>(at: At<'a>) -> Result<(At<'a>, At<'a>), RowError>
    ensures gives { Gives (λ x. (spot x.0.place x.0.rest.now, spot x.1.place x.1.rest.now)) result (window_at (spot at.entry.place at.entry.rest.now)) }
    ensures less { IfOk result (λ x. length x.1.rest.now ≤ length at.entry.rest.now) }
{
    let (count, at) = u32_of(at)?;
    let place = at.place;
    let (rest, after) = bytes_of(at, count as usize)?;
    Ok((At { place, rest }, after))
}

// A key and its length, and nothing else.
#[tactic(auto, unfolding(crate::specs::Reading::framed_at))]
fn framed_key_of<'a>(kind: RowKind, at: At<'a>) -> Result<(Key, At<'a>), RowError>
    ensures gives { Gives (λ x. (key_cells x.0, spot x.1.place x.1.rest.now)) result (framed_at (key_columns kind) (spot at.entry.place at.entry.rest.now)) }
    ensures less { IfOk result (λ x. length x.1.rest.now ≤ length at.entry.rest.now) }
    ensures kind { IfOk result (λ x. key_kind x.0 ≡ kind) }
{
    let (inner, after) = window_of(at)?;
    match key_of(kind, inner) {
        Ok((key, left)) => {
            if !left.rest.is_empty() {
                return Err(RowError::Extra { place: left.place });
            }
            Ok((key, after))
        }
        Err(error) => Err(error),
    }
}

// A value and its length, and nothing else.
#[tactic(auto, unfolding(crate::specs::Reading::framed_at))]
fn framed_value_of<'a>(
    alloc: Global,
    kind: RowKind,
    at: At<'a>,
) -> Result<(Value, At<'a>), RowError>
    ensures gives { Gives (λ x. (value_cells x.0, spot x.1.place x.1.rest.now)) result (framed_at (value_columns kind) (spot at.entry.place at.entry.rest.now)) }
    ensures less { IfOk result (λ x. length x.1.rest.now ≤ length at.entry.rest.now) }
    ensures kind { IfOk result (λ x. value_kind x.0 ≡ kind) }
{
    let (inner, after) = window_of(at)?;
    let (value, left) = value_of(alloc, kind, inner)?;
    if !left.rest.is_empty() {
        return Err(RowError::Extra { place: left.place });
    }
    Ok((value, after))
}

// Whether the change is a put.
#[tactic(auto, unfolding(crate::specs::Reading::op_at))]
fn op_of<'a>(at: At<'a>) -> Result<(bool, At<'a>), RowError>
    ensures gives { Gives (λ x. (x.0, spot x.1.place x.1.rest.now)) result (op_at (spot at.entry.place at.entry.rest.now)) }
    ensures less { IfOk result (λ x. length x.1.rest.now < length at.entry.rest.now) }
{
    let (byte, next) = byte_of(at)?;
    match byte {
        0 => Ok((false, next)),
        1 => Ok((true, next)),
        _ => Err(RowError::Kind { place: at.place }),
    }
}

#[tactic(auto, unfolding(crate::specs::Reading::kind_at))]
fn kind_of<'a>(at: At<'a>) -> Result<(RowKind, At<'a>), RowError>
    ensures gives { Gives (λ x. (x.0, spot x.1.place x.1.rest.now)) result (kind_at (spot at.entry.place at.entry.rest.now)) }
    ensures less { IfOk result (λ x. length x.1.rest.now < length at.entry.rest.now) }
{
    let (byte, next) = byte_of(at)?;
    match RowKind::of_number(byte) {
        Some(kind) => Ok((kind, next)),
        None => Err(RowError::Kind { place: at.place }),
    }
}

// One change.
#[tactic(auto, unfolding(crate::specs::Reading::entry_at))]
fn change_of<'a>(alloc: Global, at: At<'a>) -> Result<(Change, At<'a>), RowError>
    ensures gives { Gives (λ x. (entry_of x.0, spot x.1.place x.1.rest.now)) result (entry_at (spot at.entry.place at.entry.rest.now)) }
    ensures less { IfOk result (λ x. length x.1.rest.now < length at.entry.rest.now) }
{
    let (is_put, at) = op_of(at)?;
    let (kind, at) = kind_of(at)?;
    match framed_key_of(kind, at) {
        Ok((key, at)) => {
            if !is_put {
                return Ok((Change::Remove(key), at));
            }
            let (value, at) = framed_value_of(alloc, kind, at)?;
            Ok((Change::Put(Row { key, value }), at))
        }
        Err(error) => Err(error),
    }
}

// All changes, one after the other.
fn all_of(alloc: Global, bytes: &[u8]) -> Result<OwnedList<Change>, RowError>
    ensures { Gives (λ found. entries_of found) result (payload_at bytes.now) }
{
    let mut changes = OwnedList::new(alloc);
    let mut place = 0;
    let mut rest = bytes;
    while !rest.is_empty() {
        let (change, next) = change_of(alloc, At { place, rest })?;
        changes.push(change)?;
        place = next.place;
        rest = next.rest;
    }
    Ok(changes)
}

/// The changes that the bytes spell, all of the bytes. Texts are copied; the time is one pass, and the
/// memory that of the rows.
pub fn read(alloc: Global, bytes: &[u8]) -> Result<OwnedList<Change>, RowError>
    // What is read is spelled so.
    ensures found { IfOk result (λ found. (bytes.now ≡ spelled found) × AreInForm found) }
    // What is spelled so is read, unless memory is wanting.
    ensures only { (changes : List Change) → AreInForm changes → bytes.now ≡ spelled changes
        → MatchResult result (λ found. found ≡ changes) (λ error. error ≡ Memory) }
    // Any other refusal is the first fault from the left.
    ensures refused { IfErr result (λ error. IsRefusal bytes.now error) }
{
    all_of(alloc, bytes)
}
