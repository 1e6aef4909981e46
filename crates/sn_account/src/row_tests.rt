//! What is asked of each row of a kind.

ghost use Rattle.std.specs.Prelude.{◌≡◌, ◌↔◌, ◌≤◌, false, true, [], IfOk, IsTrue};
ghost use Rattle.sn_account.specs.Sound.{NamesItem};
ghost use Rattle.sn_account.specs.States.{IsUnmarked, state_rows};
ghost use Rattle.sn_account.specs.Unsound.{HasSoundItem};
ghost use Rattle.sn_sync.specs.Laws.{AreBytes};
ghost use Rattle.sn_account.specs.Walks.{HasReached, HasSoundStamps, HasSoundStrings, IsNumbered, IsOwned, IsReached, IsSoundRow};

use crate::all_rows::RowTest;
use crate::state::State;
use sn_rows::{ItemRow, Key, Value};
use sn_string::names_uuid;
use std::alloc::{AllocError, Global};
use uuid::Uuid;

/// That an account has one of the numbers from 1 to this one.
#[derive(Drop)]
pub(crate) struct AccountTest {
    pub(crate) count: u64,
}

impl RowTest for AccountTest {
    ghost use Rattle.sn_account.specs.Walks.{IsNumbered};

    ghost ready = { λ _. Unit {0} };

    ghost holds = { λ test key _. IsNumbered test.count key };

    fn passes(&self, key: &Key, _value: &Value) -> Result<bool, AllocError> {
        Ok(is_numbered(key, self.count))
    }
}

fn is_numbered(key: &Key, count: u64) -> bool
    ensures { IsTrue result ↔ IsNumbered count key.now }
{
    match key {
        Key::Account(number) => 1 <= *number && *number <= count,
        _ => true,
    }
}

/// That a generation is of an account, and not past its present one.
#[derive(Drop)]
pub(crate) struct GenerationTest<'a> {
    pub(crate) state: &'a State,
}

impl RowTest for GenerationTest<'_> {
    ghost use Rattle.sn_account.specs.States.{IsUnmarked, state_rows};
    ghost use Rattle.sn_account.specs.Walks.{IsReached};

    ghost ready = { λ test. IsUnmarked test.state.now };

    ghost holds = { λ test key _. IsReached (state_rows test.state.now) key };

    fn passes(&self, key: &Key, _value: &Value) -> Result<bool, AllocError> {
        Ok(is_of_account(self.state, key))
    }
}

fn is_of_account(state: &State, key: &Key) -> bool
    requires { IsUnmarked state.now }
    ensures { IsTrue result ↔ IsReached (state_rows state.now) key.now }
{
    match key {
        Key::Generation(number, generation) => is_generation_of(state, *number, *generation),
        _ => true,
    }
}

fn is_generation_of(state: &State, number: u64, generation: u64) -> bool
    requires { IsUnmarked state.now }
    ensures { IsTrue result ↔ HasReached (state_rows state.now) number generation }
{
    match state.account(number) {
        Some(account) => is_between(generation, 1, account.generation),
        None => false,
    }
}

/// Whether a number is at least one and at most another.
pub(crate) fn is_between(number: u64, least: u64, most: u64) -> bool
    ensures { IsTrue result ↔ ((least ≤ number) × (number ≤ most)) }
{
    least <= number && number <= most
}

/// That an item is of an account, and sound.
#[derive(Drop)]
pub(crate) struct ItemTest<'a> {
    pub(crate) alloc: Global,
    pub(crate) state: &'a State,
    pub(crate) last: u64,
}

impl RowTest for ItemTest<'_> {
    ghost use Rattle.sn_account.specs.States.{IsUnmarked, state_rows};
    ghost use Rattle.sn_account.specs.Walks.{IsSoundRow};

    ghost ready = { λ test. IsUnmarked test.state.now };

    ghost holds = { λ test key value. IsSoundRow (state_rows test.state.now) test.last key value };

    fn passes(&self, key: &Key, value: &Value) -> Result<bool, AllocError> {
        is_sound_row(self.alloc, self.state, self.last, key, value)
    }
}

fn is_sound_row(
    alloc: Global,
    state: &State,
    last: u64,
    key: &Key,
    value: &Value,
) -> Result<bool, AllocError>
    requires { IsUnmarked state.now }
    ensures { IfOk result (λ sound. IsTrue sound ↔ IsSoundRow (state_rows state.now) last key.now value.now) }
{
    let Key::Item(uuid) = key else {
        return Ok(true);
    };
    let Value::Item(row) = value else {
        return Ok(true);
    };
    is_sound_item(alloc, state, last, uuid, row)
}

fn is_sound_item(
    alloc: Global,
    state: &State,
    last: u64,
    uuid: &Uuid,
    row: &ItemRow,
) -> Result<bool, AllocError>
    requires { IsUnmarked state.now }
    ensures { IfOk result (λ sound. IsTrue sound ↔ HasSoundItem (state_rows state.now) last uuid.now row.now) }
{
    let _uuid = sized(uuid);
    if !is_owned(state, row) || !has_sound_stamps(row, last) {
        return Ok(false);
    }
    has_sound_strings(alloc, uuid, row)
}

fn is_owned(state: &State, row: &ItemRow) -> bool
    requires { IsUnmarked state.now }
    ensures { IsTrue result ↔ IsOwned (state_rows state.now) row.now }
{
    state.account(row.account()).is_some()
}

// A uuid has 16 bytes, by its type.
fn sized(uuid: &Uuid) -> Uuid
    ensures { AreBytes 16 uuid.now }
{
    of_bytes(uuid.as_bytes())
}

fn of_bytes(bytes: &[u8; 16]) -> Uuid
    ensures { AreBytes 16 bytes.now }
{
    Uuid::from_bytes(*bytes)
}

fn has_sound_stamps(row: &ItemRow, last: u64) -> bool
    ensures { IsTrue result ↔ HasSoundStamps last row.now }
{
    let created = row.created();
    let updated = row.updated();
    1 <= created && created <= updated && updated <= last
}

// A deleted item has no strings, another's have the 003 form and its uuid.
fn has_sound_strings(alloc: Global, uuid: &Uuid, row: &ItemRow) -> Result<bool, AllocError>
    requires { AreBytes 16 uuid.now }
    ensures { IfOk result (λ sound. IsTrue sound ↔ HasSoundStrings uuid.now row.now) }
{
    if row.is_deleted() {
        return Ok(row.content().is_empty() && row.enc().is_empty());
    }
    if !names_item(alloc, row.content(), uuid)? {
        return Ok(false);
    }
    names_item(alloc, row.enc(), uuid)
}

fn names_item(alloc: Global, text: &str, uuid: &Uuid) -> Result<bool, AllocError>
    requires { AreBytes 16 uuid.now }
    ensures { IfOk result (λ named. IsTrue named ↔ NamesItem text.now uuid.now) }
{
    names_uuid(alloc, text, *uuid)
}
