//! Reading and changing a state.

ghost use Rattle.std.specs.Prelude.{◌≡◌, All, IfOk, OnErr, OnOk, Option};
ghost use Rattle.std.specs.Option.{option_copied};
ghost use Rattle.sn_account.specs.States.{HasNoRooms, IsUnmarked, listed, listed_after, rows_before, state_rows};
ghost use Rattle.sn_rows.specs.Kinds.{key_kind, value_kind};
ghost use Rattle.sn_rows.specs.Table.{row_after, rows_after};
ghost use Rattle.sn_rows.specs.declared.key.Key.{Key};
ghost use Rattle.sn_rows.specs.declared.value.Value.{Value};

use crate::names::Names;
use crate::places::Places;
use crate::state::State;
use sn_row_map::RowMap;
use sn_rows::{Change, Key, Row, Value};
use sn_string::{OwnedList, TryClone};
use std::alloc::{AllocError, Global};
use std::mem;

impl State {
    /// The state of these rows, each of which has a value of its key's kind.
    pub fn of(alloc: Global, rows: OwnedList<(Key, Value)>) -> Result<State, AllocError>
        requires kinds { All (λ row. key_kind row.0 ≡ value_kind row.1) rows }
        ensures rows { IfOk result (λ state. (key : Key) → state_rows state key ≡ listed rows key) }
        ensures unmarked { IfOk result IsUnmarked }
        ensures rooms { IfOk result HasNoRooms }
    {
        let puts = puts_of(alloc, rows)?;
        let mut names = Names::new(alloc);
        names.add_all(&puts)?;
        let mut map = RowMap::new(alloc);
        map.add_all(puts)?;
        let places = Places::of_rows(alloc, &map)?;
        Ok(State {
            alloc,
            rows: map,
            marked: OwnedList::new(alloc),
            names,
            places,
        })
    }

    /// Marks changes. Where memory is wanting, all stays as it was, and the rooms made for them are given up.
    pub fn apply(&mut self, changes: &[Change]) -> Result<(), AllocError>
        requires unmarked { IsUnmarked self.old }
        ensures done { OnOk result ((key : Key) → state_rows self.new key ≡ rows_after (state_rows self.old) changes.now key) }
        ensures before { OnOk result ((key : Key) → rows_before self.new key ≡ state_rows self.old key) }
        ensures refused { OnErr result ((key : Key) → state_rows self.new key ≡ state_rows self.old key) }
        ensures unmarked { OnErr result (IsUnmarked self.new) }
        ensures rooms { HasNoRooms self.old → HasNoRooms self.new }
    {
        let marked = clones(self.alloc, changes)?;
        if self.names.add_all(changes).is_err()
            || self.places.add_all(&self.rows, changes).is_err()
            || self.rows.make_room_for(changes).is_err()
        {
            self.names.remove_all(&self.rows, changes);
            self.places.sweep(&self.rows);
            self.rows.sweep_for(changes);
            return Err(AllocError);
        }
        self.marked = marked;
        Ok(())
    }

    /// Takes the marked changes back, and gives up the rooms made for them. Takes no memory.
    pub fn undo(&mut self)
        ensures rows { (key : Key) → state_rows self.new key ≡ rows_before self.old key }
        ensures unmarked { IsUnmarked self.new }
        ensures rooms { HasNoRooms self.old → HasNoRooms self.new }
    {
        let changes = mem::replace(&mut self.marked, OwnedList::new(self.alloc));
        self.names.remove_all(&self.rows, changes.as_slice());
        self.places.sweep(&self.rows);
        self.rows.sweep_for(changes.as_slice());
    }

    /// Keeps the marked changes: none are marked from now on, and the rows stay. Takes no memory.
    pub fn keep(&mut self)
        ensures rows { (key : Key) → state_rows self.new key ≡ state_rows self.old key }
        ensures unmarked { IsUnmarked self.new }
        ensures rooms { HasNoRooms self.old → HasNoRooms self.new }
    {
        let changes = mem::replace(&mut self.marked, OwnedList::new(self.alloc));
        self.rows.set_all(changes.into_vec());
        self.places.sweep(&self.rows);
    }

    /// The row of a key. Takes no memory.
    pub fn get(&self, key: &Key) -> Option<&Value>
        requires { IsUnmarked self.now }
        ensures { option_copied result ≡ state_rows self.now key.now }
    {
        self.rows.get(key)
    }
}

// The changes that put these rows, in their order.
fn puts_of(alloc: Global, rows: OwnedList<(Key, Value)>) -> Result<Vec<Change>, AllocError>
    requires kinds { All (λ row. key_kind row.0 ≡ value_kind row.1) rows }
    ensures { IfOk result (λ changes. (found : Option Value) (key : Key) → row_after found key changes.items ≡ listed_after found key rows) }
{
    let mut changes = Vec::with_capacity(alloc, rows.len())?;
    'rows: for (key, value) in rows.into_vec() {
        changes.push(Change::Put(Row { key, value }))?;
    }
    Ok(changes)
}

// The same changes once more.
fn clones(alloc: Global, changes: &[Change]) -> Result<OwnedList<Change>, AllocError>
    ensures { IfOk result (λ copies. copies ≡ changes.now) }
{
    let mut copies = OwnedList::new(alloc);
    'changes: for change in changes {
        copies.push(change.try_clone(alloc)?)?;
    }
    Ok(copies)
}
