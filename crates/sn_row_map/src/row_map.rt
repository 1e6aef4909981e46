//! Rows in memory, by key.

ghost use Rattle.std.specs.Prelude.{◌≡◌, ◌↔◌, ◌++◌, ◌==◌, false, None, List, All, OnOk, OnErr, IfOk, IsOk, IsTrue, length, map, if◌then◌else◌};
ghost use Rattle.std.specs.BTreeMap.{IsOrdered};
ghost use Rattle.std.specs.BTreeMap.Range.{IsInRange, IsLeBy, IsLtBy, entries_between};
ghost use Rattle.std.specs.List.{flat_map};
ghost use Rattle.std.specs.Option.{option_copied, option_map, option_to_list};
ghost use Rattle.std.specs.Range.Bound.{IsForward};
ghost use Rattle.sn_rows.specs.Table.{Spares, same_key, key_of, changed, row_after};
ghost use Rattle.sn_rows.specs.declared.change.Change.{Change};
ghost use Rattle.sn_rows.specs.declared.key.Key.{Key};
ghost use Rattle.sn_rows.specs.Kinds.{key_kind, kind_number};
ghost use Rattle.sn_row_map.specs.Keys.{key_cmp};
ghost use Rattle.sn_row_map.specs.Ranges.{row_of_kind, rows_of, rows_behind, AreRowsOf};
ghost use Rattle.sn_row_map.specs.Steps.{BeginsWith, GoesOn, IsFirst, IsNext, lent};
ghost use Rattle.sn_row_map.specs.RowMaps.{FitsIn, HasRoom, IsSwept, IsTidy, IsTidyBut, KeepsRoom, SameRows, StaysSwept, row_in};

use sn_rows::{Change, Key, RowKind, Slot, Value};
use sn_string::{OwnedList, TryClone};
use std::alloc::{AllocError, Global};
use std::collections::BTreeMap;
use std::mem;
use std::ops::Bound;
use std::ops::Bound::{Excluded, Included, Unbounded};
use uuid::Uuid;

/// Rows by key. A key may have room and no row, so that a row can be set without taking memory.
#[derive(Drop)]
pub struct RowMap {
    entries: BTreeMap<Key, Option<Value>>,
}

impl RowMap {
    /// The map without rows. Takes no memory.
    #[tactic(auto, unfolding(crate::specs::RowMaps::row_in))]
    pub fn new(alloc: Global) -> RowMap
        ensures empty { (key : Key) → row_in result key ≡ None }
        ensures tidy { IsTidy result }
    {
        RowMap {
            entries: BTreeMap::new(alloc),
        }
    }

    /// The row of a key.
    #[tactic(auto, unfolding(crate::specs::RowMaps::row_in))]
    pub fn get(&self, key: &Key) -> Option<&Value>
        ensures { option_copied result ≡ row_in self.now key.now }
    {
        match self.entries.get(key) {
            Some(Some(value)) => Some(value),
            _ => None,
        }
    }

    /// The rows of a kind, in the order of their keys. The values are copied; beside that the time is logarithmic.
    pub fn range(&self, alloc: Global, kind: RowKind) -> Result<OwnedList<(Key, Value)>, AllocError>
        ensures { IfOk result (AreRowsOf self.now kind) }
    {
        let mut rows = OwnedList::new(alloc);
        'entries: for (key, found) in self.entries.range(bounds_of(kind)) {
            push_row_of(alloc, &mut rows, kind, key, found)?;
        }
        Ok(rows)
    }

    /// The first row of a kind, by the order of keys. Takes no memory.
    pub fn first(&self, kind: RowKind) -> Option<(&Key, &Value)>
        ensures first { IsFirst self.now kind (lent result) }
        ensures walk { GoesOn self.now (rows_of self.now kind) (lent result) }
        ensures rows { AreRowsOf self.now kind (rows_of self.now kind) }
    {
        let (start, end) = bounds_of(kind);
        self.first_between(kind, start, end)
    }

    /// The next row of the key's kind behind the key, by the order of keys. The key itself needs no row. Takes no memory.
    pub fn next_after(&self, key: &Key) -> Option<(&Key, &Value)>
        ensures next { IsNext self.now key.now (lent result) }
        ensures walk { GoesOn self.now (rows_behind self.now key.now) (lent result) }
        ensures rows { AreRowsOf self.now (key_kind key.now) (rows_of self.now (key_kind key.now)) }
    {
        let kind = key.kind();
        let (_, end) = bounds_of(kind);
        self.first_between(kind, Excluded(*key), end)
    }

    // The first row of this kind between two bounds.
    fn first_between(
        &self,
        kind: RowKind,
        start: Bound<Key>,
        end: Bound<Key>,
    ) -> Option<(&Key, &Value)>
        requires { IsForward (IsLeBy key_cmp) (IsLtBy key_cmp) start end }
        ensures found { BeginsWith (flat_map (row_of_kind kind) (entries_between key_cmp start end self.now.entries.entries)) (lent result) }
        ensures ordered { IsOrdered key_cmp self.now.entries }
    {
        'entries: for (key, found) in self.entries.range((start, end)) {
            if let Some(value) = row_of_kind(kind, key, found) {
                return Some((key, value));
            }
        }
        None
    }

    // Puts a row, or room alone.
    fn put(&mut self, key: Key, value: Option<Value>) -> Result<(), AllocError>
        ensures rows { OnOk result ((other : Key) → row_in self.new other ≡ (if same_key key other then value else row_in self.old other)) }
        ensures room { OnOk result (HasRoom self.new key) }
        ensures kept { KeepsRoom self.old self.new }
        ensures others { (other : Key) → same_key key other ≡ false → StaysSwept self.old self.new other }
        ensures refused { OnErr result (SameRows self.old self.new × KeepsRoom self.new self.old) }
        ensures fits { HasRoom self.old key → IsOk result }
    {
        match self.entries.insert(key, value) {
            Ok(_) => Ok(()),
            Err(_) => Err(AllocError),
        }
    }

    fn has_room(&self, key: &Key) -> bool
        ensures { IsTrue result ↔ HasRoom self.now key.now }
    {
        self.entries.contains_key(key)
    }

    // Makes room for a row of this key.
    fn make_room(&mut self, key: Key) -> Result<(), AllocError>
        ensures rows { SameRows self.old self.new }
        ensures kept { KeepsRoom self.old self.new }
        ensures others { (other : Key) → same_key key other ≡ false → StaysSwept self.old self.new other }
        ensures room { OnOk result (HasRoom self.new key) }
    {
        if self.has_room(&key) {
            return Ok(());
        }
        self.put(key, None)?;
        Ok(())
    }

    // Makes room for the row that a change puts.
    fn make_room_of(&mut self, change: &Change) -> Result<(), AllocError>
        ensures rows { SameRows self.old self.new }
        ensures kept { KeepsRoom self.old self.new }
        ensures others { (other : Key) → same_key (key_of change.now) other ≡ false → StaysSwept self.old self.new other }
        ensures room { OnOk result (FitsIn self.new change.now) }
    {
        match change {
            Change::Put(row) => self.make_room(row.key),
            Change::Remove(_) => Ok(()),
        }
    }

    /// Makes room for all rows that the changes put.
    pub fn make_room_for(&mut self, changes: &[Change]) -> Result<(), AllocError>
        ensures rows { SameRows self.old self.new }
        ensures others { (key : Key) → Spares key changes.now → StaysSwept self.old self.new key }
        ensures room { OnOk result (All (FitsIn self.new) changes.now) }
    {
        'changes: for change in changes {
            self.make_room_of(change)?;
        }
        Ok(())
    }

    // Changes one row, and says whether it went, so that its room may be left without one. Takes no memory.
    fn set(&mut self, change: Change) -> bool
        requires { FitsIn self.old change }
        ensures rows { (key : Key) → row_in self.new key ≡ changed (row_in self.old key) key change }
        ensures kept { KeepsRoom self.old self.new }
        ensures others { (other : Key) → same_key (key_of change) other ≡ false → StaysSwept self.old self.new other }
        ensures filled { result ≡ false → IsSwept self.new (key_of change) × ((key : Key) → StaysSwept self.old self.new key) }
    {
        match change {
            Change::Put(row) => {
                self.fill(row.key, Some(row.value));
                false
            }
            Change::Remove(key) => {
                self.empty(key);
                true
            }
        }
    }

    // Takes out the row of a key, and leaves its room.
    fn empty(&mut self, key: Key)
        ensures rows { (other : Key) → row_in self.new other ≡ (if same_key key other then None else row_in self.old other) }
        ensures kept { KeepsRoom self.old self.new }
        ensures others { (other : Key) → same_key key other ≡ false → StaysSwept self.old self.new other }
    {
        if self.has_room(&key) {
            return self.fill(key, None);
        }
    }

    // Sets what stands in a room.
    fn fill(&mut self, key: Key, value: Option<Value>)
        requires { HasRoom self.old key }
        ensures rows { (other : Key) → row_in self.new other ≡ (if same_key key other then value else row_in self.old other) }
        ensures kept { KeepsRoom self.old self.new }
        ensures others { (other : Key) → same_key key other ≡ false → StaysSwept self.old self.new other }
    {
        match self.put(key, value) {
            Ok(()) => {}
            Err(_) => unreachable!(),
        }
    }

    /// Changes rows, one after the other, and gives up the rooms that are left without a row. Takes no memory.
    pub fn set_all(&mut self, mut changes: Vec<Change>)
        requires { All (FitsIn self.old) changes.items }
        ensures rows { (key : Key) → row_in self.new key ≡ row_after (row_in self.old key) key changes.items }
        ensures tidy { IsTidyBut changes.items self.old → IsTidy self.new }
    {
        if !self.set_each(&mut changes) {
            return;
        }
        self.sweep_for(&changes);
    }

    // Makes each change, leaves in its place the removal of its key, and says whether one was a removal.
    fn set_each(&mut self, changes: &mut [Change]) -> bool
        requires { All (FitsIn self.old) changes.old }
        ensures rows { (key : Key) → row_in self.new key ≡ row_after (row_in self.old key) key changes.old }
        ensures others { (key : Key) → Spares key changes.old → StaysSwept self.old self.new key }
        ensures keys { map key_of changes.new ≡ map key_of changes.old }
        // A row that is put leaves no room over.
        ensures tidy { result ≡ false → IsTidyBut changes.old self.old → IsTidy self.new }
    {
        let mut removed = false;
        'changes: for change in changes.iter_mut() {
            let left = Change::Remove(change.key());
            let made = mem::replace(change, left);
            let went = self.set(made);
            removed = removed | went;
        }
        removed
    }

    // Changes one row. Makes no room for a row that goes.
    fn add(&mut self, change: Change) -> Result<(), AllocError>
        ensures rows { OnOk result ((key : Key) → row_in self.new key ≡ changed (row_in self.old key) key change) }
        ensures swept { (key : Key) → StaysSwept self.old self.new key }
    {
        match change {
            Change::Put(row) => self.put(row.key, Some(row.value)),
            Change::Remove(key) => {
                self.remove(&key);
                Ok(())
            }
        }
    }

    // Takes a key out, with its room.
    fn remove(&mut self, key: &Key)
        ensures rows { (other : Key) → row_in self.new other ≡ (if same_key key.now other then None else row_in self.old other) }
        ensures gone { HasRoom self.new key.now → ⊥ }
        ensures swept { (other : Key) → StaysSwept self.old self.new other }
    {
        self.entries.remove(key);
    }

    /// Changes rows, one after the other. After an error some may be changed.
    pub fn add_all(&mut self, changes: Vec<Change>) -> Result<(), AllocError>
        ensures rows { OnOk result ((key : Key) → row_in self.new key ≡ row_after (row_in self.old key) key changes.items) }
        ensures tidy { IsTidy self.old → IsTidy self.new }
    {
        'changes: for change in changes {
            self.add(change)?;
        }
        Ok(())
    }

    /// Gives up the room of those of these keys that have no row. Takes no memory.
    pub fn sweep(&mut self, keys: &[Key])
        ensures rows { SameRows self.old self.new }
        ensures swept { All (IsSwept self.new) keys.now }
        // Where only changes of these keys made room, no room is left over.
        ensures tidy { (changes : List Change) → keys.now ≡ map key_of changes → IsTidyBut changes self.old → IsTidy self.new }
    {
        'swept: for key in keys {
            self.sweep_one(key);
        }
    }

    /// Gives up the room that was made for changes that aren't made. Takes no memory.
    pub fn sweep_for(&mut self, changes: &[Change])
        ensures rows { SameRows self.old self.new }
        ensures tidy { IsTidyBut changes.now self.old → IsTidy self.new }
    {
        'swept: for change in changes {
            self.sweep_one(&change.key());
        }
    }

    fn sweep_one(&mut self, key: &Key)
        ensures rows { SameRows self.old self.new }
        ensures swept { IsSwept self.new key.now }
        ensures still { (other : Key) → StaysSwept self.old self.new other }
    {
        if self.get(key).is_some() {
            return;
        }
        self.remove(key);
    }
}

// Bounds that have the keys of a kind between them. Kinds follow one another in the order of keys, so no key of a row of
// another kind lies there: the greatest number of an account and the least uuid stand outside.
fn bounds_of(kind: RowKind) -> (Bound<Key>, Bound<Key>)
    ensures forward { IsForward (IsLeBy key_cmp) (IsLtBy key_cmp) result.0 result.1 }
    ensures whole { (key : Key) → key_kind key ≡ kind → IsInRange key_cmp result.0 result.1 key }
{
    match kind {
        RowKind::Store => (Included(Key::Store), Included(Key::Store)),
        RowKind::Account => (Excluded(Key::Store), Excluded(Key::Generation(0, 0))),
        RowKind::Generation => {
            let least = Key::Item(Uuid::nil());
            (Excluded(Key::Account(u64::MAX)), Excluded(least))
        }
        RowKind::Item => {
            let greatest = Key::Generation(u64::MAX, u64::MAX);
            (Excluded(greatest), Excluded(Key::Owner))
        }
        RowKind::Owner => (Included(Key::Owner), Included(Key::Owner)),
        RowKind::Set => (Excluded(Key::Owner), Excluded(Key::Local(0))),
        RowKind::Local => (Excluded(Key::Set(Slot::Asked)), Unbounded),
    }
}

// What is found of a key, if it is a row of this kind.
fn row_of_kind<'a>(kind: RowKind, key: &Key, found: &'a Option<Value>) -> Option<&'a Value>
    ensures { row_of_kind kind (key.now, found.now) ≡ option_to_list (option_map (λ value. (key.now, value.now)) result) }
{
    let Some(value) = found else {
        return None;
    };
    if key.kind().number() != kind.number() {
        return None;
    }
    Some(value)
}

// Adds what is found of a key, if it is a row of this kind.
fn push_row_of(
    alloc: Global,
    rows: &mut OwnedList<(Key, Value)>,
    kind: RowKind,
    key: &Key,
    found: &Option<Value>,
) -> Result<(), AllocError>
    ensures { OnOk result (rows.new ≡ rows.old ++ row_of_kind kind (key.now, found.now)) }
{
    let Some(value) = row_of_kind(kind, key, found) else {
        return Ok(());
    };
    let value = value.try_clone(alloc)?;
    rows.push((*key, value))
}

/// The keys of changes.
pub fn keys_of(alloc: Global, changes: &[Change]) -> Result<Vec<Key>, AllocError>
    ensures { IfOk result (λ keys. keys.items ≡ map key_of changes.now) }
{
    let mut keys = Vec::with_capacity(alloc, changes.len())?;
    'changes: for change in changes {
        keys.push(change.key())?;
    }
    Ok(keys)
}
