//! Where items are found: by their uuids, and those that wait to be sent.

ghost use Rattle.std.specs.Prelude.{◌≡◌, ◌↔◌, ◌++◌, ◌∷◌, [], IfNone, IfOk, IfSome, IsTrue, OnOk, Option};
ghost use Rattle.sn_local.specs.Index.{Indexes, IndexesChange, IndexesRow, IsIndexed, IsNextListed, KeepsIndexed, Lists, NoneListed, Waits, numbers_at};
ghost use Rattle.sn_device.specs.Sending.{IsWaiting};
ghost use Rattle.sn_device.specs.States.{HasLocal};
ghost use Rattle.sn_row_map.specs.RowMaps.{row_in};
ghost use Rattle.sn_rows.specs.Table.{Rows, rows_after};
ghost use Rattle.sn_rows.specs.declared.device_rows.LocalItem.{LocalItem};

use sn_row_map::RowMap;
use sn_rows::{Change, Key, LocalItem, RowKind, Value};
use sn_string::OwnedList;
use std::alloc::{AllocError, Global};
use std::collections::BTreeMap;
use std::ops::Bound;
use std::ops::Bound::{Excluded, Unbounded};
use uuid::Uuid;

/// The local numbers of items by their uuids, and of those that wait to be sent. At a uuid may stand items that have
/// it no more, or don't have it yet, and among those that wait some whose commit was refused; so each is to be looked up
/// in the rows.
#[derive(Drop)]
pub struct Index {
    alloc: Global,
    names: BTreeMap<Uuid, OwnedList<u64>>,
    waiting: BTreeMap<u64, ()>,
}

impl Index {
    /// That of no items. Takes no memory.
    pub(crate) fn new(alloc: Global) -> Index {
        Index {
            alloc,
            names: BTreeMap::new(alloc),
            waiting: BTreeMap::new(alloc),
        }
    }

    /// That of the items of rows.
    pub fn of_rows(alloc: Global, rows: &RowMap) -> Result<Index, AllocError>
        ensures { IfOk result (λ index. Indexes index (row_in rows.now)) }
    {
        let mut index = Index::new(alloc);
        let mut found = rows.first(RowKind::Local);
        'items: while let Some((key, value)) = found {
            index.add_row(key, value)?;
            found = rows.next_after(key);
        }
        Ok(index)
    }

    /// The local numbers that stand at a uuid. Takes no memory.
    pub(crate) fn numbers(&self, uuid: Uuid) -> &[u64]
        ensures { result.now ≡ numbers_at self.now.names uuid }
    {
        match self.names.get(&uuid) {
            Some(numbers) => numbers.as_slice(),
            None => &[],
        }
    }

    /// The least number that stands among those that wait, behind this one if there is one. Takes no memory.
    pub(crate) fn next_listed(&self, behind: Option<u64>) -> Option<u64>
        ensures some { IfSome result (IsNextListed self.now behind) }
        ensures none { IfNone result (NoneListed self.now behind) }
    {
        let start = match behind {
            Some(number) => Excluded(number),
            None => Unbounded,
        };
        match self.waiting.range((start, Unbounded)).next() {
            Some((number, _)) => Some(*number),
            None => None,
        }
    }

    /// Adds the items that changes put. After an error some may be added.
    pub fn add_all(&mut self, changes: &[Change]) -> Result<(), AllocError>
        ensures added { OnOk result ((rows : Rows) → Indexes self.old rows → Indexes self.new (rows_after rows changes.now)) }
        ensures kept { (rows : Rows) → Indexes self.old rows → Indexes self.new rows }
    {
        'changes: for change in changes {
            self.add_change(change)?;
        }
        Ok(())
    }

    // Adds the item that a change puts.
    fn add_change(&mut self, change: &Change) -> Result<(), AllocError>
        ensures listed { OnOk result (IndexesChange self.new change.now) }
        ensures kept { KeepsIndexed self.old self.new }
    {
        let Change::Put(row) = change else {
            return Ok(());
        };
        self.add_row(&row.key, &row.value)?;
        Ok(())
    }

    // Adds the item of a row, if it is one of an item.
    fn add_row(&mut self, key: &Key, value: &Value) -> Result<(), AllocError>
        ensures listed { OnOk result (IndexesRow self.new key.now value.now) }
        ensures kept { KeepsIndexed self.old self.new }
    {
        match (key, value) {
            (Key::Local(number), Value::Local(item)) => self.add(*number, item.get()),
            _ => Ok(()),
        }
    }

    // Adds an item.
    fn add(&mut self, number: u64, item: &LocalItem) -> Result<(), AllocError>
        ensures listed { OnOk result (IsIndexed self.new number item.now) }
        ensures kept { KeepsIndexed self.old self.new }
    {
        self.add_name(item.uuid, number)?;
        if !is_waiting(item) {
            return Ok(());
        }
        self.add_waiting(number)
    }

    // Adds a number at a uuid.
    fn add_name(&mut self, uuid: Uuid, number: u64) -> Result<(), AllocError>
        ensures listed { OnOk result (Lists self.new uuid number) }
        ensures kept { KeepsIndexed self.old self.new }
    {
        if self.numbers(uuid).contains(&number) {
            return Ok(());
        }
        let numbers = with_number(self.alloc, self.numbers(uuid), number)?;
        match self.names.insert(uuid, numbers) {
            Ok(_) => Ok(()),
            Err(_) => Err(AllocError),
        }
    }

    // Adds a number to those that wait.
    fn add_waiting(&mut self, number: u64) -> Result<(), AllocError>
        ensures listed { OnOk result (Waits self.new number) }
        ensures kept { KeepsIndexed self.old self.new }
    {
        match self.waiting.insert(number, ()) {
            Ok(_) => Ok(()),
            Err(_) => Err(AllocError),
        }
    }

    /// Takes these numbers out where their items don't wait in the rows. Takes no memory.
    pub fn settle(&mut self, rows: &RowMap, numbers: &[u64])
        ensures { Indexes self.old (row_in rows.now) → Indexes self.new (row_in rows.now) }
    {
        'numbers: for number in numbers {
            self.settle_one(rows, *number);
        }
    }

    // Takes the number of an item out if it doesn't wait.
    fn settle_one(&mut self, rows: &RowMap, number: u64)
        ensures { Indexes self.old (row_in rows.now) → Indexes self.new (row_in rows.now) }
    {
        if waiting_item(rows, number).is_some() {
            return;
        }
        self.waiting.remove(&number);
    }
}

/// The local numbers of the items that changes put or remove.
pub fn changed_numbers(alloc: Global, changes: &[Change]) -> Result<Vec<u64>, AllocError> {
    let mut numbers = Vec::new(alloc);
    'changes: for change in changes {
        if let Key::Local(number) = change.key() {
            numbers.push(number)?;
        }
    }
    Ok(numbers)
}

// The numbers, and one more.
fn with_number(alloc: Global, numbers: &[u64], number: u64) -> Result<OwnedList<u64>, AllocError>
    ensures { IfOk result (λ more. more ≡ numbers.now ++ number ∷ []) }
{
    let mut more = Vec::new(alloc);
    more.extend_from_slice(numbers)?;
    more.push(number)?;
    Ok(OwnedList::of_vec(more))
}

/// The item of this number, if it waits to be sent.
pub(crate) fn waiting_item(rows: &RowMap, number: u64) -> Option<&LocalItem>
    ensures some { IfSome result (λ item. HasLocal (row_in rows.now) number item.now × IsWaiting item.now) }
    ensures none { IfNone result ((item : LocalItem) → HasLocal (row_in rows.now) number item → ¬ (IsWaiting item)) }
{
    let Some(Value::Local(item)) = rows.get(&Key::Local(number)) else {
        return None;
    };
    let item = item.get();
    if !is_waiting(item) {
        return None;
    }
    Some(item)
}

/// Whether an item waits to be sent.
pub(crate) fn is_waiting(item: &LocalItem) -> bool
    ensures { IsTrue result ↔ IsWaiting item.now }
{
    item.latest.is_some() || item.stale
}
