//! Where items are looked for by their accounts and stamps.

ghost use Rattle.std.specs.Prelude.{◌≡◌, ◌↔◌, ◌<◌, ◌≤◌, ℕ, All, IfOk, IsTrue, OnOk, Some};
ghost use Rattle.std.specs.BTreeMap.Range.{IsInRange, IsLeBy, IsLtBy};
ghost use Rattle.std.specs.Range.Bound.{IsForward};
ghost use Rattle.sn_account.specs.Lookups.{Bytes};
ghost use Rattle.sn_account.specs.Places.{HasPlace, IsAt, KeepsPlaces, PlacesChange, PlacesRow, PlacesRows, place_cmp, place_of};
ghost use Rattle.sn_row_map.specs.RowMaps.{row_in};
ghost use Rattle.sn_rows.specs.declared.key.Key.TheVariants as key;
ghost use Rattle.sn_rows.specs.declared.server_rows.ItemRow.{ItemRow};
ghost use Rattle.sn_rows.specs.declared.value.Value.TheVariants as value;
ghost use Rattle.sn_sync.specs.Stamps.{last_stamp};

use crate::place::Place;
use sn_row_map::RowMap;
use sn_rows::{Change, ItemRow, Key, RowKind, Value};
use sn_string::OwnedList;
use std::alloc::{AllocError, Global};
use std::collections::BTreeSet;
use std::mem;
use std::ops::Bound;
use std::ops::Bound::{Excluded, Included};
use uuid::Uuid;

/// The places of items. There may be some where no item stands any more, or none does yet.
#[derive(Drop)]
pub(crate) struct Places {
    alloc: Global,
    pub(crate) entries: BTreeSet<Place>,
    // Where items stood or were to stand, by the changes since the last sweep.
    touched: OwnedList<Place>,
}

impl Places {
    /// Those of no items. Takes no memory.
    pub(crate) fn new(alloc: Global) -> Places {
        Places {
            alloc,
            entries: BTreeSet::new(alloc),
            touched: OwnedList::new(alloc),
        }
    }

    /// Those of the items of rows.
    pub(crate) fn of_rows(alloc: Global, rows: &RowMap) -> Result<Places, AllocError>
        ensures { IfOk result (λ places. PlacesRows places rows.now) }
    {
        let mut places = Places::new(alloc);
        let mut found = rows.first(RowKind::Item);
        'items: while let Some((key, value)) = found {
            places.add_row(key, value)?;
            found = rows.next_after(key);
        }
        Ok(places)
    }

    /// Adds the places of the items that changes of the rows put. After an error some may be added.
    pub(crate) fn add_all(&mut self, rows: &RowMap, changes: &[Change]) -> Result<(), AllocError>
        ensures placed { OnOk result (All (PlacesChange self.new) changes.now) }
        ensures kept { KeepsPlaces self.old self.new }
    {
        'changes: for change in changes {
            self.touch_old(rows, &change.key())?;
            self.add_change(change)?;
        }
        Ok(())
    }

    // Notes the place of the item that the rows have at a key, if they have one.
    fn touch_old(&mut self, rows: &RowMap, key: &Key) -> Result<(), AllocError>
        ensures { self.new.entries ≡ self.old.entries }
    {
        match (key, rows.get(key)) {
            (Key::Item(uuid), Some(Value::Item(row))) => self.touched.push(place_of(*uuid, row)),
            _ => Ok(()),
        }
    }

    // Adds the place of the item that a change puts, if it puts one.
    fn add_change(&mut self, change: &Change) -> Result<(), AllocError>
        ensures placed { OnOk result (PlacesChange self.new change.now) }
        ensures kept { KeepsPlaces self.old self.new }
    {
        let Change::Put(row) = change else {
            return Ok(());
        };
        if let (Key::Item(uuid), Value::Item(item)) = (&row.key, &row.value) {
            self.touched.push(place_of(*uuid, item))?;
        }
        self.add_row(&row.key, &row.value)
    }

    // Adds the place of a row's item, if it is one of an item.
    fn add_row(&mut self, key: &Key, value: &Value) -> Result<(), AllocError>
        ensures placed { OnOk result (PlacesRow self.new key.now value.now) }
        ensures kept { KeepsPlaces self.old self.new }
    {
        match (key, value) {
            (Key::Item(uuid), Value::Item(row)) => self.add(place_of(*uuid, row)),
            _ => Ok(()),
        }
    }

    // Adds a place.
    fn add(&mut self, place: Place) -> Result<(), AllocError>
        ensures placed { OnOk result (HasPlace self.new place) }
        ensures kept { KeepsPlaces self.old self.new }
    {
        match self.entries.insert(place) {
            Ok(_) => Ok(()),
            Err(_) => Err(AllocError),
        }
    }

    /// Takes the places out that changes have touched and where the rows have no item. Takes no memory.
    pub(crate) fn sweep(&mut self, rows: &RowMap)
        ensures { PlacesRows self.old rows.now → PlacesRows self.new rows.now }
    {
        let touched = mem::replace(&mut self.touched, OwnedList::new(self.alloc));
        'touched: for place in touched.as_slice() {
            self.sweep_one(rows, *place);
        }
    }

    // Takes a place out, if the rows have no item there.
    fn sweep_one(&mut self, rows: &RowMap, place: Place)
        ensures { PlacesRows self.old rows.now → PlacesRows self.new rows.now }
    {
        if has_item_at(rows, place) {
            return;
        }
        self.entries.remove(&place);
    }
}

// The place of an item.
fn place_of(uuid: Uuid, row: &ItemRow) -> Place
    ensures { result ≡ place_of uuid row.now }
{
    Place {
        account: row.account(),
        stamp: row.updated(),
        uuid,
    }
}

/// Whether the item has this account and this stamp.
pub(crate) fn is_at(place: Place, row: &ItemRow) -> bool
    ensures { IsTrue result ↔ IsAt place row.now }
{
    row.account() == place.account && row.updated() == place.stamp
}

// Whether the rows have an item at a place.
fn has_item_at(rows: &RowMap, place: Place) -> bool
    ensures { IsTrue result ↔ ((i : ItemRow) × (row_in rows.now (key.Item place.uuid) ≡ Some (value.Item i)) × IsAt place i) }
{
    match rows.get(&Key::Item(place.uuid)) {
        Some(Value::Item(row)) => is_at(place, row),
        _ => false,
    }
}

/// Bounds that have the places of an account above a stamp between them.
pub(crate) fn bounds_above(account: u64, above: u64) -> (Bound<Place>, Bound<Place>)
    ensures forward { IsForward (IsLeBy place_cmp) (IsLtBy place_cmp) result.0 result.1 }
    ensures whole { (stamp : ℕ) (uuid : Bytes) → above < stamp → stamp ≤ last_stamp
        → IsInRange place_cmp result.0 result.1 (record { account = account; stamp = stamp; uuid = uuid }) }
{
    let uuid = Uuid::max();
    let start = Place {
        account,
        stamp: above,
        uuid,
    };
    let end = Place {
        account,
        stamp: u64::MAX,
        uuid,
    };
    (Excluded(start), Included(end))
}
