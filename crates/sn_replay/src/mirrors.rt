//! The rows of the devices, by their names.

ghost use Rattle.std.specs.Prelude.{◌≡◌};
ghost use Rattle.std.specs.BTreeMap.{get_by_text};

use sn_row_map::RowMap;
use sn_shown::Devices;
use std::alloc::{AllocError, Global};
use std::collections::BTreeMap;
use std::mem;

/// The rows of devices once more. A device that has begun nothing has none.
#[derive(Drop)]
pub(crate) struct Mirrors {
    alloc: Global,
    rows: BTreeMap<String, RowMap>,
}

impl Mirrors {
    ghost use Rattle.std.specs.Prelude.{◌≢◌, List, ℕ, OnOk};
    ghost use Rattle.sn_replay.specs.Mirrored.{mirrored};
    ghost use Rattle.sn_row_map.specs.RowMaps.{row_in};
    ghost use Rattle.sn_rows.specs.Table.{no_rows};

    pub(crate) fn new(alloc: Global) -> Mirrors
        ensures { (name : List ℕ) → mirrored result name ≡ no_rows }
    {
        Mirrors {
            alloc,
            rows: BTreeMap::new(alloc),
        }
    }

    /// Takes the rows of a device out.
    pub(crate) fn take(&mut self, name: &str) -> RowMap
        ensures own { row_in result ≡ mirrored self.old name.now }
        ensures others { (other : List ℕ) → other ≢ name.now → mirrored self.new other ≡ mirrored self.old other }
    {
        let none = RowMap::new(self.alloc);
        match self.rows.get_mut(name) {
            Some(rows) => mem::replace(rows, none),
            None => none,
        }
    }

    /// Puts the rows of a device back.
    pub(crate) fn put(&mut self, name: &str, rows: RowMap) -> Result<(), AllocError>
        ensures own { OnOk result (mirrored self.new name.now ≡ row_in rows) }
        ensures others { (other : List ℕ) → other ≢ name.now → mirrored self.new other ≡ mirrored self.old other }
    {
        let key = name.to_string(self.alloc)?;
        match self.rows.insert(key, rows) {
            Ok(_) => Ok(()),
            Err(_) => Err(AllocError),
        }
    }
}

impl Devices for Mirrors {
    ghost rows_of = { λ mirrors name. get_by_text mirrors.rows name };

    fn rows(&self, name: &str) -> Option<&RowMap> {
        self.rows.get(name)
    }
}
