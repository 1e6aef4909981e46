//! Rows, and changes of them.

ghost use Rattle.std.specs.Prelude.{◌≡◌};
ghost use Rattle.sn_rows.specs.Kinds.{key_kind, value_kind};

use crate::key::Key;
use crate::value::Value;
use sn_string::TryClone;
use std::alloc::{AllocError, Global};

/// A row: a key, and a value of its kind.
#[derive(Drop)]
pub struct Row {
    pub key: Key,
    pub value: Value,
    pub ghost one_kind: { key_kind key ≡ value_kind value },
}

impl TryClone for Row {
    fn try_clone(&self, alloc: Global) -> Result<Row, AllocError> {
        let value = self.value.try_clone(alloc)?;
        Ok(Row {
            key: self.key,
            value,
        })
    }
}

/// A change of one row of a table.
#[derive(Drop)]
pub enum Change {
    /// The row of this key is from now on this one.
    Put(Row),
    /// There is no row of this key from now on.
    Remove(Key),
}

impl Change {
    ghost use Rattle.sn_rows.specs.Table.{key_of};

    /// The key whose row the change sets or takes away.
    pub fn key(&self) -> Key
        ensures { result ≡ key_of self.now }
    {
        match self {
            Change::Put(row) => row.key,
            Change::Remove(key) => *key,
        }
    }
}

impl TryClone for Change {
    fn try_clone(&self, alloc: Global) -> Result<Change, AllocError> {
        match self {
            Change::Put(row) => Ok(Change::Put(row.try_clone(alloc)?)),
            Change::Remove(key) => Ok(Change::Remove(*key)),
        }
    }
}
