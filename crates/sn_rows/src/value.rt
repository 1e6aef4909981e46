//! The values of rows.

ghost use Rattle.std.specs.Prelude.{◌≡◌};
ghost use Rattle.sn_rows.specs.Kinds.{value_kind};

use crate::boxed::Boxed;
use crate::device_rows::{LocalItem, OwnerRow, SetRow};
use crate::kind::RowKind;
use crate::server_rows::{AccountRow, GenerationRow, ItemRow, StoreRow};
use sn_string::TryClone;
use std::alloc::{AllocError, Global};

/// The value of a row. What is large stands in a place of its own, so that each value takes memory for what it holds.
#[derive(Drop)]
pub enum Value {
    Store(StoreRow),
    Account(Boxed<AccountRow>),
    Generation(GenerationRow),
    Item(ItemRow),
    Owner(Boxed<OwnerRow>),
    Set(Boxed<SetRow>),
    Local(Boxed<LocalItem>),
}

impl Value {
    /// The kind of the row that has this value.
    pub fn kind(&self) -> RowKind
        ensures { result ≡ value_kind self.now }
    {
        match self {
            Value::Store(_) => RowKind::Store,
            Value::Account(_) => RowKind::Account,
            Value::Generation(_) => RowKind::Generation,
            Value::Item(_) => RowKind::Item,
            Value::Owner(_) => RowKind::Owner,
            Value::Set(_) => RowKind::Set,
            Value::Local(_) => RowKind::Local,
        }
    }
}

impl TryClone for Value {
    fn try_clone(&self, alloc: Global) -> Result<Value, AllocError> {
        match self {
            Value::Store(row) => Ok(Value::Store(row.try_clone(alloc)?)),
            Value::Account(row) => Ok(Value::Account(row.try_clone(alloc)?)),
            Value::Generation(row) => Ok(Value::Generation(row.try_clone(alloc)?)),
            Value::Item(row) => Ok(Value::Item(row.try_clone(alloc)?)),
            Value::Owner(row) => Ok(Value::Owner(row.try_clone(alloc)?)),
            Value::Set(row) => Ok(Value::Set(row.try_clone(alloc)?)),
            Value::Local(row) => Ok(Value::Local(row.try_clone(alloc)?)),
        }
    }
}
