//! The names of rows.

ghost use Rattle.std.specs.Prelude.{◌≡◌};
ghost use Rattle.sn_rows.specs.Kinds.{key_kind};

use crate::kind::RowKind;
use sn_string::TryClone;
use std::alloc::{AllocError, Global};
use uuid::Uuid;

/// Which of a device's key sets.
#[derive(Clone, Copy, Debug, PartialEq, Eq, PartialOrd, Ord)]
pub enum Slot {
    /// The set in use.
    Present,
    /// The set before, while a change of password is being carried out.
    Older,
    /// The set of a change that was asked for and not yet answered.
    Asked,
}

/// The key of a row.
#[derive(Clone, Copy, Debug, PartialEq, Eq, PartialOrd, Ord)]
pub enum Key {
    Store,
    /// The number of an account, from 1.
    Account(u64),
    /// The number of an account, and of a generation, from 1.
    Generation(u64, u64),
    Item(Uuid),
    Owner,
    Set(Slot),
    /// A device's own number of an item.
    Local(u64),
}

impl Key {
    /// The kind of the row that has this key.
    pub fn kind(&self) -> RowKind
        ensures { result ≡ key_kind self.now }
    {
        match self {
            Key::Store => RowKind::Store,
            Key::Account(_) => RowKind::Account,
            Key::Generation(_, _) => RowKind::Generation,
            Key::Item(_) => RowKind::Item,
            Key::Owner => RowKind::Owner,
            Key::Set(_) => RowKind::Set,
            Key::Local(_) => RowKind::Local,
        }
    }
}

impl TryClone for Key {
    fn try_clone(&self, _alloc: Global) -> Result<Key, AllocError> {
        Ok(*self)
    }
}
