//! What an answer has made of a device's items so far.

ghost use Rattle.std.specs.Prelude.{◌≡◌, ◌≢◌, [], OnOk};
ghost use Rattle.rand_chacha.specs.ChaCha.{ChaCha};
ghost use Rattle.sn_device.specs.Taking.{last_number, made, with_words};
ghost use Rattle.sn_taking.specs.Taken.{HasNumber, after, refusal_of, so_far};
ghost use Rattle.sn_rows.specs.Table.{Rows};

use sn_device::ClientError;
use sn_rows::Change;
use sn_string::OwnedList;
use std::alloc::{AllocError, Global};
use uuid::Uuid;

/// What an answer makes of a device's items: the changes in order, and the next local number.
#[derive(Drop)]
pub(crate) struct Taken {
    pub(crate) changes: OwnedList<Change>,
    pub(crate) next: u64,
}

/// What one version of an answer makes of them.
#[derive(Drop)]
pub(crate) enum Effect {
    Nothing,
    /// A row that stands already changes or goes.
    Changed(Change),
    /// A row is put under the next local number.
    Made(Change),
    /// A row is put under the next local number, and then one that stands already changes or goes.
    Forked(Change, Change),
}

/// Why what an answer tells can't be applied.
#[derive(Debug, Drop)]
pub enum NotTaken {
    /// A new row is due, and the local numbers are used up.
    NumbersUsed { next: u64 },
    /// All uuids that may be drawn are in the rows; this is the last of them.
    NoFreshUuid { drawn: Uuid },
    Memory,
}

impl From<AllocError> for NotTaken {
    ghost use Rattle.sn_taking.specs.declared.taken.NotTaken.TheVariants.{Memory};

    ghost from_gives = { λ _ e. e ≡ Memory };

    fn from(_: AllocError) -> NotTaken {
        NotTaken::Memory
    }
}

impl NotTaken {
    /// As the refusal of a call.
    pub fn refusal(self) -> ClientError
        ensures { result ≡ refusal_of self }
    {
        match self {
            NotTaken::NumbersUsed { next } => ClientError::NumbersUsed { next },
            NotTaken::NoFreshUuid { drawn } => ClientError::NoFreshUuid { drawn },
            NotTaken::Memory => ClientError::Memory,
        }
    }
}

impl Taken {
    /// Before the first version. Takes no memory.
    pub(crate) fn none(alloc: Global, next: u64) -> Taken
        ensures { (rows : Rows) (words : ChaCha) → so_far rows result words ≡ record { rows = rows; changes = []; next = next; words = words } }
    {
        Taken {
            changes: OwnedList::new(alloc),
            next,
        }
    }

    /// Adds what one version makes of the items. After an error a part of it may be added.
    pub(crate) fn add(&mut self, effect: Effect) -> Result<(), AllocError>
        requires { HasNumber self.old.next effect }
        ensures { OnOk result ((rows : Rows) (before words : ChaCha) → so_far rows self.new words ≡ after (so_far rows self.old before) effect words) }
    {
        match effect {
            Effect::Nothing => Ok(()),
            Effect::Changed(change) => self.changes.push(change),
            Effect::Made(change) => self.make(change),
            Effect::Forked(copy, change) => {
                self.make(copy)?;
                self.changes.push(change)
            }
        }
    }

    // Adds a row under the next local number.
    fn make(&mut self, change: Change) -> Result<(), AllocError>
        requires { self.old.next ≢ last_number }
        ensures { OnOk result ((rows : Rows) (before words : ChaCha) → so_far rows self.new words ≡ with_words (made (so_far rows self.old before) change) words) }
    {
        self.changes.push(change)?;
        self.next += 1;
        Ok(())
    }
}
