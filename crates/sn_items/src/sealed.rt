// An item's two strings.
ghost use Rattle.std.specs.Prelude.{◌≡◌, IfOk};

use sn_string::{Text, TryClone};
use std::alloc::{AllocError, Global};

/// An item as it is kept: its content sealed under a key of its own, and that key sealed under a key
/// set's.
#[derive(Debug, Drop)]
pub struct Sealed {
    pub content: Text,
    /// The 003 string of the item's key.
    pub enc: Text,
}

/// The string at which a refusal stands.
#[derive(Clone, Copy, Debug, PartialEq, Eq)]
pub enum Which {
    Enc,
    Content,
}

impl TryClone for Sealed {
    fn try_clone(&self, alloc: Global) -> Result<Sealed, AllocError> {
        let content = self.content.try_clone(alloc)?;
        let enc = self.enc.try_clone(alloc)?;
        Ok(Sealed { content, enc })
    }
}
