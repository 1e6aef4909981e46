//! What a device did in a commit.

use sn_moves::Done;
use sn_string::{OwnedList, Text};
use uuid::Uuid;

/// What a device did in a commit.
#[derive(Drop)]
pub enum Doing {
    /// It took up the account of this identifier.
    Begins { identifier: Text },
    /// It adopted its account's last set.
    Adopts,
    /// It applied the answer to a sync, by which another account has these uuids.
    Applies { foreign: OwnedList<Uuid> },
    /// Anything else.
    Other(Done),
}
