//! That each set which a live last version carries is held by a device of its account, by the definitions
//! alone. The functions call the laws below them and do nothing else; their contracts are the laws.

ghost use Rattle.sn_world.specs.Holders.{KeepsHeld, TracesHeld};

use crate::laws::{holds_first, keeps};
use sn_laws::state_laws::{devices_hold, numbers_held};
use sn_shows::server_laws::accounts_apart;

/// Each step keeps it.
pub fn keeps_held()
    ensures { KeepsHeld }
{
    accounts_apart();
    devices_hold();
    numbers_held();
    keeps();
}

/// So it is whatever steps are made from the beginning on.
pub fn traces_held()
    ensures { TracesHeld }
{
    holds_first();
    keeps();
    keeps_held();
}
