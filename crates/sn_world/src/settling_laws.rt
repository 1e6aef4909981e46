//! What becomes of a draft whose content the server has, by the definitions alone. The functions call the
//! laws below them and do nothing else; their contracts are the laws.

ghost use Rattle.sn_world.specs.Laws.{KeepsSettling};
ghost use Rattle.sn_world.specs.Settling.{AppliesLive, SettlesGone, SettlesOwn};

use sn_items::one_content;
use sn_shows::device_laws::{settle_keeps, settled_shows};
use sn_shows::server_laws::accounts_apart;
use sn_sync::laws::one_stamp;

/// A version that has a draft's content ends the draft, and the row stands on it.
pub fn settles_own()
    ensures { SettlesOwn }
{
    one_stamp();
    one_content();
    settled_shows();
}

/// A deletion that the draft was too ends the draft and takes the row away.
pub fn settles_gone()
    ensures { SettlesGone }
{
    one_stamp();
    one_content();
}

/// What was live of a device is live where a saved item is applied to its row.
pub fn applies_live()
    ensures { AppliesLive }
{}

/// A saved item that is applied to its row keeps the invariant.
pub fn keeps_settling()
    ensures { KeepsSettling }
{
    accounts_apart();
    settles_own();
    applies_live();
    settle_keeps();
}
