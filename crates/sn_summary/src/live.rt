//! The items on the server that aren't deleted.

ghost use Rattle.std.specs.Prelude.{OnOk};
ghost use Rattle.sn_summary.specs.Walks.{NotesLive, Sets};

use sn_laws::Move;
use std::alloc::AllocError;
use std::collections::BTreeSet;
use uuid::Uuid;

// Notes whether an item's last version is one that isn't deleted.
fn set_live(live: &mut BTreeSet<Uuid>, uuid: &Uuid, is_live: bool) -> Result<(), AllocError>
    ensures { OnOk result (Sets live.old live.new uuid.now is_live) }
{
    if !is_live {
        live.remove(uuid);
        return Ok(());
    }
    match live.insert(*uuid) {
        Ok(_) => Ok(()),
        Err(_) => Err(AllocError),
    }
}

/// Notes what a move does to them: a version of an item may be its deletion. An item that is sealed
/// again isn't deleted, before and after.
pub(crate) fn note_live(live: &mut BTreeSet<Uuid>, made: &Move) -> Result<(), AllocError>
    ensures { OnOk result (NotesLive live.old live.new made.now) }
{
    match made {
        Move::Accept { uuid, under, .. } => set_live(live, uuid, under.is_some()),
        Move::Register { .. }
        | Move::Join { .. }
        | Move::Edit { .. }
        | Move::Drop { .. }
        | Move::Post { .. }
        | Move::Unpost { .. }
        | Move::Rewrap { .. }
        | Move::Settle { .. }
        | Move::SettlePosted { .. }
        | Move::Fork { .. }
        | Move::Rename { .. }
        | Move::GiveWay { .. }
        | Move::Change { .. }
        | Move::Retire { .. } => Ok(()),
    }
}
