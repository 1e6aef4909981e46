//! The drafts that a report's moves leave on devices.

ghost use Rattle.std.specs.Prelude.{◌≡◌, IfOk, OnOk, string_bytes};
ghost use Rattle.sn_summary.specs.Walks.{AddsKey, NotesDrafts, RemovesKey, TakesKey};

use sn_laws::Move;
use sn_string::Text;
use std::alloc::{AllocError, Global};
use std::collections::BTreeSet;
use uuid::Uuid;

/// A draft's device and item. Keys are in order by the device's name, then by the uuid.
#[derive(PartialEq, Eq, PartialOrd, Ord, Drop)]
pub(crate) struct DraftKey {
    device: String,
    uuid: Uuid,
}

impl DraftKey {
    fn of(alloc: Global, device: &Text, uuid: &Uuid) -> Result<DraftKey, AllocError>
        ensures device { IfOk result (λ key. string_bytes key.device ≡ device.now) }
        ensures uuid { IfOk result (λ key. key.uuid ≡ uuid.now) }
    {
        let device = device.as_str().to_string(alloc)?;
        Ok(DraftKey {
            device,
            uuid: *uuid,
        })
    }
}

fn add(
    alloc: Global,
    drafts: &mut BTreeSet<DraftKey>,
    device: &Text,
    uuid: &Uuid,
) -> Result<(), AllocError>
    ensures { OnOk result (AddsKey drafts.old drafts.new device.now uuid.now) }
{
    let key = DraftKey::of(alloc, device, uuid)?;
    match drafts.insert(key) {
        Ok(_) => Ok(()),
        Err(_) => Err(AllocError),
    }
}

fn remove(
    alloc: Global,
    drafts: &mut BTreeSet<DraftKey>,
    device: &Text,
    uuid: &Uuid,
) -> Result<(), AllocError>
    ensures { OnOk result (RemovesKey drafts.old drafts.new device.now uuid.now) }
{
    let key = DraftKey::of(alloc, device, uuid)?;
    drafts.remove(&key);
    Ok(())
}

// Takes a draft to another item.
fn take(
    alloc: Global,
    drafts: &mut BTreeSet<DraftKey>,
    device: &Text,
    uuid: &Uuid,
    other: &Uuid,
) -> Result<(), AllocError>
    ensures { OnOk result (TakesKey drafts.old drafts.new device.now uuid.now other.now) }
{
    remove(alloc, drafts, device, uuid)?;
    add(alloc, drafts, device, other)
}

/// Notes what a move does to the drafts that there are: an edit may begin one, some moves end one,
/// and a fork or a renaming takes one to another item.
pub(crate) fn note_drafts(
    alloc: Global,
    drafts: &mut BTreeSet<DraftKey>,
    made: &Move,
) -> Result<(), AllocError>
    ensures { OnOk result (NotesDrafts drafts.old drafts.new made.now) }
{
    match made {
        Move::Edit { device, uuid, .. } => add(alloc, drafts, device, uuid),
        Move::Drop { device, uuid } => remove(alloc, drafts, device, uuid),
        Move::Settle { device, uuid } => remove(alloc, drafts, device, uuid),
        Move::GiveWay { device, uuid } => remove(alloc, drafts, device, uuid),
        Move::Fork {
            device,
            uuid,
            other,
        } => take(alloc, drafts, device, uuid, other),
        Move::Rename {
            device,
            uuid,
            other,
        } => take(alloc, drafts, device, uuid, other),
        Move::Register { .. }
        | Move::Join { .. }
        | Move::Post { .. }
        | Move::Unpost { .. }
        | Move::Accept { .. }
        | Move::Rewrap { .. }
        | Move::SettlePosted { .. }
        | Move::Change { .. }
        | Move::Retire { .. } => Ok(()),
    }
}
