//! A call on a disk: its device is loaded, and the link is aimed where the call asks a server.

ghost use Rattle.std.specs.Prelude.{◌≡◌, ◌≤◌, List};
ghost use Rattle.sn_client.specs.Calls.{IsOpen, device_disk, device_rows};
ghost use Rattle.sn_device.specs.States.{IsSound};
ghost use Rattle.sn_io.specs.Causes.{Rose};
ghost use Rattle.sn_rows.specs.declared.change.Change.{Change};
ghost use Rattle.sn_table.specs.Kept.{Kept};
ghost use Rattle.sn_calls.specs.Ends.{DeviceEnds, DiskEnds, DiskStands, outside};
ghost use Rattle.sn_calls.specs.Making.{EachStands};
ghost use Rattle.sn_calls.specs.Parts.{HasBounds, IsLinkFault, call_of, server_of};

use crate::device_call::DeviceCall;
use crate::ends::{CallEnd, end_of};
use crate::making::make;
use sn_client::Device;
use sn_disk::Disk;
use sn_io::Seeds;
use sn_net::{AskError, Link};
use std::alloc::Global;

/// Makes a call of a disk's device. Gives the disk back.
pub(crate) fn call_disk<D: Disk, L: Link, R: Seeds>(
    alloc: Global,
    disk: D,
    call: &DeviceCall,
    least_cost: u32,
    link: &mut L,
    seeds: &mut R,
) -> (D, CallEnd)
    requires bounds { HasBounds (call_of call.now) }
    requires least { 1 ≤ least_cost }
    ensures ends { DiskEnds ⟦<D as Disk>⟧ L.asks L.aimed R.given (call_of call.now) (server_of call.now) least_cost
        (outside link.old seeds.old) (outside link.new seeds.new) disk result.0 result.1 }
    ensures stands { D.told → (batches : List (List Change)) → EachStands ⟦<D as Disk>⟧ disk batches →
        DiskStands ⟦<D as Disk>⟧ L.asks L.aimed R.given (call_of call.now) (server_of call.now) least_cost
        (outside link.old seeds.old) (outside link.new seeds.new) batches result.0 result.1 }
    ensures disk { result.1 ≡ CallEnd.DiskFault → Rose (D.fault_count disk) (D.fault_count result.0) }
    ensures link { IsLinkFault result.1 → Rose (L.fault_count link.old) (L.fault_count link.new) }
    ensures grows { D.grows disk result.0 }
{
    match Device::load(alloc, disk, least_cost) {
        Ok(device) => call_device(alloc, device, call, link, seeds),
        Err(refusal) => (refusal.0, end_of(refusal.1)),
    }
}

// Aims the link where the call asks a server, and makes the call.
fn call_device<D: Disk, L: Link, R: Seeds>(
    alloc: Global,
    device: Device<D>,
    call: &DeviceCall,
    link: &mut L,
    seeds: &mut R,
) -> (D, CallEnd)
    requires bounds { HasBounds (call_of call.now) }
    requires sound { IsSound (device_rows device) }
    requires opens { D.told → (kept : Kept) × IsOpen device kept }
    ensures ends { DeviceEnds ⟦<D as Disk>⟧ L.asks L.aimed R.given (call_of call.now) (server_of call.now) device.least_cost
        (outside link.old seeds.old) (outside link.new seeds.new) device result.0 result.1 }
    ensures disk { result.1 ≡ CallEnd.DiskFault → Rose (D.fault_count (device_disk device)) (D.fault_count result.0) }
    ensures link { IsLinkFault result.1 → Rose (L.fault_count link.old) (L.fault_count link.new) }
    ensures grows { D.grows (device_disk device) result.0 }
{
    let Some(server) = call.server() else {
        return make(device, call, link, seeds);
    };
    match link.aim(alloc, server) {
        Ok(()) => make(device, call, link, seeds),
        Err(AskError::Failed) => (device.close(), CallEnd::LinkFault),
        Err(AskError::Memory) => (device.close(), CallEnd::Memory),
    }
}
