//! A call on the store of a name.

ghost use Rattle.std.specs.Prelude.{◌≡◌, ◌≤◌};
ghost use Rattle.sn_io.specs.Causes.{Rose};
ghost use Rattle.sn_calls.specs.Ends.{CallEnds, handed};
ghost use Rattle.sn_calls.specs.Parts.{HasBounds, IsLinkFault, call_of, server_of};

use crate::aiming::call_disk;
use crate::device_call::DeviceCall;
use crate::ends::CallEnd;
use sn_disk::{Disk, Shelf};
use sn_io::{Failed, Seeds};
use sn_net::Link;
use std::alloc::Global;

/// Makes a call of the device whose store has this name. It takes no set of a lower cost than this one. A call that draws
/// words draws them of one seed, as it is made. The disk is given back.
pub fn call<S: Shelf, L: Link, R: Seeds>(
    alloc: Global,
    store: &str,
    call: &DeviceCall,
    least_cost: u32,
    shelf: &mut S,
    link: &mut L,
    seeds: &mut R,
) -> CallEnd
    requires bounds { HasBounds (call_of call.now) }
    requires least { 1 ≤ least_cost }
    ensures ends { CallEnds ⟦<S::D as Disk>⟧ S.told S.slot S.fault_count L.asks L.aimed R.given store.now (call_of call.now) (server_of call.now) least_cost
        (handed shelf.old link.old seeds.old) (handed shelf.new link.new seeds.new) result }
    ensures link { IsLinkFault result → Rose (L.fault_count link.old) (L.fault_count link.new) }
{
    let disk = match shelf.take(store) {
        Ok(disk) => disk,
        Err(Failed) => return CallEnd::DiskFault,
    };
    let (disk, end) = call_disk(alloc, disk, call, least_cost, link, seeds);
    shelf.give(store, disk);
    end
}
