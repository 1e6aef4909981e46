//! The marks at which the ends' disks stand, and the batches behind a place of them.

ghost use Rattle.std.specs.Prelude.{◌≡◌, ◌++◌, List, IfOk};
ghost use Rattle.sn_client.specs.Calls.{IsOpen as IsOpenDevice, device_disk};
ghost use Rattle.sn_disk.specs.Disk.{Only};
ghost use Rattle.sn_disk.specs.MemDisk.{disk_told};
ghost use Rattle.sn_disk.specs.Steps.{Leaves};
ghost use Rattle.sn_events.specs.Calling.{AreBehind};
ghost use Rattle.sn_journal.specs.declared.owner.Owner.TheVariants.{Device as DeviceOwner, Server as ServerOwner};
ghost use Rattle.sn_link.specs.Deliveries.{Holds, held_disk, serves};
ghost use Rattle.sn_rows.specs.declared.change.Change.{Change};
ghost use Rattle.sn_server.specs.Stores.{IsOpen as IsOpenServer, Kept as ServerKept};
ghost use Rattle.sn_table.specs.Batches.{IsStore};
ghost use Rattle.sn_table.specs.Kept.{Kept};
ghost use Rattle.sn_tail.specs.Marks.{StoodAt, mark_of};
ghost use Rattle.sn_tail.specs.Places.{place_behind};

use sn_client::Device;
use sn_disk::MemDisk;
use sn_journal::Owner;
use sn_link::Held;
use sn_recorder::server_stands;
use sn_server::Server;
use sn_tail::{Tail, first_place, mark_of, tail_of};
use std::alloc::{AllocError, Global};

/// The present mark of a server's disk.
pub(crate) fn server_mark(held: &Held) -> u64
    ensures { (kept : ServerKept) → Holds held.now (serves kept) → (result ≡ mark_of (held_disk held.now)) × StoodAt (held_disk held.now) result ServerOwner kept.batches }
{
    match held {
        Held::Open(server) => {
            server_stands(server);
            mark_of(server.disk())
        }
        Held::Broken(disk) => mark_of(disk),
    }
}

/// The present mark of a device's disk.
pub(crate) fn device_mark(device: &Device<MemDisk>) -> u64
    ensures { (kept : Kept) → IsOpenDevice device.now kept → (result ≡ mark_of (device_disk device.now)) × StoodAt (device_disk device.now) result DeviceOwner kept.batches }
{
    device_stands(device);
    mark_of(device.disk())
}

/// What a device's store has behind a place.
pub(crate) fn device_tail(
    alloc: Global,
    device: &Device<MemDisk>,
    place: u64,
) -> Result<Tail, AllocError>
    ensures { IfOk result (λ tail. AreBehind IsOpenDevice device.now place tail.batches tail.gate) }
{
    device_stands(device);
    match tail_of(alloc, Owner::Device, device.disk(), place) {
        Ok(tail) => Ok(tail),
        Err(_) => Err(AllocError),
    }
}

/// All that a server's store has.
pub(crate) fn whole_tail(alloc: Global, server: &Server<MemDisk>) -> Result<Tail, AllocError>
    ensures { (kept : ServerKept) → IsOpenServer server.now kept → IfOk result (λ tail. (tail.batches ≡ kept.batches) × (tail.gate ≡ place_behind ServerOwner kept.batches)) }
{
    server_stands(server);
    match tail_of(alloc, Owner::Server, server.disk(), first_place()) {
        Ok(tail) => Ok(tail),
        Err(_) => Err(AllocError),
    }
}

// The disk of an open device stands, at its present mark, for the device's batches, and a crash leaves nothing else.
fn device_stands(_device: &Device<MemDisk>)
    ensures at { (kept : Kept) → IsOpenDevice _device.now kept →
        StoodAt (device_disk _device.now) (mark_of (device_disk _device.now)) DeviceOwner kept.batches }
    ensures one { (kept : Kept) → IsOpenDevice _device.now kept →
        Only (disk_told (device_disk _device.now)).bytes (Leaves (disk_told (device_disk _device.now))) }
    ensures store { (kept : Kept) → IsOpenDevice _device.now kept → IsStore DeviceOwner (disk_told (device_disk _device.now)).bytes kept.batches }
{}
