//! The ends' disks on a shelf.

ghost use Rattle.std.specs.Prelude.{◌≡◌, ◌≢◌, ◌++◌, ℕ, List, codes, string_bytes, IfOk, OnOk};
ghost use Rattle.sn_disk.specs.MemShelf.{shelf_slot};
ghost use Rattle.sn_disk.specs.Shelf.{holds, unknown};
ghost use Rattle.sn_events.specs.Slots.{device_key, slot_of_held};
ghost use Rattle.sn_link.specs.Deliveries.{held_disk};
ghost use Rattle.sn_link.specs.Links.{link_held};

use sn_disk::{MemDisk, MemShelf};
use sn_link::{Held, ServingLink};
use std::alloc::{AllocError, Global};

/// Puts a device's disk on a shelf, under `device-` and the device's name.
pub(crate) fn put_disk(
    alloc: Global,
    shelf: &mut MemShelf,
    name: &str,
    disk: MemDisk,
) -> Result<(), AllocError>
    requires { shelf_slot shelf.old (device_key name.now) ≡ unknown }
    ensures put { OnOk result (shelf_slot shelf.new (device_key name.now) ≡ holds disk) }
    ensures others { (other : List ℕ) → other ≢ device_key name.now → shelf_slot shelf.new other ≡ shelf_slot shelf.old other }
{
    let key = key_of(alloc, name)?;
    shelf.put(key, disk)
}

fn key_of(alloc: Global, name: &str) -> Result<String, AllocError>
    ensures { IfOk result (λ key. string_bytes key ≡ device_key name.now) }
{
    let mut key = "device-".to_string(alloc)?;
    key.push_str(name)?;
    Ok(key)
}

/// Puts the server's disk on a shelf, under `server`, where there is one.
pub(crate) fn put_server(
    alloc: Global,
    shelf: &mut MemShelf,
    link: ServingLink,
) -> Result<(), AllocError>
    requires { shelf_slot shelf.old (codes "server") ≡ unknown }
    ensures put { OnOk result (shelf_slot shelf.new (codes "server") ≡ slot_of_held (link_held link)) }
    ensures others { (other : List ℕ) → other ≢ codes "server" → shelf_slot shelf.new other ≡ shelf_slot shelf.old other }
{
    let Some(held) = link.into_held() else {
        return Ok(());
    };
    let key = "server".to_string(alloc)?;
    shelf.put(key, disk_of(held))
}

fn disk_of(held: Held) -> MemDisk
    ensures { result ≡ held_disk held }
{
    match held {
        Held::Open(server) => server.close(),
        Held::Broken(disk) => disk,
    }
}
