//! A device that is fit for any call.

use sn_client::Device;
use sn_disk::MemDisk;
use std::marker::Model;

/// A device on a disk in memory, and the place of the gate behind the batches of its store.
#[derive(Drop)]
pub enum Holding {
    Device(Device<MemDisk>, u64),
}

/// A device whose rows are sound, and which takes a set of each cost. A contract sees the device and its place.
#[derive(Drop)]
pub struct Steady {
    holding: Holding,
}

impl Model for Steady {
    ghost use Rattle.sn_events.specs.Steadies.{IsSteadyHeld};
    ghost use Rattle.sn_events.specs.contracts.steady.Holding.{the_row};
    ghost use Rattle.sn_events.specs.declared.steady.Holding.{Holding};

    ghost Value = { Holding };

    ghost coded = { the_row.coded };

    ghost view = { λ steady. steady.holding };

    ghost invariant = { λ steady. IsSteadyHeld steady.holding };
}

impl Steady {
    ghost use Rattle.std.specs.Prelude.{◌≡◌};
    ghost use Rattle.sn_events.specs.Growing.{held_disk, held_place};
    ghost use Rattle.sn_events.specs.Steadies.{IsSteady};
    ghost use Rattle.sn_events.specs.declared.steady.Holding.TheVariants as held;

    pub(crate) fn new(device: Device<MemDisk>, place: u64) -> Steady
        requires { IsSteady device }
        ensures { result ≡ held.Device device place }
    {
        Steady {
            holding: Holding::Device(device, place),
        }
    }

    pub(crate) fn device(&self) -> &Device<MemDisk>
        ensures { self.now ≡ held.Device result.now (held_place self.now) }
    {
        let Holding::Device(device, _) = &self.holding;
        device
    }

    pub(crate) fn into_parts(self) -> (Device<MemDisk>, u64)
        ensures is { self ≡ held.Device result.0 result.1 }
        ensures steady { IsSteady result.0 }
    {
        let Holding::Device(device, place) = self.holding;
        (device, place)
    }

    /// Its disk.
    pub(crate) fn into_disk(self) -> MemDisk
        ensures { result ≡ held_disk self }
    {
        let Holding::Device(device, _) = self.holding;
        device.close()
    }
}
