//! A call of a device: the parts of the ends that it is made with, and how they are put back.

ghost use Rattle.std.specs.Prelude.{◌≡◌, ◌↔◌, IfOk, IsTrue, OnOk, Some};
ghost use Rattle.sn_client.specs.Calls.{IfStands, IsOpen};
ghost use Rattle.sn_events.specs.Answers.{IsAnswered, IsWant};
ghost use Rattle.sn_events.specs.Calling.{IsOpenHeld, IsPutBack, IsReady, IsRecording, IsServerBack};
ghost use Rattle.sn_events.specs.Steadies.{IsSteady};
ghost use Rattle.sn_events.specs.declared.steady.Holding.TheVariants as held;
ghost use Rattle.sn_link.specs.Deliveries.{IsSoundHeld};
ghost use Rattle.sn_link.specs.Links.{link_held};

use crate::devices::Devices;
use crate::ends::Ends;
use crate::marks::device_tail;
use crate::outcome::Outcome;
use crate::setting::Setting;
use sn_client::{Called, Device};
use sn_device::ClientError;
use sn_disk::MemDisk;
use sn_link::{Held, Losses, ServingLink};
use sn_net::Link;
use sn_recorder::{Exchanged, Recorded, RecordingLink};
use sn_string::OwnedList;
use sn_tail::Tail;
use std::alloc::{AllocError, Global};

/// The host that devices ask. The link goes to its server, whatever host is named.
const HOST: &str = "replay:0";

/// A device that is taken out, with its place, and the link that it asks.
#[derive(Drop)]
pub struct Calling {
    pub(crate) alloc: Global,
    pub(crate) link: RecordingLink,
    pub(crate) devices: Devices,
    pub(crate) device: Device<MemDisk>,
    pub(crate) place: u64,
}

impl Ends {
    /// Takes the device of a name out, for a call with this setting.
    pub(crate) fn calling(self, setting: Setting, name: &str) -> Result<Calling, AllocError>
        ensures { IfOk result (IsReady self setting name.now) }
    {
        let Ends {
            alloc,
            link,
            place,
            mut devices,
        } = self;
        let link = recording(alloc, link, place, setting)?;
        let (device, place) = devices.take(name)?;
        Ok(Calling {
            alloc,
            link,
            devices,
            device,
            place,
        })
    }
}

// A link of its own to the link's server, set and aimed, which hasn't failed yet; what is asked over it is recorded.
fn recording(
    alloc: Global,
    link: ServingLink,
    place: u64,
    setting: Setting,
) -> Result<RecordingLink, AllocError>
    ensures { IfOk result (IsRecording link place setting) }
{
    let Some(held) = link.into_held() else {
        return Err(AllocError);
    };
    let mut link = ServingLink::new(held, setting.now, setting.losses);
    let Ok(()) = link.aim(alloc, HOST) else {
        return Err(AllocError);
    };
    Ok(RecordingLink::new(alloc, link, place))
}

/// Puts the server and the device back behind a call, and reads what the device's store gained. Where memory was wanting, also on a
/// disk, there are no ends.
pub(crate) fn put_back<T: Drop>(
    alloc: Global,
    link: RecordingLink,
    mut devices: Devices,
    place: u64,
    name: &str,
    called: Called<Device<MemDisk>, MemDisk, T>,
) -> Result<Outcome<T>, AllocError>
    requires { IfStands called IsSteady }
    ensures { IfOk result (IsPutBack held.Device IsOpen link devices place name.now called) }
{
    let (link, server_place, exchanged) = served(link)?;
    let (device, answer) = answered(called)?;
    let Tail { batches, gate } = device_tail(alloc, &device, place)?;
    devices.put(name, device, gate)?;
    let ends = Ends {
        alloc,
        link,
        place: server_place,
        devices,
    };
    Ok(Outcome {
        ends,
        answer,
        batches,
        exchanged,
    })
}

// The link to its server again, which is open, the place behind the batches, and what was recorded.
pub(crate) fn served(
    link: RecordingLink,
) -> Result<(ServingLink, u64, OwnedList<Exchanged>), AllocError>
    ensures { IfOk result (λ parts. IsServerBack link parts.0 parts.1 × (parts.2 ≡ link.exchanged)) }
{
    let Some(
        Recorded {
            link,
            place,
            exchanged,
        },
    ) = link.into_recorded()
    else {
        return Err(AllocError);
    };
    let Some(held) = link.into_held() else {
        return Err(AllocError);
    };
    Ok((linked(held)?, place, exchanged))
}

// A link to a server that is open.
fn linked(held: Held) -> Result<ServingLink, AllocError>
    requires { IsSoundHeld held }
    ensures held { IfOk result (λ link. link_held link ≡ Some held) }
    ensures open { OnOk result (IsOpenHeld (Some held)) }
{
    match held {
        Held::Open(server) => Ok(ServingLink::new(Held::Open(server), 0, Losses::none())),
        Held::Broken(_) => Err(AllocError),
    }
}

// The device of a call that ended in no want of memory, and what it gave.
fn answered<T: Drop>(
    called: Called<Device<MemDisk>, MemDisk, T>,
) -> Result<(Device<MemDisk>, Result<T, ClientError>), AllocError>
    requires { IfStands called IsSteady }
    ensures gives { IfOk result (λ ended. IsAnswered called ended.0 ended.1) }
    ensures steady { IfOk result (λ ended. IsSteady ended.0) }
{
    match called {
        Called::Done(device, given) => Ok((device, Ok(given))),
        Called::Refused(device, why) => {
            if is_want(&why) {
                return Err(AllocError);
            }
            Ok((device, Err(why)))
        }
        Called::Broken(_) => Err(AllocError),
    }
}

// Whether memory was wanting, on the device or at the server.
fn is_want(why: &ClientError) -> bool
    ensures { IsTrue result ↔ IsWant why.now }
{
    matches!(
        why,
        ClientError::Memory | ClientError::Refused { status: 503, .. }
    )
}
