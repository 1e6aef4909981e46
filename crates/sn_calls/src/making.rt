//! A call of a loaded device.

ghost use Rattle.std.specs.Prelude.{◌≡◌};
ghost use Rattle.sn_client.specs.Calls.{IsOpen, called_disk, device_disk, device_rows};
ghost use Rattle.sn_device.specs.States.{IsSound};
ghost use Rattle.sn_io.specs.Causes.{Rose};
ghost use Rattle.sn_table.specs.Kept.{Kept};
ghost use Rattle.sn_calls.specs.Ends.{RunsCall, outside};
ghost use Rattle.sn_calls.specs.Making.{IsAimed, end_called, end_told};
ghost use Rattle.sn_calls.specs.Parts.{HasBounds, IsLinkFault, call_of, server_of};
ghost use Rattle.sn_calls.specs.declared.ends.Answered.TheVariants as answer;

use crate::device_call::DeviceCall;
use crate::ends::{Answered, CallEnd};
use sn_client::{Called, Device};
use sn_device::{ClientError, Listed};
use sn_disk::Disk;
use sn_io::Seeds;
use sn_items::Words;
use sn_net::Link;
use sn_string::OwnedList;
use uuid::Uuid;

/// Makes a call, over a link that is aimed where the call asks a server. Gives the disk back.
pub(crate) fn make<D: Disk, L: Link, R: Seeds>(
    device: Device<D>,
    call: &DeviceCall,
    link: &mut L,
    seeds: &mut R,
) -> (D, CallEnd)
    requires bounds { HasBounds (call_of call.now) }
    requires sound { IsSound (device_rows device) }
    requires opens { D.told → (kept : Kept) × IsOpen device kept }
    requires aimed { IsAimed (server_of call.now) (L.aimed link.old) }
    ensures makes { (kept : Kept) → IsOpen device kept → RunsCall ⟦<D as Disk>⟧ L.asks L.aimed R.given (call_of call.now) (server_of call.now) device.least_cost
        (outside link.old seeds.old) (outside link.new seeds.new) kept result.0 result.1 }
    ensures disk { result.1 ≡ CallEnd.DiskFault → Rose (D.fault_count (device_disk device)) (D.fault_count result.0) }
    ensures link { IsLinkFault result.1 → Rose (L.fault_count link.old) (L.fault_count link.new) }
    ensures grows { D.grows (device_disk device) result.0 }
{
    match *call {
        DeviceCall::Register {
            identifier,
            password,
            cost,
            ..
        } => {
            let mut words = Words::from_seed(seeds.draw());
            ended(device.register(link, &mut words, identifier, password, cost))
        }
        DeviceCall::SignIn {
            identifier,
            password,
            ..
        } => {
            let mut words = Words::from_seed(seeds.draw());
            ended(device.sign_in(link, &mut words, identifier, password))
        }
        DeviceCall::Put { kind, text } => {
            let mut words = Words::from_seed(seeds.draw());
            ended_with_uuid(device.put(&mut words, kind, text))
        }
        DeviceCall::Edit { uuid, text } => {
            let mut words = Words::from_seed(seeds.draw());
            ended(device.edit(&mut words, uuid, text))
        }
        DeviceCall::Delete { uuid } => ended(device.delete(uuid)),
        DeviceCall::List => {
            let end = listed(device.list());
            (device.close(), end)
        }
        DeviceCall::Content { uuid } => {
            let end = shown(device.content(uuid));
            (device.close(), end)
        }
        DeviceCall::Sync { .. } => {
            let mut words = Words::from_seed(seeds.draw());
            ended(device.sync(link, &mut words))
        }
        DeviceCall::ChangePassword { password, cost, .. } => {
            let mut words = Words::from_seed(seeds.draw());
            ended(device.passwd(link, &mut words, password, cost))
        }
    }
}

// The end of a call that gives nothing, with the disk.
fn ended<D: Disk>(called: Called<Device<D>, D, ()>) -> (D, CallEnd)
    ensures disk { result.0 ≡ called_disk device_disk called }
    ensures end { result.1 ≡ end_called (λ given. answer.Nothing) called }
{
    match called {
        Called::Done(device, ()) => (device.close(), CallEnd::Answered(Answered::Nothing)),
        Called::Refused(device, why) => (device.close(), CallEnd::Refused(why)),
        Called::Broken(disk) => (disk, CallEnd::DiskFault),
    }
}

// The end of a call that gives an item's uuid, with the disk.
fn ended_with_uuid<D: Disk>(called: Called<Device<D>, D, Uuid>) -> (D, CallEnd)
    ensures disk { result.0 ≡ called_disk device_disk called }
    ensures end { result.1 ≡ end_called answer.Uuid called }
{
    match called {
        Called::Done(device, uuid) => (device.close(), CallEnd::Answered(Answered::Uuid(uuid))),
        Called::Refused(device, why) => (device.close(), CallEnd::Refused(why)),
        Called::Broken(disk) => (disk, CallEnd::DiskFault),
    }
}

fn listed(told: Result<OwnedList<Listed>, ClientError>) -> CallEnd
    ensures { result ≡ end_told answer.Lines told }
{
    match told {
        Ok(lines) => CallEnd::Answered(Answered::Lines(lines)),
        Err(why) => CallEnd::Refused(why),
    }
}

fn shown(told: Result<String, ClientError>) -> CallEnd
    ensures { result ≡ end_told answer.Text told }
{
    match told {
        Ok(text) => CallEnd::Answered(Answered::Text(text)),
        Err(why) => CallEnd::Refused(why),
    }
}
