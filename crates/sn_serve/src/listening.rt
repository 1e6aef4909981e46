// A loaded server at its port.
ghost use Rattle.std.specs.Prelude.{◌≡◌, ◌≤◌, ◌++◌, ◌∷◌, [], List, ℕ, OnOk, IsErrOf};
ghost use Rattle.std.specs.Fmt.{decimal};
ghost use Rattle.std.specs.Io.KnownBytes.{Appends};
ghost use Rattle.sn_io.specs.Causes.{Rose, CountsFailure};
ghost use Rattle.sn_io.specs.Streams.{TakesPart};
ghost use Rattle.sn_rows.specs.declared.change.Change.{Change};
ghost use Rattle.sn_server.specs.Loads.{kept_of, secret_of};
ghost use Rattle.sn_server.specs.Stores.{server_disk, server_rows};
ghost use Rattle.sn_account.specs.Sound.{IsSound};
ghost use Rattle.sn_serve.specs.Listening.{listening_line, outside, served_so, ListenEnds, DiskEnds};
ghost use Rattle.sn_serve.specs.Standing.{DiskStands, EachStands};

use crate::ends::{HostEnd, Served, served_of};
use crate::hosting::host;
use sn_disk::Disk;
use sn_io::{Sink, write_all};
use sn_items::Words;
use sn_net::{Clock, Port};
use sn_server::Server;
use std::alloc::Global;

/// Loads the disk's server and serves it. Gives the disk back.
pub(crate) fn serve_disk<D: Disk, P: Port, O: Sink, C: Clock>(
    alloc: Global,
    disk: D,
    words: Words,
    number: u16,
    requests: u64,
    port: &mut P,
    out: &mut O,
    clock: &mut C,
) -> (D, Served)
    ensures ends { DiskEnds ⟦<D as Disk>⟧ P.goes P.bound O.held C.given number requests (outside port.old out.old clock.old) (outside port.new out.new clock.new) disk words result.0 result.1 }
    ensures stands { D.told → (batches : List (List Change)) → EachStands ⟦<D as Disk>⟧ disk batches → DiskStands ⟦<D as Disk>⟧ (kept_of batches) (secret_of words) result.0 result.1 }
    ensures disk { result.1 ≡ Served.DiskFault → Rose (D.fault_count disk) (D.fault_count result.0) }
    ensures port { result.1 ≡ Served.PortFault → Rose (P.fault_count port.old) (P.fault_count port.new) }
    ensures write { result.1 ≡ Served.WriteFault → Rose (O.fault_count out.old) (O.fault_count out.new) }
    ensures grows { D.grows disk result.0 }
{
    let mut words = words;
    match Server::load(alloc, disk, &mut words) {
        Ok(server) => listen(alloc, server, number, requests, port, out, clock),
        Err(refusal) => (refusal.0, served_of(refusal.1)),
    }
}

// Binds the port, tells its number, and serves the connections that come.
fn listen<D: Disk, P: Port, O: Sink, C: Clock>(
    alloc: Global,
    server: Server<D>,
    number: u16,
    requests: u64,
    port: &mut P,
    out: &mut O,
    clock: &mut C,
) -> (D, Served)
    requires sound { IsSound (server_rows server) }
    ensures ends { ListenEnds ⟦<D as Disk>⟧ P.goes P.bound O.held C.given number requests (outside port.old out.old clock.old) (outside port.new out.new clock.new) server result.0 result.1 }
    ensures disk { result.1 ≡ Served.DiskFault → Rose (D.fault_count (server_disk server)) (D.fault_count result.0) }
    ensures port { result.1 ≡ Served.PortFault → Rose (P.fault_count port.old) (P.fault_count port.new) }
    ensures write { result.1 ≡ Served.WriteFault → Rose (O.fault_count out.old) (O.fault_count out.new) }
    ensures grows { D.grows (server_disk server) result.0 }
{
    let Ok(()) = port.bind(number) else {
        return (server.close(), Served::PortFault);
    };
    match tell_number(alloc, port.number(), out) {
        Ok(()) => {
            let (disk, end) = host(server, port, clock, requests);
            (disk, served_so(end))
        }
        Err(Untold::WriteFault) => (server.close(), Served::WriteFault),
        Err(Untold::Memory) => (server.close(), Served::Memory),
    }
}

fn served_so(end: HostEnd) -> Served
    ensures { result ≡ served_so end }
{
    match end {
        HostEnd::Reached => Served::Reached,
        HostEnd::PortFault => Served::PortFault,
        HostEnd::DiskFault => Served::DiskFault,
        HostEnd::Memory => Served::Memory,
    }
}

// Why the number wasn't told.
#[derive(Clone, Copy, Debug, PartialEq, Eq)]
pub(crate) enum Untold {
    WriteFault,
    Memory,
}

fn tell_number<O: Sink>(alloc: Global, number: u16, out: &mut O) -> Result<(), Untold>
    ensures told { OnOk result (Appends (O.held out.old) (O.held out.new) (listening_line number)) }
    ensures part { IsErrOf result Untold.WriteFault → TakesPart (O.held out.old) (O.held out.new) (listening_line number) × Rose (O.fault_count out.old) (O.fault_count out.new) }
    ensures none { IsErrOf result Untold.Memory → out.new ≡ out.old }
{
    let Ok(line) = format!(in alloc; "listening {number}\n") else {
        return Err(Untold::Memory);
    };
    match write_all(out, line.as_bytes()) {
        Ok(()) => Ok(()),
        Err(_) => Err(Untold::WriteFault),
    }
}
