// Connections that are served one after another.
ghost use Rattle.std.specs.Prelude.{◌≡◌, ◌<◌, ◌≤◌};
ghost use Rattle.sn_io.specs.Causes.{Rose};
ghost use Rattle.sn_server.specs.Stores.{server_disk, server_rows};
ghost use Rattle.sn_account.specs.Sound.{IsSound};
ghost use Rattle.sn_serve.specs.Visits.{stand};
ghost use Rattle.sn_serve.specs.Hosting.{OneEnds, HostEnds, one_disk, IsNoConnection, IfLost, IfServed};

use crate::ends::HostEnd;
use sn_disk::Disk;
use sn_net::{Clock, Port};
use sn_server::{Ended, Server, Session};

// What became of one connection.
pub(crate) enum One<D: Disk> {
    /// It was served, and so much is left of the requests.
    Served(Server<D>, u64),
    /// None came.
    NoConnection(Server<D>),
    /// Memory was wanting.
    Wanting(D),
    /// The disk failed.
    Lost(D),
}

/// Serves connections until so many requests are answered, a connection without an answer counting as one. It ends
/// before where the port or the disk fails or memory is wanting. Gives the disk back.
pub(crate) fn host<D: Disk, P: Port, C: Clock>(
    server: Server<D>,
    port: &mut P,
    clock: &mut C,
    requests: u64,
) -> (D, HostEnd)
    requires sound { IsSound (server_rows server) }
    ensures ends { HostEnds (P.goes port.old port.new) (stand server (C.given clock.old) requests) (C.given clock.new) result.0 result.1 }
    ensures port { result.1 ≡ HostEnd.PortFault → Rose (P.fault_count port.old) (P.fault_count port.new) }
    ensures disk { result.1 ≡ HostEnd.DiskFault → Rose (D.fault_count (server_disk server)) (D.fault_count result.0) }
    ensures bound { P.bound port.new ≡ P.bound port.old }
    ensures grows { D.grows (server_disk server) result.0 }
    ensures later { D.fault_count (server_disk server) ≤ D.fault_count result.0 }
{
    let mut server = server;
    let mut left = requests;
    'connections: while left > 0 {
        match serve_one(server, port, clock, left) {
            One::Served(next, rest) => {
                server = next;
                left = rest;
            }
            One::NoConnection(server) => return (server.close(), HostEnd::PortFault),
            One::Wanting(disk) => return (disk, HostEnd::Memory),
            One::Lost(disk) => return (disk, HostEnd::DiskFault),
        }
    }
    (server.close(), HostEnd::Reached)
}

// Waits for a connection, serves it, and ends it.
fn serve_one<D: Disk, P: Port, C: Clock>(
    server: Server<D>,
    port: &mut P,
    clock: &mut C,
    left: u64,
) -> One<D>
    requires due { 0 < left }
    requires sound { IsSound (server_rows server) }
    ensures ends { OneEnds (P.goes port.old port.new) (stand server (C.given clock.old) left) (C.given clock.new) result }
    ensures port { IsNoConnection result → Rose (P.fault_count port.old) (P.fault_count port.new) }
    ensures later { P.fault_count port.old ≤ P.fault_count port.new }
    ensures lost { IfLost result (λ disk. Rose (D.fault_count (server_disk server)) (D.fault_count disk)) }
    ensures bound { P.bound port.new ≡ P.bound port.old }
    ensures grows { D.grows (server_disk server) (one_disk result) }
    ensures disk { D.fault_count (server_disk server) ≤ D.fault_count (one_disk result) }
    ensures sound { IfServed result (λ next. IsSound (server_rows next)) }
{
    let Ok((mut source, mut sink)) = port.accept() else {
        return One::NoConnection(server);
    };
    let session = server.session(&mut source, &mut sink, clock, left);
    port.end(source, sink);
    match session {
        Session::Over(next, ended, count) => match ended {
            Ended::Memory => One::Wanting(next.close()),
            _ => One::Served(next, left - count.max(1)),
        },
        Session::Broken(disk) => One::Lost(disk),
    }
}
