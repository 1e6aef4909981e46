// `serve`.
ghost use Rattle.std.specs.Prelude.{◌≡◌};
ghost use Rattle.sn_io.specs.Causes.{Rose};
ghost use Rattle.sn_serve.specs.Serving.{handed};
ghost use Rattle.sn_command.specs.Commands.{serve_line};
ghost use Rattle.sn_cli.specs.Runs.{Serves, status_of_end};

use sn_command::ServeOptions;
use sn_disk::{Disk, Shelf};
use sn_io::{Seeds, Sink};
use sn_net::{Clock, Port};
use sn_serve::{Served, serve};
use sn_status::{Status, Unfit};
use std::alloc::Global;

/// Serves the store at the port until so many requests are served.
pub fn serve_store<S: Shelf, P: Port, O: Sink, C: Clock, R: Seeds>(
    alloc: Global,
    options: &ServeOptions,
    shelf: &mut S,
    port: &mut P,
    out: &mut O,
    clock: &mut C,
    seeds: &mut R,
) -> Status
    ensures ran { Serves ⟦<S::D as Disk>⟧ S.told S.slot S.fault_count P.goes P.bound O.held C.given R.given
        (handed shelf.old port.old out.old clock.old seeds.old) (handed shelf.new port.new out.new clock.new seeds.new) (serve_line options.now) result }
    ensures link { result ≡ Status.LinkFault → Rose (P.fault_count port.old) (P.fault_count port.new) }
    ensures write { result ≡ Status.WriteFault → Rose (O.fault_count out.old) (O.fault_count out.new) }
{
    let served = serve(
        alloc,
        options.store,
        options.port,
        options.requests,
        shelf,
        port,
        out,
        clock,
        seeds,
    );
    status_of(served)
}

fn status_of(served: Served) -> Status
    ensures { result ≡ status_of_end served }
{
    match served {
        Served::Reached => Status::Done,
        Served::DiskFault => Status::DiskFault,
        Served::PortFault => Status::LinkFault,
        Served::WriteFault => Status::WriteFault,
        Served::Foreign { place } => Status::Foreign(Unfit::Foreign { place }),
        Served::Damaged { place } => Status::Foreign(Unfit::Damaged { place }),
        Served::Rows { kind } => Status::Foreign(Unfit::Rows { kind }),
        Served::Memory => Status::Memory,
    }
}
