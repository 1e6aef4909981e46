// Serving the store of a name.
ghost use Rattle.std.specs.Prelude.{◌≡◌, ℕ, List};
ghost use Rattle.sn_io.specs.Causes.{Rose};
ghost use Rattle.sn_serve.specs.Serving.{ServeEnds, handed};

use crate::ends::Served;
use crate::listening::serve_disk;
use sn_disk::{Disk, Shelf};
use sn_io::{Failed, Seeds, Sink};
use sn_items::Words;
use sn_net::{Clock, Port};
use std::alloc::Global;

/// Serves the store of this name at the port of this number, where 0 has the system choose one, until so many requests
/// are served. Once it listens, the line `listening` with the number is written to `out`. A connection counts for each
/// of its answers, or for one where it has none. The server's secret is drawn of one seed. The disk is given back.
pub fn serve<S: Shelf, P: Port, O: Sink, C: Clock, R: Seeds>(
    alloc: Global,
    store: &str,
    number: u16,
    requests: u64,
    shelf: &mut S,
    port: &mut P,
    out: &mut O,
    clock: &mut C,
    seeds: &mut R,
) -> Served
    ensures ends { ServeEnds ⟦<S::D as Disk>⟧ S.told S.slot S.fault_count P.goes P.bound O.held C.given R.given store.now number requests
        (handed shelf.old port.old out.old clock.old seeds.old) (handed shelf.new port.new out.new clock.new seeds.new) result }
    ensures port { result ≡ Served.PortFault → Rose (P.fault_count port.old) (P.fault_count port.new) }
    ensures write { result ≡ Served.WriteFault → Rose (O.fault_count out.old) (O.fault_count out.new) }
{
    let disk = match shelf.take(store) {
        Ok(disk) => disk,
        Err(Failed) => return Served::DiskFault,
    };
    let words = Words::from_seed(seeds.draw());
    let (disk, served) = serve_disk(alloc, disk, words, number, requests, port, out, clock);
    shelf.give(store, disk);
    served
}
