// Bytes that are delivered to a server in memory, as one connection of its own.
ghost use Rattle.std.specs.Prelude.{ℕ, List, Option};
ghost use Rattle.sn_account.specs.Sound.{IsSound};
ghost use Rattle.sn_disk.specs.MemDisk.{Grows};
ghost use Rattle.sn_server.specs.Stores.{IsOpen, Kept, server_disk, server_rows};
ghost use Rattle.sn_link.specs.Deliveries.{Delivers, HandsOver, Holds, IsHandedOver, IsSoundHeld, Reaches, Standing, given_by, held_disk};

use crate::clock::StillClock;
use sn_disk::MemDisk;
use sn_io::{MemSink, MemSource};
use sn_net::AskError;
use sn_server::{Ended, Server, Session};
use std::alloc::Global;

/// How many bytes the server reads or writes at a time.
const PIECE: usize = 4096;

/// A server, as a link holds it.
#[derive(Drop)]
pub enum Held {
    Open(Server<MemDisk>),
    /// Its disk alone, which failed in a commit and is to be loaded again.
    Broken(MemDisk),
}

/// What becomes of bytes that are delivered at a moment. Nothing is answered where the disk has failed.
pub(crate) fn delivered(
    alloc: Global,
    held: Held,
    now: u64,
    request: &[u8],
) -> (Held, Result<Vec<u8>, AskError>)
    requires sound { IsSoundHeld held }
    ensures reaches { (was : Standing) → Holds held was → (next : Standing) × Holds result.0 next × Reaches now was request.now next result.1 }
    ensures sound { IsSoundHeld result.0 }
    ensures grows { Grows (held_disk held) (held_disk result.0) }
{
    match held {
        Held::Open(server) => served(alloc, server, now, request),
        Held::Broken(disk) => (Held::Broken(disk), Err(AskError::Failed)),
    }
}

// The same at an open server.
fn served(
    alloc: Global,
    server: Server<MemDisk>,
    now: u64,
    request: &[u8],
) -> (Held, Result<Vec<u8>, AskError>)
    requires sound { IsSound (server_rows server) }
    ensures delivers { (kept : Kept) → IsOpen server kept → (next : Standing) × Holds result.0 next
        × ((given : Option (List ℕ)) × Delivers now kept request.now given next × IsHandedOver given next result.1) }
    ensures sound { IsSoundHeld result.0 }
    ensures grows { Grows (server_disk server) (held_disk result.0) }
{
    match request.to_vec(alloc) {
        Ok(input) => answered(alloc, server, now, input),
        Err(_) => (Held::Open(server), Err(AskError::Memory)),
    }
}

// The same, with the input of its connection, at which one message is served.
fn answered(
    alloc: Global,
    server: Server<MemDisk>,
    now: u64,
    input: Vec<u8>,
) -> (Held, Result<Vec<u8>, AskError>)
    requires sound { IsSound (server_rows server) }
    ensures delivers { (kept : Kept) → IsOpen server kept → (next : Standing) × Holds result.0 next
        × ((given : Option (List ℕ)) × Delivers now kept input.items given next × IsHandedOver given next result.1) }
    ensures sound { IsSoundHeld result.0 }
    ensures grows { Grows (server_disk server) (held_disk result.0) }
{
    let mut source = MemSource::new(input, PIECE, Vec::new(alloc));
    let mut sink = MemSink::new(alloc, PIECE, Vec::new(alloc));
    let mut clock = StillClock::at(now);
    match server.session(&mut source, &mut sink, &mut clock, 1) {
        Session::Over(server, ended, _) => (
            Held::Open(server),
            answer_of(alloc, ended, sink.bytes()),
        ),
        Session::Broken(disk) => (Held::Broken(disk), Err(AskError::Failed)),
    }
}

// The answer of a session, where one was written whole. A source in memory doesn't fail, and a sink in memory only for want of
// memory.
fn answer_of(alloc: Global, ended: Ended, written: &[u8]) -> Result<Vec<u8>, AskError>
    ensures { HandsOver (given_by ended written.now) result }
{
    match ended {
        Ended::End | Ended::Broken { .. } | Ended::Budget => copied(alloc, written),
        Ended::ReadFault | Ended::WriteFault | Ended::Memory => Err(AskError::Memory),
    }
}

fn copied(alloc: Global, written: &[u8]) -> Result<Vec<u8>, AskError>
    ensures { HandsOver (Option.Some written.now) result }
{
    let copy = written.to_vec(alloc)?;
    Ok(copy)
}
