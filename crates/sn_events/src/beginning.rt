//! The ends before the first event.

ghost use Rattle.std.specs.Prelude.{◌≡◌, ◌∷◌, [], List, IfOk};
ghost use Rattle.sn_events.specs.Fresh.{IsFreshServer};
ghost use Rattle.sn_events.specs.Growing.{IsFreshDisk};
ghost use Rattle.sn_journal.specs.declared.owner.Owner.TheVariants.{Server as ServerOwner};
ghost use Rattle.sn_rows.specs.declared.change.Change.{Change};
ghost use Rattle.sn_server.specs.Stores.{IsOpen, Kept, server_disk};
ghost use Rattle.sn_tail.specs.Places.{place_behind};

use crate::marks::whole_tail;
use sn_disk::MemDisk;
use sn_items::Words;
use sn_rows::Change;
use sn_server::Server;
use sn_string::OwnedList;
use sn_tail::Tail;
use std::alloc::{AllocError, Global};

/// A server on a fresh disk, which draws its secret from the words.
pub(crate) fn fresh_server(alloc: Global, words: &mut Words) -> Result<Server<MemDisk>, AllocError>
    ensures fresh { IfOk result (IsFreshServer words.old words.new) }
    ensures disk { IfOk result (λ server. IsFreshDisk (server_disk server)) }
{
    let disk = MemDisk::new(alloc, Vec::new(alloc), Vec::new(alloc))?;
    match Server::load(alloc, disk, words) {
        Ok(server) => Ok(server),
        Err(_) => Err(AllocError),
    }
}

/// The changes of the one commit that a server has made, and the place of the gate behind it.
pub(crate) fn first_commit(
    alloc: Global,
    server: &Server<MemDisk>,
) -> Result<(OwnedList<Change>, u64), AllocError>
    ensures { (kept : Kept) (changes : List Change) → IsOpen server.now kept → kept.batches ≡ changes ∷ []
        → IfOk result (λ first. (first.0 ≡ changes) × (first.1 ≡ place_behind ServerOwner kept.batches)) }
{
    let Tail { batches, gate } = whole_tail(alloc, server)?;
    let mut batches = batches.into_vec();
    let Some(changes) = batches.pop() else {
        return Err(AllocError);
    };
    Ok((changes, gate))
}
