// What the store of a link's server has gained, and copies of what was exchanged.
ghost use Rattle.std.specs.Prelude.{◌≡◌, ◌++◌, List, IfOk, IfSome};
ghost use Rattle.sn_journal.specs.declared.owner.Owner.TheVariants.{Server as ServerOwner};
ghost use Rattle.sn_link.specs.Links.{link_held};
ghost use Rattle.sn_net.specs.Exchanges.{answer_of};
ghost use Rattle.sn_recorder.specs.Recorded.{HasGained};
ghost use Rattle.sn_rows.specs.declared.change.Change.{Change};
ghost use Rattle.sn_server.specs.Stores.{IsOpen, Kept};
ghost use Rattle.sn_tail.specs.Places.{place_behind};

use crate::standing::server_stands;
use sn_disk::MemDisk;
use sn_journal::Owner;
use sn_link::{Held, ServingLink};
use sn_net::AskError;
use sn_server::Server;
use sn_string::OwnedList;
use sn_tail::{Tail, tail_of};
use std::alloc::{AllocError, Global};

/// The batches that the store of a link's server has behind a place. There are none where memory is wanting, or where the server
/// isn't open.
pub(crate) fn gained(alloc: Global, link: &ServingLink, place: u64) -> Option<Tail>
    ensures { IfSome result (λ tail. HasGained (link_held link.entry.now) place tail.batches tail.gate) }
{
    match link.held() {
        Some(Held::Open(server)) => gained_by(alloc, server, place),
        Some(Held::Broken(_)) => None,
        None => None,
    }
}

// Those that the server has.
fn gained_by(alloc: Global, server: &Server<MemDisk>, place: u64) -> Option<Tail>
    ensures { IfSome result (λ tail. (kept : Kept) (before later : List (List Change)) → IsOpen server.now kept → kept.batches ≡ before ++ later
        → place ≡ place_behind ServerOwner before → (tail.batches ≡ later) × (tail.gate ≡ place_behind ServerOwner kept.batches)) }
{
    server_stands(server);
    match tail_of(alloc, Owner::Server, server.disk(), place) {
        Ok(tail) => Some(tail),
        Err(_) => None,
    }
}

/// A copy of these bytes.
pub(crate) fn copy_of(alloc: Global, bytes: &[u8]) -> Result<OwnedList<u8>, AllocError>
    ensures { IfOk result (λ copy. copy ≡ bytes.now) }
{
    let copy = bytes.to_vec(alloc)?;
    Ok(OwnedList::of_vec(copy))
}

/// A copy of the answer that came, where one came.
pub(crate) fn answer_copy(
    alloc: Global,
    heard: &Result<Vec<u8>, AskError>,
) -> Result<Option<OwnedList<u8>>, AllocError>
    ensures { IfOk result (λ copy. copy ≡ answer_of heard.now) }
{
    match heard {
        Ok(answer) => {
            let copy = copy_of(alloc, answer.as_slice())?;
            Ok(Some(copy))
        }
        Err(_) => Ok(None),
    }
}
