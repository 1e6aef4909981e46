//! What is seen of a call.

ghost use Rattle.std.specs.Prelude.{◌≡◌, ◌≢◌, ◌++◌, ℕ, List, IfOk, None, OnOk, Option, Some, false};
ghost use Rattle.sn_course.specs.Stages.{names_with};
ghost use Rattle.sn_replay.specs.Keeping.{kept_all, puts_of, requests_of};
ghost use Rattle.sn_replay.specs.Mirrored.{mirrored};
ghost use Rattle.sn_report.specs.Labels.{labels_of};
ghost use Rattle.sn_row_map.specs.RowMaps.{row_in};
ghost use Rattle.sn_string.specs.declared.params.KeySet.{KeySet};
ghost use Rattle.sn_telling.specs.Walking.{SaysWalk, requests_in};

use crate::labelled::add_labels;
use crate::mirrors::Mirrors;
use crate::names::add_name;
use crate::replaying::Seen;
use sn_laws::Move;
use sn_recorder::Exchanged;
use sn_row_map::RowMap;
use sn_rows::Change;
use sn_string::{OwnedList, Text};
use sn_telling::{Calling, Told, call_moves};
use std::alloc::{AllocError, Global};

/// The moves of a call of this device, by its batches and its exchanges. What is seen behind it are its rows and the server's, its labels, the
/// device's name, and its requests with the sets that they would begin.
pub(crate) fn see(
    alloc: Global,
    seen: &mut Seen,
    name: &Text,
    calling: &Calling,
    batches: OwnedList<OwnedList<Change>>,
    exchanged: OwnedList<Exchanged>,
) -> Result<OwnedList<Move>, AllocError>
    ensures told { IfOk result (λ moves. (begun : List (Option KeySet))
        × SaysWalk calling.now name.now (row_in seen.old.server) (mirrored seen.old.devices name.now) false None batches exchanged moves begun
        (row_in seen.new.server) (mirrored seen.new.devices name.now)
        × (requests_of seen.new.requests name.now ≡ requests_of seen.old.requests name.now ++ kept_all (requests_in exchanged) begun)) }
    ensures others { (other : List ℕ) → other ≢ name.now → mirrored seen.new.devices other ≡ mirrored seen.old.devices other }
    ensures labels { IfOk result (λ moves. seen.new.labels ≡ labels_of (puts_of calling.now) seen.old.labels moves) }
    ensures names { OnOk result (seen.new.names ≡ names_with seen.old.names (Some name.now)) }
    ensures requests { (other : List ℕ) → other ≢ name.now → requests_of seen.new.requests other ≡ requests_of seen.old.requests other }
{
    let Told {
        moves,
        requests,
        begun,
    } = told_of(
        alloc,
        &mut seen.server,
        &mut seen.devices,
        name,
        calling,
        batches,
        exchanged,
    )?;
    add_labels(&mut seen.labels, puts(calling), moves.as_slice())?;
    add_name(alloc, &mut seen.names, name)?;
    seen.requests.add(name.as_str(), requests, begun)?;
    Ok(moves)
}

// Its moves and its requests, and the rows of both ends behind it.
fn told_of(
    alloc: Global,
    server: &mut RowMap,
    devices: &mut Mirrors,
    name: &Text,
    calling: &Calling,
    batches: OwnedList<OwnedList<Change>>,
    exchanged: OwnedList<Exchanged>,
) -> Result<Told, AllocError>
    ensures told { IfOk result (λ told. SaysWalk calling.now name.now (row_in server.old) (mirrored devices.old name.now) false None batches exchanged
        told.moves told.begun (row_in server.new) (mirrored devices.new name.now)) }
    ensures requests { IfOk result (λ told. told.requests ≡ requests_in exchanged) }
    ensures others { (other : List ℕ) → other ≢ name.now → mirrored devices.new other ≡ mirrored devices.old other }
{
    let mut rows = devices.take(name.as_str());
    let told = call_moves(alloc, server, &mut rows, name, calling, batches, exchanged)?;
    devices.put(name.as_str(), rows)?;
    Ok(told)
}

/// Whether the call puts a new item.
pub(crate) fn puts(calling: &Calling) -> bool
    ensures { result ≡ puts_of calling.now }
{
    match calling {
        Calling::Put { .. } => true,
        Calling::Register { .. }
        | Calling::SignIn { .. }
        | Calling::Edit { .. }
        | Calling::Delete
        | Calling::Sync
        | Calling::Passwd => false,
    }
}
