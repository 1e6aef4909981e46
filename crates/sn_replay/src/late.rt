//! The event of a line that delivers a request late or again.

ghost use Rattle.std.specs.Prelude.{◌≡◌, ℕ, List, IfErr, IfOk, OnOk, Option};
ghost use Rattle.sn_course.specs.Stages.{Stage};
ghost use Rattle.sn_laws.specs.Lookups.{Bytes};
ghost use Rattle.sn_replay.specs.Lines.{IsRefusalAt, reported_at};
ghost use Rattle.sn_replay.specs.Mirrored.{mirrored};
ghost use Rattle.sn_replay.specs.Playing.{IsAt, Tells};
ghost use Rattle.sn_script.specs.declared.script.Line.TheVariants as line;
ghost use Rattle.sn_row_map.specs.RowMaps.{row_in};
ghost use Rattle.sn_script.specs.declared.script.Script.{Script};
ghost use Rattle.sn_telling.specs.Walking.{IsReadAs, SaysGained, rows_behind_all};
ghost use Rattle.sn_telling.specs.declared.known.Known.{Known};
ghost use Rattle.sn_world.specs.Holds.{TokensDiffer};

use crate::error::ReplayError;
use crate::kept::Kept;
use crate::labelled::add_labels;
use crate::mirrors::Mirrors;
use crate::replaying::{LineTold, Replaying, Seen};
use crate::settings::Moment;
use sn_device::steps_stay_sound;
use sn_events::Again;
use sn_laws::Move;
use sn_lines::each_fits;
use sn_report::{Event, Last};
use sn_row_map::RowMap;
use sn_rows::Change;
use sn_script::Ordinal;
use sn_string::{OwnedList, Text};
use sn_telling::{agains_tell, late_moves};
use sn_world::{keeps, keeps_held};
use std::alloc::{AllocError, Global};

/// A line that delivers a request of a device once more. No device hears the answer.
pub(crate) fn late_line(
    alloc: Global,
    replaying: Replaying,
    at: &Moment,
    device: &Text,
    which: Ordinal,
) -> Result<LineTold, ReplayError>
    ensures told { (script : Script) (secret : Bytes) (c : Stage) → TokensDiffer secret → IsAt script secret replaying c
        → IfOk result (Tells script secret replaying c (reported_at at.now (line.Late device.now which))) }
    ensures refused { (script : Script) (secret : Bytes) (c : Stage) → IsAt script secret replaying c
        → IfErr result (IsRefusalAt at.now.number c (line.Late device.now which)) }
{
    agains_tell();
    each_fits();
    keeps();
    keeps_held();
    steps_stay_sound();
    let Replaying { ends, seen } = replaying;
    let Seen {
        mut labels,
        names,
        mut server,
        mut devices,
        requests,
    } = seen;
    let Some(kept) = requests.nth(device.as_str(), which) else {
        return Err(ReplayError::NotAllowed { number: at.number });
    };
    let Again {
        ends,
        status,
        batches,
    } = ends.again(at.settings.clock, kept.request.as_slice())?;
    let moves = moves_of(alloc, &mut server, &mut devices, device, kept, batches)?;
    add_labels(&mut labels, false, moves.as_slice())?;
    let server_mark = ends.server_mark();
    let seen = Seen {
        labels,
        names,
        server,
        devices,
        requests,
    };
    Ok(LineTold {
        replaying: Replaying { ends, seen },
        event: Event {
            number: at.number,
            puts: false,
            moves,
            shown: OwnedList::new(alloc),
            last: Last::Answer { status },
            server_mark,
            device_mark: None,
        },
    })
}

// The moves of a request that came once more, by the rows that its device has now, and the server's rows behind it.
fn moves_of(
    alloc: Global,
    server: &mut RowMap,
    devices: &mut Mirrors,
    device: &Text,
    kept: &Kept,
    batches: OwnedList<OwnedList<Change>>,
) -> Result<OwnedList<Move>, AllocError>
    ensures moves { IfOk result (λ moves. (found : Option Known) × IsReadAs kept.now.request found
        × SaysGained (row_in server.old) (mirrored devices.old device.now) device.now kept.now.begins found batches moves) }
    ensures server { OnOk result (row_in server.new ≡ rows_behind_all (row_in server.old) batches) }
    ensures devices { OnOk result ((name : List ℕ) → mirrored devices.new name ≡ mirrored devices.old name) }
{
    let rows = devices.take(device.as_str());
    let request = kept.request.as_slice();
    let moves = late_moves(
        alloc,
        server,
        &rows,
        device,
        request,
        kept.begins.as_ref(),
        batches,
    )?;
    devices.put(device.as_str(), rows)?;
    Ok(moves)
}
