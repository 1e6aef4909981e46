//! The event of a call, of whatever kind.

ghost use Rattle.std.specs.Prelude.{◌≡◌, ℕ, List, IfOk};
ghost use Rattle.rand_chacha.specs.ChaCha.{ChaCha};
ghost use Rattle.sn_device.specs.Runs.{Call, Given};
ghost use Rattle.sn_course.specs.Stages.{Stage};
ghost use Rattle.sn_course.specs.Lines.{fates_of};
ghost use Rattle.sn_course.specs.Settings.{words_of};
ghost use Rattle.sn_course.specs.declared.settings.Settings.{Settings};
ghost use Rattle.sn_events.specs.Events.{CallCame};
ghost use Rattle.sn_events.specs.Standing.{Stands};
ghost use Rattle.sn_events.specs.declared.ends.Ends.{Ends};
ghost use Rattle.sn_events.specs.declared.setting.Setting.{Setting};
ghost use Rattle.sn_laws.specs.Lookups.{Bytes};
ghost use Rattle.sn_laws.specs.Runs.{end};
ghost use Rattle.sn_laws.specs.declared.ideal.Ideal.{Ideal};
ghost use Rattle.sn_replay.specs.Coming.{HasCame, IsEventOf};
ghost use Rattle.sn_replay.specs.Keeping.{puts_of};
ghost use Rattle.sn_replay.specs.Lines.{setting_at};
ghost use Rattle.sn_replay.specs.Playing.{IsAt, IsLineOf, Tells};
ghost use Rattle.sn_script.specs.declared.script.Line.{Line};
ghost use Rattle.sn_script.specs.declared.script.Script.{Script};
ghost use Rattle.sn_world.specs.Holds.{TokensDiffer};
ghost use Rattle.sn_world.specs.World.{World};

use crate::came::{Came, came_of};
use crate::replaying::{LineTold, Replaying, Seen};
use crate::seen::{puts, see};
use sn_device::steps_stay_sound;
use sn_events::{Ends, Outcome};
use sn_laws::Move;
use sn_lines::each_fits;
use sn_report::{DeviceMark, Event, Last};
use sn_string::{OwnedList, Text, TryClone};
use sn_telling::{Calling, calls_tell};
use sn_world::{keeps, keeps_held};
use std::alloc::{AllocError, Global};

/// The event of a call of this device, by what the ends gave, whatever the call gives.
pub(crate) fn heard<T: Drop>(
    alloc: Global,
    seen: Seen,
    outcome: Result<Outcome<T>, AllocError>,
    number: u64,
    name: &Text,
    calling: Calling,
) -> Result<LineTold, AllocError>
    ensures { (script : Script) (secret : Bytes) (c : Stage) (settings : Settings) (asks : Line) (call : Call) (old : Ends) (one : Bytes) (words left : ChaCha)
        (setting : Setting) (gives : T → Given) → TokensDiffer secret
        → IsAt script secret (record { ends = old; seen = seen }) c → IsLineOf script secret c (record { number = number; settings = settings; asks = asks }) name.now call calling
        → one ≡ name.now → words ≡ words_of settings number → setting ≡ setting_at settings (fates_of asks)
        → IfOk outcome (CallCame secret c.world (end c.moves) one call words left setting gives old)
        → IfOk result (Tells script secret (record { ends = old; seen = seen }) c (record { number = number; settings = settings; asks = asks })) }
{
    match outcome {
        Ok(outcome) => told(alloc, seen, came_of(outcome)?, number, name, &calling),
        Err(error) => Err(error),
    }
}

/// The event of a call of this device, by what the ends gave of it and what was seen before.
pub(crate) fn told(
    alloc: Global,
    mut seen: Seen,
    came: Came,
    number: u64,
    name: &Text,
    calling: &Calling,
) -> Result<LineTold, AllocError>
    ensures { (script : Script) (secret : Bytes) (c : Stage) (settings : Settings) (asks : Line) (call : Call) (old : Ends) → TokensDiffer secret
        → IsAt script secret (record { ends = old; seen = seen }) c → IsLineOf script secret c (record { number = number; settings = settings; asks = asks }) name.now call calling.now
        → HasCame secret c.world (end c.moves) name.now call (words_of settings number) (setting_at settings (fates_of asks)) old came
        → IfOk result (Tells script secret (record { ends = old; seen = seen }) c (record { number = number; settings = settings; asks = asks })) }
{
    calls_tell();
    each_fits();
    keeps();
    keeps_held();
    steps_stay_sound();
    let Came {
        ends,
        last,
        batches,
        exchanged,
    } = came;
    let moves = see(alloc, &mut seen, name, calling, batches, exchanged)?;
    let event = event_of(alloc, &ends, number, name, calling, moves, last)?;
    Ok(LineTold {
        replaying: Replaying { ends, seen },
        event,
    })
}

// The event, with the present marks of the disks of both.
fn event_of(
    alloc: Global,
    ends: &Ends,
    number: u64,
    name: &Text,
    calling: &Calling,
    moves: OwnedList<Move>,
    last: Last,
) -> Result<Event, AllocError>
    ensures { (secret : Bytes) (w : World) (s : Ideal) → Stands ends.now secret w s
        → IfOk result (IsEventOf ends.now w number name.now (puts_of calling.now) moves last) }
{
    let device = name.try_clone(alloc)?;
    let mark = ends.device_mark(name.as_str());
    Ok(Event {
        number,
        puts: puts(calling),
        moves,
        shown: OwnedList::new(alloc),
        last,
        server_mark: ends.server_mark(),
        device_mark: Some(DeviceMark { name: device, mark }),
    })
}
