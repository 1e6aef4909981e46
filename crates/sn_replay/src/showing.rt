//! The event of a line that shows both ends.

ghost use Rattle.std.specs.Prelude.{IfOk};
ghost use Rattle.sn_course.specs.Stages.{Stage};
ghost use Rattle.sn_laws.specs.Lookups.{Bytes};
ghost use Rattle.sn_replay.specs.Lines.{reported_at};
ghost use Rattle.sn_replay.specs.Playing.{IsAt, Tells};
ghost use Rattle.sn_script.specs.declared.script.Line.TheVariants as line;
ghost use Rattle.sn_script.specs.declared.script.Script.{Script};

use crate::replaying::{LineTold, Replaying};
use crate::settings::Moment;
use sn_report::{Event, Last};
use sn_shown::laws::states_regular;
use sn_shown::show;
use sn_string::OwnedList;
use sn_tail::slots_grow;
use std::alloc::{AllocError, Global};

/// A line that shows what both ends hold. Nothing is done.
pub(crate) fn show_line(
    alloc: Global,
    replaying: Replaying,
    at: &Moment,
) -> Result<LineTold, AllocError>
    ensures { (script : Script) (secret : Bytes) (c : Stage) → IsAt script secret replaying c
        → IfOk result (Tells script secret replaying c (reported_at at.now line.Show)) }
{
    states_regular();
    slots_grow();
    let seen = &replaying.seen;
    let names = seen.names.as_slice();
    let shown = show(alloc, &seen.labels, names, &seen.server, &seen.devices)?;
    let server_mark = replaying.ends.server_mark();
    Ok(LineTold {
        replaying,
        event: Event {
            number: at.number,
            puts: false,
            moves: OwnedList::new(alloc),
            shown,
            last: Last::Done,
            server_mark,
            device_mark: None,
        },
    })
}
