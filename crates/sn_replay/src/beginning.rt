//! Both ends before the first event.

ghost use Rattle.std.specs.Prelude.{IfOk};
ghost use Rattle.sn_course.specs.Settings.{words_of};
ghost use Rattle.sn_replay.specs.Playing.{BeginsReplay};

use crate::kept::Requests;
use crate::mirrors::Mirrors;
use crate::replaying::{Replaying, Seen};
use crate::settings::{Moment, line_words};
use sn_device::steps_stay_sound;
use sn_events::{Begun, Ends};
use sn_lines::{all_fit_first, each_fits};
use sn_report::Labels;
use sn_row_map::RowMap;
use sn_string::OwnedList;
use sn_world::holds_first;
use std::alloc::{AllocError, Global};

/// A fresh server, which draws its secret from the words of the first line that reports, and no device.
pub(crate) fn begin(alloc: Global, at: &Moment) -> Result<Replaying, AllocError>
    ensures { IfOk result (BeginsReplay (words_of at.now.settings at.now.number)) }
{
    holds_first();
    all_fit_first();
    each_fits();
    steps_stay_sound();
    let mut words = line_words(at);
    let Begun { ends, changes } = Ends::begin(alloc, &mut words)?;
    let mut server = RowMap::new(alloc);
    server.add_all(changes.into_vec())?;
    let seen = Seen {
        labels: Labels::new(alloc),
        names: OwnedList::new(alloc),
        server,
        devices: Mirrors::new(alloc),
        requests: Requests::new(alloc),
    };
    Ok(Replaying { ends, seen })
}
