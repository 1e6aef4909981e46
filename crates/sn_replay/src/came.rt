//! What the ends gave of a call.

ghost use Rattle.std.specs.Prelude.{IfOk};
ghost use Rattle.rand_chacha.specs.ChaCha.{ChaCha};
ghost use Rattle.sn_device.specs.Runs.{Call, Given};
ghost use Rattle.sn_events.specs.Events.{CallCame};
ghost use Rattle.sn_events.specs.declared.ends.Ends.{Ends};
ghost use Rattle.sn_events.specs.declared.setting.Setting.{Setting};
ghost use Rattle.sn_laws.specs.Lookups.{Bytes};
ghost use Rattle.sn_laws.specs.declared.ideal.Ideal.{Ideal};
ghost use Rattle.sn_replay.specs.Coming.{HasCame};
ghost use Rattle.sn_world.specs.World.{World};

use crate::lasts::last_of;
use sn_events::{Ends, Outcome};
use sn_recorder::Exchanged;
use sn_report::Last;
use sn_rows::Change;
use sn_string::OwnedList;
use std::alloc::AllocError;

/// The ends behind a call, how its event ends, the batches that its device's store gained, and its exchanges.
#[derive(Drop)]
pub(crate) struct Came {
    pub(crate) ends: Ends,
    pub(crate) last: Last,
    pub(crate) batches: OwnedList<OwnedList<Change>>,
    pub(crate) exchanged: OwnedList<Exchanged>,
}

/// What the ends gave, whatever the call gives.
pub(crate) fn came_of<T: Drop>(outcome: Outcome<T>) -> Result<Came, AllocError>
    ensures { (secret : Bytes) (w : World) (s : Ideal) (name : Bytes) (call : Call) (words left : ChaCha) (setting : Setting) (gives : T → Given) (old : Ends)
        → CallCame secret w s name call words left setting gives old outcome → IfOk result (HasCame secret w s name call words setting old) }
{
    let Outcome {
        ends,
        answer,
        batches,
        exchanged,
    } = outcome;
    let last = last_of(answer)?;
    Ok(Came {
        ends,
        last,
        batches,
        exchanged,
    })
}
