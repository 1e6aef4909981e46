//! How a replay goes on as the records of the disks grow. The functions call laws of the crates below and do nothing else; their
//! contracts are the laws.

ghost use Rattle.sn_course.specs.Laws.{CarriedOfMoves, GoesMore, MovesMore, RecountsGo, RecountsGrow, RecountsMore, ReportingMore};

use sn_finished::finished_carries;
use sn_laws::kept_laws::edits_kept;
use sn_laws::laws::{follows_last, keeps_versions, prefixes_legal, rewraps_last};
use sn_laws::state_laws::{
    carries_two, devices_hold, identifiers_differ, nonces_differ, posted_once, rewrapped_once,
};
use sn_tail::reads_then;

/// What was recounted stays so as the records grow.
pub fn recounts_grow()
    ensures { RecountsGrow }
{
    reads_then();
}

/// One more event goes on where the earlier ones led.
pub fn recounts_more()
    ensures { RecountsMore }
{}

/// What is recounted goes on so, whatever the disks hold.
pub fn recounts_go()
    ensures { RecountsGo }
{}

/// One more event goes on where the earlier ones led, whatever the disks hold.
pub fn goes_more()
    ensures { GoesMore }
{}

/// One more line reports after the earlier ones.
pub fn reporting_more()
    ensures { ReportingMore }
{}

/// The moves of events, with those of one more.
pub fn moves_more()
    ensures { MovesMore }
{}

/// Legal moves carry what is said of them.
pub fn carried_of_moves()
    ensures { CarriedOfMoves }
{
    keeps_versions();
    prefixes_legal();
    follows_last();
    rewraps_last();
    edits_kept();
    carries_two();
    devices_hold();
    finished_carries();
    posted_once();
    rewrapped_once();
    identifiers_differ();
    nonces_differ();
}
