//! That a sync of a device that keeps a set as asked for resolves it and is answered, where no request and no
//! answer is lost, by the definitions alone. The functions call the laws of the crates below and do nothing
//! else; their contracts are the laws.

ghost use Rattle.sn_asked.specs.Asked.{AskedCounts, AskedSyncsAnswer, EveryAskedSyncAnswers, TracedAskedSyncsAnswer};
ghost use Rattle.sn_asked.specs.Resting.{AtRestFinished, FinishedStays};

use sn_laws::laws::versions_rise;
use sn_shows::server_laws::accounts_apart;
use sn_sync::laws::one_stamp;
use sn_world::{
    changed_adopts, first_fits, holds_first, keeps, keeps_committing, keeps_making, keeps_serving,
    says_some, sends_are_posted, served_tells, trace_keeps, traces_fit,
};

/// Each sync of a device that keeps a set as asked for, where that set or its present one is its account's
/// last, adopts it and is answered, or ends by one of the causes that are named.
pub fn asked_syncs_answer()
    ensures { AskedSyncsAnswer }
{
    accounts_apart();
    keeps_committing();
    keeps_making();
    keeps_serving();
    served_tells();
    sends_are_posted();
    keeps();
    says_some();
    changed_adopts();
    versions_rise();
    one_stamp();
}

/// Whichever set is the account's last, a sync of a device that keeps a set as asked for ends so, or drops it.
pub fn every_asked_sync_answers()
    ensures { EveryAskedSyncAnswers }
{
    accounts_apart();
    keeps_committing();
    keeps_making();
    keeps_serving();
    served_tells();
    sends_are_posted();
    keeps();
    says_some();
    changed_adopts();
    versions_rise();
    one_stamp();
}

/// A sync of a device that is ready ends so too, whatever happened from the beginning on.
pub fn traced_asked_syncs_answer()
    ensures { TracedAskedSyncsAnswer }
{
    holds_first();
    trace_keeps();
    first_fits();
    traces_fit();
    asked_syncs_answer();
}

/// Where it is answered, it makes two requests beside those of its row of exchanges.
pub fn asked_counts()
    ensures { AskedCounts }
{}

/// Where a device at rest may ask for a set, each undeleted last version of its account carries the last set.
pub fn at_rest_finished()
    ensures { AtRestFinished }
{
    versions_rise();
}

/// So it is behind any steps, as long as the device has the same session token and holds its account's last
/// set.
pub fn finished_stays()
    ensures { FinishedStays }
{
    accounts_apart();
    keeps();
}
