//! That a sync and a change of password of a device that is ready are answered, where no request and no
//! answer is lost, by the definitions alone. The functions call the laws of the crates below and do nothing else; their contracts
//! are the laws.

ghost use Rattle.sn_ready.specs.Passwds.{ChangeCounts, ReadyPasswdsAnswer};
ghost use Rattle.sn_ready.specs.Ready.{ReadySyncsAnswer, TracedReadySyncsAnswer};

use sn_laws::laws::versions_rise;
use sn_shows::server_laws::accounts_apart;
use sn_sync::laws::one_stamp;
use sn_world::{
    applied_whole, calls_fit, changed_adopts, first_fits, holds_first, keeps, keeps_committing,
    keeps_making, keeps_serving, says_some, sends_are_posted, served_tells, signed_in_adopts,
    synced_rows, trace_keeps, traces_fit,
};

/// Each sync of a device that asks for no set and holds its account's last one is answered, or ends by one of
/// the causes that are named.
pub fn ready_syncs_answer()
    ensures { ReadySyncsAnswer }
{
    accounts_apart();
    keeps_committing();
    keeps_making();
    keeps_serving();
    served_tells();
    sends_are_posted();
    keeps();
    says_some();
    versions_rise();
    one_stamp();
    calls_fit();
}

/// And each sync that loses nothing ends so, whatever happened from the beginning on.
pub fn traced_ready_syncs_answer()
    ensures { TracedReadySyncsAnswer }
{
    holds_first();
    trace_keeps();
    first_fits();
    traces_fit();
    ready_syncs_answer();
}

/// Each change of password of such a device is answered, or ends by one of the causes that are named.
pub fn ready_passwds_answer()
    ensures { ReadyPasswdsAnswer }
{
    accounts_apart();
    keeps_committing();
    keeps_making();
    keeps_serving();
    served_tells();
    sends_are_posted();
    keeps();
    says_some();
    changed_adopts();
    signed_in_adopts();
    applied_whole();
    synced_rows();
    versions_rise();
    one_stamp();
    traces_fit();
}

/// Where it is answered, it makes as many requests as its two rows have exchanges, and one more.
pub fn change_counts()
    ensures { ChangeCounts }
{}
