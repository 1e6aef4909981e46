//! That a sync is answered, where no request and no answer is lost, by the definitions alone. The functions
//! call the laws below them and do nothing else; their contracts are the laws.

ghost use Rattle.sn_world.specs.Answering.{SyncsAnswer, TracedSyncsAnswer};

use crate::fitting_laws::{calls_fit, first_fits, traces_fit};
use crate::laws::{
    keeps, keeps_committing, keeps_making, keeps_serving, says_some, sends_are_posted, served_tells,
};
use crate::plain_laws::{keeps_plain, plain_first, plain_rows};
use sn_laws::laws::versions_rise;
use sn_shows::server_laws::accounts_apart;
use sn_sync::laws::one_stamp;

/// Where no password is changed, each sync of a device that has an account is answered, or ends by one of the
/// causes that are named.
pub fn syncs_answer()
    ensures { SyncsAnswer }
{
    accounts_apart();
    keeps_committing();
    keeps_making();
    keeps_serving();
    served_tells();
    sends_are_posted();
    keeps();
    says_some();
    keeps_plain();
    plain_rows();
    versions_rise();
    one_stamp();
    calls_fit();
}

/// And each sync that loses nothing ends so, whatever happened from the beginning on.
pub fn traced_syncs_answer()
    ensures { TracedSyncsAnswer }
{
    plain_first();
    keeps_plain();
    first_fits();
    traces_fit();
    syncs_answer();
}
