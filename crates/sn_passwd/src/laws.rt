//! What holds of every sync and of every change of password, by the definitions alone. The functions call the
//! laws below them and do nothing else; their contracts are the laws.

ghost use Rattle.sn_passwd.specs.Calls.{EverySyncGoes, PasswdsGo};
ghost use Rattle.sn_passwd.specs.Ends.{EverySyncEnds, PasswdsEnd};

use sn_finished::finished_carries;
use sn_world::{
    applied_whole, changed_adopts, keeps, keeps_committing, keeps_making, keeps_serving, says_some,
    sends_are_posted, served_tells, signed_in_adopts, synced_rows,
};

/// Whatever a sync does, a set asked for or not, and whichever of its requests and answers are lost, is steps
/// of the world one after another.
pub fn every_sync_goes()
    ensures { EverySyncGoes }
{
    keeps();
    keeps_committing();
    keeps_making();
    keeps_serving();
    says_some();
    sends_are_posted();
    served_tells();
    changed_adopts();
    signed_in_adopts();
    applied_whole();
}

/// So is whatever a change of password does.
pub fn passwds_go()
    ensures { PasswdsGo }
{
    keeps();
    keeps_committing();
    keeps_making();
    keeps_serving();
    says_some();
    sends_are_posted();
    served_tells();
    changed_adopts();
    signed_in_adopts();
    applied_whole();
}

/// A sync that is answered leaves its device at rest, with its account's last set alone.
pub fn every_sync_ends()
    ensures { EverySyncEnds }
{
    keeps();
    keeps_committing();
    keeps_making();
    keeps_serving();
    says_some();
    sends_are_posted();
    served_tells();
    changed_adopts();
    signed_in_adopts();
    applied_whole();
    synced_rows();
}

/// So does a change of password that is answered; and then that set is a new one, the keys of the password,
/// and each undeleted last version carries it.
pub fn passwds_end()
    ensures { PasswdsEnd }
{
    keeps();
    keeps_committing();
    keeps_making();
    keeps_serving();
    says_some();
    sends_are_posted();
    served_tells();
    changed_adopts();
    signed_in_adopts();
    applied_whole();
    synced_rows();
    finished_carries();
}
