//! How many requests and commits a change of password makes, by the definitions alone. The functions call the
//! laws below them and do nothing else; their contracts are the laws.

ghost use Rattle.sn_bound.specs.Portions.{FewPortions, OneDivision};
ghost use Rattle.sn_bound.specs.Bound.{ChangesBounded};
ghost use Rattle.sn_bound.specs.Commits.{ChangesCommit};
ghost use Rattle.sn_bound.specs.Whole.{SecondWhole, WholeBegins, WholeChanges, WholeStays};

use sn_account::rule_laws::stays_sound;
use sn_account::session_laws::one_account;
use sn_ready::change_counts;
use sn_shows::server_laws::accounts_apart;
use sn_sync::laws::one_token;
use sn_world::{
    applied_whole, changed_adopts, keeps, keeps_committing, keeps_making, keeps_serving, says_some,
    sends_are_posted, served_tells, signed_in_adopts, synced_rows,
};

/// Items that are light fall into as few portions as 150 to a request allow.
pub fn few_portions()
    ensures { FewPortions }
{}

/// Any items fall into portions, in just one way.
pub fn one_division()
    ensures { OneDivision }
{}

/// Behind an exchange whose answer leaves no page, a device has all versions of its account.
pub fn whole_begins()
    ensures { WholeBegins }
{}

/// A further exchange then retrieves nothing, leaves no page, and leaves it so.
pub fn whole_stays()
    ensures { WholeStays }
{
    one_account();
    one_token();
}

/// So does a change of its password that is answered and adopted.
pub fn whole_changes()
    ensures { WholeChanges }
{
    one_account();
}

/// Each exchange of the second row of an answered change of password retrieves nothing.
pub fn second_whole()
    ensures { SecondWhole }
{
    one_account();
    one_token();
    stays_sound();
}

/// A change of password that is answered sends each portion of what waits behind its adoption in one exchange: so
/// it makes at most as many requests as its first row has exchanges and there are portions, and two more.
pub fn changes_bounded()
    ensures { ChangesBounded }
{
    accounts_apart();
    keeps_committing();
    keeps_making();
    keeps_serving();
    served_tells();
    sends_are_posted();
    keeps();
    says_some();
    changed_adopts();
    signed_in_adopts();
    applied_whole();
    synced_rows();
    change_counts();
    whole_begins();
    whole_stays();
    whole_changes();
}

/// On a device without drafts an answered change of password commits once more than it makes requests.
pub fn changes_commit()
    ensures { ChangesCommit }
{
    change_counts();
}
