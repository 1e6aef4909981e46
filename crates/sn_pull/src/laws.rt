//! What holds of every pull, by the definitions alone. The functions call the laws below them and do
//! nothing else; their contracts are the laws.

ghost use Rattle.sn_pull.specs.Laws.{BegunMayPull, PagesAnswer, PullAmongOthers, PullGoesOn, PullStays, WholePull};

use sn_account::rule_laws::stays_sound;
use sn_account::session_laws::one_account;
use sn_sync::laws::{one_stamp, one_token};

/// A sync that sends nothing changes nothing on the server, and is answered with the next page.
pub fn pages_answer()
    ensures { PagesAnswer }
{
    one_account();
    one_token();
}

/// A sync of a device that may pull, over the honest server, leaves just the account's undeleted last
/// versions, or ends where its pages, the local numbers or memory are used up, or its disk fails.
pub fn whole_pull()
    ensures { WholePull }
{
    one_stamp();
    one_token();
    one_account();
}

/// Whichever first acts of a pull are done, the device may pull from there on.
pub fn pull_goes_on()
    ensures { PullGoesOn }
{
    one_stamp();
    one_token();
    one_account();
}

/// A device whose first rows are from a registration or a sign-in may pull.
pub fn begun_may_pull()
    ensures { BegunMayPull }
{}

/// Whatever request the server answers meanwhile, the device may pull afterwards, if its session token is
/// still the account's present one.
pub fn pull_stays()
    ensures { PullStays }
{}

/// A pull before each of whose requests the server answers any others ends so too, by the server's rows as
/// they are answered last.
pub fn pull_among_others()
    ensures { PullAmongOthers }
{
    one_stamp();
    one_token();
    one_account();
    stays_sound();
}
