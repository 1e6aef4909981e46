//! What a device's commits of a change of password make of its rows that show a state. The functions
//! do nothing; their contracts are the laws.

ghost use Rattle.sn_adopted.specs.Laws.{AdoptHolds, AdoptShows, AskShows, ForgetShows, RenewShows, RepostsAllowed, RepostsMove, RepostsShow, RetireShows, StaleStays};

/// The rows of a device that adopts a set show the state after its moves, and no set is asked for.
pub fn adopt_shows()
    ensures { AdoptShows }
{}

/// Each other commit leaves the rows of the older set stale.
pub fn stale_stays()
    ensures { StaleStays }
{}

/// The rows hold the set that was adopted, and the one that was present as the older, with the session token.
pub fn adopt_holds()
    ensures { AdoptHolds }
{}

/// They show the state after what was sent is sent again.
pub fn reposts_show()
    ensures { RepostsShow }
{}

/// Those moves are legal where each draft may lose its number.
pub fn reposts_allowed()
    ensures { RepostsAllowed }
{}

/// They give these drafts the number of the greatest set, and leave each other one.
pub fn reposts_move()
    ensures { RepostsMove }
{}

/// A set that is asked for leaves what the rows show.
pub fn ask_shows()
    ensures { AskShows }
{}

/// So does one that is dropped.
pub fn forget_shows()
    ensures { ForgetShows }
{}

/// And a session token that is renewed.
pub fn renew_shows()
    ensures { RenewShows }
{}

/// The end of an answer, at which the older set may go, shows the state after the set's end.
pub fn retire_shows()
    ensures { RetireShows }
{}
