//! What a server's rule makes of a change of password, and of an item that is sealed again after it, by
//! the definitions alone. The functions call the laws below them and do nothing else; their contracts
//! are the laws.

ghost use Rattle.sn_changed.specs.Laws.{ChangeServed, RewrapServed, RewrapTaken};
ghost use Rattle.sn_changed.specs.Sessions.{ChangeSessions, ChangeSpares, ItemSessions};
ghost use Rattle.sn_changed.specs.Stale.{StaleBehind, StaleFree};

use sn_account::sound_laws::changes_soundly;
use sn_shows::rekeying_laws::{changed_server, rewrapped_last, rewrapped_shows};
use sn_string::laws::one_reading;
use sn_sync::laws::one_stamp;

/// A change of password is refused and changes nothing, or it is an allowed move: the rows behind it show
/// the accounts after that, and the answer has the session token of the new set.
pub fn change_served()
    ensures { ChangeServed }
{
    changes_soundly();
    changed_server();
    one_reading();
}

/// An item that is sealed again under its account's last set, once it is accepted, is an allowed move,
/// and the rows behind it show the accounts after that.
pub fn rewrap_served()
    ensures { RewrapServed }
{
    rewrapped_shows();
}

/// So it is where a sync's item is taken as a new version, and its stamp is then the greatest.
pub fn rewrap_taken()
    ensures { RewrapTaken }
{
    rewrapped_shows();
    rewrapped_last();
}

/// The sessions behind a change of password: those of the other accounts, and the account's of its next
/// set.
pub fn change_sessions()
    ensures { ChangeSessions }
{}

/// And every row stays but that of the account and that of its next set.
pub fn change_spares()
    ensures { ChangeSpares }
{}

/// An item's row that is put leaves all sessions.
pub fn item_sessions()
    ensures { ItemSessions }
{}

/// What is sent of a device's stale row is its item's last version, sealed again, where the row stands on
/// that.
pub fn stale_behind()
    ensures { StaleBehind }
{}

/// So it is where a server may accept it, and it names the version that the row stands on.
pub fn stale_free()
    ensures { StaleFree }
{
    one_stamp();
}
