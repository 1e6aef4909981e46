//! What a change of password, and an item that is sealed again after it, make of a server's rows that
//! show a state, and what they leave of a device's. The functions do nothing; their contracts are the
//! laws.

ghost use Rattle.sn_shows.specs.Rekeying.{ChangedLast, ChangedServer, ChangedShows, ChangeKeeps, RewrapKeeps, RewrappedLast, RewrappedShows};

/// The rows that are put of a new set show its account with it, beside the others.
pub fn changed_shows()
    ensures { ChangedShows }
{}

/// A new set leaves the greatest stamp of all.
pub fn changed_last()
    ensures { ChangedLast }
{}

/// So a server's rows are whole behind them.
pub fn changed_server()
    ensures { ChangedServer }
{}

/// The row of an item that is sealed again shows its new version beside the others.
pub fn rewrapped_shows()
    ensures { RewrappedShows }
{}

/// The stamp of an item that is sealed again is the greatest of all.
pub fn rewrapped_last()
    ensures { RewrappedLast }
{}

/// A new set leaves what each device's rows show.
pub fn change_keeps()
    ensures { ChangeKeeps }
{}

/// An item that is sealed again leaves what each device's rows show.
pub fn rewrap_keeps()
    ensures { RewrapKeeps }
{}
