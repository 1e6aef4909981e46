//! What a server's commits make of rows that show a state, and what they leave of a device's. The
//! functions do nothing; their contracts are the laws.

ghost use Rattle.sn_shows.specs.Laws.{AcceptKeeps, AcceptedLast, AcceptedShows, AccountsApart, RegisterKeeps, RegisteredShows, StoreShows};

/// The store's row put last makes the server's rows whole.
pub fn store_shows()
    ensures { StoreShows }
{}

/// The rows that are put of a new account show it beside the others.
pub fn registered_shows()
    ensures { RegisteredShows }
{}

/// No two accounts have one identifier.
pub fn accounts_apart()
    ensures { AccountsApart }
{}

/// The row that is put of an accepted version shows it beside the others.
pub fn accepted_shows()
    ensures { AcceptedShows }
{}

/// The stamp of a version that is accepted is the greatest of all.
pub fn accepted_last()
    ensures { AcceptedLast }
{}

/// A new account leaves what each device's rows show.
pub fn register_keeps()
    ensures { RegisterKeeps }
{}

/// A version that is accepted leaves what each device's rows show.
pub fn accept_keeps()
    ensures { AcceptKeeps }
{}
