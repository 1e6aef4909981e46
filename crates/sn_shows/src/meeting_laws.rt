//! What drafts that meet other versions make of a device's rows that show a state. The functions do
//! nothing; their contracts are the laws.

ghost use Rattle.sn_shows.specs.Meetings.{AnsweredShows, ForkedShows, RemovedShows, RenamedShows};

/// A row whose sent draft is answered shows the state in which it stands on the version.
pub fn answered_shows()
    ensures { AnsweredShows }
{}

/// A row that goes with its draft shows the state without it.
pub fn removed_shows()
    ensures { RemovedShows }
{}

/// The row of a new item under another uuid shows the state after the renaming.
pub fn renamed_shows()
    ensures { RenamedShows }
{}

/// The row of a draft's copy shows the state after the fork.
pub fn forked_shows()
    ensures { ForkedShows }
{}
