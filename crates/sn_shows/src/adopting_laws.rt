//! What the adoption of a key set, the end of an older one, and what was sent make of a device's
//! rows that show a state. The functions do nothing; their contracts are the laws.

ghost use Rattle.sn_shows.specs.Adopting.{AdoptedShows, RepostedShows, RetireKeeps, RetiredShows, UnpostKeeps, UnpostedShows};

/// A device that comes to hold a later set too shows the state after the join.
pub fn adopted_shows()
    ensures { AdoptedShows }
{}

/// The rows show the same after what was sent has lost its number.
pub fn unposted_shows()
    ensures { UnpostedShows }
{}

/// And after it is sent again as it was.
pub fn reposted_shows()
    ensures { RepostedShows }
{}

/// The rows without the older set show the state after its end.
pub fn retired_shows()
    ensures { RetiredShows }
{}

/// What a device sent loses its number without a trace in what another one's rows show.
pub fn unpost_keeps()
    ensures { UnpostKeeps }
{}

/// The end of a device's older set leaves what another one's rows show.
pub fn retire_keeps()
    ensures { RetireKeeps }
{}
