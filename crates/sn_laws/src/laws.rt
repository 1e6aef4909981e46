//! What holds of all lists of moves, by the definitions alone. The functions do nothing; their
//! contracts are the laws.

ghost use Rattle.sn_laws.specs.Laws.{AllowsAsRelated, FirstRefused, FollowsItsStamp, FollowsLast, KeepsVersions, NoneRefused, OneNext, PrefixesLegal, RewrapsLast, SettlesVersions, StampsRise, StepsAsRelated, VersionsRise};

/// No place is refused exactly where each move is allowed where it is made.
pub fn none_refused()
    ensures { NoneRefused }
{}

/// The place that is refused is the one up to which the moves are legal, and with which they aren't.
pub fn first_refused()
    ensures { FirstRefused }
{}

/// The moves before others of a legal list are legal.
pub fn prefixes_legal()
    ensures { PrefixesLegal }
{}

/// No version is ever taken away.
pub fn keeps_versions()
    ensures { KeepsVersions }
{}

/// A move is allowed, as the code tests it, exactly where the relation allows it.
pub fn allows_as_related()
    ensures { AllowsAsRelated }
{}

/// A step gives a state exactly where the relation leads to it.
pub fn steps_as_related()
    ensures { StepsAsRelated }
{}

/// A move leads to one state at most.
pub fn one_next()
    ensures { OneNext }
{}

/// Stamps rise over all accounts.
pub fn stamps_rise()
    ensures { StampsRise }
{}

/// Each account's versions stand by rising stamp.
pub fn versions_rise()
    ensures { VersionsRise }
{}

/// Where an item has versions, the next one that is accepted stood on the last of them.
pub fn follows_last()
    ensures { FollowsLast }
{}

/// A settled draft's content is a version.
pub fn settles_versions()
    ensures { SettlesVersions }
{}

/// What was accepted is followed on its item only by an accept on its stamp.
pub fn follows_its_stamp()
    ensures { FollowsItsStamp }
{}

/// What is sealed again has the type and the text of the item's last version, and is under the last set.
pub fn rewraps_last()
    ensures { RewrapsLast }
{}
