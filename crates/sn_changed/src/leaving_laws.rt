//! What a change of password, and an item that is sealed again, leave of the ideal state. The functions
//! do nothing; their contracts are the laws.

ghost use Rattle.sn_changed.specs.Leaves.{ChangeBehind, ChangeLasts, ChangeLeaves, ChangeOnLast, ItemOwner, NoneIsBehind, RewrapBehind, RewrapLeaves, VersionLasts, VersionOnLast};

/// A change of password gives one account one set more, and changes nothing else.
pub fn change_leaves()
    ensures { ChangeLeaves }
{}

/// So it leaves every last version.
pub fn change_lasts()
    ensures { ChangeLasts }
{}

/// And what is on one was on it before.
pub fn change_on_last()
    ensures { ChangeOnLast }
{}

/// A rewrap gives one account the last version of its item again, and changes nothing else.
pub fn rewrap_leaves()
    ensures { RewrapLeaves }
{}

/// One version more leaves every last version but its own item's.
pub fn version_lasts()
    ensures { VersionLasts }
{}

/// And what is on a last version, but at the new stamp, was on it before.
pub fn version_on_last()
    ensures { VersionOnLast }
{}

/// The account that has an item is the one whose last version of it the rows show.
pub fn item_owner()
    ensures { ItemOwner }
{}

/// With a new set all live items are behind.
pub fn change_behind()
    ensures { ChangeBehind }
{}

/// Of these a rewrap takes its own and no other.
pub fn rewrap_behind()
    ensures { RewrapBehind }
{}

/// Where none is left, the next change of password may come, as far as it asks for that.
pub fn none_is_behind()
    ensures { NoneIsBehind }
{}
