// What holds of all sets, and of whatever is sealed.
ghost use Rattle.sn_sets.specs.Laws.{FitsDevice, FitsServer, LaterAgain, LaterAtOnce, OneHeld, OpenedIsShort};

/// Strings open to one content at most under the sets that are held.
pub fn one_held()
    ensures { OneHeld }
{}

/// An item of a content within the bound has strings that fit a device's row, and one of 700,000
/// bytes at most has strings that fit a server's.
pub fn sealed_fits()
    ensures device { FitsDevice }
    ensures server { FitsServer }
{}

/// What the strings of a device's row open to under the sets that are held fits a row again when it
/// is sealed.
pub fn opened_is_short()
    ensures { OpenedIsShort }
{}

/// Words that are left after some draws are left too after none, and after more.
pub fn later_again()
    ensures nothing { LaterAtOnce }
    ensures again { LaterAgain }
{}
