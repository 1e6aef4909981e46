//! What holds of all legal lists of moves, as `show` asks for it, and of what it prints.

ghost use Rattle.sn_shown.specs.Laws.{OneClosed, StatesRegular};

/// Each state to which legal moves lead is regular.
pub fn states_regular()
    ensures { StatesRegular }
{}

/// Rows that show a state say in one way what is closed to each device.
pub fn one_closed()
    ensures { OneClosed }
{}
