//! What holds of a server's rows after the rules' changes, by the definitions alone. The functions do
//! nothing; their contracts are the laws.

ghost use Rattle.sn_account.specs.Laws.{SparesOthers, StaysSoundChanging, StaysSoundRegistering};

/// Sound rows are sound after a registration.
pub fn registers_soundly()
    ensures { StaysSoundRegistering }
{}

/// Sound rows are sound after a change of password.
pub fn changes_soundly()
    ensures { StaysSoundChanging }
{}

/// A change of password leaves the rows of other accounts, and all items, as they are.
pub fn spares_others()
    ensures { SparesOthers }
{}
