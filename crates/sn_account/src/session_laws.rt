//! What holds of every session token, by the definitions alone. The function does nothing; its contract is
//! the law.

ghost use Rattle.sn_account.specs.Laws.{HasOneAccount};

/// A token is one account's at most.
pub fn one_account()
    ensures { HasOneAccount }
{}
