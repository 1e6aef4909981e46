//! What holds of every text, by the definitions alone. The function does nothing; its contract is the
//! law.

ghost use Rattle.sn_script.specs.Laws.{HasOneScript};

/// A text is the script of one list of lines at most.
pub fn one_script()
    ensures { HasOneScript }
{}
