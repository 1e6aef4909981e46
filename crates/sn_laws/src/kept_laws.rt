//! No edit is lost, by the definitions alone. The function does nothing; its contract is the law.

ghost use Rattle.sn_laws.specs.Kept.{EditsKept};

/// Whatever moves follow an edit, it is replaced, or it or a copy of it is in the draft or is a version.
pub fn edits_kept()
    ensures { EditsKept }
{}
