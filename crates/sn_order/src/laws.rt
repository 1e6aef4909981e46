//! What holds of each commit and of each call of a device, by the definitions alone. The functions have no code that runs; their
//! contracts are the laws.

ghost use Rattle.sn_order.specs.Laws.{KindsTell, RunsInOrder};

/// A commit's changes are of the kind of what is done.
pub fn kinds_tell()
    ensures { KindsTell }
{}

/// Whatever a device calls, its commits and its requests come in the order that `comes_first` says.
pub fn runs_in_order()
    ensures { RunsInOrder }
{}
