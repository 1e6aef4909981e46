//! What holds of every script, by the definitions alone. The function does nothing; its contract is the
//! law.

ghost use Rattle.sn_replay.specs.Laws.{AreReadBounded};

/// Each line of a text's script is what a replay asks.
pub fn reads_bounded()
    ensures { AreReadBounded }
{}
