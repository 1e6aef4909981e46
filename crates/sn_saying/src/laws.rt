//! What holds of the moves of a batch, by the definitions alone. The functions call laws of the crates below and do
//! nothing else; their contracts are laws.

ghost use Rattle.sn_saying.specs.Laws.{SaidOnce};

/// A batch of the server says one list of moves.
pub fn said_once()
    ensures { SaidOnce }
{}
