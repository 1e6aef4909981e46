//! What a line of the world says, by the definitions alone. The functions call laws of the crates below and do nothing else; their
//! contracts are laws.

ghost use Rattle.sn_telling.specs.Laws.{AgainsTell, CallsTell};

use sn_laws::state_laws::deletions_stay;
use sn_moves::{says_answered, says_plainly};
use sn_order::{kinds_tell, runs_in_order};
use sn_saying::said_once;
use sn_world::keeps;

/// A whole call says the moves that are told of its commits and its requests, in order, changes of password among them.
pub fn calls_tell()
    ensures { CallsTell }
{
    deletions_stay();
    says_answered();
    says_plainly();
    said_once();
    kinds_tell();
    runs_in_order();
    keeps();
}

/// A request that comes late or again says those of its batch.
pub fn agains_tell()
    ensures { AgainsTell }
{
    said_once();
}
