//! What holds of the moves of a commit, by the definitions alone. The functions call laws of the crates below and do
//! nothing else; their contracts are laws.

ghost use Rattle.sn_moves.specs.Laws.{SaysAnswered, SaysComputed, SaysOne, SaysPlainly};

use sn_device::stay_standing;
use sn_laws::state_laws::deletions_stay;
use sn_sync::laws::one_stamp;
use sn_world::{plain_rows, says_some};

/// Of an answer that is applied the moves before the end of an older set are those that `moves_of` computes, whatever sets
/// the device holds.
pub fn says_answered()
    ensures { SaysAnswered }
{
    one_stamp();
    stay_standing();
}

/// So are the moves of any other commit that neither begins nor is one of a change of password.
pub fn says_plainly()
    ensures { SaysPlainly }
{}

/// So a commit of a device with sound rows and no older set says one list of moves, the one that `moves_of` computes.
pub fn says_one()
    ensures { SaysOne }
{
    says_answered();
    says_plainly();
}

/// And in a world without a change of password it says that list.
pub fn says_computed()
    ensures { SaysComputed }
{
    deletions_stay();
    says_one();
    says_some();
    plain_rows();
}
