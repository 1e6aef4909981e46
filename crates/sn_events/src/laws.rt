//! What a call is in the world, by the definitions alone. The functions call the laws below them and do nothing else; their
//! contracts are the laws.

ghost use Rattle.sn_events.specs.Laws.{AgainComes, CallsCome, QuietCome};

use sn_account::rule_laws::stays_sound;
use sn_lines::{each_keeps, each_leads};
use sn_recorder::{agains_have_fates, exchanges_have_fates};
use sn_world::again_leads;

/// A call of a device over a link is a line of the world, with fates that are by what is lost, and of which the records tell.
pub fn calls_come()
    ensures { CallsCome }
{
    each_leads();
    each_keeps();
    exchanges_have_fates();
    stays_sound();
}

/// So is a call that asks for nothing.
pub fn quiet_come()
    ensures { QuietCome }
{
    each_leads();
    each_keeps();
}

/// And so is a request that was made and is delivered late or again.
pub fn again_comes()
    ensures { AgainComes }
{
    again_leads();
    each_keeps();
    stays_sound();
    agains_have_fates();
}
