//! What holds of worlds in which no password is changed, by the definitions alone. The functions call the
//! laws below them and do nothing else; their contracts are the laws.

ghost use Rattle.sn_world.specs.Plain.{KeepsPlain, PlainFirst, PlainRows, PlainSays};
ghost use Rattle.sn_world.specs.Sessions.{LinesGo, LinesKeep};

use crate::laws::{
    calls_go, holds_first, keeps, keeps_serving, registers_go, says_some, sign_ins_go, syncs_go,
};

/// Before anything happened the invariant holds, and no password is changed.
pub fn plain_first()
    ensures { PlainFirst }
{
    holds_first();
}

/// Each step keeps it so that asks for no set and changes no password.
pub fn keeps_plain()
    ensures { KeepsPlain }
{
    keeps();
    plain_says();
}

/// No row of a device is to be sealed again, and no device holds an older set.
pub fn plain_rows()
    ensures { PlainRows }
{}

/// A request that is served says accepts and registrations alone.
pub fn plain_says()
    ensures { PlainSays }
{
    keeps_serving();
}

/// Whatever devices call one after another, whole or stopped, and whatever requests are delivered late or
/// again between these, is one list of such steps, and the invariant holds behind it.
pub fn lines_go()
    ensures { LinesGo }
{
    keeps_plain();
    says_some();
    calls_go();
    syncs_go();
    registers_go();
    sign_ins_go();
}

/// So it is from the beginning on.
pub fn lines_keep()
    ensures { LinesKeep }
{
    plain_first();
    lines_go();
}
