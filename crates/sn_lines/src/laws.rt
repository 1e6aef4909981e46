//! What holds of whatever devices call one after another, by the definitions alone. The functions call the
//! laws below them and do nothing else; their contracts are the laws.

ghost use Rattle.sn_lines.specs.Fits.{AllFitFirst, AllGoBy, AllKeepBy, EachFits, EachServed};
ghost use Rattle.sn_lines.specs.Lines.{AllGo, AllKeep, EachKeeps, EachLeads};
ghost use Rattle.sn_lines.specs.Passwords.{AllGoWith, AllKeepWith, ApartMayCall, EachHoldsOf, FirstHoldsOf, OfAnyPasswords, ParamsStay};
ghost use Rattle.sn_lines.specs.Plain.{EachKeepsPlain, PlainKeeps};

use sn_device::steps_stay_sound;
use sn_passwd::{every_sync_goes, passwds_go};
use sn_world::{
    again_leads, calls_go, fresh_fits, holds_first, keeps, keeps_plain, registers_go, requests_fit,
    sign_ins_go, steps_fit,
};

/// Whatever may happen leads on: the server's first commit, a call of a device, whole or stopped, and a request
/// that is delivered late or again.
pub fn each_leads()
    ensures { EachLeads }
{
    again_leads();
    calls_go();
    registers_go();
    sign_ins_go();
    every_sync_goes();
    passwds_go();
}

/// Wherever it leads, its moves are legal, and the invariant holds.
pub fn each_keeps()
    ensures { EachKeeps }
{
    keeps();
}

/// Whatever devices call one after another, changes of password too, and whatever requests are delivered late or
/// again between these, is one list of steps, and the invariant holds behind it.
pub fn all_go()
    ensures { AllGo }
{
    each_leads();
    each_keeps();
}

/// So it is from the beginning on.
pub fn all_keep()
    ensures { AllKeep }
{
    holds_first();
    all_go();
}

/// Before anything happened the rows of each device are such that its requests are within their bounds.
pub fn all_fit_first()
    ensures { AllFitFirst }
{
    fresh_fits();
}

/// Of such rows each request of a call that is answered by the server's rule is one that is read.
pub fn each_served()
    ensures { EachServed }
{
    requests_fit();
}

/// Wherever a line leads the rows are such again.
pub fn each_fits()
    ensures { EachFits }
{
    requests_fit();
    steps_fit();
}

/// So whatever devices call one after another, over a server that answers by its rule, is one list of steps.
pub fn all_go_by()
    ensures { AllGoBy }
{
    requests_fit();
    each_fits();
    each_leads();
    each_keeps();
}

/// And from the beginning on.
pub fn all_keep_by()
    ensures { AllKeepBy }
{
    holds_first();
    all_fit_first();
    all_go_by();
}

/// A line that changes no password leads from a world in which none was changed to another such.
pub fn each_keeps_plain()
    ensures { EachKeepsPlain }
{
    keeps_plain();
}

/// So do several.
pub fn plain_keeps()
    ensures { PlainKeeps }
{
    each_leads();
    each_keeps();
    each_keeps_plain();
}

/// Before anything happened there is no set of another password than these.
pub fn first_holds_of()
    ensures { OfAnyPasswords FirstHoldsOf }
{}

/// Parameters that an account has, one has behind whatever moves.
pub fn params_stay()
    ensures { ParamsStay }
{}

/// Where no two passwords have, under one parameter set that an account has, one check value and different keys,
/// a call that is given one may be made.
pub fn apart_may_call()
    ensures { OfAnyPasswords ApartMayCall }
{}

/// Wherever a line leads whose call is given one of these passwords, all sets are of them again.
pub fn each_holds_of()
    ensures { OfAnyPasswords EachHoldsOf }
{
    steps_stay_sound();
}

/// So whatever devices call one after another, each call with one of these passwords, is one list of steps, where
/// no two of these are alike in this way when it is made.
pub fn all_go_with()
    ensures { OfAnyPasswords AllGoWith }
{
    requests_fit();
    each_fits();
    each_leads();
    each_keeps();
    apart_may_call();
    each_holds_of();
}

/// And from the beginning on.
pub fn all_keep_with()
    ensures { OfAnyPasswords AllKeepWith }
{
    holds_first();
    all_fit_first();
    first_holds_of();
    all_go_with();
}
