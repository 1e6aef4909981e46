//! That the requests of devices are within the bounds of those that are read, by the definitions alone. The
//! functions call the laws below them and do nothing else; their contracts are the laws.

ghost use Rattle.sn_world.specs.Delivered.{CallsFit, CallsGoBy, DevicesFit, FirstFits, LinesGoBy, LinesKeepBy, SyncsEndBy, TracesFit};
ghost use Rattle.sn_world.specs.Fitting.{FreshFits, RequestsFit, RunsStayFitting, SendsFit, StepsFit, StepsFitUuids};

use crate::laws::{calls_go, keeps, registers_go, sign_ins_go, syncs_end, syncs_go};
use crate::plain_laws::{keeps_plain, lines_go, plain_first};
use sn_device::{fresh_is_sound, runs_by_steps, steps_stay_sound};

/// A fresh device's rows are such that its requests are within their bounds.
pub fn fresh_fits()
    ensures { FreshFits }
{
    fresh_is_sound();
}

/// Whatever a server answers, each commit leaves the uuids of items with 16 bytes.
pub fn steps_fit_uuids()
    ensures { StepsFitUuids }
{}

/// And the server's passwords of sets with 32, where those of a set that it keeps are so.
pub fn steps_fit()
    ensures { StepsFit }
{
    steps_stay_sound();
    steps_fit_uuids();
}

/// What a round of a sync sends is within the bounds of what is read.
pub fn sends_fit()
    ensures { SendsFit }
{}

/// Whatever a server answers, each request of a call is within the bounds of one that is read.
pub fn requests_fit()
    ensures { RequestsFit }
{
    steps_fit();
}

/// Whichever first acts of a call are done, they leave rows of which that holds again.
pub fn runs_stay_fitting()
    ensures { RunsStayFitting }
{
    runs_by_steps();
    steps_fit();
    requests_fit();
}

/// Before anything happened uuids and requests are so.
pub fn first_fits()
    ensures { FirstFits }
{}

/// Each step of the world leaves the uuids of all devices with 16 bytes.
pub fn devices_fit()
    ensures { DevicesFit }
{
    steps_fit_uuids();
}

/// So does any list of steps.
pub fn traces_fit()
    ensures { TracesFit }
{
    keeps();
    devices_fit();
}

/// Each request of a call that is answered by the server's rule is one that is read.
pub fn calls_fit()
    ensures { CallsFit }
{
    steps_fit_uuids();
    steps_stay_sound();
}

/// So whatever a call does, over a server that answers by its rule, is steps of the world.
pub fn calls_go_by()
    ensures { CallsGoBy }
{
    calls_fit();
    calls_go();
    syncs_go();
    registers_go();
    sign_ins_go();
}

/// A sync that is answered leaves its device with no draft, and with rows that stand on just the undeleted
/// last versions of its account.
pub fn syncs_end_by()
    ensures { SyncsEndBy }
{
    calls_fit();
    syncs_end();
}

/// Whatever devices call one after another, whole or stopped, and whatever requests are delivered late or
/// again between these, over a server that answers by its rule, is one list of steps, and the invariant holds
/// behind it.
pub fn lines_go_by()
    ensures { LinesGoBy }
{
    keeps_plain();
    lines_go();
    steps_fit_uuids();
    steps_stay_sound();
    traces_fit();
}

/// So it is from the beginning on.
pub fn lines_keep_by()
    ensures { LinesKeepBy }
{
    plain_first();
    first_fits();
    lines_go_by();
}
