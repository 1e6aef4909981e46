//! What holds where a device has retired a set, by the definitions alone. The functions call the laws
//! below them and do nothing else; their contracts are the laws.

ghost use Rattle.sn_finished.specs.Laws.{DevicesRetire, FinishedCarries, FinishedCarriesOne, FinisherHolds, NextChanges, RetiredUnused, RetiringFinishes, StaysFinished};

use sn_laws::state_laws::{carries_two, devices_hold};

/// A set that a device has retired is carried by no last version of its account any more, whatever moves
/// follow.
pub fn retired_unused()
    ensures { RetiredUnused }
{
    devices_hold();
}

/// Where a device has retired the set before the last one, each undeleted last version of its account
/// carries the last one.
pub fn finished_carries()
    ensures { FinishedCarries }
{
    carries_two();
    retired_unused();
}

/// The undeleted last versions of such an account carry one set.
pub fn finished_carries_one()
    ensures { FinishedCarriesOne }
{
    finished_carries();
}

/// It stays so, whatever moves follow, but a change of that account.
pub fn stays_finished()
    ensures { StaysFinished }
{}

/// The device that finished holds the last set, and no other.
pub fn finisher_holds()
    ensures { FinisherHolds }
{
    devices_hold();
}

/// Where a device retires the set before its account's last one, it has finished.
pub fn retiring_finishes()
    ensures { RetiringFinishes }
{}

/// Where each undeleted last version of an account carries the last set, each device of it that holds two
/// sets may retire the lesser one.
pub fn devices_retire()
    ensures { DevicesRetire }
{
    devices_hold();
}

/// A finished account may get one more set.
pub fn next_changes()
    ensures { NextChanges }
{
    finished_carries();
}
