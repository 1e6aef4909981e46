// Errors of the system as faults.
ghost use Rattle.std.specs.Prelude.{◌≡◌, Ok, IsErr, IfOk, OnOk, OnErr};
ghost use Rattle.sn_io.specs.Causes.{CountsFailure, IsRise};

use sn_io::Failed;
use std::io;

/// Counts a fault.
pub(crate) fn fault(faults: &mut u64) -> Failed
    ensures { IsRise faults.old faults.new }
{
    *faults = faults.saturating_add(1);
    Failed
}

/// What the system answered. An error is counted as a fault.
pub(crate) fn counted<T: Drop>(answer: io::Result<T>, faults: &mut u64) -> Result<T, Failed>
    ensures ok { IfOk answer (λ value. result ≡ Ok value) }
    ensures err { OnErr answer (IsErr result) }
    ensures quiet { OnOk result (faults.new ≡ faults.old) }
    ensures cause { CountsFailure faults.old faults.new result }
{
    match answer {
        Ok(value) => Ok(value),
        Err(_) => Err(fault(faults)),
    }
}
