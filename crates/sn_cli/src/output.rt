// The output of a command.
ghost use Rattle.std.specs.Prelude.{◌≡◌};
ghost use Rattle.sn_io.specs.Causes.{Rose};
ghost use Rattle.sn_cli.specs.Outputs.{Writes};

use sn_io::{Sink, write_all};
use sn_status::Status;

/// Writes the whole output, or a front of it where a write fails.
pub fn write_out<O: Sink>(out: &mut O, bytes: &[u8]) -> Status
    ensures wrote { Writes result (O.held out.old) (O.held out.new) bytes.now }
    ensures write { result ≡ Status.WriteFault → Rose (O.fault_count out.old) (O.fault_count out.new) }
{
    match write_all(out, bytes) {
        Ok(()) => Status::Done,
        Err(_) => Status::WriteFault,
    }
}
