// The help and the version.
ghost use Rattle.std.specs.Prelude.{◌≡◌};
ghost use Rattle.std.specs.Io.KnownBytes.{Keeps};
ghost use Rattle.sn_io.specs.Causes.{Rose};
ghost use Rattle.sn_cli.specs.Runs.{IsSilent, WritesText};

use crate::output::write_out;
use clap::Error;
use sn_io::Sink;
use sn_status::Status;
use std::alloc::Global;

/// Writes the text that the words ask for.
pub fn answer_help<O: Sink>(alloc: Global, text: &Error, out: &mut O) -> Status
    ensures wrote { WritesText result (O.held out.old) (O.held out.new) }
    ensures silent { IsSilent result → Keeps (O.held out.old) (O.held out.new) }
    ensures write { result ≡ Status.WriteFault → Rose (O.fault_count out.old) (O.fault_count out.new) }
{
    match format!(in alloc; "{text}") {
        Ok(text) => write_out(out, text.as_bytes()),
        Err(_) => Status::Memory,
    }
}
