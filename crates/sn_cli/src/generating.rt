// `gen`.
ghost use Rattle.std.specs.Prelude.{◌≡◌, List, ℕ};
ghost use Rattle.std.specs.Io.KnownBytes.{Keeps};
ghost use Rattle.sn_io.specs.Causes.{Rose};
ghost use Rattle.sn_command.specs.Commands.{gen_line};
ghost use Rattle.sn_disk.specs.MemShelf.{shelf_slot};
ghost use Rattle.sn_disk.specs.Shelf.{unknown};
ghost use Rattle.sn_cli.specs.Runs.{GenRuns, IsOfInput, IsSilent};

use crate::output::write_out;
use sn_command::GenOptions;
use sn_disk::MemShelf;
use sn_gen::generated_summary;
use sn_io::Sink;
use sn_replay::ReplayError;
use sn_status::{Refusal, Status};
use std::alloc::Global;

/// Makes the script of the number, carries it out over disks that it leaves on the shelf in memory, and writes the summary of its report.
pub fn generate_and_replay<O: Sink>(
    alloc: Global,
    options: &GenOptions,
    memory_shelf: &mut MemShelf,
    out: &mut O,
) -> Status
    requires fresh { (name : List ℕ) → shelf_slot memory_shelf.old name ≡ unknown }
    ensures ran { GenRuns (gen_line options.now) memory_shelf.new result (O.held out.old) (O.held out.new) }
    ensures unplayed { IsOfInput result → memory_shelf.new ≡ memory_shelf.old }
    ensures silent { IsSilent result → Keeps (O.held out.old) (O.held out.new) }
    ensures write { result ≡ Status.WriteFault → Rose (O.fault_count out.old) (O.fault_count out.new) }
{
    match generated_summary(alloc, options.number, options.count, memory_shelf) {
        Ok(summary) => write_out(out, summary.as_str().as_bytes()),
        Err(ReplayError::NotAllowed { number }) => {
            Status::Refused(Refusal::NotAllowed { number })
        }
        Err(ReplayError::Memory) => Status::Memory,
    }
}
