// `replay`.
ghost use Rattle.std.specs.Prelude.{◌≡◌, List, ℕ, All, IfErr, IfOk, IsErrOf};
ghost use Rattle.std.specs.Io.KnownBytes.{Keeps};
ghost use Rattle.sn_io.specs.Causes.{Rose};
ghost use Rattle.sn_disk.specs.MemShelf.{shelf_slot};
ghost use Rattle.sn_disk.specs.Shelf.{unknown};
ghost use Rattle.sn_replay.specs.Lines.{IsBounded, IsReplayRefusal};
ghost use Rattle.sn_replay.specs.declared.error.ReplayError.TheVariants as refused;
ghost use Rattle.sn_script.specs.Scripts.{IsScript};
ghost use Rattle.sn_cli.specs.Calls.{ReplayCallsFor, ReplayRefuses};
ghost use Rattle.sn_cli.specs.Runs.{IsOfInput, IsSilent, RunsOver};

use crate::input::input_text;
use crate::output::write_out;
use sn_disk::MemShelf;
use sn_io::{Sink, Source};
use sn_replay::laws::reads_bounded;
use sn_replay::{ReplayError, replay};
use sn_report::report_text;
use sn_script::{Script, ScriptError, read_script};
use sn_status::{Refusal, Status};
use sn_string::Text;
use std::alloc::Global;

/// Carries the input's script out over disks that it leaves on the shelf in memory, and writes the report.
pub fn replay_input<I: Source, O: Sink>(
    alloc: Global,
    memory_shelf: &mut MemShelf,
    input: &mut I,
    out: &mut O,
) -> Status
    requires fresh { (name : List ℕ) → shelf_slot memory_shelf.old name ≡ unknown }
    ensures ran { RunsOver (ReplayCallsFor memory_shelf.new) ReplayRefuses result
        (I.left input.old) (I.left input.new) (O.held out.old) (O.held out.new) }
    ensures unplayed { IsOfInput result → memory_shelf.new ≡ memory_shelf.old }
    ensures silent { IsSilent result → Keeps (O.held out.old) (O.held out.new) }
    ensures read { result ≡ Status.ReadFault → Rose (I.fault_count input.old) (I.fault_count input.new) }
    ensures write { result ≡ Status.WriteFault → Rose (O.fault_count out.old) (O.fault_count out.new) }
{
    let text = match input_text(alloc, input) {
        Ok(text) => text,
        Err(status) => return status,
    };
    reads_bounded();
    match read_script(alloc, &text) {
        Ok(script) => match report_of(alloc, &script, memory_shelf) {
            Ok(report) => write_out(out, report.as_str().as_bytes()),
            Err(ReplayError::NotAllowed { number }) => Status::Refused(Refusal::NotAllowed {
                number,
            }),
            Err(ReplayError::Memory) => Status::Memory,
        },
        Err(ScriptError::Line { number }) => Status::Refused(Refusal::Line { number }),
        Err(ScriptError::Memory) => Status::Memory,
    }
}

// The text of the report that the script carries over the disks that it leaves.
fn report_of(
    alloc: Global,
    script: &Script,
    memory_shelf: &mut MemShelf,
) -> Result<Text, ReplayError>
    requires bounded { All IsBounded script.now.lines }
    requires fresh { (name : List ℕ) → shelf_slot memory_shelf.old name ≡ unknown }
    ensures carries { (input : List ℕ) → IsScript input script.now.lines → IfOk result (λ text. ReplayCallsFor memory_shelf.new input text) }
    ensures refused { IfErr result (IsReplayRefusal script.now) }
    ensures untouched { (number : ℕ) → IsErrOf result (refused.NotAllowed number) → memory_shelf.new ≡ memory_shelf.old }
{
    let report = replay(alloc, script, memory_shelf)?;
    let text = report_text(alloc, &report)?;
    Ok(text)
}
