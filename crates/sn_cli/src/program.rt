// The top call.
ghost use Rattle.std.specs.Prelude.{◌≡◌, ◌⊎◌, List, ℕ};
ghost use Rattle.std.specs.Io.KnownBytes.{Keeps};
ghost use Rattle.sn_io.specs.Causes.{Rose};
ghost use Rattle.sn_io.specs.Streams.{Tells};
ghost use Rattle.sn_disk.specs.MemShelf.{shelf_slot};
ghost use Rattle.sn_disk.specs.Shelf.{unknown};
ghost use Rattle.sn_calls.specs.Ends.{handed as handed_call};
ghost use Rattle.sn_serve.specs.Serving.{handed};
ghost use Rattle.sn_cli.specs.Calls.{OpenCallsFor, OpenRefuses, ReplayCallsFor, ReplayRefuses, ShowRefuses};
ghost use Rattle.sn_command.specs.CommandLine.{SealLine, OpenLine, GenLine, ServeLine, Asks, IsGenerating, IsServing, IsSealLine, IsOpenLine, IsShowLine, IsReplayLine, IsGenLine, IsServeLine, IsUsage};
ghost use Rattle.sn_cli.specs.DeviceCalls.{IsPassword, TakesPassword, first_line};
ghost use Rattle.sn_command.specs.DeviceLines.{DeviceLine, IsDeviceLine, IsDevicing};
ghost use Rattle.sn_cli.specs.Devices.{DeviceRuns};
ghost use Rattle.sn_cli.specs.Inputs.{HasText};
ghost use Rattle.sn_status.specs.Lines.{line_of};
ghost use Rattle.sn_cli.specs.Runs.{Accepts, AnswersWith, AreLeft, AreWordsOf, EndsCall, GenRuns, Serves, IsInputRefusal, IsOfInput, IsRefusal, IsSilent, Meets, RunsOver, SealRuns};
ghost use Rattle.sn_cli.specs.Shown.{IsShown};
ghost use Rattle.sn_command.specs.Words.{texts};

use crate::calling::call_store;
use crate::generating::generate_and_replay;
use crate::help::answer_help;
use crate::opening::open_input;
use crate::replaying::replay_input;
use crate::sealing::seal_input;
use crate::serving::serve_store;
use crate::showing::show_input;
use sn_command::{Command, LineError, command_of};
use sn_disk::{Disk, MemShelf, Shelf};
use sn_io::{Seeds, Sink, Source};
use sn_items::sealed_opens;
use sn_net::{Clock, Link, Port};
use sn_script::laws::one_script;
use sn_status::{Status, tell};
use sn_string::laws::read_back;
use std::alloc::Global;

/// Carries out the command that the words spell, over the shelf, the shelf in memory, the port, the link, the input, the two
/// outputs, the clock and the seeds that are handed in. `shelf` has the stores, `memory_shelf`, which has no disks yet, gets those of a replay or of a script that is made.
pub fn run<S: Shelf, P: Port, L: Link, I: Source, O: Sink, E: Sink, C: Clock, R: Seeds>(
    alloc: Global,
    words: &[String],
    shelf: &mut S,
    memory_shelf: &mut MemShelf,
    port: &mut P,
    link: &mut L,
    input: &mut I,
    out: &mut O,
    err: &mut E,
    clock: &mut C,
    seeds: &mut R,
) -> Status
    requires fresh { (name : List ℕ) → shelf_slot memory_shelf.old name ≡ unknown }

    // What each line calls for of its input, and how much of it was appended.
    ensures seal { (line : SealLine) → IsSealLine (texts words.now) line → SealRuns line result
        (I.left input.old) (I.left input.new) (O.held out.old) (O.held out.new) (R.given seeds.old) (R.given seeds.new) }
    ensures open { (line : OpenLine) → IsOpenLine (texts words.now) line → RunsOver (OpenCallsFor line) (OpenRefuses line) result
        (I.left input.old) (I.left input.new) (O.held out.old) (O.held out.new) }
    ensures show { IsShowLine (texts words.now) → RunsOver IsShown ShowRefuses result
        (I.left input.old) (I.left input.new) (O.held out.old) (O.held out.new) }
    ensures replay { IsReplayLine (texts words.now) → RunsOver (ReplayCallsFor memory_shelf.new) ReplayRefuses result
        (I.left input.old) (I.left input.new) (O.held out.old) (O.held out.new) }
    // What a line of `gen` calls for by its values alone, and how much of it was appended.
    ensures generate { (line : GenLine) → IsGenLine (texts words.now) line → GenRuns line memory_shelf.new result (O.held out.old) (O.held out.new) }
    // What a line of `serve` did: how the store was loaded, which connections were served, and how many requests.
    ensures serve { (line : ServeLine) → IsServeLine (texts words.now) line →
        Serves ⟦<S::D as Disk>⟧ S.told S.slot S.fault_count P.goes P.bound O.held C.given R.given
        (handed shelf.old port.old out.old clock.old seeds.old) (handed shelf.new port.new out.new clock.new seeds.new) line result }
    // What a line of a device did: what it took of its input, the call that it made on the store, and how that ended.
    ensures device { (line : DeviceLine) → IsDeviceLine (texts words.now) line →
        DeviceRuns (EndsCall ⟦<S::D as Disk>⟧ S.told S.slot S.fault_count L.asks L.aimed R.given
        (handed_call shelf.old link.old seeds.old) (handed_call shelf.new link.new seeds.new))
        (handed_call shelf.new link.new seeds.new ≡ handed_call shelf.old link.old seeds.old) line
        (I.left input.old) (I.left input.new) (O.held out.old) (O.held out.new) result }
    ensures help { Asks (texts words.now) → AnswersWith result (I.left input.old) (I.left input.new) (O.held out.old) (O.held out.new) }

    // The words of each status, and the status of words that are no line.
    ensures spelled { AreWordsOf result (texts words.now) }
    ensures usage { IsUsage (texts words.now) → ¬ (Asks (texts words.now)) → (result ≡ Status.Usage) ⊎ (result ≡ Status.Memory) }

    // A text to which the line is a right one isn't refused.
    ensures accepted { (text : List ℕ) → HasText (I.left input.old) text → Accepts (texts words.now) text → ¬ (IsRefusal result) }

    // Nor is a text of which a device's line takes what it asks, but by the device.
    ensures taken { (line : DeviceLine) → IsDeviceLine (texts words.now) line → (text : List ℕ) → HasText (I.left input.old) text
        → (TakesPassword line.task → IsPassword (first_line text)) → ¬ (IsInputRefusal result) }

    // What stays as it was.
    ensures unread { IsUsage (texts words.now) → I.left input.new ≡ I.left input.old }
    ensures served_unread { IsServing (texts words.now) → I.left input.new ≡ I.left input.old }
    ensures gen_unread { IsGenerating (texts words.now) → I.left input.new ≡ I.left input.old }
    ensures undrawn { ((line : SealLine) → ¬ (IsSealLine (texts words.now) line)) → ¬ (IsServing (texts words.now)) → ¬ (IsDevicing (texts words.now))
        → R.given seeds.new ≡ R.given seeds.old }
    ensures unplayed { ¬ (IsReplayLine (texts words.now)) → ¬ (IsGenerating (texts words.now)) → memory_shelf.new ≡ memory_shelf.old }
    ensures unserved { ¬ (IsServing (texts words.now)) → AreLeft port.old port.new clock.old clock.new }
    ensures unasked { ¬ (IsDevicing (texts words.now)) → link.new ≡ link.old }
    ensures unstored { ¬ (IsServing (texts words.now)) → ¬ (IsDevicing (texts words.now)) → shelf.new ≡ shelf.old }
    ensures no_script { IsOfInput result → memory_shelf.new ≡ memory_shelf.old }
    ensures silent { IsSilent result → ¬ (IsServing (texts words.now)) → Keeps (O.held out.old) (O.held out.new) }

    ensures read { result ≡ Status.ReadFault → Rose (I.fault_count input.old) (I.fault_count input.new) }
    ensures write { result ≡ Status.WriteFault → Rose (O.fault_count out.old) (O.fault_count out.new) }
    ensures port { result ≡ Status.LinkFault → IsServing (texts words.now) → Rose (P.fault_count port.old) (P.fault_count port.new) }
    ensures link { result ≡ Status.LinkFault → IsDevicing (texts words.now) → Rose (L.fault_count link.old) (L.fault_count link.new) }
    ensures line_written { Tells (E.held err.old) (E.held err.new) (E.fault_count err.old) (E.fault_count err.new) (line_of result) }
{
    sealed_opens();
    read_back();
    one_script();
    let status = answer(
        alloc,
        words,
        shelf,
        memory_shelf,
        port,
        link,
        input,
        out,
        clock,
        seeds,
    );
    tell(alloc, err, status)
}

// All but the line.
fn answer<S: Shelf, P: Port, L: Link, I: Source, O: Sink, C: Clock, R: Seeds>(
    alloc: Global,
    words: &[String],
    shelf: &mut S,
    memory_shelf: &mut MemShelf,
    port: &mut P,
    link: &mut L,
    input: &mut I,
    out: &mut O,
    clock: &mut C,
    seeds: &mut R,
) -> Status
    requires fresh { (name : List ℕ) → shelf_slot memory_shelf.old name ≡ unknown }
    ensures met { Meets (texts words.now)
        (Serves ⟦<S::D as Disk>⟧ S.told S.slot S.fault_count P.goes P.bound O.held C.given R.given
        (handed shelf.old port.old out.old clock.old seeds.old) (handed shelf.new port.new out.new clock.new seeds.new))
        (EndsCall ⟦<S::D as Disk>⟧ S.told S.slot S.fault_count L.asks L.aimed R.given
        (handed_call shelf.old link.old seeds.old) (handed_call shelf.new link.new seeds.new))
        (handed_call shelf.new link.new seeds.new ≡ handed_call shelf.old link.old seeds.old)
        (AreLeft port.old port.new clock.old clock.new) (link.new ≡ link.old) (shelf.new ≡ shelf.old) result memory_shelf.old memory_shelf.new (I.left input.old) (I.left input.new) (O.held out.old) (O.held out.new)
        (R.given seeds.old) (R.given seeds.new) }
    ensures silent { IsSilent result → ¬ (IsServing (texts words.now)) → Keeps (O.held out.old) (O.held out.new) }
    ensures read { result ≡ Status.ReadFault → Rose (I.fault_count input.old) (I.fault_count input.new) }
    ensures port { result ≡ Status.LinkFault → IsServing (texts words.now) → Rose (P.fault_count port.old) (P.fault_count port.new) }
    ensures link { result ≡ Status.LinkFault → IsDevicing (texts words.now) → Rose (L.fault_count link.old) (L.fault_count link.new) }
    ensures write { result ≡ Status.WriteFault → Rose (O.fault_count out.old) (O.fault_count out.new) }
{
    match command_of(alloc, words) {
        Err(LineError::Usage) => Status::Usage,
        Err(LineError::Memory) => Status::Memory,
        Ok(Command::Seal(item, params)) => seal_input(alloc, &item, &params, input, out, seeds),
        Ok(Command::Open(item)) => open_input(alloc, &item, input, out),
        Ok(Command::Show) => show_input(alloc, input, out),
        Ok(Command::Replay) => replay_input(alloc, memory_shelf, input, out),
        Ok(Command::Gen(options)) => generate_and_replay(alloc, &options, memory_shelf, out),
        Ok(Command::Serve(options)) => {
            serve_store(alloc, &options, shelf, port, out, clock, seeds)
        }
        Ok(Command::Device(options)) => {
            call_store(alloc, &options, shelf, link, input, out, seeds)
        }
        Ok(Command::Help(text)) => answer_help(alloc, &text, out),
        Ok(Command::Version(text)) => answer_help(alloc, &text, out),
    }
}
