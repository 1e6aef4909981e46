// A device's commands: what is taken of the input, the call on the store, and the output.
ghost use Rattle.std.specs.Prelude.{◌≡◌, ◌⊎◌, ℕ, List, IfErr, IfOk, IsErrOf, codes, length, string_bytes};
ghost use Rattle.std.specs.Io.KnownBytes.{Keeps};
ghost use Rattle.sn_calls.specs.Ends.{handed};
ghost use Rattle.sn_calls.specs.Parts.{HasBounds, call_of, server_of};
ghost use Rattle.sn_cli.specs.CallEnds.{EndsSo, output_of};
ghost use Rattle.sn_command.specs.Commands.{device_line, task_of, title_of};
ghost use Rattle.sn_cli.specs.DeviceCalls.{IsPassword, ReadsFor, TakesPassword, call_for, content_under, first_line, kept_of, server_for};
ghost use Rattle.sn_command.specs.DeviceLines.{HasTaskBounds, TakesInput};
ghost use Rattle.sn_cli.specs.Devices.{DeviceRuns};
ghost use Rattle.sn_cli.specs.Inputs.{ReadsText, StopsReading};
ghost use Rattle.sn_cli.specs.Runs.{EndsCall, IsSilent};
ghost use Rattle.sn_io.specs.Causes.{Rose};

use crate::ends::refused_status;
use crate::input::input_text;
use crate::listing::list_text;
use crate::output::write_out;
use crate::passwords::first_line;
use sn_calls::{Answered, CallEnd, DeviceCall, call};
use sn_command::{DeviceCommand, DeviceOptions, LEAST_COST};
use sn_disk::{Disk, Shelf};
use sn_io::{Seeds, Sink, Source};
use sn_net::Link;
use sn_notes::note;
use sn_status::{Refusal, Status, Unfit};
use sn_string::uuid_text;
use std::alloc::{AllocError, Global};

/// The type of the items that are put.
const NOTE: &str = "Note";

/// Makes the call of the command on the store, and writes what it gives.
pub fn call_store<S: Shelf, L: Link, I: Source, O: Sink, R: Seeds>(
    alloc: Global,
    options: &DeviceOptions<'_>,
    shelf: &mut S,
    link: &mut L,
    input: &mut I,
    out: &mut O,
    seeds: &mut R,
) -> Status
    requires { HasTaskBounds (task_of options.now.command) }
    ensures ran { DeviceRuns (EndsCall ⟦<S::D as Disk>⟧ S.told S.slot S.fault_count L.asks L.aimed R.given
        (handed shelf.old link.old seeds.old) (handed shelf.new link.new seeds.new))
        (handed shelf.new link.new seeds.new ≡ handed shelf.old link.old seeds.old) (device_line options.now)
        (I.left input.old) (I.left input.new) (O.held out.old) (O.held out.new) result }
    ensures silent { IsSilent result → Keeps (O.held out.old) (O.held out.new) }
    ensures read { result ≡ Status.ReadFault → Rose (I.fault_count input.old) (I.fault_count input.new) }
    ensures link { result ≡ Status.LinkFault → Rose (L.fault_count link.old) (L.fault_count link.new) }
    ensures write { result ≡ Status.WriteFault → Rose (O.fault_count out.old) (O.fault_count out.new) }
{
    let content = match content_for(alloc, &options.command, input) {
        Ok(content) => content,
        Err(status) => return status,
    };
    let asked = match call_for(&options.command, &content) {
        Ok(asked) => asked,
        Err(status) => return status,
    };
    let end = call(alloc, options.store, &asked, LEAST_COST, shelf, link, seeds);
    write_end(alloc, end, out)
}

// What the command makes of its input, which some don't read.
fn content_for<I: Source>(
    alloc: Global,
    command: &DeviceCommand<'_>,
    input: &mut I,
) -> Result<String, Status>
    ensures ok { IfOk result (λ content. (text : List ℕ) × ReadsFor (task_of command.now) (I.left input.old) (I.left input.new) text
        × (string_bytes content ≡ kept_of (task_of command.now) text)) }
    ensures err { IfErr result (λ status. TakesInput (task_of command.now) × StopsReading status (I.left input.old) (I.left input.new)) }
    ensures read { IsErrOf result Status.ReadFault → Rose (I.fault_count input.old) (I.fault_count input.new) }
{
    match command {
        DeviceCommand::Register { .. } => input_text(alloc, input),
        DeviceCommand::SignIn { .. } => input_text(alloc, input),
        DeviceCommand::Put { title } => put_content(alloc, *title, input),
        DeviceCommand::Edit { .. } => input_text(alloc, input),
        DeviceCommand::Delete { .. } => Ok(String::new(alloc)),
        DeviceCommand::List => Ok(String::new(alloc)),
        DeviceCommand::Content { .. } => Ok(String::new(alloc)),
        DeviceCommand::Sync { .. } => Ok(String::new(alloc)),
        DeviceCommand::ChangePassword { .. } => input_text(alloc, input),
    }
}

// The content of a new item: the input, or the note of this title of which it is the text.
fn put_content<I: Source>(
    alloc: Global,
    title: Option<&str>,
    input: &mut I,
) -> Result<String, Status>
    ensures ok { IfOk result (λ content. (text : List ℕ) × ReadsText (I.left input.old) (I.left input.new) text
        × (string_bytes content ≡ content_under (title_of title.entry) text)) }
    ensures err { IfErr result (λ status. StopsReading status (I.left input.old) (I.left input.new)) }
    ensures read { IsErrOf result Status.ReadFault → Rose (I.fault_count input.old) (I.fault_count input.new) }
{
    let text = match input_text(alloc, input) {
        Ok(text) => text,
        Err(status) => return Err(status),
    };
    match title {
        None => Ok(text),
        Some(title) => match note(alloc, title, &text) {
            Ok(content) => Ok(content),
            Err(AllocError) => Err(Status::Memory),
        },
    }
}

// The call that the command and its input spell.
fn call_for<'a>(command: &DeviceCommand<'a>, content: &'a str) -> Result<DeviceCall<'a>, Status>
    requires { HasTaskBounds (task_of command.now) }
    ensures ok { IfOk result (λ call. (text : List ℕ) → content.now ≡ kept_of (task_of command.now) text
        → (call_of call ≡ call_for (task_of command.now) text) × (server_of call ≡ server_for (task_of command.now))
        × (TakesPassword (task_of command.now) → IsPassword (first_line text))) }
    ensures bounds { IfOk result (λ call. HasBounds (call_of call)) }
    ensures err { IfErr result (λ status. TakesPassword (task_of command.now) × ¬ (IsPassword (first_line content.now))
        × (status ≡ Status.Refused (Refusal.PasswordLine (length (first_line content.now))))) }
{
    match command {
        DeviceCommand::Register {
            server,
            identifier,
            cost,
        } => Ok(DeviceCall::Register {
            server,
            identifier,
            password: password_of(content)?,
            cost: *cost,
        }),
        DeviceCommand::SignIn { server, identifier } => Ok(DeviceCall::SignIn {
            server,
            identifier,
            password: password_of(content)?,
        }),
        DeviceCommand::Put { .. } => Ok(DeviceCall::Put {
            kind: NOTE,
            text: content,
        }),
        DeviceCommand::Edit { uuid } => Ok(DeviceCall::Edit {
            uuid: *uuid,
            text: content,
        }),
        DeviceCommand::Delete { uuid } => Ok(DeviceCall::Delete { uuid: *uuid }),
        DeviceCommand::List => Ok(DeviceCall::List),
        DeviceCommand::Content { uuid } => Ok(DeviceCall::Content { uuid: *uuid }),
        DeviceCommand::Sync { server } => Ok(DeviceCall::Sync { server }),
        DeviceCommand::ChangePassword { server, cost } => Ok(DeviceCall::ChangePassword {
            server,
            password: password_of(content)?,
            cost: *cost,
        }),
    }
}

// The first line of the input, of 1 to 1024 bytes.
fn password_of(text: &str) -> Result<&str, Status>
    ensures ok { IfOk result (λ password. (password.now ≡ first_line text.now) × IsPassword password.now) }
    ensures err { IfErr result (λ status. ¬ (IsPassword (first_line text.now))
        × (status ≡ Status.Refused (Refusal.PasswordLine (length (first_line text.now))))) }
{
    let password = first_line(text);
    let length = password.len();
    if 1 <= length && length <= 1024 {
        Ok(password)
    } else {
        Err(Status::Refused(Refusal::PasswordLine { length }))
    }
}

// Writes what the call gave, where it was answered.
fn write_end<O: Sink>(alloc: Global, end: CallEnd, out: &mut O) -> Status
    ensures ends { EndsSo end result (O.held out.old) (O.held out.new) }
    ensures write { result ≡ Status.WriteFault → Rose (O.fault_count out.old) (O.fault_count out.new) }
{
    match end {
        CallEnd::Answered(answered) => match output_of(alloc, answered) {
            Ok(output) => write_out(out, output.as_bytes()),
            Err(AllocError) => Status::Memory,
        },
        CallEnd::Refused(error) => refused_status(error),
        CallEnd::Foreign { place } => Status::Foreign(Unfit::Foreign { place }),
        CallEnd::Damaged { place } => Status::Foreign(Unfit::Damaged { place }),
        CallEnd::Rows { kind } => Status::Foreign(Unfit::Rows { kind }),
        CallEnd::DiskFault => Status::DiskFault,
        CallEnd::LinkFault => Status::LinkFault,
        CallEnd::Memory => Status::Memory,
    }
}

fn output_of(alloc: Global, answered: Answered) -> Result<String, AllocError>
    ensures { IfOk result (λ output. string_bytes output ≡ output_of answered) }
{
    match answered {
        Answered::Nothing => "ok\n".to_string(alloc),
        Answered::Uuid(uuid) => {
            let uuid = uuid_text(alloc, uuid)?;
            format!(in alloc; "{uuid}\n")
        }
        Answered::Text(text) => Ok(text),
        Answered::Lines(rows) => list_text(alloc, rows.as_slice()),
    }
}
