// `open`.
ghost use Rattle.std.specs.Prelude.{◌≡◌};
ghost use Rattle.std.specs.Io.KnownBytes.{Keeps};
ghost use Rattle.sn_io.specs.Causes.{Rose};
ghost use Rattle.sn_cli.specs.Calls.{OpenCallsFor, OpenRefuses};
ghost use Rattle.sn_command.specs.Commands.{open_line};
ghost use Rattle.sn_cli.specs.Runs.{IsSilent, RunsOver};

use crate::input::{input_text, one_line};
use crate::output::write_out;
use sn_command::ItemOptions;
use sn_io::{Sink, Source};
use sn_items::{halves, open_text};
use sn_status::{Refusal, Status, item_refusal};
use std::alloc::Global;

/// Opens the input's one 003 string and writes its plain bytes.
pub fn open_input<I: Source, O: Sink>(
    alloc: Global,
    item: &ItemOptions,
    input: &mut I,
    out: &mut O,
) -> Status
    ensures ran { RunsOver (OpenCallsFor (open_line item.now)) (OpenRefuses (open_line item.now)) result
        (I.left input.old) (I.left input.new) (O.held out.old) (O.held out.new) }
    ensures silent { IsSilent result → Keeps (O.held out.old) (O.held out.new) }
    ensures read { result ≡ Status.ReadFault → Rose (I.fault_count input.old) (I.fault_count input.new) }
    ensures write { result ≡ Status.WriteFault → Rose (O.fault_count out.old) (O.fault_count out.new) }
{
    let text = match input_text(alloc, input) {
        Ok(text) => text,
        Err(status) => return status,
    };
    let (encryption_key, authentication_key) = halves(&item.key);
    let line = one_line(&text);
    match open_text(alloc, line, item.uuid, &encryption_key, &authentication_key) {
        Ok(plain) => write_out(out, plain.as_bytes()),
        Err(error) => match item_refusal(error) {
            Some(refusal) => Status::Refused(Refusal::Item(refusal)),
            None => Status::Memory,
        },
    }
}
