// The input of a command, as one text.
ghost use Rattle.std.specs.Prelude.{◌≡◌, IfErr, IfOk, IsErrOf, string_bytes};
ghost use Rattle.sn_io.specs.Causes.{Rose};
ghost use Rattle.sn_cli.specs.Inputs.{MOST_INPUT, IsOneLine, ReadsText, StopsReading};

use sn_io::{ReadError, Source, read_all};
use sn_items::utf8_text;
use sn_status::{Refusal, Status};
use std::alloc::Global;

const MOST_INPUT: usize = 1 << 24;

/// The whole input, where it is UTF-8 and has at most 16,777,216 bytes, else the status that it brings about.
pub fn input_text<I: Source>(alloc: Global, input: &mut I) -> Result<String, Status>
    ensures ok { IfOk result (λ text. ReadsText (I.left input.old) (I.left input.new) (string_bytes text)) }
    ensures err { IfErr result (λ status. StopsReading status (I.left input.old) (I.left input.new)) }
    ensures read { IsErrOf result Status.ReadFault → Rose (I.fault_count input.old) (I.fault_count input.new) }
{
    let bytes = match read_all(alloc, input, MOST_INPUT) {
        Ok(bytes) => bytes,
        Err(ReadError::Failed) => return Err(Status::ReadFault),
        Err(ReadError::Long) => return Err(Status::Refused(Refusal::InputLong)),
        Err(ReadError::Memory) => return Err(Status::Memory),
    };
    match utf8_text(bytes) {
        Ok(text) => Ok(text),
        Err(place) => Err(Status::Refused(Refusal::InputUtf8 { place })),
    }
}

/// The text without a line feed at its end.
pub fn one_line(text: &str) -> &str
    ensures { IsOneLine text.now result.now }
{
    match text.strip_suffix('\n') {
        Some(line) => line,
        None => text,
    }
}
