// The line of a status.
ghost use Rattle.std.specs.Prelude.{◌≡◌, ◌⊎◌, IfOk, string_bytes};
ghost use Rattle.sn_io.specs.Streams.{Tells};
ghost use Rattle.sn_status.specs.Lines.{line_of, item_text, form_text, IsTold};

use crate::client_lines::{client_line, place_line};
use crate::refusal::{FormRefusal, ItemRefusal, Refusal};
use crate::status::{Status, Unfit};
use sn_device::Place;
use sn_io::{Sink, write_all};
use sn_string::{Text, hex_text, uuid_text};
use std::alloc::{AllocError, Global};

/// Writes the line of a status. Where there is no memory for a line that tells values, the status is want of memory.
pub fn tell<E: Sink>(alloc: Global, err: &mut E, status: Status) -> Status
    ensures same { IsTold status result }
    ensures line_written { Tells (E.held err.old) (E.held err.new) (E.fault_count err.old) (E.fault_count err.new) (line_of result) }
{
    match status {
        Status::Done => Status::Done,
        Status::Usage => {
            put(err, b"sn: usage\n");
            Status::Usage
        }
        Status::DiskFault => {
            put(err, b"sn: disk fault\n");
            Status::DiskFault
        }
        Status::LinkFault => {
            put(err, b"sn: link fault\n");
            Status::LinkFault
        }
        Status::ReadFault => {
            put(err, b"sn: read fault\n");
            Status::ReadFault
        }
        Status::WriteFault => {
            put(err, b"sn: write fault\n");
            Status::WriteFault
        }
        Status::Memory => {
            put(err, b"sn: memory\n");
            Status::Memory
        }
        Status::Refused(refusal) => tell_refusal(alloc, err, refusal),
        Status::Foreign(unfit) => tell_unfit(alloc, err, unfit),
        Status::Server { status, tag } => tell_server(alloc, err, status, tag),
        Status::BadAnswer(place) => tell_place(alloc, err, place),
    }
}

fn tell_refusal<E: Sink>(alloc: Global, err: &mut E, refusal: Refusal) -> Status
    ensures same { (result ≡ Status.Refused refusal) ⊎ (result ≡ Status.Memory) }
    ensures line_written { Tells (E.held err.old) (E.held err.new) (E.fault_count err.old) (E.fault_count err.new) (line_of result) }
{
    match refusal_line(alloc, &refusal) {
        Ok(line) => {
            put(err, line.as_bytes());
            Status::Refused(refusal)
        }
        Err(AllocError) => {
            put(err, b"sn: memory\n");
            Status::Memory
        }
    }
}

fn tell_unfit<E: Sink>(alloc: Global, err: &mut E, unfit: Unfit) -> Status
    ensures same { (result ≡ Status.Foreign unfit) ⊎ (result ≡ Status.Memory) }
    ensures line_written { Tells (E.held err.old) (E.held err.new) (E.fault_count err.old) (E.fault_count err.new) (line_of result) }
{
    match unfit_line(alloc, unfit) {
        Ok(line) => {
            put(err, line.as_bytes());
            Status::Foreign(unfit)
        }
        Err(AllocError) => {
            put(err, b"sn: memory\n");
            Status::Memory
        }
    }
}

fn tell_server<E: Sink>(alloc: Global, err: &mut E, status: u16, tag: Text) -> Status
    ensures same { (result ≡ Status.Server status tag) ⊎ (result ≡ Status.Memory) }
    ensures line_written { Tells (E.held err.old) (E.held err.new) (E.fault_count err.old) (E.fault_count err.new) (line_of result) }
{
    match server_line(alloc, status, &tag) {
        Ok(line) => {
            put(err, line.as_bytes());
            Status::Server { status, tag }
        }
        Err(AllocError) => {
            put(err, b"sn: memory\n");
            Status::Memory
        }
    }
}

fn tell_place<E: Sink>(alloc: Global, err: &mut E, place: Place) -> Status
    ensures same { (result ≡ Status.BadAnswer place) ⊎ (result ≡ Status.Memory) }
    ensures line_written { Tells (E.held err.old) (E.held err.new) (E.fault_count err.old) (E.fault_count err.new) (line_of result) }
{
    match answer_line(alloc, &place) {
        Ok(line) => {
            put(err, line.as_bytes());
            Status::BadAnswer(place)
        }
        Err(AllocError) => {
            put(err, b"sn: memory\n");
            Status::Memory
        }
    }
}

// A fault here changes no status.
fn put<E: Sink>(err: &mut E, line: &[u8])
    ensures { Tells (E.held err.old) (E.held err.new) (E.fault_count err.old) (E.fault_count err.new) line.now }
{
    let _ = write_all(err, line);
}

fn refusal_line(alloc: Global, refusal: &Refusal) -> Result<String, AllocError>
    ensures { IfOk result (λ line. string_bytes line ≡ line_of (Status.Refused refusal.now)) }
{
    let text = match refusal {
        Refusal::InputLong => format!(in alloc; "cli.1 InputLong")?,
        Refusal::InputUtf8 { place } => format!(in alloc; "cli.2 InputUtf8 {place}")?,
        Refusal::Form(refusal) => form_line(alloc, refusal)?,
        Refusal::Item(refusal) => item_line(alloc, refusal)?,
        Refusal::Line { number } => format!(in alloc; "replay.1 Line {number}")?,
        Refusal::NotAllowed { number } => format!(in alloc; "replay.2 NotAllowed {number}")?,
        Refusal::PasswordLine { length } => format!(in alloc; "cli.3 PasswordLine {length}")?,
        Refusal::Client(refusal) => client_line(alloc, refusal)?,
    };
    format!(in alloc; "sn: {text}\n")
}

fn unfit_line(alloc: Global, unfit: Unfit) -> Result<String, AllocError>
    ensures { IfOk result (λ line. string_bytes line ≡ line_of (Status.Foreign unfit)) }
{
    match unfit {
        Unfit::Foreign { place } => format!(in alloc; "sn: foreign {place}\n"),
        Unfit::Damaged { place } => format!(in alloc; "sn: damaged {place}\n"),
        Unfit::Rows { kind } => {
            let number = kind.number();
            format!(in alloc; "sn: rows {number}\n")
        }
    }
}

fn server_line(alloc: Global, status: u16, tag: &Text) -> Result<String, AllocError>
    ensures { IfOk result (λ line. string_bytes line ≡ line_of (Status.Server status tag.now)) }
{
    let tag = tag.as_str();
    format!(in alloc; "sn: server {status} {tag}\n")
}

fn answer_line(alloc: Global, place: &Place) -> Result<String, AllocError>
    ensures { IfOk result (λ line. string_bytes line ≡ line_of (Status.BadAnswer place.now)) }
{
    let text = place_line(alloc, place)?;
    format!(in alloc; "sn: answer {text}\n")
}

fn item_line(alloc: Global, refusal: &ItemRefusal) -> Result<String, AllocError>
    ensures { IfOk result (λ line. string_bytes line ≡ item_text refusal.now) }
{
    match refusal {
        ItemRefusal::Form(refusal) => form_line(alloc, refusal),
        ItemRefusal::OtherUuid { written } => {
            let written = uuid_text(alloc, *written)?;
            format!(in alloc; "items.8 OtherUuid {written}")
        }
        ItemRefusal::HashMismatch { written, computed } => {
            let written = hex_text(alloc, written)?;
            let computed = hex_text(alloc, computed)?;
            format!(in alloc; "items.9 HashMismatch {written} {computed}")
        }
        ItemRefusal::Padding => format!(in alloc; "items.10 Padding"),
        ItemRefusal::NotUtf8 { place } => format!(in alloc; "items.11 NotUtf8 {place}"),
        ItemRefusal::NotItemKey => format!(in alloc; "items.12 NotItemKey"),
        ItemRefusal::NotObject => format!(in alloc; "items.13 NotObject"),
        ItemRefusal::OtherSet { nonce } => {
            let nonce = nonce.as_str();
            format!(in alloc; "items.14 OtherSet {nonce}")
        }
    }
}

fn form_line(alloc: Global, refusal: &FormRefusal) -> Result<String, AllocError>
    ensures { IfOk result (λ line. string_bytes line ≡ form_text refusal.now) }
{
    match refusal {
        FormRefusal::Parts { count } => format!(in alloc; "string.1 Parts {count}"),
        FormRefusal::Version { place } => format!(in alloc; "string.2 Version {place}"),
        FormRefusal::Hash { place } => format!(in alloc; "string.3 Hash {place}"),
        FormRefusal::Uuid { place } => format!(in alloc; "string.4 Uuid {place}"),
        FormRefusal::Iv { place } => format!(in alloc; "string.5 Iv {place}"),
        FormRefusal::Ciphertext { place } => format!(in alloc; "string.6 Ciphertext {place}"),
        FormRefusal::Params { place } => format!(in alloc; "string.7 Params {place}"),
    }
}
