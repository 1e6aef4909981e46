//! Writing an answer, and reading the one in some bytes.
ghost use Rattle.std.specs.Prelude.{◌≡◌, ◌≤◌, ◌++◌, ℕ, List, length, codes, IfOk, OnOk, OnErr};
ghost use Rattle.std.specs.Io.KnownBytes.{Appends};
ghost use Rattle.std.specs.List.{flat_map};
ghost use Rattle.sn_io.specs.Causes.{CountsFailure};
ghost use Rattle.sn_io.specs.Streams.{TakesPart};
ghost use Rattle.sn_http.specs.Lines.{line, content_type, content_length, close, only_if};
ghost use Rattle.sn_http.specs.Answers.{phrase, allowed, challenge, status_line, answer, Passes, IsAnswer};

use crate::answer_head::answer_head_in;
use crate::block::{Block, put, send};
use crate::carry::first_bytes;
use itoa::Buffer;
use sn_io::{Failed, Sink};
use thiserror::Error;

/// An answer was not written whole.
#[derive(Clone, Copy, Debug, PartialEq, Eq, Error)]
#[error("the answer was not written whole")]
pub struct WriteFault;

impl From<Failed> for WriteFault {
    fn from(_: Failed) -> WriteFault {
        WriteFault
    }
}

/// Some bytes are not one answer.
#[derive(Clone, Copy, Debug, PartialEq, Eq, Error)]
#[error("the bytes are not one answer")]
pub struct NoAnswer;

/// Writes an answer. `allow` is the method that a 405 allows, and else empty. It takes no memory.
pub fn write_answer<K: Sink>(
    sink: &mut K,
    status: u16,
    allow: &str,
    closing: bool,
    body: &[u8],
) -> Result<(), WriteFault>
    ensures ok { OnOk result (Appends (K.held sink.old) (K.held sink.new) (answer status allow.now closing body.now)) }
    ensures err { OnErr result (TakesPart (K.held sink.old) (K.held sink.new) (answer status allow.now closing body.now)) }
    ensures cause { CountsFailure (K.fault_count sink.old) (K.fault_count sink.new) result }
{
    let mut block = start_of(status, body.len());
    let end = end_of(status, closing);
    put_allow(sink, &mut block, allow.as_bytes())?;
    put(sink, &mut block, end.bytes())?;
    send(sink, block, body)?;
    Ok(())
}

// The status line, and the fields that each answer has.
fn start_of(status: u16, size: usize) -> Block
    ensures { result ≡ status_line status ++ flat_map line (content_type ++ content_length size) }
{
    let mut digits = Buffer::new();
    let mut block = status_line(status);
    block.push_line(b"Content-Type", b"application/json");
    block.push_line(b"Content-Length", digits.format(size).as_bytes());
    block
}

fn status_line(status: u16) -> Block
    ensures is { result ≡ status_line status }
    ensures short { length result ≤ 84 }
{
    let mut digits = Buffer::new();
    let mut block = Block::new();
    block.push(b"HTTP/1.1 ");
    block.push(digits.format(status).as_bytes());
    block.push(b" ");
    block.push(phrase(status).as_bytes());
    block.push(b"\r\n");
    block
}

fn phrase(status: u16) -> &'static str
    ensures is { result.now ≡ phrase status }
    ensures short { length result.now ≤ 32 }
{
    match status {
        200 => "OK",
        400 => "Bad Request",
        401 => "Unauthorized",
        404 => "Not Found",
        405 => "Method Not Allowed",
        409 => "Conflict",
        411 => "Length Required",
        413 => "Content Too Large",
        501 => "Not Implemented",
        503 => "Service Unavailable",
        _ => "",
    }
}

// The fields behind Allow, and the empty line.
fn end_of(status: u16, closing: bool) -> Block
    ensures { result ≡ flat_map line (challenge status) ++ flat_map line (only_if closing close) ++ codes "\r\n" }
{
    let mut block = Block::new();
    block.push(challenge(status));
    block.push(close(closing));
    block.push(b"\r\n");
    block
}

fn challenge(status: u16) -> &'static [u8]
    ensures is { result.now ≡ flat_map line (challenge status) }
    ensures short { length result.now ≤ 32 }
{
    if status == 401 {
        b"WWW-Authenticate: Bearer\r\n"
    } else {
        b""
    }
}

fn close(closing: bool) -> &'static [u8]
    ensures is { result.now ≡ flat_map line (only_if closing close) }
    ensures short { length result.now ≤ 32 }
{
    if closing {
        b"Connection: close\r\n"
    } else {
        b""
    }
}

fn put_allow<K: Sink>(sink: &mut K, block: &mut Block, allow: &[u8]) -> Result<(), Failed>
    ensures ok { OnOk result (Passes (K.held sink.old) (K.held sink.new) block.old block.new (flat_map line (allowed allow.now))) }
    ensures err { OnErr result (TakesPart (K.held sink.old) (K.held sink.new) (block.old ++ flat_map line (allowed allow.now))) }
    ensures cause { CountsFailure (K.fault_count sink.old) (K.fault_count sink.new) result }
{
    if allow.is_empty() {
        return Ok(());
    }
    put(sink, block, b"Allow: ")?;
    put(sink, block, allow)?;
    put(sink, block, b"\r\n")?;
    Ok(())
}

/// The status and the body of the one answer that the bytes are: a head within the bounds of a request's, a
/// Content-Length of at most 33,554,432, and exactly so many bytes behind the head. Bodies in a coding aren't known
/// here. It takes no memory.
pub fn read_answer(bytes: &[u8]) -> Result<(u16, &[u8]), NoAnswer>
    ensures ok { IfOk result (λ read. IsAnswer bytes.now read.0 read.1.now) }
    ensures err { OnErr result ((status : ℕ) (body : List ℕ) → ¬ (IsAnswer bytes.now status body)) }
{
    let Some(head) = answer_head_in(first_bytes(bytes)) else {
        return Err(NoAnswer);
    };
    let Ok(size) = head.size else {
        return Err(NoAnswer);
    };
    if size != bytes.len() - head.len {
        return Err(NoAnswer);
    }
    Ok((head.status, &bytes[head.len..]))
}
