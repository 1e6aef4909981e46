//! Messages of HTTP, read from bytes that come in pieces, and written.

ghost use Rattle.std.specs.Prelude.{◌≡◌, ◌<◌, ◌≤◌, ◌-◌, ◌^◌, length, take, drop, IfSome, Some};
ghost use Rattle.sn_http.specs.Answers.{answer};
ghost use Rattle.sn_http.specs.Requests.{request};

use itoa::Buffer;
use sn_http::{Carry, Incoming, Message, read_answer, read_message, write_answer, write_request};
use sn_io::{Failed, MemSink, Source};
use std::alloc::{AllocError, Global};

// Bytes in pieces. The piece that begins at a place has the size that stands there in the list of sizes, taken over and
// over again, and at least one byte.
#[derive(Drop)]
struct Pieces<'b> {
    bytes: &'b [u8],
    at: usize,
    sizes: &'b [u32],
    ghost within: { at ≤ length bytes.now },
}

impl Pieces<'_> {
    fn size(&self) -> usize
        ensures { 0 < result }
    {
        if self.sizes.is_empty() {
            return usize::MAX;
        }
        (self.sizes[self.at % self.sizes.len()] as usize).max(1)
    }
}

impl Source for Pieces<'_> {
    ghost use Rattle.std.specs.Prelude.{Some, drop};

    ghost left = { λ s. Some (drop s.at s.bytes.now) };

    ghost fault_count = { λ _. 0 };

    fn faults(&self) -> u64 {
        0
    }

    fn read(&mut self, into: &mut [u8]) -> Result<usize, Failed> {
        let size = self.size();
        let rest = &self.bytes[self.at..];
        let count = rest.len().min(into.len()).min(size);
        into[..count].copy_from_slice(&rest[..count]);
        self.at += count;
        Ok(count)
    }
}

/// Reads the messages of some bytes, which come in pieces of these sizes, and writes a line for each and one for what
/// ends them: `message PLACE CLOSING METHOD TARGET TOKEN BODY` with the texts in hex behind an `x`, `check STATUS PLACE`,
/// `end`. Answers the length of the lines, and 2^64 - 1 where there is no room for them or memory was wanting.
#[unsafe(no_mangle)]
pub extern "C" fn sn_bench_http_messages(
    alloc: Global,
    bytes: &[u8],
    sizes: &[u32],
    lines: &mut [u8],
) -> u64 {
    match lines_of(alloc, bytes, sizes) {
        Ok(all) => copied_to(&all, lines),
        Err(_) => u64::MAX,
    }
}

fn lines_of(alloc: Global, bytes: &[u8], sizes: &[u32]) -> Result<Vec<u8>, AllocError> {
    let mut source = Pieces {
        bytes,
        at: 0,
        sizes,
    };
    let mut carry = Carry::new(alloc);
    let mut lines = Vec::new(alloc);
    'messages: for _ in 0..=bytes.len() {
        let incoming = read_message(alloc, &mut source, &mut carry);
        if !push_line(&mut lines, &incoming)? {
            break;
        }
    }
    Ok(lines)
}

// Whether a message may follow.
fn push_line(lines: &mut Vec<u8>, incoming: &Incoming) -> Result<bool, AllocError> {
    match incoming {
        Incoming::Message(message) => {
            push_message(lines, message)?;
            Ok(true)
        }
        Incoming::Check { status, place } => {
            push_check(lines, *status, *place)?;
            Ok(false)
        }
        Incoming::End => {
            lines.extend_from_slice(b"end\n")?;
            Ok(false)
        }
        Incoming::ReadFault => {
            lines.extend_from_slice(b"fault\n")?;
            Ok(false)
        }
        Incoming::Memory => Err(AllocError),
    }
}

fn push_message(lines: &mut Vec<u8>, message: &Message) -> Result<(), AllocError> {
    lines.extend_from_slice(b"message ")?;
    push_number(lines, message.place)?;
    push_number(lines, message.closing as u64)?;
    push_hex(lines, message.method.as_slice())?;
    push_hex(lines, message.target.as_slice())?;
    push_hex(lines, message.token.as_slice())?;
    push_hex(lines, message.body.as_slice())?;
    lines.extend_from_slice(b"\n")
}

fn push_check(lines: &mut Vec<u8>, status: u16, place: u64) -> Result<(), AllocError> {
    lines.extend_from_slice(b"check ")?;
    push_number(lines, status as u64)?;
    push_number(lines, place)?;
    lines.extend_from_slice(b"\n")
}

fn push_number(lines: &mut Vec<u8>, number: u64) -> Result<(), AllocError> {
    let mut buffer = Buffer::new();
    lines.extend_from_slice(buffer.format(number).as_bytes())?;
    lines.extend_from_slice(b" ")
}

fn push_hex(lines: &mut Vec<u8>, bytes: &[u8]) -> Result<(), AllocError> {
    let digits = b"0123456789abcdef";
    lines.extend_from_slice(b"x")?;
    for byte in bytes {
        let pair = [digits[(*byte >> 4) as usize], digits[(*byte & 15) as usize]];
        lines.extend_from_slice(&pair)?;
    }
    lines.extend_from_slice(b" ")
}

/// Reads the messages of some bytes, which come in pieces of these sizes, so many times. Answers how many messages came
/// in all, and 2^64 - 1 where memory was wanting.
#[unsafe(no_mangle)]
pub extern "C" fn sn_bench_http_count(
    alloc: Global,
    bytes: &[u8],
    sizes: &[u32],
    rounds: u64,
) -> u64 {
    let mut found = 0u64;
    'rounds: for _ in 0..rounds {
        match count_of(alloc, bytes, sizes) {
            Some(count) => found = found.saturating_add(count),
            None => return u64::MAX,
        }
    }
    found
}

fn count_of(alloc: Global, bytes: &[u8], sizes: &[u32]) -> Option<u64> {
    let mut source = Pieces {
        bytes,
        at: 0,
        sizes,
    };
    let mut carry = Carry::new(alloc);
    let mut count = 0u64;
    'messages: for _ in 0..=bytes.len() {
        match read_message(alloc, &mut source, &mut carry) {
            Incoming::Message(_message) => count = count.saturating_add(1),
            Incoming::Memory => return None,
            _ => return Some(count),
        }
    }
    Some(count)
}

/// Writes an answer. Answers its length, and 2^64 - 1 where `allow` isn't UTF-8, there is no room for it, or memory was
/// wanting.
#[unsafe(no_mangle)]
pub extern "C" fn sn_bench_http_write_answer(
    alloc: Global,
    status: u16,
    allow: &[u8],
    closing: bool,
    body: &[u8],
    written: &mut [u8],
) -> u64
    ensures { result < 2 ^ 64 - 1 → take result written.new ≡ answer status allow.now closing body.now }
{
    let Some(allow) = text_of(allow) else {
        return u64::MAX;
    };
    let mut sink = MemSink::new(alloc, usize::MAX, Vec::new(alloc));
    match write_answer(&mut sink, status, allow, closing, body) {
        Ok(()) => copied_to(sink.bytes(), written),
        Err(_) => u64::MAX,
    }
}

/// Writes a request. Answers its length, and 2^64 - 1 where a text isn't UTF-8, there is no room for it, or memory was
/// wanting.
#[unsafe(no_mangle)]
pub extern "C" fn sn_bench_http_write_request(
    alloc: Global,
    method: &[u8],
    target: &[u8],
    host: &[u8],
    token: &[u8],
    body: &[u8],
    written: &mut [u8],
) -> u64
    ensures { result < 2 ^ 64 - 1 → take result written.new ≡ request method.now target.now host.now token.now body.now }
{
    let (Some(method), Some(target), Some(host)) = (text_of(method), text_of(target), text_of(host))
    else {
        return u64::MAX;
    };
    match write_request(alloc, method, target, host, token, body) {
        Ok(bytes) => copied_to(&bytes, written),
        Err(_) => u64::MAX,
    }
}

/// Reads the one answer that some bytes are. Answers its status times 2^32 and the length of its body, which ends with
/// the bytes, and 2^64 - 1 where they aren't one answer.
#[unsafe(no_mangle)]
pub extern "C" fn sn_bench_http_read_answer(bytes: &[u8]) -> u64 {
    match read_answer(bytes) {
        Ok((status, body)) => ((status as u64) << 32).saturating_add(body.len() as u64),
        Err(_) => u64::MAX,
    }
}

fn text_of(bytes: &[u8]) -> Option<&str>
    ensures { IfSome result (λ text. text.now ≡ bytes.now) }
{
    match str::from_utf8(bytes) {
        Ok(text) => Some(text),
        Err(_) => None,
    }
}

pub(crate) fn copied_to(bytes: &[u8], out: &mut [u8]) -> u64
    ensures { result < 2 ^ 64 - 1 → take result out.new ≡ bytes.now }
{
    if bytes.len() > out.len() {
        return u64::MAX;
    }
    out[..bytes.len()].copy_from_slice(bytes);
    bytes.len() as u64
}
