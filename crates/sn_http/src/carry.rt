// The bytes that were read and not taken yet.
ghost use Rattle.std.specs.Prelude.{◌≡◌, ◌+◌, ◌-◌, ◌≤◌, ◌^◌, ◌++◌, [], ℕ, List, length, take, drop, min, IsErrOf};
ghost use Rattle.std.specs.Io.KnownBytes.{Keeps, IsAtEnd};
ghost use Rattle.std.specs.Vec.{vec_len, vec_capacity};
ghost use Rattle.sn_io.specs.Causes.{Rose};
ghost use Rattle.sn_http.specs.Heads.{Fills};

use sn_io::{Failed, Source};
use std::alloc::Global;
use std::marker::Model;

const BLOCK: usize = 4096;

pub(crate) const HEAD_LIMIT: usize = 16384;

/// The bytes read ahead of the messages that were taken, and how many bytes these were.
#[derive(Debug, Drop)]
pub struct Carry {
    buffer: Vec<u8>,
    start: usize,
    place: u64,
}

impl Model for Carry {
    ghost use Rattle.std.specs.Prelude.{◌≤◌, length, drop};
    ghost use Rattle.sn_http.specs.Heads.{Carried};

    ghost Value = { Carried };

    ghost view = { λ c. record { bytes = drop c.start c.buffer.items; place = c.place } };

    ghost invariant = { λ c. c.start ≤ length c.buffer.items };
}

/// Why no more bytes came.
pub(crate) enum FillError {
    Failed,
    Memory,
}

impl Carry {
    pub fn new(alloc: Global) -> Carry
        ensures { result ≡ record { bytes = []; place = 0 } }
    {
        Carry {
            buffer: Vec::new(alloc),
            start: 0,
            place: 0,
        }
    }

    pub(crate) fn bytes(&self) -> &[u8]
        ensures { result.now ≡ self.now.bytes }
    {
        &self.buffer[self.start..]
    }

    // The bytes in which a head is to end.
    pub(crate) fn front(&self) -> &[u8]
        ensures { result.now ≡ take 16384 self.now.bytes }
    {
        first_bytes(self.bytes())
    }

    pub(crate) fn place(&self) -> u64
        ensures { result ≡ self.now.place }
    {
        self.place
    }

    // Takes so many bytes from the front.
    pub(crate) fn take(&mut self, count: usize)
        requires { count ≤ length self.old.bytes }
        ensures bytes { self.new.bytes ≡ drop count self.old.bytes }
        ensures place { self.new.place ≡ min (self.old.place + count) (2 ^ 64 - 1) }
    {
        self.start += count;
        self.place = self.place.saturating_add(count as u64);
    }

    // Reads once more. No bytes are the end of the input.
    pub(crate) fn fill<S: Source>(&mut self, source: &mut S) -> Result<usize, FillError>
        ensures fills { Fills (S.left source.old) (S.left source.new) self.old.bytes self.new.bytes result }
        ensures place { self.new.place ≡ self.old.place }
        ensures fault { IsErrOf result FillError.Failed → Rose (S.fault_count source.old) (S.fault_count source.new) }
        ensures later { S.fault_count source.old ≤ S.fault_count source.new }
    {
        if self.start > 0 {
            remove_front(&mut self.buffer, self.start);
            self.start = 0;
        }
        if self.buffer.reserve(BLOCK).is_err() {
            return Err(FillError::Memory);
        }
        read_block(&mut self.buffer, source)
    }
}

/// The bytes in which a head is to end.
pub(crate) fn first_bytes(bytes: &[u8]) -> &[u8]
    ensures is { result.now ≡ take 16384 bytes.now }
    ensures short { length result.now ≤ 16384 }
    ensures within { length result.now ≤ length bytes.now }
{
    &bytes[..HEAD_LIMIT.min(bytes.len())]
}

// Reads once, behind the bytes that are there.
fn read_block<S: Source>(buffer: &mut Vec<u8>, source: &mut S) -> Result<usize, FillError>
    requires { vec_len buffer.old + 4096 ≤ vec_capacity buffer.old }
    ensures fills { Fills (S.left source.old) (S.left source.new) buffer.old.items buffer.new.items result }
    ensures fault { IsErrOf result FillError.Failed → Rose (S.fault_count source.old) (S.fault_count source.new) }
    ensures later { S.fault_count source.old ≤ S.fault_count source.new }
{
    let mut block = [0u8; BLOCK];
    match source.read(&mut block) {
        Ok(count) => {
            let Ok(()) = buffer.extend_from_slice(&block[..count]) else {
                unreachable!()
            };
            Ok(count)
        }
        Err(Failed) => Err(FillError::Failed),
    }
}

fn remove_front(buffer: &mut Vec<u8>, count: usize)
    requires { count ≤ length buffer.old.items }
    ensures { buffer.new.items ≡ drop count buffer.old.items }
{
    let len = buffer.len();
    buffer.copy_within(count..len, 0);
    buffer.truncate(len - count);
}
