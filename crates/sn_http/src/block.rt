//! Bytes on their way to a sink, held back in a block on the stack.
ghost use Rattle.std.specs.Prelude.{◌≡◌, ◌≤◌, ◌+◌, ◌++◌, [], length, nat_le, OnOk, OnErr};
ghost use Rattle.std.specs.Io.KnownBytes.{Appends};
ghost use Rattle.sn_io.specs.Causes.{CountsFailure};
ghost use Rattle.sn_io.specs.Streams.{TakesPart};
ghost use Rattle.sn_http.specs.Lines.{line};
ghost use Rattle.sn_http.specs.Answers.{Passes};

use sn_io::{Failed, Sink, write_all};
use std::marker::Model;

const BLOCK: usize = 4096;

/// At most 4,096 bytes.
#[derive(Drop)]
pub(crate) struct Block {
    buffer: [u8; 4096],
    len: usize,
}

impl Model for Block {
    ghost use Rattle.std.specs.Prelude.{ℕ, List, ◌≤◌, take};

    ghost Value = { List ℕ };

    ghost view = { λ b. take b.len b.buffer };

    ghost invariant = { λ b. b.len ≤ 4096 };
}

impl Block {
    pub fn new() -> Block
        ensures { result ≡ [] }
    {
        Block {
            buffer: [0; BLOCK],
            len: 0,
        }
    }

    pub fn bytes(&self) -> &[u8]
        ensures is { result.now ≡ self.now }
        ensures short { length self.now ≤ 4096 }
    {
        &self.buffer[..self.len]
    }

    /// Holds back more bytes, for which there is room.
    pub fn push(&mut self, piece: &[u8])
        requires { length self.old + length piece.now ≤ 4096 }
        ensures { self.new ≡ self.old ++ piece.now }
    {
        let end = self.len + piece.len();
        self.buffer[self.len..end].copy_from_slice(piece);
        self.len = end;
    }

    /// Holds back a field's line, for which there is room.
    pub fn push_line(&mut self, name: &[u8], value: &[u8])
        requires { length self.old + (length name.now + length value.now + 4) ≤ 4096 }
        ensures { self.new ≡ self.old ++ line (name.now, value.now) }
    {
        self.push(name);
        self.push(b": ");
        self.push(value);
        self.push(b"\r\n");
    }

    pub fn clear(&mut self)
        ensures { self.new ≡ [] }
    {
        self.len = 0;
    }

    pub fn has_room(&self, count: usize) -> bool
        ensures { result ≡ nat_le (length self.now + count) 4096 }
    {
        count <= BLOCK - self.len
    }
}

/// Sends bytes on, behind those that were held back, or holds them back where there is room.
pub(crate) fn put<K: Sink>(sink: &mut K, block: &mut Block, piece: &[u8]) -> Result<(), Failed>
    ensures ok { OnOk result (Passes (K.held sink.old) (K.held sink.new) block.old block.new piece.now) }
    ensures err { OnErr result (TakesPart (K.held sink.old) (K.held sink.new) (block.old ++ piece.now)) }
    ensures cause { CountsFailure (K.fault_count sink.old) (K.fault_count sink.new) result }
{
    if block.has_room(piece.len()) {
        block.push(piece);
        return Ok(());
    }
    write_both(sink, block.bytes(), piece)?;
    block.clear();
    Ok(())
}

/// Sends on what was held back, and the bytes behind it.
pub(crate) fn send<K: Sink>(sink: &mut K, mut block: Block, piece: &[u8]) -> Result<(), Failed>
    ensures ok { OnOk result (Appends (K.held sink.old) (K.held sink.new) (block ++ piece.now)) }
    ensures err { OnErr result (TakesPart (K.held sink.old) (K.held sink.new) (block ++ piece.now)) }
    ensures cause { CountsFailure (K.fault_count sink.old) (K.fault_count sink.new) result }
{
    if block.has_room(piece.len()) {
        block.push(piece);
        return write_all(sink, block.bytes());
    }
    write_both(sink, block.bytes(), piece)
}

fn write_both<K: Sink>(sink: &mut K, first: &[u8], second: &[u8]) -> Result<(), Failed>
    ensures ok { OnOk result (Appends (K.held sink.old) (K.held sink.new) (first.now ++ second.now)) }
    ensures err { OnErr result (TakesPart (K.held sink.old) (K.held sink.new) (first.now ++ second.now)) }
    ensures cause { CountsFailure (K.fault_count sink.old) (K.fault_count sink.new) result }
{
    write_all(sink, first)?;
    write_all(sink, second)?;
    Ok(())
}
