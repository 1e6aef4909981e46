// A reader and a writer as a source and a sink.
ghost use Rattle.std.specs.Prelude.{◌≡◌, None};
ghost use Rattle.std.specs.Io.{ReadsAtMost, WritesAtMost};

use crate::faults::{counted, fault};
use sn_io::{Failed, Sink, Source};
use std::io;
use std::io::{ErrorKind, Read, Write};

// How often a call is made that a signal interrupts, as where the program is stopped and goes on.
const TRIES: u32 = 1000;

/// A reader, as standard input or a socket.
#[derive(Drop)]
pub struct Input<R: Read + Drop> {
    pub(crate) reader: R,
    faults: u64,
}

impl<R: Read + Drop> Input<R> {
    pub fn new(reader: R) -> Input<R> {
        Input { reader, faults: 0 }
    }
}

impl<R: Read + Drop> Source for Input<R> {
    ghost left = { λ _. None };

    ghost fault_count = { λ input. input.faults };

    fn faults(&self) -> u64 {
        self.faults
    }

    fn read(&mut self, into: &mut [u8]) -> Result<usize, Failed> {
        counted(read_on(&mut self.reader, into), &mut self.faults)
    }
}

/// A writer, as standard output or a socket. A write that takes nothing is a fault.
#[derive(Drop)]
pub struct Output<W: Write + Drop> {
    writer: W,
    faults: u64,
}

impl<W: Write + Drop> Output<W> {
    pub fn new(writer: W) -> Output<W> {
        Output { writer, faults: 0 }
    }
}

impl<W: Write + Drop> Sink for Output<W> {
    ghost held = { λ _. None };

    ghost fault_count = { λ output. output.faults };

    fn faults(&self) -> u64 {
        self.faults
    }

    fn write(&mut self, bytes: &[u8]) -> Result<usize, Failed> {
        if bytes.is_empty() {
            return Ok(0);
        }
        match write_on(&mut self.writer, bytes) {
            Ok(count) if count > 0 => Ok(count),
            _ => Err(fault(&mut self.faults)),
        }
    }
}

// Reads once, and again where a signal interrupts that.
fn read_on<R: Read>(reader: &mut R, into: &mut [u8]) -> io::Result<usize>
    ensures { ReadsAtMost result into.new }
{
    for _ in 0..TRIES {
        match reader.read(into) {
            Err(error) if error.kind() == ErrorKind::Interrupted => {}
            read => return read,
        }
    }
    Err(io::Error::from(ErrorKind::Interrupted))
}

// Writes once, and again where a signal interrupts that.
fn write_on<W: Write>(writer: &mut W, bytes: &[u8]) -> io::Result<usize>
    ensures { WritesAtMost result bytes.now }
{
    for _ in 0..TRIES {
        match writer.write(bytes) {
            Err(error) if error.kind() == ErrorKind::Interrupted => {}
            written => return written,
        }
    }
    Err(io::Error::from(ErrorKind::Interrupted))
}
