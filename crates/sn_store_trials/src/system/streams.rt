//! The adapters over a reader and a writer that go by small pieces and are interrupted.

use sn_io::{Sink, Source, read_all, write_all};
use sn_system::{Input, Output};
use std::alloc::Global;
use std::io;
use std::io::{Read, Write};

const DIGITS: &[u8] = b"0123456789";

// Is interrupted at every other call, from the first on. At each other one it gives three bytes.
#[derive(Drop)]
struct Pieces<'a> {
    text: &'a [u8],
    calls: u64,
}

impl<'a> Read for Pieces<'a> {
    fn read(&mut self, buf: &mut [u8]) -> io::Result<usize> {
        let call = self.calls;
        self.calls = call.saturating_add(1);
        if call % 2 == 0 {
            return Err(io::Error::from(io::ErrorKind::Interrupted));
        }
        let count = self.text.len().min(buf.len()).min(3);
        buf[..count].copy_from_slice(&self.text[..count]);
        self.text = &self.text[count..];
        Ok(count)
    }
}

// Is interrupted likewise. At each other call it takes three bytes, but nothing at the call of this number, from 0.
#[derive(Drop)]
struct Narrow {
    taken: Vec<u8>,
    calls: u64,
    full: u64,
}

impl Write for Narrow {
    fn write(&mut self, buf: &[u8]) -> io::Result<usize> {
        let call = self.calls;
        self.calls = call.saturating_add(1);
        if call % 2 == 0 {
            return Err(io::Error::from(io::ErrorKind::Interrupted));
        }
        if call == self.full {
            return Ok(0);
        }
        let count = buf.len().min(3);
        self.taken.extend_from_slice(&buf[..count])?;
        Ok(count)
    }

    fn flush(&mut self) -> io::Result<()> {
        Ok(())
    }
}

fn narrow_sink(alloc: Global, full: u64) -> Narrow {
    Narrow {
        taken: Vec::new(alloc),
        calls: 0,
        full,
    }
}

fn reads_the_digits<R: Read + Drop>(alloc: Global, reader: R) -> bool {
    let mut input = Input::new(reader);
    let is_read = match read_all(alloc, &mut input, 100) {
        Ok(bytes) => bytes.as_slice() == DIGITS,
        Err(_) => false,
    };
    is_read && input.faults() == 0
}

fn writes_the_digits<W: Write + Drop>(writer: W) -> bool {
    let mut out = Output::new(writer);
    write_all(&mut out, DIGITS).is_ok() && out.faults() == 0
}

fn goes_on(alloc: Global) -> bool {
    let mut taken = narrow_sink(alloc, 99);
    let is_written = writes_the_digits(&mut taken);
    is_written && taken.taken.as_slice() == DIGITS
}

fn is_counted<W: Write + Drop>(writer: W) -> bool {
    let mut out = Output::new(writer);
    write_all(&mut out, DIGITS).is_err() && out.faults() == 1
}

// At the third call that isn't interrupted, behind six bytes.
fn is_a_fault(alloc: Global) -> bool {
    let mut taken = narrow_sink(alloc, 5);
    let is_counted = is_counted(&mut taken);
    is_counted && taken.taken.as_slice() == b"012345".as_slice()
}

#[test]
fn an_interrupted_call_is_made_again(rt: HostRuntime) {
    let pieces = Pieces {
        text: DIGITS,
        calls: 0,
    };
    assert!(rt; reads_the_digits(rt.alloc(), pieces));
    assert!(rt; goes_on(rt.alloc()));
}

#[test]
fn a_write_that_takes_nothing_is_a_fault(rt: HostRuntime) {
    assert!(rt; is_a_fault(rt.alloc()));
}
