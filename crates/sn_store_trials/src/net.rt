// The clock, the port and the link in memory, against what each call of a list is to give.
use sn_io::{Failed, MemSink, MemSource, Sink, Source};
use sn_net::{Clock, Link, MemClock, MemLink, MemPort, Port};
use sn_string::Bytes;
use std::alloc::{AllocError, Global};

fn tells(alloc: Global) -> bool {
    let Ok(moments) = [7u64, 1000].to_vec(alloc) else {
        return false;
    };
    let mut clock = MemClock::new(moments);
    clock.now() == 7 && clock.now() == 1000 && clock.now() == 0
}

fn connection(alloc: Global, input: &[u8]) -> Result<(MemSource, MemSink), AllocError> {
    let source = MemSource::new(input.to_vec(alloc)?, 4096, Vec::new(alloc));
    Ok((source, MemSink::new(alloc, 4096, Vec::new(alloc))))
}

fn connections(alloc: Global, inputs: &[&[u8]]) -> Result<Vec<(MemSource, MemSink)>, AllocError> {
    let mut waiting = Vec::new(alloc);
    for input in inputs {
        waiting.push(connection(alloc, input)?)?;
    }
    Ok(waiting)
}

// Calls 0 and 3 fail: a bind, and the second accept.
fn port_of_two(alloc: Global) -> Result<MemPort, AllocError> {
    let waiting = connections(alloc, &[b"one", b"two"])?;
    let failing = [0u64, 3].to_vec(alloc)?;
    Ok(MemPort::new(alloc, waiting, 4711, failing))
}

// Reads a byte of the next connection, and answers with a byte.
fn is_served(port: &mut MemPort, first: u8, answer: u8) -> bool {
    let Ok((mut source, mut sink)) = port.accept() else {
        return false;
    };
    let mut byte = [0u8];
    let is_read = source.read(&mut byte) == Ok(1) && byte[0] == first;
    let is_written = sink.write(&[answer]) == Ok(1);
    port.end(source, sink);
    is_read && is_written
}

fn is_refused(port: &mut MemPort) -> bool {
    port.accept().is_err()
}

fn have_ended(port: &MemPort) -> bool {
    match port.ended() {
        [first, second] => {
            first.1.bytes() == b"1".as_slice() && second.0.left() == b"wo".as_slice()
        }
        _ => false,
    }
}

fn serves_two(port: &mut MemPort) -> bool {
    port.bind(80) == Err(Failed)
        && port.bind(0) == Ok(())
        && port.number() == 4711
        && is_served(port, b'o', b'1')
        && is_refused(port)
        && is_served(port, b't', b'2')
        && is_refused(port)
        && port.faults() == 3
        && port.wants() == 0
        && have_ended(port)
}

fn connects(alloc: Global) -> bool {
    match port_of_two(alloc) {
        Ok(mut port) => serves_two(&mut port),
        Err(_) => false,
    }
}

fn answers(alloc: Global, texts: &[&[u8]]) -> Result<Vec<Bytes>, AllocError> {
    let mut answers = Vec::new(alloc);
    for text in texts {
        answers.push(Bytes::of(alloc, text)?)?;
    }
    Ok(answers)
}

// Call 2 fails, and so does each that the next answer doesn't fit, or for which none is left.
fn link_of_two(alloc: Global) -> Result<MemLink, AllocError> {
    let answers = answers(alloc, &[b"first", b"second"])?;
    Ok(MemLink::new(alloc, answers, [2u64].to_vec(alloc)?))
}

fn is_aimed(alloc: Global, link: &mut MemLink, host: &str) -> bool {
    link.aim(alloc, host).is_ok() && link.host() == host
}

fn is_answered(alloc: Global, link: &mut MemLink, expected: &[u8]) -> bool {
    match link.ask(alloc, b"z", expected.len()) {
        Ok(answer) => answer.as_slice() == expected,
        Err(_) => false,
    }
}

fn fails(alloc: Global, link: &mut MemLink, room: u8) -> bool {
    link.ask(alloc, b"y", room as usize).is_err()
}

fn have_come(link: &MemLink) -> bool {
    match link.asked() {
        [first, second] => {
            first.host.as_str() == "a:1"
                && second.host.as_str() == "b:2"
                && second.request.as_slice() == b"z".as_slice()
        }
        _ => false,
    }
}

fn exchanges(alloc: Global, link: &mut MemLink) -> bool {
    is_aimed(alloc, link, "a:1")
        && is_answered(alloc, link, b"first")
        && fails(alloc, link, 100)
        && fails(alloc, link, 5)
        && is_aimed(alloc, link, "b:2")
        && is_answered(alloc, link, b"second")
        && fails(alloc, link, 6)
        && link.faults() == 3
        && have_come(link)
}

fn asks(alloc: Global) -> bool {
    match link_of_two(alloc) {
        Ok(mut link) => exchanges(alloc, &mut link),
        Err(_) => false,
    }
}

#[test]
fn clocks_ports_and_links(rt: HostRuntime) {
    assert!(rt; tells(rt.alloc()));
    assert!(rt; connects(rt.alloc()));
    assert!(rt; asks(rt.alloc()));
}
