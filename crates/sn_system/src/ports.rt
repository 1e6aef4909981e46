// A port of TCP.
ghost use Rattle.std.specs.Prelude.{◌≡◌, ◌≢◌, IfOk};

use crate::faults::counted;
use crate::sockets::ends_of;
use crate::streams::{Input, Output};
use sn_io::Failed;
use sn_net::Port;
use std::io;
use std::io::{ErrorKind, Read, Write};
use std::net::{Ipv4Addr, Net, OpenListener, OpenStream, Shutdown, TcpListener};
use std::time::Duration;

// For how many seconds what a peer still sends is waited for, and how often it is read.
const LINGER: u64 = 1;

const LAST_READS: u32 = 256;

const LAST_BLOCK: usize = 32768;

/// A port of TCP at 127.0.0.1. A read or a write of a connection that waits for more than a minute is a fault of that
/// connection.
#[derive(Drop)]
pub struct TcpPort<'a, R: Net> {
    net: &'a R,
    listener: Option<R::Listener>,
    number: u16,
    faults: u64,
}

impl<'a, R: Net> TcpPort<'a, R> {
    /// A port that is not bound yet.
    pub fn new(net: &'a R) -> TcpPort<'a, R> {
        TcpPort {
            net,
            listener: None,
            number: 0,
            faults: 0,
        }
    }
}

impl<R: Net> Port for TcpPort<'_, R> {
    type In = Input<R::Stream>;

    type Out = Output<R::Stream>;

    ghost goes = { λ _ _ _. Unit {0} };

    ghost bound = { λ p. p.number };

    ghost may_end = { λ _. Unit {0} };

    ghost fault_count = { λ p. p.faults };

    ghost going = { record { none = λ _. tt; more = λ _ _ _ _ _ _ _. tt } };

    fn faults(&self) -> u64 {
        self.faults
    }

    fn bind(&mut self, number: u16) -> Result<(), Failed> {
        let (listener, number) = counted(listener_at(self.net, number), &mut self.faults)?;
        self.listener = Some(listener);
        self.number = number;
        Ok(())
    }

    fn number(&self) -> u16 {
        self.number
    }

    fn accept(&mut self) -> Result<(Input<R::Stream>, Output<R::Stream>), Failed> {
        let next = match &self.listener {
            Some(listener) => next_connection(listener),
            None => Err(io::Error::from(ErrorKind::NotConnected)),
        };
        counted(next, &mut self.faults)
    }

    fn end(&mut self, source: Input<R::Stream>, _sink: Output<R::Stream>) {
        close(source.reader);
    }
}

// Listens at the port of this number; at 0 the system chooses one.
fn listener_at<R: Net>(net: &R, number: u16) -> io::Result<(R::Listener, u16)>
    ensures { IfOk result (λ bound. number ≢ 0 → bound.1 ≡ number) }
{
    let listener = TcpListener::bind(net, (Ipv4Addr::LOCALHOST, number))?;
    if number != 0 {
        return Ok((listener, number));
    }
    let chosen = listener.local_addr()?.port();
    Ok((listener, chosen))
}

// Waits for the next connection. One that its peer has given up again is passed over.
fn next_connection<L: OpenListener>(
    listener: &L,
) -> io::Result<(Input<L::Stream>, Output<L::Stream>)>
where
    L::Stream: Read + Write + OpenStream + Drop,
{
    for stream in listener.incoming() {
        match stream {
            Ok(stream) => return ends_of(stream),
            Err(error) if error.kind() == ErrorKind::ConnectionAborted => {}
            Err(error) => return Err(error),
        }
    }
    Err(io::Error::from(ErrorKind::Other))
}

// Closes a connection. Before, what the peer still sends is read for a while: closing over bytes that weren't read may
// take the last answer away from the peer (RFC 9112, 9.6).
fn close<S: Read + OpenStream + Drop>(mut stream: S) {
    if stream.shutdown(Shutdown::Write).is_err()
        || stream
            .set_read_timeout(Some(Duration::from_secs(LINGER)))
            .is_err()
    {
        return;
    }
    let mut block = [0u8; LAST_BLOCK];
    for _ in 0..LAST_READS {
        match stream.read(&mut block) {
            Ok(count) if count > 0 => {}
            _ => return,
        }
    }
}
