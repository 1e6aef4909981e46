// A link over TCP.
ghost use Rattle.std.specs.Prelude.{◌≤◌, length, IfOk};

use crate::faults::fault;
use crate::sockets::{ends_of, limit};
use crate::streams::{Input, Output};
use sn_io::{ReadError, read_all, write_all};
use sn_net::{AskError, Link};
use sn_string::Text;
use std::alloc::Global;
use std::io;
use std::io::ErrorKind;
use std::net::{Net, TcpStream, ToSocketAddrs};

const MOST: usize = 1 << 40;

/// A link over TCP, with a connection for each request: the answer is what comes until the peer closes it. Connecting,
/// a read and a write may wait for a minute each.
#[derive(Drop)]
pub struct TcpLink<'a, R: Net> {
    net: &'a R,
    host: Text,
    faults: u64,
}

impl<'a, R: Net> TcpLink<'a, R> {
    /// A link without a host.
    pub fn new(net: &'a R) -> TcpLink<'a, R> {
        TcpLink {
            net,
            host: Text::fixed(""),
            faults: 0,
        }
    }
}

impl<R: Net> Link for TcpLink<'_, R> {
    ghost asks = { λ _ _ _. Unit {0} };

    ghost aimed = { λ l. l.host };

    ghost fault_count = { λ l. l.faults };

    ghost asking = { record { none = λ _. tt; more = λ _ _ _ _ _ _ _. tt } };

    fn faults(&self) -> u64 {
        self.faults
    }

    fn aim(&mut self, alloc: Global, host: &str) -> Result<(), AskError> {
        self.host = Text::of(alloc, host)?;
        Ok(())
    }

    fn host(&self) -> &str {
        self.host.as_str()
    }

    fn ask(&mut self, alloc: Global, request: &[u8], room: usize) -> Result<Vec<u8>, AskError> {
        match answer_from(alloc, self.net, self.host.as_str(), request, room) {
            Ok(answer) => Ok(answer),
            Err(AskError::Memory) => Err(AskError::Memory),
            Err(AskError::Failed) => {
                fault(&mut self.faults);
                Err(AskError::Failed)
            }
        }
    }
}

// The answer of a host to a request.
fn answer_from<R: Net>(
    alloc: Global,
    net: &R,
    host: &str,
    request: &[u8],
    room: usize,
) -> Result<Vec<u8>, AskError>
    ensures { IfOk result (λ answer. length answer.items ≤ room) }
{
    let Ok((mut source, mut sink)) = connection_to(net, host) else {
        return Err(AskError::Failed);
    };
    if write_all(&mut sink, request).is_err() {
        return Err(AskError::Failed);
    }
    match read_all(alloc, &mut source, room.min(MOST)) {
        Ok(answer) => Ok(answer),
        Err(ReadError::Memory) => Err(AskError::Memory),
        Err(_) => Err(AskError::Failed),
    }
}

// Tries each address of a host in turn.
fn connection_to<R: Net>(net: &R, host: &str) -> io::Result<(Input<R::Stream>, Output<R::Stream>)> {
    for address in host.to_socket_addrs(net)? {
        if let Ok(stream) = TcpStream::connect_timeout(net, &address, limit()) {
            return ends_of(stream);
        }
    }
    Err(io::Error::from(ErrorKind::NotConnected))
}
