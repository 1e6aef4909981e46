// Connections over TCP.
use crate::streams::{Input, Output};
use std::io;
use std::io::{Read, Write};
use std::net::OpenStream;
use std::time::Duration;

/// How long connecting, a read and a write may wait.
pub(crate) fn limit() -> Duration {
    Duration::from_secs(60)
}

/// Both ends of a connection.
pub(crate) fn ends_of<S: Read + Write + OpenStream + Drop>(
    stream: S,
) -> io::Result<(Input<S>, Output<S>)> {
    stream.set_read_timeout(Some(limit()))?;
    stream.set_write_timeout(Some(limit()))?;
    stream.set_nodelay(true)?;
    let other = stream.try_clone()?;
    Ok((Input::new(stream), Output::new(other)))
}
