//! Clients over TCP, which wait some seconds for an answer at most.

use super::dials::Dials;
use super::house::Stage;
use super::{Fault, demand};
use std::io::{ErrorKind, Read, Write};
use std::net::TcpStream;
use std::time::{Clock, Duration, Instant};
use std::{io, thread};

/// Waits so many milliseconds.
pub(super) fn pause<R: Clock>(rt: &R, milliseconds: u64) {
    thread::sleep(rt, Duration::from_millis(milliseconds));
}

/// A client, connected.
pub(super) fn connect<R>(stage: &Stage<'_, '_, R>) -> Result<TcpStream, Fault>
where
    R: Dials,
{
    let stream = stage.rt.dial(stage.port)?;
    stream.set_read_timeout(Some(Duration::from_secs(10)))?;
    stream.set_nodelay(true)?;
    Ok(stream)
}

/// Sends octets.
pub(super) fn send(stream: &mut TcpStream, octets: &str) -> Result<(), Fault> {
    stream.write_all(octets.as_bytes())?;
    Ok(())
}

/// The next octets are these.
pub(super) fn is_told(
    stream: &mut TcpStream,
    octets: &str,
    name: &'static str,
) -> Result<(), Fault> {
    let mut found = [0; 64];
    let Some(part) = found.get_mut(..octets.len()) else {
        return Err(Fault::Row(name));
    };
    stream.read_exact(part)?;
    demand(&*part == octets.as_bytes(), name)
}

/// Sends octets, and is told these.
pub(super) fn asks(
    stream: &mut TcpStream,
    octets: &str,
    answer: &str,
    name: &'static str,
) -> Result<(), Fault> {
    send(stream, octets)?;
    is_told(stream, answer, name)
}

/// Nothing comes for so many milliseconds.
pub(super) fn hears_nothing(
    stream: &mut TcpStream,
    milliseconds: u64,
    name: &'static str,
) -> Result<(), Fault> {
    stream.set_read_timeout(Some(Duration::from_millis(milliseconds)))?;
    let read = stream.read(&mut [0]);
    stream.set_read_timeout(Some(Duration::from_secs(10)))?;
    demand(is_wait(read), name)
}

fn is_wait(read: io::Result<usize>) -> bool {
    matches!(read, Err(error) if error.kind() == ErrorKind::WouldBlock)
}

/// The server ends the connection, with nothing more said.
pub(super) fn is_let_go(stream: &mut TcpStream, name: &'static str) -> Result<(), Fault> {
    let is_end = match stream.read(&mut [0]) {
        Ok(count) => count == 0,
        Err(error) => error.kind() == ErrorKind::ConnectionReset,
    };
    demand(is_end, name)
}

/// The milliseconds since a moment.
pub(super) fn since<R: Clock>(rt: &R, begun: Instant) -> u128 {
    match begun.elapsed(rt) {
        Ok(time) => time.as_millis(),
        Err(_) => u128::MAX,
    }
}
