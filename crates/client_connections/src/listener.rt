//! Where clients connect.

use crate::accept_fault::{AcceptFault, MAX_ACCEPT_FAULTS};
use crate::backlog::Backlog;
use crate::socket_file::bind_socket_file;
use std::alloc::Global;
use std::fs::{File, Files};
use std::io::ErrorKind;
use std::net::{Ipv4Addr, Net, Shutdown, SocketAddr, TcpListener, TcpStream};
use std::os::fd::OwnedFd;
use std::os::unix::net::UnixListener;
use std::random::RandomSource;
use std::{io, thread, time};

/// Where clients of this machine connect: a loopback port, or a socket file.
#[derive(Drop)]
pub struct Listener {
    endpoint: Endpoint,
    backlog: Backlog,
}

#[derive(Drop)]
enum Endpoint {
    Port(TcpListener),
    File(UnixListener),
}

impl Listener {
    /// Listens at this port of 127.0.0.1, or for 0 at a free one.
    pub fn bind<R: Net<Listener = TcpListener, Stream = TcpStream>>(
        rt: &R,
        port: u16,
    ) -> io::Result<Listener> {
        let address = SocketAddr::from((Ipv4Addr::LOCALHOST, port));
        Ok(Listener::of(Endpoint::Port(TcpListener::bind(rt, address)?)))
    }

    /// Listens at a socket file, as `bind_socket_file` does.
    pub fn bind_socket<R: Files + Net + RandomSource>(
        rt: &R,
        alloc: Global,
        path: &str,
    ) -> io::Result<Listener> {
        Ok(Listener::of(Endpoint::File(bind_socket_file(rt, alloc, path)?)))
    }

    fn of(endpoint: Endpoint) -> Listener {
        Listener {
            endpoint,
            backlog: Backlog::Untold,
        }
    }

    /// This listener, which can tell how many clients wait, if the system has a table of its sockets.
    pub fn counting<R: Files<File = File>>(self, rt: &R, alloc: Global) -> Listener {
        let Listener {
            endpoint,
            backlog: _,
        } = self;
        let backlog = backlog_of(rt, alloc, &endpoint).unwrap_or(Backlog::Untold);
        Listener { endpoint, backlog }
    }

    /// How many clients have connected and were not accepted yet, as the system tells it; 0 if it does not.
    pub fn waiting(&self) -> u64 {
        self.backlog.count()
    }

    /// The port, or `Unsupported` for a socket file.
    pub fn port(&self) -> io::Result<u16> {
        match &self.endpoint {
            Endpoint::Port(listener) => Ok(listener.local_addr()?.port()),
            Endpoint::File(_) => Err(io::Error::from(ErrorKind::Unsupported)),
        }
    }

    /// Stops accepting: waiting accepts end with a device fault. It fails if there is no descriptor.
    pub fn shut(&self) -> io::Result<()> {
        // A shutdown is a call of a descriptor, and wakes each `accept` of it.
        let descriptor = match &self.endpoint {
            Endpoint::Port(listener) => OwnedFd::from(listener.try_clone()?),
            Endpoint::File(listener) => OwnedFd::from(listener.try_clone()?),
        };
        TcpStream::from(descriptor).shutdown(Shutdown::Both)
    }

    /// Waits for a client's connection, as `accept_from` does. A socket file's has the type of the other:
    /// reads, writes and timeouts are the same calls of a descriptor.
    pub fn accept<R: time::Clock>(&self, rt: &R) -> Result<TcpStream, AcceptFault> {
        accept_from(rt, self)
    }

    /// The connection of a client who waits already, if any. No other thread may accept meanwhile.
    pub fn accept_at_hand(&self) -> Option<TcpStream> {
        self.set_nonblocking(true).ok()?;
        let accepted = self.accept_next();
        let _ = self.set_nonblocking(false);
        accepted.ok()
    }

    fn set_nonblocking(&self, nonblocking: bool) -> io::Result<()> {
        match &self.endpoint {
            Endpoint::Port(listener) => listener.set_nonblocking(nonblocking),
            Endpoint::File(listener) => listener.set_nonblocking(nonblocking),
        }
    }
}

fn backlog_of<R: Files<File = File>>(
    rt: &R,
    alloc: Global,
    endpoint: &Endpoint,
) -> io::Result<Backlog> {
    match endpoint {
        Endpoint::Port(listener) => Ok(Backlog::of_port(rt, alloc, listener.local_addr()?.port())),
        Endpoint::File(listener) => {
            let address = listener.local_addr()?;
            match address.as_pathname() {
                Some(path) => Ok(Backlog::of_file(rt, alloc, path.to_string_lossy())),
                None => Ok(Backlog::Untold),
            }
        }
    }
}

/// Accepts connections, one at a time.
pub trait Accepts {
    type Stream;

    /// Waits for a connection and gives it.
    fn accept_next(&self) -> io::Result<Self::Stream>;
}

impl Accepts for Listener {
    type Stream = TcpStream;

    fn accept_next(&self) -> io::Result<TcpStream> {
        match &self.endpoint {
            Endpoint::Port(listener) => {
                let (stream, _) = listener.accept()?;
                // Replies are written whole, so they need not wait for more.
                let _ = stream.set_nodelay(true);
                Ok(stream)
            }
            Endpoint::File(listener) => {
                let (stream, _) = listener.accept()?;
                Ok(TcpStream::from(OwnedFd::from(stream)))
            }
        }
    }
}

/// Accepts a connection. It skips ones that failed before, and waits for descriptors and memory, at most
/// 899 times in a row; then it returns the last failure. A device's fault is returned at once.
pub fn accept_from<R: time::Clock, L: Accepts>(
    rt: &R,
    listener: &L,
) -> Result<L::Stream, AcceptFault> {
    let mut last = AcceptFault::Device;
    for faults in 1..=MAX_ACCEPT_FAULTS {
        match listener.accept_next() {
            Ok(stream) => return Ok(stream),
            Err(error) => last = AcceptFault::of(&error),
        }
        match last.wait_after(faults) {
            Some(time) => thread::sleep(rt, time),
            None => break,
        }
    }
    Err(last)
}
