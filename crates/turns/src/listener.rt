//! Where clients connect: a port of the loopback, or a socket file.

use mio::net::{TcpListener, TcpStream, UnixListener};
use mio::unix::SourceFd;
use mio::{Interest, Registry, Token};
use std::io;
use std::io::ErrorKind;
use std::net::{Ipv4Addr, Net, SocketAddr};
use std::os::fd::{AsRawFd, OwnedFd};
use std::os::unix::net;

/// Where clients connect. Its `accept` does not block.
#[derive(Drop)]
pub struct LoopListener(LoopEndpoint);

#[derive(Drop)]
enum LoopEndpoint {
    Port(TcpListener),
    File(UnixListener),
}

impl LoopListener {
    /// Listens at this port of 127.0.0.1, or for 0 at a free one, with the longest backlog of the system.
    pub fn bind<R: Net>(rt: &R, port: u16) -> io::Result<LoopListener> {
        let address = SocketAddr::from((Ipv4Addr::LOCALHOST, port));
        Ok(LoopListener(LoopEndpoint::Port(TcpListener::bind(rt, address)?)))
    }

    /// Listens at a socket file. Who may open it was decided when it was made.
    pub fn of_file(listener: net::UnixListener) -> io::Result<LoopListener> {
        listener.set_nonblocking(true)?;
        Ok(LoopListener(LoopEndpoint::File(UnixListener::from_std(listener))))
    }

    /// The port, or `Unsupported` for a socket file.
    pub fn port(&self) -> io::Result<u16> {
        match &self.0 {
            LoopEndpoint::Port(listener) => Ok(listener.local_addr()?.port()),
            LoopEndpoint::File(_) => Err(io::Error::from(ErrorKind::Unsupported)),
        }
    }

    /// Has the listener reported under a token when a client waits there.
    pub(crate) fn register(&self, registry: &Registry, token: Token) -> io::Result<()> {
        let descriptor = match &self.0 {
            LoopEndpoint::Port(listener) => listener.as_raw_fd(),
            LoopEndpoint::File(listener) => listener.as_raw_fd(),
        };
        registry.register(&mut SourceFd(&descriptor), token, Interest::READABLE)
    }

    /// The connection of a client who waits, or `WouldBlock`. A socket file's has the type of the other:
    /// reads and writes are the same calls of a descriptor.
    pub(crate) fn accept(&self) -> io::Result<TcpStream> {
        match &self.0 {
            LoopEndpoint::Port(listener) => {
                let (stream, _) = listener.accept()?;
                // Output is written as it comes, so it need not wait for more.
                let _ = stream.set_nodelay(true);
                Ok(stream)
            }
            LoopEndpoint::File(listener) => {
                let (stream, _) = listener.accept()?;
                Ok(TcpStream::from(OwnedFd::from(stream)))
            }
        }
    }
}
