//! How clients connect: to a port of the loopback, or to a socket file.

use std::io;
use std::net::{Ipv4Addr, SocketAddr, TcpStream};
use std::os::unix::net::UnixStream;

/// The path of the socket file.
pub(super) const SOCKET: &str = "loop.socket";

/// Connects clients.
pub(super) trait Dials {
    /// To this port.
    fn dial(&self, port: u16) -> io::Result<TcpStream>;

    /// To the socket file.
    fn dial_file(&self) -> io::Result<UnixStream>;
}

impl Dials for HostRuntime {
    fn dial(&self, port: u16) -> io::Result<TcpStream> {
        TcpStream::connect(self, SocketAddr::from((Ipv4Addr::LOCALHOST, port)))
    }

    fn dial_file(&self) -> io::Result<UnixStream> {
        UnixStream::connect(self, SOCKET)
    }
}
