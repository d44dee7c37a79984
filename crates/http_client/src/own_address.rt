//! Whether an address is this machine's own.
//! The system says from which address it would send.

use std::io;
use std::net::{IpAddr, Ipv4Addr, Ipv6Addr, Net, SocketAddr, UdpSocket};

/// Whether an address is this machine's own, or the system doesn't tell, as where there is no route.
///
/// A UDP socket is connected to it, which sends nothing. Its own address is then the same only if that
/// address is of this machine.
pub(crate) fn may_be_own<R: Net>(rt: &R, address: SocketAddr) -> bool {
    match source_for(rt, address) {
        Ok(source) => source == address.ip(),
        Err(_) => true,
    }
}

// The address from which the system would send to this one.
fn source_for<R: Net>(rt: &R, address: SocketAddr) -> io::Result<IpAddr> {
    let any = match address {
        SocketAddr::V4(_) => IpAddr::V4(Ipv4Addr::UNSPECIFIED),
        SocketAddr::V6(_) => IpAddr::V6(Ipv6Addr::UNSPECIFIED),
    };
    let socket = UdpSocket::bind(rt, SocketAddr::new(any, 0))?;
    socket.connect(address)?;
    Ok(socket.local_addr()?.ip())
}
