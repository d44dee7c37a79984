//! Why no response came over TCP, as far as the system knows.
//! For reports to operators on why a site is closed or a page was not fetched.
ghost use Rattle.std.specs.Prelude.{◌≡◌};
ghost use Rattle.http_wire.specs.declared.fault.WireFault.TheVariants.{Device};

use http_wire::WireFault;
use std::io::ErrorKind;
use std::time::Duration;

/// Why a fetch failed at its device, with the time limit if one was exceeded.
#[derive(Clone, Copy, Debug, PartialEq, Eq)]
pub enum Failure {
    /// The host's name has no address, or can't be looked up.
    NoName,
    /// No server accepts connections there.
    Refused,
    /// There is no route.
    Unreachable,
    /// The server reset the connection.
    Reset,
    /// No connection within this limit.
    NotConnected(Duration),
    /// Nothing could be read or written for this long.
    Silent(Duration),
    /// The whole fetch took this long.
    TooLong(Duration),
    /// No TLS connection: the TLS program closed its connection before the first octet came back. The site
    /// accepts no connection, its certificate is bad, or it speaks no TLS.
    NoTls,
    /// The TLS program is missing or accepts no connections.
    NoTlsProgram,
    /// The client was stopped.
    Stopped,
    /// Another fault of the system.
    Other,
}

impl Failure {
    /// The failure for a fault of the system. `past` is the one for a timeout.
    pub(crate) fn of(kind: ErrorKind, past: Failure) -> Failure {
        match kind {
            ErrorKind::TimedOut | ErrorKind::WouldBlock => past,
            ErrorKind::ConnectionRefused => Failure::Refused,
            ErrorKind::HostUnreachable
            | ErrorKind::NetworkUnreachable
            | ErrorKind::NetworkDown
            | ErrorKind::AddrNotAvailable => Failure::Unreachable,
            ErrorKind::ConnectionReset
            | ErrorKind::ConnectionAborted
            | ErrorKind::BrokenPipe
            | ErrorKind::UnexpectedEof => Failure::Reset,
            _ => Failure::Other,
        }
    }
}

/// The device's fault for this failure.
pub(crate) fn fault_for(why: Failure, failure: &mut Option<Failure>) -> WireFault
    ensures { result ≡ Device }
{
    *failure = Some(why);
    WireFault::Device
}
