//! Whether a client has sent unread octets.
//! Asked by `LinesInTurn`, before each read.

use std::io;
use std::io::ErrorKind;
use std::net::TcpStream;

/// A connection that knows whether a read would wait.
pub trait AtHand {
    /// Whether a read would return at once: with octets, the end, or a fault.
    fn is_at_hand(&self) -> io::Result<bool>;
}

impl AtHand for &TcpStream {
    fn is_at_hand(&self) -> io::Result<bool> {
        self.set_nonblocking(true)?;
        let seen = self.peek(&mut [0]);
        self.set_nonblocking(false)?;
        Ok(!matches!(seen, Err(error) if error.kind() == ErrorKind::WouldBlock))
    }
}
