//! Streams whose reads and writes wait for a limited time.
//! A TCP connection is one.

use std::io;
use std::io::{Read, Write};
use std::net::TcpStream;
use std::time::Duration;

/// A connection with settable timeouts.
pub trait Waits: Read + Write {
    /// Limits how long a read waits.
    fn limit_reads(&self, most: Duration) -> io::Result<()>;

    /// Limits how long a write waits.
    fn limit_writes(&self, most: Duration) -> io::Result<()>;
}

impl Waits for &TcpStream {
    fn limit_reads(&self, most: Duration) -> io::Result<()> {
        self.set_read_timeout(Some(most))
    }

    fn limit_writes(&self, most: Duration) -> io::Result<()> {
        self.set_write_timeout(Some(most))
    }
}
