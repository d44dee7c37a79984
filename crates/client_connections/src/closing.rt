//! Closes a connection so that the last octets written still arrive.
//! RFC 9293, section 3.6.1: closing a connection with unread octets resets it, and a reset can overtake
//! octets on their way.
ghost use Rattle.std.specs.Prelude.{◌≡◌, ◌≤◌, IfOk};
ghost use Rattle.std.specs.Duration.{as_nanos};
ghost use Rattle.std.specs.Io.KnownBytes.{ConsumesCount};
ghost use Rattle.client_connections.specs.Closing.{TakesFew, closing_seconds};
ghost use Rattle.client_connections.specs.Waiting.{nanoseconds};

use std::io::ErrorKind;
use std::net::{Shutdown, TcpStream};
use std::time::Duration;
use std::{io, time};
use stream_waits::{Deadline, Waits};

/// The most seconds for which a closing connection is read.
pub const CLOSING_SECONDS: u64 = 1;

/// The most octets read from it.
pub const CLOSING_OCTETS: usize = 65_536;

// The most octets of one read.
const PIECE: usize = 4_096;

/// A connection on which writing alone can end.
pub trait Closes: Waits {
    /// Tells the client that nothing more comes.
    fn end_writes(&self) -> io::Result<()>;
}

impl Closes for &TcpStream {
    fn end_writes(&self) -> io::Result<()> {
        self.shutdown(Shutdown::Write)
    }
}

/// Ends writing, reads on for at most a second and 65,536 octets, and closes.
pub fn close<R: time::Clock>(rt: &R, stream: TcpStream) {
    read_out(rt, &mut &stream);
}

/// Ends writing, and reads on for at most a second and 65,536 octets.
pub fn read_out<R: time::Clock, S: Closes>(rt: &R, stream: &mut S)
    ensures { TakesFew (S.remaining stream.old) (S.remaining stream.new) }
{
    if stream.end_writes().is_err() {
        return;
    }
    let Ok(deadline) = begin(rt) else {
        return;
    };
    let mut left = CLOSING_OCTETS;
    // An interrupted read takes no octet.
    for _ in 0..CLOSING_OCTETS {
        match read_piece(rt, stream, &deadline, left) {
            Ok(count) if 0 < count && count < left => left -= count,
            Err(error) if error.kind() == ErrorKind::Interrupted => {}
            _ => break,
        }
    }
}

// The time for reading begins.
fn begin<R: time::Clock>(rt: &R) -> io::Result<Deadline>
    ensures { IfOk result (λ deadline. as_nanos deadline.whole ≡ nanoseconds closing_seconds) }
{
    Deadline::begin(rt, Duration::from_secs(CLOSING_SECONDS))
}

// Reads a piece within the remaining time.
fn read_piece<R: time::Clock, S: Closes>(
    rt: &R,
    stream: &mut S,
    deadline: &Deadline,
    most: usize,
) -> io::Result<usize>
    ensures bound { IfOk result (λ count. count ≤ most) }
    ensures bytes { ConsumesCount (S.remaining stream.old) (S.remaining stream.new) result }
{
    let mut piece = [0; PIECE];
    stream.limit_reads(deadline.left(rt, deadline.whole)?)?;
    stream.read(&mut piece[..most.min(PIECE)])
}
