//! A client's connection, which adds up the time that it waits.
ghost use Rattle.std.specs.Prelude.{◌≡◌, ◌↔◌, Contains, IsTrue};
ghost use Rattle.std.specs.Io.{ReadsAtMost, WritesAtMost};
ghost use Rattle.std.specs.Io.KnownBytes.{ReadConsumes, WriteAppends};
ghost use Rattle.client_connections.specs.Waiting.{ReadWaits, WaitsOn};

use crate::waiting::Waiting;
use std::cell::Cell;
use std::io::{ErrorKind, Read, Write};
use std::time::{Duration, Instant};
use std::{io, time};
use stream_waits::Waits;

// How often a read or write is tried that a signal interrupts, or that has nothing yet. The longest
// patience takes 300 tries.
const MOST_TRIES: u32 = 1_000;

/// A client's connection, or one side of it. Both sides add up the time that reads and writes wait, from
/// zero after each read with an LF. With the patience over, each read and write fails. The unread octets
/// and the written ones are the connection's.
#[derive(Drop)]
pub struct ClientStream<'a, R: time::Clock, S: Waits> {
    pub rt: &'a R,
    pub stream: S,
    /// The time waited for the client, shared by both sides.
    pub waiting: &'a Cell<Waiting>,
    // The stream's current timeouts of reads and writes.
    read_time: Option<Duration>,
    write_time: Option<Duration>,
}

impl<'a, R: time::Clock, S: Waits> ClientStream<'a, R, S> {
    /// One side of a connection.
    pub fn new(rt: &'a R, stream: S, waiting: &'a Cell<Waiting>) -> ClientStream<'a, R, S>
        ensures { result.stream ≡ stream }
    {
        ClientStream {
            rt,
            stream,
            waiting,
            read_time: None,
            write_time: None,
        }
    }

    // Reads unless the patience is over, and adds the time taken.
    fn read_waiting(&mut self, buf: &mut [u8], waiting: &mut Waiting) -> io::Result<usize>
        ensures bound { ReadsAtMost result buf.new }
        ensures bytes { ReadConsumes (S.remaining self.old.stream) (S.remaining self.new.stream)
            result buf.new }
        ensures waits { ReadWaits waiting.old result buf.new waiting.new }
    {
        let begun = Instant::now(self.rt)?;
        let before = *waiting;
        for _ in 0..MOST_TRIES {
            self.limit_reads(waiting.try_time()?)?;
            let ended = self.stream.read(buf);
            *waiting = before.after(self.time_since(begun));
            match ended {
                Err(error) if has_nothing_yet(&error) => {}
                Err(error) => return Err(error),
                Ok(count) => {
                    if has_line_end(&buf[..count]) {
                        *waiting = Waiting::new(waiting.patience);
                    }
                    return Ok(count);
                }
            }
        }
        Err(io::Error::from(ErrorKind::TimedOut))
    }

    // Writes unless the patience is over, and adds the time taken.
    fn write_waiting(&mut self, buf: &[u8], waiting: &mut Waiting) -> io::Result<usize>
        ensures bound { WritesAtMost result buf.now }
        ensures bytes { WriteAppends (S.contents self.old.stream) (S.contents self.new.stream)
            result buf.now }
        ensures waits { WaitsOn waiting.old result waiting.new }
    {
        let begun = Instant::now(self.rt)?;
        let before = *waiting;
        for _ in 0..MOST_TRIES {
            self.limit_writes(waiting.try_time()?)?;
            let ended = self.stream.write(buf);
            *waiting = before.after(self.time_since(begun));
            match ended {
                Err(error) if has_nothing_yet(&error) => {}
                ended => return ended,
            }
        }
        Err(io::Error::from(ErrorKind::TimedOut))
    }

    // Sets the timeout of reads, if it changes.
    fn limit_reads(&mut self, time: Duration) -> io::Result<()>
        ensures { self.new.stream ≡ self.old.stream }
    {
        if self.read_time != Some(time) {
            self.stream.limit_reads(time)?;
            self.read_time = Some(time);
        }
        Ok(())
    }

    // Sets the timeout of writes, if it changes.
    fn limit_writes(&mut self, time: Duration) -> io::Result<()>
        ensures { self.new.stream ≡ self.old.stream }
    {
        if self.write_time != Some(time) {
            self.stream.limit_writes(time)?;
            self.write_time = Some(time);
        }
        Ok(())
    }

    // The time since a moment. A clock that can't be read ends the patience.
    fn time_since(&self, begun: Instant) -> Duration {
        begun.elapsed(self.rt).unwrap_or(Duration::MAX)
    }
}

impl<'a, R: time::Clock, S: Waits> Read for ClientStream<'a, R, S> {
    ghost remaining = { λ s. S.remaining s.stream };

    fn read(&mut self, buf: &mut [u8]) -> io::Result<usize> {
        let mut waiting = self.waiting.get();
        let ended = self.read_waiting(buf, &mut waiting);
        self.waiting.set(waiting);
        ended
    }
}

impl<'a, R: time::Clock, S: Waits> Write for ClientStream<'a, R, S> {
    ghost contents = { λ s. S.contents s.stream };

    fn write(&mut self, buf: &[u8]) -> io::Result<usize> {
        let mut waiting = self.waiting.get();
        let ended = self.write_waiting(buf, &mut waiting);
        self.waiting.set(waiting);
        ended
    }

    fn flush(&mut self) -> io::Result<()> {
        self.stream.flush()
    }
}

// Whether to try again: a signal came, or only the try's time is over.
fn has_nothing_yet(error: &io::Error) -> bool {
    matches!(error.kind(), ErrorKind::Interrupted | ErrorKind::WouldBlock)
}

/// Whether a line ends among these octets.
pub(crate) fn has_line_end(octets: &[u8]) -> bool
    ensures { IsTrue result ↔ Contains octets.now 10 }
{
    octets.contains(&b'\n')
}
