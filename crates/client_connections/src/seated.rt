//! A client that is served alone: a silent one leaves its place if another one waits for it.
//! Used for a server's overseers.
ghost use Rattle.std.specs.Prelude.{◌≡◌};
ghost use Rattle.std.specs.Io.{ReadsAtMost};
ghost use Rattle.std.specs.Io.KnownBytes.{ReadConsumes};
ghost use Rattle.client_connections.specs.Waiting.{CountsSilence, IsNew, nanoseconds, silent_seconds};

use crate::client_stream::has_line_end;
use crate::waiting::Waiting;
use std::io::{ErrorKind, Read, Write};
use std::time::{Duration, Instant};
use std::{io, time};
use stream_waits::Waits;

/// The most seconds that reads wait for a client between two line ends while another one waits for its
/// place.
pub const SILENT_SECONDS: u64 = 5;

/// The clients that may wait for the place of the one that is served.
pub trait Queue {
    /// Whether one waits.
    fn has_next(&self) -> bool;
}

/// The connection of a client whose place others may wait for. It adds up the time of reads, from zero
/// after each read with an LF. Once that is 5 seconds, each read fails while another client waits. The
/// unread octets and the written ones are the connection's.
#[derive(Drop)]
pub struct Seated<'a, R: time::Clock, S: Waits, Q: Queue> {
    rt: &'a R,
    stream: S,
    queue: &'a Q,
    silence: Waiting,
}

impl<'a, R: time::Clock, S: Waits, Q: Queue> Seated<'a, R, S, Q> {
    /// A client that was not silent so far.
    pub fn new(rt: &'a R, stream: S, queue: &'a Q) -> Seated<'a, R, S, Q>
        ensures stream { result.stream ≡ stream }
        ensures silence { IsNew (nanoseconds silent_seconds) result.silence }
    {
        Seated {
            rt,
            stream,
            queue,
            silence: Waiting::of_seconds(SILENT_SECONDS),
        }
    }

    // Reads, and adds the time taken to the silence unless a line ends.
    fn read_counted(&mut self, buf: &mut [u8]) -> io::Result<usize>
        ensures bound { ReadsAtMost result buf.new }
        ensures bytes { ReadConsumes (S.remaining self.old.stream) (S.remaining self.new.stream)
            result buf.new }
        ensures silence { CountsSilence self.old.silence result buf.new self.new.silence }
    {
        let begun = Instant::now(self.rt)?;
        let count = self.stream.read(buf);
        let spent = begun.elapsed(self.rt).unwrap_or(Duration::MAX);
        self.silence = match &count {
            Ok(count) if has_line_end(&buf[..*count]) => Waiting::new(self.silence.patience),
            _ => self.silence.after(spent),
        };
        count
    }
}

impl<'a, R: time::Clock, S: Waits, Q: Queue> Read for Seated<'a, R, S, Q> {
    ghost remaining = { λ s. S.remaining s.stream };

    fn read(&mut self, buf: &mut [u8]) -> io::Result<usize>
        ensures bound { ReadsAtMost result buf.new }
        ensures bytes { ReadConsumes (S.remaining self.old.stream) (S.remaining self.new.stream)
            result buf.new }
        ensures silence { CountsSilence self.old.silence result buf.new self.new.silence }
    {
        if self.silence.try_time().is_err() && self.queue.has_next() {
            return Err(io::Error::from(ErrorKind::TimedOut));
        }
        self.read_counted(buf)
    }
}

impl<'a, R: time::Clock, S: Waits, Q: Queue> Write for Seated<'a, R, S, Q> {
    ghost contents = { λ s. S.contents s.stream };

    fn write(&mut self, buf: &[u8]) -> io::Result<usize> {
        self.stream.write(buf)
    }

    fn flush(&mut self) -> io::Result<()> {
        self.stream.flush()
    }
}

impl<'a, R: time::Clock, S: Waits, Q: Queue> Waits for Seated<'a, R, S, Q> {
    fn limit_reads(&self, most: Duration) -> io::Result<()> {
        self.stream.limit_reads(most)
    }

    fn limit_writes(&self, most: Duration) -> io::Result<()> {
        self.stream.limit_writes(most)
    }
}
