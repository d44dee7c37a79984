//! A connection whose reads and writes end in time, and when stopped.
ghost use Rattle.std.specs.Prelude.{◌≡◌};

use crate::failure::Failure;
use std::io::{ErrorKind, Read, Write};
use std::sync::atomic::{AtomicBool, Ordering};
use std::time::{Duration, Instant};
use std::{io, time};
use stream_waits::{Deadline, Waits};

// The most tries of a read or write that a signal interrupts (as when a process is stopped and continued),
// or that has nothing yet. Each try checks the time first.
const MOST_TRIES: u32 = 1_000;

// The most seconds of a try, so that a stop is noticed.
const TRY_SECONDS: u64 = 1;

/// A connection with a time limit. A read or write that would exceed it fails, and so does each within a
/// second of a stop. The unread octets and the written ones are the connection's.
#[derive(Drop)]
pub struct TimedStream<'a, R: time::Clock, S: Waits> {
    pub rt: &'a R,
    pub stream: S,
    /// The time of the whole fetch.
    pub deadline: Deadline,
    /// The limit of one read or write.
    pub step: Duration,
    /// Whether it was stopped.
    pub stopped: &'a AtomicBool,
    /// The connection's current timeout, if set. It is set again only to change it.
    pub read_limit: Option<Duration>,
    pub write_limit: Option<Duration>,
    /// Why the last failed read or write failed.
    pub failure: Option<Failure>,
}

impl<'a, R: time::Clock, S: Waits> TimedStream<'a, R, S> {
    // How long the next try of a step may wait.
    fn patience(&self, step: &Deadline) -> Result<Duration, Failure> {
        if self.stopped.load(Ordering::SeqCst) {
            return Err(Failure::Stopped);
        }
        let Ok(now) = Instant::now(self.rt) else {
            return Err(Failure::Other);
        };
        let Some(left) = self.deadline.left_at(now, Duration::from_secs(TRY_SECONDS)) else {
            return Err(Failure::TooLong(self.deadline.whole));
        };
        step.left_at(now, left).ok_or(Failure::Silent(self.step))
    }

    fn limit_reads(&mut self, most: Duration) -> io::Result<()>
        ensures { self.new.stream ≡ self.old.stream }
    {
        if self.read_limit != Some(most) {
            self.stream.limit_reads(most)?;
            self.read_limit = Some(most);
        }
        Ok(())
    }

    fn limit_writes(&mut self, most: Duration) -> io::Result<()>
        ensures { self.new.stream ≡ self.old.stream }
    {
        if self.write_limit != Some(most) {
            self.stream.limit_writes(most)?;
            self.write_limit = Some(most);
        }
        Ok(())
    }

    // Keeps the failure of a read or write.
    fn fail(&mut self, failure: Failure) -> io::Error
        ensures { self.new.stream ≡ self.old.stream }
    {
        self.failure = Some(failure);
        io::Error::from(ErrorKind::TimedOut)
    }

    // Keeps the failure of a read or write for the system's fault.
    fn break_off(&mut self, kind: ErrorKind) -> io::Error
        ensures { self.new.stream ≡ self.old.stream }
    {
        self.fail(Failure::of(kind, Failure::Silent(self.step)))
    }
}

impl<'a, R: time::Clock, S: Waits> Read for TimedStream<'a, R, S> {
    ghost remaining = { λ s. S.remaining s.stream };

    fn read(&mut self, buf: &mut [u8]) -> io::Result<usize> {
        let step = Deadline::begin(self.rt, self.step)?;
        for _ in 0..MOST_TRIES {
            match self.patience(&step) {
                Ok(left) => self.limit_reads(left)?,
                Err(failure) => return Err(self.fail(failure)),
            }
            match self.stream.read(buf) {
                Err(error) if has_nothing_yet(error.kind()) => {}
                Err(error) => return Err(self.break_off(error.kind())),
                ended => return ended,
            }
        }
        Err(self.fail(Failure::Silent(self.step)))
    }
}

impl<'a, R: time::Clock, S: Waits> Write for TimedStream<'a, R, S> {
    ghost contents = { λ s. S.contents s.stream };

    fn write(&mut self, buf: &[u8]) -> io::Result<usize> {
        let step = Deadline::begin(self.rt, self.step)?;
        for _ in 0..MOST_TRIES {
            match self.patience(&step) {
                Ok(left) => self.limit_writes(left)?,
                Err(failure) => return Err(self.fail(failure)),
            }
            match self.stream.write(buf) {
                Err(error) if has_nothing_yet(error.kind()) => {}
                Err(error) => return Err(self.break_off(error.kind())),
                ended => return ended,
            }
        }
        Err(self.fail(Failure::Silent(self.step)))
    }

    fn flush(&mut self) -> io::Result<()> {
        self.stream.flush()
    }
}

// Whether to try again: a signal came, or only the try's time is over.
fn has_nothing_yet(kind: ErrorKind) -> bool {
    match kind {
        ErrorKind::Interrupted | ErrorKind::WouldBlock => true,
        _ => false,
    }
}
