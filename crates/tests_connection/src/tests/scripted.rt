//! A clock set by hand, and a client that follows a script.

use client_connections::Closes;
use std::cell::Cell;
use std::io::{ErrorKind, Read, Write};
use std::time::Duration;
use std::{io, time};
use stream_waits::Waits;

/// A clock on which only waits take time.
#[derive(Drop)]
pub(super) struct HandClock {
    now: Cell<Duration>,
}

impl HandClock {
    pub(super) fn new() -> HandClock {
        HandClock {
            now: Cell::new(Duration::ZERO),
        }
    }

    fn pass(&self, time: Duration) {
        self.now.set(self.now.get().saturating_add(time));
    }

    /// The milliseconds that have passed.
    pub(super) fn milliseconds(&self) -> u128 {
        self.now.get().as_millis()
    }
}

impl time::Clock for HandClock {
    fn monotonic(&self) -> io::Result<Duration> {
        Ok(self.now.get())
    }

    fn since_1970(&self) -> io::Result<Duration> {
        Ok(self.now.get())
    }

    fn sleep(&self, time: Duration) {
        self.pass(time);
    }
}

/// The result of a read or write, after so many milliseconds.
#[derive(Clone, Copy)]
pub(super) enum ScriptStep {
    /// A read gets these octets; a write takes so many.
    Moves(u64, &'static str),
    Interrupts(u64),
    Resets(u64),
}

impl ScriptStep {
    fn time(self) -> Duration {
        match self {
            ScriptStep::Moves(time, _) | ScriptStep::Interrupts(time) | ScriptStep::Resets(time) =>
                { Duration::from_millis(time) }
        }
    }
}

/// A client whose reads and writes repeat a script.
#[derive(Drop)]
pub(super) struct Scripted<'a> {
    clock: &'a HandClock,
    script: &'a [ScriptStep],
    at: usize,
    // How long the current step was waited for.
    waited: Duration,
    limit: Cell<Duration>,
    /// The octets read and written.
    pub(super) moved: usize,
    /// Whether ending writes succeeds.
    pub(super) is_there: bool,
}

impl<'a> Scripted<'a> {
    pub(super) fn new(clock: &'a HandClock, script: &'a [ScriptStep]) -> Scripted<'a> {
        Scripted {
            clock,
            script,
            at: 0,
            waited: Duration::ZERO,
            limit: Cell::new(Duration::ZERO),
            moved: 0,
            is_there: true,
        }
    }

    // The octets of the current step, once its time has passed.
    fn wait(&mut self) -> io::Result<&'static [u8]> {
        let Some(step) = self.script.get(self.at).copied() else {
            return Ok(b"");
        };
        let left = step.time().saturating_sub(self.waited);
        if self.limit.get() < left {
            self.clock.pass(self.limit.get());
            self.waited = self.waited.saturating_add(self.limit.get());
            return Err(io::Error::from(ErrorKind::WouldBlock));
        }
        self.clock.pass(left);
        self.go_on();
        match step {
            ScriptStep::Moves(_, octets) => Ok(octets.as_bytes()),
            ScriptStep::Interrupts(_) => Err(io::Error::from(ErrorKind::Interrupted)),
            ScriptStep::Resets(_) => Err(io::Error::from(ErrorKind::ConnectionReset)),
        }
    }

    // The next step begins; after the last, the first.
    fn go_on(&mut self) {
        self.waited = Duration::ZERO;
        self.at = self.at.saturating_add(1);
        if self.script.len() <= self.at {
            self.at = 0;
        }
    }

    fn count(&mut self, octets: usize) {
        self.moved = self.moved.saturating_add(octets);
    }
}

impl<'a> Read for Scripted<'a> {
    fn read(&mut self, buf: &mut [u8]) -> io::Result<usize> {
        let octets = self.wait()?;
        let count = octets.len().min(buf.len());
        buf[..count].copy_from_slice(&octets[..count]);
        self.count(count);
        Ok(count)
    }
}

impl<'a> Write for Scripted<'a> {
    fn write(&mut self, buf: &[u8]) -> io::Result<usize> {
        let count = self.wait()?.len().min(buf.len());
        self.count(count);
        Ok(count)
    }

    fn flush(&mut self) -> io::Result<()> {
        Ok(())
    }
}

impl<'a> Waits for Scripted<'a> {
    fn limit_reads(&self, most: Duration) -> io::Result<()> {
        self.limit.set(most);
        Ok(())
    }

    fn limit_writes(&self, most: Duration) -> io::Result<()> {
        self.limit.set(most);
        Ok(())
    }
}

impl<'a> Closes for Scripted<'a> {
    fn end_writes(&self) -> io::Result<()> {
        if self.is_there {
            Ok(())
        } else {
            Err(io::Error::from(ErrorKind::NotConnected))
        }
    }
}
