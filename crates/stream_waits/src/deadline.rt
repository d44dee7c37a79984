//! The remaining time of a fetch.
ghost use Rattle.std.specs.Prelude.{◌≡◌, ◌<◌, ◌≤◌, IfOk};
ghost use Rattle.std.specs.Duration.{as_nanos};
ghost use Rattle.std.specs.Time.{instant_nanos};
ghost use Rattle.stream_waits.specs.Times.{IsLeft, time_left};

use std::io::ErrorKind;
use std::time::{Duration, Instant};
use std::{io, time};

/// When a fetch began, and how long it may take.
#[derive(Clone, Copy)]
pub struct Deadline {
    pub begun: Instant,
    pub whole: Duration,
}

impl Deadline {
    /// Starts now.
    pub fn begin<R: time::Clock>(rt: &R, whole: Duration) -> io::Result<Deadline>
        ensures { IfOk result (λ deadline. deadline.whole ≡ whole) }
    {
        Ok(Deadline {
            begun: Instant::now(rt)?,
            whole,
        })
    }

    /// How long a step with its own limit may take at this moment.
    pub fn left_at(&self, now: Instant, step: Duration) -> Option<Duration>
        ensures { IsLeft result (time_left (instant_nanos self.now.begun) (as_nanos self.now.whole)
            (as_nanos step) (instant_nanos now)) }
    {
        let spent = now.saturating_duration_since(self.begun);
        let left = self.whole.saturating_sub(spent).min(step);
        if left.is_zero() { None } else { Some(left) }
    }

    /// How long a step with its own limit may take from now on; `TimedOut` if no time is left.
    pub fn left<R: time::Clock>(&self, rt: &R, step: Duration) -> io::Result<Duration>
        ensures { IfOk result (λ left. (0 < as_nanos left) × (as_nanos left ≤ as_nanos step)
            × (as_nanos left ≤ as_nanos self.now.whole)) }
    {
        match self.left_at(Instant::now(rt)?, step) {
            Some(left) => Ok(left),
            None => Err(io::Error::from(ErrorKind::TimedOut)),
        }
    }
}
