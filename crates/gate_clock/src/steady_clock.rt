//! `SteadyClock`: the clock that gives a gate's moments.
//! Two threads may read it at once: how far it is ahead only grows.
ghost use Rattle.std.specs.Prelude.{◌≡◌, ◌≤◌, ◌^◌};
ghost use Rattle.gate_clock.specs.Moments.{BeginsAt};

use crate::moments::{
    ClockReading, MOST_NANOSECONDS, ahead_after, epoch_of, is_set_back, moment_at, nanoseconds,
};
use crate::wall_clock::{wall_at_tick, wall_of};
use page_worker::Clock;
use std::sync::atomic::{AtomicU64, Ordering};
use std::sync::{Mutex, Wait};
use std::time;
use std::time::Duration;

/// How a clock goes on from a gate's last moment.
#[derive(Clone, Copy, Debug, PartialEq, Eq)]
pub enum Beginning {
    /// At the wall clock's moment, or at the gate's last if that is later.
    GoesOn,
    /// The wall clock is more than a minute behind the gate's last moment, by so many seconds. The clock
    /// begins where no answer of before lasts.
    SetBack(u64),
}

/// The wall clock, but never behind the last moment and the seconds of a steady clock since. Whole seconds
/// since the beginning of 1970, UTC, as long as the wall clock shows these. A wall clock that is set ahead is
/// noticed at the system's next tick.
#[derive(Drop)]
pub struct SteadyClock<'a, R: Wait + time::Clock> {
    rt: &'a R,
    // the moment from which it counts, in seconds
    epoch: u64,
    // what the steady clock showed then
    began: Duration,
    // by how many nanoseconds the moments are ahead of the steady clock
    ahead: AtomicU64,
    raising: Mutex<()>,
}

impl<'a, R: Wait + time::Clock> SteadyClock<'a, R> {
    /// A clock that goes on from a gate's last moment, in seconds; 0 for a new gate. A clock that can't be
    /// read shows 0.
    pub fn new(rt: &'a R, last: u64) -> (SteadyClock<'a, R>, Beginning)
        ensures { BeginsAt last result.0.epoch result.1 }
    {
        let shown = wall_of(rt);
        let began = steady_of(rt);
        let wall = shown.as_secs();
        let beginning = if is_set_back(last, wall) {
            Beginning::SetBack(last.saturating_sub(wall))
        } else {
            Beginning::GoesOn
        };
        let epoch = epoch_of(last, wall);
        let past = shown.saturating_sub(Duration::from_secs(epoch));
        let clock = SteadyClock {
            rt,
            epoch,
            began,
            ahead: AtomicU64::new(nanoseconds(past)),
            raising: Mutex::new(()),
        };
        (clock, beginning)
    }

    // The steady clock is read exactly, so no moment is late where the tick is.
    fn read(&self) -> ClockReading
        ensures past { result.past ≤ 2 ^ 62 }
        ensures elapsed { result.elapsed ≤ 2 ^ 62 }
    {
        let past = wall_at_tick(self.rt).saturating_sub(Duration::from_secs(self.epoch));
        let elapsed = steady_of(self.rt).saturating_sub(self.began);
        ClockReading {
            past: nanoseconds(past),
            elapsed: nanoseconds(elapsed),
        }
    }

    fn ahead(&self) -> u64
        ensures { result ≤ 2 ^ 62 }
    {
        self.ahead.load(Ordering::SeqCst).min(MOST_NANOSECONDS)
    }

    // How far it is ahead, no less than this. A thread that raises it waits for another that does.
    fn raise(&self, least: u64) -> u64
        requires { least ≤ 2 ^ 62 }
        ensures most { result ≤ 2 ^ 62 }
        ensures least { least ≤ result }
    {
        let _raising = self.raising.lock(self.rt);
        let ahead = least.max(self.ahead());
        self.ahead.store(ahead, Ordering::SeqCst);
        ahead
    }
}

impl<R: Wait + time::Clock> Clock for SteadyClock<'_, R> {
    ghost use Rattle.std.specs.Prelude.{◌≤◌};

    ghost reads = { λ clock moment. clock.epoch ≤ moment };

    fn now(&self) -> u64 {
        let reading = self.read();
        // (it is loaded behind the reading: a moment that was handed in before has raised it by now)
        let before = self.ahead();
        let own = ahead_after(before, reading);
        let ahead = if own > before {
            self.raise(own)
        } else {
            before
        };
        moment_at(self.epoch, ahead, reading)
    }
}

fn steady_of<R: time::Clock>(rt: &R) -> Duration {
    rt.monotonic().unwrap_or(Duration::ZERO)
}
