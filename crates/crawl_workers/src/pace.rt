//! The pauses between fetches at a site: when the last one began, and the clock to wait by.
//! Called by the table of sites, for `shift --delay`.
ghost use Rattle.std.specs.Prelude.{◌≡◌, ◌≢◌, ◌<◌, None, Some};
ghost use Rattle.std.specs.Duration.{as_nanos};
ghost use Rattle.std.specs.Time.{instant_nanos};
ghost use Rattle.crawl_workers.specs.Pauses.{begun_at, later_of, wait_of};

use crate::report::Watcher;
use std::sync::{Condvar, MutexGuard, Wait};
use std::time::{Duration, Instant};
use std::{thread, time};

// The most seconds of a wait, so that the end of a shift is noticed.
const LOOK_SECONDS: u64 = 1;

/// The clock for the pauses between fetches.
pub(crate) trait Pace {
    /// Whether the shift is to end, so that nothing is waited for.
    fn is_over(&self) -> bool;

    /// The moment now, if the clock can be read.
    fn now(&self) -> Option<Instant>;

    /// Waits so long, or until the shift is to end.
    fn sleep(&self, time: Duration);

    /// Waits until the condition variable is notified, at most this long and at most a second.
    fn wait<'b, T>(
        &self,
        told: &Condvar,
        guard: MutexGuard<'b, T>,
        most: Duration,
    ) -> MutexGuard<'b, T>;
}

/// Pauses by the steady clock.
#[derive(Drop)]
pub(crate) struct Pauses<'a, W: Watcher, R: Wait + time::Clock> {
    pub(crate) rt: &'a R,
    pub(crate) watcher: &'a W,
}

impl<W: Watcher, R: Wait + time::Clock> Pace for Pauses<'_, W, R> {
    fn is_over(&self) -> bool {
        self.watcher.is_over()
    }

    fn now(&self) -> Option<Instant> {
        Instant::now(self.rt).ok()
    }

    fn sleep(&self, time: Duration) {
        let mut left = time;
        for _ in 0..=time.as_secs() {
            if left.is_zero() || self.is_over() {
                return;
            }
            let step = left.min(Duration::from_secs(LOOK_SECONDS));
            thread::sleep(self.rt, step);
            left = left.saturating_sub(step);
        }
    }

    fn wait<'b, T>(
        &self,
        told: &Condvar,
        guard: MutexGuard<'b, T>,
        most: Duration,
    ) -> MutexGuard<'b, T> {
        let most = most.min(Duration::from_secs(LOOK_SECONDS));
        told.wait_timeout(self.rt, guard, most).0
    }
}

/// When the last fetch at a site began, if any.
#[derive(Clone, Copy)]
pub(crate) struct LastBegin {
    last: Option<Instant>,
}

impl LastBegin {
    pub(crate) fn never() -> LastBegin
        ensures { begun_at result ≡ None }
    {
        LastBegin { last: None }
    }

    /// How long a fetch must wait.
    pub(crate) fn wait(&self, delay: Duration, now: Instant) -> Duration
        ensures { as_nanos result
            ≡ wait_of (as_nanos delay) (begun_at self.now) (instant_nanos now) }
    {
        match self.last {
            Some(last) => delay.saturating_sub(now.saturating_duration_since(last)),
            None => Duration::ZERO,
        }
    }

    /// Notes that a fetch begins now, without waiting.
    pub(crate) fn note(&mut self, now: Instant)
        ensures { begun_at self.new ≡ Some (later_of (begun_at self.old) (instant_nanos now)) }
    {
        let later = match self.last {
            Some(last) => last.max(now),
            None => now,
        };
        self.last = Some(later);
    }

    /// Begins a fetch now unless it must wait. Returns how long it must wait.
    pub(crate) fn begin(&mut self, delay: Duration, now: Instant) -> Duration
        ensures wait { as_nanos result
            ≡ wait_of (as_nanos delay) (begun_at self.old) (instant_nanos now) }
        ensures begins { as_nanos result ≡ 0
            → begun_at self.new ≡ Some (later_of (begun_at self.old) (instant_nanos now)) }
        ensures waits { 0 < as_nanos result → self.new ≡ self.old }
    {
        let left = self.wait(delay, now);
        if left.is_zero() {
            self.note(now);
        }
        left
    }
}
