//! A site of a shift: when a worker may enter it, and when a fetch there may begin.
//! Called by the table of sites, under its lock.
ghost use Rattle.std.specs.Prelude.{◌≡◌, ◌<◌, false, IsTrue};
ghost use Rattle.std.specs.Duration.{as_nanos};
ghost use Rattle.std.specs.Time.{instant_nanos};
ghost use Rattle.crawl_workers.specs.Pauses.{begun_at, wait_of};
ghost use Rattle.crawl_workers.specs.Sites.{HasBegun, awaited_by, entered_by, left_by, may_enter};

use crate::pace::LastBegin;
use std::time::{Duration, Instant};

/// The state of a site's robots.txt.
#[derive(Clone, Copy, PartialEq, Eq)]
pub(crate) enum Robots {
    Unknown,
    /// A worker fetches it, or is about to.
    Fetched,
    Answered,
}

#[derive(Drop)]
pub(crate) struct ShiftSite {
    /// Jobs that no worker has entered for.
    pub(crate) left: u64,
    /// Workers doing its jobs.
    pub(crate) workers: u64,
    pub(crate) robots: Robots,
    /// When the last fetch began, and whether a worker that entered has yet to begin the next fetch. Both
    /// are unused without pauses.
    pub(crate) begun: LastBegin,
    pub(crate) next_is_taken: bool,
}

impl ShiftSite {
    /// Whether a worker may enter: a job is left, a place is free, and no worker fetches the robots.txt or
    /// is to fetch next.
    pub(crate) fn may_enter(&self, places: u64) -> bool
        ensures { result ≡ may_enter self.now places }
    {
        self.left > 0
            && self.workers < places
            && self.robots != Robots::Fetched
            && !self.next_is_taken
    }

    /// Lets a worker enter for a job if it may; returns whether it may. The first to enter fetches the
    /// robots.txt; with pauses each is to fetch next.
    pub(crate) fn enter(&mut self, places: u64, pauses: bool) -> bool
        ensures may { result ≡ may_enter self.old places }
        ensures entered { IsTrue result → self.new ≡ entered_by pauses self.old }
        ensures refused { result ≡ false → self.new ≡ self.old }
    {
        if !self.may_enter(places) {
            return false;
        }
        self.left -= 1;
        self.workers += 1;
        if self.robots == Robots::Unknown {
            self.robots = Robots::Fetched;
        }
        self.next_is_taken = pauses;
        true
    }

    /// A worker leaves. If none is left, nobody fetches the robots.txt.
    pub(crate) fn leave(&mut self)
        ensures { self.new ≡ left_by self.old }
    {
        self.workers = self.workers.saturating_sub(1);
        if self.workers == 0 && self.robots == Robots::Fetched {
            self.robots = Robots::Unknown;
        }
        self.next_is_taken = false;
    }

    /// Begins a fetch now unless it must wait, in which case a worker waits to fetch next. Returns how long
    /// it must wait.
    pub(crate) fn begin(&mut self, delay: Duration, now: Instant) -> Duration
        ensures wait { as_nanos result
            ≡ wait_of (as_nanos delay) (begun_at self.old.begun) (instant_nanos now) }
        ensures begins { as_nanos result ≡ 0 → HasBegun self.old self.new (instant_nanos now) }
        ensures waits { 0 < as_nanos result → self.new ≡ awaited_by self.old }
    {
        let left = self.begun.begin(delay, now);
        self.next_is_taken = !left.is_zero();
        left
    }
}
