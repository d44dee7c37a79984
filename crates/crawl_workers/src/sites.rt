//! The sites of a shift: where a worker may do a job now.
//! Sites take turns, and one at which a worker would have to wait is skipped.
use crate::pace::{LastBegin, Pace};
use crate::site::{Robots, ShiftSite};
use crate::strangers::Strangers;
use crate::turns::Turns;
use std::alloc::{AllocError, Global};
use std::collections::BTreeMap;
use std::sync::{Condvar, Mutex, MutexGuard, Wait};
use std::time::{Duration, Instant};

/// The sites' state. Its lock is taken only by a worker that holds no other lock.
#[derive(Drop)]
pub(crate) struct ShiftSites {
    names: BTreeMap<String, usize>,
    // The time between the begins of two fetches at a site; if zero, begins are not noted.
    delay: Duration,
    waiting: Mutex<SiteTable>,
    // Notified of each site that may be entered again, and when no job is left.
    freed: Condvar,
}

#[derive(Drop)]
struct SiteTable {
    sites: Vec<ShiftSite>,
    turns: Turns,
    // Jobs of all sites that no worker has entered for.
    left: u64,
    // The most workers at one site, and the most while others have jobs: one less than all.
    places: u64,
    crowd: u64,
    delay: Duration,
    strangers: Strangers,
}

impl ShiftSites {
    /// Sites with these names and job counts, for this many workers, at most `places` at one site, with
    /// this delay between the begins of two fetches.
    pub(crate) fn new(
        alloc: Global,
        names: BTreeMap<String, usize>,
        counts: &[u64],
        workers: u64,
        places: u64,
        delay: Duration,
    ) -> Result<ShiftSites, AllocError> {
        let mut waiting = SiteTable {
            sites: Vec::with_capacity(alloc, counts.len())?,
            turns: Turns::with_room(alloc, counts.len())?,
            left: 0,
            places,
            crowd: workers.saturating_sub(1).max(1),
            delay,
            strangers: Strangers::new(alloc),
        };
        for count in counts {
            waiting.add(*count)?;
        }
        Ok(ShiftSites {
            names,
            delay,
            waiting: Mutex::new(waiting),
            freed: Condvar::new(),
        })
    }

    /// Enters the next site in turn for one job; none once workers have entered for all jobs. Waits while a
    /// worker would have to wait at each site with jobs left, but for no pause once the shift is over.
    pub(crate) fn enter<P: Pace, R: Wait>(&self, rt: &R, pace: &P) -> Option<usize> {
        'tries: for _ in rt.forever() {
            if self.pauses() && pace.is_over() {
                self.end_pauses(rt);
            }
            let now = self.moment_by(pace);
            let waiting = self.waiting.lock(rt);
            let mut waiting = self.wait_while_stuck(rt, pace, waiting, now);
            let entered = waiting.enter(now);
            if waiting.left == 0 {
                self.freed.notify_all();
                return entered;
            }
            if entered.is_some() {
                return entered;
            }
        }
        unreachable!()
    }

    // Waits while no site has a turn; with pauses, once, and no longer than until a site has rested.
    fn wait_while_stuck<'w, P: Pace, R: Wait>(
        &self,
        rt: &R,
        pace: &P,
        waiting: MutexGuard<'w, SiteTable>,
        now: Option<Instant>,
    ) -> MutexGuard<'w, SiteTable> {
        if self.delay.is_zero() {
            return self
                .freed
                .wait_while(rt, waiting, |waiting| waiting.is_stuck());
        }
        let mut waiting = waiting;
        let most = waiting.line_up_rested(now).unwrap_or(self.delay);
        if waiting.is_stuck() {
            pace.wait(&self.freed, waiting, most)
        } else {
            waiting
        }
    }

    // The moment now, with pauses.
    fn moment_by<P: Pace>(&self, pace: &P) -> Option<Instant> {
        if self.delay.is_zero() {
            return None;
        }
        pace.now()
    }

    /// Waits until a fetch at the authority may begin, and notes its begin; or until the shift is over.
    pub(crate) fn await_turn<P: Pace, R: Wait>(&self, rt: &R, pace: &P, authority: &str) {
        if self.delay.is_zero() {
            return;
        }
        for _ in rt.forever() {
            if pace.is_over() {
                return self.end_pauses(rt);
            }
            let Some(now) = pace.now() else {
                // Without a clock nothing is known of the last fetch.
                pace.sleep(self.delay);
                return;
            };
            let mut waiting = self.waiting.lock(rt);
            let left = match self.names.get(authority) {
                Some(site) => waiting.begin(*site, now),
                None => waiting.begin_elsewhere(authority, now),
            };
            if left.is_zero() {
                self.freed.notify_all();
                return;
            }
            drop(pace.wait(&self.freed, waiting, left));
        }
    }

    fn pauses(&self) -> bool {
        !self.delay.is_zero()
    }

    // Ends all pauses, and wakes the workers that wait for them.
    fn end_pauses<R: Wait>(&self, rt: &R) {
        let mut waiting = self.waiting.lock(rt);
        if !waiting.delay.is_zero() {
            waiting.delay = Duration::ZERO;
            self.freed.notify_all();
        }
    }

    /// Notes that a fetch at the authority begins now, without waiting.
    pub(crate) fn note_fetch<P: Pace, R: Wait>(&self, rt: &R, pace: &P, authority: &str) {
        let Some(now) = self.moment_by(pace) else {
            return;
        };
        let mut waiting = self.waiting.lock(rt);
        match self.names.get(authority) {
            Some(site) => waiting.note(*site, now),
            None => waiting.strangers.note(authority, now),
        }
    }

    pub(crate) fn leave<R: Wait>(&self, rt: &R, site: usize) {
        if self.waiting.lock(rt).leave(site) {
            self.freed.notify_all();
        }
    }

    /// The fetch of the authority's robots.txt begins.
    pub(crate) fn asks<R: Wait>(&self, rt: &R, authority: &str) {
        self.learn(rt, authority, Robots::Fetched);
    }

    /// An answer of the authority's robots.txt is known, or none will come.
    pub(crate) fn answered<R: Wait>(&self, rt: &R, authority: &str) {
        self.learn(rt, authority, Robots::Answered);
    }

    fn learn<R: Wait>(&self, rt: &R, authority: &str, robots: Robots) {
        let Some(site) = self.names.get(authority) else {
            return;
        };
        if self.waiting.lock(rt).learn(*site, robots) {
            self.freed.notify_all();
        }
    }
}

impl SiteTable {
    fn add(&mut self, count: u64) -> Result<(), AllocError> {
        let site = self.sites.len();
        self.sites.push(ShiftSite {
            left: count,
            workers: 0,
            robots: Robots::Unknown,
            begun: LastBegin::never(),
            next_is_taken: false,
        })?;
        self.left = self.left.saturating_add(count);
        self.line_up(site);
        Ok(())
    }

    // Whether jobs are left, but no site has a turn.
    fn is_stuck(&self) -> bool {
        self.left > 0 && self.turns.is_empty()
    }

    // Enters the first site in turn that a worker may enter and that is not crowded while others may be
    // entered. A skipped site is lined up again when it may be entered, or has rested.
    fn enter(&mut self, now: Option<Instant>) -> Option<usize> {
        let mut crowded = None;
        for _ in 0..self.sites.len().saturating_add(1) {
            let site = self.turns.take()?;
            if !self.rest_of(site, now).is_zero() {
                continue;
            }
            if crowded != Some(site) && self.is_crowded(site) {
                crowded = Some(site);
                self.line_up(site);
                continue;
            }
            if self.let_in(site) {
                return Some(site);
            }
        }
        None
    }

    // How long a fetch at the site would have to wait.
    fn rest_of(&self, site: usize, now: Option<Instant>) -> Duration {
        match (self.sites.get(site), now) {
            (Some(site), Some(now)) => site.begun.wait(self.delay, now),
            _ => Duration::ZERO,
        }
    }

    // Lines up the sites at which no fetch must wait. Returns how long until another has rested.
    fn line_up_rested(&mut self, now: Option<Instant>) -> Option<Duration> {
        let mut first: Option<Duration> = None;
        for site in 0..self.sites.len() {
            let rest = self.rest_of(site, now);
            if rest.is_zero() {
                self.line_up(site);
            } else {
                first = Some(first.map_or(rest, |other| other.min(rest)));
            }
        }
        first
    }

    // Begins a fetch at the site unless it must wait; returns how long.
    fn begin(&mut self, site: usize, now: Instant) -> Duration {
        let delay = self.delay;
        match self.sites.get_mut(site) {
            Some(site) => site.begin(delay, now),
            None => Duration::ZERO,
        }
    }

    // Begins a fetch at an authority that no job names unless it must wait; returns how long.
    fn begin_elsewhere(&mut self, authority: &str, now: Instant) -> Duration {
        self.strangers.begin(authority, self.delay, now)
    }

    // Notes that a fetch at the site begins now, without waiting.
    fn note(&mut self, site: usize, now: Instant) {
        if let Some(site) = self.sites.get_mut(site) {
            site.begun.note(now);
        }
    }

    // Whether all workers but one are there.
    fn is_crowded(&self, site: usize) -> bool {
        self.sites
            .get(site)
            .is_some_and(|site| site.workers >= self.crowd)
    }

    // Lets a worker enter a site if it may; returns whether it may. The site then has its turn after the
    // others.
    fn let_in(&mut self, site: usize) -> bool {
        let places = self.places;
        let pauses = !self.delay.is_zero();
        let may = self
            .sites
            .get_mut(site)
            .is_some_and(|site| site.enter(places, pauses));
        if may {
            self.left = self.left.saturating_sub(1);
            self.line_up(site);
        }
        may
    }

    // A worker leaves; returns whether that gives the site a turn.
    fn leave(&mut self, site: usize) -> bool {
        if let Some(site) = self.sites.get_mut(site) {
            site.leave();
        }
        self.line_up(site)
    }

    // Notes the state of a site's robots.txt; returns whether that gives the site a turn.
    fn learn(&mut self, site: usize, robots: Robots) -> bool {
        if let Some(site) = self.sites.get_mut(site) {
            site.robots = robots;
        }
        self.line_up(site)
    }

    // Gives a site a turn after the others, if a worker may enter it and it has none.
    fn line_up(&mut self, site: usize) -> bool {
        let places = self.places;
        self.sites
            .get(site)
            .is_some_and(|site| site.may_enter(places))
            && self.turns.line_up(site)
    }
}
